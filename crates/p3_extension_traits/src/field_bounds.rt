//! What upstream asks of every field beside its operations, gathered for generic code that wants it
//! all: upstream has these bounds on `PrimeCharacteristicRing`, `Field` and `PrimeField` themselves.

ghost use Rattle.std.specs.Prelude.{◌≡◌};
ghost use Rattle.std.specs.Ordering.{nat_cmp};

use crate::streams::RawDataSerializable;
use p3_field_traits::field::{Field, PrimeField};
use p3_field_traits::packed_traits::Packable;
use std::fmt::Debug;
use std::hash::Hash;

/// A field whose values also have a default, a hash, bytes and a text for programmers, and may stand
/// in a lane. Upstream's bounds on rings and fields; this project's own name. That equal values hash
/// alike is a law of `Hash`.
pub trait FieldBounds: Field + Debug + Hash + RawDataSerializable + Packable {
    /// The default value is zero.
    ghost default_is_zero: { (x : Self) → Self.is_default x → x ≡ Self.ops.zero };
}

/// A prime field with all bounds of fields and an order. Upstream's bounds on `PrimeField`; this
/// project's own name.
pub trait PrimeFieldBounds: FieldBounds + PrimeField + Ord {
    /// The order is that of the canonical values.
    ghost ordered: { (x y : Self) → Self.cmp x y ≡ nat_cmp (Self.canon x) (Self.canon y) };
}
