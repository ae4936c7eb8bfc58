//! Packings that take at least the memory of a scalar.
ghost use Rattle.std.specs.Prelude.{◌≤◌};
ghost use Rattle.std.specs.Mem.{type_size};

use crate::packed_ext_field::Packing;
use p3_field_traits::packed_traits::Packable;

/// A packing that takes at least the memory of a value of F: where packed extension values fit in
/// memory, so does an extension value. It is owed once for each packing, by computing on its layout;
/// this project's own.
pub trait HoldsScalar<F>: Packing<Scalar = F> {
    /// A packing is no smaller than a value of F.
    ghost holds: { type_size F.row ≤ type_size Self.row };
}

/// A value takes the memory of itself.
impl<F: Packable> HoldsScalar<F> for F {
    ghost use Rattle.std.proofs.Common.{arith};

    ghost holds = { omega arith };
}
