//! Prime fields whose bytes are those of their unique numbers.

ghost use Rattle.std.specs.Prelude.{◌≡◌};
ghost use Rattle.std.specs.Int.{w32, w64, to_le_bytes};

use crate::streams::RawDataSerializable;
use p3_field_traits::field::{PrimeField32, PrimeField64};

/// A prime field of 32 bits whose values are written as the four bytes of `to_unique_u32`. This
/// project's own: upstream's fields write these bytes, and no law of upstream's says so.
pub trait PrimeField32Bytes: PrimeField32 + RawDataSerializable {
    /// The bytes of a value are those of its unique number, the lowest first.
    ghost unique_bytes: { (x : Self) → Self.bytes x ≡ to_le_bytes w32 (Self.unique_u32 x) };
}

/// A prime field of 64 bits whose values are written as the eight bytes of `to_unique_u64`. This
/// project's own, as `PrimeField32Bytes`.
pub trait PrimeField64Bytes: PrimeField64 + RawDataSerializable {
    /// The bytes of a value are those of its unique number, the lowest first.
    ghost unique_bytes: { (x : Self) → Self.bytes x ≡ to_le_bytes w64 (Self.unique_u64 x) };
}
