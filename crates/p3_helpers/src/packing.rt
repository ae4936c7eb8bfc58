//! A list of values of a small prime field as the digits of one value of a large prime field.

ghost use Rattle.std.specs.Prelude.{◌≡◌, ◌<◌};
ghost use Rattle.p3_helpers.specs.Digits.{pack, shifted_pack};

use p3_field_traits::field::{PrimeField, PrimeField32};

/// The value of TF for the number whose digits in radix `2^32`, the lowest first, are the canonical
/// values of the slice. Upstream's `reduce_32`.
#[inline]
#[must_use]
pub fn reduce_32<SF: PrimeField32, TF: PrimeField>(vals: &[SF]) -> TF
    ensures { TF.canon result ≡ pack SF.canon vals.now 32 TF.order }
{
    reduce_packed(vals, 32)
}

/// The value of TF for the number whose digits in radix `2^radix_bits`, the lowest first, are the
/// canonical values of the slice and one more each, so that a zero at the end counts. Upstream's
/// `reduce_packed_shifted`.
#[inline]
#[must_use]
pub fn reduce_packed_shifted<SF: PrimeField32, TF: PrimeField>(vals: &[SF], radix_bits: u32) -> TF
    requires narrow { radix_bits < 64 }
    ensures { TF.canon result ≡ shifted_pack SF.canon vals.now radix_bits TF.order }
{
    let base = TF::from_int(1u64 << radix_bits);
    let mut sum = TF::zero();
    for i in (0..vals.len()).rev() {
        sum = sum * base + TF::from_int(vals[i].as_canonical_u32() as u64 + 1);
    }
    sum
}

/// The value of TF for the number whose digits in radix `2^radix_bits`, the lowest first, are the
/// canonical values of the slice. Upstream's `reduce_packed`.
#[inline]
#[must_use]
pub fn reduce_packed<SF: PrimeField32, TF: PrimeField>(vals: &[SF], radix_bits: u32) -> TF
    requires narrow { radix_bits < 64 }
    ensures { TF.canon result ≡ pack SF.canon vals.now radix_bits TF.order }
{
    let base = TF::from_int(1u64 << radix_bits);
    let mut sum = TF::zero();
    for i in (0..vals.len()).rev() {
        sum = sum * base + TF::from_int(vals[i].as_canonical_u32());
    }
    sum
}
