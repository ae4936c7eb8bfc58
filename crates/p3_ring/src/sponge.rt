//! The values that fill up a block of a hash.
ghost use Rattle.std.specs.Prelude.{◌≡◌, ℕ, replicate};

use crate::ring::PrimeCharacteristicRing;

/// A value that a hash over blocks may be filled up with: a zero and a one. Upstream's
/// `SpongePaddingValue`.
pub trait SpongePaddingValue: Copy {
    /// The zero.
    ghost zero_pad: { Self };

    /// The one.
    ghost one_pad: { Self };

    /// Zero, at each entry of an array.
    fn pad_zero() -> Self
        ensures { result ≡ zero_pad };

    /// One, at each entry of an array.
    fn pad_one() -> Self
        ensures { result ≡ one_pad };
}

impl<R: PrimeCharacteristicRing> SpongePaddingValue for R {
    ghost zero_pad = { R.ops.zero };

    ghost one_pad = { R.ops.one };

    #[inline]
    fn pad_zero() -> Self {
        R::zero()
    }

    #[inline]
    fn pad_one() -> Self {
        R::one()
    }
}

impl SpongePaddingValue for u64 {
    ghost zero_pad = { 0 };

    ghost one_pad = { 1 };

    #[inline]
    fn pad_zero() -> u64 {
        0
    }

    #[inline]
    fn pad_one() -> u64 {
        1
    }
}

impl<const N: usize> SpongePaddingValue for [u64; N] {
    ghost zero_pad = { replicate N 0 };

    ghost one_pad = { replicate N 1 };

    #[inline]
    fn pad_zero() -> [u64; N] {
        [0; N]
    }

    #[inline]
    fn pad_one() -> [u64; N] {
        [1; N]
    }
}
