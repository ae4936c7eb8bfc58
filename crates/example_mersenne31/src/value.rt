//! The values and their ring operations, by shifts and sums.
ghost use Rattle.std.specs.Prelude.{◌≡◌, ◌<◌, ◌+◌, ◌-◌, ◌*◌, ◌%◌, ◌==◌, ⊤};
ghost use Rattle.example_mersenne31.specs.declared.words.TheConstants.{P};

use crate::words::{P, add_residues, multiply_residues, negate_residue, reduce, subtract_residues};
use std::alloc::AllocError;
use std::ops::{Add, AddAssign, Mul, MulAssign, Neg, Sub, SubAssign};

/// A residue modulo 2^31 - 1, stored as the number from 0 to 2^31 - 2 that it is.
pub struct Mersenne31 {
    pub(crate) word: u32,
    pub ghost below: { word < P },
}

impl Clone for Mersenne31 {
    ghost is_clone = { λ x y. y ≡ x };

    ghost is_infallible = { λ _. ⊤ };

    #[inline]
    fn clone(&self) -> Result<Self, AllocError> {
        Ok(*self)
    }
}

impl Copy for Mersenne31 {}

impl Mersenne31 {
    ghost use Rattle.example_mersenne31.specs.Elements.{of};

    /// The residue of a number of 32 bits.
    #[inline]
    pub fn new(value: u32) -> Self
        ensures { result ≡ of value }
    {
        Self::residue_of(value as u64)
    }

    /// The residue of a number of 64 bits.
    #[inline]
    pub(crate) fn residue_of(value: u64) -> Self
        ensures { result ≡ of value }
    {
        Mersenne31 {
            word: reduce(value),
        }
    }

    /// The value whose canonical value is given.
    #[inline]
    pub(crate) fn from_residue(residue: u64) -> Self
        requires { residue < P }
        ensures { result.word ≡ residue }
    {
        Mersenne31 {
            word: residue as u32,
        }
    }
}

impl Add for Mersenne31 {
    type Output = Self;

    ghost add_gives = { λ x y r. r.word ≡ (x.word + y.word) % P };

    #[inline]
    fn add(self, other: Self) -> Self {
        Mersenne31 {
            word: add_residues(self.word, other.word),
        }
    }
}

impl AddAssign for Mersenne31 {
    ghost add_assign_gives = { λ x y r. r.word ≡ (x.word + y.word) % P };

    #[inline]
    fn add_assign(&mut self, other: Self) {
        *self = *self + other;
    }
}

impl Sub for Mersenne31 {
    type Output = Self;

    ghost sub_gives = { λ x y r. r.word ≡ (x.word + (P - y.word)) % P };

    #[inline]
    fn sub(self, other: Self) -> Self {
        Mersenne31 {
            word: subtract_residues(self.word, other.word),
        }
    }
}

impl SubAssign for Mersenne31 {
    ghost sub_assign_gives = { λ x y r. r.word ≡ (x.word + (P - y.word)) % P };

    #[inline]
    fn sub_assign(&mut self, other: Self) {
        *self = *self - other;
    }
}

impl Neg for Mersenne31 {
    type Output = Self;

    ghost neg_gives = { λ x r. r.word ≡ (P - x.word) % P };

    #[inline]
    fn neg(self) -> Self {
        Mersenne31 {
            word: negate_residue(self.word),
        }
    }
}

impl Mul for Mersenne31 {
    type Output = Self;

    ghost mul_gives = { λ x y r. r.word ≡ (x.word * y.word) % P };

    #[inline]
    fn mul(self, other: Self) -> Self {
        Mersenne31 {
            word: multiply_residues(self.word, other.word),
        }
    }
}

impl MulAssign for Mersenne31 {
    ghost mul_assign_gives = { λ x y r. r.word ≡ (x.word * y.word) % P };

    #[inline]
    fn mul_assign(&mut self, other: Self) {
        *self = *self * other;
    }
}
