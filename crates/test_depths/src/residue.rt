//! Residues modulo a prime, the sides of the ring that notes depths.
ghost use Rattle.std.specs.Prelude.{◌≡◌, ◌<◌, ⊤};
ghost use Rattle.p3_theory.specs.Rings.Multiples.{remainder_of};

use p3_integers::integers::integer::Integer;
use p3_integers::integers::{IntegerQuotient, Quotient};
use std::alloc::AllocError;

/// The order of the residues, a prime.
pub const ORDER: u64 = 1031;

/// A residue modulo 1031.
pub struct Residue {
    pub word: u16,
    ghost below: { word < 1031 },
}

impl Clone for Residue {
    ghost is_clone = { λ x y. y ≡ x };

    ghost is_infallible = { λ _. ⊤ };

    fn clone(&self) -> Result<Self, AllocError> {
        Ok(*self)
    }
}

impl Copy for Residue {}

impl Residue {
    ghost use Rattle.test_depths.specs.Residues.{of, ops};

    /// The residue of a number.
    pub fn of(number: u64) -> Self
        ensures { result ≡ of number }
    {
        Residue {
            word: (number % ORDER) as u16,
        }
    }

    /// The sum.
    pub fn plus(self, other: Self) -> Self
        ensures { result ≡ ops.add self other }
    {
        Self::of(self.word as u64 + other.word as u64)
    }

    /// The negation.
    pub fn negated(self) -> Self
        ensures { result ≡ ops.neg self }
    {
        Self::of(ORDER - self.word as u64)
    }

    /// The product.
    pub fn times(self, other: Self) -> Self
        ensures { result ≡ ops.mul self other }
    {
        Self::of(self.word as u64 * other.word as u64)
    }

    /// The half: 516 times the residue.
    pub fn half(self) -> Self
        ensures { result ≡ ops.mul self (of 516) }
    {
        self.times(Self::of(516))
    }
}

impl Quotient for Residue {
    ghost use Rattle.p3_theory.specs.ResidueRings.Residues.{canon-below};
    ghost use Rattle.test_depths.specs.Residues.{canon, is};

    ghost order = { 1031 };

    ghost canon = { canon };

    ghost below = { canon-below is };
}

impl IntegerQuotient for Residue {
    fn of_integer<Int: Integer>(int: Int) -> Self {
        Residue {
            word: int.remainder(ORDER) as u16,
        }
    }
}
