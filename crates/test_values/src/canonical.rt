//! Residues from and to their canonical numbers alone.
use p3_field_traits::field::PrimeField64;
use p3_prime_fields::form::{Form, Word};
use p3_prime_fields::fp::Fp;
use p3_ring::ring::PrimeCharacteristicRing;

/// A residue from and to its canonical number, and no more of a prime field: a function that is bounded by all of one
/// takes seconds more to check.
pub trait Canonical: Copy {
    /// The residue of a number.
    fn of_number(number: u64) -> Self;

    /// The number, which is below the order.
    fn canonical(self) -> u64;
}

impl<W: Form<T>, T: Word> Canonical for Fp<W, T> {
    fn of_number(number: u64) -> Self {
        Self::from_u64(number)
    }

    fn canonical(self) -> u64 {
        self.as_canonical_u64()
    }
}
