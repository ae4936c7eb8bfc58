//! The field as a ring: what the ring trait asks, and its maps from integers.
ghost use Rattle.std.specs.Prelude.{◌≡◌};
ghost use Rattle.example_mersenne31.specs.Elements.{canon, of, ops, is};
ghost use Rattle.example_mersenne31.specs.declared.words.TheConstants.{P};

use crate::value::Mersenne31;
use crate::words::{P, halve_residue};
use p3_field::integers::integer::Integer;
use p3_field::integers::{IntegerQuotient, Quotient, QuotientMap};
use p3_field::{PrimeCharacteristicRing, RingSums, product_from, sum_from};
use std::iter::{Product, Sum};

impl Quotient for Mersenne31 {
    ghost use Rattle.p3_field.specs.Residues.{canon-below};

    ghost order = { P };

    ghost canon = { canon };

    ghost below = { canon-below is };
}

impl<Int: Integer> QuotientMap<Int> for Mersenne31 {
    #[inline]
    fn from_int(int: Int) -> Self {
        Self::from_residue(int.remainder(P as u64))
    }

    #[inline]
    fn from_canonical_checked(int: Int) -> Option<Self> {
        match int.canonical(P as u64) {
            Some(residue) => Some(Self::from_residue(residue)),
            None => None,
        }
    }

    #[inline]
    fn from_canonical_unchecked(int: Int) -> Self {
        Self::from_residue(int.word())
    }
}

impl IntegerQuotient for Mersenne31 {
    #[inline]
    fn of_integer<Int: Integer>(int: Int) -> Self {
        Self::from_int(int)
    }
}

impl PrimeCharacteristicRing for Mersenne31 {
    ghost use Rattle.p3_field.specs.Residues.{residue_laws, is_of, is_difference};
    ghost use Rattle.p3_field.specs.ResidueMultiples.{of_nat-order};

    type PrimeSubfield = Self;

    ghost ops = { ops };

    #[inline]
    fn zero() -> Self {
        Self::new(0)
    }

    #[inline]
    fn one() -> Self {
        Self::new(1)
    }

    #[inline]
    fn from_prime_subfield(f: Self) -> Self {
        f
    }

    #[inline]
    fn halve(&self) -> Self {
        Mersenne31 {
            word: halve_residue(self.word),
        }
    }

    ghost ring = { residue_laws is };

    ghost characteristic = { of_nat-order is };

    ghost adds = { record { callable = λ _ _. tt; exact = λ x y r h. is_of is r _ h } };

    ghost add_assigns = { record { callable = λ _ _. tt; exact = λ x y r h. is_of is r _ h } };

    ghost subs = { record { callable = λ _ _. tt; exact = λ x y r h. is_difference is x y r h } };

    ghost sub_assigns = { record { callable = λ _ _. tt; exact = λ x y r h. is_difference is x y r h } };

    ghost negs = { record { callable = λ _. tt; exact = λ x r h. is_of is r _ h } };

    ghost muls = { record { callable = λ _ _. tt; exact = λ x y r h. is_of is r _ h } };

    ghost mul_assigns = { record { callable = λ _ _. tt; exact = λ x y r h. is_of is r _ h } };
}

impl Sum<Mersenne31> for Mersenne31 {
    ghost use Rattle.p3_field.specs.Operators.{sum_list};

    ghost sum_gives = { λ xs r. r ≡ sum_list ops xs };

    #[inline]
    fn sum<I: Iterator<Item = Self>>(iter: I) -> Self {
        sum_from(Self::new(0), iter)
    }
}

impl Product<Mersenne31> for Mersenne31 {
    ghost use Rattle.p3_field.specs.Operators.{product_list};

    ghost product_gives = { λ xs r. r ≡ product_list ops xs };

    #[inline]
    fn product<I: Iterator<Item = Self>>(iter: I) -> Self {
        product_from(Self::new(1), iter)
    }
}

impl RingSums for Mersenne31 {
    ghost sums = { record { callable = λ _. tt; exact = λ _ _ h. h; whole = λ _. tt } };

    ghost products = { record { callable = λ _. tt; exact = λ _ _ h. h; whole = λ _. tt } };
}
