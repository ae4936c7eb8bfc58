//! The prime fields of the calculator: the one coefficient of a residue is its canonical value.
ghost use Rattle.std.specs.Prelude.{◌≡◌, string_bytes, slice_set, IfOk};

use crate::field::CalculatorField;
use p3_field_traits::field::Field;
use p3_field_traits::sqrt::tonelli_shanks;
use p3_integers::integers::QuotientMap;
use p3_prime_fields::form::{Form, Word};
use p3_prime_fields::fp::Fp;
use p3_ring::ring::PrimeCharacteristicRing;
use std::alloc::{AllocError, Allocator};

impl<W: Form<T>, T: Word> CalculatorField for Fp<W, T> {
    ghost use Rattle.std.specs.Prelude.{[], ◌∷◌};
    ghost use Rattle.std.proofs.Common.{ap};
    ghost use Rattle.p3_theory.specs.ResidueRings.Residues.{are_residues};
    ghost use Rattle.p3_prime_fields.specs.Elements.{canon, of, ops, is};
    ghost use Rattle.p3_calculator.specs.Coefficients.{one_coefficient, residues_represented};
    ghost use Rattle.p3_calculator.specs.Fields.{ResiduesModulo};

    ghost spec = { ResiduesModulo W.ORDER W.GENERATOR };

    ghost coefficients = { one_coefficient (canon W.Form) };

    ghost ops = { ops W.Form };

    ghost generator = { of W.Form W.GENERATOR };

    fn base_order() -> u64 {
        W::ORDER
    }

    fn coefficient_count() -> usize {
        1
    }

    fn zero() -> Self {
        Self::default()
    }

    fn with_coefficient(self, i: usize, c: u64) -> Self {
        Self::from_canonical_unchecked(c)
    }

    fn sum(self, other: Self) -> Self {
        self + other
    }

    fn difference(self, other: Self) -> Self {
        self - other
    }

    fn product(self, other: Self) -> Self {
        self * other
    }

    fn negation(self) -> Self {
        -self
    }

    fn squared(self) -> Self {
        self.square()
    }

    fn doubled(self) -> Self {
        self.double()
    }

    fn power(self, exponent: u64) -> Self {
        self.exp_u64(exponent)
    }

    fn inverse(self) -> Option<Self> {
        self.try_inverse()
    }

    fn root(self) -> Option<Self> {
        tonelli_shanks(self)
    }

    fn text<A: Allocator + Copy>(self, alloc: A) -> Result<String<A>, AllocError> {
        self.to_string(alloc)
    }

    ghost represents = { residues_represented W.ORDER (ops W.Form) (canon W.Form) (are_residues (is W.Form)) W.GENERATOR };

    ghost generator_is = { ap (λ c. c ∷ []) ((is W.Form {bounds = T.Word}).canon_of W.GENERATOR) };
}
