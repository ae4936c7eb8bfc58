//! The calls of the extensions at the markers of fields, implemented once for all fields: a call at a
//! marker's own name passes the field's constants alone.

use crate::cases::Case;
use crate::fields::{binomial_agrees, two_adic_binomial_agrees, two_adic_shape_agrees};
use p3_extension::extension::{
    Binomial, BinomialExtensionField, ExtField, IntegerPolynomial, Modulo,
};
use p3_prime_fields::binomial_constants::BinomialConstants;
use p3_prime_fields::form::{Form, OverModulus};
use p3_prime_fields::fp::Fp;
use p3_prime_fields::two_adic_constants::{TwoAdicBinomialConstants, TwoAdicPolynomialConstants};
use std::alloc::{AllocError, Global};

/// The extension by `X^D = W` that has two-adic generators.
pub struct TwoAdicBinomial;

/// The calls at the extension of degree D by the shape S.
pub trait Calls<S, const D: usize>: Form<u32> {
    /// The values. Of an associated type it is known that its values have room.
    type Value: Copy;

    /// Whether a call has its answer. Nothing is read of `room`.
    fn agrees(alloc: Global, room: Option<Self::Value>, case: Case<'_>) -> Result<bool, AllocError>;
}

impl<W: OverModulus<u32>, const D: usize> Calls<Binomial<Fp<W>>, D> for W
where
    W::Modulus: BinomialConstants<D>,
{
    type Value = BinomialExtensionField<Fp<W>, D>;

    fn agrees(
        alloc: Global,
        room: Option<BinomialExtensionField<Fp<W>, D>>,
        case: Case<'_>,
    ) -> Result<bool, AllocError> {
        binomial_agrees::<Fp<W>, D>(alloc, room, case)
    }
}

impl<W: OverModulus<u32>, S: IntegerPolynomial<D>, const D: usize> Calls<Modulo<S, D>, D> for W
where
    W::Modulus: TwoAdicPolynomialConstants<D, S>,
{
    type Value = ExtField<Fp<W>, D, Modulo<S, D>, Fp<W>>;

    fn agrees(
        alloc: Global,
        room: Option<ExtField<Fp<W>, D, Modulo<S, D>, Fp<W>>>,
        case: Case<'_>,
    ) -> Result<bool, AllocError> {
        two_adic_shape_agrees::<Fp<W>, Modulo<S, D>, D>(alloc, room, case)
    }
}

impl<W: OverModulus<u32>, const D: usize> Calls<TwoAdicBinomial, D> for W
where
    W::Modulus: TwoAdicBinomialConstants<D>,
{
    type Value = BinomialExtensionField<Fp<W>, D>;

    fn agrees(
        alloc: Global,
        room: Option<BinomialExtensionField<Fp<W>, D>>,
        case: Case<'_>,
    ) -> Result<bool, AllocError> {
        two_adic_binomial_agrees::<Fp<W>, D>(alloc, room, case)
    }
}
