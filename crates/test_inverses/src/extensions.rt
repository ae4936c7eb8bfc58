//! The calls at the values of each extension, implemented once for all markers of fields and all degrees.
use crate::value_calls::{Call, agrees};
use p3_extension::extension::{
    Binomial, BinomialExtensionField, Cubic, ExtField, ExtensionShape, FrobeniusExtendable,
    IntegerPolynomial, Modulo,
};
use p3_prime_fields::binomial_constants::BinomialConstants;
use p3_prime_fields::form::{Form, OverModulus, Plain};
use p3_prime_fields::fp::Fp;
use p3_prime_fields::polynomial_constants::PolynomialConstants;
use p3_prime_fields::small::{M15, M17b};
use std::alloc::{AllocError, Global};
use test_families::names::{Extension, Family};
use test_families::residues::{M4, NilpotentM17, SplitM17, SplitM31, SplitM59};
use test_families::values::Listed;

/// Whether a call has its answer at an extension of F. Over every field the check passes that field's traits alone.
/// Nothing is read of `_room`, which tells that a value has room.
fn values_agree<F: FrobeniusExtendable<D, S> + Listed, S: ExtensionShape, const D: usize>(
    alloc: Global,
    _room: Option<ExtField<F, D, S, F>>,
    call: &Call<'_>,
) -> Result<bool, AllocError> {
    agrees::<ExtField<F, D, S, F>>(alloc, call)
}

/// Whether a call has its answer at the extension by `X^D = W`. Nothing is read of `_room`, which tells that a value has
/// room.
fn of_binomial<W: OverModulus<u32>, const D: usize>(
    alloc: Global,
    _room: Option<BinomialExtensionField<Fp<W>, D>>,
    call: &Call<'_>,
) -> Result<bool, AllocError>
where
    W::Modulus: BinomialConstants<D>,
{
    values_agree::<Fp<W>, Binomial<Fp<W>>, D>(alloc, None, call)
}

/// The same at the extension by a polynomial with integer coefficients.
fn of_polynomial<W: OverModulus<u32>, S: IntegerPolynomial<D>, const D: usize>(
    alloc: Global,
    _room: Option<ExtField<Fp<W>, D, Modulo<S, D>, Fp<W>>>,
    call: &Call<'_>,
) -> Result<bool, AllocError>
where
    W::Modulus: PolynomialConstants<D, S>,
{
    values_agree::<Fp<W>, Modulo<S, D>, D>(alloc, None, call)
}

/// The same at residues themselves.
fn of_residues<W: Form<u32>>(alloc: Global, call: &Call<'_>) -> Result<bool, AllocError> {
    agrees::<Fp<W>>(alloc, call)
}

/// Whether a call has its answer at an extension by `X^D = 1` modulo 17.
fn of_split_17(alloc: Global, degree: usize, call: &Call<'_>) -> Result<bool, AllocError> {
    match degree {
        2 => of_binomial::<Plain<SplitM17>, 2>(alloc, None, call),
        4 => of_binomial::<Plain<SplitM17>, 4>(alloc, None, call),
        8 => of_binomial::<Plain<SplitM17>, 8>(alloc, None, call),
        _ => Ok(false),
    }
}

/// The same modulo 31.
fn of_split_31(alloc: Global, degree: usize, call: &Call<'_>) -> Result<bool, AllocError> {
    match degree {
        3 => of_binomial::<Plain<SplitM31>, 3>(alloc, None, call),
        5 => of_binomial::<Plain<SplitM31>, 5>(alloc, None, call),
        6 => of_binomial::<Plain<SplitM31>, 6>(alloc, None, call),
        _ => Ok(false),
    }
}

/// Whether a call has its answer at an extension; false at one that is a field.
pub(crate) fn agrees_at(
    extension: Extension,
    alloc: Global,
    call: &Call<'_>,
) -> Result<bool, AllocError> {
    match extension.family {
        Family::F17b => of_binomial::<Plain<M17b>, 2>(alloc, None, call),
        Family::Z15 => of_binomial::<Plain<M15>, 2>(alloc, None, call),
        Family::SplitF17 => of_split_17(alloc, extension.degree, call),
        Family::NilpotentF17 => of_binomial::<Plain<NilpotentM17>, 2>(alloc, None, call),
        Family::SplitF31 => of_split_31(alloc, extension.degree, call),
        Family::F59Cubic => of_polynomial::<Plain<SplitM59>, Cubic, 3>(alloc, None, call),
        Family::ResiduesOf15 => of_residues::<Plain<M15>>(alloc, call),
        Family::ResiduesOf4 => of_residues::<Plain<M4>>(alloc, call),
        _ => Ok(false),
    }
}
