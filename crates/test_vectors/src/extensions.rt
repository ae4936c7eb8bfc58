//! Runs over packings of 4 and 8 values of extensions, implemented once for all markers of fields: at a marker's own
//! name they pass the field's constants alone.
use crate::packings::{ExtensionRuns, ExtensionVectors};
use crate::runs::Run;
use p3_extension::extension::{
    Binomial, Cubic, CubicTrinomial, ExtensionShape, IntegerPolynomial, Modulo, Septic,
    SepticTrinomial,
};
use p3_packed_prime_fields::lanes::LaneCount;
use p3_packed_prime_fields::packed::Packed;
use p3_prime_fields::binomial_constants::BinomialConstants;
use p3_prime_fields::form::{Form, OverModulus};
use p3_prime_fields::fp::Fp;
use p3_prime_fields::polynomial_constants::PolynomialConstants;
use std::alloc::{AllocError, Global};

/// The extension of degree D by the shape S, of all fields that have it.
pub(crate) trait Extended<S: ExtensionShape, const D: usize>: Form<u32> {
    /// Whether a run over packings P leaves what it has to. Nothing is read of `vectors`.
    fn run_agrees<P: ExtensionRuns<Fp<Self>, S, D>>(
        alloc: Global,
        vectors: Option<P::Vectors>,
        run: &Run<'_>,
    ) -> Result<bool, AllocError>;
}

impl<W: OverModulus<u32>, const D: usize> Extended<Binomial<Fp<W>>, D> for W
where
    W::Modulus: BinomialConstants<D>,
{
    fn run_agrees<P: ExtensionRuns<Fp<W>, Binomial<Fp<W>>, D>>(
        alloc: Global,
        vectors: Option<P::Vectors>,
        run: &Run<'_>,
    ) -> Result<bool, AllocError> {
        P::run_agrees(alloc, vectors, run)
    }
}

impl<W: OverModulus<u32>, S: IntegerPolynomial<D>, const D: usize> Extended<Modulo<S, D>, D> for W
where
    W::Modulus: PolynomialConstants<D, S>,
{
    fn run_agrees<P: ExtensionRuns<Fp<W>, Modulo<S, D>, D>>(
        alloc: Global,
        vectors: Option<P::Vectors>,
        run: &Run<'_>,
    ) -> Result<bool, AllocError> {
        P::run_agrees(alloc, vectors, run)
    }
}

/// Whether a run over packings of N values leaves what it has to. That packings are named tells that they have
/// room; nothing is read of them.
fn lanes_agree<
    W: Form<u32> + LaneCount<N> + Extended<S, D>,
    S: ExtensionShape,
    const D: usize,
    const N: usize,
>(
    alloc: Global,
    _packing: Option<Packed<Fp<W>, N>>,
    vectors: Option<ExtensionVectors<Fp<W>, S, Packed<Fp<W>, N>, D>>,
    run: &Run<'_>,
) -> Result<bool, AllocError> {
    <W as Extended<S, D>>::run_agrees::<Packed<Fp<W>, N>>(alloc, vectors, run)
}

/// The same of the extension by `X^2 = W`, of packings of 4 or 8 values; false where there are no such packings
/// here.
pub(crate) fn over_quadratic<W: OverModulus<u32>>(
    alloc: Global,
    lanes: usize,
    run: &Run<'_>,
) -> Result<bool, AllocError>
where
    W::Modulus: BinomialConstants<2>,
{
    match lanes {
        4 => lanes_agree::<W, Binomial<Fp<W>>, 2, 4>(alloc, None, None, run),
        8 => lanes_agree::<W, Binomial<Fp<W>>, 2, 8>(alloc, None, None, run),
        _ => Ok(false),
    }
}

/// The same of the extension by `X^4 = W`.
pub(crate) fn over_quartic<W: OverModulus<u32>>(
    alloc: Global,
    lanes: usize,
    run: &Run<'_>,
) -> Result<bool, AllocError>
where
    W::Modulus: BinomialConstants<4>,
{
    match lanes {
        4 => lanes_agree::<W, Binomial<Fp<W>>, 4, 4>(alloc, None, None, run),
        8 => lanes_agree::<W, Binomial<Fp<W>>, 4, 8>(alloc, None, None, run),
        _ => Ok(false),
    }
}

/// The same of the extension by `X^3 = X + 1`.
pub(crate) fn over_cubic<W: OverModulus<u32>>(
    alloc: Global,
    lanes: usize,
    run: &Run<'_>,
) -> Result<bool, AllocError>
where
    W::Modulus: PolynomialConstants<3, Cubic>,
{
    match lanes {
        4 => lanes_agree::<W, CubicTrinomial, 3, 4>(alloc, None, None, run),
        8 => lanes_agree::<W, CubicTrinomial, 3, 8>(alloc, None, None, run),
        _ => Ok(false),
    }
}

/// The same of the extension by `X^7 = X + 1`.
pub(crate) fn over_septic<W: OverModulus<u32>>(
    alloc: Global,
    lanes: usize,
    run: &Run<'_>,
) -> Result<bool, AllocError>
where
    W::Modulus: PolynomialConstants<7, Septic>,
{
    match lanes {
        4 => lanes_agree::<W, SepticTrinomial, 7, 4>(alloc, None, None, run),
        8 => lanes_agree::<W, SepticTrinomial, 7, 8>(alloc, None, None, run),
        _ => Ok(false),
    }
}
