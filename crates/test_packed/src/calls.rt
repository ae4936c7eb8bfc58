//! The calls of the tables over the extensions of the bench, at packings of four and eight values. The functions
//! that choose the packings are generic over the marker of a field: a test then passes the field's constants
//! alone.
use crate::call_tables as tables;
use crate::cases::Case;
use crate::extension_calls::{BaseCalls, ComplexCalls, ExtensionCalls, ExtensionRooms};
use p3_extension::extension::{Binomial, ExtensionShape, IntegerPolynomial, Modulo, Septic};
use p3_packed_prime_fields::lanes::LaneCount;
use p3_packed_prime_fields::packed::Packed;
use p3_prime_fields::binomial_constants::BinomialConstants;
use p3_prime_fields::form::{Form, OverModulus, Plain};
use p3_prime_fields::fp::Fp;
use p3_prime_fields::polynomial_constants::PolynomialConstants;
use p3_prime_fields::small::{F31, M2, M17};
use std::alloc::{AllocError, Global};
use std::process::Abort;
use std::test::Fail;
use test_values::rows::Row;

/// The calls over packings at the extension of degree D by the shape S, implemented once for all fields that
/// have it.
trait Extended<S: ExtensionShape, const D: usize>: Form<u32> {
    /// Whether a call over packings P has its answer. Nothing is read of `rooms`.
    fn agrees<P: ExtensionCalls<Fp<Self>, S, D>>(
        alloc: Global,
        rooms: Option<P::Rooms>,
        case: &Case,
    ) -> Result<bool, AllocError>;
}

impl<W: OverModulus<u32>, const D: usize> Extended<Binomial<Fp<W>>, D> for W
where
    W::Modulus: BinomialConstants<D>,
{
    fn agrees<P: ExtensionCalls<Fp<W>, Binomial<Fp<W>>, D>>(
        alloc: Global,
        rooms: Option<P::Rooms>,
        case: &Case,
    ) -> Result<bool, AllocError> {
        P::agrees(alloc, rooms, case)
    }
}

impl<W: OverModulus<u32>, S: IntegerPolynomial<D>, const D: usize> Extended<Modulo<S, D>, D> for W
where
    W::Modulus: PolynomialConstants<D, S>,
{
    fn agrees<P: ExtensionCalls<Fp<W>, Modulo<S, D>, D>>(
        alloc: Global,
        rooms: Option<P::Rooms>,
        case: &Case,
    ) -> Result<bool, AllocError> {
        P::agrees(alloc, rooms, case)
    }
}

/// Whether a call over packings of N values has its answer. That packings are named tells that they have room;
/// nothing is read of them.
fn lanes_agree<
    W: Form<u32> + LaneCount<N> + Extended<S, D>,
    S: ExtensionShape,
    const D: usize,
    const N: usize,
>(
    alloc: Global,
    _packing: Option<Packed<Fp<W>, N>>,
    rooms: Option<ExtensionRooms<Fp<W>, S, Packed<Fp<W>, N>, D>>,
    case: &Case,
) -> Result<bool, AllocError> {
    <W as Extended<S, D>>::agrees::<Packed<Fp<W>, N>>(alloc, rooms, case)
}

/// The same of the extension by `X^2 = W`, over packings of four values or else of eight.
fn over_quadratic<W: OverModulus<u32>>(
    alloc: Global,
    of_four: bool,
    case: &Case,
) -> Result<bool, AllocError>
where
    W::Modulus: BinomialConstants<2>,
{
    if of_four {
        lanes_agree::<W, Binomial<Fp<W>>, 2, 4>(alloc, None, None, case)
    } else {
        lanes_agree::<W, Binomial<Fp<W>>, 2, 8>(alloc, None, None, case)
    }
}

/// The same by `X^7 = X + 1`.
fn over_septic<W: OverModulus<u32>>(alloc: Global, case: &Case) -> Result<bool, AllocError>
where
    W::Modulus: PolynomialConstants<7, Septic>,
{
    lanes_agree::<W, Modulo<Septic, 7>, 7, 4>(alloc, None, None, case)
}

/// Whether a call over packings of four values of a field itself, which is an extension of its own, has its answer.
/// Nothing is read of `_packing`.
fn over_base<W: Form<u32> + LaneCount<4>>(
    alloc: Global,
    _packing: Option<Packed<Fp<W>, 4>>,
    case: &Case,
) -> Result<bool, AllocError> {
    <Packed<Fp<W>, 4> as BaseCalls<Fp<W>>>::base_agrees(alloc, case)
}

/// The same of the field itself, which is a packing of one lane.
fn over_values<W: Form<u32>>(alloc: Global, case: &Case) -> Result<bool, AllocError> {
    <Fp<W> as BaseCalls<Fp<W>>>::base_agrees(alloc, case)
}

/// The packings.
#[derive(Clone, Copy)]
enum Packings {
    /// The residues modulo 17 themselves.
    F17,
    /// Four of them.
    FourF17,
    /// Four values of their extension by `X^2 = 3`.
    FourF17x2,
    /// Eight of these.
    EightF17x2,
    /// Four values of the extension of the bits by `X^7 = X + 1`.
    FourF2t7,
    /// Four complex values of the residues modulo 31.
    FourF31c,
}

/// Their fields and numbers of lanes.
static NAMES: [(&str, &str, Packings); 6] = [
    ("f17", "1", Packings::F17),
    ("f17", "4", Packings::FourF17),
    ("f17x2", "4", Packings::FourF17x2),
    ("f17x2", "8", Packings::EightF17x2),
    ("f2t7", "4", Packings::FourF2t7),
    ("f31c", "4", Packings::FourF31c),
];

/// The packings that a row names.
fn packings_of(row: Row<'_>) -> Option<Packings> {
    for known in &NAMES {
        let (field, lanes, packings) = *known;
        if field == row.field && lanes == row.lanes {
            return Some(packings);
        }
    }
    None
}

/// Whether the call over packings has its answer.
fn packings_agree(alloc: Global, packings: Packings, case: &Case) -> Result<bool, AllocError> {
    match packings {
        Packings::F17 => over_values::<Plain<M17>>(alloc, case),
        Packings::FourF17 => over_base::<Plain<M17>>(alloc, None, case),
        Packings::FourF17x2 => over_quadratic::<Plain<M17>>(alloc, true, case),
        Packings::EightF17x2 => over_quadratic::<Plain<M17>>(alloc, false, case),
        Packings::FourF2t7 => over_septic::<Plain<M2>>(alloc, case),
        Packings::FourF31c => {
            Ok(<Packed<F31, 4> as ComplexCalls<F31>>::complex_agrees(None, case))
        }
    }
}

/// Whether the call of a line has its answer; false where the line can't be read or names no call.
fn agrees(alloc: Global, line: &str) -> Result<bool, AllocError> {
    let Some(row) = Row::read(line) else {
        return Ok(false);
    };
    let Some(packings) = packings_of(row) else {
        return Ok(false);
    };
    match Case::read(alloc, row)? {
        Some(case) => packings_agree(alloc, packings, &case),
        None => Ok(false),
    }
}

/// Asserts that the call of each line has its answer.
fn assert_table(rt: &(impl Abort + AllocGlobal), table: &str) -> Result<(), Fail> {
    for line in table.lines() {
        if !line.is_empty() {
            assert!(rt; agrees(rt.alloc(), line)?, "{line}");
        }
    }
    Ok(())
}

#[test]
fn calls_worked_by_hand(rt: HostRuntime) -> Result<(), Fail> {
    assert_table(&rt, tables::BY_HAND)
}

#[test]
fn outside_calls(rt: HostRuntime) -> Result<(), Fail> {
    assert_table(&rt, tables::OUTSIDE)?;
    assert_table(&rt, tables::OPERATIONS)?;
    assert_table(&rt, tables::COLUMNWISE)?;
    assert_table(&rt, tables::COLUMNWISE_OF_EIGHT)?;
    assert_table(&rt, tables::OVER_F2T7)
}

#[test]
fn calls_by_the_definitions(rt: HostRuntime) -> Result<(), Fail> {
    assert_table(&rt, tables::EACH)?;
    assert_table(&rt, tables::OTHER_OPERATIONS)
}
