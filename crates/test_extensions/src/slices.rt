//! Worked products and squares over slices. What writes to a slice does so where ones were.

use crate::cases::part;
use crate::values::coefficients;
use crate::{septic_tables as septic, slice_tables as worked};
use p3_extension::extension::{
    binomial_mul, binomial_square, cubic_square, octic_mul, quartic_mul, quintic_mul,
    quintic_square, septic_square, trinomial_cubic_mul, trinomial_quintic_mul,
    trinomial_septic_mul, vector_add, vector_sub,
};
use p3_prime_fields::baby_bear::BabyBearModulus;
use p3_prime_fields::form::{Form, Plain, Word};
use p3_prime_fields::fp::Fp;
use p3_prime_fields::goldilocks::GoldilocksForm;
use p3_prime_fields::montgomery::Montgomery;
use p3_prime_fields::small::{M2, M15, M17, M31};
use p3_ring::ring::PrimeCharacteristicRing;
use std::process::Abort;
use test_values::canonical::Canonical;
use test_values::lists::{List, MOST, ZERO, list_of_text};
use test_values::texts::named;

/// What is computed from two lists of coefficients, a and b, and W.
#[derive(Clone, Copy)]
enum BinomialCall {
    /// The product at degree 4, by the call for any degree.
    ProductOfFour,
    /// The product at degree 6, by the call for any degree.
    ProductOfSix,
    /// The square of a at degree 4, by the call for any degree.
    SquareOfFour,
    /// The square of a at degree 6, by the call for any degree.
    SquareOfSix,
    QuarticProduct,
    QuinticProduct,
    OcticProduct,
}

/// What is computed from two lists of coefficients, a and b.
#[derive(Clone, Copy)]
enum Call {
    Binomial(BinomialCall),
    CubicProduct,
    /// The square of b, written over the product.
    CubicSquare,
    QuinticProduct,
    /// The square of b, written over the product.
    QuinticSquare,
    SepticProduct,
    /// The square of a, written over the product.
    SepticSquare,
    Sum,
    Difference,
}

/// The calls by their names.
static CALLS: [(&str, Call); 15] = [
    (
        "binomial_mul 4",
        Call::Binomial(BinomialCall::ProductOfFour),
    ),
    ("binomial_mul 6", Call::Binomial(BinomialCall::ProductOfSix)),
    (
        "binomial_square 4",
        Call::Binomial(BinomialCall::SquareOfFour),
    ),
    (
        "binomial_square 6",
        Call::Binomial(BinomialCall::SquareOfSix),
    ),
    ("quartic_mul", Call::Binomial(BinomialCall::QuarticProduct)),
    ("quintic_mul", Call::Binomial(BinomialCall::QuinticProduct)),
    ("octic_mul", Call::Binomial(BinomialCall::OcticProduct)),
    ("trinomial_cubic_mul", Call::CubicProduct),
    ("cubic_square", Call::CubicSquare),
    ("trinomial_quintic_mul", Call::QuinticProduct),
    ("quintic_square", Call::QuinticSquare),
    ("trinomial_septic_mul", Call::SepticProduct),
    ("septic_square", Call::SepticSquare),
    ("vector_add", Call::Sum),
    ("vector_sub", Call::Difference),
];

/// The canonical numbers of coefficients.
fn numbers<R: Canonical, const N: usize>(coefficients: [R; N]) -> List {
    let mut list = ZERO;
    for i in 0..N {
        if i < MOST {
            list[i] = coefficients[i].canonical();
        }
    }
    list
}

/// The product at degree N, by the call for any degree.
fn product<R: PrimeCharacteristicRing, const N: usize>(a: [R; N], b: [R; N], w: R) -> [R; N] {
    let mut res = [R::one(); N];
    if N >= 1 {
        binomial_mul::<R, R, R, N>(&a, &b, &mut res, w);
    }
    res
}

/// The square at degree N, by the call for any degree.
fn square<R: PrimeCharacteristicRing, const N: usize>(a: [R; N], w: R) -> [R; N] {
    let mut res = [R::one(); N];
    if N >= 1 {
        binomial_square::<R, R, N>(&a, &mut res, w);
    }
    res
}

/// The product at degree 4.
fn quartic_product<R: PrimeCharacteristicRing>(a: [R; 4], b: [R; 4], w: R) -> [R; 4] {
    let mut res = [R::one(); 4];
    quartic_mul(&a, &b, &mut res, w);
    res
}

/// The product at degree 5.
fn quintic_product<R: PrimeCharacteristicRing>(a: [R; 5], b: [R; 5], w: R) -> [R; 5] {
    let mut res = [R::one(); 5];
    quintic_mul(&a, &b, &mut res, w);
    res
}

/// The product at degree 8.
fn octic_product<R: PrimeCharacteristicRing>(a: [R; 8], b: [R; 8], w: R) -> [R; 8] {
    let mut res = [R::one(); 8];
    octic_mul(&a, &b, &mut res, w);
    res
}

/// The product by the quintic trinomial, and the square of its second factor written over it.
fn quintic_results<R: PrimeCharacteristicRing>(a: [R; 5], b: [R; 5]) -> ([R; 5], [R; 5]) {
    let mut res = [R::one(); 5];
    trinomial_quintic_mul(&a, &b, &mut res);
    let product = res;
    quintic_square(&b, &mut res);
    (product, res)
}

/// The same by the cubic trinomial.
fn cubic_results<R: PrimeCharacteristicRing>(a: [R; 3], b: [R; 3]) -> ([R; 3], [R; 3]) {
    let mut res = [R::one(); 3];
    trinomial_cubic_mul(&a, &b, &mut res);
    let product = res;
    cubic_square(&b, &mut res);
    (product, res)
}

/// The product by the septic trinomial, and the square of its first factor written over it.
fn septic_results<R: PrimeCharacteristicRing>(a: [R; 7], b: [R; 7]) -> ([R; 7], [R; 7]) {
    let mut res = [R::one(); 7];
    trinomial_septic_mul(&a, &b, &mut res);
    let product = res;
    septic_square(&a, &mut res);
    (product, res)
}

/// The numbers of what a call answers that takes a w. Nothing is read of `_list`, which tells that lists have
/// room.
fn binomial_answer<R: PrimeCharacteristicRing + Canonical>(
    _list: Option<[R; MOST]>,
    call: BinomialCall,
    a: &List,
    b: &List,
    w: R,
) -> List {
    match call {
        BinomialCall::ProductOfFour => {
            numbers(product::<R, 4>(coefficients(a), coefficients(b), w))
        }
        BinomialCall::ProductOfSix => {
            numbers(product::<R, 6>(coefficients(a), coefficients(b), w))
        }
        BinomialCall::SquareOfFour => numbers(square::<R, 4>(coefficients(a), w)),
        BinomialCall::SquareOfSix => numbers(square::<R, 6>(coefficients(a), w)),
        BinomialCall::QuarticProduct => {
            numbers(quartic_product(coefficients(a), coefficients(b), w))
        }
        BinomialCall::QuinticProduct => {
            numbers(quintic_product(coefficients(a), coefficients(b), w))
        }
        BinomialCall::OcticProduct => numbers(octic_product(coefficients(a), coefficients(b), w)),
    }
}

/// The numbers of what a call answers; W is 3. Nothing is read of `list`.
fn answer<R: PrimeCharacteristicRing + Canonical>(
    list: Option<[R; MOST]>,
    call: Call,
    a: &List,
    b: &List,
) -> List {
    match call {
        Call::Binomial(call) => binomial_answer(list, call, a, b, R::of_number(3)),
        Call::CubicProduct => numbers(cubic_results::<R>(coefficients(a), coefficients(b)).0),
        Call::CubicSquare => numbers(cubic_results::<R>(coefficients(a), coefficients(b)).1),
        Call::QuinticProduct => numbers(quintic_results::<R>(coefficients(a), coefficients(b)).0),
        Call::QuinticSquare => numbers(quintic_results::<R>(coefficients(a), coefficients(b)).1),
        Call::SepticProduct => numbers(septic_results::<R>(coefficients(a), coefficients(b)).0),
        Call::SepticSquare => numbers(septic_results::<R>(coefficients(a), coefficients(b)).1),
        Call::Sum => numbers(vector_add::<R, R, 2>(&coefficients(a), &coefficients(b))),
        Call::Difference => numbers(vector_sub::<R, R, 2>(&coefficients(a), &coefficients(b))),
    }
}

/// The rings.
#[derive(Clone, Copy)]
enum Ring {
    F2,
    F17,
    F31,
    Z15,
    BabyBear,
    Goldilocks,
}

/// The rings by their names.
static RINGS: [(&str, Ring); 6] = [
    ("f2", Ring::F2),
    ("f17", Ring::F17),
    ("f31", Ring::F31),
    ("z15", Ring::Z15),
    ("bb", Ring::BabyBear),
    ("gl", Ring::Goldilocks),
];

/// `answer` for the residues of a marker. Nothing is read of `list`.
fn answer_at<W: Form<T>, T: Word>(
    list: Option<[Fp<W, T>; MOST]>,
    call: Call,
    a: &List,
    b: &List,
) -> List {
    answer::<Fp<W, T>>(list, call, a, b)
}

/// `answer` for a ring that has a name.
fn answer_in(ring: Ring, call: Call, a: &List, b: &List) -> List {
    match ring {
        Ring::F2 => answer_at::<Plain<M2>, u32>(None, call, a, b),
        Ring::F17 => answer_at::<Plain<M17>, u32>(None, call, a, b),
        Ring::F31 => answer_at::<Plain<M31>, u32>(None, call, a, b),
        Ring::Z15 => answer_at::<Plain<M15>, u32>(None, call, a, b),
        Ring::BabyBear => answer_at::<Montgomery<BabyBearModulus>, u32>(None, call, a, b),
        Ring::Goldilocks => answer_at::<GoldilocksForm, u64>(None, call, a, b),
    }
}

/// Whether the call of a line like `f17 vector_add;1,2|16,5;0,7` has its answer; none where the line can't be
/// read or names no call.
fn agrees(line: &str) -> Option<bool> {
    let (head, sides) = line.split_once(';')?;
    let (arguments, answer) = sides.split_once(';')?;
    let (ring, call) = head.split_once(' ')?;
    let a = list_of_text(part(arguments, 0))?;
    let b = list_of_text(part(arguments, 1))?;
    let expected = list_of_text(answer)?;
    let found = answer_in(named(&RINGS, ring)?, named(&CALLS, call)?, &a, &b);
    Some(found == expected)
}

/// Asserts that the call of each line has its answer.
fn assert_lines(rt: &impl Abort, table: &str) {
    for line in table.lines() {
        assert!(rt; agrees(line) == Some(true), "{line}");
    }
}

#[test]
fn products_and_squares(rt: HostRuntime) {
    assert_lines(&rt, worked::WHERE_ONES_WERE);
    assert_lines(&rt, worked::OF_ONE_DEGREE);
    assert_lines(&rt, worked::BY_TRINOMIALS);
}

#[test]
fn septic_products(rt: HostRuntime) {
    assert_lines(&rt, septic::F2);
    assert_lines(&rt, septic::F17);
    assert_lines(&rt, septic::Z15);
    assert_lines(&rt, septic::BABY_BEAR);
    assert_lines(&rt, septic::GOLDILOCKS);
}

#[test]
fn vectors(rt: HostRuntime) {
    assert_lines(&rt, worked::OF_VECTORS);
}
