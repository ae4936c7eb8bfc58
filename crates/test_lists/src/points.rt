//! Values of polynomials over the residues modulo 17 at points of their extension by `X^2 = 3`, and of long ones at two.
use crate::texts::values;
use p3_extension::extension::{BinomialExtensionField, BinomiallyExtendable};
use p3_helpers::horner::horner_slice;
use p3_ring::ring::PrimeCharacteristicRing;
use poly_eval::eval_point;
use std::alloc::{AllocError, Global};
use std::process::Abort;
use std::test::Fail;
use test_values::canonical::Canonical;

/// The coefficients of a polynomial, those of a point, and those of the value there. The first four rows are worked by
/// hand, the others are outside values.
const ROWS: [(&str, [u64; 2], [u64; 2]); 6] = [
    ("1 2 3", [0, 1], [10, 2]),
    ("1 2 3", [0, 0], [1, 0]),
    ("1 2 3", [3, 0], [0, 0]),
    ("1 2 3", [12, 0], [15, 0]),
    ("", [0, 8], [0, 0]),
    ("3 13 14 3 2 13 15 12 8 1", [16, 16], [11, 1]),
];

/// The coefficients of the value at the point with these coefficients, where X is given.
fn value_at<F: BinomiallyExtendable<2> + Canonical>(
    coeffs: &[F],
    point: [u64; 2],
    x: BinomialExtensionField<F, 2>,
) -> [u64; 2] {
    let low = BinomialExtensionField::<F, 2>::from_u64(point[0]);
    let high = BinomialExtensionField::<F, 2>::from_u64(point[1]) * x;
    let value = eval_point::<F, BinomialExtensionField<F, 2>>(coeffs, low + high);
    let [low, high] = value.value;
    [low.canonical(), high.canonical()]
}

/// The value at two of the polynomial with so many coefficients, each of them one.
fn value_of_ones<F: PrimeCharacteristicRing + Canonical>(
    alloc: Global,
    count: usize,
) -> Result<u64, AllocError> {
    let mut ones: Vec<F> = Vec::new(alloc);
    for _ in 0..count {
        ones.push(F::one())?;
    }
    let value = horner_slice(&ones, F::two());
    Ok(value.canonical())
}

/// Asserts the rows, where X is given, and values of blocks with a rest and without one: `2^256 - 1` and `2^300 - 1`
/// modulo 17, where `2^4` is -1.
pub(crate) fn assert_points<F: BinomiallyExtendable<2> + Canonical>(
    rt: &(impl Abort + AllocGlobal),
    x: BinomialExtensionField<F, 2>,
) -> Result<(), Fail> {
    for (coefficients, point, expected) in ROWS {
        let coeffs: Vec<F> = values(rt.alloc(), coefficients)?;
        assert_eq!(rt; value_at(&coeffs, point, x), expected, "{coefficients}");
    }
    assert_eq!(rt; value_of_ones::<F>(rt.alloc(), 256)?, 0);
    assert_eq!(rt; value_of_ones::<F>(rt.alloc(), 300)?, 15);
    Ok(())
}
