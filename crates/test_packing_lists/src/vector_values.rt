//! A row worked by hand, at the eight lanes of a vector of two arrays.
use crate::fields::Rooms;
use crate::texts::{holds_from, value_at};
use p3_field_traits::field::Field;
use p3_field_traits::packed_traits::{Inhabited, Packable, PackedField, PackedValue};
use p3_vectorized::array::FieldArray;
use p3_vectorized::vectorized::Vectorized;
use poly_eval::eval_vectorized;
use std::process::Abort;
use std::test::Fail;
use test_values::canonical::Canonical;

/// The coefficients of the polynomial.
const COEFFICIENTS: &str = "1,2,3";

/// What 1 + 2 x + 3 x^2 is modulo 17, at x from 0 to 7.
const VALUES: &str = "1,6,0,0,6,1,2,9";

/// How many lanes a vector has.
const LANES: usize = 8;

/// The packing at an index of a vector whose lane i holds i.
fn counted<F: Canonical, P: PackedValue<Value = F>>(index: usize) -> P {
    let start = index.wrapping_mul(P::WIDTH);
    P::from_fn(|lane: usize| -> F { F::of_number(start.wrapping_add(lane) as u64) })
}

/// The vector whose lane i holds i.
fn points<F: Canonical, P: PackedValue<Value = F> + Inhabited, const N: usize>() -> Vectorized<
    F,
    P,
    N,
> {
    Vectorized::new(std::array::from_fn(|i: usize| -> P { counted::<F, P>(i) }))
}

/// Whether the lanes of a vector hold the values, and there are no other lanes.
fn holds<F: Canonical, P: PackedValue<Value = F> + Inhabited, const N: usize>(
    vector: Vectorized<F, P, N>,
) -> bool {
    let packings = vector.0;
    for i in 0..N {
        if !holds_from::<F, P>(packings[i], VALUES, i.wrapping_mul(P::WIDTH)) {
            return false;
        }
    }
    N.wrapping_mul(P::WIDTH) == LANES
}

/// Whether the values at the lanes of a vector of N packings are those of the row. Nothing is read of
/// `_points`: a function that names the vector knows that it has room.
fn agrees<F: Field + Canonical, P: PackedField<F>, const N: usize>(
    coeffs: &[F],
    _points: Option<Vectorized<F, P, N>>,
) -> bool {
    let values = eval_vectorized(coeffs, points::<F, P, N>());
    holds(values)
}

/// Asserts that the vector agrees. Nothing is read of `_rooms`.
pub(crate) fn assert_vectors<F: Field + Packable + Canonical>(
    rt: &(impl Abort + AllocGlobal),
    _rooms: Rooms<F>,
) -> Result<(), Fail> {
    let mut coeffs: Vec<F> = Vec::new(rt.alloc());
    for index in 0..3 {
        coeffs.push(value_at::<F>(COEFFICIENTS, index))?;
    }
    assert!(rt; agrees::<F, FieldArray<F, 4>, 2>(&coeffs, None));
    Ok(())
}
