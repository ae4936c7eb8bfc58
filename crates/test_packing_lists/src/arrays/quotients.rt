//! Quotients of arrays, worked by hand modulo 17.
ghost use Rattle.std.specs.Prelude.{◌<◌, ℕ, get_or, IsTrue};
ghost use Rattle.p3_theory.specs.Rings.Ring.{Invertible};

use crate::texts::{holds, packing};
use p3_field_traits::field::Field;
use p3_field_traits::packed_traits::{Inhabited, Packable};
use p3_vectorized::array::FieldArray;
use std::process::Abort;
use test_values::canonical::Canonical;

/// What is divided, a divisor of each, and the quotients.
const DIVIDED: &str = "1,2,3,4";

const DIVISORS: &str = "3,5,7,9";

const QUOTIENTS: &str = "6,14,15,8";

/// The halves of what is divided.
const HALVES: &str = "9,1,10,2";

/// Whether a value has an inverse.
fn has_inverse<F: Field>(y: F) -> bool
    ensures { IsTrue result → Invertible F.ops y }
{
    match y.try_inverse() {
        Some(_) => true,
        None => false,
    }
}

/// Whether every entry has an inverse.
fn have_inverses<F: Field + Inhabited, const N: usize>(y: FieldArray<F, N>) -> bool
    ensures { IsTrue result → (d : F) (k : ℕ) → k < N → Invertible F.ops (get_or y.items k d) }
{
    for i in 0..N {
        let entry = y[i];
        if !has_inverse(entry) {
            return false;
        }
    }
    true
}

/// Whether the quotients by a value are the halves, where the value is two.
fn halves<F: Field + Packable + Canonical, const N: usize>(x: FieldArray<F, N>, scalar: F) -> bool {
    if !has_inverse(scalar) {
        return false;
    }
    let mut written = x;
    written /= scalar;
    let quotient = x / scalar;
    holds::<F, FieldArray<F, N>>(quotient, HALVES) && holds::<F, FieldArray<F, N>>(written, HALVES)
}

/// Whether the quotients by the other array's entries are those that are told.
fn divides<F: Field + Packable + Canonical, const N: usize>(
    x: FieldArray<F, N>,
    y: FieldArray<F, N>,
) -> bool {
    if !have_inverses(y) {
        return false;
    }
    let mut written = x;
    written /= y;
    let quotient = x / y;
    holds::<F, FieldArray<F, N>>(quotient, QUOTIENTS)
        && holds::<F, FieldArray<F, N>>(written, QUOTIENTS)
}

/// Asserts the quotients of four numbers. Nothing is read of `_array`.
pub(crate) fn assert_quotients<F: Field + Packable + Canonical, const N: usize>(
    rt: &impl Abort,
    _array: Option<FieldArray<F, N>>,
) {
    let x = packing::<F, FieldArray<F, N>>(DIVIDED);
    let y = packing::<F, FieldArray<F, N>>(DIVISORS);
    assert!(rt; halves(x, F::of_number(2)));
    assert!(rt; divides(x, y));
}
