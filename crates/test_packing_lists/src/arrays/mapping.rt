//! Arrays mapped by a closure, worked by hand.
use crate::fields::Rooms;
use crate::texts::{holds, packing};
use p3_field_traits::packed_traits::{Inhabited, Packable};
use p3_ring::ring::PrimeCharacteristicRing;
use p3_vectorized::array::FieldArray;
use std::process::Abort;
use test_values::canonical::Canonical;

/// The square of each entry.
fn squares<F: PrimeCharacteristicRing + Inhabited, const N: usize>(
    x: FieldArray<F, N>,
) -> FieldArray<F, N> {
    x.map(|y: F| -> F { y.square() })
}

/// The entry before each, and zero before the first: this depends on the order of the calls.
fn shifted<F: PrimeCharacteristicRing + Inhabited, const N: usize>(x: FieldArray<F, N>) -> [F; N] {
    let mut last = F::zero();
    x.map_into_array(move |y: F| -> F {
        let before = last;
        last = y;
        before
    })
}

/// Asserts the squares of an array's entries, and the entries before each. Nothing is read of `_rooms`.
pub(crate) fn assert_mapped<F: PrimeCharacteristicRing + Packable + Canonical>(
    rt: &impl Abort,
    _rooms: Rooms<F>,
) {
    let x = packing::<F, FieldArray<F, 3>>("16,5,13");
    assert!(rt; holds(squares(x), "1,8,16"));
    assert!(rt; holds(FieldArray::new(shifted(x)), "0,16,5"));
}
