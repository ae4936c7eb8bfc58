//! Arrays read and written by brackets, compared and printed.
use crate::texts::{number_at, packing};
use p3_field_traits::packed_traits::{Inhabited, Packable};
use p3_vectorized::array::FieldArray;
use std::alloc::{AllocError, Global};
use std::fmt;
use std::process::Abort;
use std::test::Fail;
use test_values::canonical::Canonical;

/// The numbers of an array's entries, from the first on.
const NUMBERS: &str = "3,5,7,9";

/// The text of the array.
const TEXT: &str = "[3, 5, 7, 9]";

/// A number that is none of them.
const OTHER: u64 = 2;

/// Whether the array, read by brackets, has this number at an index and the first N numbers at the others.
fn holds<F: Canonical + Inhabited, const N: usize>(
    array: &FieldArray<F, N>,
    index: usize,
    written: u64,
) -> bool {
    for i in 0..N {
        let expected = if i == index {
            Some(written)
        } else {
            number_at(NUMBERS, i)
        };
        if expected != Some(array[i].canonical()) {
            return false;
        }
    }
    true
}

/// Whether a write by brackets at an index writes there and nowhere else.
fn is_written<F: Canonical + Inhabited, const N: usize>(
    before: &FieldArray<F, N>,
    index: usize,
) -> bool {
    let mut array = *before;
    if index < N {
        array[index] = F::of_number(OTHER);
    }
    holds(&array, index, OTHER) && holds(before, N, OTHER)
}

/// Whether an array is equal to one of the same numbers, and to none that differs from it in one entry.
fn is_compared<F: Canonical + Inhabited + PartialEq, const N: usize>(
    array: &FieldArray<F, N>,
    same: &FieldArray<F, N>,
) -> bool {
    if !(*array == *same) {
        return false;
    }
    for i in 0..N {
        let mut other = *array;
        other[i] = F::of_number(OTHER);
        if *array == other || other == *array {
            return false;
        }
    }
    true
}

/// Whether each entry is zero.
fn is_zero<F: Canonical + Inhabited, const N: usize>(array: &FieldArray<F, N>) -> bool {
    for i in 0..N {
        if array[i].canonical() != 0 {
            return false;
        }
    }
    true
}

/// Whether an array is printed as its text.
fn is_printed<F: Inhabited + fmt::Debug, const N: usize>(
    alloc: Global,
    array: &FieldArray<F, N>,
) -> Result<bool, AllocError> {
    let printed = format!(in alloc; "{array:?}")?;
    Ok(printed.as_str() == TEXT)
}

/// Asserts reads, writes, comparison and the text of the array of the first N numbers, and that the default is zero.
pub(crate) fn assert_brackets<F: Canonical + Packable + fmt::Debug, const N: usize>(
    rt: &(impl Abort + AllocGlobal),
    default: FieldArray<F, N>,
) -> Result<(), Fail> {
    let array = packing::<F, FieldArray<F, N>>(NUMBERS);
    assert!(rt; holds(&array, N, OTHER));
    for i in 0..N {
        assert!(rt; is_written(&array, i), "{i}");
    }
    assert!(rt; is_compared(&array, &packing::<F, FieldArray<F, N>>(NUMBERS)));
    assert!(rt; is_zero(&default));
    assert!(rt; is_printed(rt.alloc(), &array)?);
    Ok(())
}
