//! Calls on arrays told by lines of four texts: the number of entries, the call, its arguments and its answer.
//! Arguments stand between bars, and the values of an array between commas. And arrays entry by entry.

mod brackets;
mod calls;
mod mapping;
mod quotients;
mod tables;

use crate::fields::Rooms;
use crate::texts::{holds, packing, value_at};
use brackets::assert_brackets;
use calls::{Call, Operation, Row, Total};
use mapping::assert_mapped;
use p3_field_traits::field::Field;
use p3_field_traits::packed_traits::{Inhabited, Packable};
use p3_ring::ring::{Algebra, PrimeCharacteristicRing};
use p3_vectorized::array::FieldArray;
use quotients::assert_quotients;
use std::alloc::{AllocError, Global};
use std::fmt;
use std::process::Abort;
use std::test::Fail;
use tables::{OUTSIDE, WORKED};
use test_values::canonical::Canonical;

/// What an operation gives on two values, or on one and a scalar.
fn operated<F: PrimeCharacteristicRing, A: Algebra<F>>(
    operation: Operation,
    x: A,
    y: A,
    scalar: F,
) -> A {
    match operation {
        Operation::Add => x + y,
        Operation::Sub => x - y,
        Operation::Mul => x * y,
        Operation::Neg => -x,
        Operation::Square => x.square(),
        Operation::AddScalar => x + scalar,
        Operation::SubScalar => x - scalar,
        Operation::MulScalar => x * scalar,
    }
}

/// The half of a value; none where two has no inverse.
fn half<F: Field, A: Algebra<F>>(x: A) -> Option<A> {
    let two = F::two();
    two.try_inverse()?;
    let half = x.halve();
    Some(half)
}

/// The quotient by a scalar; none where that has no inverse.
fn quotient<F: Field + Inhabited, const N: usize>(
    x: FieldArray<F, N>,
    scalar: F,
) -> Option<FieldArray<F, N>> {
    scalar.try_inverse()?;
    let quotient = x / scalar;
    Some(quotient)
}

/// The sum or the product of the values of a text: of arrays entry by entry, and of scalars in each entry. Nothing is
/// read of `_array`.
fn total<F: PrimeCharacteristicRing + Packable + Canonical, const N: usize>(
    alloc: Global,
    total: Total,
    text: &str,
    _array: Option<FieldArray<F, N>>,
) -> Result<FieldArray<F, N>, AllocError> {
    let mut arrays: Vec<FieldArray<F, N>> = Vec::new(alloc);
    let mut scalars: Vec<F> = Vec::new(alloc);
    for word in text.split_terminator('|') {
        arrays.push(packing::<F, FieldArray<F, N>>(word))?;
        scalars.push(value_at::<F>(word, 0))?;
    }
    Ok(match total {
        Total::Sum => arrays.iter().copied().sum(),
        Total::Product => arrays.iter().copied().product(),
        Total::ScalarSum => scalars.iter().copied().sum(),
        Total::ScalarProduct => scalars.iter().copied().product(),
    })
}

/// Whether the call of a row has its answer for arrays of N entries; `Ok(None)` where it names none, or the divisor,
/// which is two for a half, has no inverse. Nothing is read of `_array`.
fn agrees<F: Field + Packable + Canonical, const N: usize>(
    alloc: Global,
    row: Row<'_>,
    _array: Option<FieldArray<F, N>>,
) -> Result<Option<bool>, AllocError> {
    let x = packing::<F, FieldArray<F, N>>(row.argument(0));
    let y = packing::<F, FieldArray<F, N>>(row.argument(1));
    let scalar = value_at::<F>(row.argument(1), 0);
    let found = match Call::of_name(row.call) {
        Some(Call::Operation(operation)) => {
            Some(operated::<F, FieldArray<F, N>>(operation, x, y, scalar))
        }
        Some(Call::Halve) => half::<F, FieldArray<F, N>>(x),
        Some(Call::DivScalar) => quotient(x, scalar),
        Some(Call::Total(kind)) => Some(total::<F, N>(alloc, kind, row.arguments, None)?),
        None => None,
    };
    match found {
        Some(found) => Ok(Some(holds::<F, FieldArray<F, N>>(found, row.answer))),
        None => Ok(None),
    }
}

/// Whether the call of a line has its answer, for arrays of 3 and 4 entries; `Ok(None)` where the line can't be read,
/// or names no call. Nothing is read of `_rooms`.
fn line_agrees<F: Field + Packable + Canonical>(
    alloc: Global,
    line: &str,
    _rooms: Rooms<F>,
) -> Result<Option<bool>, AllocError> {
    let Some(row) = Row::read(line) else {
        return Ok(None);
    };
    match row.entries {
        3 => agrees::<F, 3>(alloc, row, None),
        4 => agrees::<F, 4>(alloc, row, None),
        _ => Ok(None),
    }
}

/// Asserts that the call of each line has its answer. Nothing is read of `_rooms`.
pub(crate) fn assert_calls<F: Field + Packable + Canonical>(
    rt: &(impl Abort + AllocGlobal),
    _rooms: Rooms<F>,
) -> Result<(), Fail> {
    for table in [WORKED, OUTSIDE] {
        for line in table.lines() {
            assert_eq!(rt;
                line_agrees::<F>(rt.alloc(), line, None)?,
                Some(true),
                "{line}"
            );
        }
    }
    Ok(())
}

/// Asserts arrays entry by entry, mapped ones and quotients. Nothing is read of `_rooms`.
pub(crate) fn assert_entries<F: Field + Packable + Canonical + fmt::Debug>(
    rt: &(impl Abort + AllocGlobal),
    _rooms: Rooms<F>,
) -> Result<(), Fail> {
    assert_mapped::<F>(rt, None);
    assert_quotients::<F, 4>(rt, None);
    assert_brackets::<F, 4>(rt, FieldArray::default())
}
