//! Arrays as packings: interleaved by blocks, and slices that the calls of several threads change by them. Worked by
//! hand.
ghost use Rattle.std.specs.Prelude.{◌≡◌, length};

use crate::texts::{holds, number_at, packing, part, value_at};
use p3_field_traits::field::Field;
use p3_field_traits::packed_traits::{PackedField, PackedFieldPow2};
use p3_helpers::helpers::{par_add_scaled_slice_in_place, par_scale_slice_in_place};
use std::alloc::{AllocError, Global};
use std::process::Abort;
use std::test::Fail;
use test_values::canonical::Canonical;

/// The numbers of the left packing's entries.
const LEFT: &str = "3,1,4,15,9,2,6,5";

/// The numbers of the right packing's entries, none of which stands in the left one.
const RIGHT: &str = "8,7,16,10,0,11,14,12";

/// The number of entries of a block, and both answers.
const INTERLEAVED: &str = "1;3,8,4,16,9,0,6,14;1,7,15,10,2,11,5,12
2;3,1,8,7,9,2,0,11;4,15,16,10,6,5,14,12
4;3,1,4,15,8,7,16,10;9,2,6,5,0,11,14,12
8;3,1,4,15,9,2,6,5;8,7,16,10,0,11,14,12";

/// A slice, it times three, and another one to which that is added.
const SLICE: &str = "1,2,3,4,5,6";

const SCALED: &str = "3,6,9,12,15,1";

const ADDED_TO: &str = "16,0,1,8,9,16";

const SUMS: &str = "2,6,10,3,7,0";

/// Two packings of eight lanes, interleaved by blocks of so many; none where the blocks don't fill a packing.
fn interleaved<F: Field, P: PackedFieldPow2<F>>(x: P, y: P, block: usize) -> Option<(P, P)> {
    match block {
        1 => Some(x.interleave(y, 1)),
        2 if P::WIDTH % 2 == 0 => Some(x.interleave(y, 2)),
        4 if P::WIDTH % 4 == 0 => Some(x.interleave(y, 4)),
        8 if P::WIDTH % 8 == 0 => Some(x.interleave(y, 8)),
        _ => None,
    }
}

/// Whether both packings, interleaved, are those of a line; none where it can't be read.
fn line_agrees<F: Field + Canonical, P: PackedFieldPow2<F>>(line: &str) -> Option<bool> {
    let block = part(line, 0).parse::<usize>().ok()?;
    let (x, y) = (packing::<F, P>(LEFT), packing::<F, P>(RIGHT));
    let (first, second) = interleaved::<F, P>(x, y, block)?;
    Some(holds::<F, P>(first, part(line, 1)) && holds::<F, P>(second, part(line, 2)))
}

/// Asserts the interleaves of packings of eight lanes.
pub(crate) fn assert_interleaves<F: Field + Canonical, P: PackedFieldPow2<F>>(rt: &impl Abort) {
    for line in INTERLEAVED.lines() {
        assert_eq!(rt; line_agrees::<F, P>(line), Some(true), "{line}");
    }
}

/// The values of a text.
fn values<F: Canonical>(alloc: Global, text: &str) -> Result<Vec<F>, AllocError> {
    let mut values = Vec::new(alloc);
    for i in 0..6 {
        values.push(value_at::<F>(text, i))?;
    }
    Ok(values)
}

/// Whether the entries of a slice are those of a text.
fn are_values<F: Canonical>(slice: &[F], text: &str) -> bool {
    for i in 0..slice.len() {
        if number_at(text, i) != Some(slice[i].canonical()) {
            return false;
        }
    }
    slice.len() == 6
}

/// Asserts that a slice is scaled, and added to another one, by packings P.
pub(crate) fn assert_slices<F: Field + Canonical, P: PackedField<F>>(
    rt: &(impl Abort + AllocGlobal),
) -> Result<(), Fail> {
    let slice: Vec<F> = values(rt.alloc(), SLICE)?;
    let mut scaled: Vec<F> = values(rt.alloc(), SLICE)?;
    let mut sums: Vec<F> = values(rt.alloc(), ADDED_TO)?;
    par_scale_slice_in_place::<F, P>(&mut scaled, F::of_number(3));
    assert!(rt; are_values(&scaled, SCALED));
    if sums.len() == slice.len() {
        par_add_scaled_slice_in_place::<F, P>(&mut sums, &slice, F::of_number(3));
    }
    assert!(rt; are_values(&sums, SUMS));
    Ok(())
}
