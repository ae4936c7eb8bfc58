//! Slices that are scaled, added and written by packings: told by rows, and of every length from 0 to 17 against
//! plain loops.
ghost use Rattle.std.specs.Prelude.{◌≡◌, length};

use crate::cases::{Case, SliceCall};
use crate::packing_lanes::group_within;
use p3_field_traits::field::Field;
use p3_field_traits::packed_traits::{PackedField, PackedValue};
use p3_helpers::helpers::{
    add_scaled_slice_in_place, add_slices, scale_slice_in_place_single_core,
};
use p3_ring::ring::PrimeCharacteristicRing;
use std::alloc::{AllocError, Global};
use test_values::numbered::{Numbered, all_hold, multiples, value, values};

/// The calls that change a slice.
static CALLS: [SliceCall; 4] = [
    SliceCall::Scale,
    SliceCall::AddScaled,
    SliceCall::AddSlices,
    SliceCall::AddEntries,
];

/// Changes a slice by a call.
fn change<F: Field, P: PackedField<F>>(call: SliceCall, slice: &mut [F], other: &[F], s: F)
    requires { length slice.old ≡ length other.now }
{
    match call {
        SliceCall::Scale => scale_slice_in_place_single_core::<F, P>(slice, s),
        SliceCall::AddScaled => add_scaled_slice_in_place::<F, P>(slice, other, s),
        SliceCall::AddSlices => add_slices::<F, P>(slice, other),
        SliceCall::AddEntries => F::add_slices(slice, other),
    }
}

/// Whether a slice is the answer once it is changed. A slice that is scaled stands as the other one too.
pub(crate) fn slices_agree<F: Field + Numbered, P: PackedField<F>>(
    alloc: Global,
    call: SliceCall,
    case: &Case,
) -> Result<bool, AllocError> {
    let mut slice = values::<F>(alloc, case.argument(0))?;
    let other = values::<F>(alloc, case.argument(1))?;
    if slice.len() != other.len() {
        return Ok(false);
    }
    change::<F, P>(call, &mut slice, &other, value::<F>(case.argument(2)));
    Ok(all_hold::<F>(&slice, &case.answer))
}

/// What a call makes of an entry, beside one of the other slice.
fn changed<F: PrimeCharacteristicRing>(call: SliceCall, x: F, y: F, s: F) -> F {
    match call {
        SliceCall::Scale => x * s,
        SliceCall::AddScaled => x + y * s,
        _ => x + y,
    }
}

/// The number at an index of the multiples of a step from one time on.
fn multiple(index: usize, step: u64) -> u64 {
    (index as u64).wrapping_add(1).wrapping_mul(step)
}

/// Whether a slice of multiples of 5 is what a call makes of it beside multiples of 11, by a plain loop.
fn are_changed<F: PrimeCharacteristicRing + Numbered>(call: SliceCall, slice: &[F], s: F) -> bool {
    for i in 0..slice.len() {
        let x = value::<F>(&[multiple(i, 5)]);
        let y = value::<F>(&[multiple(i, 11)]);
        let expected = changed(call, x, y, s);
        if slice[i].number(0) != expected.number(0) {
            return false;
        }
    }
    true
}

/// Whether a call changes a slice of so many entries as the plain loop does.
fn length_agrees<F: Field + Numbered, P: PackedField<F>>(
    alloc: Global,
    call: SliceCall,
    length: usize,
    s: F,
) -> Result<bool, AllocError> {
    let mut slice = multiples::<F>(alloc, length, 5)?;
    let other = multiples::<F>(alloc, length, 11)?;
    if slice.len() != length || other.len() != slice.len() {
        return Ok(false);
    }
    change::<F, P>(call, &mut slice, &other, s);
    Ok(are_changed(call, &slice, s))
}

/// Whether each entry of a group is the packing's lane, and each other one the multiple of 7 that it was.
fn holds_block<F: Numbered, P: PackedValue<Value = F> + Numbered>(
    slice: &[F],
    block: &P,
    group: usize,
) -> bool {
    let start = group.wrapping_mul(P::WIDTH);
    for i in 0..slice.len() {
        let lane = i.wrapping_sub(start);
        let expected = if lane < P::WIDTH {
            value::<F>(&[block.number(lane)])
        } else {
            value::<F>(&[multiple(i, 7)])
        };
        if slice[i].number(0) != expected.number(0) {
            return false;
        }
    }
    true
}

/// Whether a packing written to each whole group of a slice of so many entries stands there alone.
fn blocks_of_length<F: Numbered, P: PackedValue<Value = F> + Numbered>(
    alloc: Global,
    length: usize,
) -> Result<bool, AllocError> {
    let block = value::<P>(&[3, 1, 4, 1, 5, 9, 2, 6]);
    for group in 0..length {
        let mut slice = multiples::<F>(alloc, length, 7)?;
        let Some(i) = group_within::<P>(slice.len(), group) else {
            return Ok(true);
        };
        block.store_block(&mut slice, i);
        if slice.len() != length || !holds_block::<F, P>(&slice, &block, i) {
            return Ok(false);
        }
    }
    Ok(true)
}

/// Whether slices of every length from 0 to 17 are changed, by the factor of a row, and written as by plain loops.
pub(crate) fn lengths_agree<F: Field + Numbered, P: PackedField<F> + Numbered>(
    alloc: Global,
    case: &Case,
) -> Result<bool, AllocError> {
    let s = value::<F>(case.argument(0));
    for length in 0..18usize {
        for call in CALLS {
            if !length_agrees::<F, P>(alloc, call, length, s)? {
                return Ok(false);
            }
        }
        if !blocks_of_length::<F, P>(alloc, length)? {
            return Ok(false);
        }
    }
    Ok(true)
}
