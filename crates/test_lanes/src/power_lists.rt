//! Powers as packings one after the other, lists of powers that are made by packings, and the growths that such
//! lists ask for, refused in turn.
use crate::cases::{Call, Case};
use p3_field_traits::field::Field;
use p3_field_traits::packed_traits::PackedField;
use p3_ring::packed_ring::PackedRing;
use p3_ring::powers::Powers;
use p3_ring::ring::PrimeCharacteristicRing;
use std::alloc::{AllocError, Global};
use test_allocator::Refusing;
use test_values::numbered::{Numbered, holds_at, number_at, value, value_count};

/// Whether the first packings of a sequence are the answer.
pub(crate) fn powers_agree<F: Field + Numbered, P: PackedField<F> + Numbered>(
    call: Call,
    case: &Case,
) -> bool {
    let base = value::<F>(case.argument(0));
    let powers = match call {
        Call::ShiftedPowers => P::packed_shifted_powers(base, value::<F>(case.argument(1))),
        _ => P::packed_powers(base),
    };
    are_powers(powers, &case.answer)
}

/// Whether the next power is the one at an index of those that a list tells.
fn next_holds<R: PrimeCharacteristicRing + Numbered>(
    powers: &mut Powers<R>,
    answer: &[u64],
    index: usize,
) -> bool {
    match powers.next() {
        Some(power) => holds_at(&power, answer, index),
        None => false,
    }
}

/// Whether the first powers are those that a list tells.
fn are_powers<R: PrimeCharacteristicRing + Numbered>(
    mut powers: Powers<R>,
    answer: &[u64],
) -> bool {
    for index in 0..value_count::<R>(answer) {
        if !next_holds(&mut powers, answer, index) {
            return false;
        }
    }
    true
}

/// Whether a list of powers, made by packings P, has the answer's length, and at the indices of the last argument
/// the values that follow in the answer.
pub(crate) fn list_agrees<F: PrimeCharacteristicRing + Numbered, P: PackedRing<F>>(
    alloc: Global,
    case: &Case,
) -> Result<bool, AllocError> {
    let base = value::<F>(case.argument(0));
    let powers = base.shifted_powers(value::<F>(case.argument(1)));
    let list = powers.take(case.size(2)).collect::<P>(alloc)?;
    if number_at(&case.answer, 0) != Some(list.len() as u64) {
        return Ok(false);
    }
    for (place, index) in case.argument(3).iter().enumerate() {
        match list.get(*index as usize) {
            Some(power) if holds_at(power, &case.answer, place.wrapping_add(1)) => {}
            _ => return Ok(false),
        }
    }
    Ok(case.answer.len() == case.argument(3).len().wrapping_add(1))
}

/// Whether a list has so many items, the start and from there on each the one before it times the base.
fn are_products<F: PrimeCharacteristicRing + Numbered>(
    items: &[F],
    base: F,
    start: F,
    length: usize,
) -> bool {
    let mut power = start;
    for i in 0..items.len() {
        if items[i].number(0) != power.number(0) {
            return false;
        }
        power *= base;
    }
    items.len() == length
}

/// Whether a list of powers, made by packings P, is right where as many growths pass as it needs, or is
/// refused at the first growth that doesn't pass, and keeps no block.
fn list_grows<F: PrimeCharacteristicRing + Numbered, P: PackedRing<F>>(
    alloc: Global,
    passing: u64,
    case: &Case,
    length: usize,
    needed: u64,
) -> bool {
    let heap = Refusing::after(alloc, passing);
    let (base, start) = (value::<F>(case.argument(0)), value::<F>(case.argument(1)));
    let powers = base.shifted_powers(start);
    let is_right = match powers.collect_n_in::<P, &Refusing<Global>>(&heap, length) {
        Ok(items) => passing == needed && are_products(&items, base, start, length),
        Err(_) => passing < needed && heap.growths() == passing.wrapping_add(1),
    };
    is_right && heap.blocks() == 0
}

/// Whether lists of the lengths of the last argument, by packings P, ask for the answer's growths and have every
/// item right.
pub(crate) fn lists_grow<F: PrimeCharacteristicRing + Numbered, P: PackedRing<F>>(
    alloc: Global,
    case: &Case,
) -> bool {
    let lengths = case.argument(2);
    for index in 0..lengths.len() {
        let length = lengths[index] as usize;
        let Some(needed) = number_at(&case.answer, index) else {
            return false;
        };
        for passing in 0..=needed {
            if !list_grows::<F, P>(alloc, passing, case, length, needed) {
                return false;
            }
        }
    }
    case.answer.len() == lengths.len()
}
