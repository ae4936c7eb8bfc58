//! Powers of an extension value as packings, and the values of packings one after the other.
use crate::cases::{Call, Case};
use p3_extension_traits::extension_field::ExtensionField;
use p3_field_traits::field::Field;
use p3_packing_traits::packed_field_extension::PackedFieldExtension;
use p3_ring::powers::{BoundedPowers, Powers};
use p3_ring::ring::PrimeCharacteristicRing;
use std::alloc::{AllocError, Global};
use test_values::numbered::{Numbered, holds_at, value, value_count, values};

/// Whether the packings or the values that a call gives one after the other are the answer.
pub(crate) fn sequences_agree<F, EF, PE>(
    alloc: Global,
    call: Call,
    case: &Case,
) -> Result<bool, AllocError>
where
    F: Field,
    EF: ExtensionField<F> + Numbered,
    PE: PackedFieldExtension<F, EF> + Numbered,
{
    let numbers = case.argument(0);
    let base = value::<EF>(numbers);
    match call {
        Call::Powers => Ok(are_powers(PE::packed_ext_powers(base), &case.answer)),
        Call::CappedPowers => {
            let powers = PE::packed_ext_powers_capped(base, case.size(1));
            Ok(are_all_powers(powers, &case.answer))
        }
        _ => {
            let packings = values::<PE>(alloc, numbers)?;
            Ok(are_values::<F, EF, PE>(packings, &case.answer))
        }
    }
}

/// Whether the next power is the one at an index of those that a list tells.
fn next_holds<R: PrimeCharacteristicRing + Numbered>(
    powers: &mut Powers<R>,
    answer: &[u64],
    index: usize,
) -> bool {
    match powers.next() {
        Some(power) => holds_at(&power, answer, index),
        None => false,
    }
}

/// Whether the first powers are those that a list tells.
fn are_powers<R: PrimeCharacteristicRing + Numbered>(
    mut powers: Powers<R>,
    answer: &[u64],
) -> bool {
    for index in 0..value_count::<R>(answer) {
        if !next_holds(&mut powers, answer, index) {
            return false;
        }
    }
    true
}

/// Whether powers are those that a list tells, and no more.
fn are_all_powers<R: PrimeCharacteristicRing + Numbered>(
    mut powers: BoundedPowers<R>,
    answer: &[u64],
) -> bool {
    for index in 0..value_count::<R>(answer) {
        match powers.next() {
            Some(power) if holds_at(&power, answer, index) => {}
            _ => return false,
        }
    }
    powers.next().is_none()
}

/// Whether the values in the lanes of packings are those that a list tells.
fn are_values<F, EF, PE>(packings: Vec<PE>, answer: &[u64]) -> bool
where
    F: Field,
    EF: ExtensionField<F> + Numbered,
    PE: PackedFieldExtension<F, EF>,
{
    let mut index: usize = 0;
    for found in PE::to_ext_iter(packings.into_iter()) {
        if !holds_at(&found, answer, index) {
            return false;
        }
        index = index.wrapping_add(1);
    }
    index == value_count::<EF>(answer)
}
