//! Cosets of prime fields, generic over the field. The first two arguments of a call are the shift and the log
//! size.
use crate::cases::{Case, CosetCall};
use p3_field_traits::field::TwoAdicField;
use p3_helpers::coset::TwoAdicMultiplicativeCoset;
use p3_ring::ring::{PrimeCharacteristicRing, RingSums};
use test_values::numbered::{Numbered, holds, holds_at, value};

/// Whether a call has its answer.
pub(crate) fn coset_agrees<F: TwoAdicField + RingSums + Numbered>(
    call: CosetCall,
    case: &Case,
) -> bool {
    let shift = value::<F>(case.argument(0));
    match TwoAdicMultiplicativeCoset::<F>::new(shift, case.size(1)) {
        Some(coset) => given_coset_agrees::<F>(coset, call, case),
        None => matches!(call, CosetCall::Refused),
    }
}

/// Whether a call on a coset has its answer.
fn given_coset_agrees<F: TwoAdicField + RingSums + Numbered>(
    coset: TwoAdicMultiplicativeCoset<F>,
    call: CosetCall,
    case: &Case,
) -> bool {
    match call {
        CosetCall::Refused => false,
        CosetCall::Parts => has_parts::<F>(coset, case),
        CosetCall::Contains(contains) => {
            coset.contains(value::<F>(case.argument(2))) == contains
        }
        CosetCall::Element => {
            coset.log_size() < 64 && holds(&coset.element(case.size(2)), &case.answer)
        }
        CosetCall::Items => has_items::<F>(coset, &case.answer),
    }
}

/// Whether the coset that so many bits shrink it to is there where the log size has the bits.
fn is_smaller<F: TwoAdicField>(
    coset: TwoAdicMultiplicativeCoset<F>,
    log_size: usize,
    bits: usize,
) -> bool {
    match coset.shrink_coset(bits) {
        Some(smaller) => smaller.shift() == coset.shift() && log_size == smaller.log_size() + bits,
        None => bits > log_size,
    }
}

/// Whether the coset of the powers is there where the log size has the bits.
fn is_power<F: TwoAdicField>(
    coset: TwoAdicMultiplicativeCoset<F>,
    log_size: usize,
    bits: usize,
) -> bool {
    match coset.exp_power_of_2(bits) {
        Some(powers) => {
            powers.shift() == coset.shift().exp_power_of_2(bits)
                && log_size == powers.log_size() + bits
        }
        None => bits > log_size,
    }
}

/// Whether the smaller cosets and the powers are there, up to five bits.
fn are_smaller<F: TwoAdicField>(coset: TwoAdicMultiplicativeCoset<F>, log_size: usize) -> bool {
    for bits in 0..6 {
        if !is_smaller(coset, log_size, bits) || !is_power(coset, log_size, bits) {
            return false;
        }
    }
    true
}

/// Whether the answer tells the inverse of the shift, the generator, and the sum and the product of the
/// items.
fn are_parts<F: TwoAdicField + RingSums + Numbered>(
    coset: TwoAdicMultiplicativeCoset<F>,
    answer: &[u64],
) -> bool {
    let sum: F = (&coset).into_iter().sum();
    let product: F = coset.into_iter().product();
    holds_at(&coset.shift_inverse(), answer, 0)
        && holds_at(&coset.subgroup_generator(), answer, 1)
        && holds_at(&sum, answer, 2)
        && holds_at(&product, answer, 3)
        && answer.len() == 4
}

/// Whether the coset has its size.
fn has_size<F: TwoAdicField>(coset: TwoAdicMultiplicativeCoset<F>, log_size: usize) -> bool {
    coset.log_size() < 64 && log_size < 64 && coset.size() == 1 << log_size
}

/// Whether the answer tells the parts, and the coset has its size, its shift and its smaller cosets.
fn has_parts<F: TwoAdicField + RingSums + Numbered>(
    coset: TwoAdicMultiplicativeCoset<F>,
    case: &Case,
) -> bool {
    let log_size = case.size(1);
    has_size(coset, log_size)
        && holds(&coset.shift(), case.argument(0))
        && are_parts(coset, &case.answer)
        && are_smaller(coset, log_size)
}

/// Whether the answer tells the items of the coset.
fn has_items<F: TwoAdicField + Numbered>(
    coset: TwoAdicMultiplicativeCoset<F>,
    answer: &[u64],
) -> bool {
    if coset.log_size() >= 64 || coset.iter().len() != answer.len() {
        return false;
    }
    let mut index: usize = 0;
    for x in coset.iter() {
        if !holds_at(&x, answer, index) {
            return false;
        }
        index = index.wrapping_add(1);
    }
    true
}
