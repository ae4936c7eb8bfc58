//! Sums, products and polynomial values of lists.
ghost use Rattle.std.specs.Prelude.{◌≡◌, length};

use crate::cases::{Case, ListCall};
use p3_field_traits::field::Field;
use p3_helpers::helpers::{HornerIter, dot_product};
use p3_ring::linear_combination::{
    chunked_linear_combination, chunked_mixed_dot_product, dispatch_chunked_mixed_dot_product,
};
use p3_ring::ring::{Algebra, PrimeCharacteristicRing, RingSums};
use p3_ring::sums::sum_array;
use std::alloc::{AllocError, Global};
use test_values::numbered::{Numbered, all_hold, holds, value, values};

/// Whether a call on lists has its answer.
pub(crate) fn list_agrees<F: Field + RingSums + Numbered>(
    alloc: Global,
    call: ListCall,
    case: &Case,
) -> Result<bool, AllocError> {
    let left = values::<F>(alloc, case.argument(0))?;
    let right = values::<F>(alloc, case.argument(1))?;
    match call {
        ListCall::SumsOfProducts => Ok(are_sums(&left, &right, &case.answer)),
        ListCall::AddSlices => Ok(is_sum_of_slices(left, &right, &case.answer)),
        ListCall::MinusOnes => is_product_of_minus_ones::<F>(alloc, case),
        ListCall::Horner => Ok(holds(&horner(&left, &right), &case.answer)),
        ListCall::HornerAfter => {
            let x = value::<F>(case.argument(2));
            Ok(holds(&horner_after(&left, &right, x), &case.answer))
        }
        _ => match total(call, &left, &right) {
            Some(found) => Ok(holds(&found, &case.answer)),
            None => Ok(false),
        },
    }
}

/// The first of some values, zero where there is none.
fn first_or_zero<R: PrimeCharacteristicRing>(values: &[R]) -> R {
    match values.first() {
        Some(value) => *value,
        None => R::zero(),
    }
}

/// The value of a polynomial at the first value of the second list.
fn horner<R: PrimeCharacteristicRing>(coefficients: &[R], right: &[R]) -> R {
    coefficients.iter().copied().horner(first_or_zero(right))
}

/// The value of a polynomial at x, after the first value of the second list, a sum that stands for what
/// follows.
fn horner_after<R: PrimeCharacteristicRing>(coefficients: &[R], right: &[R], x: R) -> R {
    coefficients
        .iter()
        .copied()
        .horner_acc(first_or_zero(right), x)
}

/// What a call that takes iterators, or an array of three, gives.
fn total<R: RingSums>(call: ListCall, left: &[R], right: &[R]) -> Option<R> {
    match call {
        ListCall::Sum => Some(left.iter().copied().sum()),
        ListCall::Product => Some(left.iter().copied().product()),
        ListCall::IteratorProduct => Some(dot_product(left.iter().copied(), right.iter().copied())),
        ListCall::SumOfThree if left.len() == 3 => Some(sum_array::<R, 3>(left)),
        _ => None,
    }
}

/// The calls that give the sum of the products of two lists.
#[derive(Clone, Copy)]
enum SumCall {
    Ring,
    Algebra,
    Batched,
    ChunkedProduct,
    ChunkedCombination,
    GivenChunk,
}

/// All of them.
const SUM_CALLS: [SumCall; 6] = [
    SumCall::Ring,
    SumCall::Algebra,
    SumCall::Batched,
    SumCall::ChunkedProduct,
    SumCall::ChunkedCombination,
    SumCall::GivenChunk,
];

/// The sum of the products of two lists, by a call on rings or on algebras, in chunks or not, and by the chunk
/// that is given.
fn sum_of_products<R: PrimeCharacteristicRing>(call: SumCall, values: &[R], coefficients: &[R]) -> R
    requires { length values.now ≡ length coefficients.now }
{
    match call {
        SumCall::Ring => R::dot_product(values, coefficients),
        SumCall::Algebra => <R as Algebra<R>>::mixed_dot_product(values, coefficients),
        SumCall::Batched => <R as Algebra<R>>::batched_linear_combination(values, coefficients),
        SumCall::ChunkedProduct => chunked_mixed_dot_product::<4, R, R>(values, coefficients),
        SumCall::ChunkedCombination => chunked_linear_combination::<4, R, R>(values, coefficients),
        SumCall::GivenChunk => dispatch_chunked_mixed_dot_product(values, coefficients, 4),
    }
}

/// Whether every call answers this sum of the products of two lists.
fn are_sums<R: PrimeCharacteristicRing + Numbered>(
    values: &[R],
    coefficients: &[R],
    answer: &[u64],
) -> bool {
    if values.len() != coefficients.len() {
        return false;
    }
    for call in SUM_CALLS {
        if !holds(&sum_of_products(call, values, coefficients), answer) {
            return false;
        }
    }
    true
}

/// Whether a list is the answer after another is added to it.
fn is_sum_of_slices<F: Field + Numbered>(mut slice: Vec<F>, other: &[F], answer: &[u64]) -> bool {
    if slice.len() != other.len() {
        return false;
    }
    F::add_slices(&mut slice, other);
    all_hold(&slice, answer)
}

/// Whether the product of so many minus ones with themselves is the answer.
fn is_product_of_minus_ones<R: PrimeCharacteristicRing + Numbered>(
    alloc: Global,
    case: &Case,
) -> Result<bool, AllocError> {
    let mut values = Vec::new(alloc);
    for _ in 0..case.size(0) {
        values.push(R::neg_one())?;
    }
    Ok(holds(&R::dot_product(&values, &values), &case.answer))
}
