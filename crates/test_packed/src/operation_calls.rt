//! Operations on packings of extension values, with each other, with packings of the base and with extension values.
use crate::cases::{Case, MixedOperation, Operation};
use p3_ring::ring::{Algebra, PrimeCharacteristicRing};
use std::alloc::{AllocError, Global};
use test_values::numbered::{Numbered, holds, value, values};

/// What an operation gives on two values, or on a value and a number.
fn operation<R: PrimeCharacteristicRing>(operation: Operation, x: R, y: R, number: u64) -> R {
    match operation {
        Operation::Add => x + y,
        Operation::Sub => x - y,
        Operation::Mul => x * y,
        Operation::Neg => -x,
        Operation::Double => x.double(),
        Operation::Square => x.square(),
        Operation::Cube => x.cube(),
        Operation::Exp => x.exp_u64(number),
        Operation::Mul2Exp => x.mul_2exp_u64(number),
    }
}

/// Whether an operation has its answer.
pub(crate) fn operation_agrees<R: PrimeCharacteristicRing + Numbered>(
    name: Operation,
    case: &Case,
) -> bool {
    let x = value::<R>(case.argument(0));
    let y = value::<R>(case.argument(1));
    let found = operation::<R>(name, x, y, case.size(1) as u64);
    holds(&found, &case.answer)
}

/// Whether the sum of the products of two lists is the answer.
pub(crate) fn dot_product_agrees<R: PrimeCharacteristicRing + Numbered>(
    alloc: Global,
    case: &Case,
) -> Result<bool, AllocError> {
    let xs = values::<R>(alloc, case.argument(0))?;
    let ys = values::<R>(alloc, case.argument(1))?;
    Ok(xs.len() == ys.len() && holds(&R::dot_product(&xs, &ys), &case.answer))
}

/// What an operation gives on a value of an algebra and one of T, or on that of T alone.
fn mixed_operation<A: Algebra<T>, T: PrimeCharacteristicRing>(
    operation: MixedOperation,
    x: A,
    y: T,
) -> A {
    match operation {
        MixedOperation::Add => x + y,
        MixedOperation::Sub => x - y,
        MixedOperation::Mul => x * y,
        _ => A::from(y),
    }
}

/// Whether the sum of the products of values and values of T is the answer.
fn mixed_dot_product_agrees<A: Algebra<T> + Numbered, T: PrimeCharacteristicRing + Numbered>(
    alloc: Global,
    case: &Case,
) -> Result<bool, AllocError> {
    let xs = values::<A>(alloc, case.argument(0))?;
    let ys = values::<T>(alloc, case.argument(1))?;
    Ok(xs.len() == ys.len() && holds(&A::mixed_dot_product(&xs, &ys), &case.answer))
}

/// Whether an operation on a value of an algebra and one of T has its answer. That of T is the last argument.
pub(crate) fn mixed_operation_agrees<
    A: Algebra<T> + Numbered,
    T: PrimeCharacteristicRing + Numbered,
>(alloc: Global, operation: MixedOperation, case: &Case) -> Result<bool, AllocError> {
    let x = value::<A>(case.argument(0));
    match operation {
        MixedOperation::DotProduct => mixed_dot_product_agrees::<A, T>(alloc, case),
        MixedOperation::From => {
            let y = value::<T>(case.argument(0));
            Ok(holds(&mixed_operation(operation, x, y), &case.answer))
        }
        _ => {
            let y = value::<T>(case.argument(1));
            Ok(holds(&mixed_operation(operation, x, y), &case.answer))
        }
    }
}
