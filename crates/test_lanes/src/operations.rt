//! The operations of an algebra over a field.
ghost use Rattle.std.specs.Prelude.{IsTrue};
ghost use Rattle.p3_theory.specs.Rings.Ring.{Invertible};

use crate::cases::{Arithmetic, Case, Operation, Unary};
use p3_field_traits::field::Field;
use p3_ring::ring::{Algebra, PrimeCharacteristicRing};
use std::alloc::{AllocError, Global};
use test_values::numbered::{Numbered, holds, value, values};

/// A sum, a difference or a product of two values.
fn of_two<A: PrimeCharacteristicRing>(operation: Arithmetic, x: A, y: A) -> A {
    match operation {
        Arithmetic::Add => x + y,
        Arithmetic::Sub => x - y,
        Arithmetic::Mul => x * y,
    }
}

/// The same of a value and a scalar.
fn with_scalar<F: PrimeCharacteristicRing, A: Algebra<F>>(
    operation: Arithmetic,
    x: A,
    scalar: F,
) -> A {
    match operation {
        Arithmetic::Add => x + scalar,
        Arithmetic::Sub => x - scalar,
        Arithmetic::Mul => x * scalar,
    }
}

/// What an operation gives on one value, and on a number where it takes one.
fn of_one<A: PrimeCharacteristicRing>(operation: Unary, x: A, number: u64) -> A {
    match operation {
        Unary::Neg => -x,
        Unary::Double => x.double(),
        Unary::Square => x.square(),
        Unary::Cube => x.cube(),
        Unary::Exp => x.exp_u64(number),
        Unary::Mul2Exp => x.mul_2exp_u64(number),
    }
}

/// Whether a value has an inverse.
pub(crate) fn has_inverse<T: Field>(y: T) -> bool
    ensures { IsTrue result → Invertible T.ops y }
{
    y.try_inverse().is_some()
}

/// Whether the half of a value is the answer.
fn half_agrees<A: Algebra<T> + Numbered, T: Field>(case: &Case) -> bool {
    let two = T::two();
    let x = value::<A>(case.argument(0));
    has_inverse(two) && holds(&x.halve(), &case.answer)
}

/// Whether the sum of the products of two lists is the answer.
fn dot_product_agrees<R: PrimeCharacteristicRing + Numbered>(
    alloc: Global,
    case: &Case,
) -> Result<bool, AllocError> {
    let xs = values::<R>(alloc, case.argument(0))?;
    let ys = values::<R>(alloc, case.argument(1))?;
    Ok(xs.len() == ys.len() && holds(&R::dot_product(&xs, &ys), &case.answer))
}

/// Whether the sum of the products of values and scalars is the answer.
fn mixed_dot_product_agrees<A: Algebra<T> + Numbered, T: PrimeCharacteristicRing + Numbered>(
    alloc: Global,
    case: &Case,
) -> Result<bool, AllocError> {
    let xs = values::<A>(alloc, case.argument(0))?;
    let ys = values::<T>(alloc, case.argument(1))?;
    Ok(xs.len() == ys.len() && holds(&A::mixed_dot_product(&xs, &ys), &case.answer))
}

/// What an operation gives on values that aren't in lists.
fn answer_of<A: Algebra<T> + Numbered, T: PrimeCharacteristicRing + Numbered>(
    operation: Operation,
    case: &Case,
) -> A {
    let x = value::<A>(case.argument(0));
    match operation {
        Operation::WithScalar(name) => with_scalar(name, x, value::<T>(case.argument(1))),
        Operation::Unary(name) => of_one(name, x, case.number(1)),
        Operation::Binary(name) => of_two(name, x, value::<A>(case.argument(1))),
        _ => x,
    }
}

/// Whether an operation has its answer.
pub(crate) fn operation_agrees<A: Algebra<T> + Numbered, T: Field + Numbered>(
    alloc: Global,
    operation: Operation,
    case: &Case,
) -> Result<bool, AllocError> {
    match operation {
        Operation::DotProduct => dot_product_agrees::<A>(alloc, case),
        Operation::MixedDotProduct => mixed_dot_product_agrees::<A, T>(alloc, case),
        Operation::Halve => Ok(half_agrees::<A, T>(case)),
        _ => Ok(holds(&answer_of::<A, T>(operation, case), &case.answer)),
    }
}
