//! The calls over the values of Goldilocks, each its own word of 64 bits.
ghost use Rattle.p3_theory.specs.Rings.DotProduct as products;
ghost use Rattle.p3_theory.specs.Rings.Operators.{sum_list, product_list};
ghost use Rattle.p3_theory.specs.Rings.Powers.{eval};
ghost use Rattle.p3_c_words.specs.Statuses.{Answers, Tells};
ghost use Rattle.p3_c_words.specs.Calls.{Checks, AnswersInverse, AnswersRoot, WritesWords, WritesNumbers, WritesInverses};
ghost use Rattle.p3_c_words.specs.ListCalls.{AnswersOne, AnswersPair, AnswersAt, WritesPairs, WritesScaledPairs, WritesScaled, WritesPowers};
ghost use Rattle.p3_c_calls.specs.CosetCalls.{WritesCoset, WritesValues};
ghost use Rattle.p3_c_calls.specs.RunCalls.{WritesRun};

use p3_c_calls::coded::RunStep;
use p3_c_calls::{cosets, runs};
use p3_c_words::status::{answer, status};
use p3_c_words::stored::Stored;
use p3_c_words::{inverses, numbers, pairs, points, totals};
use p3_field_traits::field::{Field, TwoAdicField};
use p3_prime_fields::goldilocks::Goldilocks;
use p3_ring::ring::PrimeCharacteristicRing;
use std::alloc::Global;

/// How many values are worked on at once.
const BLOCK: usize = 256;

/// How many products go side by side.
const LANES: usize = 32;

/// How many values are inverted at once.
const INVERSES: usize = 512;

/// Writes over each canonical number the word of its value.
#[unsafe(no_mangle)]
pub extern "C" fn p3_gl_from_canonical(values: &mut [u64]) -> i32
    ensures { Tells (WritesWords ⟦<Goldilocks as Stored<u64>>⟧.words values.old values.new) result }
{
    status(numbers::from_canonical::<Goldilocks, u64>(values))
}

/// Writes over each word the canonical number of its value.
#[unsafe(no_mangle)]
pub extern "C" fn p3_gl_to_canonical(values: &mut [u64]) -> i32
    ensures { Tells (WritesNumbers ⟦<Goldilocks as Stored<u64>>⟧.words values.old values.new) result }
{
    status(numbers::to_canonical::<Goldilocks, u64>(values))
}

/// Whether each word is below the order.
#[unsafe(no_mangle)]
pub extern "C" fn p3_gl_check(values: &[u64]) -> i32
    ensures { Tells (Checks ⟦<Goldilocks as Stored<u64>>⟧.words values.now) result }
{
    status(numbers::check::<Goldilocks, u64>(values))
}

/// The sum of the values; of none it is zero.
#[unsafe(no_mangle)]
pub extern "C" fn p3_gl_sum(values: &[u64], sum: &mut u64) -> i32
    ensures { Answers (AnswersOne ⟦<Goldilocks as Stored<u64>>⟧.words (λ xs. sum_list ⟦<Goldilocks as PrimeCharacteristicRing>⟧.ops xs) values.now) sum.old sum.new result }
{
    answer(totals::sum::<Goldilocks, u64>(values), sum)
}

/// The product of the values; of none it is one.
#[unsafe(no_mangle)]
pub extern "C" fn p3_gl_product(values: &[u64], product: &mut u64) -> i32
    ensures { Answers (AnswersOne ⟦<Goldilocks as Stored<u64>>⟧.words (λ xs. product_list ⟦<Goldilocks as PrimeCharacteristicRing>⟧.ops xs) values.now) product.old product.new result }
{
    let mut room = [Goldilocks::zero(); BLOCK];
    let mut lanes = [Goldilocks::zero(); LANES];
    answer(
        totals::product::<Goldilocks, u64>(values, &mut room, &mut lanes),
        product,
    )
}

/// The sum of the products, index by index.
#[unsafe(no_mangle)]
pub extern "C" fn p3_gl_dot(left: &[u64], right: &[u64], dot: &mut u64) -> i32
    ensures { Answers (AnswersPair ⟦<Goldilocks as Stored<u64>>⟧.words (λ xs ys. products.dot ⟦<Goldilocks as PrimeCharacteristicRing>⟧.ops xs ys) left.now right.now) dot.old dot.new result }
{
    answer(totals::dot_product::<Goldilocks, u64>(left, right), dot)
}

/// Adds to each value of the left slice that of the right one at its index.
#[unsafe(no_mangle)]
pub extern "C" fn p3_gl_add(left: &mut [u64], right: &[u64]) -> i32
    ensures { Tells (WritesPairs ⟦<Goldilocks as Stored<u64>>⟧.words (λ x y. ⟦<Goldilocks as PrimeCharacteristicRing>⟧.ops.add x y) left.old right.now left.new) result }
{
    status(pairs::add::<Goldilocks, u64>(left, right))
}

/// Multiplies each value of the left slice by that of the right one at its index.
#[unsafe(no_mangle)]
pub extern "C" fn p3_gl_mul(left: &mut [u64], right: &[u64]) -> i32
    ensures { Tells (WritesPairs ⟦<Goldilocks as Stored<u64>>⟧.words (λ x y. ⟦<Goldilocks as PrimeCharacteristicRing>⟧.ops.mul x y) left.old right.now left.new) result }
{
    status(pairs::multiply::<Goldilocks, u64>(left, right))
}

/// Multiplies each value by the factor.
#[unsafe(no_mangle)]
pub extern "C" fn p3_gl_scale(values: &mut [u64], factor: u64) -> i32
    ensures { Tells (WritesScaled ⟦<Goldilocks as Stored<u64>>⟧.words (λ c x. ⟦<Goldilocks as PrimeCharacteristicRing>⟧.ops.mul x c) factor values.old values.new) result }
{
    status(pairs::scale::<Goldilocks, u64>(values, factor))
}

/// Adds to each value of the left slice that of the right one at its index times the factor.
#[unsafe(no_mangle)]
pub extern "C" fn p3_gl_add_scaled(left: &mut [u64], right: &[u64], factor: u64) -> i32
    ensures { Tells (WritesScaledPairs ⟦<Goldilocks as Stored<u64>>⟧.words (λ c x y. ⟦<Goldilocks as PrimeCharacteristicRing>⟧.ops.add x (⟦<Goldilocks as PrimeCharacteristicRing>⟧.ops.mul y c)) factor left.old right.now left.new) result }
{
    status(pairs::add_scaled::<Goldilocks, u64>(left, right, factor))
}

/// The value at the point of the polynomial with these coefficients, the constant one first.
#[unsafe(no_mangle)]
pub extern "C" fn p3_gl_horner(coefficients: &[u64], point: u64, value: &mut u64) -> i32
    ensures { Answers (AnswersAt ⟦<Goldilocks as Stored<u64>>⟧.words (λ x cs. eval ⟦<Goldilocks as PrimeCharacteristicRing>⟧.ops ⟦<Goldilocks as PrimeCharacteristicRing>⟧.ops (λ c. c) x cs) point coefficients.now) value.old value.new result }
{
    let mut room = [Goldilocks::zero(); BLOCK];
    answer(
        points::horner::<Goldilocks, u64>(coefficients, point, &mut room),
        value,
    )
}

/// Writes the start, its product with the base, that one's product with the base, and so on to the slice's end.
#[unsafe(no_mangle)]
pub extern "C" fn p3_gl_powers(base: u64, start: u64, powers: &mut [u64]) -> i32
    ensures { Tells (WritesPowers ⟦<Goldilocks as PrimeCharacteristicRing>⟧.ops ⟦<Goldilocks as Stored<u64>>⟧.words base start powers.old powers.new) result }
{
    let mut room = [Goldilocks::zero(); BLOCK];
    status(points::powers::<Goldilocks, u64>(base, start, powers, &mut room))
}

/// The inverse of the value.
#[unsafe(no_mangle)]
pub extern "C" fn p3_gl_inverse(value: u64, inverse: &mut u64) -> i32
    ensures { Answers (AnswersInverse ⟦<Goldilocks as PrimeCharacteristicRing>⟧.ops ⟦<Goldilocks as Stored<u64>>⟧.words value) inverse.old inverse.new result }
{
    answer(inverses::inverse::<Goldilocks, u64>(value), inverse)
}

/// Writes over each value its inverse.
#[unsafe(no_mangle)]
pub extern "C" fn p3_gl_batch_inverse(values: &mut [u64]) -> i32
    ensures { Tells (WritesInverses ⟦<Goldilocks as PrimeCharacteristicRing>⟧.ops ⟦<Goldilocks as Stored<u64>>⟧.words values.old values.new) result }
{
    let mut room = [Goldilocks::zero(); INVERSES];
    let mut inverses = [Goldilocks::zero(); INVERSES];
    status(inverses::batch_inverse::<Goldilocks, u64>(values, &mut room, &mut inverses))
}

/// A square root of the value, as the search by Tonelli and Shanks finds it.
#[unsafe(no_mangle)]
pub extern "C" fn p3_gl_sqrt(value: u64, root: &mut u64) -> i32
    ensures { Answers (AnswersRoot ⟦<Goldilocks as PrimeCharacteristicRing>⟧.ops ⟦<Goldilocks as Stored<u64>>⟧.words ⟦<Goldilocks as Field>⟧.size ⟦<Goldilocks as Field>⟧.generator value) root.old root.new result }
{
    answer(inverses::square_root::<Goldilocks, u64>(value), root)
}

/// Writes the points of the coset of the shift whose size is two to the log size, which is the slice's length: the
/// shift times the powers of the two-adic generator of that order.
#[unsafe(no_mangle)]
pub extern "C" fn p3_gl_coset(shift: u64, log_size: usize, points: &mut [u64]) -> i32
    ensures { Tells (WritesCoset ⟦<Goldilocks as PrimeCharacteristicRing>⟧.ops ⟦<Goldilocks as Stored<u64>>⟧.words ⟦<Goldilocks as TwoAdicField>⟧.TWO_ADICITY ⟦<Goldilocks as TwoAdicField>⟧.two_adic shift log_size points.old points.new) result }
{
    let mut room = [Goldilocks::zero(); BLOCK];
    status(cosets::coset_points::<Goldilocks, u64>(shift, log_size, points, &mut room))
}

/// Writes the values, over the coset of the shift whose size is two to the log size, of the polynomial with these
/// coefficients, the constant one first. The size is the slice's length.
#[unsafe(no_mangle)]
pub extern "C" fn p3_gl_eval_coset(
    alloc: Global,
    coefficients: &[u64],
    shift: u64,
    log_size: usize,
    values: &mut [u64],
) -> i32
    ensures { Tells (WritesValues ⟦<Goldilocks as PrimeCharacteristicRing>⟧.ops ⟦<Goldilocks as Stored<u64>>⟧.words ⟦<Goldilocks as TwoAdicField>⟧.TWO_ADICITY ⟦<Goldilocks as TwoAdicField>⟧.two_adic coefficients.now shift log_size values.old values.new) result }
{
    status(cosets::coset_values::<Goldilocks, u64>(alloc, coefficients, shift, log_size, values))
}

/// Carries out the steps, one after the other, over the values of the registers. Where a step's value has no inverse or
/// no root is found, no register is written.
#[unsafe(no_mangle)]
pub extern "C" fn p3_gl_run(alloc: Global, registers: &mut [u64], steps: &[RunStep]) -> i32
    ensures { Tells (WritesRun ⟦<Goldilocks as PrimeCharacteristicRing>⟧.ops ⟦<Goldilocks as Stored<u64>>⟧.words ⟦<Goldilocks as Field>⟧.size ⟦<Goldilocks as Field>⟧.generator steps.now registers.old registers.new) result }
{
    status(runs::run::<Goldilocks, u64>(alloc, registers, steps))
}
