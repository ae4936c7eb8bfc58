//! The calls over the values of BabyBear, in Montgomery's form of 32 bits.
ghost use Rattle.p3_theory.specs.Rings.DotProduct as products;
ghost use Rattle.p3_theory.specs.Rings.Operators.{sum_list, product_list};
ghost use Rattle.p3_theory.specs.Rings.Powers.{eval};
ghost use Rattle.p3_c_words.specs.Statuses.{Answers, Tells};
ghost use Rattle.p3_c_words.specs.Calls.{Checks, AnswersInverse, AnswersRoot, WritesWords, WritesNumbers, WritesInverses};
ghost use Rattle.p3_c_words.specs.ListCalls.{AnswersOne, AnswersPair, AnswersAt, WritesPairs, WritesScaledPairs, WritesScaled, WritesPowers};
ghost use Rattle.p3_c_calls.specs.CosetCalls.{WritesCoset, WritesValues};
ghost use Rattle.p3_c_calls.specs.LimbCalls.{AnswersPacked, WritesDigits, AnswersLimit};
ghost use Rattle.p3_c_calls.specs.RunCalls.{WritesRun};

use p3_c_calls::coded::RunStep;
use p3_c_calls::limbs::{most_digits, pack, split};
use p3_c_calls::{cosets, runs};
use p3_c_words::status::{answer, status};
use p3_c_words::stored::Stored;
use p3_c_words::{inverses, numbers, pairs, points, totals};
use p3_field_traits::field::{Field, TwoAdicField};
use p3_integers::integers::Quotient;
use p3_prime_fields::baby_bear::BabyBear;
use p3_prime_fields::goldilocks::Goldilocks;
use p3_ring::ring::PrimeCharacteristicRing;
use std::alloc::Global;

/// How many values are worked on at once.
const BLOCK: usize = 256;

/// How many products go side by side.
const LANES: usize = 32;

/// How many values are inverted at once.
const INVERSES: usize = 512;

/// Writes over each canonical number the word of its value.
#[unsafe(no_mangle)]
pub extern "C" fn p3_bb_from_canonical(values: &mut [u32]) -> i32
    ensures { Tells (WritesWords ⟦<BabyBear as Stored<u32>>⟧.words values.old values.new) result }
{
    status(numbers::from_canonical::<BabyBear, u32>(values))
}

/// Writes over each word the canonical number of its value.
#[unsafe(no_mangle)]
pub extern "C" fn p3_bb_to_canonical(values: &mut [u32]) -> i32
    ensures { Tells (WritesNumbers ⟦<BabyBear as Stored<u32>>⟧.words values.old values.new) result }
{
    status(numbers::to_canonical::<BabyBear, u32>(values))
}

/// Whether each word is below the order.
#[unsafe(no_mangle)]
pub extern "C" fn p3_bb_check(values: &[u32]) -> i32
    ensures { Tells (Checks ⟦<BabyBear as Stored<u32>>⟧.words values.now) result }
{
    status(numbers::check::<BabyBear, u32>(values))
}

/// The sum of the values; of none it is zero.
#[unsafe(no_mangle)]
pub extern "C" fn p3_bb_sum(values: &[u32], sum: &mut u32) -> i32
    ensures { Answers (AnswersOne ⟦<BabyBear as Stored<u32>>⟧.words (λ xs. sum_list ⟦<BabyBear as PrimeCharacteristicRing>⟧.ops xs) values.now) sum.old sum.new result }
{
    answer(totals::sum::<BabyBear, u32>(values), sum)
}

/// The product of the values; of none it is one.
#[unsafe(no_mangle)]
pub extern "C" fn p3_bb_product(values: &[u32], product: &mut u32) -> i32
    ensures { Answers (AnswersOne ⟦<BabyBear as Stored<u32>>⟧.words (λ xs. product_list ⟦<BabyBear as PrimeCharacteristicRing>⟧.ops xs) values.now) product.old product.new result }
{
    let mut room = [BabyBear::zero(); BLOCK];
    let mut lanes = [BabyBear::zero(); LANES];
    answer(
        totals::product::<BabyBear, u32>(values, &mut room, &mut lanes),
        product,
    )
}

/// The sum of the products, index by index.
#[unsafe(no_mangle)]
pub extern "C" fn p3_bb_dot(left: &[u32], right: &[u32], dot: &mut u32) -> i32
    ensures { Answers (AnswersPair ⟦<BabyBear as Stored<u32>>⟧.words (λ xs ys. products.dot ⟦<BabyBear as PrimeCharacteristicRing>⟧.ops xs ys) left.now right.now) dot.old dot.new result }
{
    answer(totals::dot_product::<BabyBear, u32>(left, right), dot)
}

/// Adds to each value of the left slice that of the right one at its index.
#[unsafe(no_mangle)]
pub extern "C" fn p3_bb_add(left: &mut [u32], right: &[u32]) -> i32
    ensures { Tells (WritesPairs ⟦<BabyBear as Stored<u32>>⟧.words (λ x y. ⟦<BabyBear as PrimeCharacteristicRing>⟧.ops.add x y) left.old right.now left.new) result }
{
    status(pairs::add::<BabyBear, u32>(left, right))
}

/// Multiplies each value of the left slice by that of the right one at its index.
#[unsafe(no_mangle)]
pub extern "C" fn p3_bb_mul(left: &mut [u32], right: &[u32]) -> i32
    ensures { Tells (WritesPairs ⟦<BabyBear as Stored<u32>>⟧.words (λ x y. ⟦<BabyBear as PrimeCharacteristicRing>⟧.ops.mul x y) left.old right.now left.new) result }
{
    status(pairs::multiply::<BabyBear, u32>(left, right))
}

/// Multiplies each value by the factor.
#[unsafe(no_mangle)]
pub extern "C" fn p3_bb_scale(values: &mut [u32], factor: u32) -> i32
    ensures { Tells (WritesScaled ⟦<BabyBear as Stored<u32>>⟧.words (λ c x. ⟦<BabyBear as PrimeCharacteristicRing>⟧.ops.mul x c) factor values.old values.new) result }
{
    status(pairs::scale::<BabyBear, u32>(values, factor))
}

/// Adds to each value of the left slice that of the right one at its index times the factor.
#[unsafe(no_mangle)]
pub extern "C" fn p3_bb_add_scaled(left: &mut [u32], right: &[u32], factor: u32) -> i32
    ensures { Tells (WritesScaledPairs ⟦<BabyBear as Stored<u32>>⟧.words (λ c x y. ⟦<BabyBear as PrimeCharacteristicRing>⟧.ops.add x (⟦<BabyBear as PrimeCharacteristicRing>⟧.ops.mul y c)) factor left.old right.now left.new) result }
{
    status(pairs::add_scaled::<BabyBear, u32>(left, right, factor))
}

/// The value at the point of the polynomial with these coefficients, the constant one first.
#[unsafe(no_mangle)]
pub extern "C" fn p3_bb_horner(coefficients: &[u32], point: u32, value: &mut u32) -> i32
    ensures { Answers (AnswersAt ⟦<BabyBear as Stored<u32>>⟧.words (λ x cs. eval ⟦<BabyBear as PrimeCharacteristicRing>⟧.ops ⟦<BabyBear as PrimeCharacteristicRing>⟧.ops (λ c. c) x cs) point coefficients.now) value.old value.new result }
{
    let mut room = [BabyBear::zero(); BLOCK];
    answer(
        points::horner::<BabyBear, u32>(coefficients, point, &mut room),
        value,
    )
}

/// Writes the start, its product with the base, that one's product with the base, and so on to the slice's end.
#[unsafe(no_mangle)]
pub extern "C" fn p3_bb_powers(base: u32, start: u32, powers: &mut [u32]) -> i32
    ensures { Tells (WritesPowers ⟦<BabyBear as PrimeCharacteristicRing>⟧.ops ⟦<BabyBear as Stored<u32>>⟧.words base start powers.old powers.new) result }
{
    let mut room = [BabyBear::zero(); BLOCK];
    status(points::powers::<BabyBear, u32>(base, start, powers, &mut room))
}

/// The inverse of the value.
#[unsafe(no_mangle)]
pub extern "C" fn p3_bb_inverse(value: u32, inverse: &mut u32) -> i32
    ensures { Answers (AnswersInverse ⟦<BabyBear as PrimeCharacteristicRing>⟧.ops ⟦<BabyBear as Stored<u32>>⟧.words value) inverse.old inverse.new result }
{
    answer(inverses::inverse::<BabyBear, u32>(value), inverse)
}

/// Writes over each value its inverse.
#[unsafe(no_mangle)]
pub extern "C" fn p3_bb_batch_inverse(values: &mut [u32]) -> i32
    ensures { Tells (WritesInverses ⟦<BabyBear as PrimeCharacteristicRing>⟧.ops ⟦<BabyBear as Stored<u32>>⟧.words values.old values.new) result }
{
    let mut room = [BabyBear::zero(); INVERSES];
    let mut inverses = [BabyBear::zero(); INVERSES];
    status(inverses::batch_inverse::<BabyBear, u32>(values, &mut room, &mut inverses))
}

/// A square root of the value, as the search by Tonelli and Shanks finds it.
#[unsafe(no_mangle)]
pub extern "C" fn p3_bb_sqrt(value: u32, root: &mut u32) -> i32
    ensures { Answers (AnswersRoot ⟦<BabyBear as PrimeCharacteristicRing>⟧.ops ⟦<BabyBear as Stored<u32>>⟧.words ⟦<BabyBear as Field>⟧.size ⟦<BabyBear as Field>⟧.generator value) root.old root.new result }
{
    answer(inverses::square_root::<BabyBear, u32>(value), root)
}

/// Writes the points of the coset of the shift whose size is two to the log size, which is the slice's length: the
/// shift times the powers of the two-adic generator of that order.
#[unsafe(no_mangle)]
pub extern "C" fn p3_bb_coset(shift: u32, log_size: usize, points: &mut [u32]) -> i32
    ensures { Tells (WritesCoset ⟦<BabyBear as PrimeCharacteristicRing>⟧.ops ⟦<BabyBear as Stored<u32>>⟧.words ⟦<BabyBear as TwoAdicField>⟧.TWO_ADICITY ⟦<BabyBear as TwoAdicField>⟧.two_adic shift log_size points.old points.new) result }
{
    let mut room = [BabyBear::zero(); BLOCK];
    status(cosets::coset_points::<BabyBear, u32>(shift, log_size, points, &mut room))
}

/// Writes the values, over the coset of the shift whose size is two to the log size, of the polynomial with these
/// coefficients, the constant one first. The size is the slice's length.
#[unsafe(no_mangle)]
pub extern "C" fn p3_bb_eval_coset(
    alloc: Global,
    coefficients: &[u32],
    shift: u32,
    log_size: usize,
    values: &mut [u32],
) -> i32
    ensures { Tells (WritesValues ⟦<BabyBear as PrimeCharacteristicRing>⟧.ops ⟦<BabyBear as Stored<u32>>⟧.words ⟦<BabyBear as TwoAdicField>⟧.TWO_ADICITY ⟦<BabyBear as TwoAdicField>⟧.two_adic coefficients.now shift log_size values.old values.new) result }
{
    status(cosets::coset_values::<BabyBear, u32>(alloc, coefficients, shift, log_size, values))
}

/// Carries out the steps, one after the other, over the values of the registers. Where a step's value has no inverse or
/// no root is found, no register is written.
#[unsafe(no_mangle)]
pub extern "C" fn p3_bb_run(alloc: Global, registers: &mut [u32], steps: &[RunStep]) -> i32
    ensures { Tells (WritesRun ⟦<BabyBear as PrimeCharacteristicRing>⟧.ops ⟦<BabyBear as Stored<u32>>⟧.words ⟦<BabyBear as Field>⟧.size ⟦<BabyBear as Field>⟧.generator steps.now registers.old registers.new) result }
{
    status(runs::run::<BabyBear, u32>(alloc, registers, steps))
}

/// The value of Goldilocks for the number whose digits in radix two to the radix bits, the lowest first, are the limbs.
#[unsafe(no_mangle)]
pub extern "C" fn p3_bb_pack(alloc: Global, limbs: &[u32], radix_bits: u32, value: &mut u64) -> i32
    ensures { Answers (AnswersPacked ⟦<BabyBear as Stored<u32>>⟧.words ⟦<BabyBear as Quotient>⟧.canon ⟦<Goldilocks as Stored<u64>>⟧.words ⟦<Goldilocks as Quotient>⟧.canon ⟦<Goldilocks as Quotient>⟧.order limbs.now radix_bits) value.old value.new result }
{
    answer(
        pack::<BabyBear, u32, Goldilocks, u64>(alloc, limbs, radix_bits),
        value,
    )
}

/// Writes the lowest digits of the value of Goldilocks in radix two to the radix bits, the lowest first, as many as
/// there are limbs.
#[unsafe(no_mangle)]
pub extern "C" fn p3_bb_split(alloc: Global, value: u64, radix_bits: u32, limbs: &mut [u32]) -> i32
    ensures { Tells (WritesDigits ⟦<BabyBear as Stored<u32>>⟧.words ⟦<BabyBear as Quotient>⟧.canon ⟦<BabyBear as Quotient>⟧.order ⟦<Goldilocks as Stored<u64>>⟧.words ⟦<Goldilocks as Quotient>⟧.canon value radix_bits limbs.old limbs.new) result }
{
    status(split::<BabyBear, u32, Goldilocks, u64>(alloc, value, radix_bits, limbs))
}

/// How many limbs can be packed into one value of Goldilocks at most, in radix two to the radix bits, so that lists of
/// one length stay apart where the radix is not below the order.
#[unsafe(no_mangle)]
pub extern "C" fn p3_bb_most_digits(radix_bits: u32, count: &mut usize) -> i32
    ensures { Answers (AnswersLimit ⟦<BabyBear as Quotient>⟧.canon ⟦<BabyBear as Quotient>⟧.order ⟦<Goldilocks as Quotient>⟧.order radix_bits) count.old count.new result }
{
    answer(most_digits::<BabyBear, Goldilocks>(radix_bits), count)
}
