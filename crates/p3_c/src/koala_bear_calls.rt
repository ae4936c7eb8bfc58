//! The calls over the values of KoalaBear, in Montgomery's form of 32 bits.
ghost use Rattle.p3_theory.specs.Rings.DotProduct as products;
ghost use Rattle.p3_theory.specs.Rings.Operators.{sum_list, product_list};
ghost use Rattle.p3_theory.specs.Rings.Powers.{eval};
ghost use Rattle.p3_c_words.specs.Statuses.{Answers, Tells};
ghost use Rattle.p3_c_words.specs.Calls.{Checks, AnswersInverse, AnswersRoot, WritesWords, WritesNumbers, WritesInverses};
ghost use Rattle.p3_c_words.specs.ListCalls.{AnswersOne, AnswersPair, AnswersAt, WritesPairs, WritesScaledPairs, WritesScaled, WritesPowers};
ghost use Rattle.p3_c_calls.specs.CosetCalls.{WritesCoset, WritesValues};
ghost use Rattle.p3_c_calls.specs.LimbCalls.{AnswersPacked, WritesDigits, AnswersLimit};
ghost use Rattle.p3_c_calls.specs.RunCalls.{WritesRun};

use p3_c_calls::coded::RunStep;
use p3_c_calls::limbs::{most_digits, pack, split};
use p3_c_calls::{cosets, runs};
use p3_c_words::status::{answer, status};
use p3_c_words::stored::Stored;
use p3_c_words::{inverses, numbers, pairs, points, totals};
use p3_field_traits::field::{Field, TwoAdicField};
use p3_integers::integers::Quotient;
use p3_prime_fields::goldilocks::Goldilocks;
use p3_prime_fields::koala_bear::KoalaBear;
use p3_ring::ring::PrimeCharacteristicRing;
use std::alloc::Global;

/// How many values are worked on at once.
const BLOCK: usize = 256;

/// How many products go side by side.
const LANES: usize = 32;

/// How many values are inverted at once.
const INVERSES: usize = 512;

/// Writes over each canonical number the word of its value.
#[unsafe(no_mangle)]
pub extern "C" fn p3_kb_from_canonical(values: &mut [u32]) -> i32
    ensures { Tells (WritesWords ⟦<KoalaBear as Stored<u32>>⟧.words values.old values.new) result }
{
    status(numbers::from_canonical::<KoalaBear, u32>(values))
}

/// Writes over each word the canonical number of its value.
#[unsafe(no_mangle)]
pub extern "C" fn p3_kb_to_canonical(values: &mut [u32]) -> i32
    ensures { Tells (WritesNumbers ⟦<KoalaBear as Stored<u32>>⟧.words values.old values.new) result }
{
    status(numbers::to_canonical::<KoalaBear, u32>(values))
}

/// Whether each word is below the order.
#[unsafe(no_mangle)]
pub extern "C" fn p3_kb_check(values: &[u32]) -> i32
    ensures { Tells (Checks ⟦<KoalaBear as Stored<u32>>⟧.words values.now) result }
{
    status(numbers::check::<KoalaBear, u32>(values))
}

/// The sum of the values; of none it is zero.
#[unsafe(no_mangle)]
pub extern "C" fn p3_kb_sum(values: &[u32], sum: &mut u32) -> i32
    ensures { Answers (AnswersOne ⟦<KoalaBear as Stored<u32>>⟧.words (λ xs. sum_list ⟦<KoalaBear as PrimeCharacteristicRing>⟧.ops xs) values.now) sum.old sum.new result }
{
    answer(totals::sum::<KoalaBear, u32>(values), sum)
}

/// The product of the values; of none it is one.
#[unsafe(no_mangle)]
pub extern "C" fn p3_kb_product(values: &[u32], product: &mut u32) -> i32
    ensures { Answers (AnswersOne ⟦<KoalaBear as Stored<u32>>⟧.words (λ xs. product_list ⟦<KoalaBear as PrimeCharacteristicRing>⟧.ops xs) values.now) product.old product.new result }
{
    let mut room = [KoalaBear::zero(); BLOCK];
    let mut lanes = [KoalaBear::zero(); LANES];
    answer(
        totals::product::<KoalaBear, u32>(values, &mut room, &mut lanes),
        product,
    )
}

/// The sum of the products, index by index.
#[unsafe(no_mangle)]
pub extern "C" fn p3_kb_dot(left: &[u32], right: &[u32], dot: &mut u32) -> i32
    ensures { Answers (AnswersPair ⟦<KoalaBear as Stored<u32>>⟧.words (λ xs ys. products.dot ⟦<KoalaBear as PrimeCharacteristicRing>⟧.ops xs ys) left.now right.now) dot.old dot.new result }
{
    answer(totals::dot_product::<KoalaBear, u32>(left, right), dot)
}

/// Adds to each value of the left slice that of the right one at its index.
#[unsafe(no_mangle)]
pub extern "C" fn p3_kb_add(left: &mut [u32], right: &[u32]) -> i32
    ensures { Tells (WritesPairs ⟦<KoalaBear as Stored<u32>>⟧.words (λ x y. ⟦<KoalaBear as PrimeCharacteristicRing>⟧.ops.add x y) left.old right.now left.new) result }
{
    status(pairs::add::<KoalaBear, u32>(left, right))
}

/// Multiplies each value of the left slice by that of the right one at its index.
#[unsafe(no_mangle)]
pub extern "C" fn p3_kb_mul(left: &mut [u32], right: &[u32]) -> i32
    ensures { Tells (WritesPairs ⟦<KoalaBear as Stored<u32>>⟧.words (λ x y. ⟦<KoalaBear as PrimeCharacteristicRing>⟧.ops.mul x y) left.old right.now left.new) result }
{
    status(pairs::multiply::<KoalaBear, u32>(left, right))
}

/// Multiplies each value by the factor.
#[unsafe(no_mangle)]
pub extern "C" fn p3_kb_scale(values: &mut [u32], factor: u32) -> i32
    ensures { Tells (WritesScaled ⟦<KoalaBear as Stored<u32>>⟧.words (λ c x. ⟦<KoalaBear as PrimeCharacteristicRing>⟧.ops.mul x c) factor values.old values.new) result }
{
    status(pairs::scale::<KoalaBear, u32>(values, factor))
}

/// Adds to each value of the left slice that of the right one at its index times the factor.
#[unsafe(no_mangle)]
pub extern "C" fn p3_kb_add_scaled(left: &mut [u32], right: &[u32], factor: u32) -> i32
    ensures { Tells (WritesScaledPairs ⟦<KoalaBear as Stored<u32>>⟧.words (λ c x y. ⟦<KoalaBear as PrimeCharacteristicRing>⟧.ops.add x (⟦<KoalaBear as PrimeCharacteristicRing>⟧.ops.mul y c)) factor left.old right.now left.new) result }
{
    status(pairs::add_scaled::<KoalaBear, u32>(left, right, factor))
}

/// The value at the point of the polynomial with these coefficients, the constant one first.
#[unsafe(no_mangle)]
pub extern "C" fn p3_kb_horner(coefficients: &[u32], point: u32, value: &mut u32) -> i32
    ensures { Answers (AnswersAt ⟦<KoalaBear as Stored<u32>>⟧.words (λ x cs. eval ⟦<KoalaBear as PrimeCharacteristicRing>⟧.ops ⟦<KoalaBear as PrimeCharacteristicRing>⟧.ops (λ c. c) x cs) point coefficients.now) value.old value.new result }
{
    let mut room = [KoalaBear::zero(); BLOCK];
    answer(
        points::horner::<KoalaBear, u32>(coefficients, point, &mut room),
        value,
    )
}

/// Writes the start, its product with the base, that one's product with the base, and so on to the slice's end.
#[unsafe(no_mangle)]
pub extern "C" fn p3_kb_powers(base: u32, start: u32, powers: &mut [u32]) -> i32
    ensures { Tells (WritesPowers ⟦<KoalaBear as PrimeCharacteristicRing>⟧.ops ⟦<KoalaBear as Stored<u32>>⟧.words base start powers.old powers.new) result }
{
    let mut room = [KoalaBear::zero(); BLOCK];
    status(points::powers::<KoalaBear, u32>(base, start, powers, &mut room))
}

/// The inverse of the value.
#[unsafe(no_mangle)]
pub extern "C" fn p3_kb_inverse(value: u32, inverse: &mut u32) -> i32
    ensures { Answers (AnswersInverse ⟦<KoalaBear as PrimeCharacteristicRing>⟧.ops ⟦<KoalaBear as Stored<u32>>⟧.words value) inverse.old inverse.new result }
{
    answer(inverses::inverse::<KoalaBear, u32>(value), inverse)
}

/// Writes over each value its inverse.
#[unsafe(no_mangle)]
pub extern "C" fn p3_kb_batch_inverse(values: &mut [u32]) -> i32
    ensures { Tells (WritesInverses ⟦<KoalaBear as PrimeCharacteristicRing>⟧.ops ⟦<KoalaBear as Stored<u32>>⟧.words values.old values.new) result }
{
    let mut room = [KoalaBear::zero(); INVERSES];
    let mut inverses = [KoalaBear::zero(); INVERSES];
    status(inverses::batch_inverse::<KoalaBear, u32>(values, &mut room, &mut inverses))
}

/// A square root of the value, as the search by Tonelli and Shanks finds it.
#[unsafe(no_mangle)]
pub extern "C" fn p3_kb_sqrt(value: u32, root: &mut u32) -> i32
    ensures { Answers (AnswersRoot ⟦<KoalaBear as PrimeCharacteristicRing>⟧.ops ⟦<KoalaBear as Stored<u32>>⟧.words ⟦<KoalaBear as Field>⟧.size ⟦<KoalaBear as Field>⟧.generator value) root.old root.new result }
{
    answer(inverses::square_root::<KoalaBear, u32>(value), root)
}

/// Writes the points of the coset of the shift whose size is two to the log size, which is the slice's length: the
/// shift times the powers of the two-adic generator of that order.
#[unsafe(no_mangle)]
pub extern "C" fn p3_kb_coset(shift: u32, log_size: usize, points: &mut [u32]) -> i32
    ensures { Tells (WritesCoset ⟦<KoalaBear as PrimeCharacteristicRing>⟧.ops ⟦<KoalaBear as Stored<u32>>⟧.words ⟦<KoalaBear as TwoAdicField>⟧.TWO_ADICITY ⟦<KoalaBear as TwoAdicField>⟧.two_adic shift log_size points.old points.new) result }
{
    let mut room = [KoalaBear::zero(); BLOCK];
    status(cosets::coset_points::<KoalaBear, u32>(shift, log_size, points, &mut room))
}

/// Writes the values, over the coset of the shift whose size is two to the log size, of the polynomial with these
/// coefficients, the constant one first. The size is the slice's length.
#[unsafe(no_mangle)]
pub extern "C" fn p3_kb_eval_coset(
    alloc: Global,
    coefficients: &[u32],
    shift: u32,
    log_size: usize,
    values: &mut [u32],
) -> i32
    ensures { Tells (WritesValues ⟦<KoalaBear as PrimeCharacteristicRing>⟧.ops ⟦<KoalaBear as Stored<u32>>⟧.words ⟦<KoalaBear as TwoAdicField>⟧.TWO_ADICITY ⟦<KoalaBear as TwoAdicField>⟧.two_adic coefficients.now shift log_size values.old values.new) result }
{
    status(cosets::coset_values::<KoalaBear, u32>(alloc, coefficients, shift, log_size, values))
}

/// Carries out the steps, one after the other, over the values of the registers. Where a step's value has no inverse or
/// no root is found, no register is written.
#[unsafe(no_mangle)]
pub extern "C" fn p3_kb_run(alloc: Global, registers: &mut [u32], steps: &[RunStep]) -> i32
    ensures { Tells (WritesRun ⟦<KoalaBear as PrimeCharacteristicRing>⟧.ops ⟦<KoalaBear as Stored<u32>>⟧.words ⟦<KoalaBear as Field>⟧.size ⟦<KoalaBear as Field>⟧.generator steps.now registers.old registers.new) result }
{
    status(runs::run::<KoalaBear, u32>(alloc, registers, steps))
}

/// The value of Goldilocks for the number whose digits in radix two to the radix bits, the lowest first, are the limbs.
#[unsafe(no_mangle)]
pub extern "C" fn p3_kb_pack(alloc: Global, limbs: &[u32], radix_bits: u32, value: &mut u64) -> i32
    ensures { Answers (AnswersPacked ⟦<KoalaBear as Stored<u32>>⟧.words ⟦<KoalaBear as Quotient>⟧.canon ⟦<Goldilocks as Stored<u64>>⟧.words ⟦<Goldilocks as Quotient>⟧.canon ⟦<Goldilocks as Quotient>⟧.order limbs.now radix_bits) value.old value.new result }
{
    answer(
        pack::<KoalaBear, u32, Goldilocks, u64>(alloc, limbs, radix_bits),
        value,
    )
}

/// Writes the lowest digits of the value of Goldilocks in radix two to the radix bits, the lowest first, as many as
/// there are limbs.
#[unsafe(no_mangle)]
pub extern "C" fn p3_kb_split(alloc: Global, value: u64, radix_bits: u32, limbs: &mut [u32]) -> i32
    ensures { Tells (WritesDigits ⟦<KoalaBear as Stored<u32>>⟧.words ⟦<KoalaBear as Quotient>⟧.canon ⟦<KoalaBear as Quotient>⟧.order ⟦<Goldilocks as Stored<u64>>⟧.words ⟦<Goldilocks as Quotient>⟧.canon value radix_bits limbs.old limbs.new) result }
{
    status(split::<KoalaBear, u32, Goldilocks, u64>(alloc, value, radix_bits, limbs))
}

/// How many limbs can be packed into one value of Goldilocks at most, in radix two to the radix bits, so that lists of
/// one length stay apart where the radix is not below the order.
#[unsafe(no_mangle)]
pub extern "C" fn p3_kb_most_digits(radix_bits: u32, count: &mut usize) -> i32
    ensures { Answers (AnswersLimit ⟦<KoalaBear as Quotient>⟧.canon ⟦<KoalaBear as Quotient>⟧.order ⟦<Goldilocks as Quotient>⟧.order radix_bits) count.old count.new result }
{
    answer(most_digits::<KoalaBear, Goldilocks>(radix_bits), count)
}
