//! Words that are stored for values of KoalaBear: their numbers, products, sums and dot products, against plain
//! arithmetic.
use crate::cases::Arithmetic;
use crate::number_rules::{Rule, plain, plain_at, plain_dot};
use p3_c_words::numbers::{from_canonical, to_canonical};
use p3_c_words::stored::Stored;
use p3_prime_fields::fp::Fp;
use p3_prime_fields::koala_bear::KoalaBearModulus;
use p3_prime_fields::montgomery::{Montgomery, MontgomeryModulus};
use std::alloc::{AllocError, Global};
use std::test::Fail;
use test_values::numbered::number_at;

/// The order of KoalaBear.
const ORDER: u64 = 2130706433;

/// Whether a word is that of a number: the number times 2^32, modulo the order.
fn is_word_of(word: u32, number: u128) -> bool {
    let Ok(factor) = u64::try_from(number) else {
        return false;
    };
    word as u128 == plain(Arithmetic::Mul, factor, 0x1_0000_0000, ORDER)
}

/// The words of 32 bits that numbers are, zero where one is greater.
fn short_numbers(alloc: Global, numbers: &[u64]) -> Result<Vec<u32>, AllocError> {
    let mut words = Vec::new(alloc);
    for number in numbers {
        words.push(u32::try_from(*number).unwrap_or(0))?;
    }
    Ok(words)
}

/// Whether the words of numbers are theirs, by `from_canonical`, and the numbers come back by `to_canonical`.
fn numbers_agree<F: Stored<u32>>(alloc: Global, numbers: &[u64]) -> Result<bool, AllocError> {
    let before = short_numbers(alloc, numbers)?;
    let mut words = short_numbers(alloc, numbers)?;
    if from_canonical::<F, u32>(&mut words).is_err() {
        return Ok(false);
    }
    for i in 0..words.len() {
        if !is_word_of(words[i], number_at(numbers, i).unwrap_or(0) as u128) {
            return Ok(false);
        }
    }
    let told = to_canonical::<F, u32>(&mut words);
    Ok(told.is_ok() && words == before)
}

/// The words of numbers; none where one is not below the order.
fn words_of<F: Stored<u32>>(
    alloc: Global,
    numbers: &[u64],
) -> Result<Option<Vec<u32>>, AllocError> {
    let mut words = short_numbers(alloc, numbers)?;
    Ok(match from_canonical::<F, u32>(&mut words) {
        Ok(()) => Some(words),
        Err(_) => None,
    })
}

/// Whether each word is that of the product of the numbers at its index.
fn are_products(words: &[u32], left: &[u64], right: &[u64]) -> bool {
    for i in 0..words.len() {
        if !is_word_of(words[i], plain_at(Arithmetic::Mul, left, right, i, ORDER)) {
            return false;
        }
    }
    true
}

/// Multiplies words by others, index by index; whether all are words of values.
fn multiplied<F: Stored<u32>>(left: &mut [u32], right: &[u32]) -> bool {
    if left.len() != right.len() || !F::all_stand(left) || !F::all_stand(right) {
        return false;
    }
    F::multiply_words(left, right);
    true
}

/// The words of the sum of the products, index by index, and of the sum of the left ones; none where these aren't all
/// words of values.
fn sums<F: Stored<u32>>(left: &[u32], right: &[u32]) -> Option<(u32, u32)> {
    if left.len() != right.len() || !F::all_stand(left) || !F::all_stand(right) {
        return None;
    }
    if left.len() > 0x8000_0000 {
        return None;
    }
    let dot = F::dot_words(left, right);
    let sum = F::sum_words(left);
    Some((dot.to_word(), sum.to_word()))
}

/// Whether the products of words, index by index, are those of the numbers.
fn products_agree<F: Stored<u32>>(
    alloc: Global,
    left: &[u64],
    right: &[u64],
) -> Result<bool, AllocError> {
    let Some(mut xs) = words_of::<F>(alloc, left)? else {
        return Ok(false);
    };
    let Some(ys) = words_of::<F>(alloc, right)? else {
        return Ok(false);
    };
    let done = multiplied::<F>(&mut xs, &ys);
    Ok(done && xs.len() == left.len() && are_products(&xs, left, right))
}

/// Whether the sum of the products of words and the sum of the words are those of the numbers.
fn sums_agree<F: Stored<u32>>(
    alloc: Global,
    left: &[u64],
    right: &[u64],
) -> Result<bool, AllocError> {
    let Some(xs) = words_of::<F>(alloc, left)? else {
        return Ok(false);
    };
    let Some(ys) = words_of::<F>(alloc, right)? else {
        return Ok(false);
    };
    let ones = Rule::Same(1).numbers(alloc, left.len(), ORDER)?;
    let Some((dot, sum)) = sums::<F>(&xs, &ys) else {
        return Ok(false);
    };
    Ok(
        is_word_of(dot, plain_dot(left, right, 0, 1, ORDER))
            && is_word_of(sum, plain_dot(left, &ones, 0, 1, ORDER)),
    )
}

/// Whether all calls agree over so many numbers by their rules.
fn calls_agree<F: Stored<u32>>(
    alloc: Global,
    rules: (Rule, Rule),
    count: usize,
) -> Result<bool, AllocError> {
    let left = rules.0.numbers(alloc, count, ORDER)?;
    let right = rules.1.numbers(alloc, count, ORDER)?;
    Ok(
        numbers_agree::<F>(alloc, &left)?
            && products_agree::<F>(alloc, &left, &right)?
            && sums_agree::<F>(alloc, &left, &right)?,
    )
}

/// The same over the field of a marker.
fn marker_agrees<M: MontgomeryModulus>(
    alloc: Global,
    rules: (Rule, Rule),
    count: usize,
) -> Result<bool, AllocError> {
    calls_agree::<Fp<Montgomery<M>>>(alloc, rules, count)
}

/// The same over KoalaBear.
fn koala_bear_agrees(alloc: Global, rules: (Rule, Rule), count: usize) -> Result<bool, AllocError> {
    marker_agrees::<KoalaBearModulus>(alloc, rules, count)
}

/// Lists of the greatest numbers, of the number whose word is the greatest, and of multiples.
static RULES: [(Rule, Rule); 3] = [
    (Rule::Same(2130706432), Rule::Same(2130706432)),
    (Rule::Same(1073676289), Rule::Same(1073676289)),
    (Rule::Multiples(1234567891), Rule::Multiples(987654321)),
];

#[test]
fn words_of_koala_bear(rt: HostRuntime) -> Result<(), Fail> {
    for rules in RULES {
        for count in 0..40usize {
            assert!(rt; koala_bear_agrees(rt.alloc(), rules, count)?, "{count}");
        }
        for count in [47usize, 48, 49, 63, 64, 65, 1000] {
            assert!(rt; koala_bear_agrees(rt.alloc(), rules, count)?, "{count}");
        }
    }
    Ok(())
}
