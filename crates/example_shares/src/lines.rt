//! Lines of words: `split K N SECRET C1 .. C(K-1)` and `recover X1 Y1 .. XK YK`, over a prime field.
ghost use Rattle.std.specs.Prelude.{◌≡◌, ◌↔◌, ◌<◌, map, IfOk, IsOk};
ghost use Rattle.p3_theory.specs.Rings.Multiples.{of_nat};

use crate::recovery::{RecoverError, recover};
use crate::shares::{Share, split};
use p3_field_traits::field::PrimeField64;
use std::alloc::{AllocError, Global};
use std::error::Error;
use std::fmt;
use std::fmt::Write;

/// Why a line is refused.
#[derive(Clone, Copy, Debug, PartialEq, Eq)]
pub enum LineError {
    /// The first word is neither `split` nor `recover`.
    UnknownCommand,
    /// There are too few words, or not as many as the first numbers say.
    WordCount,
    /// A word is no number, or is not below the field's order.
    BadNumber,
    /// The threshold is above the number of shares, or that is not below the field's order.
    BadThreshold,
    /// The secret is not recovered.
    NotRecovered(RecoverError),
    /// The memory for the answer was refused.
    OutOfMemory,
}

impl fmt::Display for LineError {
    fn fmt<W: fmt::Write>(&self, f: &mut fmt::Formatter<W>) -> fmt::Result {
        match self {
            LineError::UnknownCommand => write!(f, "the first word is neither split nor recover"),
            LineError::WordCount => write!(f, "too many or too few numbers"),
            LineError::BadNumber => write!(f, "a word is no number below the order of the field"),
            LineError::BadThreshold => write!(f, "fewer shares than the threshold, or too many"),
            LineError::NotRecovered(error) => write!(f, "{error}"),
            LineError::OutOfMemory => write!(f, "out of memory"),
        }
    }
}

impl Error for LineError {}

impl From<AllocError> for LineError {
    fn from(_e: AllocError) -> LineError {
        LineError::OutOfMemory
    }
}

/// The numbers that follow the first word of a line.
fn numbers(alloc: Global, line: &str) -> Result<Vec<u64>, LineError> {
    let mut numbers = Vec::new(alloc);
    for word in line.split_whitespace().skip(1) {
        let Ok(number) = word.parse::<u64>() else {
            return Err(LineError::BadNumber);
        };
        if numbers.push(number).is_err() {
            return Err(LineError::OutOfMemory);
        }
    }
    Ok(numbers)
}

/// The value of a number below the order.
fn value<F: PrimeField64>(number: u64) -> Result<F, LineError>
    ensures below { IsOk result ↔ (number < F.order) }
    ensures value { IfOk result (λ x. x ≡ of_nat F.ops number) }
{
    if number < F::ORDER_U64 {
        Ok(F::from_u64(number))
    } else {
        Err(LineError::BadNumber)
    }
}

/// The values of numbers below the order.
fn values<F: PrimeField64>(alloc: Global, numbers: &[u64]) -> Result<Vec<F>, LineError>
    ensures { IfOk result (λ xs. xs.items ≡ map (of_nat F.ops) numbers.now) }
{
    let mut values = Vec::with_capacity(alloc, numbers.len())?;
    for number in numbers {
        let value = value::<F>(*number)?;
        if values.push(value).is_err() {
            return Err(LineError::OutOfMemory);
        }
    }
    Ok(values)
}

/// The shares as lines, each a point and the value there.
fn split_text<F: PrimeField64>(alloc: Global, numbers: &[u64]) -> Result<String, LineError> {
    if numbers.len() < 3 || (numbers.len() - 2) as u64 != numbers[0] {
        return Err(LineError::WordCount);
    }
    let count = numbers[1];
    if count < numbers[0] || F::ORDER_U64 <= count {
        return Err(LineError::BadThreshold);
    }
    let coefficients = values::<F>(alloc, &numbers[2..])?;
    let shares = split(alloc, &coefficients, count as usize)?;
    let mut text = String::new(alloc);
    for share in &shares {
        let point = share.point;
        let value = share.value;
        if writeln!(text, "{point} {value}").is_err() {
            return Err(LineError::OutOfMemory);
        }
    }
    Ok(text)
}

/// The secret as a line.
fn recover_text<F: PrimeField64>(alloc: Global, numbers: &[u64]) -> Result<String, LineError> {
    if numbers.is_empty() || numbers.len() % 2 != 0 {
        return Err(LineError::WordCount);
    }
    let threshold = numbers.len() / 2;
    let mut shares = Vec::with_capacity(alloc, threshold)?;
    for i in 0..threshold {
        let point = value::<F>(numbers[2 * i])?;
        let value = value::<F>(numbers[2 * i + 1])?;
        if shares.push(Share { point, value }).is_err() {
            return Err(LineError::OutOfMemory);
        }
    }
    match recover(alloc, threshold, &shares) {
        Ok(secret) => Ok(format!(in alloc; "{secret}\n")?),
        Err(error) => Err(LineError::NotRecovered(error)),
    }
}

/// What a line asks for: the shares, a line each, or the secret.
pub fn answer<F: PrimeField64>(alloc: Global, line: &str) -> Result<String, LineError> {
    let numbers = numbers(alloc, line)?;
    match line.split_whitespace().next() {
        Some(word) => {
            if word == "split" {
                split_text::<F>(alloc, &numbers)
            } else if word == "recover" {
                recover_text::<F>(alloc, &numbers)
            } else {
                Err(LineError::UnknownCommand)
            }
        }
        None => Err(LineError::UnknownCommand),
    }
}
