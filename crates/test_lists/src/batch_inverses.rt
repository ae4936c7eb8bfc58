//! Batch inversion told by lines of three texts: what the closure answers, the entries and the answers.
mod tables;

use crate::inverses::{have_inverses, inverse_or_zero};
use crate::texts::{hold, values};
use p3_field_traits::field::Field;
use p3_helpers::batch_inverse::{
    batch_multiplicative_inverse, batch_multiplicative_inverse_general,
    batch_multiplicative_inverse_in,
};
use std::alloc::{AllocError, Global};
use std::cell::Cell;
use std::process::Abort;
use std::test::Fail;
use tables::LINES;
use test_allocator::Refusing;
use test_values::canonical::Canonical;

/// What the closure answers.
#[derive(Clone, Copy)]
enum Closure {
    /// Its argument.
    Identity,
    Zero,
    One,
    /// The inverse, or zero where there is none.
    Inverse,
    /// Another value at each call.
    Counter,
}

impl Closure {
    /// The closure of a name.
    fn of_name(name: &str) -> Option<Closure> {
        match name {
            "identity" => Some(Closure::Identity),
            "zero" => Some(Closure::Zero),
            "one" => Some(Closure::One),
            "inverse" => Some(Closure::Inverse),
            "counter" => Some(Closure::Counter),
            _ => None,
        }
    }

    /// What the closure answers at this argument and the number of the call.
    fn answer<F: Field>(self, y: F, number: u64) -> F {
        match self {
            Closure::Identity => y,
            Closure::Zero => F::zero(),
            Closure::One => F::one(),
            Closure::Inverse => inverse_or_zero(y),
            Closure::Counter => F::from_u64(number),
        }
    }
}

/// The number of a cell, in which the next one stands afterwards.
fn next_number(number: &Cell<u64>) -> u64 {
    let n = number.get();
    number.set(n.wrapping_add(1));
    n
}

/// What the call with a closure writes over the entries.
fn general<F: Field>(closure: Closure, x: &[F], mut res: Vec<F>) -> Vec<F> {
    let number = Cell::new(5);
    if res.len() == x.len() {
        batch_multiplicative_inverse_general(x, &mut res, |y: F| -> F {
            closure.answer(y, next_number(&number))
        });
    }
    res
}

/// Whether the entries have these inverses, and a refused growth answers none of them and leaves the entries.
fn inverts<F: Field + Canonical>(
    alloc: Global,
    x: &[F],
    entries: &str,
    answer: &str,
) -> Result<bool, AllocError> {
    if !have_inverses(x) {
        return Ok(false);
    }
    let heap = Refusing::after(alloc, 0);
    let is_refused = batch_multiplicative_inverse_in(&heap, x).is_err();
    let inverses = batch_multiplicative_inverse(alloc, x)?;
    Ok(is_refused != x.is_empty() && hold(x, entries) && hold(&inverses, answer))
}

/// Whether the call of a line, with a closure or as `batch` without one, answers what the line says; `Ok(None)` where
/// it can't be read, or names no closure.
fn agrees<F: Field + Canonical>(alloc: Global, line: &str) -> Result<Option<bool>, AllocError> {
    let Some((name, rest)) = line.split_once(';') else {
        return Ok(None);
    };
    let Some((entries, answer)) = rest.split_once(';') else {
        return Ok(None);
    };
    let x: Vec<F> = values(alloc, entries)?;
    if name == "batch" {
        return Ok(Some(inverts::<F>(alloc, &x, entries, answer)?));
    }
    let Some(closure) = Closure::of_name(name) else {
        return Ok(None);
    };
    let res = general::<F>(closure, &x, values(alloc, entries)?);
    Ok(Some(hold(&res, answer)))
}

/// Asserts that each line agrees.
pub(crate) fn assert_inverses<F: Field + Canonical>(
    rt: &(impl Abort + AllocGlobal),
) -> Result<(), Fail> {
    for line in LINES.lines() {
        assert_eq!(rt; agrees::<F>(rt.alloc(), line)?, Some(true), "{line}");
    }
    Ok(())
}
