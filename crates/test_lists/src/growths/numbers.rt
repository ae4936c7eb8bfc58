//! Plain numbers: the items of each list that is given or answered.
use std::alloc::{AllocError, Allocator};

/// The order of the residues whose arithmetic this is.
pub(crate) const ORDER: u64 = 17;

/// The W of the extension by `X^2 = W`.
const W: u64 = 3;

/// The canonical coefficients a and b of `a + b X`; over the residues themselves b is zero.
pub(crate) type Pair = (u64, u64);

/// A geometric sequence.
#[derive(Clone, Copy)]
pub(crate) struct Sequence {
    pub first: Pair,
    pub ratio: Pair,
}

/// The product modulo the order and modulo `X^2 = W`.
fn product(x: Pair, y: Pair) -> Pair {
    let square = x.1.wrapping_mul(y.1).wrapping_mul(W);
    let constant = x.0.wrapping_mul(y.0).wrapping_add(square);
    let linear = x.0.wrapping_mul(y.1).wrapping_add(x.1.wrapping_mul(y.0));
    (constant % ORDER, linear % ORDER)
}

/// The coefficient at `X^i`.
pub(crate) fn coefficient(numbers: Pair, i: usize) -> u64 {
    match i {
        0 => numbers.0,
        1 => numbers.1,
        _ => 0,
    }
}

/// The first so many items of a sequence.
pub(crate) fn terms<A: Allocator + Copy>(
    alloc: A,
    sequence: Sequence,
    count: usize,
) -> Result<Vec<Pair, A>, AllocError> {
    let mut items = Vec::with_capacity(alloc, count)?;
    let mut item = sequence.first;
    for _ in 0..count {
        items.push(item)?;
        item = product(item, sequence.ratio);
    }
    Ok(items)
}

/// The lowest so many digits of a number in a radix, the lowest first, each modulo the order.
pub(crate) fn digits<A: Allocator + Copy>(
    alloc: A,
    number: u64,
    radix: u128,
    count: usize,
) -> Result<Vec<Pair, A>, AllocError> {
    let mut items = Vec::with_capacity(alloc, count)?;
    let mut rest = number as u128;
    for _ in 0..count {
        let digit = rest.checked_rem(radix).unwrap_or(0);
        items.push(((digit % ORDER as u128) as u64, 0))?;
        rest = rest.checked_div(radix).unwrap_or(0);
    }
    Ok(items)
}

/// The bytes of a text.
pub(crate) fn bytes<A: Allocator + Copy>(alloc: A, text: &str) -> Result<Vec<Pair, A>, AllocError> {
    let mut items = Vec::with_capacity(alloc, text.len())?;
    for byte in text.as_bytes() {
        items.push((*byte as u64, 0))?;
    }
    Ok(items)
}

/// The first coefficients of each item, so many of each, one item after the other.
pub(crate) fn coefficients<A: Allocator + Copy>(
    alloc: A,
    items: &[Pair],
    degree: usize,
) -> Result<Vec<Pair, A>, AllocError> {
    let mut numbers = Vec::with_capacity(alloc, items.len().saturating_mul(degree))?;
    for item in items {
        for i in 0..degree {
            numbers.push((coefficient(*item, i), 0))?;
        }
    }
    Ok(numbers)
}
