//! Lists of numbers by a rule, and what their sums and products are modulo an order, by plain arithmetic.
use crate::cases::Arithmetic;
use std::alloc::{AllocError, Global};
use test_values::numbered::number_at;

/// A rule of a list of numbers.
#[derive(Clone, Copy)]
pub(crate) enum Rule {
    /// The same number at each index.
    Same(u64),
    /// The multiples of a step from one time on, modulo the order.
    Multiples(u64),
}

impl Rule {
    /// The number at an index.
    fn at(self, index: usize, order: u64) -> u64 {
        match self {
            Rule::Same(number) => number,
            Rule::Multiples(step) => {
                let multiple = (index as u64).wrapping_add(1).wrapping_mul(step);
                multiple.checked_rem(order).unwrap_or(0)
            }
        }
    }

    /// So many numbers.
    pub(crate) fn numbers(
        self,
        alloc: Global,
        count: usize,
        order: u64,
    ) -> Result<Vec<u64>, AllocError> {
        let mut numbers = Vec::new(alloc);
        for index in 0..count {
            numbers.push(self.at(index, order))?;
        }
        Ok(numbers)
    }
}

/// What a number leaves modulo an order, zero where the order is.
fn reduced(number: u128, order: u64) -> u128 {
    number.checked_rem(order as u128).unwrap_or(0)
}

/// What a sum, a difference or a product of two numbers below an order leaves modulo it.
pub(crate) fn plain(operation: Arithmetic, x: u64, y: u64, order: u64) -> u128 {
    let left = x as u128;
    let right = y as u128;
    let number = match operation {
        Arithmetic::Add => left.wrapping_add(right),
        Arithmetic::Sub => left.wrapping_add(order as u128).wrapping_sub(right),
        Arithmetic::Mul => left.wrapping_mul(right),
    };
    reduced(number, order)
}

/// The same of the numbers at an index of two lists, which are zero past the end.
pub(crate) fn plain_at(
    operation: Arithmetic,
    left: &[u64],
    right: &[u64],
    index: usize,
    order: u64,
) -> u128 {
    let x = number_at(left, index).unwrap_or(0);
    let y = number_at(right, index).unwrap_or(0);
    plain(operation, x, y, order)
}

/// The sum of the products of the numbers at those indices that are a lane more than a multiple of the number of
/// lanes, modulo the order.
pub(crate) fn plain_dot(
    left: &[u64],
    right: &[u64],
    lane: usize,
    lanes: usize,
    order: u64,
) -> u128 {
    let mut sum = 0u128;
    for step in 0..left.len().checked_div(lanes).unwrap_or(0) {
        let index = step.wrapping_mul(lanes).wrapping_add(lane);
        let product = plain_at(Arithmetic::Mul, left, right, index, order);
        sum = reduced(sum.wrapping_add(product), order);
    }
    sum
}
