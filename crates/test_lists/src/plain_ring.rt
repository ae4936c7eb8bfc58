//! Plain arithmetic of lists of numbers: coefficients modulo an order and modulo `X^D = W`.
use std::alloc::{AllocError, Global};

/// The greatest degree.
pub(crate) const MOST: usize = 8;

/// Coefficients as numbers, from X^0 upward, and zeros from the degree on.
pub(crate) type List = [u64; MOST];

/// The number at an index, zero past the end.
pub(crate) fn at(list: &List, index: usize) -> u64 {
    list.get(index).copied().unwrap_or(0)
}

/// The numbers of a text, which stand between spaces, and zeros after them.
pub(crate) fn list_of(text: &str) -> List {
    let mut list = [0; MOST];
    for (index, word) in text.split_ascii_whitespace().enumerate() {
        if let Some(number) = list.get_mut(index) {
            *number = word.parse::<u64>().unwrap_or(0);
        }
    }
    list
}

/// The order, the degree and W.
#[derive(Clone, Copy)]
pub(crate) struct PlainRing {
    pub(crate) order: u64,
    pub(crate) degree: usize,
    pub(crate) w: u64,
}

impl PlainRing {
    /// The remainder of a number by the order.
    fn remainder(self, number: u128) -> u64 {
        number.checked_rem(self.order as u128).unwrap_or(0) as u64
    }

    /// The remainder of a sum of a number and a product of two.
    fn sum_with_product(self, sum: u64, x: u64, y: u64) -> u64 {
        let product = (x as u128).wrapping_mul(y as u128);
        self.remainder(product.wrapping_add(sum as u128))
    }

    /// Adds the product of two numbers to the coefficient at an index; from the degree on W stands for as many X.
    fn add_product(self, sums: &mut List, index: usize, x: u64, y: u64) {
        let (index, x) = if index < self.degree {
            (index, x)
        } else {
            (
                index.wrapping_sub(self.degree),
                self.sum_with_product(0, x, self.w),
            )
        };
        if let Some(sum) = sums.get_mut(index) {
            *sum = self.sum_with_product(*sum, x, y);
        }
    }

    /// The product of two lists and a third one's sum.
    pub(crate) fn add_mul(self, sum: &List, x: &List, y: &List) -> List {
        let mut sums = *sum;
        for i in 0..self.degree {
            for j in 0..self.degree {
                self.add_product(&mut sums, i.wrapping_add(j), at(x, i), at(y, j));
            }
        }
        sums
    }

    /// So many lists of numbers, which a sequence modulo 2^64 gives.
    pub(crate) fn lists(self, alloc: Global, count: usize) -> Result<Vec<List>, AllocError> {
        let mut lists = Vec::new(alloc);
        let mut state: u64 = 1;
        for _ in 0..count {
            let mut list = [0; MOST];
            for i in 0..self.degree {
                state = state
                    .wrapping_mul(6364136223846793005)
                    .wrapping_add(1442695040888963407);
                if let Some(number) = list.get_mut(i) {
                    *number = self.remainder(state as u128);
                }
            }
            lists.push(list)?;
        }
        Ok(lists)
    }

    /// The value at a point of the polynomial with these coefficients, the constant one first, by Horner's rule.
    pub(crate) fn value_at(self, coefficients: &[List], point: &List) -> List {
        let mut value = [0; MOST];
        for coefficient in coefficients.iter().rev() {
            value = self.add_mul(coefficient, &value, point);
        }
        value
    }
}
