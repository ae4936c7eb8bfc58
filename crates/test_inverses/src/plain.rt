//! Rings of coefficient lists in plain numbers: inverses by search, and norms.
use test_values::lists::{List, MOST, ZERO, at};

/// The coefficient list of one.
const ONE: List = [1, 0, 0, 0, 0, 0, 0, 0];

/// Lists of so many numbers below the order, where X to the power of their count is what the rule says.
#[derive(Clone, Copy)]
pub(crate) struct PlainRing {
    pub(crate) order: u64,
    pub(crate) degree: usize,
    pub(crate) rule: List,
}

impl PlainRing {
    /// The remainder of a number.
    fn reduced(&self, number: u64) -> u64 {
        number.checked_rem(self.order).unwrap_or(0)
    }

    /// How many values there are.
    pub(crate) fn count(&self) -> u64 {
        let mut count: u64 = 1;
        for _ in 0..self.degree {
            count = count.wrapping_mul(self.order);
        }
        count
    }

    /// The value whose coefficients are the digits of a number, the lowest first.
    pub(crate) fn value(&self, number: u64) -> List {
        let mut value = ZERO;
        let mut rest = number;
        for i in 0..MOST {
            if i < self.degree {
                value[i] = self.reduced(rest);
                rest = rest.checked_div(self.order).unwrap_or(0);
            }
        }
        value
    }

    /// A value times X.
    fn times_x(&self, value: &List) -> List {
        let top = at(value, self.degree.wrapping_sub(1));
        let mut product = ZERO;
        let mut below: u64 = 0;
        for i in 0..MOST {
            if i < self.degree {
                let folded = top.wrapping_mul(self.rule[i]);
                product[i] = self.reduced(below.wrapping_add(folded));
                below = value[i];
            }
        }
        product
    }

    /// The product of two values, by Horner's rule.
    fn product(&self, a: &List, b: &List) -> List {
        let mut product = ZERO;
        for i in 0..self.degree {
            let digit = at(a, self.degree - 1 - i);
            product = self.times_x(&product);
            for j in 0..MOST {
                if j < self.degree {
                    let sum = product[j].wrapping_add(digit.wrapping_mul(b[j]));
                    product[j] = self.reduced(sum);
                }
            }
        }
        product
    }

    /// The inverse of a value, by search among its powers: the one before the first that is one. There is none where
    /// they come to zero, or back to one that was kept on the way: the value itself, and another one each time that the
    /// steps have doubled.
    pub(crate) fn inverse(&self, value: &List) -> Option<List> {
        let mut before = ONE;
        let mut power = *value;
        let mut kept = *value;
        let mut limit: u64 = 16;
        for step in 0..self.count() {
            if power == ONE {
                return Some(before);
            }
            before = power;
            power = self.product(&before, value);
            if power == kept || power == ZERO {
                return None;
            }
            if step == limit {
                kept = power;
                limit = limit.wrapping_mul(2);
            }
        }
        None
    }

    /// Whether the product of two values is one.
    pub(crate) fn is_inverse(&self, value: &List, inverse: &List) -> bool {
        self.product(value, inverse) == ONE
    }

    /// What a list is at a number.
    fn at_number(&self, list: &List, x: u64) -> u64 {
        let mut sum: u64 = 0;
        for i in 0..self.degree {
            let digit = at(list, self.degree - 1 - i);
            sum = self.reduced(sum.wrapping_mul(x).wrapping_add(digit));
        }
        sum
    }

    /// A number to the power of the degree.
    fn top_power(&self, x: u64) -> u64 {
        let mut power: u64 = 1;
        for _ in 0..self.degree {
            power = self.reduced(power.wrapping_mul(x));
        }
        power
    }

    /// The norm of a value, where the polynomial has as many roots as its degree: the product of what the value is at
    /// each root.
    pub(crate) fn norm(&self, value: &List) -> u64 {
        let mut norm: u64 = 1;
        for x in 0..self.order {
            if self.top_power(x) == self.at_number(&self.rule, x) {
                norm = self.reduced(norm.wrapping_mul(self.at_number(value, x)));
            }
        }
        norm
    }

    /// A value by the next of a chain of numbers, each of which has every coefficient anew.
    pub(crate) fn sample(&self, seed: &mut u64) -> List {
        let mut value = ZERO;
        for i in 0..MOST {
            if i < self.degree {
                *seed = seed
                    .wrapping_mul(6364136223846793005)
                    .wrapping_add(1442695040888963407);
                value[i] = self.reduced(*seed >> 33);
            }
        }
        value
    }
}
