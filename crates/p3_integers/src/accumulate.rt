//! The sum and the product of what an iterator gives, from a start value on.
ghost use Rattle.std.specs.Prelude.{List};
ghost use Rattle.std.specs.Iterator.{IsFinite, Drains};
ghost use Rattle.p3_theory.specs.Rings.Accumulation.{Accumulates};

use std::ops::{Add, Mul};

/// A start value and then the items of an iterator, added one after the other. What `Sum::sum` of
/// the field types runs; this project's own.
#[inline]
pub fn sum_from<R: Copy + Add<Output = R>, I: Iterator<Item = R>>(start: R, iter: I) -> R
    requires can { I.can_next iter }
    requires ends { IsFinite (I.remaining iter) }
    requires adds { (x y : R) → R.can_add x y }
    ensures ran { (xs : List R) × Drains I.next_gives iter xs × Accumulates R.add_gives start xs result }
{
    let mut sum = start;
    for x in iter {
        sum = sum + x;
    }
    sum
}

/// The same with products. What `Product::product` of the field types runs; this project's own.
#[inline]
pub fn product_from<R: Copy + Mul<Output = R>, I: Iterator<Item = R>>(start: R, iter: I) -> R
    requires can { I.can_next iter }
    requires ends { IsFinite (I.remaining iter) }
    requires muls { (x y : R) → R.can_mul x y }
    ensures ran { (xs : List R) × Drains I.next_gives iter xs × Accumulates R.mul_gives start xs result }
{
    let mut product = start;
    for x in iter {
        product = product * x;
    }
    product
}
