//! Lists of words that are read and written group by group.
ghost use Rattle.std.specs.Prelude.{◌≡◌, ◌<◌, ◌%◌, List, All, IfOk, length, map};
ghost use Rattle.p3_theory.specs.Bases.Coordinates.{flattened};
ghost use Rattle.p3_theory.specs.Lists.PairedLists.{zip_with};
ghost use Rattle.p3_theory.specs.Rings.DotProduct.{dot};

use crate::grouped::Grouped;
use p3_ring::ring::PrimeCharacteristicRing;
use std::alloc::{AllocError, Global};

/// What is done with each value.
pub(crate) trait ValueStep<E> {
    /// The value that is written over it.
    ghost gives: { Self → E → E };

    /// That value.
    fn apply(&self, value: E) -> E
        ensures { result ≡ gives self.now value };
}

/// Writes over one value what the step gives.
#[inline]
fn change<E: Grouped<T, D>, T: Copy, const D: usize, S: ValueStep<E>>(step: &S, words: &mut [T])
    requires width { length words.old ≡ D }
    requires stand { All E.stands words.old }
    ensures { (x : E) × (E.group x ≡ words.old) × (words.new ≡ E.group (S.gives step.now x)) }
{
    let value = E::read_group(words);
    let changed = step.apply(value);
    changed.write_group(words);
}

/// Writes over each value what the step gives.
#[inline]
pub(crate) fn each<E: Grouped<T, D>, T: Copy, const D: usize, S: ValueStep<E>>(
    step: &S,
    words: &mut [T],
)
    requires some { 0 < D }
    requires whole { length words.old % D ≡ 0 }
    requires stand { All E.stands words.old }
    ensures { (xs : List E) × (flattened E.group xs ≡ words.old) × (words.new ≡ flattened E.group (map (S.gives step.now) xs)) }
{
    let mut start = 0;
    while start < words.len() {
        change::<E, T, D, S>(step, &mut words[start..start + D]);
        start += D;
    }
}

/// Writes over one value its product with another one.
#[inline]
fn change_pair<E: Grouped<T, D> + PrimeCharacteristicRing, T: Copy, const D: usize>(
    left: &mut [T],
    right: &[T],
)
    requires left_width { length left.old ≡ D }
    requires right_width { length right.now ≡ D }
    requires left { All E.stands left.old }
    requires right { All E.stands right.now }
    ensures { (x : E) × (y : E) × (E.group x ≡ left.old) × (E.group y ≡ right.now) × (left.new ≡ E.group (E.ops.mul x y)) }
{
    let x = E::read_group(left);
    let y = E::read_group(right);
    let product = x * y;
    product.write_group(left);
}

/// Writes over each value its product with the one of the other list at its index.
#[inline]
pub(crate) fn pairs<E: Grouped<T, D> + PrimeCharacteristicRing, T: Copy, const D: usize>(
    left: &mut [T],
    right: &[T],
)
    requires some { 0 < D }
    requires lengths { length left.old ≡ length right.now }
    requires whole { length left.old % D ≡ 0 }
    requires left { All E.stands left.old }
    requires right { All E.stands right.now }
    ensures { (xs : List E) × (ys : List E) × (length xs ≡ length ys) × (flattened E.group xs ≡ left.old) × (flattened E.group ys ≡ right.now)
        × (left.new ≡ flattened E.group (zip_with E.ops.mul xs ys)) }
{
    let mut start = 0;
    while start < left.len() {
        change_pair::<E, T, D>(&mut left[start..start + D], &right[start..start + D]);
        start += D;
    }
}

/// The product of two values.
#[inline]
fn product_of<E: Grouped<T, D> + PrimeCharacteristicRing, T: Copy, const D: usize>(
    left: &[T],
    right: &[T],
) -> E
    requires left_width { length left.now ≡ D }
    requires right_width { length right.now ≡ D }
    requires left { All E.stands left.now }
    requires right { All E.stands right.now }
    ensures { (x : E) × (y : E) × (E.group x ≡ left.now) × (E.group y ≡ right.now) × (result ≡ E.ops.mul x y) }
{
    let x = E::read_group(left);
    let y = E::read_group(right);
    x * y
}

/// The sum of the products, index by index.
#[inline]
pub(crate) fn dot_groups<E: Grouped<T, D> + PrimeCharacteristicRing, T: Copy, const D: usize>(
    left: &[T],
    right: &[T],
) -> E
    requires some { 0 < D }
    requires lengths { length left.now ≡ length right.now }
    requires whole { length left.now % D ≡ 0 }
    requires left { All E.stands left.now }
    requires right { All E.stands right.now }
    ensures { (xs : List E) × (ys : List E) × (flattened E.group xs ≡ left.now) × (flattened E.group ys ≡ right.now) × (result ≡ dot E.ops xs ys) }
{
    let mut total = E::zero();
    let mut a = left;
    let mut b = right;
    while !a.is_empty() {
        let (x, more_left) = a.split_at(D);
        let (y, more_right) = b.split_at(D);
        total += product_of::<E, T, D>(x, y);
        a = more_left;
        b = more_right;
    }
    total
}

/// The values with these words as a vector; `Err` where the memory for them is refused.
#[inline]
pub(crate) fn read_values<E: Grouped<T, D>, T: Copy, const D: usize>(
    alloc: Global,
    words: &[T],
) -> Result<Vec<E>, AllocError>
    requires some { 0 < D }
    requires whole { length words.now % D ≡ 0 }
    requires stand { All E.stands words.now }
    ensures { IfOk result (λ values. flattened E.group values.items ≡ words.now) }
{
    let mut values = Vec::with_capacity(alloc, words.len() / D)?;
    let mut rest = words;
    while !rest.is_empty() {
        let (front, back) = rest.split_at(D);
        values.push(E::read_group(front))?;
        rest = back;
    }
    Ok(values)
}

/// Writes the words of the values.
#[inline]
pub(crate) fn write_values<E: Grouped<T, D>, T: Copy, const D: usize>(values: &[E], words: &mut [T])
    requires { length words.old ≡ length (flattened E.group values.now) }
    ensures { words.new ≡ flattened E.group values.now }
{
    let mut start = 0;
    for i in 0..values.len() {
        values[i].write_group(&mut words[start..start + D]);
        start += D;
    }
}
