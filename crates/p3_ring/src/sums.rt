//! Sums of slices and sums of products, taken in pairs.
ghost use Rattle.std.specs.Prelude.{◌≡◌, ◌≤◌, length, map};
ghost use Rattle.p3_theory.specs.Rings.DotProduct.{dot};
ghost use Rattle.p3_theory.specs.Rings.Operators.{Gives, sum_list};
ghost use Rattle.p3_theory.specs.Rings.Ring.{Ops, RingLaws};
ghost use Rattle.p3_ring.specs.SumsProducts.{Sums};

use crate::ring::RingSums;
use std::ops::{Add, Mul};

/// The sum of at most two values, and `zero` of none.
#[inline]
fn sum_up_to_two<A>(zero: A, input: &[A]) -> A
where
    A: Copy + Add<Output = A>,
    requires few { length input.now ≤ 2 }
    requires sums { (x y : A) → ⟦<A as Add>⟧.can_add x y }
    ensures { Sums ⟦<A as Add>⟧.can_add ⟦<A as Add>⟧.add_gives zero input.now result }
{
    match input.len() {
        0 => zero,
        1 => input[0],
        _ => input[0] + input[1],
    }
}

/// The sum of at most four values, in pairs, and `zero` of none.
#[inline]
fn sum_up_to_four<A>(zero: A, input: &[A]) -> A
where
    A: Copy + Add<Output = A>,
    requires few { length input.now ≤ 4 }
    requires sums { (x y : A) → ⟦<A as Add>⟧.can_add x y }
    ensures { Sums ⟦<A as Add>⟧.can_add ⟦<A as Add>⟧.add_gives zero input.now result }
{
    if input.len() <= 2 {
        return sum_up_to_two(zero, input);
    }
    let low = sum_up_to_two(zero, &input[..2]);
    let high = sum_up_to_two(zero, &input[2..]);
    low + high
}

/// The sum of at most eight values: of the first four, and of the others. It is `zero` of none.
#[inline]
fn sum_up_to_eight<A>(zero: A, input: &[A]) -> A
where
    A: Copy + Add<Output = A>,
    requires few { length input.now ≤ 8 }
    requires sums { (x y : A) → ⟦<A as Add>⟧.can_add x y }
    ensures { Sums ⟦<A as Add>⟧.can_add ⟦<A as Add>⟧.add_gives zero input.now result }
{
    if input.len() <= 4 {
        return sum_up_to_four(zero, input);
    }
    let low = sum_up_to_four(zero, &input[..4]);
    let high = sum_up_to_four(zero, &input[4..]);
    low + high
}

/// The sum of the values, eight at a time and each eight in pairs; `zero` of none.
#[inline]
pub(crate) fn sum_in_pairs<A>(zero: A, input: &[A]) -> A
where
    A: Copy + Add<Output = A>,
    requires sums { (x y : A) → ⟦<A as Add>⟧.can_add x y }
    ensures { Sums ⟦<A as Add>⟧.can_add ⟦<A as Add>⟧.add_gives zero input.now result }
{
    if input.len() <= 8 {
        return sum_up_to_eight(zero, input);
    }
    let mut sum = sum_up_to_eight(zero, &input[..8]);
    let mut start = 8;
    while input.len() - start >= 8 {
        let chunk = sum_up_to_eight(zero, &input[start..start + 8]);
        sum = sum + chunk;
        start += 8;
    }
    if start < input.len() {
        let rest = sum_up_to_eight(zero, &input[start..]);
        sum + rest
    } else {
        sum
    }
}

/// The sum of a slice of N values, by the type's own `sum_slice`. Upstream's `sum_array`.
#[inline]
pub fn sum_array<R: RingSums, const N: usize>(input: &[R]) -> R
    requires { length input.now ≡ N }
    ensures { result ≡ sum_list R.ops input.now }
{
    R::sum_slice(&input[..N])
}

/// The sum of the products of values and elements of another type, position by position, and `zero`
/// for empty slices. Where `+` and `*` are the sum of a ring and its product with an embedded element,
/// and `zero` is the ring's, it is the dot product with the embedded elements. The slices have one
/// length. What `mixed_dot_product` runs, under the smallest bounds; this project's own.
#[inline]
pub fn sum_of_products<A, V>(zero: A, a: &[A], f: &[V]) -> A
where
    A: Copy + Add<Output = A> + Mul<V, Output = A>,
    V: Copy,
    requires lengths { length a.now ≡ length f.now }
    requires sums { (x y : A) → ⟦<A as Add>⟧.can_add x y }
    requires products { (x : A) (v : V) → ⟦<A as Mul<V>>⟧.can_mul x v }
    ensures { (o : Ops A) → RingLaws o → (embed : V → A) → Gives ⟦<A as Add>⟧.can_add ⟦<A as Add>⟧.add_gives o.add
        → Gives ⟦<A as Mul<V>>⟧.can_mul ⟦<A as Mul<V>>⟧.mul_gives (λ x v. o.mul x (embed v))
        → zero ≡ o.zero → result ≡ dot o a.now (map embed f.now) }
{
    if a.is_empty() {
        return zero;
    }
    let mut sum = a[0] * f[0];
    for i in 1..a.len() {
        let product = a[i] * f[i];
        sum = sum + product;
    }
    sum
}
