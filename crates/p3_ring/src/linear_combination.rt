//! Sums of products of values with elements of another ring, several products at a time.
ghost use Rattle.std.specs.Prelude.{◌≡◌, ◌≤◌, ◌<◌, length, map};
ghost use Rattle.p3_theory.specs.Rings.DotProduct.{dot};
ghost use Rattle.p3_theory.specs.Rings.MixedDotProduct.{MakesWithRest};
ghost use Rattle.p3_theory.specs.Rings.Operators.{Gives};
ghost use Rattle.p3_theory.specs.Rings.Ring.{Ops, RingLaws};
ghost use Rattle.p3_ring.specs.ChunkLengths.{IsChunkLength};
ghost use Rattle.p3_ring.specs.SumsProducts.{SumsProducts};

use crate::ring::{Algebra, PrimeCharacteristicRing};
use crate::sums::sum_of_products;
use std::ops::{Add, Mul};

/// The sum so far and the products of values and coefficients, position by position, one after
/// the other.
#[inline]
fn add_products<A, V>(start: A, values: &[A], coeffs: &[V]) -> A
where
    A: Copy + Add<Output = A> + Mul<V, Output = A>,
    V: Copy,
    requires lengths { length values.now ≡ length coeffs.now }
    requires sums { (x y : A) → ⟦<A as Add>⟧.can_add x y }
    requires products { (x : A) (v : V) → ⟦<A as Mul<V>>⟧.can_mul x v }
    ensures { (o : Ops A) → RingLaws o → (embed : V → A) → Gives ⟦<A as Add>⟧.can_add ⟦<A as Add>⟧.add_gives o.add
        → Gives ⟦<A as Mul<V>>⟧.can_mul ⟦<A as Mul<V>>⟧.mul_gives (λ x v. o.mul x (embed v))
        → result ≡ o.add start (dot o values.now (map embed coeffs.now)) }
{
    let mut sum = start;
    for i in 0..values.len() {
        let product = values[i] * coeffs[i];
        sum = sum + product;
    }
    sum
}

/// The sum of at most four products, and `zero` of none: of the first two, and of the others.
#[inline]
fn sum_up_to_four_products<A, V>(zero: A, values: &[A], coeffs: &[V]) -> A
where
    A: Copy + Add<Output = A> + Mul<V, Output = A>,
    V: Copy,
    requires few { length values.now ≤ 4 }
    requires lengths { length values.now ≡ length coeffs.now }
    requires sums { (x y : A) → ⟦<A as Add>⟧.can_add x y }
    requires products { (x : A) (v : V) → ⟦<A as Mul<V>>⟧.can_mul x v }
    ensures { SumsProducts ⟦<A as Add>⟧.can_add ⟦<A as Add>⟧.add_gives ⟦<A as Mul<V>>⟧.can_mul ⟦<A as Mul<V>>⟧.mul_gives zero values.now coeffs.now result }
{
    if values.len() <= 2 {
        return sum_of_products(zero, values, coeffs);
    }
    let low = sum_of_products(zero, &values[..2], &coeffs[..2]);
    let high = sum_of_products(zero, &values[2..], &coeffs[2..]);
    low + high
}

/// The sum of at most eight products, and `zero` of none: of the first four, and of the others.
#[inline]
fn sum_up_to_eight_products<A, V>(zero: A, values: &[A], coeffs: &[V]) -> A
where
    A: Copy + Add<Output = A> + Mul<V, Output = A>,
    V: Copy,
    requires few { length values.now ≤ 8 }
    requires lengths { length values.now ≡ length coeffs.now }
    requires sums { (x y : A) → ⟦<A as Add>⟧.can_add x y }
    requires products { (x : A) (v : V) → ⟦<A as Mul<V>>⟧.can_mul x v }
    ensures { SumsProducts ⟦<A as Add>⟧.can_add ⟦<A as Add>⟧.add_gives ⟦<A as Mul<V>>⟧.can_mul ⟦<A as Mul<V>>⟧.mul_gives zero values.now coeffs.now result }
{
    if values.len() <= 4 {
        return sum_up_to_four_products(zero, values, coeffs);
    }
    let low = sum_up_to_four_products(zero, &values[..4], &coeffs[..4]);
    let high = sum_up_to_four_products(zero, &values[4..], &coeffs[4..]);
    low + high
}

/// The sum of the products, in the order in which `sum_array` takes them; `zero` of none.
#[inline]
fn sum_products<A, V>(zero: A, values: &[A], coeffs: &[V]) -> A
where
    A: Copy + Add<Output = A> + Mul<V, Output = A>,
    V: Copy,
    requires lengths { length values.now ≡ length coeffs.now }
    requires sums { (x y : A) → ⟦<A as Add>⟧.can_add x y }
    requires products { (x : A) (v : V) → ⟦<A as Mul<V>>⟧.can_mul x v }
    ensures { SumsProducts ⟦<A as Add>⟧.can_add ⟦<A as Add>⟧.add_gives ⟦<A as Mul<V>>⟧.can_mul ⟦<A as Mul<V>>⟧.mul_gives zero values.now coeffs.now result }
{
    if values.len() <= 8 {
        return sum_up_to_eight_products(zero, values, coeffs);
    }
    let mut sum = sum_up_to_eight_products(zero, &values[..8], &coeffs[..8]);
    let mut start = 8;
    while values.len() - start >= 8 {
        let chunk = sum_up_to_eight_products(
            zero,
            &values[start..start + 8],
            &coeffs[start..start + 8],
        );
        sum = sum + chunk;
        start += 8;
    }
    if start < values.len() {
        let rest = sum_up_to_eight_products(zero, &values[start..], &coeffs[start..]);
        sum + rest
    } else {
        sum
    }
}

/// `chunked_mixed_dot_product` under the smallest bounds; `zero` is the sum of no products.
#[inline]
fn sum_by_chunks<const CHUNK: usize, A, V>(zero: A, values: &[A], coeffs: &[V]) -> A
where
    A: Copy + Add<Output = A> + Mul<V, Output = A>,
    V: Copy,
    requires chunk { 0 < CHUNK }
    requires lengths { length values.now ≡ length coeffs.now }
    requires sums { (x y : A) → ⟦<A as Add>⟧.can_add x y }
    requires products { (x : A) (v : V) → ⟦<A as Mul<V>>⟧.can_mul x v }
    ensures { SumsProducts ⟦<A as Add>⟧.can_add ⟦<A as Add>⟧.add_gives ⟦<A as Mul<V>>⟧.can_mul ⟦<A as Mul<V>>⟧.mul_gives zero values.now coeffs.now result }
{
    if values.len() <= CHUNK {
        return sum_products(zero, values, coeffs);
    }
    let mut sum = zero;
    let mut start = 0;
    while values.len() - start >= CHUNK {
        let chunk = sum_products(
            zero,
            &values[start..start + CHUNK],
            &coeffs[start..start + CHUNK],
        );
        sum = sum + chunk;
        start += CHUNK;
    }
    add_products(sum, &values[start..], &coeffs[start..])
}

/// `sum_by_chunks` with a chunk that is known only when it runs.
#[inline]
fn dispatch_chunks<A, V>(zero: A, values: &[A], coeffs: &[V], chunk: usize) -> A
where
    A: Copy + Add<Output = A> + Mul<V, Output = A>,
    V: Copy,
    requires chunk { IsChunkLength chunk }
    requires lengths { length values.now ≡ length coeffs.now }
    requires sums { (x y : A) → ⟦<A as Add>⟧.can_add x y }
    requires products { (x : A) (v : V) → ⟦<A as Mul<V>>⟧.can_mul x v }
    ensures { SumsProducts ⟦<A as Add>⟧.can_add ⟦<A as Add>⟧.add_gives ⟦<A as Mul<V>>⟧.can_mul ⟦<A as Mul<V>>⟧.mul_gives zero values.now coeffs.now result }
{
    match chunk {
        1 => sum_by_chunks::<1, A, V>(zero, values, coeffs),
        2 => sum_by_chunks::<2, A, V>(zero, values, coeffs),
        4 => sum_by_chunks::<4, A, V>(zero, values, coeffs),
        8 => sum_by_chunks::<8, A, V>(zero, values, coeffs),
        16 => sum_by_chunks::<16, A, V>(zero, values, coeffs),
        32 => sum_by_chunks::<32, A, V>(zero, values, coeffs),
        64 => sum_by_chunks::<64, A, V>(zero, values, coeffs),
        _ => unreachable!(),
    }
}

/// The sum of the products of values and elements of F, position by position: the products of
/// CHUNK positions are summed before they are added. CHUNK is above 0. Upstream's
/// `chunked_mixed_dot_product`, on slices of one length.
#[inline]
pub fn chunked_mixed_dot_product<const CHUNK: usize, A: Algebra<F>, F: PrimeCharacteristicRing>(
    values: &[A],
    coeffs: &[F],
) -> A
    requires chunk { 0 < CHUNK }
    requires lengths { length values.now ≡ length coeffs.now }
    ensures { result ≡ dot A.ops values.now (map A.embed coeffs.now) }
{
    sum_by_chunks::<CHUNK, A, F>(A::zero(), values, coeffs)
}

/// `chunked_mixed_dot_product` with a chunk that is known only when it runs: one of 1, 2, 4, 8, 16,
/// 32 and 64. The slices have one length. Upstream's `dispatch_chunked_mixed_dot_product`.
#[inline]
pub fn dispatch_chunked_mixed_dot_product<A: Algebra<F>, F: PrimeCharacteristicRing>(
    values: &[A],
    coeffs: &[F],
    chunk: usize,
) -> A
    requires chunk { IsChunkLength chunk }
    requires lengths { length values.now ≡ length coeffs.now }
    ensures { result ≡ dot A.ops values.now (map A.embed coeffs.now) }
{
    dispatch_chunks(A::zero(), values, coeffs, chunk)
}

/// The sum so far and `mixed_dot_product` of the positions from `start` to before `end`.
#[inline]
fn add_mixed_dot_product<A: Algebra<F>, F: PrimeCharacteristicRing>(
    sum: A,
    values: &[A],
    coeffs: &[F],
    start: usize,
    end: usize,
) -> A
    requires order { start ≤ end }
    requires inside { end ≤ length values.now }
    requires lengths { length values.now ≡ length coeffs.now }
    ensures { (r : A) → MakesWithRest A.ops A.embed values.now coeffs.now r start sum → MakesWithRest A.ops A.embed values.now coeffs.now r end result }
{
    sum + A::mixed_dot_product(&values[start..end], &coeffs[start..end])
}

/// The sum of the products of values and elements of F, position by position: `mixed_dot_product`
/// of each CHUNK positions, and of the others. CHUNK is above 0, and the slices have one length.
/// Upstream's `chunked_linear_combination`, which adds the products of the others one at a time.
#[inline]
pub fn chunked_linear_combination<const CHUNK: usize, A: Algebra<F>, F: PrimeCharacteristicRing>(
    values: &[A],
    coeffs: &[F],
) -> A
    requires chunk { 0 < CHUNK }
    requires lengths { length values.now ≡ length coeffs.now }
    ensures { result ≡ dot A.ops values.now (map A.embed coeffs.now) }
{
    let mut sum = A::zero();
    let mut start = 0;
    while values.len() - start >= CHUNK {
        sum = add_mixed_dot_product(sum, values, coeffs, start, start + CHUNK);
        start += CHUNK;
    }
    if start < values.len() {
        add_mixed_dot_product(sum, values, coeffs, start, values.len())
    } else {
        sum
    }
}
