//! Remainders of words of 16 bits modulo an order, lane by lane. Where the products with the order have 16 bits too, two
//! products are enough: a number times the reciprocal of the order, in units of 1 / 2^16, has the quotient above its
//! low 16 bits and the fraction in them, and the fraction times the order has the remainder above its low 16 bits.
ghost use Rattle.std.specs.Prelude.{◌≡◌, ℕ, ◌*◌, ◌/◌, ◌%◌, ◌^◌, ◌<◌, ◌≤◌, length, slice_index};

use std::simd::prelude::*;

/// The high 16 bits of the products of words of 16 bits and a factor.
#[inline(always)]
fn high_short_products<const N: usize>(words: Simd<u16, N>, factor: u16) -> Simd<u16, N>
    ensures width { length result ≡ N }
    ensures lanes { (k : ℕ) → k < N → slice_index result k ≡ slice_index words.entry k * factor / 2 ^ 16 }
{
    let wide = words.cast::<u32>();
    let products = wide * Simd::splat(factor as u32);
    let high = products >> Simd::splat(16);
    high.cast::<u16>()
}

/// The remainders of numbers whose products with the order have 16 bits. The reciprocal is rounded up.
#[inline(always)]
fn remainders_by_reciprocal<const N: usize>(numbers: Simd<u16, N>, order: u16) -> Simd<u16, N>
    requires some { 0 < order }
    requires short { (k : ℕ) → k < N → slice_index numbers k * order < 2 ^ 16 }
    ensures width { length result ≡ N }
    ensures lanes { (k : ℕ) → k < N → slice_index result k ≡ slice_index numbers.entry k % order }
{
    let reciprocal = (0xffff / order).wrapping_add(1);
    let fractions = numbers * Simd::splat(reciprocal);
    high_short_products::<N>(fractions, order)
}

/// The remainders of numbers that are at most `most`.
#[inline(always)]
pub(crate) fn short_remainders<const N: usize>(
    numbers: Simd<u16, N>,
    order: u16,
    most: u16,
) -> Simd<u16, N>
    requires some { 0 < order }
    requires most { (k : ℕ) → k < N → slice_index numbers k ≤ most }
    ensures width { length result ≡ N }
    ensures lanes { (k : ℕ) → k < N → slice_index result k ≡ slice_index numbers.entry k % order }
{
    if most <= 0xffff / order {
        return remainders_by_reciprocal::<N>(numbers, order);
    }
    numbers % Simd::splat(order)
}
