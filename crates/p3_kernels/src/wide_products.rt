//! Products of words in 64 bits: those of the even and those of the odd lanes of two vectors, and sums of
//! four such products.
ghost use Rattle.std.specs.Prelude.{◌≡◌, ℕ, ◌+◌, ◌*◌, ◌%◌, ◌/◌, ◌^◌, ◌<◌, length, slice_index};
ghost use Rattle.p3_kernels.specs.Words.{AreBelow, product_at};

use crate::word_pairs::{high_words, low_words, pairs_of_4, pairs_of_8};
use std::simd::prelude::*;

/// The products of the low words of pairs.
#[inline(always)]
pub(crate) fn low_products<const H: usize>(left: Simd<u64, H>, right: Simd<u64, H>) -> Simd<u64, H>
    ensures width { length result ≡ H }
    ensures lanes { (k : ℕ) → k < H → slice_index result k ≡ slice_index left.entry k % 2 ^ 32 * (slice_index right.entry k % 2 ^ 32) }
{
    let x = low_words::<H>(left);
    let y = low_words::<H>(right);
    x * y
}

/// The products of the high words of pairs.
#[inline(always)]
pub(crate) fn high_products<const H: usize>(left: Simd<u64, H>, right: Simd<u64, H>) -> Simd<u64, H>
    ensures width { length result ≡ H }
    ensures lanes { (k : ℕ) → k < H → slice_index result k ≡ slice_index left.entry k / 2 ^ 32 * (slice_index right.entry k / 2 ^ 32) }
{
    let x = high_words::<H>(left);
    let y = high_words::<H>(right);
    x * y
}

/// The sums of four numbers, as two sums of two.
#[inline(always)]
pub(crate) fn sums_of_four<const H: usize>(
    first: Simd<u64, H>,
    second: Simd<u64, H>,
    third: Simd<u64, H>,
    fourth: Simd<u64, H>,
) -> Simd<u64, H>
    requires first { AreBelow H (2 ^ 62) first }
    requires second { AreBelow H (2 ^ 62) second }
    requires third { AreBelow H (2 ^ 62) third }
    requires fourth { AreBelow H (2 ^ 62) fourth }
    ensures width { length result ≡ H }
    ensures lanes { (k : ℕ) → k < H → slice_index result k
        ≡ slice_index first.entry k + slice_index second.entry k + (slice_index third.entry k + slice_index fourth.entry k) }
{
    let low = first + second;
    let high = third + fourth;
    low + high
}

/// The products of four words by four others: of those with an even index, and of those with an odd one.
#[inline(always)]
pub(crate) fn wide_products_4(left: u32x4, right: u32x4) -> (u64x2, u64x2)
    ensures even_width { length result.0 ≡ 2 }
    ensures odd_width { length result.1 ≡ 2 }
    ensures even { (k : ℕ) → k < 2 → slice_index result.0 k ≡ product_at left right (2 * k) }
    ensures odd { (k : ℕ) → k < 2 → slice_index result.1 k ≡ product_at left right (2 * k + 1) }
{
    let x = pairs_of_4(left);
    let y = pairs_of_4(right);
    let even = low_products::<2>(x, y);
    let odd = high_products::<2>(x, y);
    (even, odd)
}

/// The products of eight words by eight others: of those with an even index, and of those with an odd one.
#[inline(always)]
pub(crate) fn wide_products_8(left: u32x8, right: u32x8) -> (u64x4, u64x4)
    ensures even_width { length result.0 ≡ 4 }
    ensures odd_width { length result.1 ≡ 4 }
    ensures even { (k : ℕ) → k < 4 → slice_index result.0 k ≡ product_at left right (2 * k) }
    ensures odd { (k : ℕ) → k < 4 → slice_index result.1 k ≡ product_at left right (2 * k + 1) }
{
    let x = pairs_of_8(left);
    let y = pairs_of_8(right);
    let even = low_products::<4>(x, y);
    let odd = high_products::<4>(x, y);
    (even, odd)
}
