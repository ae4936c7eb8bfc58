//! Sums of products of words below 2^31, sixteen at a time: four of them in each of four lanes of 64 bits, and of
//! these sums the low and the high words summed up apart.
ghost use Rattle.std.specs.Prelude.{◌≡◌, ℕ, ◌+◌, ◌-◌, ◌/◌, ◌%◌, ◌^◌, ◌<◌, length, slice_index};
ghost use Rattle.p3_kernels.specs.Words.{AreBelow};
ghost use Rattle.p3_kernels.specs.ProductSums.{AreWordSums, sum_of_lanes, total};
ghost use Rattle.p3_theory.specs.ResidueRings.SumsOfProducts.{sum_of_products};

use crate::wide_products::{sums_of_four, wide_products_8};
use crate::word_pairs::{high_words, low_words};
use std::simd::prelude::*;

/// The products of sixteen words by sixteen others, four summed up in each lane.
#[inline(always)]
fn lanes_of_products(left: &[u32], right: &[u32]) -> u64x4
    requires lengths { (length left.now ≡ 16) × (length right.now ≡ 16) }
    requires left { AreBelow 16 (2 ^ 31) left.now }
    requires right { AreBelow 16 (2 ^ 31) right.now }
    ensures width { length result ≡ 4 }
    ensures below { AreBelow 4 (2 ^ 64) result }
    ensures value { sum_of_lanes result ≡ sum_of_products (λ word. word) left.now right.now }
{
    let x = u32x8::from_slice(&left[..]);
    let y = u32x8::from_slice(&right[..]);
    let first = wide_products_8(x, y);
    let z = u32x8::from_slice(&left[8..]);
    let w = u32x8::from_slice(&right[8..]);
    let last = wide_products_8(z, w);
    sums_of_four::<4>(first.0, first.1, last.0, last.1)
}

/// The sums to which the low words of numbers are added, lane by lane.
#[inline(always)]
fn add_low_words<const H: usize>(sums: Simd<u64, H>, numbers: Simd<u64, H>) -> Simd<u64, H>
    requires room { AreWordSums H (2 ^ 32 - 1) sums }
    ensures width { length result ≡ H }
    ensures step { (n : ℕ) → AreWordSums H n sums.entry → AreWordSums H (n + 1) result }
    ensures value { (k : ℕ) → k < H → slice_index result k ≡ slice_index sums.entry k + slice_index numbers.entry k % 2 ^ 32 }
{
    let words = low_words::<H>(numbers);
    sums + words
}

/// The sums to which the high words of numbers are added, lane by lane.
#[inline(always)]
pub(crate) fn add_high_words<const H: usize>(
    sums: Simd<u64, H>,
    numbers: Simd<u64, H>,
) -> Simd<u64, H>
    requires room { AreWordSums H (2 ^ 32 - 1) sums }
    ensures width { length result ≡ H }
    ensures step { (n : ℕ) → AreWordSums H n sums.entry → AreWordSums H (n + 1) result }
    ensures value { (k : ℕ) → k < H → slice_index result k ≡ slice_index sums.entry k + slice_index numbers.entry k / 2 ^ 32 }
{
    let words = high_words::<H>(numbers);
    sums + words
}

/// The sums of low and of high words, to which those of the products of sixteen words by sixteen others are
/// added, in one step of fewer than 2^32.
#[inline(always)]
pub fn add_products(low: u64x4, high: u64x4, left: &[u32; 16], right: &[u32; 16]) -> (u64x4, u64x4)
    requires left { AreBelow 16 (2 ^ 31) left.now }
    requires right { AreBelow 16 (2 ^ 31) right.now }
    requires low_room { AreWordSums 4 (2 ^ 32 - 1) low }
    requires high_room { AreWordSums 4 (2 ^ 32 - 1) high }
    ensures low_width { length result.0 ≡ 4 }
    ensures high_width { length result.1 ≡ 4 }
    ensures low_step { (n : ℕ) → AreWordSums 4 n low → AreWordSums 4 (n + 1) result.0 }
    ensures high_step { (n : ℕ) → AreWordSums 4 n high → AreWordSums 4 (n + 1) result.1 }
    ensures value { total result.0 result.1 ≡ total low high + sum_of_products (λ word. word) left.now right.now }
{
    let sums = lanes_of_products(&left[..], &right[..]);
    let lows = add_low_words::<4>(low, sums);
    let highs = add_high_words::<4>(high, sums);
    (lows, highs)
}

/// The sum of four lanes.
#[inline(always)]
fn sum_lanes(lanes: u64x4) -> u128
    ensures value { result ≡ sum_of_lanes lanes }
    ensures below { result < 2 ^ 66 }
{
    let [a, b, c, d] = lanes.to_array();
    a as u128 + b as u128 + c as u128 + d as u128
}

/// What the sums of low and of high words come to.
#[inline(always)]
pub fn total_sum(low: u64x4, high: u64x4) -> u128
    ensures { result ≡ total low high }
{
    let lows = sum_lanes(low);
    let highs = sum_lanes(high);
    lows + 0x1_0000_0000 * highs
}
