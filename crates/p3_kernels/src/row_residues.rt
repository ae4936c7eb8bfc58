//! The sums of the products of rows of words as residues, a vector of lanes at a time: of each sum the high words are
//! reduced first, and once more with the low ones.
ghost use Rattle.std.specs.Prelude.{◌≡◌, ℕ, ◌+◌, ◌-◌, ◌*◌, ◌/◌, ◌%◌, ◌^◌, ◌<◌, ◌≤◌, ◌≢◌, IfNone, IfSome, length, slice_index};
ghost use Rattle.p3_kernels.specs.ProductSums.{AreWordSums, sum_at};
ghost use Rattle.p3_kernels.specs.Words.{AreBelow, AreReduced};
ghost use Rattle.p3_theory.specs.ResidueRings.SumsOfProducts.{sum_of_products};

use crate::row_products::{LaneSums, WordRow, lane_sums};
use crate::word_pairs::{high_words, low_words};
use crate::word_vectors::{EightWords, FourWords, WordVectors};
use std::simd::prelude::*;

/// A number that is 2^64 modulo an order.
#[inline(always)]
fn square_of_word(order: u32) -> u64
    requires { 0 < order }
    ensures most { result ≤ order }
    ensures value { result % order ≡ 2 ^ 64 % order }
{
    0xffff_ffff_ffff_ffff % order as u64 + 1
}

/// The sums to which the products of words by a factor are added, lane by lane.
#[inline(always)]
fn add_multiples<const H: usize>(
    sums: Simd<u64, H>,
    words: Simd<u64, H>,
    factor: u64,
) -> Simd<u64, H>
    requires few { AreWordSums H (2 ^ 16) sums }
    requires words { AreBelow H (2 ^ 31) words }
    requires factor { factor < 2 ^ 31 }
    ensures width { length result ≡ H }
    ensures lanes { (k : ℕ) → k < H → slice_index result k ≡ slice_index sums.entry k + slice_index words.entry k * factor }
{
    let products = words * Simd::splat(factor);
    sums + products
}

/// The residues that are what sums of low and of high words come to once they are multiplied by 2^32.
#[inline(always)]
fn reduce_sums<V: WordVectors<L, H>, const L: usize, const H: usize>(
    sums: LaneSums<H>,
    order: u32,
    inverse: u32,
) -> Simd<u32, L>
    requires pairs { L ≡ 2 * H }
    requires long { 2 ^ 17 ≤ order }
    requires fits { order < 2 ^ 31 }
    requires inverse { (order * inverse) % 2 ^ 32 ≡ 1 }
    requires even_low { AreWordSums H (2 ^ 16) sums.even_low }
    requires even_high { AreWordSums H (2 ^ 16) sums.even_high }
    requires odd_low { AreWordSums H (2 ^ 16) sums.odd_low }
    requires odd_high { AreWordSums H (2 ^ 16) sums.odd_high }
    ensures width { length result ≡ L }
    ensures below { AreBelow L order result }
    ensures even { (k : ℕ) → k < H → (slice_index result (2 * k) * 2 ^ 32) % order ≡ sum_at sums.entry.even_low sums.entry.even_high k % order }
    ensures odd { (k : ℕ) → k < H → (slice_index result (2 * k + 1) * 2 ^ 32) % order ≡ sum_at sums.entry.odd_low sums.entry.odd_high k % order }
{
    let LaneSums {
        even_low,
        even_high,
        odd_low,
        odd_high,
    } = sums;
    let square = square_of_word(order);
    let highs = V::reduced(
        Simd::from_array(even_high),
        Simd::from_array(odd_high),
        order,
        inverse,
    );
    let pairs = V::pairs(highs);
    let even_highs = low_words::<H>(pairs);
    let odd_highs = high_words::<H>(pairs);
    let even = add_multiples::<H>(Simd::from_array(even_low), even_highs, square);
    let odd = add_multiples::<H>(Simd::from_array(odd_low), odd_highs, square);
    V::reduced(even, odd, order, inverse)
}

/// Writes at 2 H lanes from one on the residues that are the sums of the products of two lists of rows once they are
/// multiplied by 2^32, after those of the lanes before.
#[inline(always)]
fn write_residues<
    R: WordRow<N>,
    V: WordVectors<L, H>,
    const N: usize,
    const L: usize,
    const H: usize,
>(words: &mut [u32], u: &[R], v: &[R], lane: usize, order: u32, inverse: u32)
    requires inside { lane + L ≤ N }
    requires pairs { L ≡ 2 * H }
    requires width { length words.old ≡ N }
    requires long { 2 ^ 17 ≤ order }
    requires fits { order < 2 ^ 31 }
    requires inverse { (order * inverse) % 2 ^ 32 ≡ 1 }
    requires lanes { N ≤ 64 }
    requires lengths { length u.now ≡ length v.now }
    requires few { length u.now ≤ 2 ^ 16 }
    requires short { (k : ℕ) (x : R) → k < N → R.word k x < 2 ^ 31 }
    ensures length { length words.new ≡ N }
    ensures below { AreBelow lane order words.old → AreBelow (lane + L) order words.new }
    ensures value { AreReduced lane order (λ j. sum_of_products (R.word j) u.now v.now) words.old
        → AreReduced (lane + L) order (λ j. sum_of_products (R.word j) u.now v.now) words.new }
{
    let sums = lane_sums::<R, V, N, L, H>(u, v, lane);
    let residues = reduce_sums::<V, L, H>(sums, order, inverse);
    residues.copy_to_slice(&mut words[lane..]);
}

/// The residues that are, lane by lane, the sums of the products of two lists of rows once they are multiplied by
/// 2^32, for orders of at least 2^17. `None` where the number of lanes is neither four nor a multiple of eight.
#[inline(always)]
pub(crate) fn residues_of_rows<R: WordRow<N>, const N: usize>(
    u: &[R],
    v: &[R],
    order: u32,
    inverse: u32,
) -> Option<[u32; N]>
    requires long { 2 ^ 17 ≤ order }
    requires fits { order < 2 ^ 31 }
    requires inverse { (order * inverse) % 2 ^ 32 ≡ 1 }
    requires lanes { N ≤ 64 }
    requires lengths { length u.now ≡ length v.now }
    requires few { length u.now ≤ 2 ^ 16 }
    requires short { (k : ℕ) (x : R) → k < N → R.word k x < 2 ^ 31 }
    ensures none { IfNone result ((0 < N % 8) × (N ≢ 4)) }
    ensures length { IfSome result (λ words. length words ≡ N) }
    ensures below { IfSome result (λ words. AreBelow N order words) }
    ensures value { IfSome result (λ words. AreReduced N order (λ k. sum_of_products (R.word k) u.now v.now) words) }
{
    let mut words = [0u32; N];
    if N == 4 {
        write_residues::<R, FourWords, N, 4, 2>(&mut words[..], u, v, 0, order, inverse);
        return Some(words);
    }
    if N % 8 > 0 {
        return None;
    }
    for block in 0..N / 8 {
        write_residues::<R, EightWords, N, 8, 4>(&mut words[..], u, v, 8 * block, order, inverse);
    }
    Some(words)
}
