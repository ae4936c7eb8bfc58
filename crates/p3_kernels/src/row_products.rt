//! Sums of the products of rows of words below 2^31, lane by lane of two lists of rows: four products are summed up
//! in 64 bits, these sums modulo 2^64, and their high words apart.
ghost use Rattle.std.specs.Prelude.{◌≡◌, ℕ, ◌+◌, ◌-◌, ◌*◌, ◌/◌, ◌%◌, ◌^◌, ◌<◌, ◌≤◌, ◌≢◌, IfNone, IfSome, drop, get_or, length, slice_index};
ghost use Rattle.p3_kernels.specs.ProductSums.{SumUp, low_at, sum_at};
ghost use Rattle.p3_kernels.specs.Words.{AreBelow, AreReduced};
ghost use Rattle.p3_theory.specs.ResidueRings.SumsOfProducts.{sum_of_products};

use crate::product_sums::add_high_words;
use crate::row_residues::residues_of_rows;
use crate::wide_products::{high_products, low_products, sums_of_four};
use crate::word_vectors::{EightWords, FourWords, WordVectors};
use p3_residues::montgomery::montgomery_sum;
use std::simd::prelude::*;

/// Orders from which on a sum of products of 2^16 pairs of rows is reduced by vectors.
const LONG_ORDERS: u32 = 0x2_0000;

/// A row of N words.
pub trait WordRow<const N: usize> {
    /// The word at a lane.
    ghost word: { ℕ → Self → ℕ };

    /// The word at a lane.
    fn word_at(&self, lane: usize) -> u32
        requires { lane < N }
        ensures { result ≡ word lane self.now };
}

/// The words of L lanes of a row from one on.
#[inline(always)]
pub(crate) fn lane_words<R: WordRow<N>, const N: usize, const L: usize>(
    row: &R,
    lane: usize,
) -> Simd<u32, L>
    requires { lane + L ≤ N }
    ensures width { length result ≡ L }
    ensures below { AreBelow L (2 ^ 32) result }
    ensures lanes { (k : ℕ) → k < L → slice_index result k ≡ R.word (lane + k) row.now }
{
    let mut words = [0u32; L];
    for k in 0..L {
        let word = row.word_at(lane + k);
        words[k] = word;
    }
    Simd::from_array(words)
}

/// The words of L lanes of a row from one on, as pairs: the first of a pair low, the second one high.
#[inline(always)]
fn word_pairs<R: WordRow<N>, V: WordVectors<L, H>, const N: usize, const L: usize, const H: usize>(
    row: &R,
    lane: usize,
) -> Simd<u64, H>
    requires inside { lane + L ≤ N }
    requires pairs { L ≡ 2 * H }
    ensures width { length result ≡ H }
    ensures low { (k : ℕ) → k < H → slice_index result k % 2 ^ 32 ≡ R.word (lane + 2 * k) row.now }
    ensures high { (k : ℕ) → k < H → slice_index result k / 2 ^ 32 ≡ R.word (lane + 2 * k + 1) row.now }
{
    let words = lane_words::<R, N, L>(row, lane);
    V::pairs(words)
}

/// The products of the words of two rows at every second of 2 H lanes, from the first or, with `ODD` at 1, from the
/// second of them on.
#[inline(always)]
fn products_of_rows<
    R: WordRow<N>,
    V: WordVectors<L, H>,
    const N: usize,
    const L: usize,
    const H: usize,
    const ODD: usize,
>(left: &R, right: &R, lane: usize) -> Simd<u64, H>
    requires inside { lane + L ≤ N }
    requires pairs { L ≡ 2 * H }
    requires odd { ODD ≤ 1 }
    ensures width { length result ≡ H }
    ensures value { (k : ℕ) → k < H → slice_index result k ≡ R.word (lane + 2 * k + ODD) left.now * R.word (lane + 2 * k + ODD) right.now }
{
    let x = word_pairs::<R, V, N, L, H>(left, lane);
    let y = word_pairs::<R, V, N, L, H>(right, lane);
    if ODD == 0 {
        low_products::<H>(x, y)
    } else {
        high_products::<H>(x, y)
    }
}

/// The same products, summed up over four rows from an index on.
#[inline(always)]
fn products_of_four_rows<
    R: WordRow<N>,
    V: WordVectors<L, H>,
    const N: usize,
    const L: usize,
    const H: usize,
    const ODD: usize,
>(u: &[R], v: &[R], start: usize, lane: usize) -> Simd<u64, H>
    requires lengths { length u.now ≡ length v.now }
    requires room { start + 4 ≤ length u.now }
    requires inside { lane + L ≤ N }
    requires pairs { L ≡ 2 * H }
    requires odd { ODD ≤ 1 }
    requires short { (k : ℕ) (x : R) → k < N → R.word k x < 2 ^ 31 }
    ensures width { length result ≡ H }
    ensures value { (k : ℕ) → k < H → slice_index result k + sum_of_products (R.word (lane + 2 * k + ODD)) (drop (start + 4) u.now) (drop (start + 4) v.now)
        ≡ sum_of_products (R.word (lane + 2 * k + ODD)) (drop start u.now) (drop start v.now) }
{
    let first = products_of_rows::<R, V, N, L, H, ODD>(&u[start], &v[start], lane);
    let second = products_of_rows::<R, V, N, L, H, ODD>(&u[start + 1], &v[start + 1], lane);
    let third = products_of_rows::<R, V, N, L, H, ODD>(&u[start + 2], &v[start + 2], lane);
    let fourth = products_of_rows::<R, V, N, L, H, ODD>(&u[start + 3], &v[start + 3], lane);
    sums_of_four::<H>(first, second, third, fourth)
}

/// Sums modulo 2^64 to which numbers are added, lane by lane.
#[inline(always)]
fn add_numbers<const H: usize>(totals: Simd<u64, H>, numbers: Simd<u64, H>) -> Simd<u64, H>
    ensures width { length result ≡ H }
    ensures lanes { (k : ℕ) → k < H → slice_index result k ≡ (slice_index totals.entry k + slice_index numbers.entry k) % 2 ^ 64 }
{
    totals + numbers
}

/// The sums of the low words of numbers, lane by lane, from the sums of the numbers modulo 2^64 and those of their high
/// words.
#[inline(always)]
fn low_sums<const H: usize>(totals: Simd<u64, H>, highs: Simd<u64, H>) -> Simd<u64, H>
    ensures width { length result ≡ H }
    ensures lanes { (k : ℕ) → k < H → slice_index result k ≡ low_at totals.entry highs.entry k }
{
    totals - (highs << Simd::splat(32))
}

/// Of numbers at 2 H lanes the sums of the low and of the high words, those of the even and those of the odd lanes.
pub(crate) struct LaneSums<const H: usize> {
    pub(crate) even_low: [u64; H],
    pub(crate) even_high: [u64; H],
    pub(crate) odd_low: [u64; H],
    pub(crate) odd_high: [u64; H],
}

/// The sums of the low and of the high words of numbers, from those of the numbers modulo 2^64 and of their high words.
#[inline(always)]
fn split_sums<const H: usize>(
    even: Simd<u64, H>,
    even_high: Simd<u64, H>,
    odd: Simd<u64, H>,
    odd_high: Simd<u64, H>,
) -> LaneSums<H>
    ensures even_low { (k : ℕ) → k < H → slice_index result.even_low k ≡ low_at even.entry even_high.entry k }
    ensures even_high { result.even_high ≡ even_high.entry }
    ensures odd_low { (k : ℕ) → k < H → slice_index result.odd_low k ≡ low_at odd.entry odd_high.entry k }
    ensures odd_high { result.odd_high ≡ odd_high.entry }
{
    let even_low = low_sums::<H>(even, even_high);
    let odd_low = low_sums::<H>(odd, odd_high);
    LaneSums {
        even_low: even_low.to_array(),
        even_high: even_high.to_array(),
        odd_low: odd_low.to_array(),
        odd_high: odd_high.to_array(),
    }
}

/// The sums of the products of two lists of rows at 2 H lanes from one on.
#[inline(always)]
pub(crate) fn lane_sums<
    R: WordRow<N>,
    V: WordVectors<L, H>,
    const N: usize,
    const L: usize,
    const H: usize,
>(u: &[R], v: &[R], lane: usize) -> LaneSums<H>
    requires inside { lane + L ≤ N }
    requires pairs { L ≡ 2 * H }
    requires lengths { length u.now ≡ length v.now }
    requires few { length u.now ≤ 2 ^ 16 }
    requires short { (k : ℕ) (x : R) → k < N → R.word k x < 2 ^ 31 }
    ensures even { SumUp H (2 ^ 16) result.even_low result.even_high (λ k. sum_of_products (R.word (lane + 2 * k)) u.now v.now) }
    ensures odd { SumUp H (2 ^ 16) result.odd_low result.odd_high (λ k. sum_of_products (R.word (lane + 2 * k + 1)) u.now v.now) }
{
    let mut even = Simd::<u64, H>::splat(0);
    let mut even_high = Simd::<u64, H>::splat(0);
    let mut odd = Simd::<u64, H>::splat(0);
    let mut odd_high = Simd::<u64, H>::splat(0);
    let blocks = u.len() / 4;
    for i in 0..blocks {
        let even_sums = products_of_four_rows::<R, V, N, L, H, 0>(u, v, 4 * i, lane);
        let odd_sums = products_of_four_rows::<R, V, N, L, H, 1>(u, v, 4 * i, lane);
        even = add_numbers::<H>(even, even_sums);
        even_high = add_high_words::<H>(even_high, even_sums);
        odd = add_numbers::<H>(odd, odd_sums);
        odd_high = add_high_words::<H>(odd_high, odd_sums);
    }
    for i in 4 * blocks..u.len() {
        let last_even = products_of_rows::<R, V, N, L, H, 0>(&u[i], &v[i], lane);
        let last_odd = products_of_rows::<R, V, N, L, H, 1>(&u[i], &v[i], lane);
        even = add_numbers::<H>(even, last_even);
        even_high = add_high_words::<H>(even_high, last_even);
        odd = add_numbers::<H>(odd, last_odd);
        odd_high = add_high_words::<H>(odd_high, last_odd);
    }
    split_sums::<H>(even, even_high, odd, odd_high)
}

/// Writes at 2 H lanes from one on what sums of low and of high words come to: those of the even lanes, and of
/// the odd ones between them.
#[inline(always)]
fn write_sums<const H: usize>(totals: &mut [u128], lane: usize, sums: LaneSums<H>)
    requires inside { lane + 2 * H ≤ length totals.old }
    ensures length { length totals.new ≡ length totals.old }
    ensures value { (number : ℕ → ℕ) → ((j : ℕ) → j < lane → slice_index totals.old j ≡ number j)
        → ((k : ℕ) → k < H → sum_at sums.entry.even_low sums.entry.even_high k ≡ number (lane + 2 * k))
        → ((k : ℕ) → k < H → sum_at sums.entry.odd_low sums.entry.odd_high k ≡ number (lane + 2 * k + 1))
        → (j : ℕ) → j < lane + 2 * H → slice_index totals.new j ≡ number j }
{
    let LaneSums {
        even_low,
        even_high,
        odd_low,
        odd_high,
    } = sums;
    for k in 0..H {
        totals[lane + 2 * k] = even_low[k] as u128 + 0x1_0000_0000 * even_high[k] as u128;
        totals[lane + 2 * k + 1] = odd_low[k] as u128 + 0x1_0000_0000 * odd_high[k] as u128;
    }
}

/// Writes the sums of the products of two lists of rows at 2 H lanes from one on, after those of the lanes before.
#[inline(always)]
fn write_lanes<R: WordRow<N>, V: WordVectors<L, H>, const N: usize, const L: usize, const H: usize>(
    totals: &mut [u128],
    u: &[R],
    v: &[R],
    lane: usize,
)
    requires inside { lane + L ≤ N }
    requires pairs { L ≡ 2 * H }
    requires width { length totals.old ≡ N }
    requires lengths { length u.now ≡ length v.now }
    requires few { length u.now ≤ 2 ^ 16 }
    requires short { (k : ℕ) (x : R) → k < N → R.word k x < 2 ^ 31 }
    ensures length { length totals.new ≡ N }
    ensures value { ((j : ℕ) → j < lane → slice_index totals.old j ≡ sum_of_products (R.word j) u.now v.now)
        → (j : ℕ) → j < lane + 2 * H → slice_index totals.new j ≡ sum_of_products (R.word j) u.now v.now }
{
    let sums = lane_sums::<R, V, N, L, H>(u, v, lane);
    write_sums::<H>(totals, lane, sums);
}

/// The sums of the products of two lists of rows, lane by lane. `None` where the number of lanes is neither four
/// nor a multiple of eight.
#[inline(always)]
pub(crate) fn sums_of_rows<R: WordRow<N>, const N: usize>(u: &[R], v: &[R]) -> Option<[u128; N]>
    requires lengths { length u.now ≡ length v.now }
    requires few { length u.now ≤ 2 ^ 16 }
    requires short { (k : ℕ) (x : R) → k < N → R.word k x < 2 ^ 31 }
    ensures none { IfNone result ((0 < N % 8) × (N ≢ 4)) }
    ensures length { IfSome result (λ sums. length sums ≡ N) }
    ensures value { IfSome result (λ sums. (k : ℕ) → k < N → slice_index sums k ≡ sum_of_products (R.word k) u.now v.now) }
{
    let mut totals = [0u128; N];
    if N == 4 {
        write_lanes::<R, FourWords, N, 4, 2>(&mut totals[..], u, v, 0);
        return Some(totals);
    }
    if N % 8 > 0 {
        return None;
    }
    for block in 0..N / 8 {
        write_lanes::<R, EightWords, N, 8, 4>(&mut totals[..], u, v, 8 * block);
    }
    Some(totals)
}

/// The residues that are, lane by lane, the sums of the products of two lists of rows once they are multiplied by
/// 2^32: each sum is reduced by itself. `None` as `sums_of_rows`.
fn residues_of_sums<R: WordRow<N>, const N: usize>(
    u: &[R],
    v: &[R],
    order: u32,
    inverse: u32,
) -> Option<[u32; N]>
    requires above { 1 < order }
    requires fits { order < 2 ^ 31 }
    requires inverse { (order * inverse) % 2 ^ 32 ≡ 1 }
    requires lanes { N ≤ 64 }
    requires lengths { length u.now ≡ length v.now }
    requires few { length u.now ≤ 2 ^ 16 }
    requires short { (k : ℕ) (x : R) → k < N → R.word k x < 2 ^ 31 }
    ensures none { IfNone result ((0 < N % 8) × (N ≢ 4)) }
    ensures length { IfSome result (λ words. length words ≡ N) }
    ensures below { IfSome result (λ words. AreBelow N order words) }
    ensures value { IfSome result (λ words. AreReduced N order (λ k. sum_of_products (R.word k) u.now v.now) words) }
{
    let totals = sums_of_rows::<R, N>(u, v)?;
    let mut words = [0u32; N];
    for k in 0..N {
        let word = montgomery_sum(totals[k], order, inverse);
        words[k] = word;
    }
    Some(words)
}

/// The residues that are, lane by lane, the sums of the products of two lists of rows once they are multiplied by
/// 2^32. `None` as `sums_of_rows`.
#[inline(always)]
pub fn montgomery_sums_of_rows<R: WordRow<N>, const N: usize>(
    u: &[R],
    v: &[R],
    order: u32,
    inverse: u32,
) -> Option<[u32; N]>
    requires above { 1 < order }
    requires fits { order < 2 ^ 31 }
    requires inverse { (order * inverse) % 2 ^ 32 ≡ 1 }
    requires lanes { N ≤ 64 }
    requires lengths { length u.now ≡ length v.now }
    requires few { length u.now ≤ 2 ^ 16 }
    requires short { (k : ℕ) (x : R) → k < N → R.word k x < 2 ^ 31 }
    ensures none { IfNone result ((0 < N % 8) × (N ≢ 4)) }
    ensures length { IfSome result (λ words. length words ≡ N) }
    ensures below { IfSome result (λ words. AreBelow N order words) }
    ensures value { IfSome result (λ words. AreReduced N order (λ k. sum_of_products (R.word k) u.now v.now) words) }
{
    if order < LONG_ORDERS {
        residues_of_sums::<R, N>(u, v, order, inverse)
    } else {
        residues_of_rows::<R, N>(u, v, order, inverse)
    }
}
