//! Sums of the products of rows of words below 2^8, lane by lane of two lists of at most 2^16 rows, which 32 bits hold.
ghost use Rattle.std.specs.Prelude.{◌≡◌, ℕ, ◌+◌, ◌*◌, ◌%◌, ◌^◌, ◌<◌, ◌≤◌, ◌≢◌, IfNone, IfSome, drop, get_or, length, slice_index};
ghost use Rattle.p3_kernels.specs.Words.{AreBelow, product_at};
ghost use Rattle.p3_kernels.specs.Residues.{AreResidues};
ghost use Rattle.p3_theory.specs.ResidueRings.SumsOfProducts.{sum_of_products};

use crate::row_products::{WordRow, lane_words};
use crate::small_sums::{whole_products_4, whole_products_8};
use std::simd::prelude::*;

/// Vectors of L words.
trait SmallLanes<const L: usize> {
    /// The products of words below 2^8, lane by lane.
    fn products(left: Simd<u32, L>, right: Simd<u32, L>) -> Simd<u32, L>
        requires left { AreBelow L (2 ^ 8) left }
        requires right { AreBelow L (2 ^ 8) right }
        ensures width { length result ≡ L }
        ensures lanes { (k : ℕ) → k < L → slice_index result k ≡ product_at left.entry right.entry k };
}

/// Vectors of four words.
struct FourLanes;

impl SmallLanes<4> for FourLanes {
    #[inline(always)]
    fn products(left: u32x4, right: u32x4) -> u32x4
        requires left { AreBelow 4 (2 ^ 8) left }
        requires right { AreBelow 4 (2 ^ 8) right }
        ensures width { length result ≡ 4 }
        ensures lanes { (k : ℕ) → k < 4 → slice_index result k ≡ product_at left right k }
    {
        whole_products_4(left, right)
    }
}

/// Vectors of eight words.
struct EightLanes;

impl SmallLanes<8> for EightLanes {
    #[inline(always)]
    fn products(left: u32x8, right: u32x8) -> u32x8
        requires left { AreBelow 8 (2 ^ 8) left }
        requires right { AreBelow 8 (2 ^ 8) right }
        ensures width { length result ≡ 8 }
        ensures lanes { (k : ℕ) → k < 8 → slice_index result k ≡ product_at left right k }
    {
        whole_products_8(left, right)
    }
}

/// The sums of numbers, lane by lane, where 32 bits hold them.
#[inline(always)]
fn add_lanes<const L: usize>(sums: Simd<u32, L>, numbers: Simd<u32, L>) -> Simd<u32, L>
    requires fits { (k : ℕ) → k < L → slice_index sums k + slice_index numbers k < 2 ^ 32 }
    ensures width { length result ≡ L }
    ensures lanes { (k : ℕ) → k < L → slice_index result k ≡ slice_index sums.entry k + slice_index numbers.entry k }
{
    sums + numbers
}

/// The sums at L lanes from one on, to which the products of row i of two lists are added.
#[inline(always)]
fn add_row<R: WordRow<N>, V: SmallLanes<L>, const N: usize, const L: usize>(
    sums: Simd<u32, L>,
    u: &[R],
    v: &[R],
    i: usize,
    lane: usize,
) -> Simd<u32, L>
    requires inside { lane + L ≤ N }
    requires lengths { length u.now ≡ length v.now }
    requires row { i < length u.now }
    requires few { i < 2 ^ 16 }
    requires short { (k : ℕ) (x : R) → k < N → R.word k x < 2 ^ 8 }
    requires most { (k : ℕ) → k < L → slice_index sums k ≤ i * 65025 }
    ensures width { length result ≡ L }
    ensures most { (k : ℕ) → k < L → slice_index result k ≤ (i + 1) * 65025 }
    ensures value { (k : ℕ) → k < L → slice_index result k + sum_of_products (R.word (lane + k)) (drop (i + 1) u.now) (drop (i + 1) v.now)
        ≡ slice_index sums.entry k + sum_of_products (R.word (lane + k)) (drop i u.now) (drop i v.now) }
{
    let left = lane_words::<R, N, L>(&u[i], lane);
    let right = lane_words::<R, N, L>(&v[i], lane);
    let products = V::products(left, right);
    add_lanes::<L>(sums, products)
}

/// How many rows go in one step of the loop.
const ROWS: usize = 4;

/// Writes the sums of the products of two lists of rows at L lanes from one on, modulo the order, after those of the
/// lanes before.
#[inline(always)]
fn write_small_lanes<R: WordRow<N>, V: SmallLanes<L>, const N: usize, const L: usize>(
    words: &mut [u32],
    u: &[R],
    v: &[R],
    lane: usize,
    order: u32,
)
    requires some { 0 < order }
    requires inside { lane + L ≤ N }
    requires width { length words.old ≡ N }
    requires lengths { length u.now ≡ length v.now }
    requires few { length u.now ≤ 2 ^ 16 }
    requires short { (k : ℕ) (x : R) → k < N → R.word k x < 2 ^ 8 }
    ensures length { length words.new ≡ N }
    ensures value { AreResidues lane order (λ k. sum_of_products (R.word k) u.now v.now) words.old
        → AreResidues (lane + L) order (λ k. sum_of_products (R.word k) u.now v.now) words.new }
{
    let mut sums = Simd::<u32, L>::splat(0);
    let steps = u.len() / ROWS;
    for step in 0..steps {
        let first = ROWS * step;
        sums = add_row::<R, V, N, L>(sums, u, v, first, lane);
        sums = add_row::<R, V, N, L>(sums, u, v, first + 1, lane);
        sums = add_row::<R, V, N, L>(sums, u, v, first + 2, lane);
        sums = add_row::<R, V, N, L>(sums, u, v, first + 3, lane);
    }
    for i in ROWS * steps..u.len() {
        sums = add_row::<R, V, N, L>(sums, u, v, i, lane);
    }
    let totals = sums.to_array();
    for k in 0..L {
        words[lane + k] = totals[k] % order;
    }
}

/// The sums of the products of two lists of rows, lane by lane, modulo the order. `None` where the number of lanes is
/// neither four nor a multiple of eight.
#[inline(always)]
pub fn small_sums_of_rows<R: WordRow<N>, const N: usize>(
    u: &[R],
    v: &[R],
    order: u32,
) -> Option<[u32; N]>
    requires some { 0 < order }
    requires lengths { length u.now ≡ length v.now }
    requires few { length u.now ≤ 2 ^ 16 }
    requires short { (k : ℕ) (x : R) → k < N → R.word k x < 2 ^ 8 }
    ensures none { IfNone result ((0 < N % 8) × (N ≢ 4)) }
    ensures length { IfSome result (λ words. length words ≡ N) }
    ensures value { IfSome result (λ words. AreResidues N order (λ k. sum_of_products (R.word k) u.now v.now) words) }
{
    let mut words = [0u32; N];
    if N == 4 {
        write_small_lanes::<R, FourLanes, N, 4>(&mut words[..], u, v, 0, order);
        return Some(words);
    }
    if N % 8 > 0 {
        return None;
    }
    for block in 0..N / 8 {
        write_small_lanes::<R, EightLanes, N, 8>(&mut words[..], u, v, 8 * block, order);
    }
    Some(words)
}
