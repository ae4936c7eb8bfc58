//! Sums of four products modulo an order of at most 2^7, whose residues have such sums of 16 bits. As the products
//! modulo small orders they are fast where the order is known when the code is compiled.
ghost use Rattle.std.specs.Prelude.{◌≡◌, ℕ, ◌+◌, ◌/◌, ◌%◌, ◌*◌, ◌^◌, ◌<◌, ◌≤◌, All, length, map, slice_index};
ghost use Rattle.p3_kernels.specs.Words.{RowsAreBelow, dot_at, product_at, rows_of};
ghost use Rattle.p3_kernels.specs.Residues.{AreResidues, IsResidue};

use crate::dot_product_slices::{load_rows_4, load_rows_8};
use crate::halfwords::{halfwords_of_4, halfwords_of_8, join_halfwords_4, join_halfwords_8};
use crate::short_remainders::short_remainders;
use crate::small_products::greatest_product;
use std::simd::prelude::*;

/// The halves of the four words of each of four rows.
#[inline(always)]
fn halves_of_rows_4(rows: [u32x4; 4]) -> [u16x8; 4]
    ensures even { (k : ℕ) → k < 4 → map (λ row. slice_index row (2 * k)) result ≡ map (λ row. slice_index row k % 2 ^ 16) rows }
    ensures odd { (k : ℕ) → k < 4 → map (λ row. slice_index row (2 * k + 1)) result ≡ map (λ row. slice_index row k / 2 ^ 16) rows }
{
    let [a, b, c, d] = rows;
    [
        halfwords_of_4(a),
        halfwords_of_4(b),
        halfwords_of_4(c),
        halfwords_of_4(d),
    ]
}

/// The halves of the eight words of each of four rows.
#[inline(always)]
fn halves_of_rows_8(rows: [u32x8; 4]) -> [u16x16; 4]
    ensures even { (k : ℕ) → k < 8 → map (λ row. slice_index row (2 * k)) result ≡ map (λ row. slice_index row k % 2 ^ 16) rows }
    ensures odd { (k : ℕ) → k < 8 → map (λ row. slice_index row (2 * k + 1)) result ≡ map (λ row. slice_index row k / 2 ^ 16) rows }
{
    let [a, b, c, d] = rows;
    [
        halfwords_of_8(a),
        halfwords_of_8(b),
        halfwords_of_8(c),
        halfwords_of_8(d),
    ]
}

/// The sums of two products of words of 16 bits, modulo 2^16.
#[inline(always)]
fn sums_of_two<const N: usize>(
    a: Simd<u16, N>,
    e: Simd<u16, N>,
    b: Simd<u16, N>,
    f: Simd<u16, N>,
) -> Simd<u16, N>
    ensures width { length result ≡ N }
    ensures lanes { (k : ℕ) → k < N → slice_index result k ≡ (product_at a.entry e.entry k + product_at b.entry f.entry k) % 2 ^ 16 }
{
    a * e + b * f
}

/// The sums of four products of words of 16 bits modulo an order, where they are at most `most`.
#[inline(always)]
fn short_sums<const N: usize>(
    left: [Simd<u16, N>; 4],
    right: [Simd<u16, N>; 4],
    order: u16,
    most: u16,
) -> Simd<u16, N>
    requires some { 0 < order }
    requires most { (k : ℕ) → k < N → dot_at left right k ≤ most }
    ensures width { length result ≡ N }
    ensures value { AreResidues N order (dot_at left.entry right.entry) result }
{
    let [a, b, c, d] = left;
    let [e, f, g, h] = right;
    let first = sums_of_two::<N>(a, e, b, f);
    let last = sums_of_two::<N>(c, g, d, h);
    let sums = first + last;
    short_remainders::<N>(sums, order, most)
}

/// The sum of the four products modulo the order in each of four lanes.
#[inline(always)]
pub(crate) fn small_dot_products_4(left: [u32x4; 4], right: [u32x4; 4], order: u32) -> u32x4
    requires fits { order ≤ 2 ^ 7 }
    requires left { RowsAreBelow 4 order left }
    requires right { RowsAreBelow 4 order right }
    ensures width { length result ≡ 4 }
    ensures value { AreResidues 4 order (dot_at left right) result }
{
    let x = halves_of_rows_4(left);
    let y = halves_of_rows_4(right);
    let greatest = greatest_product(order as u16);
    let sums = short_sums::<8>(x, y, order as u16, 4 * greatest);
    join_halfwords_4(sums)
}

/// The sum of the four products modulo the order in each of eight lanes.
#[inline(always)]
pub(crate) fn small_dot_products_8(left: [u32x8; 4], right: [u32x8; 4], order: u32) -> u32x8
    requires fits { order ≤ 2 ^ 7 }
    requires left { RowsAreBelow 8 order left }
    requires right { RowsAreBelow 8 order right }
    ensures width { length result ≡ 8 }
    ensures value { AreResidues 8 order (dot_at left right) result }
{
    let x = halves_of_rows_8(left);
    let y = halves_of_rows_8(right);
    let greatest = greatest_product(order as u16);
    let sums = short_sums::<16>(x, y, order as u16, 4 * greatest);
    join_halfwords_8(sums)
}

/// The product of the words at an index of two rows.
#[inline(always)]
fn small_word_product(left: &[u32], right: &[u32], i: usize, order: u32) -> u32
    requires fits { order ≤ 2 ^ 7 }
    requires lengths { (i < length left.now) × (i < length right.now) }
    requires left { slice_index left.now i < order }
    requires right { slice_index right.now i < order }
    ensures value { result ≡ product_at left.now right.now i }
    ensures below { result < 2 ^ 14 }
{
    left[i] * right[i]
}

/// The sum of the four products at an index, modulo the order.
#[inline(always)]
fn small_dot_product_at(left: [&[u32]; 4], right: [&[u32]; 4], i: usize, order: u32) -> u32
    requires fits { order ≤ 2 ^ 7 }
    requires left_lengths { All (λ row. i < length row.now) left }
    requires right_lengths { All (λ row. i < length row.now) right }
    requires left { All (λ row. slice_index row.now i < order) left }
    requires right { All (λ row. slice_index row.now i < order) right }
    ensures { IsResidue order (dot_at (rows_of left.entry) (rows_of right.entry)) i result }
{
    let [a, b, c, d] = left;
    let [e, f, g, h] = right;
    let first = small_word_product(a, e, i, order) + small_word_product(b, f, i, order);
    let last = small_word_product(c, g, i, order) + small_word_product(d, h, i, order);
    (first + last) % order
}

/// Writes at each index the sum of the four products there, modulo the order.
#[inline(always)]
pub(crate) fn write_small_dot_products(
    out: &mut [u32],
    left: [&[u32]; 4],
    right: [&[u32]; 4],
    order: u32,
)
    requires fits { order ≤ 2 ^ 7 }
    requires left_lengths { All (λ row. length row.now ≡ length out.old) left }
    requires right_lengths { All (λ row. length row.now ≡ length out.old) right }
    requires left { RowsAreBelow (length out.old) order (rows_of left) }
    requires right { RowsAreBelow (length out.old) order (rows_of right) }
    ensures length { length out.new ≡ length out.old }
    ensures value { AreResidues (length out.old) order (dot_at (rows_of left.entry) (rows_of right.entry)) out.new }
{
    let eights = out.len() / 8;
    for block in 0..eights {
        let x = load_rows_8(left, 8 * block);
        let y = load_rows_8(right, 8 * block);
        let sums = small_dot_products_8(x, y, order);
        sums.copy_to_slice(&mut out[8 * block..]);
    }
    let start = 8 * eights;
    let fours = (out.len() - start) / 4;
    for four in 0..fours {
        let x = load_rows_4(left, start + 4 * four);
        let y = load_rows_4(right, start + 4 * four);
        let last_sums = small_dot_products_4(x, y, order);
        last_sums.copy_to_slice(&mut out[start + 4 * four..]);
    }
    for i in start + 4 * fours..out.len() {
        let sum = small_dot_product_at(left, right, i, order);
        out[i] = sum;
    }
}

/// The sums of the four products, index by index of four arrays and four others, modulo the order.
#[inline(always)]
pub fn array_small_dot_products<const N: usize>(
    left: &[[u32; N]; 4],
    right: &[[u32; N]; 4],
    order: u32,
) -> [u32; N]
    requires fits { order ≤ 2 ^ 7 }
    requires left { RowsAreBelow N order left.now }
    requires right { RowsAreBelow N order right.now }
    ensures length { length result ≡ N }
    ensures value { AreResidues N order (dot_at left.now right.now) result }
{
    let [a, b, c, d] = left;
    let [e, f, g, h] = right;
    let mut sums = [0; N];
    write_small_dot_products(
        &mut sums[..],
        [&a[..], &b[..], &c[..], &d[..]],
        [&e[..], &f[..], &g[..], &h[..]],
        order,
    );
    sums
}
