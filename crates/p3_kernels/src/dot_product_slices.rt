//! Sums of four products in Montgomery's form, index by index of slices and arrays: by blocks of eight and of
//! four words, and the rest word by word.
ghost use Rattle.std.specs.Prelude.{◌≡◌, ◌+◌, ◌*◌, ◌%◌, ◌^◌, ◌<◌, ◌≤◌, All, length, map, slice_index};
ghost use Rattle.p3_kernels.specs.Words.{AreBelow, AreReduced, RowsAreBelow, block_at, dot_at, product_at, rows_of};

use crate::dot_product_blocks::{montgomery_dot_products_4, montgomery_dot_products_8};
use p3_residues::montgomery::montgomery_short_sum;
use std::simd::prelude::*;

/// The four words of a row from an index on.
#[inline(always)]
fn load_4(row: &[u32], start: usize) -> u32x4
    requires { start + 4 ≤ length row.now }
    ensures { result ≡ block_at start 4 row.now }
{
    u32x4::from_slice(&row[start..])
}

/// The eight words of a row from an index on.
#[inline(always)]
fn load_8(row: &[u32], start: usize) -> u32x8
    requires { start + 8 ≤ length row.now }
    ensures { result ≡ block_at start 8 row.now }
{
    u32x8::from_slice(&row[start..])
}

/// The four words of each of four rows from an index on.
#[inline(always)]
pub(crate) fn load_rows_4(rows: [&[u32]; 4], start: usize) -> [u32x4; 4]
    requires { All (λ row. start + 4 ≤ length row.now) rows }
    ensures { result ≡ map (block_at start 4) (rows_of rows.entry) }
{
    let [a, b, c, d] = rows;
    [
        load_4(a, start),
        load_4(b, start),
        load_4(c, start),
        load_4(d, start),
    ]
}

/// The eight words of each of four rows from an index on.
#[inline(always)]
pub(crate) fn load_rows_8(rows: [&[u32]; 4], start: usize) -> [u32x8; 4]
    requires { All (λ row. start + 8 ≤ length row.now) rows }
    ensures { result ≡ map (block_at start 8) (rows_of rows.entry) }
{
    let [a, b, c, d] = rows;
    [
        load_8(a, start),
        load_8(b, start),
        load_8(c, start),
        load_8(d, start),
    ]
}

/// The product of the words at an index of two rows.
#[inline(always)]
fn word_product(left: &[u32], right: &[u32], i: usize, order: u32) -> u64
    requires fits { order < 2 ^ 31 }
    requires lengths { (i < length left.now) × (i < length right.now) }
    requires left { slice_index left.now i < order }
    requires right { slice_index right.now i < order }
    ensures value { result ≡ product_at left.now right.now i }
    ensures below { result + order ≤ 2 ^ 31 * order }
{
    left[i] as u64 * right[i] as u64
}

/// The residue that is the sum of the four products at an index once it is multiplied by 2^32.
#[inline(always)]
fn dot_product_at(left: [&[u32]; 4], right: [&[u32]; 4], i: usize, order: u32, inverse: u32) -> u32
    requires fits { order < 2 ^ 31 }
    requires inverse { (order * inverse) % 2 ^ 32 ≡ 1 }
    requires left_lengths { All (λ row. i < length row.now) left }
    requires right_lengths { All (λ row. i < length row.now) right }
    requires left { All (λ row. slice_index row.now i < order) left }
    requires right { All (λ row. slice_index row.now i < order) right }
    ensures below { result < order }
    ensures value { (result * 2 ^ 32) % order ≡ dot_at (rows_of left.entry) (rows_of right.entry) i % order }
{
    let [a, b, c, d] = left;
    let [e, f, g, h] = right;
    let first = word_product(a, e, i, order) + word_product(b, f, i, order);
    let last = word_product(c, g, i, order) + word_product(d, h, i, order);
    montgomery_short_sum(first + last, order, inverse)
}

/// Writes at each index the residue that is the sum of the four products there once it is multiplied by 2^32.
#[inline(always)]
pub(crate) fn write_dot_products(
    out: &mut [u32],
    left: [&[u32]; 4],
    right: [&[u32]; 4],
    order: u32,
    inverse: u32,
)
    requires fits { order < 2 ^ 31 }
    requires inverse { (order * inverse) % 2 ^ 32 ≡ 1 }
    requires left_lengths { All (λ row. length row.now ≡ length out.old) left }
    requires right_lengths { All (λ row. length row.now ≡ length out.old) right }
    requires left { RowsAreBelow (length out.old) order (rows_of left) }
    requires right { RowsAreBelow (length out.old) order (rows_of right) }
    ensures length { length out.new ≡ length out.old }
    ensures below { AreBelow (length out.old) order out.new }
    ensures value { AreReduced (length out.old) order (dot_at (rows_of left.entry) (rows_of right.entry)) out.new }
{
    let eights = out.len() / 8;
    for block in 0..eights {
        let x = load_rows_8(left, 8 * block);
        let y = load_rows_8(right, 8 * block);
        let sums = montgomery_dot_products_8(x, y, order, inverse);
        sums.copy_to_slice(&mut out[8 * block..]);
    }
    let start = 8 * eights;
    let fours = (out.len() - start) / 4;
    for four in 0..fours {
        let x = load_rows_4(left, start + 4 * four);
        let y = load_rows_4(right, start + 4 * four);
        let last_sums = montgomery_dot_products_4(x, y, order, inverse);
        last_sums.copy_to_slice(&mut out[start + 4 * four..]);
    }
    for i in start + 4 * fours..out.len() {
        let sum = dot_product_at(left, right, i, order, inverse);
        out[i] = sum;
    }
}

/// The residues that are, index by index of four arrays and four others, the sums of the four products once
/// they are multiplied by 2^32.
#[inline(always)]
pub fn array_dot_products<const N: usize>(
    left: &[[u32; N]; 4],
    right: &[[u32; N]; 4],
    order: u32,
    inverse: u32,
) -> [u32; N]
    requires fits { order < 2 ^ 31 }
    requires inverse { (order * inverse) % 2 ^ 32 ≡ 1 }
    requires left { RowsAreBelow N order left.now }
    requires right { RowsAreBelow N order right.now }
    ensures length { length result ≡ N }
    ensures below { AreBelow N order result }
    ensures value { AreReduced N order (dot_at left.now right.now) result }
{
    let [a, b, c, d] = left;
    let [e, f, g, h] = right;
    let mut sums = [0; N];
    write_dot_products(
        &mut sums[..],
        [&a[..], &b[..], &c[..], &d[..]],
        [&e[..], &f[..], &g[..], &h[..]],
        order,
        inverse,
    );
    sums
}
