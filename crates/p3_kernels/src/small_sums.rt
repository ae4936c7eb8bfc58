//! Sums of products of words below 2^8, sixteen at a time on eight lanes of 32 bits.
ghost use Rattle.std.specs.Prelude.{◌≡◌, ℕ, ◌+◌, ◌^◌, ◌<◌, length, slice_index};
ghost use Rattle.std.specs.Simd.Lanes.{sum_l};
ghost use Rattle.p3_kernels.specs.Words.{AreBelow, product_at};
ghost use Rattle.p3_theory.specs.ResidueRings.SumsOfProducts.{sum_of_products};

use crate::halfwords::{halfwords_of_4, halfwords_of_8, join_halfwords_4, join_halfwords_8};
use std::simd::prelude::*;

/// The products of four words by four others, which have 16 bits: those of the halves are these, and zeros.
#[inline(always)]
pub(crate) fn whole_products_4(left: u32x4, right: u32x4) -> u32x4
    requires left { AreBelow 4 (2 ^ 8) left }
    requires right { AreBelow 4 (2 ^ 8) right }
    ensures width { length result ≡ 4 }
    ensures lanes { (k : ℕ) → k < 4 → slice_index result k ≡ product_at left right k }
{
    let x = halfwords_of_4(left);
    let y = halfwords_of_4(right);
    let products = x * y;
    join_halfwords_4(products)
}

/// The products of eight words by eight others, which have 16 bits: those of the halves are these, and zeros.
#[inline(always)]
pub(crate) fn whole_products_8(left: u32x8, right: u32x8) -> u32x8
    requires left { AreBelow 8 (2 ^ 8) left }
    requires right { AreBelow 8 (2 ^ 8) right }
    ensures width { length result ≡ 8 }
    ensures lanes { (k : ℕ) → k < 8 → slice_index result k ≡ product_at left right k }
{
    let x = halfwords_of_8(left);
    let y = halfwords_of_8(right);
    let products = x * y;
    join_halfwords_8(products)
}

/// The sums on eight lanes, to which the products of sixteen words by sixteen others are added.
#[inline(always)]
pub fn add_small_products(sums: u32x8, left: &[u32; 16], right: &[u32; 16]) -> u32x8
    requires left { AreBelow 16 (2 ^ 8) left.now }
    requires right { AreBelow 16 (2 ^ 8) right.now }
    requires room { sum_l sums + sum_of_products (λ word. word) left.now right.now < 2 ^ 32 }
    ensures { sum_l result ≡ sum_l sums + sum_of_products (λ word. word) left.now right.now }
{
    let x = u32x8::from_slice(&left[..]);
    let y = u32x8::from_slice(&right[..]);
    let first = whole_products_8(x, y);
    let z = u32x8::from_slice(&left[8..]);
    let w = u32x8::from_slice(&right[8..]);
    let last = whole_products_8(z, w);
    sums.strict_add(first).strict_add(last)
}

/// The sum of eight lanes.
#[inline(always)]
pub fn sum_small_lanes(sums: u32x8) -> u32
    requires { sum_l sums < 2 ^ 32 }
    ensures { result ≡ sum_l sums }
{
    sums.strict_reduce_sum()
}
