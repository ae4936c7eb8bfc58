//! Sums of four products in Montgomery's form of blocks of 4 and 8 words, which are reduced once. In each lane
//! such a sum is what `montgomery_short_sum` says of one.
ghost use Rattle.std.specs.Prelude.{◌≡◌, ℕ, ◌*◌, ◌%◌, ◌^◌, ◌<◌, length};
ghost use Rattle.p3_kernels.specs.Words.{AreBelow, AreReduced, RowsAreBelow, dot_at};

use crate::lane_reductions::{reduce_short_sums_4, reduce_short_sums_8};
use crate::wide_products::{sums_of_four, wide_products_4, wide_products_8};
use std::simd::prelude::*;

/// In each of four lanes the residue that is the sum of four products once it is multiplied by 2^32. Of fewer
/// products the others are those of zeros.
#[inline(always)]
pub(crate) fn montgomery_dot_products_4(
    left: [u32x4; 4],
    right: [u32x4; 4],
    order: u32,
    inverse: u32,
) -> u32x4
    requires fits { order < 2 ^ 31 }
    requires inverse { (order * inverse) % 2 ^ 32 ≡ 1 }
    requires left { RowsAreBelow 4 order left }
    requires right { RowsAreBelow 4 order right }
    ensures width { length result ≡ 4 }
    ensures below { AreBelow 4 order result }
    ensures value { AreReduced 4 order (dot_at left right) result }
{
    let [a, b, c, d] = left;
    let [e, f, g, h] = right;
    let first = wide_products_4(a, e);
    let second = wide_products_4(b, f);
    let third = wide_products_4(c, g);
    let fourth = wide_products_4(d, h);
    let even = sums_of_four::<2>(first.0, second.0, third.0, fourth.0);
    let odd = sums_of_four::<2>(first.1, second.1, third.1, fourth.1);
    reduce_short_sums_4(even, odd, order, inverse)
}

/// In each of eight lanes the residue that is the sum of four products once it is multiplied by 2^32. Of fewer
/// products the others are those of zeros.
#[inline(always)]
pub(crate) fn montgomery_dot_products_8(
    left: [u32x8; 4],
    right: [u32x8; 4],
    order: u32,
    inverse: u32,
) -> u32x8
    requires fits { order < 2 ^ 31 }
    requires inverse { (order * inverse) % 2 ^ 32 ≡ 1 }
    requires left { RowsAreBelow 8 order left }
    requires right { RowsAreBelow 8 order right }
    ensures width { length result ≡ 8 }
    ensures below { AreBelow 8 order result }
    ensures value { AreReduced 8 order (dot_at left right) result }
{
    let [a, b, c, d] = left;
    let [e, f, g, h] = right;
    let first = wide_products_8(a, e);
    let second = wide_products_8(b, f);
    let third = wide_products_8(c, g);
    let fourth = wide_products_8(d, h);
    let even = sums_of_four::<4>(first.0, second.0, third.0, fourth.0);
    let odd = sums_of_four::<4>(first.1, second.1, third.1, fourth.1);
    reduce_short_sums_8(even, odd, order, inverse)
}
