//! Products in Montgomery's form of blocks of 4 and 8 words, which hold residues times 2^32, modulo an odd
//! order below 2^31. In each lane a product is what `montgomery_product` says of one word.
ghost use Rattle.std.specs.Prelude.{◌≡◌, ℕ, ◌*◌, ◌%◌, ◌^◌, ◌<◌, length};
ghost use Rattle.p3_kernels.specs.Words.{AreBelow, AreReduced, product_at};

use crate::lane_reductions::{reduce_4, reduce_8};
use crate::wide_products::{wide_products_4, wide_products_8};
use std::simd::prelude::*;

/// In each of four lanes the residue that is the product of both words once it is multiplied by 2^32.
#[inline(always)]
pub(crate) fn montgomery_products_4(left: u32x4, right: u32x4, order: u32, inverse: u32) -> u32x4
    requires fits { order < 2 ^ 31 }
    requires inverse { (order * inverse) % 2 ^ 32 ≡ 1 }
    requires left { AreBelow 4 order left }
    ensures width { length result ≡ 4 }
    ensures below { AreBelow 4 order result }
    ensures value { AreReduced 4 order (product_at left right) result }
{
    let products = wide_products_4(left, right);
    reduce_4(products.0, products.1, order, inverse)
}

/// In each of eight lanes the residue that is the product of both words once it is multiplied by 2^32.
#[inline(always)]
pub(crate) fn montgomery_products_8(left: u32x8, right: u32x8, order: u32, inverse: u32) -> u32x8
    requires fits { order < 2 ^ 31 }
    requires inverse { (order * inverse) % 2 ^ 32 ≡ 1 }
    requires left { AreBelow 8 order left }
    ensures width { length result ≡ 8 }
    ensures below { AreBelow 8 order result }
    ensures value { AreReduced 8 order (product_at left right) result }
{
    let products = wide_products_8(left, right);
    reduce_8(products.0, products.1, order, inverse)
}
