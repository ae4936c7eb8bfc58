//! Products of residues that are their own words.
ghost use Rattle.std.specs.Prelude.{◌≡◌, ◌<◌, ◌*◌, ◌%◌, ◌^◌};

use p3_residues::remainder::remainder_by_reciprocal;

/// The product of two residues modulo an order below 2^31. Where products fit 32 bits, their remainder there
/// is the cheapest.
#[inline]
pub(crate) fn short_product(left: u32, right: u32, order: u32) -> u32
    requires above { 1 < order }
    requires fits { order < 2 ^ 31 }
    requires left { left < order }
    requires right { right < order }
    ensures below { result < order }
    ensures value { result ≡ (left * right) % order }
{
    if order < 0x1_0000 {
        left * right % order
    } else {
        remainder_by_reciprocal(left as u64 * right as u64, order)
    }
}
