//! The remainder of a word, of two words, or of a number of 128 bits modulo an order, by a product with its reciprocal.
ghost use Rattle.std.specs.Prelude.{◌≡◌, ◌<◌, ◌+◌, ◌*◌, ◌%◌, ◌^◌};

/// The remainder modulo an order, by one product with the reciprocal of the order, which is rounded
/// up in units of two to the power `-shift`: such a remainder takes fewer steps than that of any
/// 64 bits. What is computed of the order alone is known when the code is compiled.
#[inline]
pub fn remainder_by_reciprocal(x: u64, order: u32) -> u32
    requires above { 1 < order }
    requires fits { order < 2 ^ 31 }
    requires below { x < 2 ^ 62 }
    ensures { result ≡ x % order }
{
    let shift = 64 + order.ilog2();
    let reciprocal = (1u128 << shift).div_ceil(order as u128);
    let quotient = (x as u128 * reciprocal >> shift) as u64;
    (x - quotient * order as u64) as u32
}

/// The remainder of a number of two words modulo an order: the high word, reduced, counts 2^64
/// modulo the order.
#[inline]
pub fn remainder_of_words(low: u64, high: u64, order: u32) -> u32
    requires above { 1 < order }
    requires fits { order < 2 ^ 31 }
    ensures { result ≡ (low + 2 ^ 64 * high) % order }
{
    let modulus = order as u64;
    let carry = 0xffff_ffff_ffff_ffff % modulus + 1;
    remainder_by_reciprocal(high % modulus * carry + low % modulus, order)
}

/// The remainder of a number of 128 bits modulo an order. Most short sums of products are one word.
#[inline]
pub fn remainder_of_sum(sum: u128, order: u32) -> u32
    requires above { 1 < order }
    requires fits { order < 2 ^ 31 }
    ensures { result ≡ sum % order }
{
    let low = (sum & 0xffff_ffff_ffff_ffff) as u64;
    let high = (sum >> 64) as u64;
    if high == 0 {
        (low % order as u64) as u32
    } else {
        remainder_of_words(low, high, order)
    }
}
