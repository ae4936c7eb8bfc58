//! Montgomery's reduction: products of words that hold residues times 2^32, modulo an odd order.
ghost use Rattle.std.specs.Prelude.{◌≡◌, ◌<◌, ◌+◌, ◌*◌, ◌%◌, ◌^◌};

use crate::remainder::remainder_of_sum;

/// What stands above 32 bits of a number less a multiple of the order that ends in the same 32 bits, and of the order
/// more there where the difference borrows.
#[inline]
fn subtract_multiple(number: u64, multiple: u64, order: u32) -> u32
    requires fits { order < 2 ^ 31 }
    requires same_end { number % 2 ^ 32 ≡ multiple % 2 ^ 32 }
    requires number { number < order * 2 ^ 32 }
    requires multiple { multiple < order * 2 ^ 32 }
    ensures below { result < order }
    ensures value { (result * 2 ^ 32 + multiple) % order ≡ number % order }
{
    let (difference, borrowed) = number.overflowing_sub(multiple);
    let back = difference.wrapping_add((order as u64) << 32);
    let kept = if borrowed { back } else { difference };
    (kept >> 32) as u32
}

/// `subtract_multiple` of a sum of products, in 128 bits: of four such differences of 64 bits, as the coefficients of a
/// product in an extension of degree 4 have them, the compiler makes vectors, which take longer.
#[inline]
fn subtract_multiple_from_sum(sum: u64, multiple: u64, order: u32) -> u32
    requires fits { order < 2 ^ 31 }
    requires same_end { sum % 2 ^ 32 ≡ multiple % 2 ^ 32 }
    requires sum { sum < order * 2 ^ 32 }
    requires multiple { multiple < order * 2 ^ 32 }
    ensures below { result < order }
    ensures value { (result * 2 ^ 32 + multiple) % order ≡ sum % order }
{
    let difference = (sum as u128).wrapping_sub(multiple as u128);
    let back = difference.wrapping_add((order as u128) << 32);
    let kept = if difference >> 127 == 1 {
        back
    } else {
        difference
    };
    (kept >> 32) as u32
}

/// `subtract_multiple` of a number below 2^33 times the order, by words of 32 bits: what stands above 32 bits, less the
/// order where that can be taken off, less what stands there in the multiple, and the order more where that borrows.
/// Vectors of 256 bits, which the compiler makes of four of them, take this in less time than differences of 64 bits.
#[inline]
fn subtract_high_word(number: u64, multiple: u64, order: u32) -> u32
    requires fits { order < 2 ^ 31 }
    requires same_end { number % 2 ^ 32 ≡ multiple % 2 ^ 32 }
    requires number { number < order * 2 ^ 33 }
    requires multiple { multiple < order * 2 ^ 32 }
    ensures below { result < order }
    ensures value { (result * 2 ^ 32 + multiple) % order ≡ number % order }
{
    let high = (number >> 32) as u32;
    let less = high.min(high.wrapping_sub(order));
    let (difference, borrowed) = less.overflowing_sub((multiple >> 32) as u32);
    if borrowed {
        difference.wrapping_add(order)
    } else {
        difference
    }
}

/// The multiple of the order, below 2^32 times it, that ends in the low 32 bits of a number. The inverse is that of the
/// order modulo 2^32.
#[inline]
fn multiple_with_end(number: u64, order: u32, inverse: u32) -> u64
    requires some { 0 < order }
    requires inverse { (order * inverse) % 2 ^ 32 ≡ 1 }
    ensures multiple { result % order ≡ 0 }
    ensures same_end { number % 2 ^ 32 ≡ result % 2 ^ 32 }
    ensures below { result < order * 2 ^ 32 }
{
    let factor = ((number & 0xffff_ffff) as u32).wrapping_mul(inverse);
    factor as u64 * order as u64
}

/// The residue that is a number below 2^32 times the order once it is multiplied by 2^32: what stands above 32 bits of
/// the number less the multiple of the order that ends in the same bits. The inverse is that of the order modulo 2^32.
#[inline]
pub fn montgomery_reduce_word(number: u64, order: u32, inverse: u32) -> u32
    requires fits { order < 2 ^ 31 }
    requires inverse { (order * inverse) % 2 ^ 32 ≡ 1 }
    requires below { number < order * 2 ^ 32 }
    ensures below { result < order }
    ensures value { (result * 2 ^ 32) % order ≡ number % order }
{
    let multiple = multiple_with_end(number, order, inverse);
    subtract_multiple(number, multiple, order)
}

/// `montgomery_reduce_word` of a sum of products.
#[inline]
pub fn montgomery_reduce_sum(sum: u64, order: u32, inverse: u32) -> u32
    requires fits { order < 2 ^ 31 }
    requires inverse { (order * inverse) % 2 ^ 32 ≡ 1 }
    requires below { sum < order * 2 ^ 32 }
    ensures below { result < order }
    ensures value { (result * 2 ^ 32) % order ≡ sum % order }
{
    let multiple = multiple_with_end(sum, order, inverse);
    subtract_multiple_from_sum(sum, multiple, order)
}

/// `montgomery_reduce_word` of a number below 2^33 times the order.
#[inline]
fn montgomery_reduce_wide(number: u64, order: u32, inverse: u32) -> u32
    requires fits { order < 2 ^ 31 }
    requires inverse { (order * inverse) % 2 ^ 32 ≡ 1 }
    requires below { number < order * 2 ^ 33 }
    ensures below { result < order }
    ensures value { (result * 2 ^ 32) % order ≡ number % order }
{
    let multiple = multiple_with_end(number, order, inverse);
    subtract_high_word(number, multiple, order)
}

/// The residue that is the product of both words once it is multiplied by 2^32.
#[inline]
pub fn montgomery_product(left: u32, right: u32, order: u32, inverse: u32) -> u32
    requires fits { order < 2 ^ 31 }
    requires inverse { (order * inverse) % 2 ^ 32 ≡ 1 }
    requires left { left < order }
    ensures below { result < order }
    ensures value { (result * 2 ^ 32) % order ≡ (left * right) % order }
{
    montgomery_reduce_word(left as u64 * right as u64, order, inverse)
}

/// The residue that a word holds: it is the word once it is multiplied by 2^32.
#[inline]
pub fn montgomery_residue(word: u32, order: u32, inverse: u32) -> u32
    requires fits { order < 2 ^ 31 }
    requires inverse { (order * inverse) % 2 ^ 32 ≡ 1 }
    requires word { word < order }
    ensures below { result < order }
    ensures value { (result * 2 ^ 32) % order ≡ word % order }
{
    montgomery_product(word, 1, order, inverse)
}

/// The residue that is a sum of 128 bits once it is multiplied by 2^32. What stands above the low 32
/// bits is reduced first; of most sums it is one word.
#[inline]
pub fn montgomery_sum(sum: u128, order: u32, inverse: u32) -> u32
    requires above { 1 < order }
    requires fits { order < 2 ^ 31 }
    requires inverse { (order * inverse) % 2 ^ 32 ≡ 1 }
    ensures below { result < order }
    ensures value { (result * 2 ^ 32) % order ≡ sum % order }
{
    let low = (sum & 0xffff_ffff) as u64;
    let high = remainder_of_sum(sum >> 32, order);
    montgomery_reduce_word(low + 0x1_0000_0000 * high as u64, order, inverse)
}

/// A sum of at most four products of residues, which is below twice 2^32 times the order, less 2^32 times the order where
/// that can be taken off.
#[inline]
fn reduce_short_sum(sum: u64, order: u32) -> u64
    requires fits { order < 2 ^ 31 }
    requires short { sum < 2 ^ 33 * order }
    ensures below { result < order * 2 ^ 32 }
    ensures value { result % order ≡ sum % order }
{
    let (less, borrowed) = sum.overflowing_sub((order as u64) << 32);
    if borrowed { sum } else { less }
}

/// The residue that is a sum of at most four products of residues once it is multiplied by 2^32.
#[inline]
pub fn montgomery_short_sum(sum: u64, order: u32, inverse: u32) -> u32
    requires fits { order < 2 ^ 31 }
    requires inverse { (order * inverse) % 2 ^ 32 ≡ 1 }
    requires short { sum < 2 ^ 33 * order }
    ensures below { result < order }
    ensures value { (result * 2 ^ 32) % order ≡ sum % order }
{
    let number = reduce_short_sum(sum, order);
    montgomery_reduce_sum(number, order, inverse)
}

/// The sum of two sums of at most four products of residues, both below twice 2^32 times the order, less that where it
/// can be taken off: the first less what the second lacks of it, and it again where that borrows.
#[inline]
fn add_short_sums(first: u64, last: u64, order: u32) -> u64
    requires fits { order < 2 ^ 31 }
    requires first { first < 2 ^ 33 * order }
    requires last { last < 2 ^ 33 * order }
    ensures below { result < order * 2 ^ 33 }
    ensures value { result % order ≡ (first + last) % order }
{
    let bound = (order as u64) << 33;
    let (less, borrowed) = first.overflowing_sub(bound - last);
    let back = less.wrapping_add(bound);
    if borrowed { back } else { less }
}

/// The residue that is what two sums of at most four products of residues add up to once it is multiplied by 2^32.
#[inline]
pub fn montgomery_pair_of_sums(first: u64, last: u64, order: u32, inverse: u32) -> u32
    requires fits { order < 2 ^ 31 }
    requires inverse { (order * inverse) % 2 ^ 32 ≡ 1 }
    requires first { first < 2 ^ 33 * order }
    requires last { last < 2 ^ 33 * order }
    ensures below { result < order }
    ensures value { (result * 2 ^ 32) % order ≡ (first + last) % order }
{
    let sum = add_short_sums(first, last, order);
    montgomery_reduce_wide(sum, order, inverse)
}
