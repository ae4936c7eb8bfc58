//! Sums, differences, negations and halves of residues modulo an order below 2^31.
ghost use Rattle.std.specs.Prelude.{◌≡◌, ◌<◌, ◌+◌, ◌-◌, ◌%◌, ◌^◌};

/// The sum of two residues: of the sum and that less the order, wrapping, the smaller one, which vectors
/// have as one step. Modulo 2 its last bit, so that a compiler sees that doubles are zero.
#[inline]
pub fn add_words(left: u32, right: u32, order: u32) -> u32
    requires fits { order < 2 ^ 31 }
    requires left { left < order }
    requires right { right < order }
    ensures below { result < order }
    ensures value { result ≡ (left + right) % order }
{
    let sum = left + right;
    if order == 2 {
        return sum % 2;
    }
    sum.min(sum.wrapping_sub(order))
}

/// The difference of two residues: of the wrapping difference and that with the order more the smaller
/// one, which vectors have as one step.
#[inline]
pub fn subtract_words(left: u32, right: u32, order: u32) -> u32
    requires fits { order < 2 ^ 31 }
    requires left { left < order }
    requires right { right < order }
    ensures below { result < order }
    ensures value { result ≡ (left + (order - right)) % order }
{
    let difference = left.wrapping_sub(right);
    difference.min(difference.wrapping_add(order))
}

/// The negation of a residue.
#[inline]
pub fn negate_word(word: u32, order: u32) -> u32
    requires below { word < order }
    ensures below { result < order }
    ensures value { result ≡ (order - word) % order }
{
    if word == 0 { 0 } else { order - word }
}

/// The half of a residue modulo an odd order: half of the word, and half of the order more where the
/// word is odd.
#[inline]
pub fn halve_word(word: u32, order: u32) -> u32
    requires odd { order % 2 ≡ 1 }
    requires below { word < order }
    ensures below { result < order }
    ensures half { (result + result) % order ≡ word }
{
    let half = word / 2;
    if word % 2 == 0 {
        half
    } else {
        half + order / 2 + 1
    }
}
