//! Vectors of words of 32 bits as vectors of twice as many words of 16 bits, and back: those with an even index
//! are the low halves, those with an odd one the high halves.
ghost use Rattle.std.specs.Prelude.{◌≡◌, ℕ, ◌+◌, ◌*◌, ◌/◌, ◌%◌, ◌^◌, ◌<◌, length, slice_index};

use std::simd::prelude::*;

/// The halves of four words.
#[inline(always)]
pub(crate) fn halfwords_of_4(words: u32x4) -> u16x8
    ensures width { length result ≡ 8 }
    ensures even { (k : ℕ) → k < 4 → slice_index result (2 * k) ≡ slice_index words k % 2 ^ 16 }
    ensures odd { (k : ℕ) → k < 4 → slice_index result (2 * k + 1) ≡ slice_index words k / 2 ^ 16 }
{
    u16x8::from_le_bytes(words.to_le_bytes())
}

/// The halves of eight words.
#[inline(always)]
pub(crate) fn halfwords_of_8(words: u32x8) -> u16x16
    ensures width { length result ≡ 16 }
    ensures even { (k : ℕ) → k < 8 → slice_index result (2 * k) ≡ slice_index words k % 2 ^ 16 }
    ensures odd { (k : ℕ) → k < 8 → slice_index result (2 * k + 1) ≡ slice_index words k / 2 ^ 16 }
{
    u16x16::from_le_bytes(words.to_le_bytes())
}

/// The four words with these halves.
#[inline(always)]
pub(crate) fn join_halfwords_4(halves: u16x8) -> u32x4
    ensures width { length result ≡ 4 }
    ensures words { (k : ℕ) → k < 4 → slice_index result k ≡ slice_index halves (2 * k) + 2 ^ 16 * slice_index halves (2 * k + 1) }
{
    u32x4::from_le_bytes(halves.to_le_bytes())
}

/// The eight words with these halves.
#[inline(always)]
pub(crate) fn join_halfwords_8(halves: u16x16) -> u32x8
    ensures width { length result ≡ 8 }
    ensures words { (k : ℕ) → k < 8 → slice_index result k ≡ slice_index halves (2 * k) + 2 ^ 16 * slice_index halves (2 * k + 1) }
{
    u32x8::from_le_bytes(halves.to_le_bytes())
}
