//! Vectors of words of 32 bits as vectors of half as many numbers of 64 bits, and back. A pair is the word at an
//! even index plus 2^32 times the word after it.
ghost use Rattle.std.specs.Prelude.{◌≡◌, ℕ, ◌+◌, ◌*◌, ◌/◌, ◌%◌, ◌^◌, ◌<◌, length, slice_index};
ghost use Rattle.p3_kernels.specs.Pairs.{ArePairs};

use std::simd::prelude::*;

/// The pairs of four words.
#[inline(always)]
pub(crate) fn pairs_of_4(words: u32x4) -> u64x2
    ensures width { length result ≡ 2 }
    ensures pairs { ArePairs 2 words result }
{
    u64x2::from_le_bytes(words.to_le_bytes())
}

/// The pairs of eight words.
#[inline(always)]
pub(crate) fn pairs_of_8(words: u32x8) -> u64x4
    ensures width { length result ≡ 4 }
    ensures pairs { ArePairs 4 words result }
{
    u64x4::from_le_bytes(words.to_le_bytes())
}

/// The four words of two pairs.
#[inline(always)]
pub(crate) fn words_of_4(pairs: u64x2) -> u32x4
    ensures width { length result ≡ 4 }
    ensures even { (k : ℕ) → k < 2 → slice_index result (2 * k) ≡ slice_index pairs k % 2 ^ 32 }
    ensures odd { (k : ℕ) → k < 2 → slice_index result (2 * k + 1) ≡ slice_index pairs k / 2 ^ 32 }
{
    u32x4::from_le_bytes(pairs.to_le_bytes())
}

/// The eight words of four pairs.
#[inline(always)]
pub(crate) fn words_of_8(pairs: u64x4) -> u32x8
    ensures width { length result ≡ 8 }
    ensures even { (k : ℕ) → k < 4 → slice_index result (2 * k) ≡ slice_index pairs k % 2 ^ 32 }
    ensures odd { (k : ℕ) → k < 4 → slice_index result (2 * k + 1) ≡ slice_index pairs k / 2 ^ 32 }
{
    u32x8::from_le_bytes(pairs.to_le_bytes())
}

/// The low words of pairs.
#[inline(always)]
pub(crate) fn low_words<const H: usize>(pairs: Simd<u64, H>) -> Simd<u64, H>
    ensures width { length result ≡ H }
    ensures lanes { (k : ℕ) → k < H → slice_index result k ≡ slice_index pairs.entry k % 2 ^ 32 }
{
    pairs & Simd::splat(0xffff_ffff)
}

/// The high words of pairs.
#[inline(always)]
pub(crate) fn high_words<const H: usize>(pairs: Simd<u64, H>) -> Simd<u64, H>
    ensures width { length result ≡ H }
    ensures lanes { (k : ℕ) → k < H → slice_index result k ≡ slice_index pairs.entry k / 2 ^ 32 }
{
    pairs >> Simd::splat(32)
}

/// The high words of numbers as pairs: those of the first numbers low, those of the second ones high.
#[inline(always)]
pub(crate) fn pair_high_words<const H: usize>(even: Simd<u64, H>, odd: Simd<u64, H>) -> Simd<u64, H>
    ensures width { length result ≡ H }
    ensures lanes { (k : ℕ) → k < H → slice_index result k ≡ slice_index even.entry k / 2 ^ 32 + 2 ^ 32 * (slice_index odd.entry k / 2 ^ 32) }
{
    let low = even >> Simd::splat(32);
    let high = odd >> Simd::splat(32);
    low + (high << Simd::splat(32))
}
