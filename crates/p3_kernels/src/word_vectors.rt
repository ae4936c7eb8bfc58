//! Vectors of words by their lanes: as pairs, and as what numbers of 64 bits are reduced to.
ghost use Rattle.std.specs.Prelude.{◌≡◌, ℕ, ◌+◌, ◌*◌, ◌%◌, ◌^◌, ◌<◌, length, slice_index};
ghost use Rattle.p3_kernels.specs.Pairs.{ArePairs};
ghost use Rattle.p3_kernels.specs.Words.{AreBelow};

use crate::lane_reductions::{reduce_4, reduce_8};
use crate::word_pairs::{pairs_of_4, pairs_of_8};
use std::simd::prelude::*;

/// Vectors of L words, which are 2 H.
pub(crate) trait WordVectors<const L: usize, const H: usize> {
    /// The pairs of the words.
    fn pairs(words: Simd<u32, L>) -> Simd<u64, H>
        ensures width { length result ≡ H }
        ensures pairs { ArePairs H words.entry result };

    /// The residues that are numbers below 2^32 times the order once they are multiplied by 2^32: those of the first
    /// numbers in the even lanes, those of the others in the odd ones.
    fn reduced(even: Simd<u64, H>, odd: Simd<u64, H>, order: u32, inverse: u32) -> Simd<u32, L>
        requires fits { order < 2 ^ 31 }
        requires inverse { (order * inverse) % 2 ^ 32 ≡ 1 }
        requires even { AreBelow H (order * 2 ^ 32) even }
        requires odd { AreBelow H (order * 2 ^ 32) odd }
        ensures width { length result ≡ L }
        ensures below { AreBelow L order result }
        ensures even { (k : ℕ) → k < H → (slice_index result (2 * k) * 2 ^ 32) % order ≡ slice_index even.entry k % order }
        ensures odd { (k : ℕ) → k < H → (slice_index result (2 * k + 1) * 2 ^ 32) % order ≡ slice_index odd.entry k % order };
}

/// Vectors of four words.
pub(crate) struct FourWords;

impl WordVectors<4, 2> for FourWords {
    #[inline(always)]
    fn pairs(words: u32x4) -> u64x2
        ensures width { length result ≡ 2 }
        ensures pairs { ArePairs 2 words result }
    {
        pairs_of_4(words)
    }

    #[inline(always)]
    fn reduced(even: u64x2, odd: u64x2, order: u32, inverse: u32) -> u32x4
        requires fits { order < 2 ^ 31 }
        requires inverse { (order * inverse) % 2 ^ 32 ≡ 1 }
        requires even { AreBelow 2 (order * 2 ^ 32) even }
        requires odd { AreBelow 2 (order * 2 ^ 32) odd }
        ensures width { length result ≡ 4 }
        ensures below { AreBelow 4 order result }
        ensures even { (k : ℕ) → k < 2 → (slice_index result (2 * k) * 2 ^ 32) % order ≡ slice_index even k % order }
        ensures odd { (k : ℕ) → k < 2 → (slice_index result (2 * k + 1) * 2 ^ 32) % order ≡ slice_index odd k % order }
    {
        reduce_4(even, odd, order, inverse)
    }
}

/// Vectors of eight words.
pub(crate) struct EightWords;

impl WordVectors<8, 4> for EightWords {
    #[inline(always)]
    fn pairs(words: u32x8) -> u64x4
        ensures width { length result ≡ 4 }
        ensures pairs { ArePairs 4 words result }
    {
        pairs_of_8(words)
    }

    #[inline(always)]
    fn reduced(even: u64x4, odd: u64x4, order: u32, inverse: u32) -> u32x8
        requires fits { order < 2 ^ 31 }
        requires inverse { (order * inverse) % 2 ^ 32 ≡ 1 }
        requires even { AreBelow 4 (order * 2 ^ 32) even }
        requires odd { AreBelow 4 (order * 2 ^ 32) odd }
        ensures width { length result ≡ 8 }
        ensures below { AreBelow 8 order result }
        ensures even { (k : ℕ) → k < 4 → (slice_index result (2 * k) * 2 ^ 32) % order ≡ slice_index even k % order }
        ensures odd { (k : ℕ) → k < 4 → (slice_index result (2 * k + 1) * 2 ^ 32) % order ≡ slice_index odd k % order }
    {
        reduce_8(even, odd, order, inverse)
    }
}
