//! Montgomery's reduction of numbers of 64 bits on lanes: of those that belong to the even and of those that belong to the
//! odd lanes of a vector of words.
ghost use Rattle.std.specs.Prelude.{◌≡◌, ℕ, ◌+◌, ◌*◌, ◌%◌, ◌^◌, ◌<◌, length, slice_index};
ghost use Rattle.p3_kernels.specs.Pairs.{multiple};
ghost use Rattle.p3_kernels.specs.Words.{AreBelow};

use crate::word_pairs::{pair_high_words, words_of_4, words_of_8};
use p3_residues::mod_arithmetic::{mm256_mod_sub, uint32x4_mod_sub};
use std::simd::prelude::*;

/// The multiples of the order that end in the same 32 bits as the numbers, if `inverse` is that of the order
/// modulo 2^32.
#[inline(always)]
fn multiples<const H: usize>(numbers: Simd<u64, H>, order: u64, inverse: u64) -> Simd<u64, H>
    requires { order < 2 ^ 31 }
    ensures width { length result ≡ H }
    ensures lanes { (k : ℕ) → k < H → slice_index result k ≡ multiple order inverse (slice_index numbers.entry k) }
{
    let low = Simd::splat(0xffff_ffff);
    let factors = (numbers & low) * Simd::splat(inverse) & low;
    factors * Simd::splat(order)
}

/// The numbers with the multiples of the order by which their low 32 bits are zero, if `negated` is minus the
/// inverse of the order modulo 2^32.
#[inline(always)]
fn with_multiples<const H: usize>(numbers: Simd<u64, H>, order: u64, negated: u64) -> Simd<u64, H>
    requires fits { order < 2 ^ 31 }
    requires below { AreBelow H (order * 2 ^ 32) numbers }
    ensures width { length result ≡ H }
    ensures lanes { (k : ℕ) → k < H → slice_index result k ≡ slice_index numbers.entry k + multiple order negated (slice_index numbers.entry k) }
{
    let ends = multiples::<H>(numbers, order, negated);
    numbers + ends
}

/// Words below twice the order, modulo the order: of each word and that less the order, wrapping, the
/// smaller one.
#[inline(always)]
fn reduce_once<const N: usize>(words: Simd<u32, N>, order: u32) -> Simd<u32, N>
    requires fits { order < 2 ^ 31 }
    requires below { AreBelow N (order + order) words }
    ensures width { length result ≡ N }
    ensures lanes { (k : ℕ) → k < N → slice_index result k ≡ slice_index words.entry k % order }
{
    let less = words - Simd::splat(order);
    words.simd_min(less)
}

/// In four lanes the residues that are numbers below 2^32 times the order once they are multiplied by 2^32.
#[inline(always)]
pub(crate) fn reduce_4(even: u64x2, odd: u64x2, order: u32, inverse: u32) -> u32x4
    requires fits { order < 2 ^ 31 }
    requires inverse { (order * inverse) % 2 ^ 32 ≡ 1 }
    requires even { AreBelow 2 (order * 2 ^ 32) even }
    requires odd { AreBelow 2 (order * 2 ^ 32) odd }
    ensures width { length result ≡ 4 }
    ensures below { AreBelow 4 order result }
    ensures even { (k : ℕ) → k < 2 → (slice_index result (2 * k) * 2 ^ 32) % order ≡ slice_index even k % order }
    ensures odd { (k : ℕ) → k < 2 → (slice_index result (2 * k + 1) * 2 ^ 32) % order ≡ slice_index odd k % order }
{
    let prime = order as u64;
    let negated = 0u32.wrapping_sub(inverse) as u64;
    let even_sums = with_multiples::<2>(even, prime, negated);
    let odd_sums = with_multiples::<2>(odd, prime, negated);
    let highs = pair_high_words::<2>(even_sums, odd_sums);
    let words = words_of_4(highs);
    reduce_once::<4>(words, order)
}

/// In eight lanes the residues that are numbers below 2^32 times the order once they are multiplied by 2^32.
#[inline(always)]
pub(crate) fn reduce_8(even: u64x4, odd: u64x4, order: u32, inverse: u32) -> u32x8
    requires fits { order < 2 ^ 31 }
    requires inverse { (order * inverse) % 2 ^ 32 ≡ 1 }
    requires even { AreBelow 4 (order * 2 ^ 32) even }
    requires odd { AreBelow 4 (order * 2 ^ 32) odd }
    ensures width { length result ≡ 8 }
    ensures below { AreBelow 8 order result }
    ensures even { (k : ℕ) → k < 4 → (slice_index result (2 * k) * 2 ^ 32) % order ≡ slice_index even k % order }
    ensures odd { (k : ℕ) → k < 4 → (slice_index result (2 * k + 1) * 2 ^ 32) % order ≡ slice_index odd k % order }
{
    let prime = order as u64;
    let negated = 0u32.wrapping_sub(inverse) as u64;
    let even_sums = with_multiples::<4>(even, prime, negated);
    let odd_sums = with_multiples::<4>(odd, prime, negated);
    let highs = pair_high_words::<4>(even_sums, odd_sums);
    let words = words_of_8(highs);
    reduce_once::<8>(words, order)
}

/// In four lanes the residues that are sums of at most four products of residues once they are multiplied by
/// 2^32.
#[inline(always)]
pub(crate) fn reduce_short_sums_4(even: u64x2, odd: u64x2, order: u32, inverse: u32) -> u32x4
    requires fits { order < 2 ^ 31 }
    requires inverse { (order * inverse) % 2 ^ 32 ≡ 1 }
    requires even { AreBelow 2 (2 ^ 33 * order) even }
    requires odd { AreBelow 2 (2 ^ 33 * order) odd }
    ensures width { length result ≡ 4 }
    ensures below { AreBelow 4 order result }
    ensures even { (k : ℕ) → k < 2 → (slice_index result (2 * k) * 2 ^ 32) % order ≡ slice_index even k % order }
    ensures odd { (k : ℕ) → k < 2 → (slice_index result (2 * k + 1) * 2 ^ 32) % order ≡ slice_index odd k % order }
{
    let highs = pair_high_words::<2>(even, odd);
    let words = words_of_4(highs);
    let residues = reduce_once::<4>(words, order);
    let even_multiples = multiples::<2>(even, order as u64, inverse as u64);
    let odd_multiples = multiples::<2>(odd, order as u64, inverse as u64);
    let lows = pair_high_words::<2>(even_multiples, odd_multiples);
    let ends = words_of_4(lows);
    uint32x4_mod_sub(residues, ends, Simd::splat(order))
}

/// In eight lanes the residues that are sums of at most four products of residues once they are multiplied by
/// 2^32.
#[inline(always)]
pub(crate) fn reduce_short_sums_8(even: u64x4, odd: u64x4, order: u32, inverse: u32) -> u32x8
    requires fits { order < 2 ^ 31 }
    requires inverse { (order * inverse) % 2 ^ 32 ≡ 1 }
    requires even { AreBelow 4 (2 ^ 33 * order) even }
    requires odd { AreBelow 4 (2 ^ 33 * order) odd }
    ensures width { length result ≡ 8 }
    ensures below { AreBelow 8 order result }
    ensures even { (k : ℕ) → k < 4 → (slice_index result (2 * k) * 2 ^ 32) % order ≡ slice_index even k % order }
    ensures odd { (k : ℕ) → k < 4 → (slice_index result (2 * k + 1) * 2 ^ 32) % order ≡ slice_index odd k % order }
{
    let highs = pair_high_words::<4>(even, odd);
    let words = words_of_8(highs);
    let residues = reduce_once::<8>(words, order);
    let even_multiples = multiples::<4>(even, order as u64, inverse as u64);
    let odd_multiples = multiples::<4>(odd, order as u64, inverse as u64);
    let lows = pair_high_words::<4>(even_multiples, odd_multiples);
    let ends = words_of_8(lows);
    mm256_mod_sub(residues, ends, Simd::splat(order))
}
