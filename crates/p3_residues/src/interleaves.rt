//! Vectors interleaved by blocks of lanes.
ghost use Rattle.std.specs.Prelude.{◌≡◌, ℕ, ◌+◌, ◌-◌, ◌*◌, ◌/◌, ◌%◌, ◌<◌, length, slice_index};

use std::simd::prelude::*;

/// Two values as a pair, whatever their type: `interleave` pairs vectors by it.
#[inline(always)]
fn pair<T>(first: T, second: T) -> (T, T)
    ensures left { result.0 ≡ first }
    ensures right { result.1 ≡ second }
{
    (first, second)
}

/// Two vectors interleaved by blocks of L lanes. A block of the first vector with an even index and the
/// block after it go to the first and to the second answer, at the even index; so do two such blocks of
/// the second vector, at the odd index.
#[inline(always)]
fn interleave<const L: usize, const N: usize>(
    v0: Simd<u32, N>,
    v1: Simd<u32, N>,
) -> (Simd<u32, N>, Simd<u32, N>)
    requires block { 0 < L }
    requires pairs { N % (2 * L) ≡ 0 }
    ensures first_width { length result.0 ≡ N }
    ensures second_width { length result.1 ≡ N }
    ensures first_even { (i : ℕ) → i < N → i / L % 2 ≡ 0 → slice_index result.0 i ≡ slice_index v0.entry i }
    ensures first_odd { (i : ℕ) → i < N → i / L % 2 ≡ 1 → slice_index result.0 i ≡ slice_index v1.entry (i - L) }
    ensures second_even { (i : ℕ) → i < N → i / L % 2 ≡ 0 → slice_index result.1 i ≡ slice_index v0.entry (i + L) }
    ensures second_odd { (i : ℕ) → i < N → i / L % 2 ≡ 1 → slice_index result.1 i ≡ slice_index v1.entry i }
{
    let x = v0.to_array();
    let y = v1.to_array();
    let mut first = x;
    let mut second = y;
    let mut i = 0;
    'lanes: while i < N {
        if i / L % 2 == 0 {
            second[i] = x[i + L];
        } else {
            first[i] = y[i - L];
        }
        i += 1;
    }
    let even = Simd::from_array(first);
    let odd = Simd::from_array(second);
    pair(even, odd)
}

/// Two vectors interleaved by single lanes: the even blocks of both vectors in turn, and the odd blocks
/// of both in turn.
#[inline]
pub fn interleave_u32<const N: usize>(
    v0: Simd<u32, N>,
    v1: Simd<u32, N>,
) -> (Simd<u32, N>, Simd<u32, N>)
    requires pairs { N % 2 ≡ 0 }
    ensures first_width { length result.0 ≡ N }
    ensures second_width { length result.1 ≡ N }
    ensures first_even { (i : ℕ) → i < N → i % 2 ≡ 0 → slice_index result.0 i ≡ slice_index v0.entry i }
    ensures first_odd { (i : ℕ) → i < N → i % 2 ≡ 1 → slice_index result.0 i ≡ slice_index v1.entry (i - 1) }
    ensures second_even { (i : ℕ) → i < N → i % 2 ≡ 0 → slice_index result.1 i ≡ slice_index v0.entry (i + 1) }
    ensures second_odd { (i : ℕ) → i < N → i % 2 ≡ 1 → slice_index result.1 i ≡ slice_index v1.entry i }
{
    interleave::<1, N>(v0, v1)
}

/// Two vectors interleaved by blocks of two lanes: the even blocks of both vectors in turn, and the odd blocks
/// of both in turn.
#[inline]
pub fn interleave_u64<const N: usize>(
    v0: Simd<u32, N>,
    v1: Simd<u32, N>,
) -> (Simd<u32, N>, Simd<u32, N>)
    requires pairs { N % 4 ≡ 0 }
    ensures first_width { length result.0 ≡ N }
    ensures second_width { length result.1 ≡ N }
    ensures first_even { (i : ℕ) → i < N → i / 2 % 2 ≡ 0 → slice_index result.0 i ≡ slice_index v0.entry i }
    ensures first_odd { (i : ℕ) → i < N → i / 2 % 2 ≡ 1 → slice_index result.0 i ≡ slice_index v1.entry (i - 2) }
    ensures second_even { (i : ℕ) → i < N → i / 2 % 2 ≡ 0 → slice_index result.1 i ≡ slice_index v0.entry (i + 2) }
    ensures second_odd { (i : ℕ) → i < N → i / 2 % 2 ≡ 1 → slice_index result.1 i ≡ slice_index v1.entry i }
{
    interleave::<2, N>(v0, v1)
}

/// Two vectors interleaved by blocks of four lanes: the even blocks of both vectors in turn, and the odd blocks
/// of both in turn.
#[inline]
pub fn interleave_u128<const N: usize>(
    v0: Simd<u32, N>,
    v1: Simd<u32, N>,
) -> (Simd<u32, N>, Simd<u32, N>)
    requires pairs { N % 8 ≡ 0 }
    ensures first_width { length result.0 ≡ N }
    ensures second_width { length result.1 ≡ N }
    ensures first_even { (i : ℕ) → i < N → i / 4 % 2 ≡ 0 → slice_index result.0 i ≡ slice_index v0.entry i }
    ensures first_odd { (i : ℕ) → i < N → i / 4 % 2 ≡ 1 → slice_index result.0 i ≡ slice_index v1.entry (i - 4) }
    ensures second_even { (i : ℕ) → i < N → i / 4 % 2 ≡ 0 → slice_index result.1 i ≡ slice_index v0.entry (i + 4) }
    ensures second_odd { (i : ℕ) → i < N → i / 4 % 2 ≡ 1 → slice_index result.1 i ≡ slice_index v1.entry i }
{
    interleave::<4, N>(v0, v1)
}

/// Two vectors interleaved by blocks of eight lanes: the even blocks of both vectors in turn, and the odd blocks
/// of both in turn.
#[inline]
pub fn interleave_u256<const N: usize>(
    v0: Simd<u32, N>,
    v1: Simd<u32, N>,
) -> (Simd<u32, N>, Simd<u32, N>)
    requires pairs { N % 16 ≡ 0 }
    ensures first_width { length result.0 ≡ N }
    ensures second_width { length result.1 ≡ N }
    ensures first_even { (i : ℕ) → i < N → i / 8 % 2 ≡ 0 → slice_index result.0 i ≡ slice_index v0.entry i }
    ensures first_odd { (i : ℕ) → i < N → i / 8 % 2 ≡ 1 → slice_index result.0 i ≡ slice_index v1.entry (i - 8) }
    ensures second_even { (i : ℕ) → i < N → i / 8 % 2 ≡ 0 → slice_index result.1 i ≡ slice_index v0.entry (i + 8) }
    ensures second_odd { (i : ℕ) → i < N → i / 8 % 2 ≡ 1 → slice_index result.1 i ≡ slice_index v1.entry i }
{
    interleave::<8, N>(v0, v1)
}
