//! Sums and differences modulo p on the lanes of vectors, and on arrays of residues.
ghost use Rattle.std.specs.Prelude.{◌≡◌, ℕ, ◌+◌, ◌-◌, ◌%◌, ◌^◌, ◌<◌, ◌≤◌, length, slice_index};

use std::simd::prelude::*;

/// The sum modulo p, lane by lane, of vectors with N lanes.
#[inline(always)]
fn mod_add<const N: usize>(a: Simd<u32, N>, b: Simd<u32, N>, p: Simd<u32, N>) -> Simd<u32, N>
    requires order { (k : ℕ) → k < N → slice_index p k ≤ 2 ^ 31 }
    requires left { (k : ℕ) → k < N → slice_index a k < slice_index p k }
    requires right { (k : ℕ) → k < N → slice_index b k < slice_index p k }
    ensures width { length result ≡ N }
    ensures lanes { (k : ℕ) → k < N
        → slice_index result k ≡ (slice_index a.entry k + slice_index b.entry k) % slice_index p.entry k }
{
    let t = a + b;
    let u = t - p;
    t.simd_min(u)
}

/// The difference modulo p, lane by lane, of vectors with N lanes.
#[inline(always)]
fn mod_sub<const N: usize>(a: Simd<u32, N>, b: Simd<u32, N>, p: Simd<u32, N>) -> Simd<u32, N>
    requires order { (k : ℕ) → k < N → slice_index p k ≤ 2 ^ 31 }
    requires left { (k : ℕ) → k < N → slice_index a k < slice_index p k }
    requires right { (k : ℕ) → k < N → slice_index b k < slice_index p k }
    ensures width { length result ≡ N }
    ensures lanes { (k : ℕ) → k < N
        → slice_index result k ≡ (slice_index a.entry k + (slice_index p.entry k - slice_index b.entry k)) % slice_index p.entry k }
{
    let t = a - b;
    let u = t + p;
    t.simd_min(u)
}

/// The sum modulo p in each of four lanes. Each lane of `p` is at most 2^31 and above the lanes of
/// both vectors.
#[inline(always)]
pub fn uint32x4_mod_add(a: u32x4, b: u32x4, p: u32x4) -> u32x4
    requires order { (k : ℕ) → k < 4 → slice_index p k ≤ 2 ^ 31 }
    requires left { (k : ℕ) → k < 4 → slice_index a k < slice_index p k }
    requires right { (k : ℕ) → k < 4 → slice_index b k < slice_index p k }
    ensures width { length result ≡ 4 }
    ensures lanes { (k : ℕ) → k < 4 → slice_index result k ≡ (slice_index a k + slice_index b k) % slice_index p k }
{
    mod_add::<4>(a, b, p)
}

/// The difference modulo p in each of four lanes. Each lane of `p` is at most 2^31 and above the lanes of
/// both vectors.
#[inline(always)]
pub fn uint32x4_mod_sub(a: u32x4, b: u32x4, p: u32x4) -> u32x4
    requires order { (k : ℕ) → k < 4 → slice_index p k ≤ 2 ^ 31 }
    requires left { (k : ℕ) → k < 4 → slice_index a k < slice_index p k }
    requires right { (k : ℕ) → k < 4 → slice_index b k < slice_index p k }
    ensures width { length result ≡ 4 }
    ensures lanes { (k : ℕ) → k < 4 → slice_index result k ≡ (slice_index a k + (slice_index p k - slice_index b k)) % slice_index p k }
{
    mod_sub::<4>(a, b, p)
}

/// The sum modulo p in each of eight lanes. Each lane of `p` is at most 2^31 and above the lanes of
/// both vectors.
#[inline(always)]
pub fn mm256_mod_add(lhs: u32x8, rhs: u32x8, p: u32x8) -> u32x8
    requires order { (k : ℕ) → k < 8 → slice_index p k ≤ 2 ^ 31 }
    requires left { (k : ℕ) → k < 8 → slice_index lhs k < slice_index p k }
    requires right { (k : ℕ) → k < 8 → slice_index rhs k < slice_index p k }
    ensures width { length result ≡ 8 }
    ensures lanes { (k : ℕ) → k < 8 → slice_index result k ≡ (slice_index lhs k + slice_index rhs k) % slice_index p k }
{
    mod_add::<8>(lhs, rhs, p)
}

/// The difference modulo p in each of eight lanes. Each lane of `p` is at most 2^31 and above the lanes of
/// both vectors.
#[inline(always)]
pub fn mm256_mod_sub(lhs: u32x8, rhs: u32x8, p: u32x8) -> u32x8
    requires order { (k : ℕ) → k < 8 → slice_index p k ≤ 2 ^ 31 }
    requires left { (k : ℕ) → k < 8 → slice_index lhs k < slice_index p k }
    requires right { (k : ℕ) → k < 8 → slice_index rhs k < slice_index p k }
    ensures width { length result ≡ 8 }
    ensures lanes { (k : ℕ) → k < 8 → slice_index result k ≡ (slice_index lhs k + (slice_index p k - slice_index rhs k)) % slice_index p k }
{
    mod_sub::<8>(lhs, rhs, p)
}

/// The sum modulo p in each of sixteen lanes. Each lane of `p` is at most 2^31 and above the lanes of
/// both vectors.
#[inline(always)]
pub fn mm512_mod_add(lhs: u32x16, rhs: u32x16, p: u32x16) -> u32x16
    requires order { (k : ℕ) → k < 16 → slice_index p k ≤ 2 ^ 31 }
    requires left { (k : ℕ) → k < 16 → slice_index lhs k < slice_index p k }
    requires right { (k : ℕ) → k < 16 → slice_index rhs k < slice_index p k }
    ensures width { length result ≡ 16 }
    ensures lanes { (k : ℕ) → k < 16 → slice_index result k ≡ (slice_index lhs k + slice_index rhs k) % slice_index p k }
{
    mod_add::<16>(lhs, rhs, p)
}

/// The difference modulo p in each of sixteen lanes. Each lane of `p` is at most 2^31 and above the lanes of
/// both vectors.
#[inline(always)]
pub fn mm512_mod_sub(lhs: u32x16, rhs: u32x16, p: u32x16) -> u32x16
    requires order { (k : ℕ) → k < 16 → slice_index p k ≤ 2 ^ 31 }
    requires left { (k : ℕ) → k < 16 → slice_index lhs k < slice_index p k }
    requires right { (k : ℕ) → k < 16 → slice_index rhs k < slice_index p k }
    ensures width { length result ≡ 16 }
    ensures lanes { (k : ℕ) → k < 16 → slice_index result k ≡ (slice_index lhs k + (slice_index p k - slice_index rhs k)) % slice_index p k }
{
    mod_sub::<16>(lhs, rhs, p)
}

/// Writes the sum modulo p of each entry of `a` and that of `b` at its index into `res`: by blocks of
/// eight and of four lanes, and what is left by `scalar_add`, which adds modulo p. The entries are
/// below p, and p is at most 2^31.
#[inline(always)]
pub fn packed_mod_add<const WIDTH: usize, S: Fn(u32, u32) -> u32>(
    a: &[u32; WIDTH],
    b: &[u32; WIDTH],
    res: &mut [u32; WIDTH],
    p: u32,
    scalar_add: S,
)
    requires order { p ≤ 2 ^ 31 }
    requires left { (k : ℕ) → k < WIDTH → slice_index a.now k < p }
    requires right { (k : ℕ) → k < WIDTH → slice_index b.now k < p }
    requires callable { (x y : ℕ) → x < p → y < p → S.pre scalar_add x y }
    requires adds { (x y r : ℕ) → x < p → y < p → S.post scalar_add x y r → r ≡ (x + y) % p }
    ensures length { length res.new ≡ WIDTH }
    ensures lanes { (k : ℕ) → k < WIDTH → slice_index res.new k ≡ (slice_index a.now k + slice_index b.now k) % p }
{
    let (a, b, res) = (&a[..], &b[..], &mut res[..]);
    let mut i = 0;
    'eights: while WIDTH - i >= 8 {
        let x = u32x8::from_slice(&a[i..]);
        let y = u32x8::from_slice(&b[i..]);
        let sums = mm256_mod_add(x, y, u32x8::splat(p));
        sums.copy_to_slice(&mut res[i..]);
        i += 8;
    }
    'fours: while WIDTH - i >= 4 {
        let x = u32x4::from_slice(&a[i..]);
        let y = u32x4::from_slice(&b[i..]);
        let last_sums = uint32x4_mod_add(x, y, u32x4::splat(p));
        last_sums.copy_to_slice(&mut res[i..]);
        i += 4;
    }
    'rest: while i < WIDTH {
        res[i] = scalar_add(a[i], b[i]);
        i += 1;
    }
}

/// Writes the difference modulo p of each entry of `a` and that of `b` at its index into `res`: by blocks of
/// eight and of four lanes, and what is left by `scalar_sub`, which subtracts modulo p. The entries are
/// below p, and p is at most 2^31.
#[inline(always)]
pub fn packed_mod_sub<const WIDTH: usize, S: Fn(u32, u32) -> u32>(
    a: &[u32; WIDTH],
    b: &[u32; WIDTH],
    res: &mut [u32; WIDTH],
    p: u32,
    scalar_sub: S,
)
    requires order { p ≤ 2 ^ 31 }
    requires left { (k : ℕ) → k < WIDTH → slice_index a.now k < p }
    requires right { (k : ℕ) → k < WIDTH → slice_index b.now k < p }
    requires callable { (x y : ℕ) → x < p → y < p → S.pre scalar_sub x y }
    requires subtracts { (x y r : ℕ) → x < p → y < p → S.post scalar_sub x y r → r ≡ (x + (p - y)) % p }
    ensures length { length res.new ≡ WIDTH }
    ensures lanes { (k : ℕ) → k < WIDTH → slice_index res.new k ≡ (slice_index a.now k + (p - slice_index b.now k)) % p }
{
    let (a, b, res) = (&a[..], &b[..], &mut res[..]);
    let mut i = 0;
    'eights: while WIDTH - i >= 8 {
        let x = u32x8::from_slice(&a[i..]);
        let y = u32x8::from_slice(&b[i..]);
        let differences = mm256_mod_sub(x, y, u32x8::splat(p));
        differences.copy_to_slice(&mut res[i..]);
        i += 8;
    }
    'fours: while WIDTH - i >= 4 {
        let x = u32x4::from_slice(&a[i..]);
        let y = u32x4::from_slice(&b[i..]);
        let last_differences = uint32x4_mod_sub(x, y, u32x4::splat(p));
        last_differences.copy_to_slice(&mut res[i..]);
        i += 4;
    }
    'rest: while i < WIDTH {
        res[i] = scalar_sub(a[i], b[i]);
        i += 1;
    }
}
