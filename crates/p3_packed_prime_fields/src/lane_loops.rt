//! The lanes of packings, one after the other or as vectors: an operator of the values at each lane, of two
//! packings and of a packing and one value. Loops are generic over the value under its operator alone;
//! `operators` and `scalar_operators` call them at the bench's residues.
ghost use Rattle.std.specs.Prelude.{◌≡◌, ◌<◌, ◌%◌, ◌^◌, ℕ, get_or};
ghost use Rattle.p3_theory.specs.Rings.Ring.{Invertible};
ghost use Rattle.p3_theory.specs.Rings.Multiples.{two};
ghost use Rattle.p3_theory.specs.Lanes.Interleaves.{Interleaves};
ghost use Rattle.p3_theory.specs.Lanes.RowRing.{row_ops};
ghost use Rattle.p3_packed_prime_fields.specs.Values.{packed_rows};

use crate::lane_arithmetic::LaneArithmetic;
use crate::packed::Packed;
use p3_ring::ring::PrimeCharacteristicRing;
use std::ops::{Add, Div, Neg, Sub};

/// The sum at each lane.
#[inline(always)]
pub(crate) fn add_lanes<F: LaneArithmetic<N>, const N: usize>(
    x: Packed<F, N>,
    y: Packed<F, N>,
) -> Packed<F, N>
    ensures { (d : F) (k : ℕ) → k < N → F.add_gives (get_or x.value k d) (get_or y.value k d) (get_or result.value k d) }
{
    let sums = F::lane_sums(&x.value, &y.value);
    Packed::new(sums)
}

/// The difference at each lane.
#[inline(always)]
pub(crate) fn sub_lanes<F: LaneArithmetic<N>, const N: usize>(
    x: Packed<F, N>,
    y: Packed<F, N>,
) -> Packed<F, N>
    ensures { (d : F) (k : ℕ) → k < N → F.sub_gives (get_or x.value k d) (get_or y.value k d) (get_or result.value k d) }
{
    let differences = F::lane_differences(&x.value, &y.value);
    Packed::new(differences)
}

/// The product at each lane.
#[inline(always)]
pub(crate) fn mul_lanes<F: LaneArithmetic<N>, const N: usize>(
    x: Packed<F, N>,
    y: Packed<F, N>,
) -> Packed<F, N>
    ensures { (d : F) (k : ℕ) → k < N → F.mul_gives (get_or x.value k d) (get_or y.value k d) (get_or result.value k d) }
{
    let products = F::lane_products(&x.value, &y.value);
    Packed::new(products)
}

/// The quotient at each lane.
#[inline]
pub(crate) fn div_lanes<F: Copy + Div<Output = F>, const N: usize>(
    x: Packed<F, N>,
    y: Packed<F, N>,
) -> Packed<F, N>
    requires { (d : F) (k : ℕ) → k < N → F.can_div (get_or x.value k d) (get_or y.value k d) }
    ensures { (d : F) (k : ℕ) → k < N → F.div_gives (get_or x.value k d) (get_or y.value k d) (get_or result.value k d) }
{
    let mut value = x.value;
    for i in 0..N {
        value[i] = x.value[i] / y.value[i];
    }
    Packed::new(value)
}

/// The negation at each lane.
#[inline]
pub(crate) fn neg_lanes<F: Copy + Neg<Output = F>, const N: usize>(x: Packed<F, N>) -> Packed<F, N>
    requires { (d : F) (k : ℕ) → k < N → F.can_neg (get_or x.value k d) }
    ensures { (d : F) (k : ℕ) → k < N → F.neg_gives (get_or x.value k d) (get_or result.value k d) }
{
    let mut value = x.value;
    for i in 0..N {
        value[i] = -x.value[i];
    }
    Packed::new(value)
}

/// The sum of each lane and the value y.
#[inline]
pub(crate) fn add_value<F: Copy + Add<Output = F>, const N: usize>(
    x: Packed<F, N>,
    y: F,
) -> Packed<F, N>
    requires { (d : F) (k : ℕ) → k < N → F.can_add (get_or x.value k d) y }
    ensures { (d : F) (k : ℕ) → k < N → F.add_gives (get_or x.value k d) y (get_or result.value k d) }
{
    let mut value = x.value;
    for i in 0..N {
        value[i] = x.value[i] + y;
    }
    Packed::new(value)
}

/// The difference of each lane and the value y.
#[inline]
pub(crate) fn sub_value<F: Copy + Sub<Output = F>, const N: usize>(
    x: Packed<F, N>,
    y: F,
) -> Packed<F, N>
    requires { (d : F) (k : ℕ) → k < N → F.can_sub (get_or x.value k d) y }
    ensures { (d : F) (k : ℕ) → k < N → F.sub_gives (get_or x.value k d) y (get_or result.value k d) }
{
    let mut value = x.value;
    for i in 0..N {
        value[i] = x.value[i] - y;
    }
    Packed::new(value)
}

/// The quotient of each lane and the value y.
#[inline]
pub(crate) fn div_value<F: Copy + Div<Output = F>, const N: usize>(
    x: Packed<F, N>,
    y: F,
) -> Packed<F, N>
    requires { (d : F) (k : ℕ) → k < N → F.can_div (get_or x.value k d) y }
    ensures { (d : F) (k : ℕ) → k < N → F.div_gives (get_or x.value k d) y (get_or result.value k d) }
{
    let mut value = x.value;
    for i in 0..N {
        value[i] = x.value[i] / y;
    }
    Packed::new(value)
}

/// Half of each lane.
#[inline]
pub(crate) fn halve_lanes<F: PrimeCharacteristicRing, const N: usize>(
    x: &Packed<F, N>,
) -> Packed<F, N>
    requires { Invertible (row_ops {n = N} packed_rows F.ops) (two (row_ops {n = N} packed_rows F.ops)) }
    ensures { (row_ops packed_rows F.ops).add result result ≡ x.now }
{
    let mut value = x.value;
    for i in 0..N {
        value[i] = x.value[i].halve();
    }
    Packed::new(value)
}

/// The lanes of two packings, interleaved by blocks of so many lanes.
#[inline]
pub(crate) fn interleave_lanes<F: Copy, const N: usize>(
    x: &Packed<F, N>,
    y: Packed<F, N>,
    block_len: usize,
) -> (Packed<F, N>, Packed<F, N>)
    requires size { (k : ℕ) × (N ≡ 2 ^ k) }
    requires power { (k : ℕ) × (block_len ≡ 2 ^ k) }
    requires divides { N % block_len ≡ 0 }
    ensures { Interleaves block_len N x.now.value y.value result.0.value result.1.value }
{
    if block_len == N {
        return (*x, y);
    }
    let mut first = x.value;
    let mut second = y.value;
    for i in 0..N {
        if (i / block_len) % 2 == 0 {
            first[i] = x.value[i];
            second[i] = x.value[i + block_len];
        } else {
            first[i] = y.value[i - block_len];
            second[i] = y.value[i];
        }
    }
    (Packed::new(first), Packed::new(second))
}
