//! Dot products of packings: of two to four positions at all lanes at once, or at each lane one of the values
//! there; of more four positions at a time.
ghost use Rattle.std.specs.Prelude.{◌≡◌, ◌≤◌, ◌<◌, ◌^◌, length, map, drop};
ghost use Rattle.p3_theory.specs.Rings.DotProduct.{dot};
ghost use Rattle.p3_theory.specs.Lanes.RowRing.{item, row_ops};
ghost use Rattle.p3_packed_prime_fields.specs.Values.{packed_rows};

use crate::lane_arithmetic::LaneArithmetic;
use crate::lane_dot_products::LaneDotProducts;
use crate::lane_loops::{add_lanes, mul_lanes};
use crate::packed::Packed;
use crate::wide_products::WideProducts;
use p3_ring::ring::PrimeCharacteristicRing;

/// The values of K packings at a lane.
#[inline]
fn lane_values<F: PrimeCharacteristicRing, const N: usize, const K: usize>(
    packings: &[Packed<F, N>],
    lane: usize,
) -> [F; K]
    requires count { length packings.now ≡ K }
    requires inside { lane < N }
    ensures { result ≡ map (item packed_rows F.ops lane) packings.now }
{
    let mut values = [F::zero(); K];
    for i in 0..K {
        let packing = &packings[i];
        values[i] = packing.value[lane];
    }
    values
}

/// The dot product of the values of K positions at a lane, by the lanes' own `dot_product`.
#[inline]
fn lane_dot_product<F: PrimeCharacteristicRing, const N: usize, const K: usize>(
    u: &[Packed<F, N>],
    v: &[Packed<F, N>],
    lane: usize,
) -> F
    requires left { length u.now ≡ K }
    requires right { length v.now ≡ K }
    requires inside { lane < N }
    ensures { result ≡ dot F.ops (map (item packed_rows F.ops lane) u.now) (map (item packed_rows F.ops lane) v.now) }
{
    let left = lane_values::<F, N, K>(u, lane);
    let right = lane_values::<F, N, K>(v, lane);
    F::dot_product(&left, &right)
}

/// The dot product of K packings and K others, lane by lane.
#[inline]
fn dot_by_lanes<F: PrimeCharacteristicRing, const N: usize, const K: usize>(
    u: &[Packed<F, N>],
    v: &[Packed<F, N>],
) -> Packed<F, N>
    requires left { length u.now ≡ K }
    requires right { length v.now ≡ K }
    ensures { result ≡ dot (row_ops packed_rows F.ops) u.now v.now }
{
    let mut value = [F::zero(); N];
    for lane in 0..N {
        value[lane] = lane_dot_product::<F, N, K>(u, v, lane);
    }
    Packed::new(value)
}

/// The values of K packings, packing by packing.
#[inline(always)]
fn rows_of<F: PrimeCharacteristicRing, const N: usize, const K: usize>(
    packings: &[Packed<F, N>],
) -> [[F; N]; K]
    requires { length packings.now ≡ K }
    ensures { result ≡ map (λ packing. packing.value) packings.now }
{
    let mut rows = [[F::zero(); N]; K];
    for i in 0..K {
        let packing = &packings[i];
        rows[i] = packing.value;
    }
    rows
}

/// The dot product of K packings and K others at all lanes at once, where the type has it.
#[inline(always)]
fn dot_at_once<F: LaneDotProducts<N>, const N: usize, const K: usize>(
    u: &[Packed<F, N>],
    v: &[Packed<F, N>],
) -> Packed<F, N>
    requires at_once { F.at_once }
    requires few { K ≤ 4 }
    requires left { length u.now ≡ K }
    requires right { length v.now ≡ K }
    ensures { result ≡ dot (row_ops packed_rows F.ops) u.now v.now }
{
    let left = rows_of::<F, N, K>(u);
    let right = rows_of::<F, N, K>(v);
    let sums = F::lane_dot_products(&left[..], &right[..]);
    Packed::new(sums)
}

/// The dot product of K packings and K others: at all lanes at once, or lane by lane.
#[inline(always)]
fn dot_of_few<F: LaneDotProducts<N>, const N: usize, const K: usize>(
    u: &[Packed<F, N>],
    v: &[Packed<F, N>],
) -> Packed<F, N>
    requires few { K ≤ 4 }
    requires left { length u.now ≡ K }
    requires right { length v.now ≡ K }
    ensures { result ≡ dot (row_ops packed_rows F.ops) u.now v.now }
{
    if F::at_once() {
        dot_at_once::<F, N, K>(u, v)
    } else {
        dot_by_lanes::<F, N, K>(u, v)
    }
}

/// The same, in a function that isn't taken into its callers.
#[inline(never)]
fn dot_apart<F: LaneDotProducts<N>, const N: usize, const K: usize>(
    left: &[Packed<F, N>],
    right: &[Packed<F, N>],
) -> Packed<F, N>
    requires few { K ≤ 4 }
    requires left { length left.now ≡ K }
    requires right { length right.now ≡ K }
    ensures { result ≡ dot (row_ops packed_rows F.ops) left.now right.now }
{
    dot_of_few::<F, N, K>(left, right)
}

/// The dot product of K packings and K others, by a call where it is better one (see `WideProducts`), and of
/// more than eight lanes.
#[inline(always)]
fn short_dot<F: LaneDotProducts<N> + WideProducts, const N: usize, const K: usize>(
    u: &[Packed<F, N>],
    v: &[Packed<F, N>],
) -> Packed<F, N>
    requires few { K ≤ 4 }
    requires left { length u.now ≡ K }
    requires right { length v.now ≡ K }
    ensures { result ≡ dot (row_ops packed_rows F.ops) u.now v.now }
{
    if F::WIDE || N > 8 {
        dot_apart::<F, N, K>(u, v)
    } else {
        dot_of_few::<F, N, K>(u, v)
    }
}

/// The sum so far and the products of the positions from `start` on, one after the other.
#[inline]
fn add_products<F: LaneDotProducts<N> + LaneArithmetic<N>, const N: usize>(
    sum: Packed<F, N>,
    u: &[Packed<F, N>],
    v: &[Packed<F, N>],
    start: usize,
) -> Packed<F, N>
    requires { length u.now ≡ length v.now }
    ensures { result ≡ (row_ops packed_rows F.ops).add sum (dot (row_ops packed_rows F.ops) (drop start u.now) (drop start v.now)) }
{
    let mut sum = sum;
    for i in start..u.len() {
        let product = mul_lanes(u[i], v[i]);
        sum = add_lanes(sum, product);
    }
    sum
}

/// The dot product of two slices of packings, four positions at a time, and the rest one product after the
/// other.
#[inline]
fn dot_by_blocks<F: LaneDotProducts<N> + LaneArithmetic<N>, const N: usize>(
    u: &[Packed<F, N>],
    v: &[Packed<F, N>],
) -> Packed<F, N>
    requires { length u.now ≡ length v.now }
    ensures { result ≡ dot (row_ops packed_rows F.ops) u.now v.now }
{
    let mut sum = Packed::new([F::zero(); N]);
    let mut start = 0;
    while u.len() - start >= 4 {
        let block = dot_of_few::<F, N, 4>(&u[start..start + 4], &v[start..start + 4]);
        sum = add_lanes(sum, block);
        start += 4;
    }
    add_products(sum, u, v, start)
}

/// The most packings whose products are summed up before they are reduced.
const STRIP: usize = 0x1_0000;

/// The dot product of two slices of at most `STRIP` packings: all at once where the type has it.
#[inline]
fn dot_of_strip<F: LaneDotProducts<N> + LaneArithmetic<N>, const N: usize>(
    u: &[Packed<F, N>],
    v: &[Packed<F, N>],
) -> Packed<F, N>
    requires few { length u.now ≤ 2 ^ 16 }
    requires lengths { length u.now ≡ length v.now }
    ensures { result ≡ dot (row_ops packed_rows F.ops) u.now v.now }
{
    match F::slice_dot_product(u, v) {
        Some(sum) => sum,
        None => dot_by_blocks(u, v),
    }
}

/// The dot product of two slices of packings, `STRIP` positions at a time.
#[inline(never)]
fn dot_by_strips<F: LaneDotProducts<N> + LaneArithmetic<N>, const N: usize>(
    u: &[Packed<F, N>],
    v: &[Packed<F, N>],
) -> Packed<F, N>
    requires { length u.now ≡ length v.now }
    ensures { result ≡ dot (row_ops packed_rows F.ops) u.now v.now }
{
    let mut sum = Packed::new([F::zero(); N]);
    let mut start = 0;
    while u.len() - start > STRIP {
        let strip = dot_of_strip(&u[start..start + STRIP], &v[start..start + STRIP]);
        sum = add_lanes(sum, strip);
        start += STRIP;
    }
    let last = dot_of_strip(&u[start..], &v[start..]);
    add_lanes(sum, last)
}

/// From how many positions on a dot product goes by strips.
const MANY: usize = 32;

/// The dot product of two slices of packings. Of the few positions that the formulas of extensions have a
/// type reduces the sum of their products once, and so it does at each lane. It is taken into each caller,
/// where the number of positions is known.
#[inline(always)]
pub(crate) fn packed_dot_product<
    F: LaneDotProducts<N> + LaneArithmetic<N> + WideProducts,
    const N: usize,
>(u: &[Packed<F, N>], v: &[Packed<F, N>]) -> Packed<F, N>
    requires { length u.now ≡ length v.now }
    ensures { result ≡ dot (row_ops packed_rows F.ops) u.now v.now }
{
    match u.len() {
        2 => short_dot::<F, N, 2>(u, v),
        3 => short_dot::<F, N, 3>(u, v),
        4 => short_dot::<F, N, 4>(u, v),
        count if count < MANY => dot_by_blocks(u, v),
        _ => dot_by_strips(u, v),
    }
}
