//! Sums of scaled rows of packings, column by column.
ghost use Rattle.std.specs.Prelude.{◌≡◌, ◌<◌, ◌≤◌, List, length, map, get_or};
ghost use Rattle.std.specs.Iterator.{IsFinite, Drains};
ghost use Rattle.p3_theory.specs.Rings.ColumnwiseProducts.{add_scaled_row, add_scaled_rows};
ghost use Rattle.p3_packing_traits.specs.CoefficientSums.{add_coefficient_products, coefficient_sums};

use p3_field_traits::field::Field;
use p3_field_traits::packed_traits::PackedField;
use p3_ring::ring::{Algebra, PrimeCharacteristicRing};
use std::convert::AsSlice;

/// What lends itself as N values, as an array of N does. This project's own: an array of a type
/// parameter cannot be lent where none is passed in.
pub trait AsRow<T, const N: usize> {
    /// The values that are lent.
    ghost entries: { Self → List T };

    /// The N values.
    fn as_row(&self) -> &[T]
        ensures value { result.now ≡ entries self.now }
        ensures whole { length result.now ≡ N };
}

impl<T, const N: usize> AsRow<T, N> for [T; N] {
    ghost entries = { λ x. x };

    #[inline]
    fn as_row(&self) -> &[T] {
        self
    }
}

/// An element as a value of an algebra over its ring.
#[inline]
fn spread_at<EF: PrimeCharacteristicRing, PE: Algebra<EF>>(scales: &[EF], j: usize) -> PE
    requires { j < length scales.now }
    ensures { (e : EF) → result ≡ PE.embed (get_or scales.now j e) }
{
    PE::from(scales[j])
}

/// The N elements as values of an algebra over their ring.
#[inline]
fn spread<EF: PrimeCharacteristicRing, PE: Algebra<EF>, const N: usize>(scales: &[EF]) -> [PE; N]
    requires { length scales.now ≡ N }
    ensures { result ≡ map PE.embed scales.now }
{
    std::array::from_fn(
        |j: usize| -> PE
            requires index { j < length scales.now }
            ensures entry { (e : EF) → result ≡ PE.embed (get_or scales.entry.now j e) }
            ensures kept { scales.exit ≡ scales.entry }
        { spread_at::<EF, PE>(scales, j) },
    )
}

/// Adds `scales[j] * row[c]` to accumulator `c*N + j`, for each index c of the row that has a
/// whole group of N accumulators.
#[inline]
fn add_scaled_row<P: PrimeCharacteristicRing, PE: Algebra<P>, const N: usize>(
    acc: &mut [PE],
    row: &[P],
    scales: [PE; N],
)
    requires groups { 0 < N }
    ensures { acc.new ≡ add_scaled_row PE.ops PE.embed N acc.old row.now scales }
{
    let groups = (acc.len() / N).min(row.len());
    let mut index = 0;
    for c in 0..groups {
        for j in 0..N {
            let product = scales[j] * row[c];
            acc[index] += product;
            index += 1;
        }
    }
}

/// `add_scaled_row` with scales that are brought into the algebra first, where there is a group of
/// N accumulators.
#[inline]
#[tactic(auto, using(crate::specs::ColumnGroups::no_group))]
fn spread_and_add<P, EF, PE, const N: usize>(acc: &mut [PE], row: &[P], scales: &[EF])
where
    P: PrimeCharacteristicRing,
    EF: PrimeCharacteristicRing,
    PE: Algebra<P> + Algebra<EF>,
    requires groups { 0 < N }
    requires scales { length scales.now ≡ N }
    ensures { acc.new ≡ add_scaled_row PE.ops ⟦<PE as Algebra<P>>⟧.embed N acc.old row.now (map ⟦<PE as Algebra<EF>>⟧.embed scales.now) }
{
    if N <= acc.len() {
        let spread = spread::<EF, PE, N>(scales);
        add_scaled_row::<P, PE, N>(acc, row, spread);
    }
}

/// For each item, a row and its N scales, adds `scales[j] * row[c]` to accumulator `c*N + j`. N is
/// at least one, and the iterator ends. The accumulators are an algebra over the ring of the rows'
/// entries and over the ring of the scales, as packed extension values are over packings and over
/// extension values; each scale is brought into the algebra once for each item. Accumulators past
/// the last whole group of N, and past the end of a short row, stay. Upstream's
/// `generic_batched_columnwise_dot_product`.
#[inline]
pub fn generic_batched_columnwise_dot_product<P, EF, PE, R, S, I, const N: usize>(
    acc: &mut [PE],
    items: I,
)
where
    P: PrimeCharacteristicRing,
    EF: PrimeCharacteristicRing,
    PE: Algebra<P> + Algebra<EF>,
    R: AsSlice<P> + Drop,
    S: AsRow<EF, N> + Drop,
    I: Iterator<Item = (R, S)> + Drop,
    requires groups { 0 < N }
    requires can { I.can_next items }
    requires ends { IsFinite (I.remaining items) }
    ensures ran { (xs : List (R × S)) × Drains I.next_gives items xs × (acc.new ≡ add_scaled_rows PE.ops ⟦<PE as Algebra<P>>⟧.embed N acc.old (map (λ x. (R.items x.0, map ⟦<PE as Algebra<EF>>⟧.embed (S.entries x.1))) xs)) }
{
    for (row, scales) in items {
        spread_and_add::<P, EF, PE, N>(acc, row.as_slice(), scales.as_row());
    }
}

/// `generic_batched_columnwise_dot_product` over packings, extension values and packed extension
/// values. Upstream's `batched_columnwise_dot_product`.
#[inline]
pub fn batched_columnwise_dot_product<P, EF, PE, R, S, I, const N: usize>(acc: &mut [PE], items: I)
where
    P: PrimeCharacteristicRing,
    EF: PrimeCharacteristicRing,
    PE: Algebra<P> + Algebra<EF>,
    R: AsSlice<P> + Drop,
    S: AsRow<EF, N> + Drop,
    I: Iterator<Item = (R, S)> + Drop,
    requires groups { 0 < N }
    requires can { I.can_next items }
    requires ends { IsFinite (I.remaining items) }
    ensures ran { (xs : List (R × S)) × Drains I.next_gives items xs × (acc.new ≡ add_scaled_rows PE.ops ⟦<PE as Algebra<P>>⟧.embed N acc.old (map (λ x. (R.items x.0, map ⟦<PE as Algebra<EF>>⟧.embed (S.entries x.1))) xs)) }
{
    generic_batched_columnwise_dot_product::<P, EF, PE, R, S, I, N>(acc, items);
}

/// Adds coefficient i of the slice times the scale to entry i, for each i below d that the slice has.
#[inline]
fn add_scaled_coefficients<P: PrimeCharacteristicRing>(
    acc: [P; 8],
    d: usize,
    coeffs: &[P],
    scale: P,
) -> [P; 8]
    requires { d ≤ 8 }
    ensures { result ≡ add_coefficient_products P.ops d acc coeffs.now scale }
{
    let mut sums = acc;
    for i in 0..d.min(coeffs.len()) {
        let product = coeffs[i] * scale;
        let sum = sums[i] + product;
        sums[i] = sum;
    }
    sums
}

/// Entry i below d is the sum over the pairs, each a slice of coefficients and a packing, of
/// coefficient i times the packing; a slice has zero past its end, and entries from d on are zero.
/// Upstream's `coeffwise_dot_product`.
#[inline]
pub fn coeffwise_dot_product<F, P, R, I>(d: usize, pairs: I) -> [P; 8]
where
    F: Field,
    P: PackedField<F>,
    R: AsSlice<P> + Drop,
    I: Iterator<Item = (R, P)> + Drop,
    requires few { d ≤ 8 }
    requires can { I.can_next pairs }
    requires ends { IsFinite (I.remaining pairs) }
    ensures ran { (xs : List (R × P)) × Drains I.next_gives pairs xs × (result ≡ coefficient_sums P.ops d (map (λ x. (R.items x.0, x.1)) xs)) }
{
    let mut acc = [P::zero(); 8];
    for (coeffs, scale) in pairs {
        acc = add_scaled_coefficients(acc, d, coeffs.as_slice(), scale);
    }
    acc
}
