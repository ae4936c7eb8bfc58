//! Helpers on slices, arrays and words, and sums over iterators.

ghost use Rattle.std.specs.Prelude.{◌≡◌, ◌+◌, ◌-◌, ◌*◌, ◌<◌, ◌≤◌, ◌∷◌, length, map, take, drop, replicate, slice_range};
ghost use Rattle.std.specs.Iterator.{IsFinite, count_min};
ghost use Rattle.p3_ring.specs.BoundedSequence.{terms};
ghost use Rattle.p3_theory.specs.Rings.DotProduct.{dot};
ghost use Rattle.p3_theory.specs.Rings.GeometricSequence.{geometric_sequence};
ghost use Rattle.p3_theory.specs.Polynomials.HornerFold.{eval_from};
ghost use Rattle.p3_theory.specs.Rings.Powers.{eval};
ghost use Rattle.p3_theory.specs.Lists.PairedLists.{zip_with};
ghost use Rattle.p3_helpers.specs.BackwardRuns.{RunsBackward, IfYieldsBackward};
ghost use Rattle.p3_helpers.specs.PairedRuns.{RunInPairs, IfBothYield};

use p3_field_traits::field::Field;
use p3_field_traits::packed_traits::{PackedField, PackedValue};
use p3_ring::powers::BoundedPowers;
use p3_ring::ring::{Algebra, PrimeCharacteristicRing, RingSums};
use std::mem::size_of_val;

/// From how many coefficients on Horner's rule goes in four strands, by values of up to eight bytes.
const STRANDS_FROM: usize = 16;

/// The same by longer values.
const STRANDS_FROM_WIDE: usize = 128;

/// How many products are written before they are added to a slice.
const CHUNK: usize = 64;

/// The powers of `generator` from one on, `order` of them. Where the order is that of the generator
/// they are the subgroup that it generates. Upstream's `cyclic_subgroup_known_order`.
#[inline]
pub fn cyclic_subgroup_known_order<F: Field>(generator: F, order: usize) -> BoundedPowers<F>
    ensures { terms F.ops result ≡ geometric_sequence F.ops generator F.ops.one order }
{
    generator.powers().take(order)
}

/// `shift` times the powers of `generator` from one on, `order` of them. Where the order is that
/// of the generator they are a coset of the subgroup that it generates. Upstream's
/// `cyclic_subgroup_coset_known_order`.
#[inline]
pub fn cyclic_subgroup_coset_known_order<F: Field>(
    generator: F,
    shift: F,
    order: usize,
) -> BoundedPowers<F>
    ensures { terms F.ops result ≡ geometric_sequence F.ops generator shift order }
{
    generator.shifted_powers(shift).take(order)
}

/// Multiplies each entry of the slice by `s`, one after the other. This project's own.
#[inline]
fn scale_entries<F: Field>(slice: &mut [F], s: F)
    ensures { slice.new ≡ map (λ x. F.ops.mul x s) slice.old }
{
    for x in slice.iter_mut() {
        *x *= s;
    }
}

/// Multiplies each entry of the slice by `s`, in packings by one that has `s` in all lanes, and the rest
/// entry by entry. It isn't taken into its callers: where the compiler sees that all lanes of a factor are
/// one value, it takes products in Montgomery's form out of the vectors. This project's own.
#[inline(never)]
fn scale_by_packing<F: Field, P: PackedField<F>>(slice: &mut [F], factor: P, s: F)
    requires { factor ≡ P.embed s }
    ensures { slice.new ≡ map (λ x. F.ops.mul x s) slice.old }
{
    let groups = slice.len() / P::WIDTH;
    for i in 0..groups {
        let product = P::load_block(slice, i) * factor;
        product.store_block(slice, i);
    }
    scale_entries(&mut slice[groups * P::WIDTH..], s);
}

/// Multiplies each entry of the slice by `s`, in packings and the rest entry by entry. Upstream's
/// `scale_slice_in_place_single_core`.
#[inline]
pub fn scale_slice_in_place_single_core<F: Field, P: PackedField<F>>(slice: &mut [F], s: F)
    ensures { slice.new ≡ map (λ x. F.ops.mul x s) slice.old }
{
    scale_by_packing::<F, P>(slice, P::from(s), s);
}

/// The same, under upstream's name for the work of several threads: a plain loop in order.
#[inline]
pub fn par_scale_slice_in_place<F: Field, P: PackedField<F>>(slice: &mut [F], s: F)
    ensures { slice.new ≡ map (λ x. F.ops.mul x s) slice.old }
{
    scale_slice_in_place_single_core::<F, P>(slice, s);
}

/// Adds to each entry of the slice the entry of `other` at its index times `s`, one after the other. This
/// project's own.
#[inline]
fn add_scaled_entries<F: Field>(slice: &mut [F], other: &[F], s: F)
    requires { length slice.old ≡ length other.now }
    ensures { slice.new ≡ zip_with (λ x y. F.ops.add x (F.ops.mul y s)) slice.old other.now }
{
    for i in 0..slice.len() {
        slice[i] += other[i] * s;
    }
}

/// Writes each entry of `from` times `s` to its index in `to`, in packings by one that has `s` in all lanes,
/// and the rest entry by entry. It isn't taken into its callers, as `scale_by_packing`. This project's own.
#[inline(never)]
fn write_scaled<F: Field, P: PackedField<F>>(to: &mut [F], from: &[F], factor: P, s: F)
    requires long { length to.old ≡ length from.now }
    requires factor { factor ≡ P.embed s }
    ensures { to.new ≡ map (λ x. F.ops.mul x s) from.now }
{
    let groups = to.len() / P::WIDTH;
    for i in 0..groups {
        let product = P::load_block(from, i) * factor;
        product.store_block(to, i);
    }
    let done = groups * P::WIDTH;
    to[done..].copy_from_slice(&from[done..]);
    scale_entries(&mut to[done..], s);
}

/// Adds to each entry of a chunk the entry of `other` at its index times `s`. The products are written to
/// a chunk of their own: where a product in Montgomery's form and a sum stand in one loop, the compiler takes
/// the product out of the vectors. This project's own.
#[inline]
fn add_scaled_chunk<F: Field, P: PackedField<F>>(
    chunk: &mut [F],
    other: &[F],
    products: &mut [F],
    factor: P,
    s: F,
)
    requires long { length chunk.old ≡ length other.now }
    requires room { length products.old ≡ length other.now }
    requires factor { factor ≡ P.embed s }
    ensures { chunk.new ≡ zip_with (λ x y. F.ops.add x (F.ops.mul y s)) chunk.old other.now }
{
    write_scaled::<F, P>(products, other, factor, s);
    add_slices::<F, P>(chunk, products);
}

/// Adds to each entry of the slice the entry of `other` at its index times `s`, packing by packing and the
/// rest entry by entry. The factor has `s` in all lanes. This project's own.
#[inline]
fn add_scaled_groups<F: Field, P: PackedField<F>>(slice: &mut [F], other: &[F], factor: P, s: F)
    requires long { length slice.old ≡ length other.now }
    requires factor { factor ≡ P.embed s }
    ensures { slice.new ≡ zip_with (λ x y. F.ops.add x (F.ops.mul y s)) slice.old other.now }
{
    let groups = slice.len() / P::WIDTH;
    for i in 0..groups {
        let x = P::load_block(slice, i);
        let y = P::load_block(other, i);
        let term = y * factor;
        let sum = x + term;
        sum.store_block(slice, i);
    }
    let done = groups * P::WIDTH;
    add_scaled_entries(&mut slice[done..], &other[done..], s);
}

/// Adds to each entry of the slice the entry of `other` at its index times `s`, chunk by chunk, and what is
/// shorter than a chunk packing by packing. The factor has `s` in all lanes. This project's own.
#[inline]
fn add_scaled_by_packing<F: Field, P: PackedField<F>>(slice: &mut [F], other: &[F], factor: P, s: F)
    requires long { length slice.old ≡ length other.now }
    requires factor { factor ≡ P.embed s }
    ensures { slice.new ≡ zip_with (λ x y. F.ops.add x (F.ops.mul y s)) slice.old other.now }
{
    let chunks = slice.len() / CHUNK;
    if chunks > 0 {
        let mut products = [F::zero(); CHUNK];
        for i in 0..chunks {
            let start = i * CHUNK;
            let end = start + CHUNK;
            add_scaled_chunk::<F, P>(
                &mut slice[start..end],
                &other[start..end],
                &mut products,
                factor,
                s,
            );
        }
    }
    let done = chunks * CHUNK;
    add_scaled_groups::<F, P>(&mut slice[done..], &other[done..], factor, s);
}

/// Adds to each entry of the slice the entry of `other` at its index times `s`, in packings and the rest
/// entry by entry. Upstream's `add_scaled_slice_in_place`.
#[inline]
pub fn add_scaled_slice_in_place<F: Field, P: PackedField<F>>(slice: &mut [F], other: &[F], s: F)
    requires { length slice.old ≡ length other.now }
    ensures { slice.new ≡ zip_with (λ x y. F.ops.add x (F.ops.mul y s)) slice.old other.now }
{
    add_scaled_by_packing::<F, P>(slice, other, P::from(s), s);
}

/// The same, under upstream's name for the work of several threads: a plain loop in order.
#[inline]
pub fn par_add_scaled_slice_in_place<F: Field, P: PackedField<F>>(
    slice: &mut [F],
    other: &[F],
    s: F,
)
    requires { length slice.old ≡ length other.now }
    ensures { slice.new ≡ zip_with (λ x y. F.ops.add x (F.ops.mul y s)) slice.old other.now }
{
    add_scaled_slice_in_place::<F, P>(slice, other, s);
}

/// Adds to each entry of the first slice the entry of the second at its index, packing by packing and the
/// rest entry by entry. This project's own.
#[inline]
fn add_by_packing<F: Field, P: PackedField<F>>(slice_1: &mut [F], slice_2: &[F])
    requires { length slice_1.old ≡ length slice_2.now }
    ensures { slice_1.new ≡ zip_with F.ops.add slice_1.old slice_2.now }
{
    let groups = slice_1.len() / P::WIDTH;
    for i in 0..groups {
        let x = P::load_block(slice_1, i);
        let y = P::load_block(slice_2, i);
        let sum = x + y;
        sum.store_block(slice_1, i);
    }
    let done = groups * P::WIDTH;
    F::add_slices(&mut slice_1[done..], &slice_2[done..]);
}

/// How many entries a step over packings takes: about sixteen, and no part of a packing. So a constant that
/// a sum reads from memory is read once for all of them. This project's own.
#[inline]
fn entries_a_step<F: Field, P: PackedField<F>>() -> usize
    ensures { 0 < result }
{
    if P::WIDTH > 16 {
        P::WIDTH
    } else {
        16 - 16 % P::WIDTH
    }
}

/// Adds to each entry of the first slice the entry of the second at its index, in packings and the rest
/// entry by entry. The slices have one length. Upstream's `add_slices`, a method of the field there, which
/// names its packing; here the method of this name goes entry by entry.
#[inline]
pub fn add_slices<F: Field, P: PackedField<F>>(slice_1: &mut [F], slice_2: &[F])
    requires { length slice_1.old ≡ length slice_2.now }
    ensures { slice_1.new ≡ zip_with F.ops.add slice_1.old slice_2.now }
{
    let step = entries_a_step::<F, P>();
    let steps = slice_1.len() / step;
    for i in 0..steps {
        let start = i * step;
        add_by_packing::<F, P>(
            &mut slice_1[start..start + step],
            &slice_2[start..start + step],
        );
    }
    let done = steps * step;
    add_by_packing::<F, P>(&mut slice_1[done..], &slice_2[done..]);
}

/// The array `[x, 0, .., 0]` of length D. Upstream's `field_to_array`.
#[inline]
#[must_use]
pub fn field_to_array<R: PrimeCharacteristicRing, const D: usize>(x: R) -> [R; D]
    requires { 0 < D }
    ensures { result ≡ x ∷ replicate (D - 1) R.ops.zero }
{
    let mut arr = [R::zero(); D];
    arr[0] = x;
    arr
}

/// The sum of the products of the items at equal indices, as far as the shorter of the iterators
/// goes; the other one may be endless. The right items lie in a ring and the left ones in an
/// algebra over it, which may be the ring itself. Upstream's `dot_product`.
#[inline]
#[must_use]
pub fn dot_product<S, LI, RI>(li: LI, ri: RI) -> S
where
    LI: Iterator<Item = S>,
    RI: Iterator,
    RI::Item: PrimeCharacteristicRing,
    S: Algebra<RI::Item> + RingSums,
    requires left { LI.can_next li }
    requires right { RI.can_next ri }
    requires ends { IsFinite (count_min (LI.remaining li) (RI.remaining ri)) }
    ensures runs { RunInPairs LI.next_gives RI.next_gives li ri (λ xs ys. result ≡ dot S.ops xs (map S.embed ys)) }
    ensures lists { IfBothYield LI.next_gives RI.next_gives li ri (λ xs ys. result ≡ dot S.ops xs (map S.embed ys)) }
{
    li.zip(ri).map(|(l, r)| l * r).sum()
}

/// The value of four strands at `x`, the oldest of them times `x` to the power 3, and so on down to the
/// newest. This project's own.
#[inline]
fn join_strands<Acc, X>(s0: Acc, s1: Acc, s2: Acc, s3: Acc, x: X) -> Acc
where
    X: PrimeCharacteristicRing,
    Acc: Algebra<X>,
    ensures { let point = ⟦<Acc as Algebra<X>>⟧.embed x in
        result ≡ Acc.ops.add (Acc.ops.mul (Acc.ops.add (Acc.ops.mul (Acc.ops.add (Acc.ops.mul s0 point) s1) point) s2) point) s3 }
{
    ((s0 * x + s1) * x + s2) * x + s3
}

/// `horner_acc` by four strands that take turns, so that four products run side by side: each coefficient
/// goes to the oldest strand, times `x` to the power 4, which is the newest then. This project's own.
#[inline]
fn horner_in_strands<I, Acc, X>(coefficients: I, acc: Acc, x: X) -> Acc
where
    I: DoubleEndedIterator,
    I::Item: PrimeCharacteristicRing,
    X: PrimeCharacteristicRing,
    Acc: Algebra<X> + Algebra<I::Item>,
    requires can { I.can_next_back coefficients }
    requires ends { IsFinite (I.remaining coefficients) }
    ensures runs { let point = ⟦<Acc as Algebra<X>>⟧.embed x in
        RunsBackward I.next_back_gives coefficients (λ cs. result ≡ eval_from I.Item.ops Acc.ops ⟦<Acc as Algebra<I::Item>>⟧.embed acc point cs) }
    ensures lists { let point = ⟦<Acc as Algebra<X>>⟧.embed x in
        IfYieldsBackward I.next_back_gives coefficients (λ cs. result ≡ eval_from I.Item.ops Acc.ops ⟦<Acc as Algebra<I::Item>>⟧.embed acc point cs) }
{
    let step = x.exp_power_of_2(2);
    let zero = Acc::zero();
    let mut s0 = zero;
    let mut s1 = zero;
    let mut s2 = zero;
    let mut s3 = acc;
    for coefficient in coefficients.rev() {
        let next = s0 * step + coefficient;
        s0 = s1;
        s1 = s2;
        s2 = s3;
        s3 = next;
    }
    join_strands(s0, s1, s2, s3, x)
}

/// Polynomials at a point by Horner's rule, for every iterator over coefficients, the lowest
/// first, that also goes backwards. Upstream's `HornerIter`.
pub trait HornerIter: DoubleEndedIterator + Sized
where
    Self::Item: PrimeCharacteristicRing,
{
    /// The sum of the item at index i times `x` to the power i, and `acc` times `x` to the power
    /// of the length; a long list by four strands of products side by side. Upstream's `horner_acc`.
    #[inline]
    fn horner_acc<Acc, X>(self, acc: Acc, x: X) -> Acc
    where
        X: PrimeCharacteristicRing,
        Acc: Algebra<X> + Algebra<Self::Item>,
        requires can { Self.can_next_back self }
        requires ends { IsFinite (Self.remaining self) }
        ensures runs { let point = ⟦<Acc as Algebra<X>>⟧.embed x in
            RunsBackward Self.next_back_gives self (λ cs. result ≡ eval_from Self.Item.ops Acc.ops ⟦<Acc as Algebra<Self::Item>>⟧.embed acc point cs) }
        ensures lists { let point = ⟦<Acc as Algebra<X>>⟧.embed x in
            IfYieldsBackward Self.next_back_gives self (λ cs. result ≡ eval_from Self.Item.ops Acc.ops ⟦<Acc as Algebra<Self::Item>>⟧.embed acc point cs) }
    {
        let enough = if size_of_val(&acc) > 8 {
            STRANDS_FROM_WIDE
        } else {
            STRANDS_FROM
        };
        if self.size_hint().0 >= enough {
            return horner_in_strands(self, acc, x);
        }
        let mut sum = acc;
        for coefficient in self.rev() {
            sum = sum * x + coefficient;
        }
        sum
    }

    /// The sum of the item at index i times `x` to the power i. Upstream's `horner`.
    #[inline]
    fn horner<Acc, X>(self, x: X) -> Acc
    where
        X: PrimeCharacteristicRing,
        Acc: Algebra<X> + Algebra<Self::Item>,
        requires can { Self.can_next_back self }
        requires ends { IsFinite (Self.remaining self) }
        ensures runs { let point = ⟦<Acc as Algebra<X>>⟧.embed x in
            RunsBackward Self.next_back_gives self (λ cs. result ≡ eval Self.Item.ops Acc.ops ⟦<Acc as Algebra<Self::Item>>⟧.embed point cs) }
        ensures lists { let point = ⟦<Acc as Algebra<X>>⟧.embed x in
            IfYieldsBackward Self.next_back_gives self (λ cs. result ≡ eval Self.Item.ops Acc.ops ⟦<Acc as Algebra<Self::Item>>⟧.embed point cs) }
    {
        self.horner_acc(Acc::zero(), x)
    }
}

impl<I: DoubleEndedIterator> HornerIter for I
where
    I::Item: PrimeCharacteristicRing,
{}
