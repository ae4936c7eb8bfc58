//! Operators of vectors of packed extension values with vectors of packings of the base field.
ghost use Rattle.std.specs.Prelude.{◌≡◌, ◌<◌, ℕ, get_or, length};

use super::VectorizedExt;
use crate::vectorized::Vectorized;
use p3_field_traits::field::Field;
use p3_field_traits::packed_traits::Inhabited;
use p3_ring::ring::{Algebra, PrimeCharacteristicRing};
use p3_ring::sums::sum_of_products;
use std::ops::{Add, AddAssign, Mul, MulAssign, Sub, SubAssign};

/// Each packing of field values as a packing of extension values.
impl<
    F: Copy,
    EF: Field,
    P: PrimeCharacteristicRing + Inhabited,
    PE: PrimeCharacteristicRing + Inhabited + From<P>,
    const N: usize,
> From<Vectorized<F, P, N>> for VectorizedExt<F, EF, PE, N> {
    ghost from_gives = { λ x r. (d : P) (e : PE) (k : ℕ) → k < N → ⟦<PE as From<P>>⟧.from_gives (get_or x.items k d) (get_or r.items k e) };

    #[inline]
    fn from(value: Vectorized<F, P, N>) -> Self {
        let xs = value.items();
        let mut items = [PE::zero(); N];
        for i in 0..N {
            items[i] = <PE as From<P>>::from(xs[i]);
        }
        Self::new(items)
    }
}

/// Each packing and the packing of field values at its index.
impl<
    F: Copy,
    EF: Field,
    P: PrimeCharacteristicRing + Inhabited,
    PE: PrimeCharacteristicRing + Inhabited + Add<P, Output = PE>,
    const N: usize,
> Add<Vectorized<F, P, N>> for VectorizedExt<F, EF, PE, N> {
    type Output = Self;

    ghost can_add = { λ x y. (d : PE) (e : P) (k : ℕ) → k < N → ⟦<PE as Add<P>>⟧.can_add (get_or x.items k d) (get_or y.items k e) };

    ghost add_gives = { λ x y r. (d : PE) (e : P) (k : ℕ) → k < N → ⟦<PE as Add<P>>⟧.add_gives (get_or x.items k d) (get_or y.items k e) (get_or r.items k d) };

    #[inline]
    fn add(self, rhs: Vectorized<F, P, N>) -> Self {
        let xs = self.items();
        let ys = rhs.items();
        let mut items = xs;
        for i in 0..N {
            items[i] = xs[i] + ys[i];
        }
        Self::new(items)
    }
}

impl<
    F: Copy,
    EF: Field,
    P: PrimeCharacteristicRing + Inhabited,
    PE: PrimeCharacteristicRing + Inhabited + Add<P, Output = PE>,
    const N: usize,
> AddAssign<Vectorized<F, P, N>> for VectorizedExt<F, EF, PE, N> {
    ghost can_add_assign = { λ x y. (d : PE) (e : P) (k : ℕ) → k < N → ⟦<PE as Add<P>>⟧.can_add (get_or x.items k d) (get_or y.items k e) };

    ghost add_assign_gives = { λ x y r. (d : PE) (e : P) (k : ℕ) → k < N → ⟦<PE as Add<P>>⟧.add_gives (get_or x.items k d) (get_or y.items k e) (get_or r.items k d) };

    #[inline]
    fn add_assign(&mut self, rhs: Vectorized<F, P, N>) {
        *self = *self + rhs;
    }
}

/// Each packing less the packing of field values at its index.
impl<
    F: Copy,
    EF: Field,
    P: PrimeCharacteristicRing + Inhabited,
    PE: PrimeCharacteristicRing + Inhabited + Sub<P, Output = PE>,
    const N: usize,
> Sub<Vectorized<F, P, N>> for VectorizedExt<F, EF, PE, N> {
    type Output = Self;

    ghost can_sub = { λ x y. (d : PE) (e : P) (k : ℕ) → k < N → ⟦<PE as Sub<P>>⟧.can_sub (get_or x.items k d) (get_or y.items k e) };

    ghost sub_gives = { λ x y r. (d : PE) (e : P) (k : ℕ) → k < N → ⟦<PE as Sub<P>>⟧.sub_gives (get_or x.items k d) (get_or y.items k e) (get_or r.items k d) };

    #[inline]
    fn sub(self, rhs: Vectorized<F, P, N>) -> Self {
        let xs = self.items();
        let ys = rhs.items();
        let mut items = xs;
        for i in 0..N {
            items[i] = xs[i] - ys[i];
        }
        Self::new(items)
    }
}

impl<
    F: Copy,
    EF: Field,
    P: PrimeCharacteristicRing + Inhabited,
    PE: PrimeCharacteristicRing + Inhabited + Sub<P, Output = PE>,
    const N: usize,
> SubAssign<Vectorized<F, P, N>> for VectorizedExt<F, EF, PE, N> {
    ghost can_sub_assign = { λ x y. (d : PE) (e : P) (k : ℕ) → k < N → ⟦<PE as Sub<P>>⟧.can_sub (get_or x.items k d) (get_or y.items k e) };

    ghost sub_assign_gives = { λ x y r. (d : PE) (e : P) (k : ℕ) → k < N → ⟦<PE as Sub<P>>⟧.sub_gives (get_or x.items k d) (get_or y.items k e) (get_or r.items k d) };

    #[inline]
    fn sub_assign(&mut self, rhs: Vectorized<F, P, N>) {
        *self = *self - rhs;
    }
}

/// Each packing times the packing of field values at its index.
impl<
    F: Copy,
    EF: Field,
    P: PrimeCharacteristicRing + Inhabited,
    PE: PrimeCharacteristicRing + Inhabited + Mul<P, Output = PE>,
    const N: usize,
> Mul<Vectorized<F, P, N>> for VectorizedExt<F, EF, PE, N> {
    type Output = Self;

    ghost can_mul = { λ x y. (d : PE) (e : P) (k : ℕ) → k < N → ⟦<PE as Mul<P>>⟧.can_mul (get_or x.items k d) (get_or y.items k e) };

    ghost mul_gives = { λ x y r. (d : PE) (e : P) (k : ℕ) → k < N → ⟦<PE as Mul<P>>⟧.mul_gives (get_or x.items k d) (get_or y.items k e) (get_or r.items k d) };

    #[inline]
    fn mul(self, rhs: Vectorized<F, P, N>) -> Self {
        let xs = self.items();
        let ys = rhs.items();
        let mut items = xs;
        for i in 0..N {
            items[i] = xs[i] * ys[i];
        }
        Self::new(items)
    }
}

impl<
    F: Copy,
    EF: Field,
    P: PrimeCharacteristicRing + Inhabited,
    PE: PrimeCharacteristicRing + Inhabited + Mul<P, Output = PE>,
    const N: usize,
> MulAssign<Vectorized<F, P, N>> for VectorizedExt<F, EF, PE, N> {
    ghost can_mul_assign = { λ x y. (d : PE) (e : P) (k : ℕ) → k < N → ⟦<PE as Mul<P>>⟧.can_mul (get_or x.items k d) (get_or y.items k e) };

    ghost mul_assign_gives = { λ x y r. (d : PE) (e : P) (k : ℕ) → k < N → ⟦<PE as Mul<P>>⟧.mul_gives (get_or x.items k d) (get_or y.items k e) (get_or r.items k d) };

    #[inline]
    fn mul_assign(&mut self, rhs: Vectorized<F, P, N>) {
        *self = *self * rhs;
    }
}

/// A vector of packings of field values stands for the vector of the packings that they stand for.
impl<
    F: Copy,
    EF: Field,
    P: PrimeCharacteristicRing + Inhabited,
    PE: Inhabited + Algebra<P>,
    const N: usize,
> Algebra<Vectorized<F, P, N>> for VectorizedExt<F, EF, PE, N> {
    ghost use Rattle.p3_theory.specs.Lanes.Rows.{rows};
    ghost use Rattle.p3_vectorized.specs.RowMaps.{mapped, maps_keep, written_map, written_row_sum, written_row_difference, written_row_product};

    ghost embed = { mapped rows rows P.ops PE.ops PE.embed };

    const BATCHED_LC_CHUNK: usize = <PE as Algebra<P>>::BATCHED_LC_CHUNK;

    ghost BATCHED_LC_CHUNK = { PE.BATCHED_LC_CHUNK };

    /// By the vectors' own operators.
    #[inline]
    fn mixed_dot_product(a: &[Self], f: &[Vectorized<F, P, N>]) -> Self {
        let zero = PE::zero();
        sum_of_products(Self::new([zero; N]), a, f)
    }

    ghost chunk_length = { PE.chunk_length };

    ghost embeds = { maps_keep rows rows P.ops PE.ops PE.embed PE.embeds };

    ghost froms = { λ x r h. written_map rows rows P.ops PE.ops PE.embed x r (λ d e k b. PE.froms _ _ (h d e k b)) };

    ghost mixed_adds = { record { callable = λ x y d e k h. PE.mixed_adds.callable _ _; exact = λ x y r h. written_row_sum rows rows P.ops PE.ops PE.embed _ PE.mixed_adds.exact x y r h } };

    ghost mixed_add_assigns = { record { callable = λ x y d e k h. PE.mixed_adds.callable _ _; exact = λ x y r h. written_row_sum rows rows P.ops PE.ops PE.embed _ PE.mixed_adds.exact x y r h } };

    ghost mixed_subs = { record { callable = λ x y d e k h. PE.mixed_subs.callable _ _; exact = λ x y r h. written_row_difference rows rows P.ops PE.ops PE.embed _ PE.mixed_subs.exact x y r h } };

    ghost mixed_sub_assigns = { record { callable = λ x y d e k h. PE.mixed_subs.callable _ _; exact = λ x y r h. written_row_difference rows rows P.ops PE.ops PE.embed _ PE.mixed_subs.exact x y r h } };

    ghost mixed_muls = { record { callable = λ x y d e k h. PE.mixed_muls.callable _ _; exact = λ x y r h. written_row_product rows rows P.ops PE.ops PE.embed _ PE.mixed_muls.exact x y r h } };

    ghost mixed_mul_assigns = { record { callable = λ x y d e k h. PE.mixed_muls.callable _ _; exact = λ x y r h. written_row_product rows rows P.ops PE.ops PE.embed _ PE.mixed_muls.exact x y r h } };
}
