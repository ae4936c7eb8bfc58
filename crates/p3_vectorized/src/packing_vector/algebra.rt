//! Vectors of packings as an algebra over their scalars.
ghost use Rattle.std.specs.Prelude.{◌≡◌, ◌<◌, ℕ, get_or, replicate};

use super::PackingVector;
use p3_field_traits::packed_traits::Inhabited;
use p3_ring::ring::{Algebra, PrimeCharacteristicRing};
use p3_ring::sums::sum_of_products;
use std::ops::{Add, AddAssign, Mul, MulAssign, Sub, SubAssign};

/// The scalar in each packing.
impl<S: Copy, T: Copy, P: Inhabited + From<S>, const N: usize> From<S>
    for PackingVector<S, T, P, N> {
    ghost from_gives = { λ f r. (v : P) × ⟦<P as From<S>>⟧.from_gives f v × (r.items ≡ replicate N v) };

    #[inline]
    fn from(value: S) -> Self {
        let packing = <P as From<S>>::from(value);
        Self::new([packing; N])
    }
}

/// Each packing and the scalar.
impl<
    S: Copy,
    T: Copy,
    P: PrimeCharacteristicRing + Inhabited + Add<S, Output = P>,
    const N: usize,
> Add<S> for PackingVector<S, T, P, N> {
    type Output = Self;

    ghost can_add = { λ x f. (d : P) (k : ℕ) → k < N → ⟦<P as Add<S>>⟧.can_add (get_or x.items k d) f };

    ghost add_gives = { λ x f r. (d : P) (k : ℕ) → k < N → ⟦<P as Add<S>>⟧.add_gives (get_or x.items k d) f (get_or r.items k d) };

    #[inline]
    fn add(self, rhs: S) -> Self {
        let xs = self.items();
        let mut items = xs;
        for i in 0..N {
            items[i] = xs[i] + rhs;
        }
        Self::new(items)
    }
}

impl<
    S: Copy,
    T: Copy,
    P: PrimeCharacteristicRing + Inhabited + Add<S, Output = P>,
    const N: usize,
> AddAssign<S> for PackingVector<S, T, P, N> {
    ghost can_add_assign = { λ x f. (d : P) (k : ℕ) → k < N → ⟦<P as Add<S>>⟧.can_add (get_or x.items k d) f };

    ghost add_assign_gives = { λ x f r. (d : P) (k : ℕ) → k < N → ⟦<P as Add<S>>⟧.add_gives (get_or x.items k d) f (get_or r.items k d) };

    #[inline]
    fn add_assign(&mut self, rhs: S) {
        *self = *self + rhs;
    }
}

/// Each packing less the scalar.
impl<
    S: Copy,
    T: Copy,
    P: PrimeCharacteristicRing + Inhabited + Sub<S, Output = P>,
    const N: usize,
> Sub<S> for PackingVector<S, T, P, N> {
    type Output = Self;

    ghost can_sub = { λ x f. (d : P) (k : ℕ) → k < N → ⟦<P as Sub<S>>⟧.can_sub (get_or x.items k d) f };

    ghost sub_gives = { λ x f r. (d : P) (k : ℕ) → k < N → ⟦<P as Sub<S>>⟧.sub_gives (get_or x.items k d) f (get_or r.items k d) };

    #[inline]
    fn sub(self, rhs: S) -> Self {
        let xs = self.items();
        let mut items = xs;
        for i in 0..N {
            items[i] = xs[i] - rhs;
        }
        Self::new(items)
    }
}

impl<
    S: Copy,
    T: Copy,
    P: PrimeCharacteristicRing + Inhabited + Sub<S, Output = P>,
    const N: usize,
> SubAssign<S> for PackingVector<S, T, P, N> {
    ghost can_sub_assign = { λ x f. (d : P) (k : ℕ) → k < N → ⟦<P as Sub<S>>⟧.can_sub (get_or x.items k d) f };

    ghost sub_assign_gives = { λ x f r. (d : P) (k : ℕ) → k < N → ⟦<P as Sub<S>>⟧.sub_gives (get_or x.items k d) f (get_or r.items k d) };

    #[inline]
    fn sub_assign(&mut self, rhs: S) {
        *self = *self - rhs;
    }
}

/// Each packing times the scalar.
impl<
    S: Copy,
    T: Copy,
    P: PrimeCharacteristicRing + Inhabited + Mul<S, Output = P>,
    const N: usize,
> Mul<S> for PackingVector<S, T, P, N> {
    type Output = Self;

    ghost can_mul = { λ x f. (d : P) (k : ℕ) → k < N → ⟦<P as Mul<S>>⟧.can_mul (get_or x.items k d) f };

    ghost mul_gives = { λ x f r. (d : P) (k : ℕ) → k < N → ⟦<P as Mul<S>>⟧.mul_gives (get_or x.items k d) f (get_or r.items k d) };

    #[inline]
    fn mul(self, rhs: S) -> Self {
        let xs = self.items();
        let mut items = xs;
        for i in 0..N {
            items[i] = xs[i] * rhs;
        }
        Self::new(items)
    }
}

impl<
    S: Copy,
    T: Copy,
    P: PrimeCharacteristicRing + Inhabited + Mul<S, Output = P>,
    const N: usize,
> MulAssign<S> for PackingVector<S, T, P, N> {
    ghost can_mul_assign = { λ x f. (d : P) (k : ℕ) → k < N → ⟦<P as Mul<S>>⟧.can_mul (get_or x.items k d) f };

    ghost mul_assign_gives = { λ x f r. (d : P) (k : ℕ) → k < N → ⟦<P as Mul<S>>⟧.mul_gives (get_or x.items k d) f (get_or r.items k d) };

    #[inline]
    fn mul_assign(&mut self, rhs: S) {
        *self = *self * rhs;
    }
}

/// A scalar stands for the vector that has it in every lane.
impl<S: PrimeCharacteristicRing, T: Copy, P: Inhabited + Algebra<S>, const N: usize> Algebra<S>
    for PackingVector<S, T, P, N> {
    ghost use Rattle.p3_theory.specs.Rings.Homomorphism.{compose};
    ghost use Rattle.p3_theory.specs.Lanes.Rows.{rows};
    ghost use Rattle.p3_theory.specs.Lanes.RowRing.{constant, constants_keep, written_mixed_sum, written_mixed_difference, written_mixed_product};
    ghost use Rattle.p3_vectorized.specs.Written.{written_embedding};

    ghost embed = { λ f. constant rows P.ops (P.embed f) };

    const BATCHED_LC_CHUNK: usize = <P as Algebra<S>>::BATCHED_LC_CHUNK;

    ghost BATCHED_LC_CHUNK = { P.BATCHED_LC_CHUNK };

    /// By the vectors' own operators.
    #[inline]
    fn mixed_dot_product(a: &[Self], f: &[S]) -> Self {
        let zero = P::zero();
        sum_of_products(Self::new([zero; N]), a, f)
    }

    ghost chunk_length = { P.chunk_length };

    ghost embeds = { compose P.embeds (constants_keep rows P.ops) };

    ghost froms = { λ f r h. written_embedding rows P.ops r _ _ h.2 (P.froms _ _ h.1) };

    ghost mixed_adds = { record { callable = λ x f d k h. P.mixed_adds.callable _ _; exact = λ x f r h. written_mixed_sum rows P.ops x (P.embed f) r (λ d k b. P.mixed_adds.exact _ _ _ (h d k b)) } };

    ghost mixed_add_assigns = { record { callable = λ x f d k h. P.mixed_adds.callable _ _; exact = λ x f r h. written_mixed_sum rows P.ops x (P.embed f) r (λ d k b. P.mixed_adds.exact _ _ _ (h d k b)) } };

    ghost mixed_subs = { record { callable = λ x f d k h. P.mixed_subs.callable _ _; exact = λ x f r h. written_mixed_difference rows P.ops x (P.embed f) r (λ d k b. P.mixed_subs.exact _ _ _ (h d k b)) } };

    ghost mixed_sub_assigns = { record { callable = λ x f d k h. P.mixed_subs.callable _ _; exact = λ x f r h. written_mixed_difference rows P.ops x (P.embed f) r (λ d k b. P.mixed_subs.exact _ _ _ (h d k b)) } };

    ghost mixed_muls = { record { callable = λ x f d k h. P.mixed_muls.callable _ _; exact = λ x f r h. written_mixed_product rows P.ops x (P.embed f) r (λ d k b. P.mixed_muls.exact _ _ _ (h d k b)) } };

    ghost mixed_mul_assigns = { record { callable = λ x f d k h. P.mixed_muls.callable _ _; exact = λ x f r h. written_mixed_product rows P.ops x (P.embed f) r (λ d k b. P.mixed_muls.exact _ _ _ (h d k b)) } };
}
