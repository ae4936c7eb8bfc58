//! Extension values as an algebra over their coefficients: operators with one coefficient.
ghost use Rattle.std.specs.Prelude.{◌≡◌, ◌<◌, ℕ, get_or};
ghost use Rattle.p3_extension.specs.Scalars.{OnFirstCoefficient};

use super::ext_field::ExtField;
use super::{ExtensionAlgebra, ExtensionShape};
use p3_ring::ring::{Algebra, PrimeCharacteristicRing};
use p3_ring::sums::sum_of_products;
use std::ops::{Add, AddAssign, Mul, MulAssign, Sub, SubAssign};

/// An element of the coefficient ring as a value: x, 0, .., 0.
impl<F: Copy, const D: usize, S: ExtensionShape, A: ExtensionAlgebra<F, D, S>> From<A>
    for ExtField<F, D, S, A> {
    ghost use Rattle.p3_extension.specs.Values.{constant};

    ghost from_gives = { λ x r. r ≡ constant A.ops x };

    #[inline]
    fn from(x: A) -> Self {
        ExtField::<F, D, S, A>::constant(x)
    }
}

/// The value with these coefficients.
impl<F: Copy, const D: usize, S: Copy, A: Copy> From<[A; D]> for ExtField<F, D, S, A> {
    ghost from_gives = { λ v r. r.value ≡ v };

    #[inline]
    fn from(value: [A; D]) -> Self {
        Self::new(value)
    }
}

impl<F, const D: usize, S, A: Copy + Add<Output = A>> Add<A> for ExtField<F, D, S, A> {
    type Output = Self;

    ghost can_add = { λ x c. (0 < D) × ((d : A) → A.can_add (get_or x.value 0 d) c) };

    ghost add_gives = { λ x c r. OnFirstCoefficient D A.add_gives x.value c r.value };

    #[inline]
    fn add(self, rhs: A) -> Self {
        let mut value = self.value;
        value[0] = self.value[0] + rhs;
        Self::new(value)
    }
}

impl<F, const D: usize, S, A: Copy + Sub<Output = A>> Sub<A> for ExtField<F, D, S, A> {
    type Output = Self;

    ghost can_sub = { λ x c. (0 < D) × ((d : A) → A.can_sub (get_or x.value 0 d) c) };

    ghost sub_gives = { λ x c r. OnFirstCoefficient D A.sub_gives x.value c r.value };

    #[inline]
    fn sub(self, rhs: A) -> Self {
        let mut value = self.value;
        value[0] = self.value[0] - rhs;
        Self::new(value)
    }
}

impl<F, const D: usize, S, A: Copy + Mul<Output = A>> Mul<A> for ExtField<F, D, S, A> {
    type Output = Self;

    ghost can_mul = { λ x c. (d : A) (k : ℕ) → k < D → A.can_mul (get_or x.value k d) c };

    ghost mul_gives = { λ x c r. (d : A) (k : ℕ) → k < D → A.mul_gives (get_or x.value k d) c (get_or r.value k d) };

    #[inline]
    fn mul(self, rhs: A) -> Self {
        let mut value = self.value;
        for i in 0..D {
            value[i] = self.value[i] * rhs;
        }
        Self::new(value)
    }
}

impl<F: Copy, const D: usize, S: Copy, A: Copy + Add<Output = A>> AddAssign<A>
    for ExtField<F, D, S, A> {
    ghost can_add_assign = { λ x c. (0 < D) × ((d : A) → A.can_add (get_or x.value 0 d) c) };

    ghost add_assign_gives = { λ x c r. OnFirstCoefficient D A.add_gives x.value c r.value };

    #[inline]
    fn add_assign(&mut self, rhs: A) {
        *self = *self + rhs;
    }
}

impl<F: Copy, const D: usize, S: Copy, A: Copy + Sub<Output = A>> SubAssign<A>
    for ExtField<F, D, S, A> {
    ghost can_sub_assign = { λ x c. (0 < D) × ((d : A) → A.can_sub (get_or x.value 0 d) c) };

    ghost sub_assign_gives = { λ x c r. OnFirstCoefficient D A.sub_gives x.value c r.value };

    #[inline]
    fn sub_assign(&mut self, rhs: A) {
        *self = *self - rhs;
    }
}

impl<F: Copy, const D: usize, S: Copy, A: Copy + Mul<Output = A>> MulAssign<A>
    for ExtField<F, D, S, A> {
    ghost can_mul_assign = { λ x c. (d : A) (k : ℕ) → k < D → A.can_mul (get_or x.value k d) c };

    ghost mul_assign_gives = { λ x c r. (d : A) (k : ℕ) → k < D → A.mul_gives (get_or x.value k d) c (get_or r.value k d) };

    #[inline]
    fn mul_assign(&mut self, rhs: A) {
        *self = *self * rhs;
    }
}

impl<F: ExtensionAlgebra<F, D, S>, const D: usize, S: ExtensionShape> Algebra<F>
    for ExtField<F, D, S, F> {
    ghost use Rattle.std.specs.Prelude.{refl};
    ghost use Rattle.std.proofs.Common.{lit<};
    ghost use Rattle.p3_theory.specs.Rings.Ring.{ring_of};
    ghost use Rattle.p3_extension.specs.Values.{constant};
    ghost use Rattle.p3_extension.specs.Bases.{embedding, some_index};
    ghost use Rattle.p3_extension.specs.Scalars.{is_scalar_sum, is_scalar_difference, is_scalar_product};

    ghost embed = { constant F.ops };

    const BATCHED_LC_CHUNK: usize = 8;

    ghost BATCHED_LC_CHUNK = { 8 };

    #[inline]
    fn mixed_dot_product(a: &[Self], f: &[F]) -> Self {
        let zero = ExtField::<F, D, S, F>::constant(F::zero());
        sum_of_products(zero, a, f)
    }

    ghost chunk_length = { (3, lit< tt, refl) };

    ghost embeds = { embedding (ring_of F.ring) D F.at_least_two F.modulus F.monic };

    ghost froms = { λ f r h. h };

    ghost mixed_adds = { record { callable = λ _ _. (some_index F.at_least_two, λ _. F.adds.callable _ _); exact = λ x c r h. is_scalar_sum (ring_of F.ring) D F.at_least_two F.modulus F.add_gives F.adds.exact x r c h } };

    ghost mixed_add_assigns = { record { callable = λ _ _. (some_index F.at_least_two, λ _. F.adds.callable _ _); exact = λ x c r h. is_scalar_sum (ring_of F.ring) D F.at_least_two F.modulus F.add_gives F.adds.exact x r c h } };

    ghost mixed_subs = { record { callable = λ _ _. (some_index F.at_least_two, λ _. F.subs.callable _ _); exact = λ x c r h. is_scalar_difference (ring_of F.ring) D F.at_least_two F.modulus F.sub_gives F.subs.exact x r c h } };

    ghost mixed_sub_assigns = { record { callable = λ _ _. (some_index F.at_least_two, λ _. F.subs.callable _ _); exact = λ x c r h. is_scalar_difference (ring_of F.ring) D F.at_least_two F.modulus F.sub_gives F.subs.exact x r c h } };

    ghost mixed_muls = { record { callable = λ _ _ _ _ _. F.muls.callable _ _; exact = λ x c r h. is_scalar_product (ring_of F.ring) D F.at_least_two F.modulus F.mul_gives F.monic F.muls.exact x r c h } };

    ghost mixed_mul_assigns = { record { callable = λ _ _ _ _ _. F.muls.callable _ _; exact = λ x c r h. is_scalar_product (ring_of F.ring) D F.at_least_two F.modulus F.mul_gives F.monic F.muls.exact x r c h } };
}
