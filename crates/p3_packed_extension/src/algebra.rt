//! A packed extension as an algebra over its packings.
ghost use Rattle.std.specs.Prelude.{◌≡◌, ◌<◌, ℕ, get_or};
ghost use Rattle.p3_theory.specs.Polynomials.Polynomial.{embed};
ghost use Rattle.p3_extension.specs.Scalars.{OnFirstCoefficient};

use crate::packed_ext_field::{PackedExtField, Packing};
use p3_extension::extension::{ExtensionAlgebra, ExtensionOverAlgebra, ExtensionShape};
use p3_ring::ring::{Algebra, PrimeCharacteristicRing};
use std::ops::{Add, AddAssign, Mul, MulAssign, Sub, SubAssign};

/// A packing as a value: x, 0, .., 0.
impl<
    F: ExtensionAlgebra<F, D, S>,
    const D: usize,
    S: ExtensionShape,
    P: PrimeCharacteristicRing + Packing<Scalar = F>,
> From<P> for PackedExtField<F, D, S, P> {
    ghost from_gives = { λ x r. r.value.value ≡ embed P.ops D x };

    #[inline]
    fn from(x: P) -> Self {
        Self::constant(x)
    }
}

impl<F: Copy, const D: usize, S: Copy, P: Copy + Add<Output = P> + Packing<Scalar = F>> Add<P>
    for PackedExtField<F, D, S, P> {
    type Output = Self;

    ghost can_add = { λ x c. (0 < D) × ((d : P) → P.can_add (get_or x.value.value 0 d) c) };

    ghost add_gives = { λ x c r. OnFirstCoefficient D P.add_gives x.value.value c r.value.value };

    #[inline]
    fn add(self, rhs: P) -> Self {
        PackedExtField {
            value: self.value + rhs,
        }
    }
}

impl<F: Copy, const D: usize, S: Copy, P: Copy + Sub<Output = P> + Packing<Scalar = F>> Sub<P>
    for PackedExtField<F, D, S, P> {
    type Output = Self;

    ghost can_sub = { λ x c. (0 < D) × ((d : P) → P.can_sub (get_or x.value.value 0 d) c) };

    ghost sub_gives = { λ x c r. OnFirstCoefficient D P.sub_gives x.value.value c r.value.value };

    #[inline]
    fn sub(self, rhs: P) -> Self {
        PackedExtField {
            value: self.value - rhs,
        }
    }
}

impl<F: Copy, const D: usize, S: Copy, P: Copy + Mul<Output = P> + Packing<Scalar = F>> Mul<P>
    for PackedExtField<F, D, S, P> {
    type Output = Self;

    ghost can_mul = { λ x c. (d : P) (k : ℕ) → k < D → P.can_mul (get_or x.value.value k d) c };

    ghost mul_gives = { λ x c r. (d : P) (k : ℕ) → k < D → P.mul_gives (get_or x.value.value k d) c (get_or r.value.value k d) };

    #[inline]
    fn mul(self, rhs: P) -> Self {
        PackedExtField {
            value: self.value * rhs,
        }
    }
}

impl<F: Copy, const D: usize, S: Copy, P: Copy + Add<Output = P> + Packing<Scalar = F>> AddAssign<P>
    for PackedExtField<F, D, S, P> {
    ghost can_add_assign = { λ x c. (0 < D) × ((d : P) → P.can_add (get_or x.value.value 0 d) c) };

    ghost add_assign_gives = { λ x c r. OnFirstCoefficient D P.add_gives x.value.value c r.value.value };

    #[inline]
    fn add_assign(&mut self, rhs: P) {
        *self = *self + rhs;
    }
}

impl<F: Copy, const D: usize, S: Copy, P: Copy + Sub<Output = P> + Packing<Scalar = F>> SubAssign<P>
    for PackedExtField<F, D, S, P> {
    ghost can_sub_assign = { λ x c. (0 < D) × ((d : P) → P.can_sub (get_or x.value.value 0 d) c) };

    ghost sub_assign_gives = { λ x c r. OnFirstCoefficient D P.sub_gives x.value.value c r.value.value };

    #[inline]
    fn sub_assign(&mut self, rhs: P) {
        *self = *self - rhs;
    }
}

impl<F: Copy, const D: usize, S: Copy, P: Copy + Mul<Output = P> + Packing<Scalar = F>> MulAssign<P>
    for PackedExtField<F, D, S, P> {
    ghost can_mul_assign = { λ x c. (d : P) (k : ℕ) → k < D → P.can_mul (get_or x.value.value k d) c };

    ghost mul_assign_gives = { λ x c r. (d : P) (k : ℕ) → k < D → P.mul_gives (get_or x.value.value k d) c (get_or r.value.value k d) };

    #[inline]
    fn mul_assign(&mut self, rhs: P) {
        *self = *self * rhs;
    }
}

impl<
    F: ExtensionOverAlgebra<P, D, S>,
    const D: usize,
    S: ExtensionShape,
    P: Algebra<F> + Packing<Scalar = F>,
> Algebra<P> for PackedExtField<F, D, S, P> {
    ghost use Rattle.std.specs.Prelude.{refl, []};
    ghost use Rattle.std.proofs.Common.{lit<};
    ghost use Rattle.p3_theory.specs.Rings.Ring.{ring_of};
    ghost use Rattle.p3_extension.specs.Bases.{some_index};
    ghost use Rattle.p3_packed_extension.specs.PackedValues.{packed_constant, packed_embedding, same_packed, packed_scalar_sum, packed_scalar_difference, packed_scalar_product};

    ghost embed = { packed_constant P.ops };

    const BATCHED_LC_CHUNK: usize = 8;

    ghost BATCHED_LC_CHUNK = { 8 };

    ghost chunk_length = { (3, lit< tt, refl) };

    ghost embeds = { packed_embedding (ring_of P.PrimeCharacteristicRing.ring) P.Algebra.embeds F.at_least_two F.modulus F.monic };

    ghost froms = { λ p r h. same_packed P.ops [] r (packed_constant P.ops p) h };

    ghost mixed_adds = { record { callable = λ _ _. (some_index F.at_least_two, λ _. P.PrimeCharacteristicRing.adds.callable _ _); exact = λ x c r h. packed_scalar_sum (ring_of P.PrimeCharacteristicRing.ring) P.Algebra.embeds F.at_least_two F.modulus F.monic _ P.PrimeCharacteristicRing.adds.exact x r c h } };

    ghost mixed_add_assigns = { record { callable = λ _ _. (some_index F.at_least_two, λ _. P.PrimeCharacteristicRing.adds.callable _ _); exact = λ x c r h. packed_scalar_sum (ring_of P.PrimeCharacteristicRing.ring) P.Algebra.embeds F.at_least_two F.modulus F.monic _ P.PrimeCharacteristicRing.adds.exact x r c h } };

    ghost mixed_subs = { record { callable = λ _ _. (some_index F.at_least_two, λ _. P.PrimeCharacteristicRing.subs.callable _ _); exact = λ x c r h. packed_scalar_difference (ring_of P.PrimeCharacteristicRing.ring) P.Algebra.embeds F.at_least_two F.modulus F.monic _ P.PrimeCharacteristicRing.subs.exact x r c h } };

    ghost mixed_sub_assigns = { record { callable = λ _ _. (some_index F.at_least_two, λ _. P.PrimeCharacteristicRing.subs.callable _ _); exact = λ x c r h. packed_scalar_difference (ring_of P.PrimeCharacteristicRing.ring) P.Algebra.embeds F.at_least_two F.modulus F.monic _ P.PrimeCharacteristicRing.subs.exact x r c h } };

    ghost mixed_muls = { record { callable = λ _ _ _ _ _. P.PrimeCharacteristicRing.muls.callable _ _; exact = λ x c r h. packed_scalar_product (ring_of P.PrimeCharacteristicRing.ring) P.Algebra.embeds F.at_least_two F.modulus F.monic _ P.PrimeCharacteristicRing.muls.exact x r c h } };

    ghost mixed_mul_assigns = { record { callable = λ _ _ _ _ _. P.PrimeCharacteristicRing.muls.callable _ _; exact = λ x c r h. packed_scalar_product (ring_of P.PrimeCharacteristicRing.ring) P.Algebra.embeds F.at_least_two F.modulus F.monic _ P.PrimeCharacteristicRing.muls.exact x r c h } };
}
