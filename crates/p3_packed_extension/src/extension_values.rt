//! A packed extension as an algebra over the extension values of one lane.
ghost use Rattle.std.specs.Prelude.{◌≡◌, ◌<◌, ℕ, get_or, map};

use crate::holds_scalar::HoldsScalar;
use crate::packed_ext_field::PackedExtField;
use p3_extension::extension::{ExtField, ExtensionOverAlgebra, ExtensionShape, PackedProduct};
use p3_extension_formulas::vectors::embed_entries;
use p3_ring::accumulate::{product_from, sum_from};
use p3_ring::ring::{Algebra, PrimeCharacteristicRing};
use p3_ring::sums::sum_of_products;
use std::iter::{Product, Sum};
use std::ops::{Add, AddAssign, Mul, MulAssign, Sub, SubAssign};

/// An extension value in all lanes.
impl<F: PrimeCharacteristicRing, const D: usize, S: Copy, P: Algebra<F>> From<ExtField<F, D, S, F>>
    for PackedExtField<F, D, S, P> {
    ghost from_gives = { λ v r. r.value.value ≡ map P.embed v.value };

    #[inline]
    fn from(x: ExtField<F, D, S, F>) -> Self {
        let mut value = [P::zero(); D];
        embed_entries::<P, F>(&x.value, &mut value);
        Self::new(value)
    }
}

/// Each coefficient and the coefficient of the extension value at its index.
impl<F: Copy, const D: usize, S: Copy, P: Copy + Add<F, Output = P>> Add<ExtField<F, D, S, F>>
    for PackedExtField<F, D, S, P> {
    type Output = Self;

    ghost can_add = { λ x v. (d : P) (e : F) (k : ℕ) → k < D → P.can_add (get_or x.value.value k d) (get_or v.value k e) };

    ghost add_gives = { λ x v r. (d : P) (e : F) (k : ℕ) → k < D → P.add_gives (get_or x.value.value k d) (get_or v.value k e) (get_or r.value.value k d) };

    #[inline]
    fn add(self, rhs: ExtField<F, D, S, F>) -> Self {
        let coefficients = self.value.value;
        let mut value = coefficients;
        for i in 0..D {
            value[i] = coefficients[i] + rhs.value[i];
        }
        Self::new(value)
    }
}

/// Each coefficient less the coefficient of the extension value at its index.
impl<F: Copy, const D: usize, S: Copy, P: Copy + Sub<F, Output = P>> Sub<ExtField<F, D, S, F>>
    for PackedExtField<F, D, S, P> {
    type Output = Self;

    ghost can_sub = { λ x v. (d : P) (e : F) (k : ℕ) → k < D → P.can_sub (get_or x.value.value k d) (get_or v.value k e) };

    ghost sub_gives = { λ x v r. (d : P) (e : F) (k : ℕ) → k < D → P.sub_gives (get_or x.value.value k d) (get_or v.value k e) (get_or r.value.value k d) };

    #[inline]
    fn sub(self, rhs: ExtField<F, D, S, F>) -> Self {
        let coefficients = self.value.value;
        let mut value = coefficients;
        for i in 0..D {
            value[i] = coefficients[i] - rhs.value[i];
        }
        Self::new(value)
    }
}

impl<
    F: PrimeCharacteristicRing + PackedProduct<P, D, S>,
    const D: usize,
    S: Copy,
    P: Algebra<F>,
> Mul<ExtField<F, D, S, F>> for PackedExtField<F, D, S, P> {
    type Output = Self;

    ghost mul_gives = { λ x v r. F.packed_product_gives x.value.value (map P.embed v.value) r.value.value };

    #[inline]
    fn mul(self, rhs: ExtField<F, D, S, F>) -> Self {
        let other = <Self as From<ExtField<F, D, S, F>>>::from(rhs);
        self * other
    }
}

impl<F: Copy, const D: usize, S: Copy, P: Copy + Add<F, Output = P>> AddAssign<ExtField<F, D, S, F>>
    for PackedExtField<F, D, S, P> {
    ghost can_add_assign = { λ x v. (d : P) (e : F) (k : ℕ) → k < D → P.can_add (get_or x.value.value k d) (get_or v.value k e) };

    ghost add_assign_gives = { λ x v r. (d : P) (e : F) (k : ℕ) → k < D → P.add_gives (get_or x.value.value k d) (get_or v.value k e) (get_or r.value.value k d) };

    #[inline]
    fn add_assign(&mut self, rhs: ExtField<F, D, S, F>) {
        *self = *self + rhs;
    }
}

impl<F: Copy, const D: usize, S: Copy, P: Copy + Sub<F, Output = P>> SubAssign<ExtField<F, D, S, F>>
    for PackedExtField<F, D, S, P> {
    ghost can_sub_assign = { λ x v. (d : P) (e : F) (k : ℕ) → k < D → P.can_sub (get_or x.value.value k d) (get_or v.value k e) };

    ghost sub_assign_gives = { λ x v r. (d : P) (e : F) (k : ℕ) → k < D → P.sub_gives (get_or x.value.value k d) (get_or v.value k e) (get_or r.value.value k d) };

    #[inline]
    fn sub_assign(&mut self, rhs: ExtField<F, D, S, F>) {
        *self = *self - rhs;
    }
}

impl<
    F: PrimeCharacteristicRing + PackedProduct<P, D, S>,
    const D: usize,
    S: Copy,
    P: Algebra<F>,
> MulAssign<ExtField<F, D, S, F>> for PackedExtField<F, D, S, P> {
    ghost mul_assign_gives = { λ x v r. F.packed_product_gives x.value.value (map P.embed v.value) r.value.value };

    #[inline]
    fn mul_assign(&mut self, rhs: ExtField<F, D, S, F>) {
        *self = *self * rhs;
    }
}

impl<F: ExtensionOverAlgebra<P, D, S>, const D: usize, S: ExtensionShape, P: Algebra<F>> Algebra<
    ExtField<F, D, S, F>,
> for PackedExtField<F, D, S, P> {
    ghost use Rattle.std.specs.Prelude.{refl, []};
    ghost use Rattle.std.proofs.Common.{lit<};
    ghost use Rattle.p3_packed_extension.specs.PackedValues.{spread, same_packed, spread_keeps, spread_sum, spread_difference, spread_product};

    ghost embed = { spread P.embed };

    const BATCHED_LC_CHUNK: usize = 8;

    ghost BATCHED_LC_CHUNK = { 8 };

    /// By the operators of packed extension values.
    #[inline]
    fn mixed_dot_product(a: &[Self], f: &[ExtField<F, D, S, F>]) -> Self {
        sum_of_products(Self::constant(P::zero()), a, f)
    }

    ghost chunk_length = { (3, lit< tt, refl) };

    ghost embeds = { spread_keeps P.ops F.ops P.embed P.embeds F.modulus };

    ghost froms = { λ v r h. same_packed P.ops [] r (spread P.embed v) h };

    ghost mixed_adds = { record { callable = λ _ _ _ _ _ _. P.mixed_adds.callable _ _; exact = spread_sum P.ops (map P.embed F.modulus) P.embed F.ops.zero _ P.mixed_adds.exact } };

    ghost mixed_add_assigns = { record { callable = λ _ _ _ _ _ _. P.mixed_adds.callable _ _; exact = spread_sum P.ops (map P.embed F.modulus) P.embed F.ops.zero _ P.mixed_adds.exact } };

    ghost mixed_subs = { record { callable = λ _ _ _ _ _ _. P.mixed_subs.callable _ _; exact = spread_difference P.ops (map P.embed F.modulus) P.embed F.ops.zero _ P.mixed_subs.exact } };

    ghost mixed_sub_assigns = { record { callable = λ _ _ _ _ _ _. P.mixed_subs.callable _ _; exact = spread_difference P.ops (map P.embed F.modulus) P.embed F.ops.zero _ P.mixed_subs.exact } };

    ghost mixed_muls = { record { callable = λ _ _. tt; exact = λ x v r h. spread_product P.ops (map P.embed F.modulus) P.embed x v r (F.packed_products _ _ _ h) } };

    ghost mixed_mul_assigns = { record { callable = λ _ _. tt; exact = λ x v r h. spread_product P.ops (map P.embed F.modulus) P.embed x v r (F.packed_products _ _ _ h) } };
}

/// The sum of extension values, in every lane.
impl<
    F: ExtensionOverAlgebra<P, D, S>,
    const D: usize,
    S: ExtensionShape,
    P: Algebra<F> + HoldsScalar<F>,
> Sum<ExtField<F, D, S, F>> for PackedExtField<F, D, S, P> {
    ghost use Rattle.p3_theory.specs.Rings.Operators.{sum_list};
    ghost use Rattle.p3_extension.specs.Values.{ext_ops};
    ghost use Rattle.p3_packed_extension.specs.PackedValues.{spread};

    ghost sum_gives = { λ xs r. r ≡ spread P.embed (sum_list (ext_ops F.ops F.modulus) xs) };

    #[inline]
    fn sum<I: Iterator<Item = ExtField<F, D, S, F>>>(iter: I) -> Self {
        let start = <ExtField<F, D, S, F> as PrimeCharacteristicRing>::zero();
        let total = sum_from(start, iter);
        Self::from(total)
    }
}

/// The product of extension values, in every lane.
impl<
    F: ExtensionOverAlgebra<P, D, S>,
    const D: usize,
    S: ExtensionShape,
    P: Algebra<F> + HoldsScalar<F>,
> Product<ExtField<F, D, S, F>> for PackedExtField<F, D, S, P> {
    ghost use Rattle.p3_theory.specs.Rings.Operators.{product_list};
    ghost use Rattle.p3_extension.specs.Values.{ext_ops};
    ghost use Rattle.p3_packed_extension.specs.PackedValues.{spread};

    ghost product_gives = { λ xs r. r ≡ spread P.embed (product_list (ext_ops F.ops F.modulus) xs) };

    #[inline]
    fn product<I: Iterator<Item = ExtField<F, D, S, F>>>(iter: I) -> Self {
        let start = <ExtField<F, D, S, F> as PrimeCharacteristicRing>::one();
        let product = product_from(start, iter);
        Self::from(product)
    }
}
