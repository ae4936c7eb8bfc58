//! Extension values, their operators, and the ring that they are.
ghost use Rattle.std.specs.Prelude.{◌≡◌, ◌<◌, ℕ, length, get_or, map};
ghost use Rattle.p3_theory.specs.Rings.Ring.{Ops};
ghost use Rattle.p3_theory.specs.Polynomials.Polynomial.{embed};

use super::{ExtensionAlgebra, ExtensionProduct, ExtensionShape};
use p3_ring::accumulate::{product_from, sum_from};
use p3_ring::ring::{PrimeCharacteristicRing, RingSums};
use std::alloc::AllocError;
use std::iter::{Product, Sum};
use std::marker::PhantomData;
use std::ops::{Add, AddAssign, Mul, MulAssign, Neg, Sub, SubAssign};

/// A value of the extension of F of degree D by the shape S, as its D coefficients in A, from the
/// constant one upward. Upstream's `BinomialExtensionField`, `CubicTrinomialExtensionField` and
/// `QuinticTrinomialExtensionField` in one.
pub struct ExtField<F, const D: usize, S, A = F> {
    pub value: [A; D],
    of: PhantomData<(F, S)>,
    pub ghost sized: { length value ≡ D },
}

impl<F: Copy, const D: usize, S: Copy, A: Copy> Clone for ExtField<F, D, S, A> {
    ghost use Rattle.std.specs.Prelude.{⊤};

    ghost is_clone = { λ x y. y ≡ x };

    ghost is_infallible = { λ _. ⊤ };

    #[inline]
    fn clone(&self) -> Result<Self, AllocError> {
        Ok(*self)
    }
}

impl<F: Copy, const D: usize, S: Copy, A: Copy> Copy for ExtField<F, D, S, A> {}

impl<F, const D: usize, S, A> ExtField<F, D, S, A> {
    /// The value with these coefficients.
    #[inline]
    pub fn new(value: [A; D]) -> Self
        ensures { result.value ≡ value }
    {
        ExtField {
            value,
            of: PhantomData,
        }
    }
}

impl<F: Copy, const D: usize, S: Copy, A: Copy> ExtField<F, D, S, A> {
    /// The values with these coefficient lists, one or more. Upstream's `new_array`.
    #[inline]
    pub fn new_array<const N: usize>(input: [[A; D]; N]) -> [Self; N]
        requires { 0 < N }
        ensures { map (λ x. x.value) result ≡ input }
    {
        let mut output = [Self::new(input[0]); N];
        for i in 1..N {
            output[i] = Self::new(input[i]);
        }
        output
    }
}

impl<F: Copy, const D: usize, S: Copy, A: PrimeCharacteristicRing> ExtField<F, D, S, A> {
    /// An element of the base as a value: x, 0, .., 0.
    #[inline]
    pub(crate) fn constant(x: A) -> Self
        requires { 0 < D }
        ensures { result.value ≡ embed A.ops D x }
    {
        let mut value = [A::zero(); D];
        value[0] = x;
        Self::new(value)
    }
}

impl<F, const D: usize, S, A: PartialEq> PartialEq for ExtField<F, D, S, A> {
    ghost use Rattle.std.specs.Cmp.Lexicographic.{pointwise};
    ghost use Rattle.p3_extension.specs.Values.{values_per};

    ghost eq = { λ x y. pointwise A.eq x.value y.value };

    ghost laws = { values_per A.laws };

    #[inline]
    fn eq(&self, other: &Self) -> bool {
        self.value == other.value
    }
}

impl<F, const D: usize, S, A: Eq> Eq for ExtField<F, D, S, A> {
    ghost use Rattle.p3_extension.specs.Values.{values_equiv};

    ghost laws = { values_equiv A.Eq.laws };
}

impl<F, const D: usize, S, A: Copy + Add<Output = A>> Add for ExtField<F, D, S, A> {
    type Output = Self;

    ghost can_add = { λ x y. (d : A) (k : ℕ) → k < D → A.can_add (get_or x.value k d) (get_or y.value k d) };

    ghost add_gives = { λ x y r. (d : A) (k : ℕ) → k < D → A.add_gives (get_or x.value k d) (get_or y.value k d) (get_or r.value k d) };

    #[inline]
    fn add(self, other: Self) -> Self {
        let mut value = self.value;
        for i in 0..D {
            value[i] = self.value[i] + other.value[i];
        }
        Self::new(value)
    }
}

impl<F, const D: usize, S, A: Copy + Sub<Output = A>> Sub for ExtField<F, D, S, A> {
    type Output = Self;

    ghost can_sub = { λ x y. (d : A) (k : ℕ) → k < D → A.can_sub (get_or x.value k d) (get_or y.value k d) };

    ghost sub_gives = { λ x y r. (d : A) (k : ℕ) → k < D → A.sub_gives (get_or x.value k d) (get_or y.value k d) (get_or r.value k d) };

    #[inline]
    fn sub(self, other: Self) -> Self {
        let mut value = self.value;
        for i in 0..D {
            value[i] = self.value[i] - other.value[i];
        }
        Self::new(value)
    }
}

impl<F, const D: usize, S, A: Copy + Neg<Output = A>> Neg for ExtField<F, D, S, A> {
    type Output = Self;

    ghost can_neg = { λ x. (d : A) (k : ℕ) → k < D → A.can_neg (get_or x.value k d) };

    ghost neg_gives = { λ x r. (d : A) (k : ℕ) → k < D → A.neg_gives (get_or x.value k d) (get_or r.value k d) };

    #[inline]
    fn neg(self) -> Self {
        let mut value = self.value;
        for i in 0..D {
            value[i] = -self.value[i];
        }
        Self::new(value)
    }
}

impl<F, const D: usize, S, A: ExtensionProduct<F, D, S>> Mul for ExtField<F, D, S, A> {
    type Output = Self;

    ghost mul_gives = { λ x y r. A.ext_product_gives x.value y.value r.value };

    /// Always inlined: as a call, each product of a chain would wait until the one before is in memory.
    #[inline(always)]
    fn mul(self, other: Self) -> Self {
        let mut value = self.value;
        A::ext_product(&self.value, &other.value, &mut value);
        Self::new(value)
    }
}

impl<F: Copy, const D: usize, S: Copy, A: Copy + Add<Output = A>> AddAssign
    for ExtField<F, D, S, A> {
    ghost can_add_assign = { λ x y. (d : A) (k : ℕ) → k < D → A.can_add (get_or x.value k d) (get_or y.value k d) };

    ghost add_assign_gives = { λ x y r. (d : A) (k : ℕ) → k < D → A.add_gives (get_or x.value k d) (get_or y.value k d) (get_or r.value k d) };

    #[inline]
    fn add_assign(&mut self, other: Self) {
        *self = *self + other;
    }
}

impl<F: Copy, const D: usize, S: Copy, A: Copy + Sub<Output = A>> SubAssign
    for ExtField<F, D, S, A> {
    ghost can_sub_assign = { λ x y. (d : A) (k : ℕ) → k < D → A.can_sub (get_or x.value k d) (get_or y.value k d) };

    ghost sub_assign_gives = { λ x y r. (d : A) (k : ℕ) → k < D → A.sub_gives (get_or x.value k d) (get_or y.value k d) (get_or r.value k d) };

    #[inline]
    fn sub_assign(&mut self, other: Self) {
        *self = *self - other;
    }
}

impl<F: Copy, const D: usize, S: Copy, A: ExtensionProduct<F, D, S>> MulAssign
    for ExtField<F, D, S, A> {
    ghost mul_assign_gives = { λ x y r. A.ext_product_gives x.value y.value r.value };

    #[inline]
    fn mul_assign(&mut self, other: Self) {
        *self = *self * other;
    }
}

impl<F: Copy, const D: usize, S: ExtensionShape, A: ExtensionAlgebra<F, D, S>> Sum<
    ExtField<F, D, S, A>,
> for ExtField<F, D, S, A> {
    ghost use Rattle.p3_theory.specs.Rings.Operators.{sum_list};
    ghost use Rattle.p3_extension.specs.Values.{ext_ops};

    ghost sum_gives = { λ xs r. r ≡ sum_list (ext_ops A.ops A.modulus) xs };

    #[inline]
    fn sum<I: Iterator<Item = Self>>(iter: I) -> Self {
        let start = ExtField::<F, D, S, A>::new([A::zero(); D]);
        sum_from(start, iter)
    }
}

impl<F: Copy, const D: usize, S: ExtensionShape, A: ExtensionAlgebra<F, D, S>> Product<
    ExtField<F, D, S, A>,
> for ExtField<F, D, S, A> {
    ghost use Rattle.p3_theory.specs.Rings.Operators.{product_list};
    ghost use Rattle.p3_extension.specs.Values.{ext_ops};

    ghost product_gives = { λ xs r. r ≡ product_list (ext_ops A.ops A.modulus) xs };

    #[inline]
    fn product<I: Iterator<Item = Self>>(iter: I) -> Self {
        let start = <Self as PrimeCharacteristicRing>::one();
        product_from(start, iter)
    }
}

impl<
    F: Copy,
    const D: usize,
    S: ExtensionShape,
    A: ExtensionAlgebra<F, D, S>,
> PrimeCharacteristicRing for ExtField<F, D, S, A> {
    ghost use Rattle.p3_theory.specs.Rings.Ring.{ring_of};
    ghost use Rattle.p3_extension.specs.Values.{ext_ops, ext_laws, is_sum, is_difference, is_negation, same_value};
    ghost use Rattle.p3_extension.specs.Bases.{characteristic_of};

    type PrimeSubfield = A::PrimeSubfield;

    ghost ops = { ext_ops A.ops A.modulus };

    #[inline]
    fn zero() -> Self {
        ExtField::<F, D, S, A>::constant(A::zero())
    }

    #[inline]
    fn one() -> Self {
        ExtField::<F, D, S, A>::constant(A::one())
    }

    #[inline]
    fn from_prime_subfield(f: A::PrimeSubfield) -> Self {
        ExtField::<F, D, S, A>::constant(A::from_prime_subfield(f))
    }

    #[inline]
    fn halve(&self) -> Self {
        let mut value = self.value;
        for i in 0..D {
            value[i] = self.value[i].halve();
        }
        Self::new(value)
    }

    #[inline(always)]
    fn square(&self) -> Self {
        let mut res = [A::zero(); D];
        A::ext_square(&self.value, &mut res);
        Self::new(res)
    }

    #[inline]
    fn mul_2exp_u64(&self, exponent: u64) -> Self {
        let mut value = self.value;
        for i in 0..D {
            value[i] = self.value[i].mul_2exp_u64(exponent);
        }
        Self::new(value)
    }

    #[inline]
    fn div_2exp_u64(&self, exponent: u64) -> Self {
        let mut value = self.value;
        for i in 0..D {
            value[i] = self.value[i].div_2exp_u64(exponent);
        }
        Self::new(value)
    }

    ghost ring = { ext_laws (ring_of A.ring) D A.at_least_two A.modulus A.monic };

    ghost characteristic = { characteristic_of (ring_of A.ring) D A.at_least_two A.modulus A.monic A.PrimeSubfield.order A.characteristic };

    ghost adds = { record { callable = λ _ _ _ _ _. A.adds.callable _ _; exact = λ x y r h. is_sum A.ops A.modulus A.add_gives A.adds.exact x y r h } };

    ghost add_assigns = { record { callable = λ _ _ _ _ _. A.adds.callable _ _; exact = λ x y r h. is_sum A.ops A.modulus A.add_gives A.adds.exact x y r h } };

    ghost subs = { record { callable = λ _ _ _ _ _. A.subs.callable _ _; exact = λ x y r h. is_difference A.ops A.modulus A.sub_gives A.subs.exact x y r h } };

    ghost sub_assigns = { record { callable = λ _ _ _ _ _. A.subs.callable _ _; exact = λ x y r h. is_difference A.ops A.modulus A.sub_gives A.subs.exact x y r h } };

    ghost negs = { record { callable = λ _ _ _ _. A.negs.callable _; exact = λ x r h. is_negation A.ops A.modulus A.neg_gives A.negs.exact x r h } };

    ghost muls = { record { callable = λ _ _. tt; exact = λ x y r h. same_value r ((ext_ops A.ops A.modulus).mul x y) (A.ext_products _ _ _ h) } };

    ghost mul_assigns = { record { callable = λ _ _. tt; exact = λ x y r h. same_value r ((ext_ops A.ops A.modulus).mul x y) (A.ext_products _ _ _ h) } };
}

impl<F: Copy, const D: usize, S: ExtensionShape, A: ExtensionAlgebra<F, D, S>> RingSums
    for ExtField<F, D, S, A> {
    ghost sums = { record { callable = λ _. tt; exact = λ _ _ h. h; whole = λ _. tt } };

    ghost products = { record { callable = λ _. tt; exact = λ _ _ h. h; whole = λ _. tt } };
}
