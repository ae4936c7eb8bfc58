//! Packed extension values, their operators, and the ring that they are.
ghost use Rattle.std.specs.Prelude.{◌≡◌, ◌<◌, ℕ, get_or, map, replicate};
ghost use Rattle.p3_theory.specs.Polynomials.Polynomial.{embed};

use p3_extension::extension::{
    Binomial, CubicTrinomial, ExtField, ExtensionOverAlgebra, ExtensionShape, PackedProduct,
    QuinticTrinomial, SepticTrinomial,
};
use p3_field_traits::packed_traits::{Inhabited, Packable};
use p3_ring::accumulate::{product_from, sum_from};
use p3_ring::ring::{Algebra, PrimeCharacteristicRing, RingSums};
use std::alloc::AllocError;
use std::iter::{Product, Sum};
use std::ops::{Add, AddAssign, Mul, MulAssign, Neg, Sub, SubAssign};

/// A packing of values of `Scalar`, so that an extension value is not taken for a packing of its base:
/// whoever has a packing type implements it there. This project's own.
pub trait Packing: Copy {
    /// What stands in a lane.
    type Scalar;
}

/// A value that may stand in a lane is a packing of itself, of one lane.
impl<T: Packable> Packing for T {
    type Scalar = T;
}

/// Values of the extension of F of degree D by the shape S side by side, as their D coefficients,
/// each a packing in P, from the constant one upward. Upstream's `PackedExtField`.
#[derive_where(PartialEq, Eq, PartialOrd, Ord, Hash, Debug; P)]
pub struct PackedExtField<F, const D: usize, S, P> {
    pub value: ExtField<F, D, S, P>,
}

/// Values of an extension of F modulo `X^D - W` side by side. Upstream's
/// `PackedBinomialExtensionField`.
pub type PackedBinomialExtensionField<F, P, const D: usize> = PackedExtField<F, D, Binomial<F>, P>;

/// Values of an extension of F modulo `X^3 - X - 1` side by side. Upstream's
/// `PackedCubicTrinomialExtensionField`.
pub type PackedCubicTrinomialExtensionField<F, P> = PackedExtField<F, 3, CubicTrinomial, P>;

/// Values of an extension of F modulo `X^5 + X^2 - 1` side by side. Upstream's
/// `PackedQuinticTrinomialExtensionField`.
pub type PackedQuinticTrinomialExtensionField<F, P> = PackedExtField<F, 5, QuinticTrinomial, P>;

/// Values of an extension of F modulo `X^7 - X - 1` side by side, this project's own.
pub type PackedSepticTrinomialExtensionField<F, P> = PackedExtField<F, 7, SepticTrinomial, P>;

impl<F: Copy, const D: usize, S: Copy, P: Copy> Clone for PackedExtField<F, D, S, P> {
    ghost use Rattle.std.specs.Prelude.{⊤};

    ghost is_clone = { λ x y. y ≡ x };

    ghost is_infallible = { λ _. ⊤ };

    #[inline]
    fn clone(&self) -> Result<Self, AllocError> {
        Ok(*self)
    }
}

impl<F: Copy, const D: usize, S: Copy, P: Copy> Copy for PackedExtField<F, D, S, P> {}

impl<F: Copy, const D: usize, S: Copy, P: Copy> PackedExtField<F, D, S, P> {
    /// The value with these coefficients.
    #[inline]
    pub fn new(value: [P; D]) -> Self
        ensures { result.value.value ≡ value }
    {
        PackedExtField {
            value: ExtField::<F, D, S, P>::new(value),
        }
    }
}

impl<F: Copy, const D: usize, S: Copy, P: PrimeCharacteristicRing> PackedExtField<F, D, S, P> {
    /// A packing as a value: x, 0, .., 0.
    #[inline]
    pub(crate) fn constant(x: P) -> Self
        requires { 0 < D }
        ensures { result.value.value ≡ embed P.ops D x }
    {
        let mut value = [P::zero(); D];
        value[0] = x;
        Self::new(value)
    }
}

/// The value whose coefficients are all one value of the packing.
impl<F: Copy, const D: usize, S: Copy, P: Inhabited> Inhabited for PackedExtField<F, D, S, P> {
    ghost use Rattle.p3_packed_extension.specs.PackedValues.{packed};

    ghost inhabitant = { packed ⟦<ExtField<F, D, S, P> as Inhabited>⟧.inhabitant };
}

/// Zero. Upstream's `Default` of its packed extensions.
impl<F: Copy, const D: usize, S: Copy, P: PrimeCharacteristicRing> Default
    for PackedExtField<F, D, S, P> {
    ghost is_default = { λ x. x.value.value ≡ replicate D P.ops.zero };

    /// The value whose coefficients are all zero.
    #[inline]
    fn default() -> Self {
        Self::new([P::zero(); D])
    }
}

impl<F: Copy, const D: usize, S: Copy, P: Copy + Add<Output = P>> Add
    for PackedExtField<F, D, S, P> {
    type Output = Self;

    ghost can_add = { λ x y. (d : P) (k : ℕ) → k < D → P.can_add (get_or x.value.value k d) (get_or y.value.value k d) };

    ghost add_gives = { λ x y r. (d : P) (k : ℕ) → k < D → P.add_gives (get_or x.value.value k d) (get_or y.value.value k d) (get_or r.value.value k d) };

    #[inline]
    fn add(self, other: Self) -> Self {
        PackedExtField {
            value: self.value + other.value,
        }
    }
}

impl<F: Copy, const D: usize, S: Copy, P: Copy + Add<Output = P>> AddAssign
    for PackedExtField<F, D, S, P> {
    ghost can_add_assign = { λ x y. (d : P) (k : ℕ) → k < D → P.can_add (get_or x.value.value k d) (get_or y.value.value k d) };

    ghost add_assign_gives = { λ x y r. (d : P) (k : ℕ) → k < D → P.add_gives (get_or x.value.value k d) (get_or y.value.value k d) (get_or r.value.value k d) };

    #[inline]
    fn add_assign(&mut self, other: Self) {
        *self = *self + other;
    }
}

impl<F: Copy, const D: usize, S: Copy, P: Copy + Sub<Output = P>> Sub
    for PackedExtField<F, D, S, P> {
    type Output = Self;

    ghost can_sub = { λ x y. (d : P) (k : ℕ) → k < D → P.can_sub (get_or x.value.value k d) (get_or y.value.value k d) };

    ghost sub_gives = { λ x y r. (d : P) (k : ℕ) → k < D → P.sub_gives (get_or x.value.value k d) (get_or y.value.value k d) (get_or r.value.value k d) };

    #[inline]
    fn sub(self, other: Self) -> Self {
        PackedExtField {
            value: self.value - other.value,
        }
    }
}

impl<F: Copy, const D: usize, S: Copy, P: Copy + Sub<Output = P>> SubAssign
    for PackedExtField<F, D, S, P> {
    ghost can_sub_assign = { λ x y. (d : P) (k : ℕ) → k < D → P.can_sub (get_or x.value.value k d) (get_or y.value.value k d) };

    ghost sub_assign_gives = { λ x y r. (d : P) (k : ℕ) → k < D → P.sub_gives (get_or x.value.value k d) (get_or y.value.value k d) (get_or r.value.value k d) };

    #[inline]
    fn sub_assign(&mut self, other: Self) {
        *self = *self - other;
    }
}

impl<F: Copy, const D: usize, S: Copy, P: Copy + Neg<Output = P>> Neg
    for PackedExtField<F, D, S, P> {
    type Output = Self;

    ghost can_neg = { λ x. (d : P) (k : ℕ) → k < D → P.can_neg (get_or x.value.value k d) };

    ghost neg_gives = { λ x r. (d : P) (k : ℕ) → k < D → P.neg_gives (get_or x.value.value k d) (get_or r.value.value k d) };

    #[inline]
    fn neg(self) -> Self {
        PackedExtField { value: -self.value }
    }
}

impl<F: PackedProduct<P, D, S>, const D: usize, S: Copy, P: Copy> Mul
    for PackedExtField<F, D, S, P> {
    type Output = Self;

    ghost mul_gives = { λ x y r. F.packed_product_gives x.value.value y.value.value r.value.value };

    /// Always inlined: as a call, each product of a chain would wait until the one before is in memory.
    #[inline(always)]
    fn mul(self, other: Self) -> Self {
        let x = self.value;
        let y = other.value;
        let mut value = [F::placeholder(); D];
        F::packed_product(&x.value, &y.value, &mut value);
        Self::new(value)
    }
}

impl<F: PackedProduct<P, D, S>, const D: usize, S: Copy, P: Copy> MulAssign
    for PackedExtField<F, D, S, P> {
    ghost mul_assign_gives = { λ x y r. F.packed_product_gives x.value.value y.value.value r.value.value };

    #[inline(always)]
    fn mul_assign(&mut self, other: Self) {
        *self = *self * other;
    }
}

impl<F: ExtensionOverAlgebra<P, D, S>, const D: usize, S: ExtensionShape, P: Algebra<F>> Sum<
    PackedExtField<F, D, S, P>,
> for PackedExtField<F, D, S, P> {
    ghost use Rattle.p3_theory.specs.Rings.Operators.{sum_list};
    ghost use Rattle.p3_packed_extension.specs.PackedValues.{packed_ops};

    ghost sum_gives = { λ xs r. r ≡ sum_list (packed_ops P.ops (map P.embed F.modulus)) xs };

    #[inline]
    fn sum<I: Iterator<Item = Self>>(iter: I) -> Self {
        let start = Self::new([P::zero(); D]);
        sum_from(start, iter)
    }
}

impl<F: ExtensionOverAlgebra<P, D, S>, const D: usize, S: ExtensionShape, P: Algebra<F>> Product<
    PackedExtField<F, D, S, P>,
> for PackedExtField<F, D, S, P> {
    ghost use Rattle.p3_theory.specs.Rings.Operators.{product_list};
    ghost use Rattle.p3_packed_extension.specs.PackedValues.{packed_ops};

    ghost product_gives = { λ xs r. r ≡ product_list (packed_ops P.ops (map P.embed F.modulus)) xs };

    #[inline]
    fn product<I: Iterator<Item = Self>>(iter: I) -> Self {
        let start = <Self as PrimeCharacteristicRing>::one();
        product_from(start, iter)
    }
}

impl<
    F: ExtensionOverAlgebra<P, D, S>,
    const D: usize,
    S: ExtensionShape,
    P: Algebra<F>,
> PrimeCharacteristicRing for PackedExtField<F, D, S, P> {
    ghost use Rattle.p3_theory.specs.Rings.Ring.{ring_of};
    ghost use Rattle.p3_packed_extension.specs.PackedValues.{packed_ops, packed_laws, packed_characteristic, packed_sum, packed_difference, packed_negation, packed_product};

    type PrimeSubfield = P::PrimeSubfield;

    ghost ops = { packed_ops P.ops (map P.embed F.modulus) };

    #[inline]
    fn zero() -> Self {
        Self::constant(P::zero())
    }

    #[inline]
    fn one() -> Self {
        Self::constant(P::one())
    }

    #[inline]
    fn from_prime_subfield(f: P::PrimeSubfield) -> Self {
        Self::constant(P::from_prime_subfield(f))
    }

    #[inline]
    fn halve(&self) -> Self {
        let mut value = self.value.value;
        for i in 0..D {
            value[i] = self.value.value[i].halve();
        }
        Self::new(value)
    }

    #[inline]
    fn square(&self) -> Self {
        let x = self.value;
        let mut value = [F::placeholder(); D];
        F::packed_square(&x.value, &mut value);
        Self::new(value)
    }

    #[inline]
    fn mul_2exp_u64(&self, exponent: u64) -> Self {
        let mut value = self.value.value;
        for i in 0..D {
            value[i] = self.value.value[i].mul_2exp_u64(exponent);
        }
        Self::new(value)
    }

    #[inline]
    fn div_2exp_u64(&self, exponent: u64) -> Self {
        let mut value = self.value.value;
        for i in 0..D {
            value[i] = self.value.value[i].div_2exp_u64(exponent);
        }
        Self::new(value)
    }

    ghost ring = { packed_laws (ring_of P.ring) P.embeds F.at_least_two F.modulus F.monic };

    ghost characteristic = { packed_characteristic (ring_of P.ring) P.embeds F.at_least_two F.modulus F.monic P.PrimeSubfield.order P.characteristic };

    ghost adds = { record { callable = λ _ _ _ _ _. P.adds.callable _ _; exact = packed_sum P.ops (map P.embed F.modulus) _ P.adds.exact } };

    ghost add_assigns = { record { callable = λ _ _ _ _ _. P.adds.callable _ _; exact = packed_sum P.ops (map P.embed F.modulus) _ P.adds.exact } };

    ghost subs = { record { callable = λ _ _ _ _ _. P.subs.callable _ _; exact = packed_difference P.ops (map P.embed F.modulus) _ P.subs.exact } };

    ghost sub_assigns = { record { callable = λ _ _ _ _ _. P.subs.callable _ _; exact = packed_difference P.ops (map P.embed F.modulus) _ P.subs.exact } };

    ghost negs = { record { callable = λ _ _ _ _. P.negs.callable _; exact = packed_negation P.ops (map P.embed F.modulus) P.neg_gives P.negs.exact } };

    ghost muls = { record { callable = λ _ _. tt; exact = λ x y r h. packed_product P.ops (map P.embed F.modulus) x y r (F.packed_products _ _ _ h) } };

    ghost mul_assigns = { record { callable = λ _ _. tt; exact = λ x y r h. packed_product P.ops (map P.embed F.modulus) x y r (F.packed_products _ _ _ h) } };
}

impl<F: ExtensionOverAlgebra<P, D, S>, const D: usize, S: ExtensionShape, P: Algebra<F>> RingSums
    for PackedExtField<F, D, S, P> {
    ghost sums = { record { callable = λ _. tt; exact = λ _ _ h. h; whole = λ _. tt } };

    ghost products = { record { callable = λ _. tt; exact = λ _ _ h. h; whole = λ _. tt } };
}
