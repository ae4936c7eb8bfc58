//! Extensions modulo a polynomial with integer coefficients: one impl of each trait, for all of them.
ghost use Rattle.std.specs.Prelude.{◌≡◌, ◌<◌, ◌+◌, ℕ, List};
ghost use Rattle.p3_theory.specs.FrobeniusMaps.FrobeniusTable.{IsFrobeniusTable};
ghost use Rattle.p3_theory.specs.Polynomials.IntegerPolynomials.{over};
ghost use Rattle.p3_theory.specs.Polynomials.Polynomial.{at, quotient_mul, quotient_ops};
ghost use Rattle.p3_theory.specs.Rings.Powers.{power};

use super::{
    ExtensionAlgebra, ExtensionOverAlgebra, ExtensionShape, FrobeniusExtendable, PackedProduct,
    sealed,
};
use p3_extension_formulas::integer_polynomial::IntegerPolynomial;
use p3_extension_formulas::power_table::{PowerTable, image_by_table};
use p3_field_traits::field::Field;
use p3_ring::ring::{Algebra, PrimeCharacteristicRing};
use std::alloc::AllocError;
use std::marker::PhantomData;

/// The shape of an extension modulo the polynomial S, of degree D.
#[derive(Debug, PartialEq, Eq, PartialOrd, Ord, Hash)]
pub struct Modulo<S, const D: usize>(PhantomData<S>);

impl<S, const D: usize> Clone for Modulo<S, D> {
    ghost use Rattle.std.specs.Prelude.{⊤};

    ghost is_clone = { λ x y. y ≡ x };

    ghost is_infallible = { λ _. ⊤ };

    #[inline]
    fn clone(&self) -> Result<Self, AllocError> {
        Ok(*self)
    }
}

impl<S, const D: usize> Copy for Modulo<S, D> {}

impl<S: IntegerPolynomial<D>, const D: usize> sealed::Sealed for Modulo<S, D> {}

impl<S: IntegerPolynomial<D>, const D: usize> ExtensionShape for Modulo<S, D> {
    ghost is_modulus = { λ A o d f. f ≡ over o S.coefficients };
}

impl<
    R: PrimeCharacteristicRing,
    P: Algebra<R>,
    S: IntegerPolynomial<D>,
    const D: usize,
> PackedProduct<P, D, Modulo<S, D>> for R {
    ghost packed_product_gives = { λ a b r. r ≡ quotient_mul P.ops D (over P.ops S.coefficients) a b };

    #[inline(always)]
    fn placeholder() -> P {
        P::zero()
    }

    #[inline]
    fn packed_product(a: &[P], b: &[P], res: &mut [P]) {
        S::product::<P>(a, b, res);
    }

    #[inline]
    fn packed_square(a: &[P], res: &mut [P]) {
        S::square::<P>(a, res);
    }
}

impl<
    R: ExtensionAlgebra<R, D, Modulo<S, D>>,
    P: Algebra<R>,
    S: IntegerPolynomial<D>,
    const D: usize,
> ExtensionOverAlgebra<P, D, Modulo<S, D>> for R {
    ghost use Rattle.std.proofs.Common.{◌∙◌, ap, map, sym};
    ghost use Rattle.p3_theory.specs.Polynomials.IntegerPolynomials.{over-along};

    ghost packed_products = { λ a b r h. h ∙ sym (ap (λ f. quotient_mul P.ops D f a b) (ap (map P.embed) R.of_shape ∙ over-along P.embeds S.coefficients)) };
}

/// A field with a Frobenius map for its extension modulo the polynomial S: whoever gives the table of its
/// powers. Upstream has a trait for each polynomial, as `CubicTrinomialExtendable`.
pub trait ExtendableModulo<const D: usize, S: IntegerPolynomial<D>>: Field
    + ExtensionAlgebra<Self, D, Modulo<S, D>> {
    /// The image of X.
    ghost image: { List Self };

    /// The coefficients of the generator candidate.
    ghost ext_generator: { ℕ → Self };

    /// The coefficient at `X^k` of power i of the image of X.
    fn power_of_image(i: usize, k: usize) -> Self
        requires power { i < D }
        requires index { k < D }
        ensures { result ≡ at Self.ops (power (quotient_ops Self.ops D Self.modulus) image i) k };

    /// The coefficient at `X^i` of a generator candidate; no law says that it generates.
    fn ext_generator(i: usize) -> Self
        requires { i < D }
        ensures { result ≡ ext_generator i };

    /// The coefficient at `X^k` of power i + 1 of the image of X. Upstream's `FROBENIUS_COEFFS`.
    #[inline]
    final fn frobenius_coeffs(i: usize, k: usize) -> Self
        requires power { i + 1 < D }
        requires index { k < D }
        ensures { result ≡ at Self.ops (power (quotient_ops Self.ops D Self.modulus) image (i + 1)) k }
    {
        Self::power_of_image(i + 1, k)
    }

    /// The map keeps sums and products, fixes the base, is the identity after D times, and leaves only
    /// base values unchanged.
    ghost table_laws: { IsFrobeniusTable Self.ops D Self.modulus image };
}

/// The powers of the image of X.
struct ImagePowers<F, S>(PhantomData<(F, S)>);

impl<F: ExtendableModulo<D, S>, S: IntegerPolynomial<D>, const D: usize> PowerTable<F, D>
    for ImagePowers<F, S> {
    ghost use Rattle.std.specs.Prelude.{refl};

    ghost powers = { power (quotient_ops F.ops D F.modulus) F.ExtendableModulo.image };

    #[inline]
    fn coefficient(i: usize, k: usize) -> F {
        F::power_of_image(i, k)
    }

    ghost first_is_one = { refl };
}

impl<F: ExtendableModulo<D, S>, S: IntegerPolynomial<D>, const D: usize> FrobeniusExtendable<
    D,
    Modulo<S, D>,
> for F {
    ghost image = { F.ExtendableModulo.image };

    ghost generator_coefficients = { F.ExtendableModulo.ext_generator };

    ghost algebra_id = { S.algebra_id };

    #[inline]
    fn algebra_id() -> &'static str {
        S::algebra_id()
    }

    #[inline]
    fn apply_frobenius(a: &[F], res: &mut [F]) {
        image_by_table::<F, ImagePowers<F, S>, D>(a, res);
    }

    #[inline]
    fn constant_of_product(a: &[F], b: &[F]) -> F {
        S::constant_of_product::<F>(a, b)
    }

    #[inline]
    fn generator_coefficient(i: usize) -> F {
        F::ext_generator(i)
    }

    ghost frobenius_laws = { F.table_laws };
}
