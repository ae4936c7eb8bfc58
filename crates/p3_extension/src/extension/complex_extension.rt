//! Extensions by a root of minus one, and extensions over them.
ghost use Rattle.std.specs.Prelude.{◌≡◌, ◌≤◌, ◌<◌, [], ◌∷◌, ℕ};
ghost use Rattle.p3_theory.specs.Rings.Ring.{Ops, Invertible, subtract};
ghost use Rattle.p3_theory.specs.Rings.Multiples.{two};
ghost use Rattle.p3_theory.specs.Products.ComplexExtensions.{real_part, imaginary_part, conjugated, complex_norm, rotated};

use super::{
    Binomial, BinomialExtensionField, BinomiallyExtendable, ExtensionAlgebra, ExtensionProduct,
};
use p3_extension_formulas::binomial_extension::{ring_product, ring_square};
use p3_field_traits::field::Field;
use p3_ring::ring::{Algebra, PrimeCharacteristicRing};

/// The extension of F by `X^2 = -1`. Upstream's `Complex`.
pub type Complex<F> = BinomialExtensionField<F, 2>;

/// A field with an extension by `X^2 = -1`. Upstream's `ComplexExtendable`.
pub trait ComplexExtendable: Field {
    ghost use Rattle.p3_extension.specs.declared.extension.ext_field.ExtField.{ExtField};
    ghost use Rattle.p3_extension.specs.declared.extension.Binomial.{Binomial};

    /// The coefficients of the generator candidate.
    ghost complex_generator_coefficient: { ℕ → Self };

    /// The elements that `circle_two_adic_generator` answers.
    ghost circle_two_adic: { ℕ → ExtField Self 2 (Binomial Self) Self };

    /// The greatest number of bits that `circle_two_adic_generator` takes.
    const CIRCLE_TWO_ADICITY: usize;

    ghost CIRCLE_TWO_ADICITY: { ℕ };

    /// The coefficient at `X^i` of the generator candidate that `complex_generator` answers. This
    /// project's own.
    fn complex_generator_coefficient(i: usize) -> Self
        requires { i < 2 }
        ensures { result ≡ complex_generator_coefficient i };

    /// A chosen element of the extension, for a field one whose order has the full power of two. No
    /// law says that it has. Upstream's `COMPLEX_GENERATOR`.
    #[inline]
    final fn complex_generator() -> Complex<Self>
        ensures { result.value ≡ complex_generator_coefficient 0 ∷ complex_generator_coefficient 1 ∷ [] }
    {
        let real = Self::complex_generator_coefficient(0);
        let imag = Self::complex_generator_coefficient(1);
        Complex::<Self>::new([real, imag])
    }

    /// A chosen element of the extension for so many bits, for a field one of order `2^bits` among the
    /// elements of norm one. No law says that it is.
    fn circle_two_adic_generator(bits: usize) -> Complex<Self>
        requires { bits ≤ CIRCLE_TWO_ADICITY }
        ensures { result ≡ circle_two_adic bits };

    /// Two has an inverse, so minus one is apart from one.
    ghost two_has_an_inverse: { Invertible Self.ops (two Self.ops) };
}

impl<F: ComplexExtendable> ExtensionProduct<F, 2, Binomial<F>> for F {
    ghost use Rattle.p3_theory.specs.Polynomials.Polynomial.{quotient_mul, binomial};

    ghost ext_product_gives = { λ a b r. r ≡ quotient_mul F.ops 2 (binomial F.ops 2 (F.ops.neg F.ops.one)) a b };

    #[inline]
    fn ext_product(a: &[F], b: &[F], res: &mut [F]) {
        ring_product::<F, 2>(a, b, res, F::neg_one());
    }
}

impl<F: ComplexExtendable> ExtensionAlgebra<F, 2, Binomial<F>> for F {
    ghost use Rattle.std.specs.Prelude.{refl};
    ghost use Rattle.std.proofs.Common.{lit≤};
    ghost use Rattle.p3_theory.specs.Polynomials.Polynomial.{binomial};
    ghost use Rattle.p3_theory.specs.FrobeniusMaps.BinomialFrobenius.{binomial_is_monic};

    ghost modulus = { binomial F.ops 2 (F.ops.neg F.ops.one) };

    #[inline]
    fn ext_square(a: &[F], res: &mut [F]) {
        ring_square::<F, 2>(a, res, F::neg_one());
    }

    ghost at_least_two = { lit≤ tt };

    ghost of_shape = { (F.ops.neg F.ops.one, refl) };

    ghost monic = { binomial_is_monic F.ops 2 (lit≤ tt) (F.ops.neg F.ops.one) };

    ghost ext_products = { λ a b r h. h };
}

impl<F: ComplexExtendable> BinomiallyExtendable<2> for F {
    ghost use Rattle.std.specs.Prelude.{codes, refl};
    ghost use Rattle.p3_theory.specs.Rings.Ring.{ring_of};
    ghost use Rattle.p3_theory.specs.Products.ComplexExtensions.{minus_one_square, minus_one_apart};

    ghost w = { F.ops.neg F.ops.one };

    ghost dth_root = { F.ops.neg F.ops.one };

    ghost ext_generator = { F.complex_generator_coefficient };

    ghost binomial_algebra_id = { codes "p3-power-basis-v1:X^2+1" };

    #[inline]
    fn binomial_algebra_id() -> &'static str {
        "p3-power-basis-v1:X^2+1"
    }

    #[inline]
    fn w() -> F {
        F::neg_one()
    }

    #[inline]
    fn dth_root() -> F {
        F::neg_one()
    }

    #[inline]
    fn ext_generator(i: usize) -> F {
        F::complex_generator_coefficient(i)
    }

    ghost by_w = { refl };

    ghost root_power = { minus_one_square (ring_of F.ring) };

    ghost apart = { minus_one_apart (ring_of F.ring) F.two_has_an_inverse };
}

/// Values of degree two as complex ones. Products are not asked for, so W may be any.
impl<F: Copy, A: PrimeCharacteristicRing> BinomialExtensionField<F, 2, A> {
    /// The value with this coefficient at `X^0`, and this one at `X^1`.
    #[inline]
    pub fn new_complex(real: A, imag: A) -> Self
        ensures { result.value ≡ real ∷ imag ∷ [] }
    {
        Self::new([real, imag])
    }

    /// The value with this coefficient at `X^0` alone.
    #[inline]
    pub fn new_real(real: A) -> Self
        ensures { result.value ≡ real ∷ A.ops.zero ∷ [] }
    {
        Self::new_complex(real, A::zero())
    }

    /// The value with this coefficient at `X^1` alone.
    #[inline]
    pub fn new_imag(imag: A) -> Self
        ensures { result.value ≡ A.ops.zero ∷ imag ∷ [] }
    {
        Self::new_complex(A::zero(), imag)
    }

    /// The coefficient at `X^0`.
    #[inline]
    pub fn real(&self) -> A
        ensures { result ≡ real_part A.ops self.now.value }
    {
        self.value[0]
    }

    /// The coefficient at `X^1`.
    #[inline]
    pub fn imag(&self) -> A
        ensures { result ≡ imaginary_part A.ops self.now.value }
    {
        self.value[1]
    }

    /// The value with the coefficient at `X^1` negated.
    #[inline]
    pub fn conjugate(&self) -> Self
        ensures { result.value ≡ conjugated A.ops self.now.value }
    {
        let real = self.real();
        let imag = -self.imag();
        Self::new_complex(real, imag)
    }

    /// The sum of the squares of both coefficients.
    #[inline]
    pub fn norm(&self) -> A
        ensures { result ≡ complex_norm A.ops self.now.value }
    {
        self.real().square() + self.imag().square()
    }

    /// Both coefficients, from the one at `X^0` upward.
    #[inline]
    pub fn to_array(&self) -> [A; 2]
        ensures { result ≡ self.now.value }
    {
        self.value
    }

    /// The argument, over an algebra, times the value, where the square of X is minus one.
    #[inline]
    pub fn rotate<E: Algebra<A>>(&self, rhs: &Complex<E>) -> Complex<E>
        ensures { result.value ≡ rotated A.ops E.ops E.embed self.now.value rhs.now.value }
    {
        let real = self.real();
        let imag = self.imag();
        let (x, y) = (rhs.real(), rhs.imag());
        let turned_real = difference_of_multiples(x, real, y, imag);
        let turned_imag = sum_of_multiples(y, real, x, imag);
        Complex::<E>::new_complex(turned_real, turned_imag)
    }
}

/// `x * a - y * b`.
#[inline]
fn difference_of_multiples<A: PrimeCharacteristicRing, E: Algebra<A>>(x: E, a: A, y: E, b: A) -> E
    ensures { result ≡ subtract E.ops (E.ops.mul x (E.embed a)) (E.ops.mul y (E.embed b)) }
{
    x * a - y * b
}

/// `x * a + y * b`.
#[inline]
fn sum_of_multiples<A: PrimeCharacteristicRing, E: Algebra<A>>(x: E, a: A, y: E, b: A) -> E
    ensures { result ≡ E.ops.add (E.ops.mul x (E.embed a)) (E.ops.mul y (E.embed b)) }
{
    x * a + y * b
}
