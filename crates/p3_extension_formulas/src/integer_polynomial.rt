//! Polynomials with integer coefficients, as what an extension of any ring is taken modulo.
ghost use Rattle.std.specs.Prelude.{◌≡◌, ℕ, ℤ, List, length};
ghost use Rattle.p3_theory.specs.Polynomials.IntegerPolynomials.{over, IsMonicOfDegree};
ghost use Rattle.p3_theory.specs.Polynomials.Polynomial.{at, quotient_mul};

use p3_ring::ring::PrimeCharacteristicRing;

/// A monic polynomial of degree D with integer coefficients, so that it is one over every ring, with the
/// products of remainders modulo it. A type that implements it is a marker; upstream has functions for
/// each polynomial.
pub trait IntegerPolynomial<const D: usize>: Copy {
    /// The coefficients, from X^0 upward.
    ghost coefficients: { List ℤ };

    /// The bytes of the name of an extension by it as an algebra.
    ghost algebra_id: { List ℕ };

    /// The name of an extension by it as an algebra, which tells it from others over the same base.
    fn algebra_id() -> &'static str
        ensures { result.now ≡ algebra_id };

    /// The product of two lists of D coefficients, written to `res`, whatever it held.
    fn product<R: PrimeCharacteristicRing>(a: &[R], b: &[R], res: &mut [R])
        requires left { length a.now ≡ D }
        requires right { length b.now ≡ D }
        requires room { length res.old ≡ D }
        ensures { res.new ≡ quotient_mul R.ops D (over R.ops coefficients) a.now b.now };

    /// The square of a list of D coefficients, written to `res`, whatever it held.
    fn square<R: PrimeCharacteristicRing>(a: &[R], res: &mut [R])
        requires input { length a.now ≡ D }
        requires room { length res.old ≡ D }
        ensures { res.new ≡ quotient_mul R.ops D (over R.ops coefficients) a.now a.now };

    /// The constant coefficient of the product of two lists of D coefficients.
    fn constant_of_product<R: PrimeCharacteristicRing>(a: &[R], b: &[R]) -> R
        requires left { length a.now ≡ D }
        requires right { length b.now ≡ D }
        ensures { result ≡ at R.ops (quotient_mul R.ops D (over R.ops coefficients) a.now b.now) 0 };

    /// It is monic, of degree D, which is two or more.
    ghost monic: { IsMonicOfDegree D coefficients };
}
