//! Products, squares, and the constant coefficient of a product, modulo a trinomial of degree seven, over slices of
//! coefficients.
ghost use Rattle.std.specs.Prelude.{◌≡◌, length};
ghost use Rattle.p3_theory.specs.Polynomials.Polynomial.{at, quotient_mul};
ghost use Rattle.p3_theory.specs.Polynomials.IntegerPolynomials.{over};
ghost use Rattle.p3_extension_formulas.specs.Trinomials.{septic_trinomial};

use crate::binomial_extension::{array_dot_product, double_four, double_three};
use crate::integer_polynomial::IntegerPolynomial;
use crate::vectors::{four_from, three_from, write_entries};
use p3_ring::ring::PrimeCharacteristicRing;

/// The product of two lists of seven coefficients modulo `X^7 - X - 1`. Each sum begins with the highest coefficients of
/// `a`: in a chain of products they are ready before the lowest four, of which the compiler makes a vector. Upstream has
/// no such polynomial.
#[inline]
pub fn trinomial_septic_mul<R: PrimeCharacteristicRing>(a: &[R], b: &[R], res: &mut [R])
    requires left { length a.now ≡ 7 }
    requires right { length b.now ≡ 7 }
    requires room { length res.old ≡ 7 }
    ensures { res.new ≡ quotient_mul R.ops 7 (over R.ops septic_trinomial) a.now b.now }
{
    let (a0, a1, a2, a3) = four_from(a, 0);
    let (a4, a5, a6) = three_from(a, 4);
    let (b0, b1, b2, b3) = four_from(b, 0);
    let (b4, b5, b6) = three_from(b, 4);
    let b06 = b0 + b6;
    let b12 = b1 + b2;
    let b23 = b2 + b3;
    let b34 = b3 + b4;
    let b45 = b4 + b5;
    let b56 = b5 + b6;
    let left = [a6, a5, a4, a3, a2, a1, a0];
    let c0 = array_dot_product(left, [b1, b2, b3, b4, b5, b6, b0]);
    let c1 = array_dot_product(left, [b12, b23, b34, b45, b56, b06, b1]);
    let c2 = array_dot_product(left, [b23, b34, b45, b56, b06, b1, b2]);
    let c3 = array_dot_product(left, [b34, b45, b56, b06, b1, b2, b3]);
    let c4 = array_dot_product(left, [b45, b56, b06, b1, b2, b3, b4]);
    let c5 = array_dot_product(left, [b56, b06, b1, b2, b3, b4, b5]);
    let c6 = array_dot_product(left, [b06, b1, b2, b3, b4, b5, b6]);
    write_entries([c0, c1, c2, c3, c4, c5, c6], res);
}

/// The square of a list of seven coefficients modulo `X^7 - X - 1`. Two of the sums have a product of zeros, so that all
/// have five and end alike in Montgomery's form, where zeros that are constants cost nothing.
#[inline]
pub fn septic_square<R: PrimeCharacteristicRing>(a: &[R], res: &mut [R])
    requires input { length a.now ≡ 7 }
    requires room { length res.old ≡ 7 }
    ensures { res.new ≡ quotient_mul R.ops 7 (over R.ops septic_trinomial) a.now a.now }
{
    let (a0, a1, a2, a3) = four_from(a, 0);
    let (a4, a5, a6) = three_from(a, 4);
    let (d0, d1, d2, d3) = double_four((a0, a1, a2, a3));
    let (d4, d5, d6) = double_three((a4, a5, a6));
    let a45 = a4 + a5;
    let a56 = a5 + a6;
    let a4_d5 = a4 + d5;
    let a5_d6 = a5 + d6;
    let d5_a6 = d5 + a6;
    let zero = R::zero();
    let c0 = array_dot_product([a0, d1, d2, d3, zero], [a0, a6, a5, a4, zero]);
    let c1 = array_dot_product([d0, d1, d2, d3, a4], [a1, a6, a56, a45, a4]);
    let c2 = array_dot_product([d0, a1, d2, d3, a4], [a2, a1, a6, a56, a4_d5]);
    let c3 = array_dot_product([d0, d1, d3, d4, a5], [a3, a2, a6, a56, a5]);
    let c4 = array_dot_product([d0, d1, a2, d4, a5], [a4, a3, a2, a6, a5_d6]);
    let c5 = array_dot_product([d0, d1, d2, d5_a6, zero], [a5, a4, a3, a6, zero]);
    let c6 = array_dot_product([d0, d1, d2, a3, a6], [a6, a5, a4, a3, a6]);
    write_entries([c0, c1, c2, c3, c4, c5, c6], res);
}

/// The constant coefficient of the product of two lists of seven coefficients.
#[inline]
pub fn septic_constant<R: PrimeCharacteristicRing>(a: &[R], b: &[R]) -> R
    requires left { length a.now ≡ 7 }
    requires right { length b.now ≡ 7 }
    ensures { result ≡ at R.ops (quotient_mul R.ops 7 (over R.ops septic_trinomial) a.now b.now) 0 }
{
    let (a0, a1, a2, a3) = four_from(a, 0);
    let (a4, a5, a6) = three_from(a, 4);
    let (b0, b1, b2, b3) = four_from(b, 0);
    let (b4, b5, b6) = three_from(b, 4);
    array_dot_product([a0, a1, a2, a3, a4, a5, a6], [b0, b6, b5, b4, b3, b2, b1])
}

/// The polynomial `X^7 - X - 1`.
#[derive(Clone, Copy, Debug, PartialEq, Eq, PartialOrd, Ord, Hash)]
pub struct Septic;

impl IntegerPolynomial<7> for Septic {
    ghost use Rattle.std.specs.Prelude.{codes, refl};
    ghost use Rattle.std.proofs.Common.{lit≤};

    ghost coefficients = { septic_trinomial };

    ghost algebra_id = { codes "p3-power-basis-v1:X^7-X-1" };

    #[inline]
    fn algebra_id() -> &'static str {
        "p3-power-basis-v1:X^7-X-1"
    }

    #[inline]
    fn product<R: PrimeCharacteristicRing>(a: &[R], b: &[R], res: &mut [R]) {
        trinomial_septic_mul(a, b, res);
    }

    #[inline]
    fn square<R: PrimeCharacteristicRing>(a: &[R], res: &mut [R]) {
        septic_square(a, res);
    }

    #[inline]
    fn constant_of_product<R: PrimeCharacteristicRing>(a: &[R], b: &[R]) -> R {
        septic_constant(a, b)
    }

    ghost monic = { record { at_least_two = lit≤ tt; degree = refl; leading = refl } };
}
