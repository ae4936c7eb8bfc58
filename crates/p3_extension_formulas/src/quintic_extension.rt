//! Products, squares, and the constant coefficient of a product, modulo a trinomial of degree five, over slices of
//! coefficients.
ghost use Rattle.std.specs.Prelude.{◌≡◌, length};
ghost use Rattle.p3_theory.specs.Polynomials.Polynomial.{at, quotient_mul};
ghost use Rattle.p3_theory.specs.Polynomials.IntegerPolynomials.{over};
ghost use Rattle.p3_extension_formulas.specs.Trinomials.{quintic_trinomial};
ghost use Rattle.p3_extension_formulas.specs.TrinomialRemainders.{quintic_reduced};

use crate::binomial_extension::{array_dot_product, double_four};
use crate::integer_polynomial::IntegerPolynomial;
use crate::vectors::{four_from, write_entries};
use p3_ring::ring::PrimeCharacteristicRing;

/// Writes the remainder modulo `X^5 + X^2 - 1` of the polynomial with these nine coefficients.
#[inline]
fn write_reduced<R: PrimeCharacteristicRing>(
    c0: R,
    c1: R,
    c2: R,
    c3: R,
    c4: R,
    c5: R,
    c6: R,
    c7: R,
    c8: R,
    res: &mut [R],
)
    requires { length res.old ≡ 5 }
    ensures { res.new ≡ quintic_reduced R.ops c0 c1 c2 c3 c4 c5 c6 c7 c8 }
{
    let c5_minus_c8 = c5 - c8;
    let r0 = c0 + c5_minus_c8;
    let r1 = c1 + c6;
    let rest2 = c2 - c5_minus_c8;
    let r2 = rest2 + c7;
    let rest3 = c3 - c6;
    let r3 = rest3 + c8;
    let r4 = c4 - c7;
    write_entries([r0, r1, r2, r3, r4], res);
}

/// The product of two lists of five coefficients modulo `X^5 + X^2 - 1`. Upstream's
/// `trinomial_quintic_mul`.
#[inline]
pub fn trinomial_quintic_mul<R: PrimeCharacteristicRing>(a: &[R], b: &[R], res: &mut [R])
    requires left { length a.now ≡ 5 }
    requires right { length b.now ≡ 5 }
    requires room { length res.old ≡ 5 }
    ensures { res.new ≡ quotient_mul R.ops 5 (over R.ops quintic_trinomial) a.now b.now }
{
    let (a0, a1, a2, a3) = four_from(a, 0);
    let a4 = a[4];
    let (b0, b1, b2, b3) = four_from(b, 0);
    let b4 = b[4];
    let c0 = a0 * b0;
    let c1 = array_dot_product([a0, a1], [b1, b0]);
    let c2 = array_dot_product([a0, a1, a2], [b2, b1, b0]);
    let c3 = array_dot_product([a0, a1, a2, a3], [b3, b2, b1, b0]);
    let c4 = array_dot_product([a0, a1, a2, a3, a4], [b4, b3, b2, b1, b0]);
    let c5 = array_dot_product([a1, a2, a3, a4], [b4, b3, b2, b1]);
    let c6 = array_dot_product([a2, a3, a4], [b4, b3, b2]);
    let c7 = array_dot_product([a3, a4], [b4, b3]);
    let c8 = a4 * b4;
    write_reduced(c0, c1, c2, c3, c4, c5, c6, c7, c8, res);
}

/// The square of a list of five coefficients modulo `X^5 + X^2 - 1`; that modulo `X^5 - W` is in
/// `binomial_extension`. Upstream's `quintic_square`.
#[inline]
pub fn quintic_square<R: PrimeCharacteristicRing>(a: &[R], res: &mut [R])
    requires input { length a.now ≡ 5 }
    requires room { length res.old ≡ 5 }
    ensures { res.new ≡ quotient_mul R.ops 5 (over R.ops quintic_trinomial) a.now a.now }
{
    let (a0, a1, a2, a3) = four_from(a, 0);
    let a4 = a[4];
    let (a0_2, a1_2, a2_2, a3_2) = double_four((a0, a1, a2, a3));
    let c0 = a0.square();
    let c1 = a0_2 * a1;
    let c2 = array_dot_product([a0_2, a1], [a2, a1]);
    let c3 = array_dot_product([a0_2, a1_2], [a3, a2]);
    let c4 = array_dot_product([a0_2, a1_2, a2], [a4, a3, a2]);
    let c5 = array_dot_product([a1_2, a2_2], [a4, a3]);
    let c6 = array_dot_product([a2_2, a3], [a4, a3]);
    let c7 = a3_2 * a4;
    let c8 = a4.square();
    write_reduced(c0, c1, c2, c3, c4, c5, c6, c7, c8, res);
}

/// The constant coefficient of the product of two lists of five coefficients.
#[inline]
pub fn quintic_constant<R: PrimeCharacteristicRing>(a: &[R], b: &[R]) -> R
    requires left { length a.now ≡ 5 }
    requires right { length b.now ≡ 5 }
    ensures { result ≡ at R.ops (quotient_mul R.ops 5 (over R.ops quintic_trinomial) a.now b.now) 0 }
{
    let (a0, a1, a2, a3) = four_from(a, 0);
    let a4 = a[4];
    let (b0, b1, b2, b3) = four_from(b, 0);
    let b4 = b[4];
    let c0 = a0 * b0;
    let c5 = array_dot_product([a1, a2, a3, a4], [b4, b3, b2, b1]);
    let c8 = a4 * b4;
    let sum = c0 + c5;
    sum - c8
}

/// The polynomial `X^5 + X^2 - 1`.
#[derive(Clone, Copy, Debug, PartialEq, Eq, PartialOrd, Ord, Hash)]
pub struct Quintic;

impl IntegerPolynomial<5> for Quintic {
    ghost use Rattle.std.specs.Prelude.{codes, refl};
    ghost use Rattle.std.proofs.Common.{lit≤};

    ghost coefficients = { quintic_trinomial };

    ghost algebra_id = { codes "p3-power-basis-v1:X^5+X^2-1" };

    #[inline]
    fn algebra_id() -> &'static str {
        "p3-power-basis-v1:X^5+X^2-1"
    }

    #[inline]
    fn product<R: PrimeCharacteristicRing>(a: &[R], b: &[R], res: &mut [R]) {
        trinomial_quintic_mul(a, b, res);
    }

    #[inline]
    fn square<R: PrimeCharacteristicRing>(a: &[R], res: &mut [R]) {
        quintic_square(a, res);
    }

    #[inline]
    fn constant_of_product<R: PrimeCharacteristicRing>(a: &[R], b: &[R]) -> R {
        quintic_constant(a, b)
    }

    ghost monic = { record { at_least_two = lit≤ tt; degree = refl; leading = refl } };
}
