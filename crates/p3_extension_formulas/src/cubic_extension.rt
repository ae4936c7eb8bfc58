//! Products, squares, and the constant coefficient of a product, modulo a trinomial of degree three, over slices of
//! coefficients.
ghost use Rattle.std.specs.Prelude.{◌≡◌, length};
ghost use Rattle.p3_theory.specs.Polynomials.Polynomial.{at, quotient_mul};
ghost use Rattle.p3_theory.specs.Polynomials.IntegerPolynomials.{over};
ghost use Rattle.p3_extension_formulas.specs.Trinomials.{cubic_trinomial};

use crate::binomial_extension::array_dot_product;
use crate::integer_polynomial::IntegerPolynomial;
use crate::vectors::{three_from, write_entries};
use p3_ring::ring::PrimeCharacteristicRing;

/// The product of two lists of three coefficients modulo `X^3 - X - 1`. Upstream's
/// `trinomial_cubic_mul`.
#[inline]
pub fn trinomial_cubic_mul<R: PrimeCharacteristicRing>(a: &[R], b: &[R], res: &mut [R])
    requires left { length a.now ≡ 3 }
    requires right { length b.now ≡ 3 }
    requires room { length res.old ≡ 3 }
    ensures { res.new ≡ quotient_mul R.ops 3 (over R.ops cubic_trinomial) a.now b.now }
{
    let (a0, a1, a2) = three_from(a, 0);
    let (b0, b1, b2) = three_from(b, 0);
    let b0_plus_b2 = b0 + b2;
    let b1_plus_b2 = b1 + b2;
    let c0 = array_dot_product([a0, a1, a2], [b0, b2, b1]);
    let c1 = array_dot_product([a0, a1, a2], [b1, b0_plus_b2, b1_plus_b2]);
    let c2 = array_dot_product([a0, a1, a2], [b2, b1, b0_plus_b2]);
    write_entries([c0, c1, c2], res);
}

/// The square of a list of three coefficients modulo `X^3 - X - 1`. Upstream's `cubic_square`.
#[inline]
pub fn cubic_square<R: PrimeCharacteristicRing>(a: &[R], res: &mut [R])
    requires input { length a.now ≡ 3 }
    requires room { length res.old ≡ 3 }
    ensures { res.new ≡ quotient_mul R.ops 3 (over R.ops cubic_trinomial) a.now a.now }
{
    let (a0, a1, a2) = three_from(a, 0);
    let a0_2 = a0.double();
    let a1_2 = a1.double();
    let two_a0_plus_a2 = a0_2 + a2;
    let two_a1_plus_a2 = a1_2 + a2;
    let c0 = array_dot_product([a0, a1_2], [a0, a2]);
    let c1 = array_dot_product([a0_2, a2], [a1, two_a1_plus_a2]);
    let c2 = array_dot_product([a1, a2], [a1, two_a0_plus_a2]);
    write_entries([c0, c1, c2], res);
}

/// The constant coefficient of the product of two lists of three coefficients.
#[inline]
pub fn cubic_constant<R: PrimeCharacteristicRing>(a: &[R], b: &[R]) -> R
    requires left { length a.now ≡ 3 }
    requires right { length b.now ≡ 3 }
    ensures { result ≡ at R.ops (quotient_mul R.ops 3 (over R.ops cubic_trinomial) a.now b.now) 0 }
{
    let (a0, a1, a2) = three_from(a, 0);
    let (b0, b1, b2) = three_from(b, 0);
    array_dot_product([a0, a1, a2], [b0, b2, b1])
}

/// The polynomial `X^3 - X - 1`.
#[derive(Clone, Copy, Debug, PartialEq, Eq, PartialOrd, Ord, Hash)]
pub struct Cubic;

impl IntegerPolynomial<3> for Cubic {
    ghost use Rattle.std.specs.Prelude.{codes, refl};
    ghost use Rattle.std.proofs.Common.{lit≤};

    ghost coefficients = { cubic_trinomial };

    ghost algebra_id = { codes "p3-power-basis-v1:X^3-X-1" };

    #[inline]
    fn algebra_id() -> &'static str {
        "p3-power-basis-v1:X^3-X-1"
    }

    #[inline]
    fn product<R: PrimeCharacteristicRing>(a: &[R], b: &[R], res: &mut [R]) {
        trinomial_cubic_mul(a, b, res);
    }

    #[inline]
    fn square<R: PrimeCharacteristicRing>(a: &[R], res: &mut [R]) {
        cubic_square(a, res);
    }

    #[inline]
    fn constant_of_product<R: PrimeCharacteristicRing>(a: &[R], b: &[R]) -> R {
        cubic_constant(a, b)
    }

    ghost monic = { record { at_least_two = lit≤ tt; degree = refl; leading = refl } };
}
