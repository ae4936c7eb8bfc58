//! The polynomial `X^2 - X - 1`.
ghost use Rattle.std.specs.Prelude.{codes, refl};
ghost use Rattle.std.proofs.Common.{lit≤};
ghost use Rattle.example_fibonacci.specs.Golden.{golden};

use p3_field::PrimeCharacteristicRing;
use p3_field::extension::IntegerPolynomial;

/// The polynomial `X^2 - X - 1`, whose root is the golden ratio.
#[derive(Clone, Copy, Debug)]
pub struct Golden;

impl IntegerPolynomial<2> for Golden {
    ghost coefficients = { golden };

    ghost algebra_id = { codes "example:X^2-X-1" };

    fn algebra_id() -> &'static str {
        "example:X^2-X-1"
    }

    /// By three products.
    #[inline]
    fn product<R: PrimeCharacteristicRing>(a: &[R], b: &[R], res: &mut [R]) {
        let (a0, a1) = (a[0], a[1]);
        let (b0, b1) = (b[0], b[1]);
        let low = a0 * b0;
        let high = a1 * b1;
        let left = a0 + a1;
        let right = b0 + b1;
        let whole = left * right;
        let c0 = low + high;
        let c1 = whole - low;
        res[0] = c0;
        res[1] = c1;
    }

    /// By two squares and one product.
    #[inline]
    fn square<R: PrimeCharacteristicRing>(a: &[R], res: &mut [R]) {
        let (a0, a1) = (a[0], a[1]);
        let low = a0.square();
        let high = a1.square();
        let cross = a0 * a1;
        let twice = cross.double();
        let c0 = low + high;
        let c1 = twice + high;
        res[0] = c0;
        res[1] = c1;
    }

    #[inline]
    fn constant_of_product<R: PrimeCharacteristicRing>(a: &[R], b: &[R]) -> R {
        let low = a[0] * b[0];
        let high = a[1] * b[1];
        low + high
    }

    ghost monic = { record { at_least_two = lit≤ tt; degree = refl; leading = refl } };
}
