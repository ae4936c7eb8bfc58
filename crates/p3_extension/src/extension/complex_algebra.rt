//! Products of lists of two coefficients modulo `X^2 + 1`, over any algebra of the base, as a packing.
ghost use Rattle.std.specs.Prelude.{◌≡◌, length};
ghost use Rattle.p3_theory.specs.Polynomials.Polynomial.{quotient_mul, binomial};

use super::complex_extension::ComplexExtendable;
use super::{Binomial, ExtensionOverAlgebra, PackedProduct};
use p3_ring::ring::{Algebra, PrimeCharacteristicRing};

/// The product of two linear polynomials modulo `X^2 + 1`.
#[inline]
fn complex_product<A: PrimeCharacteristicRing>(a: &[A], b: &[A], res: &mut [A])
    requires left { length a.now ≡ 2 }
    requires right { length b.now ≡ 2 }
    requires room { length res.old ≡ 2 }
    ensures { res.new ≡ quotient_mul A.ops 2 (binomial A.ops 2 (A.ops.neg A.ops.one)) a.now b.now }
{
    let a0 = a[0];
    let a1 = a[1];
    let b0 = b[0];
    let b1 = b[1];
    let a0_b0 = a0 * b0;
    let a1_b1 = a1 * b1;
    let a0_b1 = a0 * b1;
    let a1_b0 = a1 * b0;
    let real = a0_b0 - a1_b1;
    let imag = a0_b1 + a1_b0;
    res[0] = real;
    res[1] = imag;
}

/// The square of a linear polynomial modulo `X^2 + 1`.
#[inline]
fn complex_square<A: PrimeCharacteristicRing>(a: &[A], res: &mut [A])
    requires input { length a.now ≡ 2 }
    requires room { length res.old ≡ 2 }
    ensures { res.new ≡ quotient_mul A.ops 2 (binomial A.ops 2 (A.ops.neg A.ops.one)) a.now a.now }
{
    let a0 = a[0];
    let a1 = a[1];
    let a0_a0 = a0.square();
    let a1_a1 = a1.square();
    let a0_a1 = a0 * a1;
    let real = a0_a0 - a1_a1;
    let imag = a0_a1.double();
    res[0] = real;
    res[1] = imag;
}

impl<F: ComplexExtendable, P: Algebra<F>> PackedProduct<P, 2, Binomial<F>> for F {
    ghost packed_product_gives = { λ a b r. r ≡ quotient_mul P.ops 2 (binomial P.ops 2 (P.ops.neg P.ops.one)) a b };

    #[inline(always)]
    fn placeholder() -> P {
        P::zero()
    }

    #[inline]
    fn packed_product(a: &[P], b: &[P], res: &mut [P]) {
        complex_product(a, b, res);
    }

    #[inline]
    fn packed_square(a: &[P], res: &mut [P]) {
        complex_square(a, res);
    }
}

impl<F: ComplexExtendable, P: Algebra<F>> ExtensionOverAlgebra<P, 2, Binomial<F>> for F {
    ghost use Rattle.std.proofs.Common.{◌∙◌, ap, sym};
    ghost use Rattle.p3_theory.specs.FrobeniusMaps.TableEntries.{binomial-along};

    ghost packed_products = { λ a b r h. h ∙ sym (ap (λ f. quotient_mul P.ops 2 f a b) (binomial-along P.embeds 2 (F.ops.neg F.ops.one) ∙ ap (binomial P.ops 2) (P.embeds.neg F.ops.one ∙ ap P.ops.neg P.embeds.one))) };
}
