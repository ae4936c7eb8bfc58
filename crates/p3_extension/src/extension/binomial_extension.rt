//! The Frobenius map of an extension by `X^D = W`: coefficients times powers of a root of unity.
use super::{Binomial, BinomiallyExtendable, FrobeniusExtendable, InverseByFormula};
use p3_extension_formulas::binomial_extension::{
    binomial_inv, compute_coefficient, scale_by_powers, scale_by_repeated_powers,
};
use p3_ring::ring::PrimeCharacteristicRing;

impl<F: BinomiallyExtendable<D>, const D: usize> FrobeniusExtendable<D, Binomial<F>> for F {
    ghost use Rattle.p3_theory.specs.Rings.Ring.{ring_of};
    ghost use Rattle.p3_extension.specs.BinomialShape.{binomial_image, binomial_frobenius};

    ghost image = { binomial_image F.ops D F.BinomiallyExtendable.w F.BinomiallyExtendable.dth_root };

    ghost generator_coefficients = { F.BinomiallyExtendable.ext_generator };

    ghost algebra_id = { F.BinomiallyExtendable.binomial_algebra_id };

    #[inline]
    fn algebra_id() -> &'static str {
        F::binomial_algebra_id()
    }

    #[inline]
    fn apply_frobenius(a: &[F], res: &mut [F]) {
        scale_by_powers(a, F::dth_root(), res);
    }

    #[inline]
    fn apply_repeated_frobenius(a: &[F], count: usize, res: &mut [F]) {
        scale_by_repeated_powers(a, F::dth_root(), count, res);
    }

    #[inline]
    fn constant_of_product(a: &[F], b: &[F]) -> F {
        compute_coefficient(a, b, D, 0, F::w())
    }

    #[inline]
    fn inverse_by_formula(a: &[F], res: &mut [F]) -> InverseByFormula {
        binomial_inv::<F, D>(a, res, F::w())
    }

    #[inline]
    fn generator_coefficient(i: usize) -> F {
        F::ext_generator(i)
    }

    ghost frobenius_laws = { binomial_frobenius (ring_of F.ring) D F.at_least_two F.modulus F.BinomiallyExtendable.w F.BinomiallyExtendable.dth_root F.by_w F.root_power F.apart };
}
