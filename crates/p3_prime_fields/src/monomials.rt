//! Powers that permute the values of prime fields: from the exponent that undoes each to all laws.
ghost use Rattle.std.specs.Prelude.{◌≡◌, ℕ, refl};
ghost use Rattle.p3_theory.specs.Rings.Powers.{power};
ghost use Rattle.p3_theory.specs.Roots.Monomials.{AreInverseExponents};

use crate::baby_bear::BabyBearModulus;
use crate::form::{Order, OverModulus, Word};
use crate::fp::Fp;
use crate::koala_bear::KoalaBearModulus;
use crate::small::{M17, M31};
use p3_extension_traits::monomials::{InjectiveMonomial, PermutationMonomial};
use p3_ring::exponentiation::{exp_1420470955, exp_1725656503};
use p3_ring::ring::PrimeCharacteristicRing;

/// The power that undoes power N, for the marker of an order. It stands for what upstream writes in
/// each impl of `PermutationMonomial`.
pub trait MonomialConstants<const N: u64>: Order {
    ghost ROOT_EXPONENT: { ℕ };

    /// The power that undoes power N.
    fn root_power<R: PrimeCharacteristicRing>(val: R) -> R
        ensures { result ≡ power R.ops val ROOT_EXPONENT };

    /// The product of both exponents is one more than a multiple of the order less one.
    ghost inverse_exponents: { AreInverseExponents Self.order N ROOT_EXPONENT };
}

impl<W: OverModulus<T>, T: Word, const N: u64> InjectiveMonomial<N> for Fp<W, T>
where
    W::Modulus: MonomialConstants<N>,
{
    ghost use Rattle.std.proofs.Common.{subst};
    ghost use Rattle.p3_theory.specs.Roots.Monomials.{residue_injective_power};
    ghost use Rattle.p3_prime_fields.specs.Elements.{is};

    ghost injective = { λ domain. residue_injective_power (is W.Form) domain N W.Modulus.ROOT_EXPONENT (subst (λ n. AreInverseExponents n N W.Modulus.ROOT_EXPONENT) W.same_order W.Modulus.inverse_exponents) };
}

impl<W: OverModulus<T>, T: Word, const N: u64> PermutationMonomial<N> for Fp<W, T>
where
    W::Modulus: MonomialConstants<N>,
{
    #[inline]
    fn injective_exp_root_n(&self) -> Self {
        <W::Modulus>::root_power(*self)
    }
}

impl MonomialConstants<3> for M17 {
    ghost ROOT_EXPONENT = { 11 };

    #[inline]
    fn root_power<R: PrimeCharacteristicRing>(val: R) -> R {
        val.exp_u64(11)
    }

    ghost inverse_exponents = { (2, refl) };
}

impl MonomialConstants<7> for M31 {
    ghost ROOT_EXPONENT = { 13 };

    #[inline]
    fn root_power<R: PrimeCharacteristicRing>(val: R) -> R {
        val.exp_u64(13)
    }

    ghost inverse_exponents = { (3, refl) };
}

impl MonomialConstants<7> for BabyBearModulus {
    ghost ROOT_EXPONENT = { 1725656503 };

    #[inline]
    fn root_power<R: PrimeCharacteristicRing>(val: R) -> R {
        exp_1725656503(val)
    }

    ghost inverse_exponents = { (6, refl) };
}

impl MonomialConstants<3> for KoalaBearModulus {
    ghost ROOT_EXPONENT = { 1420470955 };

    #[inline]
    fn root_power<R: PrimeCharacteristicRing>(val: R) -> R {
        exp_1420470955(val)
    }

    ghost inverse_exponents = { (2, refl) };
}
