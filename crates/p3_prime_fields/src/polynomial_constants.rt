//! Extensions of `Fp` modulo a polynomial with integer coefficients: from a table of numbers to all laws.
ghost use Rattle.std.specs.Prelude.{◌≡◌, ◌<◌, ℕ, List, [], get_or};
ghost use Rattle.p3_theory.specs.FrobeniusMaps.FrobeniusTable.{TableProof};
ghost use Rattle.p3_theory.specs.Polynomials.IntegerPolynomials.{over};
ghost use Rattle.p3_theory.specs.ResidueRings.Residues.{residues};

use crate::form::{Form, Order, OverModulus};
use crate::fp::Fp;
use p3_extension::extension::{
    ExtendableModulo, ExtensionAlgebra, ExtensionProduct, IntegerPolynomial, Modulo,
};

/// The constants of the extension of `Fp` modulo the polynomial S, as numbers, for the marker of an order.
/// It stands for what upstream writes in each impl of `CubicTrinomialExtendable` and
/// `QuinticTrinomialExtendable`.
pub trait PolynomialConstants<const D: usize, S: IntegerPolynomial<D>>: Order {
    /// The image of X.
    ghost image: { List ℕ };

    /// The powers 0 to D - 1 of the image of X.
    ghost powers: { List (List ℕ) };

    /// What leads back from the image of a value less the value to its coefficients past `X^0`.
    ghost dual: { List (List ℕ) };

    /// The coefficients of the generator candidate, from X^0 upward.
    ghost ext_generator: { List ℕ };

    /// The coefficient at `X^k` of power j of the image of X.
    fn power_of_image(j: usize, k: usize) -> u32
        requires power { j < D }
        requires index { k < D }
        ensures { result ≡ get_or (get_or powers j []) k 0 };

    /// The coefficient at `X^i` of a generator candidate; no law says that it generates.
    fn ext_generator(i: usize) -> u32
        requires { i < D }
        ensures { result ≡ get_or ext_generator i 0 };

    /// The equations that the table owes, computed on numbers.
    ghost table: { TableProof (residues Self.order) D (over (residues Self.order) S.coefficients) image powers dual };
}

impl<W: Form<u32>, const D: usize, S: IntegerPolynomial<D>> ExtensionProduct<Fp<W>, D, Modulo<S, D>>
    for Fp<W> {
    ghost use Rattle.p3_theory.specs.Polynomials.Polynomial.{quotient_mul};
    ghost use Rattle.p3_prime_fields.specs.Elements.{ops};

    ghost ext_product_gives = { λ a b r. r ≡ quotient_mul (ops W.Form) D (over (ops W.Form) S.coefficients) a b };

    #[inline(always)]
    fn ext_product(a: &[Self], b: &[Self], res: &mut [Self]) {
        S::product::<Self>(a, b, res);
    }
}

impl<W: Form<u32>, const D: usize, S: IntegerPolynomial<D>> ExtensionAlgebra<Fp<W>, D, Modulo<S, D>>
    for Fp<W> {
    ghost use Rattle.std.specs.Prelude.{refl};
    ghost use Rattle.p3_theory.specs.Polynomials.IntegerPolynomials.{over_is_monic};
    ghost use Rattle.p3_prime_fields.specs.Elements.{ops};

    ghost modulus = { over (ops W.Form) S.coefficients };

    #[inline(always)]
    fn ext_square(a: &[Self], res: &mut [Self]) {
        S::square::<Self>(a, res);
    }

    ghost at_least_two = { S.monic.at_least_two };

    ghost of_shape = { refl };

    ghost monic = { over_is_monic (ops W.Form) S.monic };

    ghost ext_products = { λ a b r h. h };
}

impl<W: OverModulus<u32>, const D: usize, S: IntegerPolynomial<D>> ExtendableModulo<D, S> for Fp<W>
where
    W::Modulus: PolynomialConstants<D, S>,
{
    ghost use Rattle.std.specs.Prelude.{map};
    ghost use Rattle.std.proofs.Common.{subst};
    ghost use Rattle.p3_theory.specs.FrobeniusMaps.TableEntries.{table_laws_of};
    ghost use Rattle.p3_prime_fields.specs.Elements.{of, is};

    ghost image = { map (of W.Form) W.Modulus.image };

    ghost ext_generator = { λ i. of W.Form (get_or W.Modulus.ext_generator i 0) };

    #[inline]
    fn power_of_image(i: usize, k: usize) -> Self {
        Self::new(<W::Modulus>::power_of_image(i, k))
    }

    #[inline]
    fn ext_generator(i: usize) -> Self {
        Self::new(<W::Modulus>::ext_generator(i))
    }

    ghost table_laws = { table_laws_of (is W.Form) D S.coefficients S.monic W.Modulus.image W.Modulus.powers W.Modulus.dual (subst (λ n. TableProof (residues n) D (over (residues n) S.coefficients) W.Modulus.image W.Modulus.powers W.Modulus.dual) W.same_order W.Modulus.table) };
}
