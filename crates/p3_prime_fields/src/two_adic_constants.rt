//! Two-adic generators of extensions of `Fp`: from a table of coefficients to all laws.
ghost use Rattle.std.specs.Prelude.{◌≡◌, ◌<◌, ◌≤◌, ℕ, List, Some};
ghost use Rattle.p3_theory.specs.Polynomials.IntegerPolynomials.{over};
ghost use Rattle.p3_theory.specs.Polynomials.Polynomial.{binomial};
ghost use Rattle.p3_theory.specs.ResidueRings.Residues.{residues};
ghost use Rattle.p3_theory.specs.Roots.TwoAdic.{DividesOrder};
ghost use Rattle.p3_theory.specs.Roots.TwoAdicCoefficients.{entry, GeneratorEquations};
ghost use Rattle.p3_extension.specs.Orders.{extension_size};

use crate::binomial_constants::BinomialConstants;
use crate::form::OverModulus;
use crate::fp::Fp;
use crate::polynomial_constants::PolynomialConstants;
use p3_extension::extension::{
    HasTwoAdicBinomialExtension, IntegerPolynomial, Modulo, TwoAdicExtendable,
};

/// Two-adic generators of the extension of `Fp` by `X^D = W`, as a table of numbers, for the marker
/// of an order. It stands for what upstream writes in each impl of `HasTwoAdicBinomialExtension`.
pub trait TwoAdicBinomialConstants<const D: usize>: BinomialConstants<D> {
    /// The coefficients of the generators, a row for each number of bits.
    ghost generator_table: { List (List ℕ) };

    ghost EXT_TWO_ADICITY: { ℕ };

    /// The greatest number of bits that a two-adic generator of the extension is given for.
    const EXT_TWO_ADICITY: usize;

    /// The coefficient at `X^i` of the generator for so many bits.
    fn ext_two_adic_generator(bits: usize, i: usize) -> u32
        requires bits { bits ≤ EXT_TWO_ADICITY }
        requires index { i < D }
        ensures { result ≡ entry generator_table bits i };

    /// The equations that the table owes, computed on numbers.
    ghost generators: { GeneratorEquations (residues Self.order) D (binomial (residues Self.order) D Self.W) EXT_TWO_ADICITY (entry generator_table) };

    /// Two to the two-adicity divides the order of the extension less one, where that is given.
    ghost divides_order: { DividesOrder EXT_TWO_ADICITY (extension_size (Some Self.order) D) };
}

impl<W: OverModulus<u32>, const D: usize> HasTwoAdicBinomialExtension<D> for Fp<W>
where
    W::Modulus: TwoAdicBinomialConstants<D>,
{
    ghost use Rattle.std.proofs.Common.{subst};
    ghost use Rattle.p3_theory.specs.FrobeniusMaps.TableEntries.{binomial-along};
    ghost use Rattle.p3_theory.specs.ResidueRings.Residues.{of_keeps};
    ghost use Rattle.p3_theory.specs.Roots.TwoAdicCoefficients.{coefficients-along, equations_generate};
    ghost use Rattle.p3_prime_fields.specs.Elements.{of, is};

    ghost ext_two_adic = { λ bits i. of W.Form (entry W.Modulus.generator_table bits i) };

    const EXT_TWO_ADICITY: usize = <W::Modulus>::EXT_TWO_ADICITY;

    ghost EXT_TWO_ADICITY = { W.Modulus.EXT_TWO_ADICITY };

    #[inline]
    fn ext_two_adic_generator(bits: usize, i: usize) -> Self {
        Self::new(<W::Modulus>::ext_two_adic_generator(bits, i))
    }

    ghost ext_generators = { let numbers = entry W.Modulus.generator_table in
        coefficients-along (of_keeps (is W.Form)) D (binomial (residues W.ORDER) D W.Modulus.W) _ (binomial-along (of_keeps (is W.Form)) D W.Modulus.W) W.Modulus.EXT_TWO_ADICITY numbers
        (equations_generate (residues W.ORDER) D (binomial (residues W.ORDER) D W.Modulus.W) W.Modulus.EXT_TWO_ADICITY numbers
        (subst (λ n. GeneratorEquations (residues n) D (binomial (residues n) D W.Modulus.W) W.Modulus.EXT_TWO_ADICITY numbers) W.same_order W.Modulus.generators)) };

    ghost ext_divides_order = { subst (λ n. DividesOrder W.Modulus.EXT_TWO_ADICITY (extension_size (Some n) D)) W.same_order W.Modulus.divides_order };
}

/// Two-adic generators of the extension of `Fp` modulo the polynomial S, as a table of numbers, for the
/// marker of an order. It stands for what upstream writes in each impl of `HasTwoAdicCubicExtension` and
/// `HasTwoAdicQuinticExtension`.
pub trait TwoAdicPolynomialConstants<const D: usize, S: IntegerPolynomial<D>>: PolynomialConstants<
    D,
    S,
> {
    /// The coefficients of the generators, a row for each number of bits.
    ghost generator_table: { List (List ℕ) };

    ghost EXT_TWO_ADICITY: { ℕ };

    /// The greatest number of bits that a two-adic generator of the extension is given for.
    const EXT_TWO_ADICITY: usize;

    /// The coefficient at `X^i` of the generator for so many bits.
    fn ext_two_adic_generator(bits: usize, i: usize) -> u32
        requires bits { bits ≤ EXT_TWO_ADICITY }
        requires index { i < D }
        ensures { result ≡ entry generator_table bits i };

    /// The equations that the table owes, computed on numbers.
    ghost generators: { GeneratorEquations (residues Self.order) D (over (residues Self.order) S.coefficients) EXT_TWO_ADICITY (entry generator_table) };

    /// Two to the two-adicity divides the order of the extension less one, where that is given.
    ghost divides_order: { DividesOrder EXT_TWO_ADICITY (extension_size (Some Self.order) D) };
}

impl<W: OverModulus<u32>, const D: usize, S: IntegerPolynomial<D>> TwoAdicExtendable<
    D,
    Modulo<S, D>,
> for Fp<W>
where
    W::Modulus: TwoAdicPolynomialConstants<D, S>,
{
    ghost use Rattle.std.proofs.Common.{subst};
    ghost use Rattle.p3_theory.specs.Polynomials.IntegerPolynomials.{over-along};
    ghost use Rattle.p3_theory.specs.ResidueRings.Residues.{of_keeps};
    ghost use Rattle.p3_theory.specs.Roots.TwoAdicCoefficients.{coefficients-along, equations_generate};
    ghost use Rattle.p3_prime_fields.specs.Elements.{of, is};

    ghost two_adic_coefficients = { λ bits i. of W.Form (entry W.Modulus.generator_table bits i) };

    const EXT_TWO_ADICITY: usize = <W::Modulus>::EXT_TWO_ADICITY;

    ghost EXT_TWO_ADICITY = { W.Modulus.EXT_TWO_ADICITY };

    #[inline]
    fn ext_two_adic_generator(bits: usize, i: usize) -> Self {
        Self::new(<W::Modulus>::ext_two_adic_generator(bits, i))
    }

    ghost two_adic_generators = { let numbers = entry W.Modulus.generator_table in
        coefficients-along (of_keeps (is W.Form)) D (over (residues W.ORDER) S.coefficients) _ (over-along (of_keeps (is W.Form)) S.coefficients) W.Modulus.EXT_TWO_ADICITY numbers
        (equations_generate (residues W.ORDER) D (over (residues W.ORDER) S.coefficients) W.Modulus.EXT_TWO_ADICITY numbers
        (subst (λ n. GeneratorEquations (residues n) D (over (residues n) S.coefficients) W.Modulus.EXT_TWO_ADICITY numbers) W.same_order W.Modulus.generators)) };

    ghost two_adic_divides_order = { subst (λ n. DividesOrder W.Modulus.EXT_TWO_ADICITY (extension_size (Some n) D)) W.same_order W.Modulus.divides_order };
}
