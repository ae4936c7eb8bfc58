//! Two-adic generators of extensions.
ghost use Rattle.std.specs.Prelude.{◌≡◌, ◌≤◌, ◌<◌, ℕ};
ghost use Rattle.p3_theory.specs.Polynomials.Polynomial.{binomial};
ghost use Rattle.p3_theory.specs.Roots.TwoAdic.{DividesOrder};
ghost use Rattle.p3_theory.specs.Roots.TwoAdicCoefficients.{AreExtensionGenerators};
ghost use Rattle.p3_extension.specs.ComplexValues.{complex_ops};
ghost use Rattle.p3_extension.specs.Orders.{extension_size};

use super::complex_binomial::HasComplexBinomialExtension;
use super::complex_extension::Complex;
use super::ext_field::ExtField;
use super::{Binomial, BinomiallyExtendable, ExtensionShape, FrobeniusExtendable};
use p3_field_traits::field::TwoAdicField;
use p3_ring::ring::PrimeCharacteristicRing;

/// A field with two-adic generators of its extension of degree D by `X^D = W`. Upstream's
/// `HasTwoAdicBinomialExtension`.
pub trait HasTwoAdicBinomialExtension<const D: usize>: BinomiallyExtendable<D> {
    /// The coefficients of the generators, by bits and index of the coefficient.
    ghost ext_two_adic: { ℕ → ℕ → Self };

    /// The greatest number of bits that a two-adic generator of the extension is given for.
    const EXT_TWO_ADICITY: usize;

    ghost EXT_TWO_ADICITY: { ℕ };

    /// The coefficient at `X^i` of a root of unity of order `2^bits` in the extension.
    fn ext_two_adic_generator(bits: usize, i: usize) -> Self
        requires bits { bits ≤ EXT_TWO_ADICITY }
        requires index { i < D }
        ensures { result ≡ ext_two_adic bits i };

    /// The generator for no bits is one, each one's square is the one before it, and the one for
    /// one bit is minus one.
    ghost ext_generators: { AreExtensionGenerators Self.ops D Self.modulus EXT_TWO_ADICITY ext_two_adic };

    /// Two to the two-adicity divides the order of the extension less one, where that is given.
    ghost ext_divides_order: { DividesOrder EXT_TWO_ADICITY (extension_size Self.size D) };
}

/// A field whose extension by `X^2 = -1` has two-adic generators of its extension of degree D.
/// Upstream's `HasTwoAdicComplexBinomialExtension`.
pub trait HasTwoAdicComplexBinomialExtension<const D: usize>: HasComplexBinomialExtension<D> {
    ghost use Rattle.p3_extension.specs.declared.extension.ext_field.ExtField.{ExtField};
    ghost use Rattle.p3_extension.specs.declared.extension.Binomial.{Binomial};

    /// The coefficients of the generators, by bits and index of the coefficient.
    ghost complex_ext_two_adic: { ℕ → ℕ → ExtField Self 2 (Binomial Self) Self };

    /// The greatest number of bits that a two-adic generator of the extension is given for.
    const COMPLEX_EXT_TWO_ADICITY: usize;

    ghost COMPLEX_EXT_TWO_ADICITY: { ℕ };

    /// The coefficient at `Y^i` of a root of unity of order `2^bits` in the extension.
    fn complex_ext_two_adic_generator(bits: usize, i: usize) -> Complex<Self>
        requires bits { bits ≤ COMPLEX_EXT_TWO_ADICITY }
        requires index { i < D }
        ensures { result ≡ complex_ext_two_adic bits i };

    /// The generator for no bits is one, each one's square is the one before it, and the one for
    /// one bit is minus one.
    ghost complex_ext_generators: { AreExtensionGenerators (complex_ops Self.ops) D (binomial (complex_ops Self.ops) D Self.HasComplexBinomialExtension.w) COMPLEX_EXT_TWO_ADICITY complex_ext_two_adic };

    /// Two to the two-adicity divides the order of the extension less one, where that is given.
    ghost complex_ext_divides_order: { DividesOrder COMPLEX_EXT_TWO_ADICITY (extension_size (extension_size Self.size 2) D) };
}

impl<F: HasTwoAdicComplexBinomialExtension<D>, const D: usize> HasTwoAdicBinomialExtension<D>
    for Complex<F> {
    ghost ext_two_adic = { F.complex_ext_two_adic };

    const EXT_TWO_ADICITY: usize = F::COMPLEX_EXT_TWO_ADICITY;

    ghost EXT_TWO_ADICITY = { F.COMPLEX_EXT_TWO_ADICITY };

    #[inline]
    fn ext_two_adic_generator(bits: usize, i: usize) -> Complex<F> {
        F::complex_ext_two_adic_generator(bits, i)
    }

    ghost ext_generators = { F.complex_ext_generators };

    ghost ext_divides_order = { F.complex_ext_divides_order };
}

/// A field with two-adic generators of its extension of degree D by the shape S. It stands for
/// what the shapes share; this project's own.
pub trait TwoAdicExtendable<const D: usize, S: ExtensionShape>: FrobeniusExtendable<D, S> {
    /// The coefficients of the generators, by bits and index of the coefficient.
    ghost two_adic_coefficients: { ℕ → ℕ → Self };

    /// The greatest number of bits that a two-adic generator of the extension is given for.
    const EXT_TWO_ADICITY: usize;

    ghost EXT_TWO_ADICITY: { ℕ };

    /// The coefficient at `X^i` of a root of unity of order `2^bits` in the extension.
    fn ext_two_adic_generator(bits: usize, i: usize) -> Self
        requires bits { bits ≤ EXT_TWO_ADICITY }
        requires index { i < D }
        ensures { result ≡ two_adic_coefficients bits i };

    /// The generator for no bits is one, each one's square is the one before it, and the one for
    /// one bit is minus one.
    ghost two_adic_generators: { AreExtensionGenerators Self.ops D Self.modulus EXT_TWO_ADICITY two_adic_coefficients };

    /// Two to the two-adicity divides the order of the extension less one, where that is given.
    ghost two_adic_divides_order: { DividesOrder EXT_TWO_ADICITY (extension_size Self.size D) };
}

impl<F: HasTwoAdicBinomialExtension<D>, const D: usize> TwoAdicExtendable<D, Binomial<F>> for F {
    ghost two_adic_coefficients = { F.HasTwoAdicBinomialExtension.ext_two_adic };

    const EXT_TWO_ADICITY: usize = <F as HasTwoAdicBinomialExtension<D>>::EXT_TWO_ADICITY;

    ghost EXT_TWO_ADICITY = { F.HasTwoAdicBinomialExtension.EXT_TWO_ADICITY };

    #[inline]
    fn ext_two_adic_generator(bits: usize, i: usize) -> F {
        <F as HasTwoAdicBinomialExtension<D>>::ext_two_adic_generator(bits, i)
    }

    ghost two_adic_generators = { F.HasTwoAdicBinomialExtension.ext_generators };

    ghost two_adic_divides_order = { F.HasTwoAdicBinomialExtension.ext_divides_order };
}

impl<F: TwoAdicExtendable<D, S>, const D: usize, S: ExtensionShape> TwoAdicField
    for ExtField<F, D, S, F> {
    ghost use Rattle.p3_extension.specs.ExtensionGenerators.{generator_value, values_are_generators};

    ghost two_adic = { generator_value D F.two_adic_coefficients };

    const TWO_ADICITY: usize = F::EXT_TWO_ADICITY;

    ghost TWO_ADICITY = { F.EXT_TWO_ADICITY };

    #[inline]
    fn two_adic_generator(bits: usize) -> Self {
        let mut value = [F::zero(); D];
        for i in 0..D {
            value[i] = <F as TwoAdicExtendable<D, S>>::ext_two_adic_generator(bits, i);
        }
        ExtField::<F, D, S, F>::new(value)
    }

    ghost generators = { values_are_generators F.ops F.modulus F.EXT_TWO_ADICITY F.two_adic_coefficients F.two_adic_generators };

    ghost divides_order = { F.two_adic_divides_order };
}
