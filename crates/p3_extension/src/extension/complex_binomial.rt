//! Extensions by `Y^D = W` over an extension by `X^2 = -1`.
ghost use Rattle.std.specs.Prelude.{◌≡◌, ◌≤◌, ◌<◌, ℕ, List};
ghost use Rattle.p3_theory.specs.Rings.Powers.{power};
ghost use Rattle.p3_theory.specs.Polynomials.Polynomial.{binomial, quotient_mul};
ghost use Rattle.p3_extension.specs.ComplexValues.{complex_ops, ArePowersApart};

use super::complex_extension::{Complex, ComplexExtendable};
use super::entries::{add_each, scale_each, sub_each};
use super::{
    Binomial, BinomiallyExtendable, ExtensionAlgebra, ExtensionOverAlgebra, ExtensionProduct,
    PackedProduct,
};
use p3_extension_formulas::binomial_extension::{ring_product, ring_square};
use p3_ring::ring::Algebra;

/// A field whose extension by `X^2 = -1` has an extension of degree D by `Y^D = W`. Upstream's
/// `HasComplexBinomialExtension`.
pub trait HasComplexBinomialExtension<const D: usize>: ComplexExtendable {
    ghost use Rattle.p3_extension.specs.declared.extension.ext_field.ExtField.{ExtField};
    ghost use Rattle.p3_extension.specs.declared.extension.Binomial.{Binomial};

    ghost w: { ExtField Self 2 (Binomial Self) Self };

    ghost dth_root: { ExtField Self 2 (Binomial Self) Self };

    /// The coefficients of the generator candidate.
    ghost ext_generator: { ℕ → ExtField Self 2 (Binomial Self) Self };

    /// The bytes of the name of the extension as an algebra.
    ghost complex_binomial_algebra_id: { List ℕ };

    /// The name of the extension as an algebra, which tells it from others over the same base.
    fn complex_binomial_algebra_id() -> &'static str
        ensures { result.now ≡ complex_binomial_algebra_id };

    /// The W of `Y^D = W`.
    fn w() -> Complex<Self>
        ensures { result ≡ w };

    /// The W of `Y^D = W` as a value of an algebra over the complex values, as in every lane of a
    /// packing. This project's own.
    fn embedded_w<P: Algebra<Complex<Self>>>() -> P
        ensures { result ≡ P.embed w };

    /// A root of unity of order D: its D-th power is one, and its powers 1 to D - 1, each less
    /// one, have inverses.
    fn dth_root() -> Complex<Self>
        ensures { result ≡ dth_root };

    /// The coefficient at `Y^i` of a generator candidate, for i below D; no law says that it
    /// generates.
    fn ext_generator(i: usize) -> Complex<Self>
        requires { i < D }
        ensures { result ≡ ext_generator i };

    /// The degree is two or more.
    ghost at_least_two: { 2 ≤ D };

    ghost root_power: { power (complex_ops Self.ops) dth_root D ≡ (complex_ops Self.ops).one };

    ghost apart: { ArePowersApart (complex_ops Self.ops) D dth_root };

    /// The value times W.
    #[inline]
    final fn mul_by_w(z: Complex<Self>) -> Complex<Self>
        ensures { result ≡ (complex_ops Self.ops).mul w z }
    {
        let w = <Self as HasComplexBinomialExtension<D>>::w();
        w * z
    }
}

impl<F: HasComplexBinomialExtension<D>, const D: usize> ExtensionProduct<
    Complex<F>,
    D,
    Binomial<Complex<F>>,
> for Complex<F> {
    ghost ext_product_gives = { λ a b r. r ≡ quotient_mul (complex_ops F.ops) D (binomial (complex_ops F.ops) D F.HasComplexBinomialExtension.w) a b };

    #[inline]
    fn ext_product(a: &[Complex<F>], b: &[Complex<F>], res: &mut [Complex<F>]) {
        let w = <F as HasComplexBinomialExtension<D>>::w();
        ring_product::<Complex<F>, D>(a, b, res, w);
    }
}

impl<F: HasComplexBinomialExtension<D>, const D: usize> ExtensionAlgebra<
    Complex<F>,
    D,
    Binomial<Complex<F>>,
> for Complex<F> {
    ghost use Rattle.std.specs.Prelude.{refl};
    ghost use Rattle.std.proofs.Common.{arith};
    ghost use Rattle.p3_theory.specs.FrobeniusMaps.BinomialFrobenius.{binomial_is_monic};

    ghost modulus = { binomial (complex_ops F.ops) D F.HasComplexBinomialExtension.w };

    #[inline]
    fn ext_square(a: &[Complex<F>], res: &mut [Complex<F>]) {
        let w = <F as HasComplexBinomialExtension<D>>::w();
        ring_square::<Complex<F>, D>(a, res, w);
    }

    #[inline]
    fn ext_add(a: &[Complex<F>], b: &[Complex<F>], res: &mut [Complex<F>]) {
        add_each(a, b, res);
    }

    #[inline]
    fn ext_sub(a: &[Complex<F>], b: &[Complex<F>], res: &mut [Complex<F>]) {
        sub_each(a, b, res);
    }

    #[inline]
    fn ext_base_mul(lhs: &[Complex<F>], rhs: Complex<F>, res: &mut [Complex<F>]) {
        scale_each(lhs, rhs, res);
    }

    ghost at_least_two = { F.HasComplexBinomialExtension.at_least_two };

    ghost of_shape = { (F.HasComplexBinomialExtension.w, refl) };

    ghost monic = { binomial_is_monic (complex_ops F.ops) D (omega (arith, F.HasComplexBinomialExtension.at_least_two)) F.HasComplexBinomialExtension.w };

    ghost ext_products = { λ a b r h. h };
}

impl<F: HasComplexBinomialExtension<D>, const D: usize> BinomiallyExtendable<D> for Complex<F> {
    ghost use Rattle.std.specs.Prelude.{refl};

    ghost w = { F.HasComplexBinomialExtension.w };

    ghost dth_root = { F.HasComplexBinomialExtension.dth_root };

    ghost ext_generator = { F.HasComplexBinomialExtension.ext_generator };

    ghost binomial_algebra_id = { F.complex_binomial_algebra_id };

    #[inline]
    fn binomial_algebra_id() -> &'static str {
        F::complex_binomial_algebra_id()
    }

    #[inline]
    fn w() -> Complex<F> {
        <F as HasComplexBinomialExtension<D>>::w()
    }

    #[inline]
    fn dth_root() -> Complex<F> {
        <F as HasComplexBinomialExtension<D>>::dth_root()
    }

    #[inline]
    fn ext_generator(i: usize) -> Complex<F> {
        <F as HasComplexBinomialExtension<D>>::ext_generator(i)
    }

    ghost by_w = { refl };

    ghost root_power = { F.HasComplexBinomialExtension.root_power };

    ghost apart = { F.HasComplexBinomialExtension.apart };
}

/// Products of lists over an algebra of the complex values, as a packing of them.
impl<F: HasComplexBinomialExtension<D>, P: Algebra<Complex<F>>, const D: usize> PackedProduct<
    P,
    D,
    Binomial<Complex<F>>,
> for Complex<F> {
    ghost packed_product_gives = { λ a b r. r ≡ quotient_mul P.ops D (binomial P.ops D (P.embed F.HasComplexBinomialExtension.w)) a b };

    #[inline(always)]
    fn placeholder() -> P {
        P::zero()
    }

    #[inline]
    fn packed_product(a: &[P], b: &[P], res: &mut [P]) {
        let w = <F as HasComplexBinomialExtension<D>>::embedded_w::<P>();
        ring_product::<P, D>(a, b, res, w);
    }

    #[inline]
    fn packed_square(a: &[P], res: &mut [P]) {
        let mut square = [P::zero(); D];
        let w = <F as HasComplexBinomialExtension<D>>::embedded_w::<P>();
        ring_square::<P, D>(a, &mut square, w);
        res.copy_from_slice(&square);
    }
}

impl<
    F: HasComplexBinomialExtension<D>,
    P: Algebra<Complex<F>>,
    const D: usize,
> ExtensionOverAlgebra<P, D, Binomial<Complex<F>>> for Complex<F> {
    ghost use Rattle.std.proofs.Common.{◌∙◌, ap, sym};
    ghost use Rattle.p3_theory.specs.FrobeniusMaps.TableEntries.{binomial-along};

    ghost packed_products = { λ a b r h. h ∙ sym (ap (λ f. quotient_mul P.ops D f a b) (binomial-along P.embeds D F.HasComplexBinomialExtension.w)) };
}
