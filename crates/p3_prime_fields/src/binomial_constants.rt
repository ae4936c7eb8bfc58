//! Extensions of `Fp` by `X^D = W`: from W, a root of unity and a generator candidate to all laws.
ghost use Rattle.std.specs.Prelude.{◌≡◌, ◌<◌, ◌≤◌, ℕ, List, true, get_or};
ghost use Rattle.p3_theory.specs.ResidueRings.RootsOfUnity.{is_root_of_unity};

use crate::form::{Order, OverModulus};
use crate::fp::Fp;
use crate::lane_products::BYTE_ORDERS;
use p3_extension::extension::{
    Binomial, BinomiallyExtendable, ExtensionAlgebra, ExtensionOverAlgebra, ExtensionProduct,
    PackedProduct,
};
use p3_extension_formulas::binomial_extension::{
    binomial_product, binomial_square, ring_product, ring_square,
};
use p3_ring::ring::{Algebra, PrimeCharacteristicRing};

/// The constants of the extension of `Fp` by `X^D = W`, as numbers, for the marker of an order. It
/// stands for what upstream writes in each impl of `BinomiallyExtendable`.
pub trait BinomialConstants<const D: usize>: Order {
    ghost W: { ℕ };

    ghost DTH_ROOT: { ℕ };

    /// The inverses of the powers 1 to D - 1 of the root, each less one.
    ghost inverses: { List ℕ };

    /// The coefficients of the generator candidate, from X^0 upward.
    ghost ext_generator: { List ℕ };

    /// The bytes of the name of the extension as an algebra.
    ghost algebra_id: { List ℕ };

    /// The W of `X^D = W`.
    const W: u32;

    /// A root of unity of order D.
    const DTH_ROOT: u32;

    /// The name of the extension as an algebra.
    fn algebra_id() -> &'static str
        ensures { result.now ≡ algebra_id };

    /// The coefficient at `X^i` of a generator candidate, for i below D; no law says that it
    /// generates. Upstream's `EXT_GENERATOR`.
    fn ext_generator(i: usize) -> u32
        requires { i < D }
        ensures { result ≡ get_or ext_generator i 0 };

    /// The degree is two or more.
    ghost at_least_two: { 2 ≤ D };

    /// The power D of the root is one, and the powers 1 to D - 1, each less one, have the inverses
    /// listed.
    ghost root_of_unity: { is_root_of_unity Self.order D DTH_ROOT inverses ≡ true };
}

impl<W: OverModulus<u32>, const D: usize> ExtensionProduct<Fp<W>, D, Binomial<Fp<W>>> for Fp<W>
where
    W::Modulus: BinomialConstants<D>,
{
    ghost use Rattle.p3_theory.specs.Polynomials.Polynomial.{quotient_mul, binomial};
    ghost use Rattle.p3_prime_fields.specs.Elements.{of, ops};

    ghost ext_product_gives = { λ a b r. r ≡ quotient_mul (ops W.Form) D (binomial (ops W.Form) D (of W.Form W.Modulus.W)) a b };

    #[inline(always)]
    fn ext_product(a: &[Self], b: &[Self], res: &mut [Self]) {
        ring_product::<Self, D>(a, b, res, Self::new(<W::Modulus>::W));
    }
}

impl<W: OverModulus<u32>, const D: usize> ExtensionAlgebra<Fp<W>, D, Binomial<Fp<W>>> for Fp<W>
where
    W::Modulus: BinomialConstants<D>,
{
    ghost use Rattle.std.specs.Prelude.{refl};
    ghost use Rattle.std.proofs.Common.{arith};
    ghost use Rattle.p3_theory.specs.Polynomials.Polynomial.{binomial};
    ghost use Rattle.p3_theory.specs.FrobeniusMaps.BinomialFrobenius.{binomial_is_monic};
    ghost use Rattle.p3_prime_fields.specs.Elements.{of, ops};

    ghost modulus = { binomial (ops W.Form) D (of W.Form W.Modulus.W) };

    /// Of more than four coefficients modulo a small order the product with itself takes less time: its sums have one
    /// number of products each, and so vectors take them.
    #[inline(always)]
    fn ext_square(a: &[Self], res: &mut [Self]) {
        let w = Self::new(<W::Modulus>::W);
        if D > 4 && W::ORDER <= BYTE_ORDERS {
            ring_product::<Self, D>(a, a, res, w);
        } else {
            ring_square::<Self, D>(a, res, w);
        }
    }

    ghost at_least_two = { W.Modulus.at_least_two };

    ghost of_shape = { (of W.Form W.Modulus.W, refl) };

    ghost monic = { binomial_is_monic (ops W.Form) D (omega (arith, W.Modulus.at_least_two)) (of W.Form W.Modulus.W) };

    ghost ext_products = { λ a b r h. h };
}

impl<W: OverModulus<u32>, const D: usize> BinomiallyExtendable<D> for Fp<W>
where
    W::Modulus: BinomialConstants<D>,
{
    ghost use Rattle.std.specs.Prelude.{refl};
    ghost use Rattle.std.proofs.Common.{subst};
    ghost use Rattle.p3_theory.specs.ResidueRings.RootsOfUnity.{root_power, root_apart};
    ghost use Rattle.p3_prime_fields.specs.Elements.{of, is};

    ghost w = { of W.Form W.Modulus.W };

    ghost dth_root = { of W.Form W.Modulus.DTH_ROOT };

    ghost ext_generator = { λ i. of W.Form (get_or W.Modulus.ext_generator i 0) };

    ghost binomial_algebra_id = { W.Modulus.algebra_id };

    #[inline]
    fn binomial_algebra_id() -> &'static str {
        <W::Modulus>::algebra_id()
    }

    #[inline]
    fn w() -> Self {
        Self::new(<W::Modulus>::W)
    }

    #[inline]
    fn dth_root() -> Self {
        Self::new(<W::Modulus>::DTH_ROOT)
    }

    #[inline]
    fn ext_generator(i: usize) -> Self {
        Self::new(<W::Modulus>::ext_generator(i))
    }

    ghost by_w = { refl };

    ghost root_power = { root_power (is W.Form) D W.Modulus.DTH_ROOT W.Modulus.inverses (subst (λ n. is_root_of_unity n D W.Modulus.DTH_ROOT W.Modulus.inverses ≡ true) W.same_order W.Modulus.root_of_unity) };

    ghost apart = { root_apart (is W.Form) D W.Modulus.DTH_ROOT W.Modulus.inverses (subst (λ n. is_root_of_unity n D W.Modulus.DTH_ROOT W.Modulus.inverses ≡ true) W.same_order W.Modulus.root_of_unity) };
}

impl<W: OverModulus<u32>, P: Algebra<Fp<W>>, const D: usize> PackedProduct<P, D, Binomial<Fp<W>>>
    for Fp<W>
where
    W::Modulus: BinomialConstants<D>,
{
    ghost use Rattle.p3_theory.specs.Polynomials.Polynomial.{quotient_mul, binomial};
    ghost use Rattle.p3_prime_fields.specs.Elements.{of};

    ghost packed_product_gives = { λ a b r. r ≡ quotient_mul P.ops D (binomial P.ops D (P.embed (of W.Form W.Modulus.W))) a b };

    #[inline(always)]
    fn placeholder() -> P {
        P::zero()
    }

    #[inline(always)]
    fn packed_product(a: &[P], b: &[P], res: &mut [P]) {
        binomial_product::<Self, P, D>(a, b, res, Self::new(<W::Modulus>::W));
    }

    #[inline]
    fn packed_square(a: &[P], res: &mut [P]) {
        let mut square = [P::zero(); D];
        binomial_square::<Self, P, D>(a, &mut square, Self::new(<W::Modulus>::W));
        res.copy_from_slice(&square);
    }
}

impl<W: OverModulus<u32>, P: Algebra<Fp<W>>, const D: usize> ExtensionOverAlgebra<
    P,
    D,
    Binomial<Fp<W>>,
> for Fp<W>
where
    W::Modulus: BinomialConstants<D>,
{
    ghost use Rattle.std.proofs.Common.{◌∙◌, ap, sym, map};
    ghost use Rattle.p3_theory.specs.Polynomials.Polynomial.{quotient_mul};
    ghost use Rattle.p3_theory.specs.FrobeniusMaps.TableEntries.{binomial-along};
    ghost use Rattle.p3_prime_fields.specs.Elements.{of};

    ghost packed_products = { λ a b r h. h ∙ sym (ap (λ f. quotient_mul P.ops D f a b) (binomial-along P.embeds D (of W.Form W.Modulus.W))) };
}
