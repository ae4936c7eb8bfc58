//! The extension by X^3 = 5: three divides the order less one, and five is no cube.
ghost use Rattle.std.specs.Prelude.{◌≡◌, refl};
ghost use Rattle.p3_field.specs.Polynomial.{quotient_mul, binomial};
ghost use Rattle.example_mersenne31.specs.Elements.{of, ops, is};

use crate::value::Mersenne31;
use p3_field::extension::{
    Binomial, BinomiallyExtendable, ByteCountFits, ExtensionAlgebra, ExtensionProduct, ring_product,
};

impl ExtensionProduct<Mersenne31, 3, Binomial<Mersenne31>> for Mersenne31 {
    ghost ext_product_gives = { λ a b r. r ≡ quotient_mul ops 3 (binomial ops 3 (of 5)) a b };

    #[inline]
    fn ext_product(a: &[Self], b: &[Self], res: &mut [Self]) {
        ring_product::<Self, 3>(a, b, res, Self::new(5));
    }
}

impl ExtensionAlgebra<Mersenne31, 3, Binomial<Mersenne31>> for Mersenne31 {
    ghost use Rattle.std.proofs.Common.{lit≤};
    ghost use Rattle.p3_field.specs.BinomialFrobenius.{binomial_is_monic};

    ghost modulus = { binomial ops 3 (of 5) };

    ghost at_least_two = { lit≤ tt };

    ghost of_shape = { (of 5, refl) };

    ghost monic = { binomial_is_monic ops 3 (lit≤ tt) (of 5) };

    ghost ext_products = { λ a b r h. h };
}

/// The root of unity is the power (p - 1) / 3 of five. The two numbers listed are the inverses of it
/// and of its square, each less one.
impl BinomiallyExtendable<3> for Mersenne31 {
    ghost use Rattle.std.specs.Prelude.{[], ◌∷◌, codes, get_or};
    ghost use Rattle.p3_field.specs.RootsOfUnity.{root_power, root_apart};

    ghost w = { of 5 };

    ghost dth_root = { of 1513477735 };

    ghost ext_generator = { λ i. of (get_or (10 ∷ 1 ∷ 0 ∷ []) i 0) };

    ghost binomial_algebra_id = { codes "example:mersenne31x3" };

    #[inline]
    fn binomial_algebra_id() -> &'static str {
        "example:mersenne31x3"
    }

    #[inline]
    fn w() -> Self {
        Self::new(5)
    }

    #[inline]
    fn dth_root() -> Self {
        Self::new(1513477735)
    }

    #[inline]
    fn ext_generator(i: usize) -> Self {
        let number = [10, 1, 0][i];
        Self::new(number)
    }

    ghost by_w = { refl };

    ghost root_power = { root_power is 3 1513477735 (1642991068 ∷ 504492578 ∷ []) refl };

    ghost apart = { root_apart is 3 1513477735 (1642991068 ∷ 504492578 ∷ []) refl };
}

impl ByteCountFits<3> for Mersenne31 {
    ghost use Rattle.std.proofs.Common.{lit<};

    ghost fits = { lit< tt };
}
