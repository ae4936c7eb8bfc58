//! Products of the cubic extension's values side by side: over any algebra of the field, as a packing.
ghost use Rattle.std.specs.Prelude.{◌≡◌};
ghost use Rattle.p3_field.specs.Polynomial.{quotient_mul, binomial};
ghost use Rattle.example_mersenne31.specs.Elements.{of};

use crate::value::Mersenne31;
use p3_field::Algebra;
use p3_field::extension::{Binomial, ExtensionOverAlgebra, PackedProduct, binomial_product};

impl<P: Algebra<Mersenne31>> PackedProduct<P, 3, Binomial<Mersenne31>> for Mersenne31 {
    ghost packed_product_gives = { λ a b r. r ≡ quotient_mul P.ops 3 (binomial P.ops 3 (P.embed (of 5))) a b };

    #[inline(always)]
    fn placeholder() -> P {
        P::zero()
    }

    #[inline]
    fn packed_product(a: &[P], b: &[P], res: &mut [P]) {
        let five = Self::new(5);
        binomial_product::<Self, P, 3>(a, b, res, five);
    }
}

impl<P: Algebra<Mersenne31>> ExtensionOverAlgebra<P, 3, Binomial<Mersenne31>> for Mersenne31 {
    ghost use Rattle.std.proofs.Common.{◌∙◌, ap, sym};
    ghost use Rattle.p3_field.specs.TableEntries.{binomial-along};

    ghost packed_products = { λ a b r h. h ∙ sym (ap (λ f. quotient_mul P.ops 3 f a b) (binomial-along P.embeds 3 (of 5))) };
}
