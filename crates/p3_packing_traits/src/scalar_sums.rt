//! Sums and products of scalars as packings.
ghost use Rattle.p3_theory.specs.Rings.Operators.{product_list, sum_list};
ghost use Rattle.p3_packing_traits.specs.ScalarFolds.{FoldsInto};

use p3_ring::ring::{Algebra, PrimeCharacteristicRing, RingSums};
use std::iter::{Product, Sum};

/// A packing, or any algebra over F, that `sum` and `product` make of an iterator over elements of F.
/// Upstream has both among the supertraits of `PackedField`; here they are a trait of their own, since
/// each supertrait is passed again with every call at a concrete type.
pub trait ScalarSums<F: PrimeCharacteristicRing>: Algebra<F> + Sum<F> + Product<F> {
    /// The sum of elements of F is their sum in F, as an element of the algebra.
    ghost scalar_sums: { FoldsInto ⟦<Self as Sum<F>>⟧.can_sum ⟦<Self as Sum<F>>⟧.sum_gives ⟦<Self as Sum<F>>⟧.is_complete (λ xs. Self.embed (sum_list F.ops xs)) };

    /// The product of elements of F is their product in F, as an element of the algebra.
    ghost scalar_products: { FoldsInto ⟦<Self as Product<F>>⟧.can_product ⟦<Self as Product<F>>⟧.product_gives ⟦<Self as Product<F>>⟧.is_complete (λ xs. Self.embed (product_list F.ops xs)) };
}

/// A ring is an algebra over itself, and its sums are its own.
impl<F: RingSums> ScalarSums<F> for F {
    ghost scalar_sums = { record { callable = F.sums.callable; exact = F.sums.exact; whole = F.sums.whole } };

    ghost scalar_products = { record { callable = F.products.callable; exact = F.products.exact; whole = F.products.whole } };
}
