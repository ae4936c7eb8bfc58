//! Sums and products of values as arrays.
ghost use Rattle.std.specs.Prelude.{◌≡◌};

use super::FieldArray;
use p3_field_traits::packed_traits::Inhabited;
use p3_packing_traits::scalar_sums::ScalarSums;
use p3_ring::accumulate::{product_from, sum_from};
use p3_ring::ring::PrimeCharacteristicRing;
use std::iter::{Product, Sum};

impl<F: PrimeCharacteristicRing + Inhabited, const N: usize> Sum<F> for FieldArray<F, N> {
    ghost use Rattle.p3_theory.specs.Rings.Operators.{sum_list};
    ghost use Rattle.p3_theory.specs.Lanes.Rows.{rows};
    ghost use Rattle.p3_theory.specs.Lanes.RowRing.{constant};

    ghost sum_gives = { λ xs r. r ≡ constant rows F.ops (sum_list F.ops xs) };

    /// The sum of the items in each entry.
    #[inline]
    fn sum<I: Iterator<Item = F>>(iter: I) -> Self {
        let total = sum_from(F::zero(), iter);
        Self::new([total; N])
    }
}

impl<F: PrimeCharacteristicRing + Inhabited, const N: usize> Product<F> for FieldArray<F, N> {
    ghost use Rattle.p3_theory.specs.Rings.Operators.{product_list};
    ghost use Rattle.p3_theory.specs.Lanes.Rows.{rows};
    ghost use Rattle.p3_theory.specs.Lanes.RowRing.{constant};

    ghost product_gives = { λ xs r. r ≡ constant rows F.ops (product_list F.ops xs) };

    /// The product of the items in each entry.
    #[inline]
    fn product<I: Iterator<Item = F>>(iter: I) -> Self {
        let product = product_from(F::one(), iter);
        Self::new([product; N])
    }
}

/// The sum and the product of values, in each entry.
impl<F: PrimeCharacteristicRing + Inhabited, const N: usize> ScalarSums<F> for FieldArray<F, N> {
    ghost scalar_sums = { record { callable = λ _. tt; exact = λ _ _ h. h; whole = λ _. tt } };

    ghost scalar_products = { record { callable = λ _. tt; exact = λ _ _ h. h; whole = λ _. tt } };
}
