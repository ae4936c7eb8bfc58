//! Packings as a ring, and as an algebra over the field of their lanes.
ghost use Rattle.std.specs.Prelude.{◌≡◌};

use crate::dot_products::packed_dot_product;
use crate::lane_loops::halve_lanes;
use crate::packed::Packed;
use p3_packing_traits::scalar_sums::ScalarSums;
use p3_prime_fields::form::{Form, Word};
use p3_prime_fields::fp::Fp;
use p3_ring::accumulate::{product_from, sum_from};
use p3_ring::ring::{Algebra, PrimeCharacteristicRing, RingSums};
use std::iter::{Product, Sum};

impl<W: Form<T>, T: Word, const N: usize> Sum<Packed<Fp<W, T>, N>> for Packed<Fp<W, T>, N> {
    ghost use Rattle.p3_theory.specs.Rings.Operators.{sum_list};
    ghost use Rattle.p3_packed_prime_fields.specs.PackedResidues.{packed_ops};

    ghost sum_gives = { λ xs r. r ≡ sum_list (packed_ops W.Form) xs };

    #[inline]
    fn sum<I: Iterator<Item = Self>>(iter: I) -> Self {
        let start = <Self as PrimeCharacteristicRing>::zero();
        sum_from(start, iter)
    }
}

impl<W: Form<T>, T: Word, const N: usize> Product<Packed<Fp<W, T>, N>> for Packed<Fp<W, T>, N> {
    ghost use Rattle.p3_theory.specs.Rings.Operators.{product_list};
    ghost use Rattle.p3_packed_prime_fields.specs.PackedResidues.{packed_ops};

    ghost product_gives = { λ xs r. r ≡ product_list (packed_ops W.Form) xs };

    #[inline]
    fn product<I: Iterator<Item = Self>>(iter: I) -> Self {
        let start = <Self as PrimeCharacteristicRing>::one();
        product_from(start, iter)
    }
}

impl<W: Form<T>, T: Word, const N: usize> Sum<Fp<W, T>> for Packed<Fp<W, T>, N> {
    ghost use Rattle.p3_theory.specs.Rings.Operators.{sum_list};
    ghost use Rattle.p3_prime_fields.specs.Elements.{ops};
    ghost use Rattle.p3_packed_prime_fields.specs.PackedResidues.{in_all_lanes};

    ghost sum_gives = { λ xs r. r ≡ in_all_lanes W.Form (sum_list (ops W.Form) xs) };

    /// The sum of the items in all lanes.
    #[inline]
    fn sum<I: Iterator<Item = Fp<W, T>>>(iter: I) -> Self {
        let total = sum_from(Fp::<W, T>::zero(), iter);
        Self::from(total)
    }
}

impl<W: Form<T>, T: Word, const N: usize> Product<Fp<W, T>> for Packed<Fp<W, T>, N> {
    ghost use Rattle.p3_theory.specs.Rings.Operators.{product_list};
    ghost use Rattle.p3_prime_fields.specs.Elements.{ops};
    ghost use Rattle.p3_packed_prime_fields.specs.PackedResidues.{in_all_lanes};

    ghost product_gives = { λ xs r. r ≡ in_all_lanes W.Form (product_list (ops W.Form) xs) };

    /// The product of the items in all lanes.
    #[inline]
    fn product<I: Iterator<Item = Fp<W, T>>>(iter: I) -> Self {
        let product = product_from(Fp::<W, T>::one(), iter);
        Self::from(product)
    }
}

impl<W: Form<T>, T: Word, const N: usize> PrimeCharacteristicRing for Packed<Fp<W, T>, N> {
    ghost use Rattle.p3_theory.specs.ResidueRings.Residues.{residue_laws};
    ghost use Rattle.p3_theory.specs.Lanes.RowRing.{row_laws, row_characteristic};
    ghost use Rattle.p3_residues.specs.ResidueMultiples.{of_nat-order};
    ghost use Rattle.p3_prime_fields.specs.Elements.{ops, is};
    ghost use Rattle.p3_packed_prime_fields.specs.Values.{packed_rows};
    ghost use Rattle.p3_packed_prime_fields.specs.PackedResidues.{packed_ops, sum_of_lanes, difference_of_lanes, negation_of_lanes, product_of_lanes};

    type PrimeSubfield = Fp<W, T>;

    ghost ops = { packed_ops W.Form };

    #[inline]
    fn zero() -> Self {
        let zero = Fp::<W, T>::zero();
        Self::new([zero; N])
    }

    #[inline]
    fn one() -> Self {
        let one = Fp::<W, T>::one();
        Self::new([one; N])
    }

    #[inline]
    fn from_prime_subfield(f: Fp<W, T>) -> Self {
        Self::new([f; N])
    }

    #[inline]
    fn halve(&self) -> Self {
        halve_lanes(self)
    }

    #[inline(always)]
    fn dot_product(u: &[Self], v: &[Self]) -> Self {
        packed_dot_product(u, v)
    }

    ghost ring = { row_laws packed_rows (ops W.Form) (residue_laws (is W.Form)) };

    ghost characteristic = { row_characteristic packed_rows (ops W.Form) W.ORDER (of_nat-order (is W.Form)) };

    ghost adds = { record { callable = λ _ _. tt; exact = sum_of_lanes W.Form } };

    ghost add_assigns = { record { callable = λ _ _. tt; exact = sum_of_lanes W.Form } };

    ghost subs = { record { callable = λ _ _. tt; exact = difference_of_lanes W.Form } };

    ghost sub_assigns = { record { callable = λ _ _. tt; exact = difference_of_lanes W.Form } };

    ghost negs = { record { callable = λ _. tt; exact = negation_of_lanes W.Form } };

    ghost muls = { record { callable = λ _ _. tt; exact = product_of_lanes W.Form } };

    ghost mul_assigns = { record { callable = λ _ _. tt; exact = product_of_lanes W.Form } };
}

impl<W: Form<T>, T: Word, const N: usize> RingSums for Packed<Fp<W, T>, N> {
    ghost sums = { record { callable = λ _. tt; exact = λ _ _ h. h; whole = λ _. tt } };

    ghost products = { record { callable = λ _. tt; exact = λ _ _ h. h; whole = λ _. tt } };
}

impl<W: Form<T>, T: Word, const N: usize> Algebra<Fp<W, T>> for Packed<Fp<W, T>, N> {
    ghost use Rattle.std.specs.Prelude.{refl};
    ghost use Rattle.std.proofs.Common.{lit<};
    ghost use Rattle.p3_theory.specs.Lanes.RowRing.{constants_keep, written_constant};
    ghost use Rattle.p3_prime_fields.specs.Elements.{ops};
    ghost use Rattle.p3_packed_prime_fields.specs.Values.{packed_rows};
    ghost use Rattle.p3_packed_prime_fields.specs.PackedResidues.{in_all_lanes, mixed_sum_of_lanes, mixed_difference_of_lanes, mixed_product_of_lanes};

    ghost embed = { in_all_lanes W.Form };

    const BATCHED_LC_CHUNK: usize = 8;

    ghost BATCHED_LC_CHUNK = { 8 };

    ghost chunk_length = { (3, lit< tt, refl) };

    ghost embeds = { constants_keep packed_rows (ops W.Form) };

    ghost froms = { λ f r h. written_constant packed_rows (ops W.Form) r f h };

    ghost mixed_adds = { record { callable = λ _ _. tt; exact = mixed_sum_of_lanes W.Form } };

    ghost mixed_add_assigns = { record { callable = λ _ _. tt; exact = mixed_sum_of_lanes W.Form } };

    ghost mixed_subs = { record { callable = λ _ _. tt; exact = mixed_difference_of_lanes W.Form } };

    ghost mixed_sub_assigns = { record { callable = λ _ _. tt; exact = mixed_difference_of_lanes W.Form } };

    ghost mixed_muls = { record { callable = λ _ _. tt; exact = mixed_product_of_lanes W.Form } };

    ghost mixed_mul_assigns = { record { callable = λ _ _. tt; exact = mixed_product_of_lanes W.Form } };
}

/// The sum and the product of values, in all lanes.
impl<W: Form<T>, T: Word, const N: usize> ScalarSums<Fp<W, T>> for Packed<Fp<W, T>, N> {
    ghost scalar_sums = { record { callable = λ _. tt; exact = λ _ _ h. h; whole = λ _. tt } };

    ghost scalar_products = { record { callable = λ _. tt; exact = λ _ _ h. h; whole = λ _. tt } };
}
