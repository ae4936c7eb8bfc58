//! Comparison and hashing of extension values: those of their coefficient lists.
use super::ext_field::ExtField;
use std::cmp::Ordering;
use std::hash::{Hash, Hasher};

/// The order of the coefficient lists, where the base may leave two coefficients without order.
/// Upstream derives it.
impl<F, const D: usize, S, A: PartialOrd> PartialOrd for ExtField<F, D, S, A> {
    ghost use Rattle.std.specs.Cmp.Lexicographic.{slice_partial_cmp};
    ghost use Rattle.p3_extension.specs.ValueOrder.{values_po};

    ghost partial_cmp = { λ x y. slice_partial_cmp A.partial_cmp x.value y.value };

    ghost laws = { values_po A.PartialOrd.laws };

    #[inline]
    fn partial_cmp(&self, other: &Self) -> Option<Ordering> {
        self.value.partial_cmp(&other.value)
    }
}

/// The order of the coefficient lists: the first coefficient that differs decides, from the
/// constant one upward. Upstream derives it.
impl<F, const D: usize, S, A: Ord> Ord for ExtField<F, D, S, A> {
    ghost use Rattle.std.specs.Cmp.Lexicographic.{slice_cmp, lists_agrees, lists_ties};
    ghost use Rattle.p3_extension.specs.ValueOrder.{values_total};

    ghost cmp = { λ x y. slice_cmp A.cmp x.value y.value };

    ghost total = { values_total A.total };

    ghost matches_partial_cmp = { λ x y. lists_agrees A.matches_partial_cmp x.value y.value };

    ghost matches_eq = { λ x y. lists_ties A.cmp A.matches_eq x.value y.value };

    #[inline]
    fn cmp(&self, other: &Self) -> Ordering {
        self.value.cmp(&other.value)
    }
}

/// The hash of the coefficient list: its length, and then each coefficient. Upstream derives it.
impl<F, const D: usize, S, A: Hash> Hash for ExtField<F, D, S, A> {
    ghost use Rattle.std.specs.Hash as fed;
    ghost use Rattle.std.specs.Hash.{items_Alike};

    ghost hash_input = { λ x. fed.slice A.hash_input x.value };

    ghost respects_eq = { λ x y. (items_Alike (record { fed = A.respects_eq })).fed x.value y.value };

    #[inline]
    fn hash<H: Hasher>(&self, state: &mut H) {
        self.value.hash(state);
    }
}
