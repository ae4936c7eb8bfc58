//! Arrays as packings: their entries are lanes.
ghost use Rattle.std.specs.Prelude.{◌≡◌, ◌<◌, ◌^◌, ℕ};

use super::FieldArray;
use p3_field_traits::field::Field;
use p3_field_traits::packed_traits::{Inhabited, Packable, PackedField, PackedFieldPow2};
use p3_packed_extension::holds_scalar::HoldsScalar;
use p3_packed_extension::packed_ext_field::Packing;
use p3_ring::packed_ring::PackedRing;

/// A packing of values of F.
impl<F: Inhabited, const N: usize> Packing for FieldArray<F, N> {
    type Scalar = F;
}

/// A field whose values stand in arrays of N entries as lanes. Every field that is `Packable` has 1, 2,
/// 4, 8 and 16 of them; an impl at a field gives it another number. This project's own.
pub trait Lanes<const N: usize>: Field + Packable {
    /// There is at least one lane.
    ghost some_lane: { 0 < N };

    /// The number of lanes is a `usize`.
    ghost counted: { N < 2 ^ 64 };
}

/// A field whose values stand in arrays of N entries as lanes, N a power of two: 1, 2, 4, 8 and 16 for
/// every field that is `Packable`. This project's own.
pub trait LanesPow2<const N: usize>: Lanes<N> {
    /// The number of lanes is a power of two.
    ghost power_of_two: { (k : ℕ) × (N ≡ 2 ^ k) };
}

/// An array has room for each entry, and at least one.
impl<F: Lanes<N>, const N: usize> HoldsScalar<F> for FieldArray<F, N> {
    ghost use Rattle.p3_vectorized.specs.VectorSizes.{marked_array_holds};

    ghost holds = { marked_array_holds F.row N.row F.some_lane F.counted };
}

impl<F: Lanes<N>, const N: usize> PackedRing<F> for FieldArray<F, N> {
    ghost use Rattle.p3_theory.specs.Lanes.Rows.{rows, same_items};
    ghost use Rattle.p3_theory.specs.Lanes.RowRing.{items_keep, items-constant};

    ghost some_lane = { F.some_lane };

    ghost lengths = { λ x. x.sized };

    ghost same = { same_items };

    ghost keeps = { items_keep rows F.ops };

    ghost injects = { items-constant rows F.ops };
}

impl<F: Lanes<N>, const N: usize> PackedField<F> for FieldArray<F, N> {
    ghost use Rattle.p3_theory.specs.Lanes.Rows.{rows};
    ghost use Rattle.p3_theory.specs.Lanes.RowRing.{unit_at_item, written_quotient, written_mixed_quotient};

    ghost can_divide = { λ _ y. unit_at_item rows F.ops y };

    ghost divides = { written_quotient rows F.ops };

    ghost can_divide_assign = { λ _ y. unit_at_item rows F.ops y };

    ghost divide_assigns = { written_quotient rows F.ops };

    ghost can_divide_scalar = { λ _ _ h. h };

    ghost divides_scalar = { written_mixed_quotient rows F.ops };

    ghost can_divide_assign_scalar = { λ _ _ h. h };

    ghost divide_assigns_scalar = { written_mixed_quotient rows F.ops };
}

/// The lanes of two arrays, interleaved by blocks, one after the other.
impl<F: LanesPow2<N>, const N: usize> PackedFieldPow2<F> for FieldArray<F, N> {
    #[inline]
    fn interleave(&self, other: Self, block_len: usize) -> (Self, Self) {
        if block_len == N {
            return (*self, other);
        }
        let xs = self.items();
        let ys = other.items();
        let mut first = xs;
        let mut second = ys;
        for i in 0..N {
            if (i / block_len) % 2 == 0 {
                first[i] = xs[i];
                second[i] = xs[i + block_len];
            } else {
                first[i] = ys[i - block_len];
                second[i] = ys[i];
            }
        }
        (Self::new(first), Self::new(second))
    }
}

impl<F: Field + Packable> Lanes<1> for F {
    ghost use Rattle.std.proofs.Common.{lit<};

    ghost some_lane = { lit< tt };

    ghost counted = { lit< tt };
}

impl<F: Field + Packable> LanesPow2<1> for F {
    ghost use Rattle.std.specs.Prelude.{refl};

    ghost power_of_two = { (0, refl) };
}

impl<F: Field + Packable> Lanes<2> for F {
    ghost use Rattle.std.proofs.Common.{lit<};

    ghost some_lane = { lit< tt };

    ghost counted = { lit< tt };
}

impl<F: Field + Packable> LanesPow2<2> for F {
    ghost use Rattle.std.specs.Prelude.{refl};

    ghost power_of_two = { (1, refl) };
}

impl<F: Field + Packable> Lanes<4> for F {
    ghost use Rattle.std.proofs.Common.{lit<};

    ghost some_lane = { lit< tt };

    ghost counted = { lit< tt };
}

impl<F: Field + Packable> LanesPow2<4> for F {
    ghost use Rattle.std.specs.Prelude.{refl};

    ghost power_of_two = { (2, refl) };
}

impl<F: Field + Packable> Lanes<8> for F {
    ghost use Rattle.std.proofs.Common.{lit<};

    ghost some_lane = { lit< tt };

    ghost counted = { lit< tt };
}

impl<F: Field + Packable> LanesPow2<8> for F {
    ghost use Rattle.std.specs.Prelude.{refl};

    ghost power_of_two = { (3, refl) };
}

impl<F: Field + Packable> Lanes<16> for F {
    ghost use Rattle.std.proofs.Common.{lit<};

    ghost some_lane = { lit< tt };

    ghost counted = { lit< tt };
}

impl<F: Field + Packable> LanesPow2<16> for F {
    ghost use Rattle.std.specs.Prelude.{refl};

    ghost power_of_two = { (4, refl) };
}
