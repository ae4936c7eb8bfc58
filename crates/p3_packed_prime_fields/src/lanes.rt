//! The lanes of packings, and which packings the bench's prime fields have.
ghost use Rattle.std.specs.Prelude.{◌≡◌, ◌<◌, ◌^◌, ℕ};
ghost use Rattle.p3_prime_fields.specs.Elements.{ops};

use crate::lane_loops::interleave_lanes;
use crate::packed::Packed;
use p3_field_traits::packed_traits::{
    Inhabited, Packable, PackedField, PackedFieldPow2, PackedValue,
};
use p3_packed_extension::holds_scalar::HoldsScalar;
use p3_packed_extension::packed_ext_field::Packing;
use p3_prime_fields::form::{Form, Word};
use p3_prime_fields::fp::Fp;
use p3_ring::packed_ring::PackedRing;

impl<F: Packable, const N: usize> PackedValue for Packed<F, N> {
    type Value = F;

    const WIDTH: usize = N;

    ghost WIDTH = { N };

    ghost lanes = { λ x. x.value };

    #[inline]
    fn from_fn<G: FnMut(usize) -> F>(f: G) -> Self {
        Self::new(std::array::from_fn(f))
    }

    #[inline]
    fn broadcast(value: F) -> Self {
        Self::new([value; N])
    }

    #[inline]
    fn from_slice(slice: &[F]) -> Self {
        Self::new(<[F; N]>::try_from(slice).unwrap())
    }

    #[inline]
    fn to_slice(&self, out: &mut [F]) {
        for lane in 0..N {
            out[lane] = self.value[lane];
        }
    }

    #[inline]
    fn extract(&self, lane: usize) -> F {
        self.value[lane]
    }

    #[inline]
    fn set_lane(&mut self, lane: usize, value: F) {
        self.value[lane] = value;
    }
}

/// Zero in all lanes.
impl<W: Form<T>, T: Word, const N: usize> Inhabited for Packed<Fp<W, T>, N> {
    ghost use Rattle.std.specs.Prelude.{replicate};
    ghost use Rattle.std.proofs.lemmas.List.{length-replicate};
    ghost use Rattle.p3_packed_prime_fields.specs.Values.{value_of};

    ghost inhabitant = { value_of (replicate N (ops W.Form).zero) (length-replicate N (ops W.Form).zero) };
}

/// A packing of residues.
impl<W: Form<T>, T: Word, const N: usize> Packing for Packed<Fp<W, T>, N> {
    type Scalar = Fp<W, T>;
}

/// A packing has a place for each lane, and at least one.
impl<W: Form<T> + LaneCount<N>, T: Word, const N: usize> HoldsScalar<Fp<W, T>>
    for Packed<Fp<W, T>, N> {
    ghost use Rattle.p3_prime_fields.specs.contracts.fp.Fp.{the_row};
    ghost use Rattle.p3_packed_prime_fields.specs.Sizes.{packing_holds};

    ghost holds = { packing_holds (the_row W.row T.row W.Form T.Word) N.row W.some_lane W.counted };
}

impl<W: Form<T> + LaneCount<N>, T: Word, const N: usize> PackedRing<Fp<W, T>>
    for Packed<Fp<W, T>, N> {
    ghost use Rattle.p3_theory.specs.Lanes.RowRing.{items_keep, items-constant};
    ghost use Rattle.p3_packed_prime_fields.specs.Values.{packed_rows, same_value};

    ghost some_lane = { W.some_lane };

    ghost lengths = { λ x. x.sized };

    ghost same = { same_value };

    ghost keeps = { items_keep packed_rows (ops W.Form) };

    ghost injects = { items-constant packed_rows (ops W.Form) };
}

impl<W: Form<T> + LaneCount<N>, T: Word, const N: usize> PackedField<Fp<W, T>>
    for Packed<Fp<W, T>, N> {
    ghost use Rattle.p3_theory.specs.Lanes.RowRing.{unit_at_item, written_quotient, written_mixed_quotient};
    ghost use Rattle.p3_packed_prime_fields.specs.Values.{packed_rows};

    ghost can_divide = { λ x y h. unit_at_item packed_rows (ops W.Form) y h };

    ghost divides = { λ x y r h. written_quotient packed_rows (ops W.Form) x y r h };

    ghost can_divide_assign = { λ x y h. unit_at_item packed_rows (ops W.Form) y h };

    ghost divide_assigns = { λ x y r h. written_quotient packed_rows (ops W.Form) x y r h };

    ghost can_divide_scalar = { λ x f h. h };

    ghost divides_scalar = { λ x f r h. written_mixed_quotient packed_rows (ops W.Form) x f r h };

    ghost can_divide_assign_scalar = { λ x f h. h };

    ghost divide_assigns_scalar = { λ x f r h. written_mixed_quotient packed_rows (ops W.Form) x f r h };
}

impl<W: Form<T> + LaneCountPow2<N>, T: Word, const N: usize> PackedFieldPow2<Fp<W, T>>
    for Packed<Fp<W, T>, N> {
    #[inline]
    fn interleave(&self, other: Self, block_len: usize) -> (Self, Self) {
        interleave_lanes(self, other, block_len)
    }
}

/// A number of lanes of the bench's packings. Every marker has those below, so that a function over a marker
/// is one for all of them.
pub trait LaneCount<const N: usize> {
    /// There is at least one lane.
    ghost some_lane: { 0 < N };

    /// The number of lanes is a `usize`.
    ghost counted: { N < 2 ^ 64 };
}

/// A number of lanes that is a power of two.
pub trait LaneCountPow2<const N: usize>: LaneCount<N> {
    /// The number of lanes is a power of two.
    ghost power_of_two: { (k : ℕ) × (N ≡ 2 ^ k) };
}

impl<W> LaneCount<1> for W {
    ghost use Rattle.std.proofs.Common.{lit<};

    ghost some_lane = { lit< tt };

    ghost counted = { lit< tt };
}

impl<W> LaneCountPow2<1> for W {
    ghost use Rattle.std.specs.Prelude.{refl};

    ghost power_of_two = { (0, refl) };
}

impl<W> LaneCount<2> for W {
    ghost use Rattle.std.proofs.Common.{lit<};

    ghost some_lane = { lit< tt };

    ghost counted = { lit< tt };
}

impl<W> LaneCountPow2<2> for W {
    ghost use Rattle.std.specs.Prelude.{refl};

    ghost power_of_two = { (1, refl) };
}

impl<W> LaneCount<3> for W {
    ghost use Rattle.std.proofs.Common.{lit<};

    ghost some_lane = { lit< tt };

    ghost counted = { lit< tt };
}

impl<W> LaneCount<4> for W {
    ghost use Rattle.std.proofs.Common.{lit<};

    ghost some_lane = { lit< tt };

    ghost counted = { lit< tt };
}

impl<W> LaneCountPow2<4> for W {
    ghost use Rattle.std.specs.Prelude.{refl};

    ghost power_of_two = { (2, refl) };
}

impl<W> LaneCount<8> for W {
    ghost use Rattle.std.proofs.Common.{lit<};

    ghost some_lane = { lit< tt };

    ghost counted = { lit< tt };
}

impl<W> LaneCountPow2<8> for W {
    ghost use Rattle.std.specs.Prelude.{refl};

    ghost power_of_two = { (3, refl) };
}

impl<W> LaneCount<16> for W {
    ghost use Rattle.std.proofs.Common.{lit<};

    ghost some_lane = { lit< tt };

    ghost counted = { lit< tt };
}

impl<W> LaneCountPow2<16> for W {
    ghost use Rattle.std.specs.Prelude.{refl};

    ghost power_of_two = { (4, refl) };
}
