//! Extension values side by side with their coefficients, which are packings of the base.
ghost use Rattle.std.specs.Prelude.{◌≡◌, ◌<◌, ◌*◌, ℕ, List, length, map, replicate, get_or};
ghost use Rattle.std.specs.Int.{div_ceil};
ghost use Rattle.std.specs.List.{flat_map};
ghost use Rattle.std.specs.Iterator.{count_map};
ghost use Rattle.p3_theory.specs.Lanes.Lanes.{lane};
ghost use Rattle.p3_theory.specs.Polynomials.Polynomial.{embed};
ghost use Rattle.p3_ring.specs.BoundedSequence.{terms};
ghost use Rattle.p3_ring.specs.PackedPowers.{PacksTerms};
ghost use Rattle.p3_packing_traits.specs.CappedPowers.{PacksPowers};
ghost use Rattle.p3_packing_traits.specs.LaneItems.{EndsForGood};
ghost use Rattle.p3_extension_traits.specs.Streams.{YieldsExactly, DrawnFrom};

use crate::ext_lane_items::{ExtLaneItems, to_ext_iter};
use crate::ext_powers::{packed_ext_powers_capped, packed_ring_powers};
use crate::extension_lanes::PackedExtensionRing;
use p3_extension_traits::basis::BasedVectorSpace;
use p3_extension_traits::extension_field::ExtensionField;
use p3_field_traits::field::Field;
use p3_field_traits::packed_traits::{Packable, PackedField};
use p3_ring::powers::{BoundedPowers, Powers};
use p3_ring::ring::Algebra;

/// Values of an extension side by side: what an operation gives at a lane is the extension's own
/// operation on that lane, and the coefficients at a lane are that lane of the coefficients. Upstream's
/// `PackedFieldExtension`.
pub trait PackedFieldExtension<F: Field, EF: ExtensionField<F>>: PackedExtensionRing<F, EF>
    + Algebra<EF>
    + Algebra<Self::Base>
    + BasedVectorSpace<Self::Base> {
    /// The packing of the coefficients. It stands for upstream's `F::Packing`.
    type Base: PackedField<F>;

    /// A packing of field values as a value has the coefficients p, 0, .., 0.
    ghost base_injects: { (p : Self.Base) → ⟦<Self as BasedVectorSpace<Self::Base>>⟧.coefficients (⟦<Self as Algebra<Self::Base>>⟧.embed p) ≡ embed Self.Base.ops ⟦<Self as BasedVectorSpace<Self::Base>>⟧.DIMENSION p };

    /// Each value has as many lanes as the packing.
    ghost width: { Self.LANES ≡ Self.Base.WIDTH };

    /// There are as many coefficients as an extension value has.
    ghost dimension: { ⟦<Self as BasedVectorSpace<Self::Base>>⟧.DIMENSION ≡ EF.DIMENSION };

    /// The coefficients of lane k are lane k of each coefficient.
    ghost reads: { (x : Self) (k : ℕ) → k < Self.Base.WIDTH → EF.coefficients (get_or (Self.ext_lanes x) k EF.ops.zero) ≡ map (lane F.ops Self.Base.lanes k) (⟦<Self as BasedVectorSpace<Self::Base>>⟧.coefficients x) };

    /// An extension value as a packing holds the value in all lanes.
    ghost ext_injects: { (e : EF) → Self.ext_lanes (⟦<Self as Algebra<EF>>⟧.embed e) ≡ replicate Self.Base.WIDTH e };

    /// The powers of the base from one upward, `LANES` of them in each item. Upstream's
    /// `packed_ext_powers`.
    #[inline]
    final fn packed_ext_powers(base: EF) -> Powers<Self>
        ensures { PacksTerms Self.ops EF.ops Self.ext_lanes Self.LANES result.base result.current base EF.ops.one }
    {
        packed_ring_powers::<F, EF, Self>(base)
    }

    /// The items of `packed_ext_powers` that `unpacked_len` powers need: their number is that length
    /// divided by `LANES`, rounded up. Upstream's `packed_ext_powers_capped`.
    #[inline]
    final fn packed_ext_powers_capped(base: EF, unpacked_len: usize) -> BoundedPowers<Self>
        ensures count { length (terms Self.ops result) ≡ div_ceil unpacked_len Self.LANES }
        ensures powers { PacksPowers Self.ops EF.ops Self.ext_lanes Self.LANES (terms Self.ops result) base }
    {
        packed_ext_powers_capped::<F, EF, Self>(base, unpacked_len)
    }

    /// The values in the lanes of the packings, from lane 0 upward, packing after packing; of endless
    /// packings they are endless. Upstream's `to_ext_iter`.
    #[inline]
    final fn to_ext_iter<I: Iterator<Item = Self>>(iter: I) -> ExtLaneItems<I, F, EF, Self>
        requires { I.can_next iter }
        ensures can { ⟦<ExtLaneItems<I, F, EF, Self> as Iterator>⟧.can_next result }
        ensures count { ⟦<ExtLaneItems<I, F, EF, Self> as Iterator>⟧.remaining result ≡ count_map (λ n. Self.LANES * n) (I.remaining iter) }
        ensures all { (xs : List Self) → YieldsExactly I.next_gives iter xs
            → YieldsExactly ⟦<ExtLaneItems<I, F, EF, Self> as Iterator>⟧.next_gives result (flat_map Self.ext_lanes xs) }
        ensures drawn { DrawnFrom ⟦<ExtLaneItems<I, F, EF, Self> as Iterator>⟧.next_gives I.next_gives result iter (λ values xs. values ≡ flat_map Self.ext_lanes xs) }
        ensures ended { EndsForGood ⟦<ExtLaneItems<I, F, EF, Self> as Iterator>⟧.can_next ⟦<ExtLaneItems<I, F, EF, Self> as Iterator>⟧.next_gives result }
    {
        to_ext_iter::<F, EF, Self, I>(iter)
    }
}

/// A packing of F packs F as an extension of itself.
impl<F: Field + Packable, P: PackedField<F>> PackedFieldExtension<F, F> for P {
    ghost use Rattle.std.specs.Prelude.{refl};

    type Base = P;

    ghost base_injects = { λ p. refl };

    ghost width = { refl };

    ghost dimension = { refl };

    ghost reads = { λ x k h. refl };

    ghost ext_injects = { P.injects };
}
