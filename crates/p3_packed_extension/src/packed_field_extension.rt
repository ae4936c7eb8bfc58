//! Packed extension values by their lanes, as a ring over these, and with their coefficients.
ghost use Rattle.std.specs.Prelude.{◌≡◌, ◌<◌, ℕ, length, get_or, map, slice_set};

use crate::packed_ext_field::{PackedExtField, Packing};
use p3_extension::extension::{
    ExtField, ExtensionAlgebra, ExtensionOverAlgebra, ExtensionShape, FrobeniusExtendable,
};
use p3_field_traits::packed_traits::{Inhabited, Packable, PackedField, PackedValue};
use p3_packing_traits::extension_lanes::{ExtensionLanes, PackedExtensionRing};
use p3_packing_traits::packed_field_extension::PackedFieldExtension;
use p3_ring::packed_ring::PackedRing;
use p3_ring::ring::{Algebra, PrimeCharacteristicRing};

/// The packing of coefficient i of the values.
#[inline]
fn packed_coefficient<F: PrimeCharacteristicRing, P: PackedRing<F>, const D: usize, S: Copy>(
    slice: &[ExtField<F, D, S, F>],
    i: usize,
) -> P
    requires whole { length slice.now ≡ P.WIDTH }
    requires index { i < D }
    ensures { (d : _) (k : ℕ) → k < P.WIDTH → get_or (P.lanes result) k F.ops.zero ≡ get_or (get_or slice.now k d).value i F.ops.zero }
{
    let mut part = P::zero();
    for lane in 0..P::WIDTH {
        let value = &slice[lane];
        let coefficient = value.value[i];
        part.set_lane(lane, coefficient);
    }
    part
}

/// Writes the packings of all coefficients of the values.
#[inline]
fn pack_coefficients<F: PrimeCharacteristicRing, P: PackedRing<F>, const D: usize, S: Copy>(
    slice: &[ExtField<F, D, S, F>],
    res: &mut [P],
)
    requires whole { length slice.now ≡ P.WIDTH }
    requires room { length res.old ≡ D }
    ensures { (p : P) (d : _) (j k : ℕ) → j < D → k < P.WIDTH → get_or (P.lanes (get_or res.new j p)) k F.ops.zero ≡ get_or (get_or slice.now k d).value j F.ops.zero }
{
    for i in 0..D {
        let part = packed_coefficient::<F, P, D, S>(slice, i);
        res[i] = part;
    }
}

/// Writes a lane of each packing: that of packing i gets value i.
#[inline(always)]
fn write_lanes<F: PrimeCharacteristicRing, P: PackedRing<F>>(
    parts: &mut [P],
    lane: usize,
    values: &[F],
)
    requires inside { lane < P.WIDTH }
    requires values { length values.now ≡ length parts.old }
    ensures long { length parts.new ≡ length parts.old }
    ensures written { (p : P) (i : ℕ) → i < length parts.old → P.lanes (get_or parts.new i p) ≡ slice_set (P.lanes (get_or parts.old i p)) lane (get_or values.now i F.ops.zero) }
{
    for i in 0..parts.len() {
        parts[i].set_lane(lane, values[i]);
    }
}

/// The lanes are extension values: lane k has lane k of each coefficient.
impl<
    F: ExtensionAlgebra<F, D, S> + Packable,
    const D: usize,
    S: ExtensionShape,
    P: PackedRing<F> + Inhabited + Packing<Scalar = F>,
> ExtensionLanes<F, ExtField<F, D, S, F>> for PackedExtField<F, D, S, P> {
    ghost use Rattle.p3_theory.specs.Polynomials.Coefficients.{length-tabulate};
    ghost use Rattle.p3_packed_extension.specs.ValueLanes.{value_lanes, lanes_apart};

    const LANES: usize = <P as PackedValue>::WIDTH;

    ghost LANES = { P.WIDTH };

    ghost ext_lanes = { value_lanes P.ops F.ops P.lanes P.WIDTH };

    #[inline]
    fn ext_broadcast(value: ExtField<F, D, S, F>) -> Self {
        Self::from(value)
    }

    #[inline]
    fn from_ext_slice(slice: &[ExtField<F, D, S, F>]) -> Self {
        let mut value = [P::zero(); D];
        pack_coefficients::<F, P, D, S>(slice, &mut value);
        Self::new(value)
    }

    #[inline(always)]
    fn extract(&self, lane: usize) -> ExtField<F, D, S, F> {
        let mut value = [F::zero(); D];
        for i in 0..D {
            let part = &self.value.value[i];
            value[i] = PackedValue::extract(part, lane);
        }
        ExtField::<F, D, S, F>::new(value)
    }

    #[inline(always)]
    fn set_ext_lane(&mut self, lane: usize, value: ExtField<F, D, S, F>) {
        write_lanes::<F, P>(&mut self.value.value, lane, &value.value);
    }

    ghost some_ext_lane = { P.some_lane };

    ghost ext_lengths = { λ x. length-tabulate P.WIDTH _ };

    ghost ext_same = { lanes_apart P.ops F.ops P.lanes P.WIDTH P.PackedRing.same P.PackedRing.lengths };
}

/// Each lane keeps the operations of the extension.
impl<
    F: ExtensionOverAlgebra<P, D, S> + Packable,
    const D: usize,
    S: ExtensionShape,
    P: PackedRing<F> + Inhabited + Packing<Scalar = F>,
> PackedExtensionRing<F, ExtField<F, D, S, F>> for PackedExtField<F, D, S, P> {
    ghost use Rattle.p3_packed_extension.specs.ValueLanes.{lanes_keep, lane_of_spread};

    ghost ext_keeps = { lanes_keep P.ops F.ops P.lanes P.WIDTH P.keeps (map ⟦<P as Algebra<F>>⟧.embed F.modulus) F.modulus (λ k h. lane_of_spread F.ops P.lanes P.WIDTH ⟦<P as Algebra<F>>⟧.embed P.injects k h F.modulus) };
}

/// The coefficients at a lane are that lane of each coefficient.
impl<
    F: FrobeniusExtendable<D, S> + ExtensionOverAlgebra<P, D, S> + Packable,
    const D: usize,
    S: ExtensionShape,
    P: PackedField<F> + Packing<Scalar = F>,
> PackedFieldExtension<F, ExtField<F, D, S, F>> for PackedExtField<F, D, S, P> {
    ghost use Rattle.std.specs.Prelude.{refl};
    ghost use Rattle.std.proofs.Common.{ap};
    ghost use Rattle.p3_packed_extension.specs.ValueLanes.{lanes_of_spread, at_lane, coefficients_of};

    type Base = P;

    ghost base_injects = { λ p. refl };

    ghost width = { refl };

    ghost dimension = { refl };

    ghost reads = { λ x k h. ap coefficients_of (at_lane P.ops F.ops P.lanes P.WIDTH _ x k h) };

    ghost ext_injects = { lanes_of_spread P.ops F.ops P.lanes P.WIDTH ⟦<P as Algebra<F>>⟧.embed P.injects };
}
