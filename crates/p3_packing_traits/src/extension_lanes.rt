//! Extension values side by side, by their lanes alone, and as a ring.
ghost use Rattle.std.specs.Prelude.{◌≡◌, ◌<◌, ◌*◌, ◌/◌, ◌%◌, ℕ, List, length, get_or, replicate, slice_get, slice_set, Some};
ghost use Rattle.std.specs.Array.{IsFromFnResult};
ghost use Rattle.p3_theory.specs.Bases.Coordinates.{CallableBelow};
ghost use Rattle.p3_theory.specs.Lanes.Lanes.{KeepsLanes};
ghost use Rattle.p3_packing_traits.specs.Transposition.{IsTransposed, value_at};

use p3_field_traits::packed_traits::{Inhabited, Packable, PackedValue};
use p3_ring::packed_ring::PackedRing;
use p3_ring::ring::PrimeCharacteristicRing;

/// Values of EF side by side, each in a lane of its own, which is read and written: the part of
/// upstream's `PackedFieldExtension` that says nothing of coefficients, which are values of F, nor of
/// operations. What reads and writes lanes alone asks for no more, so that a call at a concrete packed
/// type passes little; calls that need values of EF to begin with ask for its ring themselves. This
/// project's own.
pub trait ExtensionLanes<F, EF: Copy>: Inhabited {
    /// The number of lanes.
    const LANES: usize;

    ghost LANES: { ℕ };

    /// The values, from lane 0 upward.
    ghost ext_lanes: { Self → List EF };

    /// The value in all lanes.
    fn ext_broadcast(value: EF) -> Self
        ensures { ext_lanes result ≡ replicate LANES value };

    /// The values of the slice, lane by lane. The slice has `LANES` values.
    fn from_ext_slice(slice: &[EF]) -> Self
        requires { length slice.now ≡ LANES }
        ensures { ext_lanes result ≡ slice.now };

    /// The value of a lane below `LANES`.
    fn extract(&self, lane: usize) -> EF
        requires { lane < LANES }
        ensures { slice_get (ext_lanes self.now) lane ≡ Some result };

    /// Writes a lane below `LANES`; the others stay. This project's own.
    fn set_ext_lane(&mut self, lane: usize, value: EF)
        requires { lane < LANES }
        ensures { ext_lanes self.new ≡ slice_set (ext_lanes self.old) lane value };

    /// There is at least one lane.
    ghost some_ext_lane: { 0 < LANES };

    /// Each value has `LANES` lanes.
    ghost ext_lengths: { (x : Self) → length (ext_lanes x) ≡ LANES };

    /// Values with the same lanes are one value.
    ghost ext_same: { (x y : Self) → ext_lanes x ≡ ext_lanes y → x ≡ y };

    /// Writes the lanes to the slice, which has `LANES` values. Upstream's `to_ext_slice`.
    #[inline]
    final fn to_ext_slice(&self, out: &mut [EF])
    where
        EF: PrimeCharacteristicRing,
        requires { length out.old ≡ LANES }
        ensures { out.new ≡ ext_lanes self.now }
    {
        for lane in 0..out.len() {
            out[lane] = ExtensionLanes::<F, EF>::extract(self, lane);
        }
    }

    /// The value whose lane i is what the closure answers at i, for i from 0 upward. Upstream's
    /// `from_ext_fn`.
    #[inline]
    final fn from_ext_fn<G: FnMut(usize) -> EF>(mut f: G) -> Self
    where
        EF: PrimeCharacteristicRing,
        requires { CallableBelow G.FnMut LANES f }
        ensures { IsFromFnResult G.FnMut f (ext_lanes result) LANES }
    {
        let mut packed = Self::ext_broadcast(EF::zero());
        for lane in 0..Self::LANES {
            let value = f(lane);
            packed.set_ext_lane(lane, value);
        }
        packed
    }

    /// Adds the value to a lane below `LANES`; the others stay. Upstream's `add_assign_lane`.
    #[inline]
    final fn add_assign_lane(&mut self, lane: usize, value: EF)
    where
        EF: PrimeCharacteristicRing,
        requires { lane < LANES }
        ensures { (d : EF) → ext_lanes self.new ≡ slice_set (ext_lanes self.old) lane (EF.ops.add (get_or (ext_lanes self.old) lane d) value) }
    {
        let mut sum = ExtensionLanes::<F, EF>::extract(self, lane);
        sum += value;
        self.set_ext_lane(lane, sum);
    }

    /// Writes the values of all lanes, read as rows of `src_width` values, transposed: index
    /// `c * height + r` of the target gets value `r * src_width + c` of the source, whose values go from
    /// lane 0 upward, packing after packing. The target is as long as the source has values, and the
    /// width divides that. Upstream's `unpack_transpose_into`.
    #[inline]
    final fn unpack_transpose_into(src: &[Self], dst: &mut [EF], src_width: usize)
    where
        EF: PrimeCharacteristicRing,
        requires width { 0 < src_width }
        requires whole { length dst.old ≡ length src.now * LANES }
        requires divides { length dst.old % src_width ≡ 0 }
        ensures { IsTransposed (value_at Self.inhabitant EF.ops ext_lanes LANES src.now) EF.ops.zero src_width (length dst.old / src_width) dst.new }
    {
        let height = dst.len() / src_width;
        for c in 0..src_width {
            for r in 0..height {
                let i = r * src_width + c;
                let packed = &src[i / Self::LANES];
                let value = ExtensionLanes::<F, EF>::extract(packed, i % Self::LANES);
                dst[c * height + r] = value;
            }
        }
    }
}

/// Values of EF side by side as a ring: what an operation gives at a lane is EF's own operation on that
/// lane. This project's own.
pub trait PackedExtensionRing<F, EF: PrimeCharacteristicRing>: ExtensionLanes<F, EF>
    + PrimeCharacteristicRing {
    /// Each lane keeps zero, one, sums, negations and products.
    ghost ext_keeps: { KeepsLanes Self.ops EF.ops Self.ext_lanes Self.LANES };
}

/// The value at a lane of packings one after the other: lane `lane % LANES` of packing `lane / LANES`, where `LANES` is
/// the number of lanes of each. This project's own.
#[inline]
pub fn lane_of_packings<F, EF: PrimeCharacteristicRing, PE: ExtensionLanes<F, EF>>(
    packings: &[PE],
    lane: usize,
) -> EF
    requires { lane < PE.LANES * length packings.now }
    ensures { (p : PE) → slice_get (PE.ext_lanes (get_or packings.now (lane / PE.LANES) p)) (lane % PE.LANES) ≡ Some result }
{
    let width = PE::LANES;
    let packing = &packings[lane / width];
    ExtensionLanes::<F, EF>::extract(packing, lane % width)
}

/// A packing of F has its values in its lanes.
impl<F: PrimeCharacteristicRing + Packable, P: PackedRing<F> + Inhabited> ExtensionLanes<F, F>
    for P {
    const LANES: usize = <P as PackedValue>::WIDTH;

    ghost LANES = { P.WIDTH };

    ghost ext_lanes = { P.lanes };

    #[inline]
    fn ext_broadcast(value: F) -> P {
        P::broadcast(value)
    }

    #[inline]
    fn from_ext_slice(slice: &[F]) -> P {
        P::from_slice(slice)
    }

    #[inline]
    fn extract(&self, lane: usize) -> F {
        PackedValue::extract(self, lane)
    }

    #[inline]
    fn set_ext_lane(&mut self, lane: usize, value: F) {
        self.set_lane(lane, value);
    }

    ghost some_ext_lane = { P.some_lane };

    ghost ext_lengths = { P.lengths };

    ghost ext_same = { P.PackedRing.same };
}

/// Each lane of a packing keeps the operations.
impl<F: PrimeCharacteristicRing + Packable, P: PackedRing<F> + Inhabited> PackedExtensionRing<F, F>
    for P {
    ghost ext_keeps = { P.keeps };
}
