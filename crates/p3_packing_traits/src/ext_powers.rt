//! The powers of an extension value as packings.
ghost use Rattle.std.specs.Prelude.{◌≡◌, ◌<◌, length, replicate};
ghost use Rattle.std.specs.Int.{div_ceil};
ghost use Rattle.p3_theory.specs.Lists.TabulatedEntries.{HoldsBelow};
ghost use Rattle.p3_theory.specs.Rings.GeometricSequence.{geometric_term};
ghost use Rattle.p3_ring.specs.BoundedSequence.{terms};
ghost use Rattle.p3_ring.specs.PackedPowers.{PacksTerms};
ghost use Rattle.p3_packing_traits.specs.CappedPowers.{PacksPowers};

use crate::extension_lanes::{ExtensionLanes, PackedExtensionRing};
use p3_ring::powers::{BoundedPowers, Powers};
use p3_ring::ring::PrimeCharacteristicRing;

/// The powers of the base from one upward, as many in each item as a packing has lanes: the first item's
/// lanes are the first powers, and each item is the one before times the next power in all lanes. It
/// reads and writes lanes alone. Upstream's `packed_ext_powers`.
#[inline]
pub fn packed_ext_powers<F, EF: PrimeCharacteristicRing, PE: ExtensionLanes<F, EF>>(
    base: EF,
) -> Powers<PE>
    ensures current { HoldsBelow (geometric_term EF.ops base EF.ops.one) EF.ops.zero (PE.ext_lanes result.current) PE.LANES }
    ensures multiplier { PE.ext_lanes result.base ≡ replicate PE.LANES (geometric_term EF.ops base EF.ops.one PE.LANES) }
{
    let (current, power) = powers_by_lanes::<F, EF, PE>(base);
    Powers {
        base: PE::ext_broadcast(power),
        current,
    }
}

/// `packed_ext_powers`, told of the lanes of every item.
#[inline]
pub(crate) fn packed_ring_powers<F, EF: PrimeCharacteristicRing, PE: PackedExtensionRing<F, EF>>(
    base: EF,
) -> Powers<PE>
    ensures { PacksTerms PE.ops EF.ops PE.ext_lanes PE.LANES result.base result.current base EF.ops.one }
{
    packed_ext_powers::<F, EF, PE>(base)
}

/// The items of `packed_ext_powers` that `unpacked_len` powers need: their number is that length divided
/// by the number of lanes, rounded up. Upstream's `packed_ext_powers_capped`.
#[inline]
pub fn packed_ext_powers_capped<F, EF: PrimeCharacteristicRing, PE: PackedExtensionRing<F, EF>>(
    base: EF,
    unpacked_len: usize,
) -> BoundedPowers<PE>
    ensures count { length (terms PE.ops result) ≡ div_ceil unpacked_len PE.LANES }
    ensures powers { PacksPowers PE.ops EF.ops PE.ext_lanes PE.LANES (terms PE.ops result) base }
{
    packed_ring_powers::<F, EF, PE>(base).take(unpacked_len.div_ceil(PE::LANES))
}

/// The powers of the base from one upward, one in each lane, and the power that comes after them.
#[inline]
fn powers_by_lanes<F, EF: PrimeCharacteristicRing, P: ExtensionLanes<F, EF>>(base: EF) -> (P, EF)
    ensures lanes { HoldsBelow (geometric_term EF.ops base EF.ops.one) EF.ops.zero (P.ext_lanes result.0) P.LANES }
    ensures next { result.1 ≡ geometric_term EF.ops base EF.ops.one P.LANES }
{
    let mut current = P::ext_broadcast(EF::zero());
    let mut power = EF::one();
    for lane in 0..P::LANES {
        current.set_ext_lane(lane, power);
        power *= base;
    }
    (current, power)
}
