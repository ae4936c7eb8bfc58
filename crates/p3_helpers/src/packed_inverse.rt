//! The inverses of all lanes of a packed extension value by one inversion.
ghost use Rattle.std.specs.Prelude.{◌≡◌, ◌<◌, ◌≤◌, ℕ};
ghost use Rattle.p3_theory.specs.Rings.Ring.{Invertible, IsInverse};
ghost use Rattle.p3_theory.specs.Lanes.Lanes.{lane};
ghost use Rattle.p3_theory.specs.Lanes.LaneBlocks.{HoldsNeighbours, IsNeighbours, Joined};

use p3_field_traits::field::Field;
use p3_packing_traits::extension_lanes::{ExtensionLanes, PackedExtensionRing};
use p3_ring::ring::PrimeCharacteristicRing;

/// Blocks of `size` lanes are paired: the value with which the other block of a lane's pair begins, or one where the lanes
/// end before.
#[inline(always)]
fn of_neighbour<F, EF: PrimeCharacteristicRing, PE: ExtensionLanes<F, EF>>(
    packed: &PE,
    size: usize,
    lane: usize,
) -> EF
    requires some { 0 < size }
    requires inside { lane < PE.LANES }
    ensures { (m : ℕ) → IsNeighbours EF.ops size (PE.ext_lanes packed.now) m lane result }
{
    let block = lane / size;
    let start = block * size;
    if block % 2 == 1 {
        ExtensionLanes::<F, EF>::extract(packed, start - size)
    } else if size < PE::LANES - start {
        ExtensionLanes::<F, EF>::extract(packed, start + size)
    } else {
        EF::one()
    }
}

/// Blocks of `size` lanes are paired: each lane gets the value with which the other block of its pair begins, or one
/// where the lanes end before. Always inlined, as what it calls, and one loop: where the compiler knows the lanes,
/// they stay in vectors.
#[inline(always)]
fn of_neighbours<F, EF: PrimeCharacteristicRing, PE: ExtensionLanes<F, EF>>(
    packed: PE,
    size: usize,
) -> PE
    requires { 0 < size }
    ensures { HoldsNeighbours EF.ops size (PE.ext_lanes packed) (PE.ext_lanes result) PE.LANES }
{
    let mut neighbours = packed;
    for lane in 0..PE::LANES {
        let value = of_neighbour::<F, EF, PE>(&packed, size, lane);
        neighbours.set_ext_lane(lane, value);
    }
    neighbours
}

/// Where the lanes are more than a block of `size`, joins each block with its neighbour: the others of a lane get the
/// product of the neighbour's lanes as a factor. It answers how many lanes a block has then, and `size` where there is
/// one block. Up to 16 lanes the packed inverse calls it with constants, so that neighbours are exchanged in vectors.
#[inline(always)]
fn join_blocks<F, EF: Field, PE: PackedExtensionRing<F, EF>>(
    packed: PE,
    others: &mut PE,
    size: usize,
) -> usize
    requires some { 0 < size }
    requires held { Joined EF.ops PE.LANES size (PE.ext_lanes (PE.ops.mul packed others.old)) }
    ensures held { Joined EF.ops PE.LANES result (PE.ext_lanes (PE.ops.mul packed others.new)) }
    ensures grows { size ≤ result }
    ensures more { size < PE.LANES → size < result }
{
    if size >= PE::LANES {
        return size;
    }
    let products = packed * *others;
    *others *= of_neighbours::<F, EF, PE>(products, size);
    size + size.min(PE::LANES - size)
}

/// The inverse at each lane, of a packing whose lanes all have one, by one inversion: that of the product of all lanes,
/// times the others of each. These are joined in pairs, then pairs of pairs, by two packed products each time. It takes
/// every number of lanes. It isn't inlined: its lanes are read one by one, and in a caller's loop the value would go from
/// step to step so. Upstream's `invert_packed_extension`.
#[inline(never)]
pub fn invert_packed_extension<F, EF: Field, PE: PackedExtensionRing<F, EF>>(packed: PE) -> PE
    requires { (k : ℕ) → k < PE.LANES → Invertible EF.ops (lane EF.ops PE.ext_lanes k packed) }
    ensures lanes { (k : ℕ) → k < PE.LANES → IsInverse EF.ops (lane EF.ops PE.ext_lanes k packed) (lane EF.ops PE.ext_lanes k result) }
    ensures inverse { IsInverse PE.ops packed result }
{
    let mut others = of_neighbours::<F, EF, PE>(packed, 1);
    let fours = join_blocks::<F, EF, PE>(packed, &mut others, 2);
    let eights = join_blocks::<F, EF, PE>(packed, &mut others, fours);
    let mut size = join_blocks::<F, EF, PE>(packed, &mut others, eights);
    while size < PE::LANES {
        size = join_blocks::<F, EF, PE>(packed, &mut others, size);
    }
    let first = ExtensionLanes::<F, EF>::extract(&packed, 0);
    let product = first * ExtensionLanes::<F, EF>::extract(&others, 0);
    others * ExtensionLanes::<F, EF>::ext_broadcast(product.inverse())
}

/// The quotient at each lane, of a divisor whose lanes all have an inverse, by one inversion. Such a
/// divisor has an inverse itself, so that `/` is allowed too. This project's own.
#[inline]
pub fn divide_by_lanes<F, EF: Field, PE: PackedExtensionRing<F, EF>>(x: PE, y: PE) -> PE
    requires { (k : ℕ) → k < PE.LANES → Invertible EF.ops (lane EF.ops PE.ext_lanes k y) }
    ensures lanes { (k : ℕ) → k < PE.LANES → EF.ops.mul (lane EF.ops PE.ext_lanes k result) (lane EF.ops PE.ext_lanes k y) ≡ lane EF.ops PE.ext_lanes k x }
    ensures quotient { PE.ops.mul result y ≡ x }
    ensures invertible { Invertible PE.ops y }
{
    let inverse = invert_packed_extension::<F, EF, PE>(y);
    x * inverse
}
