//! The lanes of a vector of packings: those of its packings, one packing after the other.
ghost use Rattle.std.specs.Prelude.{◌≡◌, ◌<◌, ◌*◌, ◌/◌, Some, length, get_or, slice_get, slice_set};
ghost use Rattle.std.specs.Array.{IsFromFnResult};
ghost use Rattle.p3_theory.specs.Bases.Coordinates.{CallableBelow};
ghost use Rattle.p3_theory.specs.Lists.TabulatedEntries.{HoldsBelow};
ghost use Rattle.p3_theory.specs.Polynomials.Polynomial.{at};
ghost use Rattle.p3_vectorized.specs.VectorLists.{lane_at, lane_count, vector_lanes};

use super::Vectorized;
use p3_field_traits::packed_traits::{Inhabited, Packable, PackedValue};
use p3_ring::packed_ring::PackedRing;
use p3_ring::ring::PrimeCharacteristicRing;

impl<F: Copy, P: Inhabited, const N: usize> Vectorized<F, P, N> {
    /// The packing at an index below N.
    #[inline]
    fn part(&self, index: usize) -> P
        requires { index < N }
        ensures { result ≡ get_or self.now.items index result }
    {
        let parts = self.items();
        let all = &parts[..];
        all[index]
    }

    /// Writes the packing at an index below N.
    #[inline]
    fn set_part(&mut self, index: usize, part: P)
        requires { index < N }
        ensures { self.new.items ≡ slice_set self.old.items index part }
    {
        let mut parts = self.items();
        parts[index] = part;
        *self = Self::new(parts);
    }
}

impl<F: PrimeCharacteristicRing, P: PackedRing<F> + Inhabited, const N: usize> Vectorized<F, P, N> {
    /// The value of a lane that is counted.
    #[inline]
    fn read_lane(&self, lane: usize) -> F
        requires { lane < lane_count P.WIDTH N }
        ensures { slice_get (vector_lanes P.ops F.ops P.lanes P.WIDTH self.now) lane ≡ Some result }
    {
        let width = P::WIDTH;
        let part = self.part(lane / width);
        part.extract(lane % width)
    }

    /// Writes a lane that is counted.
    #[inline]
    fn write_lane(&mut self, lane: usize, value: F)
        requires { lane < lane_count P.WIDTH N }
        ensures { vector_lanes P.ops F.ops P.lanes P.WIDTH self.new ≡ slice_set (vector_lanes P.ops F.ops P.lanes P.WIDTH self.old) lane value }
    {
        let width = P::WIDTH;
        let mut part = self.part(lane / width);
        part.set_lane(lane % width, value);
        self.set_part(lane / width, part);
    }

    /// The vector whose lane i is what the closure answers at i, for i from 0 upward to the number of
    /// lanes.
    #[inline]
    fn by_lanes<G: FnMut(usize) -> F>(count: usize, mut f: G) -> Self
        requires all { count ≡ lane_count P.WIDTH N }
        requires can { CallableBelow G.FnMut (lane_count P.WIDTH N) f }
        ensures { IsFromFnResult G.FnMut f (vector_lanes P.ops F.ops P.lanes P.WIDTH result) (lane_count P.WIDTH N) }
    {
        let mut vector = Self::new([P::zero(); N]);
        for lane in 0..count {
            let value = f(lane);
            vector.write_lane(lane, value);
        }
        vector
    }

    /// The vector whose first packings have the groups that lie whole in a slice, which has a value for
    /// each lane. The other packings are zero.
    #[inline]
    fn load_groups(slice: &[F]) -> Self
        requires all { length slice.now ≡ lane_count P.WIDTH N }
        ensures { HoldsBelow (at F.ops slice.now) F.ops.zero (vector_lanes P.ops F.ops P.lanes P.WIDTH result) (length slice.now / P.WIDTH * P.WIDTH) }
    {
        let width = P::WIDTH;
        let whole = slice.len() / width;
        let mut items = [P::zero(); N];
        for i in 0..whole {
            items[i] = P::load_block(slice, i);
        }
        Self::new(items)
    }

    /// Writes the lanes of the packings whose groups lie whole in a slice, which has a place for each
    /// lane.
    #[inline]
    fn store_groups(&self, out: &mut [F])
        requires all { length out.old ≡ lane_count P.WIDTH N }
        ensures kept { length out.new ≡ length out.old }
        ensures written { HoldsBelow (lane_at P.ops F.ops P.lanes P.WIDTH self.now.items) F.ops.zero out.new (length out.old / P.WIDTH * P.WIDTH) }
    {
        let width = P::WIDTH;
        let whole = out.len() / width;
        for i in 0..whole {
            let part = self.part(i);
            part.store_block(out, i);
        }
    }

    /// Writes the lanes from `start` on from a slice that has a value for each lane. The lanes before
    /// hold theirs.
    #[inline]
    fn load_from(&mut self, start: usize, slice: &[F])
        requires all { length slice.now ≡ lane_count P.WIDTH N }
        requires before { HoldsBelow (at F.ops slice.now) F.ops.zero (vector_lanes P.ops F.ops P.lanes P.WIDTH self.old) start }
        ensures { vector_lanes P.ops F.ops P.lanes P.WIDTH self.new ≡ slice.now }
    {
        for lane in start..slice.len() {
            self.write_lane(lane, slice[lane]);
        }
    }

    /// Writes the lanes from `start` on to a slice that has a place for each lane. The places before
    /// hold theirs.
    #[inline]
    fn store_from(&self, start: usize, out: &mut [F])
        requires all { length out.old ≡ lane_count P.WIDTH N }
        requires before { HoldsBelow (lane_at P.ops F.ops P.lanes P.WIDTH self.now.items) F.ops.zero out.old start }
        ensures { out.new ≡ vector_lanes P.ops F.ops P.lanes P.WIDTH self.now }
    {
        for lane in start..out.len() {
            out[lane] = self.read_lane(lane);
        }
    }
}

/// Lane i is lane `i % WIDTH` of packing `i / WIDTH`, where `WIDTH` is the number of lanes of a packing.
/// Lanes are counted up to the greatest `usize`; upstream's constant doesn't compile where there are
/// more.
impl<
    F: PrimeCharacteristicRing + Packable,
    P: PackedRing<F> + Inhabited,
    const N: usize,
> PackedValue for Vectorized<F, P, N> {
    type Value = F;

    const WIDTH: usize = if N == 0 {
        0
    } else if P::WIDTH <= usize::MAX / N {
        P::WIDTH * N
    } else {
        usize::MAX
    };

    ghost WIDTH = { lane_count P.WIDTH N };

    ghost lanes = { vector_lanes P.ops F.ops P.lanes P.WIDTH };

    #[inline]
    fn from_fn<G: FnMut(usize) -> F>(f: G) -> Self {
        Self::by_lanes(Self::WIDTH, f)
    }

    #[inline]
    fn broadcast(value: F) -> Self {
        Self::new([P::broadcast(value); N])
    }

    /// By the groups that lie whole in the slice, which are all but where there are lanes that aren't
    /// counted.
    #[inline]
    fn from_slice(slice: &[F]) -> Self {
        let width = P::WIDTH;
        let mut vector = Self::load_groups(slice);
        vector.load_from(slice.len() / width * width, slice);
        vector
    }

    #[inline]
    fn to_slice(&self, out: &mut [F]) {
        let width = P::WIDTH;
        let loaded = out.len() / width * width;
        self.store_groups(out);
        self.store_from(loaded, out);
    }

    #[inline]
    fn extract(&self, lane: usize) -> F {
        self.read_lane(lane)
    }

    #[inline]
    fn set_lane(&mut self, lane: usize, value: F) {
        self.write_lane(lane, value);
    }
}
