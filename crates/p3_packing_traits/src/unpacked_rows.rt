//! The rows of packings as an iterator.
ghost use Rattle.std.specs.Prelude.{◌≡◌, ◌<◌, ◌≤◌, ◌+◌, ◌-◌, ℕ, length, get_or, slice_get, Some, IfSome, MatchOption};
ghost use Rattle.std.specs.Iterator.{at_most, UpTo};
ghost use Rattle.std.specs.Iterator.SizeHint.{IsWithinCount};

use crate::columns::unpacked_row;
use p3_field_traits::packed_traits::PackedValue;

/// The rows whose columns are N packings, from the first row on, as many as a packing has lanes: what
/// `unpack_iter` answers.
#[derive(Drop)]
pub struct UnpackedRows<P, const N: usize> {
    packed: [P; N],
    lane: usize,
    ghost sized: { length packed ≡ N },
}

impl<P: PackedValue, const N: usize> Iterator for UnpackedRows<P, N> {
    type Item = [P::Value; N];

    ghost next_gives = { λ s r t. MatchOption r ((P.WIDTH ≤ s.lane) × (t ≡ s)) (λ row. (s.lane < P.WIDTH) × (t.lane ≡ s.lane + 1) × (t.packed ≡ s.packed)
        × ((p : P) (d : P.Value) (c : ℕ) → c < N → slice_get (P.lanes (get_or s.packed c p)) s.lane ≡ Some (get_or row c d))) };

    ghost remaining = { λ s. at_most (P.WIDTH - s.lane) };

    #[inline]
    fn next(&mut self) -> Option<[P::Value; N]> {
        if self.lane >= P::WIDTH {
            return None;
        }
        let row = unpacked_row::<P, N>(&self.packed, self.lane);
        self.lane += 1;
        Some(row)
    }

    #[inline]
    fn size_hint(&self) -> (usize, Option<usize>)
        ensures lower { IsWithinCount result.0 (at_most (P.WIDTH - self.now.lane)) }
        ensures upper { IfSome result.1 (UpTo (at_most (P.WIDTH - self.now.lane))) }
        ensures exact { result ≡ (P.WIDTH - self.now.lane, Some (P.WIDTH - self.now.lane)) }
    {
        let left = P::WIDTH.saturating_sub(self.lane);
        (left, Some(left))
    }
}

impl<P: PackedValue, const N: usize> ExactSizeIterator for UnpackedRows<P, N> {
    #[inline]
    fn len(&self) -> usize {
        P::WIDTH.saturating_sub(self.lane)
    }
}

/// The rows whose columns are the packings: entry c of row l is lane l of packing c. Upstream's
/// `unpack_iter`.
#[inline]
pub fn unpack_iter<P: PackedValue, const N: usize>(packed: [P; N]) -> UnpackedRows<P, N>
    ensures packings { result.packed ≡ packed }
    ensures start { result.lane ≡ 0 }
{
    UnpackedRows { packed, lane: 0 }
}
