//! The rows of packings of extension values as an iterator.
ghost use Rattle.std.specs.Prelude.{◌≡◌, ◌<◌, ◌≤◌, ◌+◌, ◌-◌, ℕ, length, get_or, slice_get, Some, IfSome, MatchOption};
ghost use Rattle.std.specs.Iterator.{at_most, UpTo};
ghost use Rattle.std.specs.Iterator.SizeHint.{IsWithinCount};

use crate::ext_columns::unpacked_ext_row;
use crate::extension_lanes::ExtensionLanes;
use p3_ring::ring::PrimeCharacteristicRing;
use std::marker::PhantomData;

/// The rows whose columns are N packings, from the first row on, as many as a packing has lanes: what
/// `unpack_ext_iter` answers.
#[derive(Drop)]
pub struct UnpackedExtRows<F, EF, PE, const N: usize> {
    packed: [PE; N],
    lane: usize,
    values: PhantomData<(F, EF)>,
    ghost sized: { length packed ≡ N },
}

impl<F, EF: PrimeCharacteristicRing, PE: ExtensionLanes<F, EF>, const N: usize> Iterator
    for UnpackedExtRows<F, EF, PE, N> {
    type Item = [EF; N];

    ghost next_gives = { λ s r t. MatchOption r ((PE.LANES ≤ s.lane) × (t ≡ s)) (λ row. (s.lane < PE.LANES) × (t.lane ≡ s.lane + 1) × (t.packed ≡ s.packed)
        × ((p : PE) (d : EF) (c : ℕ) → c < N → slice_get (PE.ext_lanes (get_or s.packed c p)) s.lane ≡ Some (get_or row c d))) };

    ghost remaining = { λ s. at_most (PE.LANES - s.lane) };

    #[inline]
    fn next(&mut self) -> Option<[EF; N]> {
        if self.lane >= PE::LANES {
            return None;
        }
        let row = unpacked_ext_row::<F, EF, PE, N>(&self.packed, self.lane);
        self.lane += 1;
        Some(row)
    }

    #[inline]
    fn size_hint(&self) -> (usize, Option<usize>)
        ensures lower { IsWithinCount result.0 (at_most (PE.LANES - self.now.lane)) }
        ensures upper { IfSome result.1 (UpTo (at_most (PE.LANES - self.now.lane))) }
        ensures exact { result ≡ (PE.LANES - self.now.lane, Some (PE.LANES - self.now.lane)) }
    {
        let left = PE::LANES.saturating_sub(self.lane);
        (left, Some(left))
    }
}

impl<F, EF: PrimeCharacteristicRing, PE: ExtensionLanes<F, EF>, const N: usize> ExactSizeIterator
    for UnpackedExtRows<F, EF, PE, N> {
    #[inline]
    fn len(&self) -> usize {
        PE::LANES.saturating_sub(self.lane)
    }
}

/// The rows whose columns are the packings: entry c of row l is lane l of packing c. Upstream's
/// `unpack_ext_iter`.
#[inline]
pub fn unpack_ext_iter<F, EF, PE, const N: usize>(packed: [PE; N]) -> UnpackedExtRows<F, EF, PE, N>
where
    EF: PrimeCharacteristicRing,
    PE: ExtensionLanes<F, EF>,
    ensures packings { result.packed ≡ packed }
    ensures start { result.lane ≡ 0 }
{
    UnpackedExtRows {
        packed,
        lane: 0,
        values: PhantomData,
    }
}
