//! The values in the lanes of packings as an iterator.
ghost use Rattle.std.specs.Prelude.{◌≡◌, ◌≤◌, ◌+◌, ◌*◌, ℕ, List, [], ◌∷◌, false, length, Some, MatchOption, IfSome, IfNone};
ghost use Rattle.std.specs.Bool.{MatchBool};
ghost use Rattle.std.specs.List.{flat_map};
ghost use Rattle.std.specs.Iterator.{UpTo, count_map, count_unless};
ghost use Rattle.std.specs.Iterator.SizeHint.{IsWithinCount};
ghost use Rattle.p3_extension_traits.specs.Streams.{YieldsExactly, DrawnFrom, left_of};
ghost use Rattle.p3_packing_traits.specs.LaneItems.{EndsForGood, TakesFirstUntilEnd};

use crate::extension_lanes::ExtensionLanes;
use p3_extension_traits::hints::bytes_hint;
use p3_ring::ring::PrimeCharacteristicRing;
use std::iter::FusedIterator;
use std::marker::PhantomData;

/// The values in the lanes of the packings of an iterator, from lane 0 upward, packing after packing:
/// what `to_ext_iter` answers.
#[derive(Drop)]
pub struct ExtLaneItems<I, F, EF, PE> {
    source: I,
    /// The packing whose lanes are given, where one was drawn.
    packed: Option<PE>,
    /// The lane of that packing which comes next.
    lane: usize,
    /// Whether the source has ended; then it is not asked again.
    is_over: bool,
    values: PhantomData<(F, EF)>,
}

impl<F, EF: PrimeCharacteristicRing, PE: ExtensionLanes<F, EF>, I: Iterator<Item = PE>> Iterator
    for ExtLaneItems<I, F, EF, PE> {
    type Item = EF;

    ghost can_next = { λ s. s.is_over ≡ false → I.can_next s.source };

    ghost next_gives = { λ s r t. TakesFirstUntilEnd I.next_gives PE.ext_lanes
        s.is_over s.source (left_of PE.ext_lanes s.packed s.lane)
        r t.is_over t.source (left_of PE.ext_lanes t.packed t.lane) };

    ghost remaining = { λ s. count_unless s.is_over (count_map
        (λ n. length (left_of PE.ext_lanes s.packed s.lane) + PE.LANES * n)
        (I.remaining s.source)) };

    #[inline]
    fn next(&mut self) -> Option<EF> {
        if self.is_over {
            return None;
        }
        if let Some(value) = next_of_packed::<F, EF, PE>(&self.packed, &mut self.lane) {
            return Some(value);
        }
        let Some(packed) = self.source.next() else {
            self.is_over = true;
            return None;
        };
        self.packed = Some(packed);
        self.lane = 1;
        Some(ExtensionLanes::<F, EF>::extract(&packed, 0))
    }

    /// The lanes left of the packing in hand, and those of as many packings as the source's hint says;
    /// nothing once the source has ended.
    #[inline]
    fn size_hint(&self) -> (usize, Option<usize>)
        ensures lower { IsWithinCount result.0 (count_unless self.now.is_over (count_map
            (λ n. length (left_of PE.ext_lanes self.now.packed self.now.lane) + PE.LANES * n)
            (I.remaining self.now.source))) }
        ensures upper { IfSome result.1 (UpTo (count_unless self.now.is_over (count_map
            (λ n. length (left_of PE.ext_lanes self.now.packed self.now.lane) + PE.LANES * n)
            (I.remaining self.now.source)))) }
        ensures held { MatchBool self.now.is_over (result ≡ (0, Some 0))
            (length (left_of PE.ext_lanes self.now.packed self.now.lane) ≤ result.0) }
    {
        if self.is_over {
            return (0, Some(0));
        }
        let left = lanes_left::<F, EF, PE>(&self.packed, self.lane);
        bytes_hint((left, Some(left)), PE::LANES, self.source.size_hint())
    }
}

/// Once it has answered `None` it answers nothing else, whatever the source does.
impl<
    F,
    EF: PrimeCharacteristicRing,
    PE: ExtensionLanes<F, EF>,
    I: Iterator<Item = PE>,
> FusedIterator for ExtLaneItems<I, F, EF, PE> {}

/// The values in the lanes of the packings, from lane 0 upward, packing after packing; of endless
/// packings they are endless. Upstream's `to_ext_iter`.
#[inline]
pub fn to_ext_iter<F, EF, PE, I>(iter: I) -> ExtLaneItems<I, F, EF, PE>
where
    EF: PrimeCharacteristicRing,
    PE: ExtensionLanes<F, EF>,
    I: Iterator<Item = PE>,
    requires { I.can_next iter }
    ensures can { ⟦<ExtLaneItems<I, F, EF, PE> as Iterator>⟧.can_next result }
    ensures count { ⟦<ExtLaneItems<I, F, EF, PE> as Iterator>⟧.remaining result ≡ count_map (λ n. PE.LANES * n) (I.remaining iter) }
    ensures all { (xs : List PE) → YieldsExactly I.next_gives iter xs
        → YieldsExactly ⟦<ExtLaneItems<I, F, EF, PE> as Iterator>⟧.next_gives result (flat_map PE.ext_lanes xs) }
    ensures drawn { DrawnFrom ⟦<ExtLaneItems<I, F, EF, PE> as Iterator>⟧.next_gives I.next_gives result iter (λ values xs. values ≡ flat_map PE.ext_lanes xs) }
    ensures ended { EndsForGood ⟦<ExtLaneItems<I, F, EF, PE> as Iterator>⟧.can_next ⟦<ExtLaneItems<I, F, EF, PE> as Iterator>⟧.next_gives result }
{
    ExtLaneItems {
        source: iter,
        packed: None,
        lane: 0,
        is_over: false,
        values: PhantomData,
    }
}

/// How many lanes of the packing in hand are left from `lane` on. This project's own.
#[inline]
fn lanes_left<F, EF: PrimeCharacteristicRing, PE: ExtensionLanes<F, EF>>(
    packed: &Option<PE>,
    lane: usize,
) -> usize
    ensures { result ≡ length (left_of PE.ext_lanes packed.now lane) }
{
    match packed {
        Some(_) => PE::LANES.saturating_sub(lane),
        None => 0,
    }
}

/// The value in `lane` of the packing in hand, and `None` where there is no packing or its lanes are
/// over. This project's own.
#[inline]
fn next_of_packed<F, EF: PrimeCharacteristicRing, PE: ExtensionLanes<F, EF>>(
    packed: &Option<PE>,
    lane: &mut usize,
) -> Option<EF>
    ensures next { MatchOption result (left_of PE.ext_lanes packed.now lane.old ≡ [])
        (λ value. left_of PE.ext_lanes packed.now lane.old ≡ value ∷ left_of PE.ext_lanes packed.now lane.new) }
    ensures stays { IfNone result (lane.new ≡ lane.old) }
{
    let Some(packing) = packed else {
        return None;
    };
    if *lane >= PE::LANES {
        return None;
    }
    let value = ExtensionLanes::<F, EF>::extract(packing, *lane);
    *lane += 1;
    Some(value)
}
