//! Packings interleaved by blocks of lanes.
ghost use Rattle.std.specs.Prelude.{◌≡◌, ◌%◌};

use crate::cases::Case;
use p3_field_traits::field::Field;
use p3_field_traits::packed_traits::{PackedFieldPow2, PackedValue};
use test_values::numbered::{Numbered, holds_at, value};

/// Two packings, interleaved by blocks of so many lanes; none where the blocks don't fill a packing.
fn interleaved<F: Field, P: PackedFieldPow2<F>>(x: P, y: P, block: usize) -> Option<(P, P)> {
    match block {
        1 => Some(x.interleave(y, 1)),
        2 if P::WIDTH % 2 == 0 => Some(x.interleave(y, 2)),
        4 if P::WIDTH % 4 == 0 => Some(x.interleave(y, 4)),
        8 if P::WIDTH % 8 == 0 => Some(x.interleave(y, 8)),
        _ => None,
    }
}

/// Whether two packings, interleaved by blocks of so many lanes, are the answer; false where the blocks don't
/// fill a packing.
pub(crate) fn interleaved_agree<F: Field, P: PackedFieldPow2<F> + Numbered>(case: &Case) -> bool {
    let x = value::<P>(case.argument(0));
    let y = value::<P>(case.argument(1));
    let Some(both) = interleaved::<F, P>(x, y, case.size(2)) else {
        return false;
    };
    holds_at(&both.0, &case.answer, 0) && holds_at(&both.1, &case.answer, 1)
}
