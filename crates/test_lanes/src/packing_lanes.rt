//! Lanes that are read and written, one by one and by groups of a slice.
ghost use Rattle.std.specs.Prelude.{◌≤◌, ◌+◌, ◌*◌, IfSome};

use crate::cases::{Case, LaneCall};
use p3_field_traits::packed_traits::PackedValue;
use std::alloc::{AllocError, Global};
use test_values::numbered::{Numbered, all_hold, holds, value, values};

/// The number of a group that lies whole in so many values.
pub(crate) fn group_within<P: PackedValue>(length: usize, group: usize) -> Option<usize>
    ensures { IfSome result (λ i. i * P.WIDTH + P.WIDTH ≤ length) }
{
    let start = group.checked_mul(P::WIDTH)?;
    if start.checked_add(P::WIDTH)? <= length {
        Some(group)
    } else {
        None
    }
}

/// Whether a packing is the answer once a value is written to a lane.
fn set_lane_agrees<F: Numbered, P: PackedValue<Value = F> + Numbered>(case: &Case) -> bool {
    let mut x = value::<P>(case.argument(0));
    let lane = case.size(1);
    if lane >= P::WIDTH {
        return false;
    }
    x.set_lane(lane, value::<F>(case.argument(2)));
    holds(&x, &case.answer)
}

/// Whether the group of a slice at an index is the answer.
fn loaded<F: Numbered, P: PackedValue<Value = F> + Numbered>(
    alloc: Global,
    case: &Case,
) -> Result<bool, AllocError> {
    let slice = values::<F>(alloc, case.argument(0))?;
    match group_within::<P>(slice.len(), case.size(1)) {
        Some(i) => Ok(holds(&P::load_block(&slice, i), &case.answer)),
        None => Ok(false),
    }
}

/// Whether a slice is the answer once a packing is written to the group at an index.
fn stored<F: Numbered, P: PackedValue<Value = F> + Numbered>(
    alloc: Global,
    case: &Case,
) -> Result<bool, AllocError> {
    let x = value::<P>(case.argument(0));
    let mut slice = values::<F>(alloc, case.argument(1))?;
    match group_within::<P>(slice.len(), case.size(2)) {
        Some(i) => x.store_block(&mut slice, i),
        None => return Ok(false),
    }
    Ok(all_hold::<F>(&slice, &case.answer))
}

/// Whether a call on lanes has its answer.
pub(crate) fn lanes_agree<F: Numbered, P: PackedValue<Value = F> + Numbered>(
    alloc: Global,
    call: LaneCall,
    case: &Case,
) -> Result<bool, AllocError> {
    match call {
        LaneCall::Broadcast => {
            let x = P::broadcast(value::<F>(case.argument(0)));
            Ok(holds(&x, &case.answer))
        }
        LaneCall::SetLane => Ok(set_lane_agrees::<F, P>(case)),
        LaneCall::LoadBlock => loaded::<F, P>(alloc, case),
        LaneCall::StoreBlock => stored::<F, P>(alloc, case),
    }
}
