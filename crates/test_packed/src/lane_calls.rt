//! Calls on the lanes of packed values.
use crate::cases::{Case, LaneCall};
use p3_packing_traits::extension_lanes::ExtensionLanes;
use p3_ring::ring::PrimeCharacteristicRing;
use std::alloc::{AllocError, Global};
use test_values::numbered::{Numbered, all_hold, counted, holds, value, value_at, values};

/// Whether a call on lanes has its answer.
pub(crate) fn lanes_agree<F, EF, PE>(
    alloc: Global,
    call: LaneCall,
    case: &Case,
) -> Result<bool, AllocError>
where
    EF: PrimeCharacteristicRing + Numbered,
    PE: ExtensionLanes<F, EF> + Numbered,
{
    match call {
        LaneCall::ToSlice => written::<F, EF, PE>(alloc, case),
        LaneCall::Transpose => transposed::<F, EF, PE>(alloc, case),
        LaneCall::FromSlice => of_slice::<F, EF, PE>(alloc, case),
        _ => Ok(one_lane_agrees::<F, EF, PE>(call, case)),
    }
}

/// Whether a call on one lane, or one lane after the other, has its answer.
fn one_lane_agrees<F, EF, PE>(call: LaneCall, case: &Case) -> bool
where
    EF: PrimeCharacteristicRing + Numbered,
    PE: ExtensionLanes<F, EF> + Numbered,
{
    let mut x = value::<PE>(case.argument(0));
    let lane = case.size(1);
    if lane >= PE::LANES {
        return false;
    }
    let written = value::<EF>(case.argument(2));
    match call {
        LaneCall::Extract => {
            let read = ExtensionLanes::<F, EF>::extract(&x, lane);
            return holds(&read, &case.answer);
        }
        LaneCall::AddToLane => ExtensionLanes::<F, EF>::add_assign_lane(&mut x, lane, written),
        LaneCall::SetLane => x.set_ext_lane(lane, written),
        _ => x = from_values::<F, EF, PE>(case.argument(0)),
    }
    holds(&x, &case.answer)
}

/// The packing made of the values that a list tells.
fn from_values<F, EF, PE>(numbers: &[u64]) -> PE
where
    EF: PrimeCharacteristicRing + Numbered,
    PE: ExtensionLanes<F, EF>,
{
    PE::from_ext_fn(|lane: usize| -> EF { value_at::<EF>(numbers, lane) })
}

/// Whether the packing made of a slice is the answer.
fn of_slice<F, EF, PE>(alloc: Global, case: &Case) -> Result<bool, AllocError>
where
    EF: PrimeCharacteristicRing + Numbered,
    PE: ExtensionLanes<F, EF> + Numbered,
{
    let lanes = values::<EF>(alloc, case.argument(0))?;
    if lanes.len() != PE::LANES {
        return Ok(false);
    }
    Ok(holds(&PE::from_ext_slice(&lanes), &case.answer))
}

/// Whether the values that a packing writes to a slice are the answer.
fn written<F, EF, PE>(alloc: Global, case: &Case) -> Result<bool, AllocError>
where
    EF: PrimeCharacteristicRing + Numbered,
    PE: ExtensionLanes<F, EF> + Numbered,
{
    let x = value::<PE>(case.argument(0));
    let mut out = counted::<EF>(alloc, PE::LANES)?;
    if out.len() != PE::LANES {
        return Ok(false);
    }
    ExtensionLanes::<F, EF>::to_ext_slice(&x, &mut out);
    Ok(all_hold::<EF>(&out, &case.answer))
}

/// Whether the values of packings, transposed as rows of so many, are the answer.
fn transposed<F, EF, PE>(alloc: Global, case: &Case) -> Result<bool, AllocError>
where
    EF: PrimeCharacteristicRing + Numbered,
    PE: ExtensionLanes<F, EF> + Numbered,
{
    let width = case.size(0);
    let packings = values::<PE>(alloc, case.argument(1))?;
    let Some(count) = packings.len().checked_mul(PE::LANES) else {
        return Ok(false);
    };
    let mut target = counted::<EF>(alloc, count)?;
    if target.len() != count || width == 0 || count % width != 0 {
        return Ok(false);
    }
    PE::unpack_transpose_into(&packings, &mut target, width);
    Ok(all_hold::<EF>(&target, &case.answer))
}
