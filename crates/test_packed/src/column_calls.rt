//! Two columns of rows of extension values as packings, and back.
use crate::cases::Case;
use p3_packing_traits::ext_columns::{pack_ext_columns, pack_ext_columns_fn, unpack_ext_into};
use p3_packing_traits::extension_lanes::ExtensionLanes;
use p3_packing_traits::unpacked_ext_rows::{UnpackedExtRows, unpack_ext_iter};
use p3_ring::ring::PrimeCharacteristicRing;
use std::alloc::{AllocError, Global};
use test_values::numbered::{Numbered, all_hold, counted, holds, value, value_at, values};

/// What calls on two columns make values of: where a signature names them, it is known that they have room.
pub(crate) type Rooms<F, EF, PE> = ([EF; 2], [PE; 2], UnpackedExtRows<F, EF, PE, 2>);

/// Whether the packings of the columns of rows are the answer, of rows in a slice and of rows that a closure
/// answers. Nothing is read of `_rooms`.
pub(crate) fn packed_agree<F, EF, PE>(
    alloc: Global,
    _rooms: Option<Rooms<F, EF, PE>>,
    case: &Case,
) -> Result<bool, AllocError>
where
    EF: PrimeCharacteristicRing + Numbered,
    PE: ExtensionLanes<F, EF> + Numbered,
{
    let numbers = case.argument(0);
    let rows = values::<[EF; 2]>(alloc, numbers)?;
    if rows.len() != PE::LANES {
        return Ok(false);
    }
    let packed = pack_ext_columns::<F, EF, PE, 2>(&rows);
    let called = pack_ext_columns_fn::<F, EF, PE, [EF; 2], _, 2>(|l: usize| -> [EF; 2] {
        value_at::<[EF; 2]>(numbers, l)
    });
    Ok(holds(&packed, &case.answer) && holds(&called, &case.answer))
}

/// Whether the rows whose columns are packings are the answer, written to a slice and one after the other.
/// Nothing is read of `_rooms`.
pub(crate) fn unpacked_agree<F, EF, PE>(
    alloc: Global,
    _rooms: Option<Rooms<F, EF, PE>>,
    case: &Case,
) -> Result<bool, AllocError>
where
    EF: PrimeCharacteristicRing + Numbered,
    PE: ExtensionLanes<F, EF> + Numbered,
{
    let packed = value::<[PE; 2]>(case.argument(0));
    let mut rows = counted::<[EF; 2]>(alloc, PE::LANES)?;
    if rows.len() != PE::LANES {
        return Ok(false);
    }
    unpack_ext_into::<F, EF, PE, 2>(&packed, &mut rows);
    let read: Vec<[EF; 2]> = unpack_ext_iter::<F, EF, PE, 2>(packed).collect(alloc)?;
    Ok(all_hold::<[EF; 2]>(&rows, &case.answer) && all_hold::<[EF; 2]>(&read, &case.answer))
}
