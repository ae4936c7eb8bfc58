//! Five columns of rows as packings, and back.
use crate::cases::Case;
use p3_field_traits::packed_traits::PackedValue;
use p3_packing_traits::columns::{pack_columns, pack_columns_fn, unpack_into};
use p3_packing_traits::unpacked_rows::{UnpackedRows, unpack_iter};
use std::alloc::{AllocError, Global};
use test_values::numbered::{Numbered, all_hold, holds, multiples, value, value_at, values};

/// Whether the packings of the columns of rows are the answer, of rows in a slice and of rows that a closure
/// answers. Signatures name the arrays, of which it is known then that they have room; nothing is read of them.
pub(crate) fn packed_agree<F: Numbered, P: PackedValue<Value = F> + Numbered>(
    alloc: Global,
    _row: &[[F; 5]],
    _packings: &[[P; 5]],
    case: &Case,
) -> Result<bool, AllocError> {
    let numbers = case.argument(0);
    let rows = values::<[F; 5]>(alloc, numbers)?;
    if rows.len() != P::WIDTH {
        return Ok(false);
    }
    let packed = pack_columns::<P, 5>(&rows);
    let called = pack_columns_fn::<P, [F; 5], _, 5>(|l: usize| -> [F; 5] {
        value_at::<[F; 5]>(numbers, l)
    });
    Ok(holds(&packed, &case.answer) && holds(&called, &case.answer))
}

/// Whether the rows whose columns are packings are the answer, written to a slice and one after the other.
/// Nothing is read of `_row`, `_packings` and `_rows`.
pub(crate) fn unpacked_agree<F: Numbered, P: PackedValue<Value = F> + Numbered>(
    alloc: Global,
    _row: &[[F; 5]],
    _packings: &[[P; 5]],
    _rows: Option<UnpackedRows<P, 5>>,
    case: &Case,
) -> Result<bool, AllocError> {
    let packed = value::<[P; 5]>(case.argument(0));
    let mut rows = multiples::<[F; 5]>(alloc, P::WIDTH, 1)?;
    if rows.len() != P::WIDTH {
        return Ok(false);
    }
    unpack_into::<P, 5>(&packed, &mut rows);
    let read: Vec<[F; 5]> = unpack_iter::<P, 5>(packed).collect(alloc)?;
    Ok(all_hold::<[F; 5]>(&rows, &case.answer) && all_hold::<[F; 5]>(&read, &case.answer))
}
