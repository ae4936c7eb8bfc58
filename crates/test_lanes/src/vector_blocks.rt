//! Vectors interleaved by blocks of lanes.
ghost use Rattle.std.specs.Prelude.{◌≡◌, ◌%◌, ◌<◌};

use crate::numbers::numbers;
use p3_residues::interleaves::{interleave_u32, interleave_u64, interleave_u128, interleave_u256};
use std::simd::prelude::*;
use test_values::rows::Row;

/// The first of two values.
fn first_of<T: Copy>(both: (T, T)) -> T {
    both.0
}

/// The second of two values.
fn second_of<T: Copy>(both: (T, T)) -> T {
    both.1
}

/// Whether the vectors, interleaved by single lanes or by blocks of 2, 4 or 8, are what the row says; none
/// where pairs of such blocks don't fill N lanes.
fn interleaved<const N: usize>(row: Row<'_>) -> Option<bool>
    requires { N < 18 }
{
    let (first, second) = row.answer.split_once('|')?;
    let x = Simd::from_array(numbers::<N>(row.argument(0))?);
    let y = Simd::from_array(numbers::<N>(row.argument(1))?);
    let even = Simd::from_array(numbers::<N>(first)?);
    let odd = Simd::from_array(numbers::<N>(second)?);
    let both = match row.call {
        "interleave_u32" if N % 2 == 0 => interleave_u32::<N>(x, y),
        "interleave_u64" if N % 4 == 0 => interleave_u64::<N>(x, y),
        "interleave_u128" if N % 8 == 0 => interleave_u128::<N>(x, y),
        "interleave_u256" if N % 16 == 0 => interleave_u256::<N>(x, y),
        _ => return None,
    };
    Some(first_of(both) == even && second_of(both) == odd)
}

/// `interleaved` at the row's number of lanes.
pub(crate) fn blocks_agree(row: Row<'_>) -> Option<bool> {
    match row.lanes {
        "4" => interleaved::<4>(row),
        "8" => interleaved::<8>(row),
        "16" => interleaved::<16>(row),
        _ => None,
    }
}
