//! Sums and differences modulo an order, on arrays and on the lanes of vectors.
ghost use Rattle.std.specs.Prelude.{◌≡◌, ◌+◌, ◌-◌, ◌%◌, ◌^◌, ◌<◌, ◌≤◌};

use crate::kernel_tables::{BLOCKS, SUMS, VECTOR_SUMS, WORKED_BLOCKS, WORKED_SUMS};
use crate::numbers::{all_below, numbers};
use crate::vector_blocks::blocks_agree;
use p3_residues::mod_arithmetic::{
    mm256_mod_add, mm256_mod_sub, mm512_mod_add, mm512_mod_sub, packed_mod_add, packed_mod_sub,
    uint32x4_mod_add, uint32x4_mod_sub,
};
use std::process::Abort;
use std::simd::prelude::*;
use test_values::rows::Row;
use test_values::texts::named;

/// What a call makes of two lists.
#[derive(Clone, Copy)]
enum Side {
    Sum,
    Difference,
}

/// What a call goes over.
#[derive(Clone, Copy)]
enum Kernel {
    Arrays,
    FourLanes,
    EightLanes,
    SixteenLanes,
}

/// The calls by their names.
static CALLS: [(&str, (Kernel, Side)); 8] = [
    ("packed_mod_add", (Kernel::Arrays, Side::Sum)),
    ("packed_mod_sub", (Kernel::Arrays, Side::Difference)),
    ("uint32x4_mod_add", (Kernel::FourLanes, Side::Sum)),
    ("uint32x4_mod_sub", (Kernel::FourLanes, Side::Difference)),
    ("mm256_mod_add", (Kernel::EightLanes, Side::Sum)),
    ("mm256_mod_sub", (Kernel::EightLanes, Side::Difference)),
    ("mm512_mod_add", (Kernel::SixteenLanes, Side::Sum)),
    ("mm512_mod_sub", (Kernel::SixteenLanes, Side::Difference)),
];

/// The greatest order that the calls take.
const MOST: u32 = 0x8000_0000;

/// The sum of two residues.
fn sum_modulo(x: u32, y: u32, p: u32) -> u32
    requires order { p ≤ 2 ^ 31 }
    requires left { x < p }
    requires right { y < p }
    ensures { result ≡ (x + y) % p }
{
    (x + y) % p
}

/// The difference of two residues.
fn difference_modulo(x: u32, y: u32, p: u32) -> u32
    requires order { p ≤ 2 ^ 31 }
    requires left { x < p }
    requires right { y < p }
    ensures { result ≡ (x + (p - y)) % p }
{
    (x + (p - y)) % p
}

/// Whether the call on arrays answers what the row says; none where a list has not WIDTH residues.
fn on_arrays<const WIDTH: usize>(side: Side, row: Row<'_>) -> Option<bool>
    requires { WIDTH < 18 }
{
    let p = row.argument(0).parse::<u32>().ok()?;
    let a = numbers::<WIDTH>(row.argument(1))?;
    let b = numbers::<WIDTH>(row.argument(2))?;
    let wanted = numbers::<WIDTH>(row.answer)?;
    if p > MOST || !all_below(&a, p) || !all_below(&b, p) {
        return None;
    }
    let mut res = [0; WIDTH];
    match side {
        Side::Sum => {
            packed_mod_add(&a, &b, &mut res, p, |x: u32, y: u32| -> u32 {
                sum_modulo(x, y, p)
            });
        }
        Side::Difference => {
            packed_mod_sub(&a, &b, &mut res, p, |x: u32, y: u32| -> u32 {
                difference_modulo(x, y, p)
            });
        }
    }
    Some(res == wanted)
}

/// Whether the call on vectors of four lanes answers what the row says.
fn on_four_lanes(side: Side, row: Row<'_>) -> Option<bool> {
    let p = row.argument(0).parse::<u32>().ok()?;
    let a = numbers::<4>(row.argument(1))?;
    let b = numbers::<4>(row.argument(2))?;
    let wanted = numbers::<4>(row.answer)?;
    if p > MOST || !all_below(&a, p) || !all_below(&b, p) {
        return None;
    }
    let (x, y, orders) = (u32x4::from_array(a), u32x4::from_array(b), u32x4::splat(p));
    let lanes = match side {
        Side::Sum => uint32x4_mod_add(x, y, orders),
        Side::Difference => uint32x4_mod_sub(x, y, orders),
    };
    Some(lanes.to_array() == wanted)
}

/// Whether the call on vectors of eight lanes answers what the row says.
fn on_eight_lanes(side: Side, row: Row<'_>) -> Option<bool> {
    let p = row.argument(0).parse::<u32>().ok()?;
    let a = numbers::<8>(row.argument(1))?;
    let b = numbers::<8>(row.argument(2))?;
    let wanted = numbers::<8>(row.answer)?;
    if p > MOST || !all_below(&a, p) || !all_below(&b, p) {
        return None;
    }
    let (x, y, orders) = (u32x8::from_array(a), u32x8::from_array(b), u32x8::splat(p));
    let lanes = match side {
        Side::Sum => mm256_mod_add(x, y, orders),
        Side::Difference => mm256_mod_sub(x, y, orders),
    };
    Some(lanes.to_array() == wanted)
}

/// Whether the call on vectors of sixteen lanes answers what the row says.
fn on_sixteen_lanes(side: Side, row: Row<'_>) -> Option<bool> {
    let p = row.argument(0).parse::<u32>().ok()?;
    let a = numbers::<16>(row.argument(1))?;
    let b = numbers::<16>(row.argument(2))?;
    let wanted = numbers::<16>(row.answer)?;
    if p > MOST || !all_below(&a, p) || !all_below(&b, p) {
        return None;
    }
    let (x, y, orders) = (
        u32x16::from_array(a),
        u32x16::from_array(b),
        u32x16::splat(p),
    );
    let lanes = match side {
        Side::Sum => mm512_mod_add(x, y, orders),
        Side::Difference => mm512_mod_sub(x, y, orders),
    };
    Some(lanes.to_array() == wanted)
}

/// Whether the call on arrays of so many entries answers what the row says; none above width 8.
fn on_short_arrays(width: usize, side: Side, row: Row<'_>) -> Option<bool> {
    match width {
        0 => on_arrays::<0>(side, row),
        1 => on_arrays::<1>(side, row),
        2 => on_arrays::<2>(side, row),
        3 => on_arrays::<3>(side, row),
        4 => on_arrays::<4>(side, row),
        5 => on_arrays::<5>(side, row),
        6 => on_arrays::<6>(side, row),
        7 => on_arrays::<7>(side, row),
        8 => on_arrays::<8>(side, row),
        _ => None,
    }
}

/// The same up to width 17; none above.
fn on_width(width: usize, side: Side, row: Row<'_>) -> Option<bool> {
    match width {
        9 => on_arrays::<9>(side, row),
        10 => on_arrays::<10>(side, row),
        11 => on_arrays::<11>(side, row),
        12 => on_arrays::<12>(side, row),
        13 => on_arrays::<13>(side, row),
        14 => on_arrays::<14>(side, row),
        15 => on_arrays::<15>(side, row),
        16 => on_arrays::<16>(side, row),
        17 => on_arrays::<17>(side, row),
        _ => on_short_arrays(width, side, row),
    }
}

/// Whether the call on arrays answers what the row says at its width, or at every width up to 17.
fn on_widths(side: Side, row: Row<'_>) -> Option<bool> {
    if row.lanes != "every" {
        return on_width(row.lanes.parse::<usize>().ok()?, side, row);
    }
    for width in 0..18usize {
        if !on_width(width, side, row)? {
            return Some(false);
        }
    }
    Some(true)
}

/// Whether the call of a line answers what the line says; none where the line can't be read or names no
/// call.
fn agrees(line: &str) -> Option<bool> {
    let row = Row::read(line)?;
    let Some((kernel, side)) = named(&CALLS, row.call) else {
        return blocks_agree(row);
    };
    match kernel {
        Kernel::Arrays => on_widths(side, row),
        Kernel::FourLanes => on_four_lanes(side, row),
        Kernel::EightLanes => on_eight_lanes(side, row),
        Kernel::SixteenLanes => on_sixteen_lanes(side, row),
    }
}

/// Asserts that the call of each line answers what the line says.
fn assert_table(rt: &impl Abort, table: &str) {
    for line in table.lines() {
        if !line.is_empty() {
            assert_eq!(rt; agrees(line), Some(true), "{line}");
        }
    }
}

#[test]
fn sums_of_arrays(rt: HostRuntime) {
    assert_table(&rt, WORKED_SUMS);
    assert_table(&rt, SUMS);
}

#[test]
fn sums_of_vectors(rt: HostRuntime) {
    assert_table(&rt, VECTOR_SUMS);
}

#[test]
fn vectors_by_blocks(rt: HostRuntime) {
    assert_table(&rt, WORKED_BLOCKS);
    assert_table(&rt, BLOCKS);
}
