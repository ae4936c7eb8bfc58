//! The calls that take memory: each of the growths that a call asks for is refused in turn, at many lengths. A body
//! that always answers `Err` meets every contract; it fails here, where no growth is refused.
mod calls;
mod numbers;
mod table;

use calls::{Callee, Scalars, Splits};
use numbers::Pair;
use p3_extension::extension::{BinomialExtensionField, BinomiallyExtendable};
use p3_extension_traits::in_memory::InMemory;
use p3_field_traits::field::PrimeField32;
use p3_field_traits::packed_traits::Packable;
use std::alloc::Global;
use std::process::Abort;
use std::test::Fail;
use table::{Call, LIMBS, PAIRS, Row, SCALARS, answered, growths_at};
use test_allocator::Refusing;
use test_values::canonical::Canonical;

/// The lengths that are tried beside those from 0 to 130.
const LENGTHS: [usize; 6] = [1000, 1023, 1024, 1025, 1027, 2049];

/// Whether a call answers its items where as many growths pass as it asks for, and asks for no more, or is
/// refused at the first growth that doesn't pass, and no block is kept.
fn is_right<C: Callee>(
    alloc: Global,
    passing: u64,
    callee: C,
    call: Call,
    items: &[Pair],
    needed: u64,
) -> bool {
    let heap = Refusing::after(alloc, passing);
    let ample = Refusing::after(alloc, u64::MAX);
    let is_right = match callee.answers(&heap, &ample, call, items) {
        Ok(is_answered) => is_answered && needed <= passing && heap.growths() == needed,
        Err(_) => passing < needed && heap.growths() == passing + 1,
    };
    is_right && heap.blocks() == 0 && ample.blocks() == 0
}

/// Whether a call answers its items where memory is left.
fn is_ample<C: Callee>(alloc: Global, callee: C, call: Call, items: &[Pair]) -> bool {
    match callee.answers(alloc, alloc, call, items) {
        Ok(is_answered) => is_answered,
        Err(_) => false,
    }
}

/// Asserts of a call, at a length, that it answers its items where its growths pass, or one more, and is refused
/// where fewer do, and that after each of these calls one with memory answers the items.
fn assert_length<C: Callee>(
    rt: &(impl Abort + AllocGlobal),
    callee: C,
    row: Row,
    count: usize,
) -> Result<(), Fail> {
    let (name, call, growths) = row;
    let items = answered(rt.alloc(), call, count)?;
    let needed = growths_at(growths, count);
    for passing in 0..=needed.saturating_add(1) {
        assert!(rt;
            is_right(rt.alloc(), passing, callee, call, &items, needed),
            "{name} {count} {passing}"
        );
        assert!(rt;
            is_ample(rt.alloc(), callee, call, &items),
            "{name} {count}"
        );
    }
    Ok(())
}

/// Asserts this of each call, at each length.
fn assert_rows<C: Callee>(
    rt: &(impl Abort + AllocGlobal),
    callee: C,
    rows: &[Row],
) -> Result<(), Fail> {
    for row in rows {
        for count in 0..=130 {
            assert_length(rt, callee, *row, count)?;
        }
        for count in LENGTHS {
            assert_length(rt, callee, *row, count)?;
        }
    }
    Ok(())
}

/// Asserts the calls over a field of 17 elements, over its extension, of which X is given, and of splits into values of
/// it.
pub(crate) fn assert_growths<
    F: BinomiallyExtendable<2> + PrimeField32 + Canonical + InMemory + Packable,
>(rt: &(impl Abort + AllocGlobal), x: BinomialExtensionField<F, 2>) -> Result<(), Fail> {
    assert_rows(rt, Scalars::<F>::of_field(), &SCALARS)?;
    assert_rows(rt, x, &PAIRS)?;
    assert_rows(rt, Splits::<F>::of_field(), &LIMBS)
}
