//! The packings that rows name: of residues in plain words of 32 bits, in Montgomery's form and in words of 64 bits.
use crate::cases::Case;
use crate::packing_calls::PackingCalls;
use crate::packing_list_tables::{EVERY_LENGTH, LISTS, POWER_GROWTHS, POWERS, WORKED_POWERS};
use crate::packing_sum_tables::{COLUMNS, EIGHT_LANES, SUMS, WORKED_SUMS};
use crate::packing_tables::{BLOCKS, LEFT, OPERATIONS, WORKED_BLOCKS};
use crate::vector_tables::VECTORS;
use p3_field_traits::field::PrimeField64;
use p3_packed_prime_fields::packed::Packed;
use p3_prime_fields::baby_bear::BabyBearModulus;
use p3_prime_fields::form::{Form, Plain};
use p3_prime_fields::fp::Fp;
use p3_prime_fields::goldilocks::Goldilocks;
use p3_prime_fields::montgomery::Montgomery;
use p3_prime_fields::small::{F17, M17, M31};
use std::alloc::{AllocError, Global};
use std::process::Abort;
use std::test::Fail;
use test_values::rows::Row;

/// Whether a call at packings of so many lanes has its answer, over a prime field whose residues are words of
/// 32 bits.
fn lanes_agree<W: Form<u32>>(alloc: Global, lanes: &str, case: &Case) -> Result<bool, AllocError> {
    match lanes {
        "1" => <Packed<Fp<W>, 1> as PackingCalls>::agree(alloc, None, case),
        "4" => <Packed<Fp<W>, 4> as PackingCalls>::agree(alloc, None, case),
        "8" => <Packed<Fp<W>, 8> as PackingCalls>::agree(alloc, None, case),
        "16" => <Packed<Fp<W>, 16> as PackingCalls>::agree(alloc, None, case),
        _ => Ok(false),
    }
}

/// The same over the field that a row names; of Goldilocks there are packings of four lanes alone.
fn fields_agree(alloc: Global, row: Row<'_>, case: &Case) -> Result<bool, AllocError> {
    match row.field {
        "f17" => lanes_agree::<Plain<M17>>(alloc, row.lanes, case),
        "f31" => lanes_agree::<Plain<M31>>(alloc, row.lanes, case),
        "bb" => lanes_agree::<Montgomery<BabyBearModulus>>(alloc, row.lanes, case),
        "gl" => <Packed<Goldilocks, 4> as PackingCalls>::agree(alloc, None, case),
        _ => Ok(false),
    }
}

/// Whether the call of a line has its answer; false where the line can't be read or names no call.
fn agrees(alloc: Global, line: &str) -> Result<bool, AllocError> {
    let Some(row) = Row::read(line) else {
        return Ok(false);
    };
    match Case::read(alloc, row)? {
        Some(case) => fields_agree(alloc, row, &case),
        None => Ok(false),
    }
}

/// The canonical numbers in the lanes.
fn numbers(packing: Packed<F17, 4>) -> [u64; 4] {
    packing
        .value
        .map(|lane: F17| -> u64 { lane.as_canonical_u64() })
}

/// Asserts that the call of each line has its answer.
fn assert_table(rt: &(impl Abort + AllocGlobal), table: &str) -> Result<(), Fail> {
    for line in table.lines() {
        if !line.is_empty() {
            assert!(rt; agrees(rt.alloc(), line)?, "{line}");
        }
    }
    Ok(())
}

#[test]
fn operations_on_packings(rt: HostRuntime) -> Result<(), Fail> {
    assert_table(&rt, OPERATIONS)?;
    assert_table(&rt, LEFT)?;
    assert_table(&rt, BLOCKS)?;
    assert_table(&rt, WORKED_BLOCKS)
}

#[test]
fn operations_on_vectors(rt: HostRuntime) -> Result<(), Fail> {
    assert_table(&rt, VECTORS)
}

#[test]
fn lists_of_packings(rt: HostRuntime) -> Result<(), Fail> {
    assert_table(&rt, LISTS)?;
    assert_table(&rt, EVERY_LENGTH)?;
    assert_table(&rt, POWERS)?;
    assert_table(&rt, WORKED_POWERS)?;
    assert_table(&rt, POWER_GROWTHS)
}

#[test]
fn sums_and_columns(rt: HostRuntime) -> Result<(), Fail> {
    assert_table(&rt, SUMS)?;
    assert_table(&rt, WORKED_SUMS)?;
    assert_table(&rt, EIGHT_LANES)?;
    assert_table(&rt, COLUMNS)
}

/// As a user writes it, worked by hand.
#[test]
fn scalars_on_the_left(rt: HostRuntime) {
    let packing = Packed::new([F17::new(1), F17::new(2), F17::new(3), F17::new(16)]);
    let scalar = F17::new(2);
    assert_eq!(rt; numbers(scalar + packing), [3, 4, 5, 1]);
    assert_eq!(rt; numbers(scalar - packing), [1, 0, 16, 3]);
    assert_eq!(rt; numbers(scalar * packing), [2, 4, 6, 15]);
}

#[test]
fn other_answers_are_refused(rt: HostRuntime) -> Result<(), Fail> {
    assert!(rt; !agrees(rt.alloc(), "f17 4 add: 1,2,3,4|4,3,2,1 = 5,5,5,6")?);
    assert!(rt; !agrees(rt.alloc(), "f17 4 add: 1,2,3,4|4,3,2,1 = 5,5,5")?);
    Ok(())
}
