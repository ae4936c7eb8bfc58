//! A test for each prime type. A call at the marker of a form passes what the marker owes alone, so the
//! tables are given to a function that is generic over markers.
use crate::cases::{Call, Case};
use crate::cosets::coset_agrees;
use crate::field_calls::{constant_agrees, quotient_agrees};
use crate::list_calls::list_agrees;
use crate::prime_tables as tables;
use crate::ring_calls::{name_agrees, operation_agrees};
use crate::tool_calls::tool_agrees;
use p3_field_traits::field::{PrimeField64, TwoAdicField};
use p3_field_traits::packed_traits::Packable;
use p3_prime_fields::baby_bear::BabyBearModulus;
use p3_prime_fields::form::{OverModulus, Plain, Word};
use p3_prime_fields::fp::Fp;
use p3_prime_fields::goldilocks::GoldilocksForm;
use p3_prime_fields::koala_bear::KoalaBearModulus;
use p3_prime_fields::montgomery::Montgomery;
use p3_prime_fields::small::{M2, M15, M17, M17b, M31};
use p3_prime_fields::two_adic::TwoAdicConstants;
use p3_ring::ring::RingSums;
use std::alloc::{AllocError, Global};
use std::process::Abort;
use std::test::Fail;
use test_values::numbered::Numbered;

/// Whether the call of a line has its answer; false where the line can't be read or names no call.
fn agrees<F: TwoAdicField + PrimeField64 + RingSums + Packable + Numbered>(
    alloc: Global,
    line: &str,
) -> Result<bool, AllocError> {
    let Some(case) = Case::read(alloc, line)? else {
        return Ok(false);
    };
    match case.call {
        Call::Constant(constant) => Ok(constant_agrees::<F>(constant, &case)),
        Call::Operation(operation) => Ok(operation_agrees::<F>(operation, &case)),
        Call::Name(name) => Ok(name_agrees::<F>(name, &case)),
        Call::Quotient(call) => Ok(quotient_agrees::<F>(call, &case)),
        Call::List(call) => list_agrees::<F>(alloc, call, &case),
        Call::Tool(call) => tool_agrees::<F>(alloc, call, &case),
        Call::Coset(call) => Ok(coset_agrees::<F>(call, &case)),
    }
}

/// Asserts the lines of tables.
fn assert_prime<W: OverModulus<T>, T: Word>(
    rt: &(impl Abort + AllocGlobal),
    tables: &[&str],
) -> Result<(), Fail>
where
    W::Modulus: TwoAdicConstants,
{
    for table in tables {
        for line in table.lines() {
            assert!(rt; agrees::<Fp<W, T>>(rt.alloc(), line)?, "{line}");
        }
    }
    Ok(())
}

#[test]
fn f2(rt: HostRuntime) -> Result<(), Fail> {
    assert_prime::<Plain<M2>, u32>(&rt, &[tables::F2])
}

#[test]
fn f17b(rt: HostRuntime) -> Result<(), Fail> {
    assert_prime::<Plain<M17b>, u32>(&rt, &[tables::F17B])
}

#[test]
fn f17(rt: HostRuntime) -> Result<(), Fail> {
    assert_prime::<Plain<M17>, u32>(
        &rt,
        &[
            tables::F17,
            tables::F17_COSETS,
            tables::F17_HALVES,
            tables::WORKED_F17,
        ],
    )
}

#[test]
fn f31(rt: HostRuntime) -> Result<(), Fail> {
    assert_prime::<Plain<M31>, u32>(&rt, &[tables::F31, tables::F31_COSETS, tables::F31_HALVES])
}

#[test]
fn z15(rt: HostRuntime) -> Result<(), Fail> {
    assert_prime::<Plain<M15>, u32>(&rt, &[tables::Z15, tables::Z15_COSETS, tables::Z15_HALVES])
}

#[test]
fn baby_bear(rt: HostRuntime) -> Result<(), Fail> {
    assert_prime::<Montgomery<BabyBearModulus>, u32>(
        &rt,
        &[
            tables::BABY_BEAR,
            tables::BABY_BEAR_COSETS,
            tables::BABY_BEAR_HALVES,
            tables::WORKED_BABY_BEAR,
        ],
    )
}

#[test]
fn koala_bear(rt: HostRuntime) -> Result<(), Fail> {
    assert_prime::<Montgomery<KoalaBearModulus>, u32>(
        &rt,
        &[tables::KOALA_BEAR, tables::KOALA_BEAR_HALVES],
    )
}

#[test]
fn goldilocks(rt: HostRuntime) -> Result<(), Fail> {
    assert_prime::<GoldilocksForm, u64>(
        &rt,
        &[
            tables::GOLDILOCKS,
            tables::GOLDILOCKS_COSETS,
            tables::GOLDILOCKS_HALVES,
        ],
    )
}
