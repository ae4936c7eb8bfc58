//! A test for each extension that has a name: its tables of outside values, its counted roots, and its worked
//! lines.

use crate::cases::Case;
use crate::markers::{Calls, TwoAdicBinomial};
use crate::{
    extension_root_tables as roots, extension_tables as tables, trinomial_tables as trinomials,
    worked_tables as worked,
};
use p3_extension::extension::{Binomial, CubicTrinomial, QuinticTrinomial, SepticTrinomial};
use p3_prime_fields::baby_bear::{BabyBear, BabyBearModulus};
use p3_prime_fields::form::Plain;
use p3_prime_fields::montgomery::Montgomery;
use p3_prime_fields::small::{F17b, F31, M2, M15, M17, M17b, M31, Z15};
use std::alloc::{AllocError, Global};
use std::process::Abort;
use std::test::Fail;

/// Whether the call of a line has its answer; false where the line can't be read or names no call.
fn agrees<W: Calls<S, D>, S, const D: usize>(
    alloc: Global,
    line: &str,
) -> Result<bool, AllocError> {
    match Case::read(line) {
        Some(case) => <W as Calls<S, D>>::agrees(alloc, None, case),
        None => Ok(false),
    }
}

/// Asserts the lines of tables.
fn assert_lines<W: Calls<S, D>, S, const D: usize>(
    rt: &(impl Abort + AllocGlobal),
    tables: &[&str],
) -> Result<(), Fail> {
    for table in tables {
        for line in table.lines() {
            assert!(rt; agrees::<W, S, D>(rt.alloc(), line)?, "{line}");
        }
    }
    Ok(())
}

#[test]
fn f17x2(rt: HostRuntime) -> Result<(), Fail> {
    assert_lines::<Plain<M17>, TwoAdicBinomial, 2>(
        &rt,
        &[
            tables::F17X2,
            roots::F17X2,
            roots::F17X2_TWO_ADIC,
            worked::F17X2,
        ],
    )
}

#[test]
fn f17x4(rt: HostRuntime) -> Result<(), Fail> {
    assert_lines::<Plain<M17>, TwoAdicBinomial, 4>(&rt, &[tables::F17X4, worked::F17X4])
}

#[test]
fn f17x8(rt: HostRuntime) -> Result<(), Fail> {
    assert_lines::<Plain<M17>, TwoAdicBinomial, 8>(&rt, &[tables::F17X8, worked::F17X8])
}

#[test]
fn f17bx2(rt: HostRuntime) -> Result<(), Fail> {
    assert_lines::<Plain<M17b>, Binomial<F17b>, 2>(
        &rt,
        &[tables::F17BX2, roots::F17BX2, worked::F17BX2],
    )
}

#[test]
fn z15x2(rt: HostRuntime) -> Result<(), Fail> {
    assert_lines::<Plain<M15>, Binomial<Z15>, 2>(&rt, &[tables::Z15X2, roots::Z15X2, worked::Z15X2])
}

#[test]
fn f31x3(rt: HostRuntime) -> Result<(), Fail> {
    assert_lines::<Plain<M31>, Binomial<F31>, 3>(&rt, &[tables::F31X3, worked::F31X3])
}

#[test]
fn f31x5(rt: HostRuntime) -> Result<(), Fail> {
    assert_lines::<Plain<M31>, Binomial<F31>, 5>(&rt, &[tables::F31X5, worked::F31X5])
}

#[test]
fn f31x6(rt: HostRuntime) -> Result<(), Fail> {
    assert_lines::<Plain<M31>, Binomial<F31>, 6>(&rt, &[tables::F31X6, worked::F31X6])
}

#[test]
fn bbx4(rt: HostRuntime) -> Result<(), Fail> {
    assert_lines::<Montgomery<BabyBearModulus>, Binomial<BabyBear>, 4>(
        &rt,
        &[tables::BBX4, worked::BBX4],
    )
}

#[test]
fn f31t3(rt: HostRuntime) -> Result<(), Fail> {
    assert_lines::<Plain<M31>, CubicTrinomial, 3>(&rt, &[trinomials::F31T3, worked::F31T3])
}

#[test]
fn f17t5(rt: HostRuntime) -> Result<(), Fail> {
    assert_lines::<Plain<M17>, QuinticTrinomial, 5>(&rt, &[trinomials::F17T5, worked::F17T5])
}

#[test]
fn f2t5(rt: HostRuntime) -> Result<(), Fail> {
    assert_lines::<Plain<M2>, QuinticTrinomial, 5>(
        &rt,
        &[trinomials::F2T5, roots::F2T5, worked::F2T5],
    )
}

#[test]
fn f2t7(rt: HostRuntime) -> Result<(), Fail> {
    assert_lines::<Plain<M2>, SepticTrinomial, 7>(
        &rt,
        &[trinomials::F2T7, roots::F2T7, worked::F2T7],
    )
}
