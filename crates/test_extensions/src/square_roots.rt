//! Counted square roots: worked examples by hand, and the values of `square_root_tables`.
ghost use Rattle.std.proofs.Common.{lit<};

use crate::cases::part;
use crate::square_root_tables as tables;
use p3_field_traits::field::{Field, TwoAdicField};
use p3_field_traits::sqrt::{tonelli_shanks_counted, tonelli_shanks_two_adic_counted};
use p3_prime_fields::form::{Form, Modulus, OverModulus, Plain};
use p3_prime_fields::fp::Fp;
use p3_prime_fields::small::{M2, M15, M17, M17b, M31};
use p3_prime_fields::two_adic::TwoAdicConstants;
use std::process::Abort;
use test_values::canonical::Canonical;

/// The marker of the order 4, at which two times two is zero.
struct M4;

impl Modulus for M4 {
    ghost ORDER = { 4 };

    ghost GENERATOR = { 3 };

    ghost above_one = { lit< tt };

    ghost fits = { lit< tt };

    const ORDER: u32 = 4;

    const GENERATOR: u32 = 3;
}

/// The canonical number of an answer.
fn number<F: Canonical>(answer: Option<F>) -> Option<u64> {
    match answer {
        Some(root) => Some(root.canonical()),
        None => None,
    }
}

/// The root that is answered and the turns of the search, as numbers, where the order is given.
fn counted<F: Field + Canonical>(x: u64) -> Option<(Option<u64>, u32)> {
    match F::order() {
        Some(_) => {
            let (root, turns) = tonelli_shanks_counted(F::of_number(x));
            Some((number(root), turns.count()))
        }
        None => None,
    }
}

/// The same of the search by the greatest two-adic generator.
fn two_adic_counted<F: TwoAdicField + Canonical>(x: u64) -> Option<(Option<u64>, u32)> {
    match F::order() {
        Some(_) => {
            let (root, turns) = tonelli_shanks_two_adic_counted(F::of_number(x));
            Some((number(root), turns.count()))
        }
        None => None,
    }
}

/// The root and the turns for the residues of a marker: a test at a marker passes its numbers alone.
fn root<W: Form<u32>>(x: u64) -> Option<(Option<u64>, u32)> {
    counted::<Fp<W>>(x)
}

/// The same of the search by the greatest two-adic generator.
fn two_adic_root<W: OverModulus<u32>>(x: u64) -> Option<(Option<u64>, u32)>
where
    W::Modulus: TwoAdicConstants,
{
    two_adic_counted::<Fp<W>>(x)
}

/// What a line like `13;8|3` tells: a value, the root that is answered, if one is, and the turns.
fn row(line: &str) -> Option<(u64, Option<u64>, u32)> {
    let (value, answer) = line.split_once(';')?;
    let root = match part(answer, 0) {
        "None" => None,
        number => Some(number.parse::<u64>().ok()?),
    };
    Some((
        value.parse::<u64>().ok()?,
        root,
        part(answer, 1).parse::<u32>().ok()?,
    ))
}

/// Whether the root and the turns of a line are what the search at a marker answers.
fn agrees<W: Form<u32>>(line: &str) -> bool {
    match row(line) {
        Some((x, answer, turns)) => root::<W>(x) == Some((answer, turns)),
        None => false,
    }
}

/// The same of the search by the greatest two-adic generator.
fn two_adic_agrees<W: OverModulus<u32>>(line: &str) -> bool
where
    W::Modulus: TwoAdicConstants,
{
    match row(line) {
        Some((x, answer, turns)) => two_adic_root::<W>(x) == Some((answer, turns)),
        None => false,
    }
}

/// Asserts that each line has a value, the root that is answered, if one is, and the turns.
fn assert_roots<W: Form<u32>>(rt: &impl Abort, table: &str) {
    for line in table.lines() {
        assert!(rt; agrees::<W>(line), "{line}");
    }
}

/// The same of the search by the greatest two-adic generator.
fn assert_two_adic_roots<W: OverModulus<u32>>(rt: &impl Abort, table: &str)
where
    W::Modulus: TwoAdicConstants,
{
    for line in table.lines() {
        assert!(rt; two_adic_agrees::<W>(line), "{line}");
    }
}

#[test]
fn residues_of_order_17(rt: HostRuntime) {
    assert_roots::<Plain<M17>>(&rt, tables::WORKED_F17);
    assert_roots::<Plain<M17>>(&rt, tables::F17);
    assert_two_adic_roots::<Plain<M17>>(&rt, tables::F17_TWO_ADIC);
    assert_roots::<Plain<M17b>>(&rt, tables::WORKED_F17B);
}

#[test]
fn residues(rt: HostRuntime) {
    assert_roots::<Plain<M31>>(&rt, tables::WORKED_F31);
    assert_roots::<Plain<M31>>(&rt, tables::F31);
    assert_two_adic_roots::<Plain<M31>>(&rt, tables::F31_TWO_ADIC);
    assert_roots::<Plain<M2>>(&rt, tables::WORKED_F2);
}

#[test]
fn residues_of_composite_orders(rt: HostRuntime) {
    assert_roots::<Plain<M15>>(&rt, tables::WORKED_Z15);
    assert_roots::<Plain<M15>>(&rt, tables::Z15);
    assert_two_adic_roots::<Plain<M15>>(&rt, tables::Z15_TWO_ADIC);
    assert_roots::<Plain<M4>>(&rt, tables::WORKED_Z4);
}
