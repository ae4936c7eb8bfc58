//! Complex values over the residues modulo 31, and the extension of degree 2 over them.

use crate::cases::Case;
use crate::complex_calls::{Pair, PairCall, Task, task_agrees};
use crate::{extension_root_tables as roots, extension_tables as tables, worked_tables as worked};
use p3_extension_traits::streams::RawDataSerializable;
use p3_prime_fields::complex_tower::F31cx2;
use p3_prime_fields::small::F31;
use std::alloc::Global;
use std::process::Abort;

/// Whether what is told holds, with memory for it.
fn agrees(alloc: Global, task: Task<'_>) -> bool {
    match task_agrees::<F31>(alloc, None, task) {
        Ok(agrees) => agrees,
        Err(_) => false,
    }
}

/// Asserts the numbers that a call answers.
fn assert_pair(rt: &(impl Abort + AllocGlobal), call: PairCall, expected: Pair) {
    assert!(rt; agrees(rt.alloc(), Task::Pair(call, expected)));
}

/// Whether the call of a line of an extension's table has its answer.
fn line_agrees(alloc: Global, line: &str) -> bool {
    match Case::read(line) {
        Some(case) => agrees(alloc, Task::Case(case)),
        None => false,
    }
}

/// The tables of complex values as an extension, for which a marker has no constants.
#[test]
fn f31c(rt: HostRuntime) {
    for table in [tables::F31C, roots::F31C, worked::F31C] {
        for line in table.lines() {
            assert!(rt; line_agrees(rt.alloc(), line), "{line}");
        }
    }
}

#[test]
fn complex_parts(rt: HostRuntime) {
    let z = [3, 2];
    assert_pair(&rt, PairCall::Value(z), z);
    assert_pair(&rt, PairCall::Conjugate(z), [3, 29]);
    assert_pair(&rt, PairCall::Norm(z), [13, 0]);
    assert_pair(&rt, PairCall::Array(z), z);
    assert_pair(&rt, PairCall::Parts(z), z);
    assert_pair(&rt, PairCall::OfReal(3), [3, 0]);
    assert_pair(&rt, PairCall::OfImaginary(2), [0, 2]);
}

#[test]
fn rotation(rt: HostRuntime) {
    assert_pair(&rt, PairCall::Rotated([3, 2], [1, 5]), [24, 17]);
}

#[test]
fn complex_constants(rt: HostRuntime) {
    assert_pair(&rt, PairCall::Generator, [3, 2]);
}

#[test]
fn tower_constants(rt: HostRuntime) {
    assert_pair(&rt, PairCall::W, [3, 2]);
    assert_pair(&rt, PairCall::Root, [30, 0]);
    assert_pair(&rt, PairCall::TimesW([1, 1]), [1, 5]);
    assert_pair(&rt, PairCall::GeneratorCoefficient(0), [0, 0]);
    assert_pair(&rt, PairCall::GeneratorCoefficient(1), [1, 0]);
}

/// The inverse of Y, the product of both, and the name of the extension as an algebra.
#[test]
fn inverse_of_y(rt: HostRuntime) {
    let y = [[0, 0], [1, 0]];
    let inverse = [[0, 0], [5, 7]];
    assert!(rt; agrees(rt.alloc(), Task::Inverse(y, inverse)));
    assert!(rt; agrees(rt.alloc(), Task::Name("bench:f31cx2")));
}

#[test]
fn tower_bytes(rt: HostRuntime) {
    assert_eq!(rt; F31cx2::NUM_BYTES, 16);
}

/// Asserts both coefficients of a two-adic generator of the extension over complex values, and that it is the one that
/// the extension gives as a two-adic field.
fn assert_two_adic(rt: &(impl Abort + AllocGlobal), bits: usize, generator: [Pair; 2]) {
    for index in 0..2 {
        let call = PairCall::TwoAdicCoefficient { bits, index };
        assert_pair(rt, call, generator[index]);
    }
    assert!(rt; agrees(rt.alloc(), Task::Generator(bits, Some(generator))));
}

#[test]
fn generators_over_complex_values(rt: HostRuntime) {
    assert_pair(&rt, PairCall::TwoAdicity, [7, 0]);
    assert_two_adic(&rt, 7, [[0, 0], [15, 18]]);
    assert_two_adic(&rt, 6, [[18, 27], [0, 0]]);
    assert_two_adic(&rt, 5, [[29, 11], [0, 0]]);
    assert_two_adic(&rt, 1, [[30, 0], [0, 0]]);
    assert_two_adic(&rt, 0, [[1, 0], [0, 0]]);
    assert!(rt; agrees(rt.alloc(), Task::Generator(8, None)));
}

#[test]
fn circle_generators(rt: HostRuntime) {
    assert_pair(&rt, PairCall::CircleTwoAdicity, [5, 0]);
    let rows = [[1, 0], [30, 0], [0, 30], [4, 27], [7, 13], [2, 11]];
    for bits in 0..6 {
        assert_pair(&rt, PairCall::CircleGenerator(bits), rows[bits]);
    }
}
