//! What is asserted of the residues modulo 17, and of their extension by `X^2 = 3`: a check passes what both owe in one
//! call for all topics.
use crate::batch_inverses::assert_inverses;
use crate::growths::assert_growths;
use crate::points::assert_points;
use p3_extension::extension::{BinomialExtensionField, BinomiallyExtendable};
use p3_extension_traits::in_memory::InMemory;
use p3_field_traits::field::PrimeField32;
use p3_field_traits::packed_traits::Packable;
use p3_prime_fields::extensions::F17x2;
use p3_prime_fields::small::F17;
use std::process::Abort;
use std::test::Fail;
use test_values::canonical::Canonical;

/// What is asserted.
#[derive(Clone, Copy)]
enum Topic {
    /// Batch inversion.
    Inverses,
    /// The growths of memory.
    Growths,
    /// The values of polynomials at points.
    Points,
}

/// Asserts a topic of a field of 17 elements and its extension, of which X is given.
fn assert_topic<F: BinomiallyExtendable<2> + PrimeField32 + Canonical + InMemory + Packable>(
    rt: &(impl Abort + AllocGlobal),
    x: BinomialExtensionField<F, 2>,
    topic: Topic,
) -> Result<(), Fail> {
    match topic {
        Topic::Inverses => assert_inverses::<F>(rt),
        Topic::Growths => assert_growths::<F>(rt, x),
        Topic::Points => assert_points::<F>(rt, x),
    }
}

/// Asserts a topic of the residues.
fn assert_residues(rt: &(impl Abort + AllocGlobal), topic: Topic) -> Result<(), Fail> {
    assert_topic::<F17>(rt, F17x2::new([F17::new(0), F17::new(1)]), topic)
}

#[test]
fn batch_inverses(rt: HostRuntime) -> Result<(), Fail> {
    assert_residues(&rt, Topic::Inverses)
}

#[test]
fn growths_of_calls(rt: HostRuntime) -> Result<(), Fail> {
    assert_residues(&rt, Topic::Growths)
}

#[test]
fn at_points(rt: HostRuntime) -> Result<(), Fail> {
    assert_residues(&rt, Topic::Points)
}
