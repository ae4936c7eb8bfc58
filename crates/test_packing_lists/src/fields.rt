//! What is asserted of the residues modulo 17, by their marker: a check passes what a field owes in one call for all
//! topics.

use crate::arrays::{assert_calls, assert_entries};
use crate::iterators::assert_items;
use crate::lanes::{assert_interleaves, assert_slices};
use crate::vector_values::assert_vectors;
use p3_field_traits::field::Field;
use p3_field_traits::packed_traits::Packable;
use p3_prime_fields::form::{Form, Plain};
use p3_prime_fields::fp::Fp;
use p3_prime_fields::small::M17;
use p3_vectorized::array::FieldArray;
use p3_vectorized::vectorized::Vectorized;
use std::fmt;
use std::process::Abort;
use std::test::Fail;
use test_values::canonical::Canonical;

/// No arrays and vectors: a function that names them knows that they have room.
pub(crate) type Rooms<F> = Option<
    (
        FieldArray<F, 3>,
        FieldArray<F, 4>,
        FieldArray<F, 8>,
        Vectorized<F, FieldArray<F, 4>, 2>,
    ),
>;

/// What is asserted.
#[derive(Clone, Copy)]
enum Topic {
    /// The calls on arrays that rows tell.
    Calls,
    /// Arrays entry by entry.
    Entries,
    /// Arrays as packings of lanes.
    Lanes,
    /// The values at the lanes of vectors.
    Vectors,
}

/// Asserts a topic of a field of 17 elements. Nothing is read of `_rooms`.
fn assert_field<F: Field + Packable + Canonical + fmt::Debug>(
    rt: &(impl Abort + AllocGlobal),
    topic: Topic,
    _rooms: Rooms<F>,
) -> Result<(), Fail> {
    match topic {
        Topic::Calls => assert_calls::<F>(rt, None),
        Topic::Entries => assert_entries::<F>(rt, None),
        Topic::Lanes => {
            assert_interleaves::<F, FieldArray<F, 8>>(rt);
            assert_slices::<F, FieldArray<F, 4>>(rt)?;
            assert_items::<F, FieldArray<F, 4>>(rt)
        }
        Topic::Vectors => assert_vectors::<F>(rt, None),
    }
}

/// The same of the field of a marker.
fn assert_over<W: Form<u32>>(rt: &(impl Abort + AllocGlobal), topic: Topic) -> Result<(), Fail> {
    assert_field::<Fp<W>>(rt, topic, None)
}

#[test]
fn calls_on_arrays(rt: HostRuntime) -> Result<(), Fail> {
    assert_over::<Plain<M17>>(&rt, Topic::Calls)
}

#[test]
fn entries_of_arrays(rt: HostRuntime) -> Result<(), Fail> {
    assert_over::<Plain<M17>>(&rt, Topic::Entries)
}

#[test]
fn arrays_as_packings(rt: HostRuntime) -> Result<(), Fail> {
    assert_over::<Plain<M17>>(&rt, Topic::Lanes)
}

#[test]
fn at_the_lanes_of_vectors(rt: HostRuntime) -> Result<(), Fail> {
    assert_over::<Plain<M17>>(&rt, Topic::Vectors)
}
