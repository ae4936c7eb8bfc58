//! Streams of bytes and words over sources whose hint is exact, and over one whose lower bound is zero.
use super::{repeated, says};
use p3_extension_traits::streams::RawDataSerializable;
use p3_packing_traits::parallel_streams::{
    into_parallel_byte_streams, into_parallel_u32_streams, into_parallel_u64_streams,
};
use p3_prime_fields::baby_bear::BabyBear;
use std::array;
use std::process::Abort;
use std::test::Fail;

/// A value of one byte.
#[derive(Clone, Copy)]
struct Byte(u8);

impl RawDataSerializable for Byte {
    ghost use Rattle.std.specs.Prelude.{[], ◌∷◌, refl};

    const NUM_BYTES: usize = 1;

    ghost NUM_BYTES = { 1 };

    ghost bytes = { λ x. x.0 ∷ [] };

    type Bytes = array::IntoIter<u8, 1>;

    ghost num_bytes = { λ x. refl };

    fn into_bytes(self) -> array::IntoIter<u8, 1> {
        [self.0].into_iter()
    }
}

/// A stream over values.
#[derive(Clone, Copy)]
enum Stream {
    Bytes,
    ShortWords,
    LongWords,
}

/// The streams by their names.
const STREAMS: [(&str, Stream); 3] = [
    ("bytes", Stream::Bytes),
    ("u32", Stream::ShortWords),
    ("u64", Stream::LongWords),
];

/// Whether a stream over these values says what is left after so many items were taken, of so many bytes in all.
fn stream_says<T: RawDataSerializable + Copy>(
    stream: Stream,
    values: &[T],
    bytes: usize,
    taken: usize,
) -> bool {
    let source = values.iter().copied();
    match stream {
        Stream::Bytes => says(T::into_byte_stream(source), taken, bytes),
        Stream::ShortWords => says(T::into_u32_stream(source), taken, bytes.div_ceil(4)),
        Stream::LongWords => says(T::into_u64_stream(source), taken, bytes.div_ceil(8)),
    }
}

/// Whether the parallel streams over these rows say what is left after so many items were taken.
fn parallel_says(stream: Stream, rows: &[[Byte; 2]], taken: usize) -> bool {
    let source = rows.iter().copied();
    let bytes = rows.len();
    match stream {
        Stream::Bytes => says(into_parallel_byte_streams(source), taken, bytes),
        Stream::ShortWords => says(into_parallel_u32_streams(source), taken, bytes.div_ceil(4)),
        Stream::LongWords => says(into_parallel_u64_streams(source), taken, bytes.div_ceil(8)),
    }
}

/// Asserts what the streams of no value to nine of them say, before any item is taken, and after each up to
/// the last byte. A value has so many bytes.
fn assert_streams<T: RawDataSerializable + Copy>(
    rt: &(impl Abort + AllocGlobal),
    value: T,
    bytes_each: usize,
) -> Result<(), Fail> {
    for n in 0..=9usize {
        let values = repeated(rt.alloc(), value, n)?;
        let bytes = n.saturating_mul(bytes_each);
        for (name, stream) in STREAMS {
            for taken in 0..=bytes {
                assert!(rt;
                    stream_says(stream, &values, bytes, taken),
                    "{name} {n} {taken}"
                );
            }
        }
    }
    Ok(())
}

#[test]
fn streams_say_what_is_left(rt: HostRuntime) -> Result<(), Fail> {
    assert_streams(&rt, Byte(7), 1)?;
    assert_streams(&rt, BabyBear::new(5), 4)
}

/// Asserts what streams say of five values that a filter may leave out: of none to all, before any item is
/// taken.
#[test]
fn streams_say_what_a_filter_says(rt: HostRuntime) -> Result<(), Fail> {
    let values = [Byte(1), Byte(2), Byte(3), Byte(4), Byte(5)];
    let bytes = Byte::into_byte_stream(values.iter().copied().filter(|_| true));
    assert!(rt; bytes.size_hint() == (0, Some(5)));
    let short = Byte::into_u32_stream(values.iter().copied().filter(|_| true));
    assert!(rt; short.size_hint() == (0, Some(2)));
    let long = Byte::into_u64_stream(values.iter().copied().filter(|_| true));
    assert!(rt; long.size_hint() == (0, Some(1)));
    Ok(())
}

#[test]
fn parallel_streams_say_what_is_left(rt: HostRuntime) -> Result<(), Fail> {
    for n in 0..=9usize {
        let rows = repeated(rt.alloc(), [Byte(7), Byte(8)], n)?;
        for (name, stream) in STREAMS {
            for taken in 0..=n {
                assert!(rt; parallel_says(stream, &rows, taken), "{name} {n} {taken}");
            }
        }
    }
    Ok(())
}
