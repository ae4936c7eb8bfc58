//! Streams of bytes and of words.

use crate::stream_tables as tables;
use crate::streams::assert_streams;
use p3_field::{
    RawDataSerializable, into_parallel_byte_streams, into_parallel_u32_streams,
    into_parallel_u64_streams,
};
use std::alloc::{AllocError, Global};
use std::array;
use std::test::Fail;
use test_values::numbered::{Numbered, all_hold};
use test_values::texts::numbers;

/// A 32-bit word, which is written with its lowest byte first.
#[derive(Clone, Copy)]
struct Word(u32);

impl RawDataSerializable for Word {
    ghost use Rattle.std.specs.Int.{w32, to_le_bytes};
    ghost use Rattle.std.specs.Prelude.{refl};

    const NUM_BYTES: usize = 4;

    ghost NUM_BYTES = { 4 };

    ghost bytes = { λ x. to_le_bytes w32 x.0 };

    type Bytes = array::IntoIter<u8, 4>;

    ghost num_bytes = { λ x. refl };

    fn into_bytes(self) -> array::IntoIter<u8, 4> {
        self.0.to_le_bytes().into_iter()
    }
}

/// A word by its number.
impl Numbered for Word {
    fn count() -> usize {
        1
    }

    fn read(numbers: &[u64], first: usize, step: usize) -> Word {
        Word(u32::read(numbers, first, step))
    }

    fn number(&self, _index: usize) -> u64 {
        self.0 as u64
    }
}

#[test]
fn joins_words(rt: HostRuntime) -> Result<(), Fail> {
    assert_streams::<Word>(&rt, tables::WORDS)
}

/// Whether pairs have the numbers of a text, one pair after the other.
fn pairs_hold<T: Numbered>(
    alloc: Global,
    pairs: &[[T; 2]],
    text: &str,
) -> Result<bool, AllocError> {
    let mut flat: Vec<T> = Vec::new(alloc);
    for pair in pairs {
        flat.push(pair[0])?;
        flat.push(pair[1])?;
    }
    Ok(all_hold(&flat, &numbers(alloc, text)?))
}

/// Whether the bytes of rows side by side are those of a text.
fn bytes_agree(alloc: Global, rows: &[[Word; 2]], text: &str) -> Result<bool, AllocError> {
    let bytes: Vec<[u8; 2]> = into_parallel_byte_streams::<Word, 2, _>(
        rows.iter().copied(),
    ).collect(alloc)?;
    pairs_hold(alloc, &bytes, text)
}

/// The same of words of 32 bits.
fn short_words_agree(alloc: Global, rows: &[[Word; 2]], text: &str) -> Result<bool, AllocError> {
    let words: Vec<[u32; 2]> = into_parallel_u32_streams::<Word, 2, _>(
        rows.iter().copied(),
    ).collect(alloc)?;
    pairs_hold(alloc, &words, text)
}

/// The same of words of 64 bits.
fn long_words_agree(alloc: Global, rows: &[[Word; 2]], text: &str) -> Result<bool, AllocError> {
    let words: Vec<[u64; 2]> = into_parallel_u64_streams::<Word, 2, _>(
        rows.iter().copied(),
    ).collect(alloc)?;
    pairs_hold(alloc, &words, text)
}

#[test]
fn joins_rows(rt: HostRuntime) -> Result<(), Fail> {
    let rows = [[Word(1), Word(5)], [Word(2), Word(6)]];
    assert!(rt; bytes_agree(rt.alloc(), &rows, tables::BYTES_SIDE_BY_SIDE)?);
    assert!(rt; short_words_agree(rt.alloc(), &rows, "1,5,2,6")?);
    assert!(rt; long_words_agree(rt.alloc(), &rows, "8589934593,25769803781")?);
    Ok(())
}
