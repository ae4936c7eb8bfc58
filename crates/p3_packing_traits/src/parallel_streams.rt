//! Streams of bytes and words of rows of values, which go side by side.
ghost use Rattle.std.specs.Prelude.{◌≡◌, ◌<◌, ◌≤◌, ◌*◌, ℕ, List, [], ◌∷◌, length, map, replicate, slice_index, MatchOption, OnSome, IfNone};
ghost use Rattle.std.specs.Bool.{MatchBool};
ghost use Rattle.std.specs.Iterator.{IsFinite, size, count_map, count_unless};
ghost use Rattle.p3_theory.specs.Polynomials.Polynomial.{tabulate};
ghost use Rattle.p3_extension_traits.specs.Streams.{Exactly, YieldsExactly, DrawnFrom, AllOfLength, AreParallel, column, byte_stream, row_bytes, left_of, little_endian, word_stream, group_count, GathersGroup, ReadsGroup, row_words};

use p3_extension_traits::array_chunks::next_chunk_padded;
use p3_extension_traits::hints::{bytes_hint, words_hint};
use p3_extension_traits::streams::{RawDataSerializable, StreamWord};
use std::marker::PhantomData;

/// The bytes of rows of N values side by side: index j of an item is the next byte of the stream of
/// the j-th values. Upstream's `RawDataSerializable::into_parallel_byte_streams`.
#[inline]
pub fn into_parallel_byte_streams<
    F: RawDataSerializable + Copy,
    const N: usize,
    I: Iterator<Item = [F; N]>,
>(input: I) -> ParallelByteStreams<I, F, N>
    requires can { I.can_next input }
    requires ends { IsFinite (I.remaining input) }
    ensures can { ⟦<ParallelByteStreams<I, F, N> as Iterator>⟧.can_next result }
    ensures count { Exactly (⟦<ParallelByteStreams<I, F, N> as Iterator>⟧.remaining result) (F.NUM_BYTES * size (I.remaining input)) }
    ensures all { (rows : List (List F)) → YieldsExactly I.next_gives input rows → AllOfLength N rows
        → (items : List (List ℕ)) × YieldsExactly ⟦<ParallelByteStreams<I, F, N> as Iterator>⟧.next_gives result items
        × AreParallel N (F.NUM_BYTES * length rows) (λ j. byte_stream F.bytes (column j rows)) items }
    ensures drawn { DrawnFrom ⟦<ParallelByteStreams<I, F, N> as Iterator>⟧.next_gives I.next_gives result input (λ items rows.
        AllOfLength N rows → AreParallel N (F.NUM_BYTES * length rows) (λ j. byte_stream F.bytes (column j rows)) items) }
{
    ParallelByteStreams {
        source: input,
        row: None,
        at: 0,
    }
}

/// The words of four bytes of rows of N values side by side: index j of an item is the next word of
/// the stream of the j-th values. Upstream's `RawDataSerializable::into_parallel_u32_streams`.
#[inline]
pub fn into_parallel_u32_streams<
    F: RawDataSerializable + Copy,
    const N: usize,
    I: Iterator<Item = [F; N]>,
>(input: I) -> ParallelU32Streams<ParallelByteStreams<I, F, N>, N>
    requires can { I.can_next input }
    requires ends { IsFinite (I.remaining input) }
    ensures can { ⟦<ParallelU32Streams<ParallelByteStreams<I, F, N>, N> as Iterator>⟧.can_next result }
    ensures count { Exactly (⟦<ParallelU32Streams<ParallelByteStreams<I, F, N>, N> as Iterator>⟧.remaining result) (group_count 4 (F.NUM_BYTES * size (I.remaining input))) }
    ensures all { (rows : List (List F)) → YieldsExactly I.next_gives input rows → AllOfLength N rows
        → (items : List (List ℕ)) × YieldsExactly ⟦<ParallelU32Streams<ParallelByteStreams<I, F, N>, N> as Iterator>⟧.next_gives result items
        × AreParallel N (group_count 4 (F.NUM_BYTES * length rows)) (λ j. word_stream 4 (byte_stream F.bytes (column j rows))) items }
    ensures drawn { DrawnFrom ⟦<ParallelU32Streams<ParallelByteStreams<I, F, N>, N> as Iterator>⟧.next_gives I.next_gives result input (λ items rows.
        AllOfLength N rows → AreParallel N (group_count 4 (F.NUM_BYTES * length rows)) (λ j. word_stream 4 (byte_stream F.bytes (column j rows))) items) }
{
    ParallelWordStreams {
        source: into_parallel_byte_streams(input),
        is_over: false,
        of: PhantomData,
    }
}

/// The words of eight bytes of rows of N values side by side: index j of an item is the next word of
/// the stream of the j-th values. Upstream's `RawDataSerializable::into_parallel_u64_streams`.
#[inline]
pub fn into_parallel_u64_streams<
    F: RawDataSerializable + Copy,
    const N: usize,
    I: Iterator<Item = [F; N]>,
>(input: I) -> ParallelU64Streams<ParallelByteStreams<I, F, N>, N>
    requires can { I.can_next input }
    requires ends { IsFinite (I.remaining input) }
    ensures can { ⟦<ParallelU64Streams<ParallelByteStreams<I, F, N>, N> as Iterator>⟧.can_next result }
    ensures count { Exactly (⟦<ParallelU64Streams<ParallelByteStreams<I, F, N>, N> as Iterator>⟧.remaining result) (group_count 8 (F.NUM_BYTES * size (I.remaining input))) }
    ensures all { (rows : List (List F)) → YieldsExactly I.next_gives input rows → AllOfLength N rows
        → (items : List (List ℕ)) × YieldsExactly ⟦<ParallelU64Streams<ParallelByteStreams<I, F, N>, N> as Iterator>⟧.next_gives result items
        × AreParallel N (group_count 8 (F.NUM_BYTES * length rows)) (λ j. word_stream 8 (byte_stream F.bytes (column j rows))) items }
    ensures drawn { DrawnFrom ⟦<ParallelU64Streams<ParallelByteStreams<I, F, N>, N> as Iterator>⟧.next_gives I.next_gives result input (λ items rows.
        AllOfLength N rows → AreParallel N (group_count 8 (F.NUM_BYTES * length rows)) (λ j. word_stream 8 (byte_stream F.bytes (column j rows))) items) }
{
    ParallelWordStreams {
        source: into_parallel_byte_streams(input),
        is_over: false,
        of: PhantomData,
    }
}

/// The bytes of rows of values side by side, as the row in hand and the index of its next byte.
#[derive(Clone, Debug, Drop)]
pub struct ParallelByteStreams<I, F, const N: usize> {
    source: I,
    row: Option<[F; N]>,
    at: usize,
}

impl<F: RawDataSerializable + Copy, I: Iterator<Item = [F; N]>, const N: usize> Iterator
    for ParallelByteStreams<I, F, N> {
    ghost use Rattle.std.specs.Prelude.{◌+◌, IfSome};
    ghost use Rattle.std.specs.Iterator.{count_map, UpTo};
    ghost use Rattle.std.specs.Iterator.SizeHint.{IsWithinCount};
    ghost use Rattle.p3_extension_traits.specs.Streams.{TakesFirst};

    type Item = [u8; N];

    ghost can_next = { λ s. I.can_next s.source × IsFinite (I.remaining s.source) };

    ghost next_gives = { λ s r t. TakesFirst I.next_gives (row_bytes F.bytes F.NUM_BYTES)
        s.source (left_of (row_bytes F.bytes F.NUM_BYTES) s.row s.at)
        r t.source (left_of (row_bytes F.bytes F.NUM_BYTES) t.row t.at) };

    ghost remaining = { λ s. count_map
        (λ n. length (left_of (row_bytes F.bytes F.NUM_BYTES) s.row s.at) + F.NUM_BYTES * n)
        (I.remaining s.source) };

    #[inline]
    fn next(&mut self) -> Option<[u8; N]> {
        loop {
            if let Some(bytes) = next_of_row(&self.row, &mut self.at) {
                return Some(bytes);
            }
            let Some(row) = self.source.next() else {
                return None;
            };
            self.row = Some(row);
            self.at = 0;
        }
    }

    /// The bytes of the row in hand, and those of as many rows as the source's hint says.
    #[inline]
    fn size_hint(&self) -> (usize, Option<usize>)
        ensures lower { IsWithinCount result.0 (count_map
            (λ n. length (left_of (row_bytes F.bytes F.NUM_BYTES) self.now.row self.now.at) + F.NUM_BYTES * n)
            (I.remaining self.now.source)) }
        ensures upper { IfSome result.1 (UpTo (count_map
            (λ n. length (left_of (row_bytes F.bytes F.NUM_BYTES) self.now.row self.now.at) + F.NUM_BYTES * n)
            (I.remaining self.now.source))) }
        ensures row { length (left_of (row_bytes F.bytes F.NUM_BYTES) self.now.row self.now.at) ≤ result.0 }
    {
        let left = left_in_row(&self.row, self.at);
        bytes_hint((left, Some(left)), F::NUM_BYTES, self.source.size_hint())
    }
}

/// How many bytes of each value of the row in hand are left from index `at` on. This project's own.
#[inline]
fn left_in_row<F: RawDataSerializable + Copy, const N: usize>(
    row: &Option<[F; N]>,
    at: usize,
) -> usize
    ensures { result ≡ length (left_of (row_bytes F.bytes F.NUM_BYTES) row.now at) }
{
    match row {
        Some(_) => F::NUM_BYTES.saturating_sub(at),
        None => 0,
    }
}

/// Byte `at` of each value of the row in hand, and `None` where there is no row or its bytes are
/// over. This project's own.
#[inline]
fn next_of_row<F: RawDataSerializable + Copy, const N: usize>(
    row: &Option<[F; N]>,
    at: &mut usize,
) -> Option<[u8; N]>
    ensures next { MatchOption result (left_of (row_bytes F.bytes F.NUM_BYTES) row.now at.old ≡ [])
        (λ bytes. left_of (row_bytes F.bytes F.NUM_BYTES) row.now at.old ≡ bytes ∷ left_of (row_bytes F.bytes F.NUM_BYTES) row.now at.new) }
    ensures stays { IfNone result (at.new ≡ at.old) }
{
    let Some(values) = row else {
        return None;
    };
    if *at >= F::NUM_BYTES {
        return None;
    }
    let bytes = bytes_at(values, *at);
    *at += 1;
    Some(bytes)
}

/// Byte i of each value. This project's own.
#[inline]
fn bytes_at<F: RawDataSerializable + Copy, const N: usize>(values: &[F; N], i: usize) -> [u8; N]
    requires { i < F.NUM_BYTES }
    ensures { result ≡ map (λ x. slice_index (F.bytes x) i) values.now }
{
    let mut bytes = [0; N];
    for j in 0..N {
        bytes[j] = values[j].byte_at(i);
    }
    bytes
}

/// A word of which N are read side by side. This project's own.
pub trait ParallelWord<const N: usize>: StreamWord {
    /// A row of N bytes.
    type Bytes: Copy;

    /// A row of N words.
    type Words;

    /// The row of zeros.
    ghost zeros: { Self.Bytes };

    /// The row of words that is read from rows of bytes.
    ghost words: { List Self.Bytes → Self.Words };

    /// The words of the next rows of bytes of `source`, filled up by rows of zeros where these end first, as
    /// `next_chunk_padded`.
    fn next_words<I: Iterator<Item = Self::Bytes>>(
        source: &mut I,
        is_over: &mut bool,
    ) -> Option<Self::Words>
        requires { MatchBool is_over.old (Unit {0}) (I.can_next source.old × IsFinite (I.remaining source.old)) }
        ensures gathers { ReadsGroup {T = I} words (λ s r t. GathersGroup I.next_gives Self.BYTES zeros is_over.old s r is_over.new t) source.old result source.new }
        ensures ready { OnSome result (MatchBool is_over.new (Unit {0}) (I.can_next source.new × IsFinite (I.remaining source.new))) }
        ensures nearer { OnSome result (size (count_unless is_over.new (count_map (group_count Self.BYTES) (I.remaining source.new)))
            < size (count_unless is_over.old (count_map (group_count Self.BYTES) (I.remaining source.old)))) };
}

impl<const N: usize> ParallelWord<N> for u32 {
    type Bytes = [u8; N];

    type Words = [u32; N];

    ghost zeros = { replicate N 0 };

    ghost words = { row_words N };

    #[inline]
    fn next_words<I: Iterator<Item = [u8; N]>>(
        source: &mut I,
        is_over: &mut bool,
    ) -> Option<[u32; N]> {
        match next_chunk_padded(source, is_over, [0; N]) {
            None => None,
            Some(chunk) => Some(words_by_index::<u32, 4, N>(&chunk, 0)),
        }
    }
}

impl<const N: usize> ParallelWord<N> for u64 {
    type Bytes = [u8; N];

    type Words = [u64; N];

    ghost zeros = { replicate N 0 };

    ghost words = { row_words N };

    #[inline]
    fn next_words<I: Iterator<Item = [u8; N]>>(
        source: &mut I,
        is_over: &mut bool,
    ) -> Option<[u64; N]> {
        match next_chunk_padded(source, is_over, [0; N]) {
            None => None,
            Some(chunk) => Some(words_by_index::<u64, 8, N>(&chunk, 0)),
        }
    }
}

/// Rows of bytes in rows of words, the lowest byte first.
#[derive(Clone, Debug, Drop)]
pub struct ParallelWordStreams<I, W, const N: usize> {
    source: I,
    is_over: bool,
    of: PhantomData<W>,
}

/// Rows of bytes in rows of words of four.
pub type ParallelU32Streams<I, const N: usize> = ParallelWordStreams<I, u32, N>;

/// Rows of bytes in rows of words of eight.
pub type ParallelU64Streams<I, const N: usize> = ParallelWordStreams<I, u64, N>;

impl<W: ParallelWord<N>, I: Iterator<Item = W::Bytes>, const N: usize> Iterator
    for ParallelWordStreams<I, W, N> {
    ghost use Rattle.std.specs.Prelude.{Some, true, IfSome};
    ghost use Rattle.std.specs.Iterator.{UpTo};
    ghost use Rattle.std.specs.Iterator.SizeHint.{IsWithinCount};

    type Item = W::Words;

    ghost can_next = { λ s. MatchBool s.is_over (Unit {0}) (I.can_next s.source × IsFinite (I.remaining s.source)) };

    ghost next_gives = { ReadsGroup W.words (λ s r t. GathersGroup I.next_gives W.BYTES W.zeros s.is_over s.source r t.is_over t.source) };

    ghost remaining = { λ s. count_unless s.is_over (count_map (group_count W.BYTES) (I.remaining s.source)) };

    #[inline]
    fn next(&mut self) -> Option<W::Words> {
        W::next_words(&mut self.source, &mut self.is_over)
    }

    /// The groups of a word's bytes of the source's hint, and nothing once the source has ended.
    #[inline]
    fn size_hint(&self) -> (usize, Option<usize>)
        ensures lower { IsWithinCount result.0 (count_unless self.now.is_over (count_map (group_count W.BYTES) (I.remaining self.now.source))) }
        ensures upper { IfSome result.1 (UpTo (count_unless self.now.is_over (count_map (group_count W.BYTES) (I.remaining self.now.source)))) }
        ensures over { self.now.is_over ≡ true → result ≡ (0, Some 0) }
    {
        words_hint(self.is_over, W::BYTES, self.source.size_hint())
    }
}

/// A word of M bytes. This project's own.
trait WordOfBytes<const M: usize>: StreamWord {
    /// The word with these bytes, the lowest first.
    fn of_bytes(bytes: [u8; M]) -> Self
        ensures { result ≡ Self.read bytes.entry };
}

impl WordOfBytes<4> for u32 {
    #[inline]
    fn of_bytes(bytes: [u8; 4]) -> u32
        ensures { result ≡ little_endian bytes }
    {
        u32::from_le_bytes(bytes)
    }
}

impl WordOfBytes<8> for u64 {
    #[inline]
    fn of_bytes(bytes: [u8; 8]) -> u64
        ensures { result ≡ little_endian bytes }
    {
        u64::from_le_bytes(bytes)
    }
}

/// At each index the word of the bytes that the rows have there. This project's own.
#[inline]
fn words_by_index<W: WordOfBytes<M>, const M: usize, const N: usize>(
    rows: &[[u8; N]; M],
    zero: W,
) -> [W; N]
    ensures { result ≡ tabulate N (λ j. W.read (map (λ row. slice_index row j) rows.now)) }
{
    let mut words = [zero; N];
    for j in 0..N {
        words[j] = W::of_bytes(column_bytes(rows, j));
    }
    words
}

/// The bytes at index j of the rows. This project's own.
#[inline]
fn column_bytes<const N: usize, const M: usize>(rows: &[[u8; N]; M], j: usize) -> [u8; M]
    requires { j < N }
    ensures { result ≡ map (λ row. slice_index row j) rows.now }
{
    let mut bytes = [0; M];
    for i in 0..M {
        bytes[i] = rows[i][j];
    }
    bytes
}
