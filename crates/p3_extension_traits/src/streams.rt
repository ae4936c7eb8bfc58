//! Values as bytes, and the streams of bytes and words of many values.
ghost use Rattle.std.specs.Prelude.{◌≡◌, ◌<◌, ◌*◌, ℕ, List, length, slice_index, OnSome, IfNone};
ghost use Rattle.std.specs.Option.{ForSome};
ghost use Rattle.std.specs.Iterator.Adapters.{inner_items_left};
ghost use Rattle.std.specs.Bool.{MatchBool};
ghost use Rattle.std.specs.Iterator.{IsFinite, size, count_map, count_unless};
ghost use Rattle.std.proofs.Common.{arith};
ghost use Rattle.p3_extension_traits.specs.Streams.{Exactly, YieldsExactly, DrawnFrom, byte_stream, word_stream, little_endian, InHand, GathersGroup, ReadsGroup, group_count};

use crate::array_chunks::next_chunk_padded;
use crate::hints::{bytes_hint, held_hint, words_hint};
use std::marker::PhantomData;

/// A value that is written as a fixed number of bytes, for hashing. Upstream's
/// `RawDataSerializable`.
pub trait RawDataSerializable: Sized {
    /// How many bytes a value makes.
    const NUM_BYTES: usize;

    ghost NUM_BYTES: { ℕ };

    /// The bytes of a value, in order.
    ghost bytes: { Self → List ℕ };

    /// The iterator over the bytes of one value.
    type Bytes: Iterator<Item = u8> + Drop;

    /// The bytes of the value.
    fn into_bytes(self) -> Self::Bytes
        ensures can { Self.Bytes.can_next result }
        ensures count { Exactly (Self.Bytes.remaining result) NUM_BYTES }
        ensures all { YieldsExactly Self.Bytes.next_gives result (bytes self) };

    /// Byte i of the value. This project's own: the parallel streams read rows of values by it.
    #[inline]
    fn byte_at(self, i: usize) -> u8
        requires { i < NUM_BYTES }
        ensures { result ≡ slice_index (bytes self) i }
    {
        let mut reader = self.into_bytes();
        reader.nth(i).unwrap_or(0)
    }

    /// The bytes of the values, one value after the other.
    #[inline]
    final fn into_byte_stream<I: Iterator<Item = Self>>(input: I) -> ByteStream<I, Self::Bytes>
        requires can { I.can_next input }
        requires ends { IsFinite (I.remaining input) }
        ensures can { ⟦<ByteStream<I, Self::Bytes> as Iterator>⟧.can_next result }
        ensures count { Exactly (⟦<ByteStream<I, Self::Bytes> as Iterator>⟧.remaining result) (NUM_BYTES * size (I.remaining input)) }
        ensures all { (xs : List Self) → YieldsExactly I.next_gives input xs
            → YieldsExactly ⟦<ByteStream<I, Self::Bytes> as Iterator>⟧.next_gives result (byte_stream bytes xs) }
        ensures drawn { DrawnFrom ⟦<ByteStream<I, Self::Bytes> as Iterator>⟧.next_gives I.next_gives result input (λ bs xs. bs ≡ byte_stream bytes xs) }
    {
        ByteStream {
            source: input,
            reader: None,
        }
    }

    /// The bytes of the values in words of four, the lowest byte first, the last word filled up by
    /// zeros.
    #[inline]
    final fn into_u32_stream<I: Iterator<Item = Self>>(
        input: I,
    ) -> U32Stream<ByteStream<I, Self::Bytes>>
        requires can { I.can_next input }
        requires ends { IsFinite (I.remaining input) }
        ensures can { ⟦<U32Stream<ByteStream<I, Self::Bytes>> as Iterator>⟧.can_next result }
        ensures count { Exactly (⟦<U32Stream<ByteStream<I, Self::Bytes>> as Iterator>⟧.remaining result) (group_count 4 (NUM_BYTES * size (I.remaining input))) }
        ensures all { (xs : List Self) → YieldsExactly I.next_gives input xs
            → YieldsExactly ⟦<U32Stream<ByteStream<I, Self::Bytes>> as Iterator>⟧.next_gives result (word_stream 4 (byte_stream bytes xs)) }
        ensures drawn { DrawnFrom ⟦<U32Stream<ByteStream<I, Self::Bytes>> as Iterator>⟧.next_gives I.next_gives result input
            (λ words xs. words ≡ word_stream 4 (byte_stream bytes xs)) }
    {
        WordStream {
            source: Self::into_byte_stream(input),
            is_over: false,
            of: PhantomData,
        }
    }

    /// The bytes of the values in words of eight, the lowest byte first, the last word filled up by
    /// zeros.
    #[inline]
    final fn into_u64_stream<I: Iterator<Item = Self>>(
        input: I,
    ) -> U64Stream<ByteStream<I, Self::Bytes>>
        requires can { I.can_next input }
        requires ends { IsFinite (I.remaining input) }
        ensures can { ⟦<U64Stream<ByteStream<I, Self::Bytes>> as Iterator>⟧.can_next result }
        ensures count { Exactly (⟦<U64Stream<ByteStream<I, Self::Bytes>> as Iterator>⟧.remaining result) (group_count 8 (NUM_BYTES * size (I.remaining input))) }
        ensures all { (xs : List Self) → YieldsExactly I.next_gives input xs
            → YieldsExactly ⟦<U64Stream<ByteStream<I, Self::Bytes>> as Iterator>⟧.next_gives result (word_stream 8 (byte_stream bytes xs)) }
        ensures drawn { DrawnFrom ⟦<U64Stream<ByteStream<I, Self::Bytes>> as Iterator>⟧.next_gives I.next_gives result input
            (λ words xs. words ≡ word_stream 8 (byte_stream bytes xs)) }
    {
        WordStream {
            source: Self::into_byte_stream(input),
            is_over: false,
            of: PhantomData,
        }
    }

    ghost num_bytes: { (x : Self) → length (bytes x) ≡ NUM_BYTES };
}

/// The bytes of the items of an iterator, one item after the other.
#[derive(Clone, Debug, Drop)]
pub struct ByteStream<I, B> {
    source: I,
    reader: Option<B>,
}

impl<F: RawDataSerializable, I: Iterator<Item = F>> Iterator for ByteStream<I, F::Bytes> {
    ghost use Rattle.std.specs.Prelude.{◌+◌};
    ghost use Rattle.std.specs.Iterator.{count_map};
    ghost use Rattle.p3_extension_traits.specs.Streams.{TakesByte};

    type Item = u8;

    ghost can_next = { λ s. I.can_next s.source × IsFinite (I.remaining s.source) × ForSome s.reader (λ j. F.Bytes.can_next j × IsFinite (F.Bytes.remaining j)) };

    ghost next_gives = { λ s r t. TakesByte I.next_gives F.Bytes.next_gives F.bytes s.source s.reader r t.source t.reader };

    ghost remaining = { λ s. count_map (λ n. inner_items_left F.Bytes.remaining s.reader + F.NUM_BYTES * n) (I.remaining s.source) };

    #[inline]
    fn next(&mut self) -> Option<u8> {
        loop {
            if let Some(byte) = next_in_hand(&mut self.reader) {
                return Some(byte);
            }
            let Some(x) = self.source.next() else {
                return None;
            };
            self.reader = Some(x.into_bytes());
        }
    }

    /// The bytes of the reader in hand, and those of as many elements as the source's hint says.
    #[inline]
    fn size_hint(&self) -> (usize, Option<usize>) {
        bytes_hint(
            held_hint(&self.reader),
            F::NUM_BYTES,
            self.source.size_hint(),
        )
    }
}

/// A word that is read from its bytes, the lowest first. This project's own.
pub trait StreamWord: Copy {
    /// How many bytes a word has.
    const BYTES: usize;

    ghost BYTES: { ℕ };

    /// The word with these bytes.
    ghost read: { List ℕ → Self };

    /// A word has bytes.
    ghost counted: { 0 < BYTES };

    /// The word of the next bytes of `source`, filled up by zeros where these end first, as `next_chunk_padded`.
    fn next_word<I: Iterator<Item = u8>>(source: &mut I, is_over: &mut bool) -> Option<Self>
        requires { MatchBool is_over.old (Unit {0}) (I.can_next source.old × IsFinite (I.remaining source.old)) }
        ensures gathers { ReadsGroup {T = I} read (λ s r t. GathersGroup I.next_gives BYTES 0 is_over.old s r is_over.new t) source.old result source.new }
        ensures ready { OnSome result (MatchBool is_over.new (Unit {0}) (I.can_next source.new × IsFinite (I.remaining source.new))) }
        ensures nearer { OnSome result (size (count_unless is_over.new (count_map (group_count BYTES) (I.remaining source.new)))
            < size (count_unless is_over.old (count_map (group_count BYTES) (I.remaining source.old)))) };
}

impl StreamWord for u32 {
    const BYTES: usize = 4;

    ghost BYTES = { 4 };

    ghost read = { little_endian };

    ghost counted = { omega arith };

    #[inline]
    fn next_word<I: Iterator<Item = u8>>(source: &mut I, is_over: &mut bool) -> Option<u32> {
        match next_chunk_padded(source, is_over, 0) {
            None => None,
            Some(chunk) => Some(u32::from_le_bytes(chunk)),
        }
    }
}

impl StreamWord for u64 {
    const BYTES: usize = 8;

    ghost BYTES = { 8 };

    ghost read = { little_endian };

    ghost counted = { omega arith };

    #[inline]
    fn next_word<I: Iterator<Item = u8>>(source: &mut I, is_over: &mut bool) -> Option<u64> {
        match next_chunk_padded(source, is_over, 0) {
            None => None,
            Some(chunk) => Some(u64::from_le_bytes(chunk)),
        }
    }
}

/// The bytes of an iterator in words, the lowest byte first.
#[derive(Clone, Debug, Drop)]
pub struct WordStream<I, W> {
    source: I,
    is_over: bool,
    of: PhantomData<W>,
}

/// The bytes of an iterator in words of four.
pub type U32Stream<I> = WordStream<I, u32>;

/// The bytes of an iterator in words of eight.
pub type U64Stream<I> = WordStream<I, u64>;

impl<I: Iterator<Item = u8>, W: StreamWord> Iterator for WordStream<I, W> {
    ghost use Rattle.std.specs.Prelude.{Some, true, IfSome};
    ghost use Rattle.std.specs.Bool.{MatchBool};
    ghost use Rattle.std.specs.Iterator.{count_map, count_unless, UpTo};
    ghost use Rattle.std.specs.Iterator.SizeHint.{IsWithinCount};
    ghost use Rattle.p3_extension_traits.specs.Streams.{GathersGroup, group_count, ReadsGroup};

    type Item = W;

    ghost can_next = { λ s. MatchBool s.is_over (Unit {0}) (I.can_next s.source × IsFinite (I.remaining s.source)) };

    ghost next_gives = { ReadsGroup W.read (λ s r t. GathersGroup I.next_gives W.BYTES 0 s.is_over s.source r t.is_over t.source) };

    ghost remaining = { λ s. count_unless s.is_over (count_map (group_count W.BYTES) (I.remaining s.source)) };

    #[inline]
    fn next(&mut self) -> Option<W> {
        W::next_word(&mut self.source, &mut self.is_over)
    }

    /// The groups of a word's bytes of the source's hint, and nothing once the source has ended.
    #[inline]
    fn size_hint(&self) -> (usize, Option<usize>)
        ensures lower { IsWithinCount result.0 (count_unless self.now.is_over (count_map (group_count W.BYTES) (I.remaining self.now.source))) }
        ensures upper { IfSome result.1 (UpTo (count_unless self.now.is_over (count_map (group_count W.BYTES) (I.remaining self.now.source)))) }
        ensures over { self.now.is_over ≡ true → result ≡ (0, Some 0) }
    {
        words_hint(self.is_over, W::BYTES, self.source.size_hint())
    }
}

/// The next byte of the reader in hand. One that has ended is dropped, so that it is not asked
/// again. This project's own.
#[inline]
fn next_in_hand<B: Iterator<Item = u8> + Drop>(reader: &mut Option<B>) -> Option<u8>
    requires { ForSome reader.old (λ j. B.can_next j × IsFinite (B.remaining j)) }
    ensures steps { InHand B.next_gives reader.old result reader.new }
    ensures ready { OnSome result (ForSome reader.new (λ j. B.can_next j × IsFinite (B.remaining j))) }
    ensures nearer { OnSome result (inner_items_left B.remaining reader.new < inner_items_left B.remaining reader.old) }
    ensures ended { IfNone result (reader.new ≡ None) }
{
    match reader {
        Some(bytes) => match bytes.next() {
            Some(byte) => Some(byte),
            None => {
                *reader = None;
                None
            }
        },
        None => None,
    }
}
