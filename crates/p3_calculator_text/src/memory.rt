//! Sources and sinks in memory, which fail where a test wants it.
ghost use Rattle.std.specs.Prelude.{◌≡◌, ◌≢◌, ◌+◌, ◌-◌, ◌≤◌, ◌<◌, ◌^◌, false, true, Some, [], IfOk, OnErr, length, take, drop, min, vec_len, MatchResult};
ghost use Rattle.std.specs.Io.KnownBytes.{ReadConsumes, WriteAppends};
ghost use Rattle.p3_calculator_text.specs.Streams.{TellsFailure, TellsWriteFailure, one_less};

use crate::streams::{ReadFailed, Sink, Source, WriteFailed};
use std::alloc::{AllocError, Global};

/// A source over bytes in memory. It gives them in pieces of a given size, and fails after a given
/// count of reads, if one is given.
#[derive(Drop)]
pub struct MemSource {
    bytes: Vec<u8>,
    at: usize,
    piece: usize,
    reads_left: Option<usize>,
    failed: bool,
    ghost within: { at ≤ vec_len bytes },
    ghost short: { vec_len bytes - at < 2 ^ 64 },
    ghost moves: { 0 < piece },
}

impl MemSource {
    ghost use Rattle.p3_calculator_text.specs.Memory.{unread};

    /// A source of these bytes, in pieces of at most `piece` bytes. With `Some(n)` the read after
    /// the first n reads fails, and with `None` none does.
    pub fn new(bytes: Vec<u8>, piece: usize, reads_left: Option<usize>) -> Self
        requires { 0 < piece }
        ensures fresh { result.failed ≡ false }
        ensures bytes { unread result ≡ bytes.items }
        ensures piece { result.piece ≡ piece }
        ensures reads { result.reads_left ≡ reads_left }
    {
        let _length = bytes.len();
        MemSource {
            bytes,
            at: 0,
            piece,
            reads_left,
            failed: false,
        }
    }
}

impl Source for MemSource {
    ghost use Rattle.p3_calculator_text.specs.Memory.{unread, unread_count};

    ghost remaining = { λ s. Some (unread s) };

    ghost failed = { λ s. s.failed };

    ghost bound = { unread_count };

    fn read(&mut self, buf: &mut [u8]) -> Result<usize, ReadFailed>
        ensures count { IfOk result (λ n. n ≤ length buf.new) }
        ensures bytes { ReadConsumes (Some (unread self.old)) (Some (unread self.new)) result buf.new }
        ensures failure { TellsFailure self.old.failed self.new.failed result }
        ensures bound { IfOk result (λ n. unread_count self.new + n ≤ unread_count self.old) }
        ensures piece { IfOk result (λ n. n ≡ min (min self.old.piece (length buf.old)) (unread_count self.old)) }
        ensures fails { MatchResult result (λ _. self.old.reads_left ≢ Some 0) (λ _. self.old.reads_left ≡ Some 0) }
        ensures counts { IfOk result (λ _. self.new.reads_left ≡ one_less self.old.reads_left) }
        ensures kept { OnErr result (self.new.reads_left ≡ self.old.reads_left) }
        ensures same { self.new.piece ≡ self.old.piece }
    {
        if let Some(left) = self.reads_left {
            if left == 0 {
                self.failed = true;
                return Err(ReadFailed);
            }
            self.reads_left = Some(left - 1);
        }
        let count = self.piece.min(buf.len()).min(self.bytes.len() - self.at);
        let end = self.at + count;
        buf[..count].copy_from_slice(&self.bytes[self.at..end]);
        self.at = end;
        Ok(count)
    }

    ghost bounded = { λ s. s.short };
}

/// A sink in memory. It takes bytes while there is room, and after that it fails or takes none.
#[derive(Drop)]
pub struct MemSink {
    store: Vec<u8>,
    used: usize,
    fails: bool,
    failed: bool,
    ghost within: { used ≤ vec_len store },
}

impl MemSink {
    ghost use Rattle.p3_calculator_text.specs.Memory.{written, room_left};

    /// A sink with room for so many bytes, which it asks for at once. When they are full, it fails
    /// if `fails` says so, and else takes none.
    pub fn new(alloc: Global, room: usize, fails: bool) -> Result<Self, AllocError>
        ensures fresh { IfOk result (λ s. s.failed ≡ false) }
        ensures empty { IfOk result (λ s. written s ≡ []) }
        ensures room { IfOk result (λ s. room_left s ≡ room) }
        ensures fails { IfOk result (λ s. s.fails ≡ fails) }
    {
        let mut store = Vec::with_capacity(alloc, room)?;
        store.resize(room, 0)?;
        Ok(MemSink {
            store,
            used: 0,
            fails,
            failed: false,
        })
    }

    /// The bytes that were written.
    pub fn text(&self) -> &[u8]
        ensures { result.now ≡ written self.now }
    {
        &self.store[..self.used]
    }
}

impl Sink for MemSink {
    ghost use Rattle.p3_calculator_text.specs.Memory.{written, room_left};

    ghost contents = { λ s. Some (written s) };

    ghost failed = { λ s. s.failed };

    fn write(&mut self, bytes: &[u8]) -> Result<usize, WriteFailed>
        ensures count { IfOk result (λ n. n ≤ length bytes.now) }
        ensures bytes { WriteAppends (Some (written self.old)) (Some (written self.new)) result bytes.now }
        ensures failure { TellsWriteFailure self.old.failed self.new.failed result (length bytes.now) }
        ensures taken { IfOk result (λ n. n ≡ min (length bytes.now) (room_left self.old)) }
        ensures fails { OnErr result ((self.old.fails ≡ true) × (room_left self.old ≡ 0) × (0 < length bytes.now)) }
        ensures takes_none { IfOk result (λ n. n ≡ 0 → 0 < length bytes.now → self.old.fails ≡ false) }
        ensures room { IfOk result (λ n. room_left self.new + n ≡ room_left self.old) }
        ensures kept { OnErr result (room_left self.new ≡ room_left self.old) }
        ensures same { self.new.fails ≡ self.old.fails }
    {
        let count = bytes.len().min(self.store.len() - self.used);
        if count == 0 && !bytes.is_empty() {
            self.failed = true;
            if self.fails {
                return Err(WriteFailed);
            }
            return Ok(0);
        }
        let end = self.used + count;
        self.store[self.used..end].copy_from_slice(&bytes[..count]);
        self.used = end;
        Ok(count)
    }
}
