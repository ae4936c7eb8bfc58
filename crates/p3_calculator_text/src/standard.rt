//! Sources and sinks over the readers and writers of std.
ghost use Rattle.std.specs.Prelude.{◌≡◌, ◌+◌, ◌≤◌, ◌<◌, ◌^◌, ◌-◌, false, IfOk, OnErr, IsErr, length, take};
ghost use Rattle.std.specs.Io.KnownBytes.{Consumes, IsAtEnd, Keeps, WriteAppends};
ghost use Rattle.p3_calculator_text.specs.Streams.{TellsFailure, TellsWriteFailure};

use crate::streams::{ReadFailed, Sink, Source, WriteFailed};
use std::io::{Read, Write};

/// A source over a reader of std, up to the greatest u64 of bytes: a read past them fails. Its bytes
/// are known where the reader tells them.
#[derive(Drop)]
pub struct StdSource<R> {
    reader: R,
    left: u64,
    failed: bool,
    ghost short: { left < 2 ^ 64 },
}

impl<R: Read> StdSource<R> {
    /// A source over this reader.
    pub fn new(reader: R) -> Self
        ensures fresh { result.failed ≡ false }
        ensures bound { result.left ≡ 2 ^ 64 - 1 }
    {
        StdSource {
            reader,
            left: u64::MAX,
            failed: false,
        }
    }
}

impl<R: Read> Source for StdSource<R> {
    ghost remaining = { λ s. R.remaining s.reader };

    ghost failed = { λ s. s.failed };

    ghost bound = { λ s. s.left };

    fn read(&mut self, buf: &mut [u8]) -> Result<usize, ReadFailed>
        ensures count { IfOk result (λ n. n ≤ length buf.new) }
        ensures bytes { IfOk result (λ n. Consumes (R.remaining self.old.reader) (R.remaining self.new.reader) (take n buf.new)) }
        ensures ends { IfOk result (λ n. n ≡ 0 → 0 < length buf.new → IsAtEnd (R.remaining self.new.reader)) }
        ensures unread { OnErr result (Keeps (R.remaining self.old.reader) (R.remaining self.new.reader)) }
        ensures failure { TellsFailure self.old.failed self.new.failed result }
        ensures bound { IfOk result (λ n. self.new.left + n ≡ self.old.left) }
        ensures kept { OnErr result (self.new.left ≡ self.old.left) }
        ensures exhausted { self.old.left ≡ 0 → 0 < length buf.old → IsErr result }
    {
        if self.left == 0 && !buf.is_empty() {
            self.failed = true;
            return Err(ReadFailed);
        }
        let room = (self.left as usize).min(buf.len());
        match self.reader.read(&mut buf[..room]) {
            Ok(count) => {
                self.left -= count as u64;
                Ok(count)
            }
            Err(_) => {
                self.failed = true;
                Err(ReadFailed)
            }
        }
    }

    ghost bounded = { λ s. s.short };
}

/// A sink over a writer of std. Its bytes are known where the writer tells them.
#[derive(Drop)]
pub struct StdSink<W> {
    writer: W,
    failed: bool,
}

impl<W: Write> StdSink<W> {
    /// A sink over this writer.
    pub fn new(writer: W) -> Self
        ensures { result.failed ≡ false }
    {
        StdSink {
            writer,
            failed: false,
        }
    }
}

impl<W: Write> Sink for StdSink<W> {
    ghost contents = { λ s. W.contents s.writer };

    ghost failed = { λ s. s.failed };

    fn write(&mut self, bytes: &[u8]) -> Result<usize, WriteFailed>
        ensures count { IfOk result (λ n. n ≤ length bytes.now) }
        ensures bytes { WriteAppends (W.contents self.old.writer) (W.contents self.new.writer) result bytes.now }
        ensures failure { TellsWriteFailure self.old.failed self.new.failed result (length bytes.now) }
    {
        match self.writer.write(bytes) {
            Ok(count) => {
                if count == 0 && !bytes.is_empty() {
                    self.failed = true;
                }
                Ok(count)
            }
            Err(_) => {
                self.failed = true;
                Err(WriteFailed)
            }
        }
    }
}
