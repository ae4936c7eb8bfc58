//! What the calculator reads from and writes to, as traits.
ghost use Rattle.std.specs.Prelude.{◌≡◌, ◌+◌, ◌≤◌, ◌<◌, ◌^◌, ℕ, Bool, true, false, List, Option, length, IfOk, OnOk, OnErr};
ghost use Rattle.std.specs.Io.KnownBytes.{ReadConsumes, WriteAppends, Appends};
ghost use Rattle.p3_calculator_text.specs.Streams.{TellsFailure, TellsWriteFailure, AppendsFront};

/// A read failed.
#[derive(Clone, Copy, Debug, PartialEq, Eq, Drop)]
pub struct ReadFailed;

/// A write failed.
#[derive(Clone, Copy, Debug, PartialEq, Eq, Drop)]
pub struct WriteFailed;

/// What the calculator reads from: bytes that come in pieces, as from std's `Read`.
pub trait Source {
    /// The bytes that it has left, where it tells them.
    ghost remaining: { Self → Option (List ℕ) };

    /// Whether a read has failed.
    ghost failed: { Self → Bool };

    /// It gives no more bytes than this.
    ghost bound: { Self → ℕ };

    /// Reads some bytes into the front of `buf`, and answers their count. No bytes, where there is
    /// room, are the end of the input. An `Err` leaves the bytes as before, and no read follows it.
    fn read(&mut self, buf: &mut [u8]) -> Result<usize, ReadFailed>
        requires { failed self.old ≡ false }
        ensures count { IfOk result (λ n. n ≤ length buf.new) }
        ensures bytes { ReadConsumes (remaining self.old) (remaining self.new) result buf.new }
        ensures failure { TellsFailure (failed self.old) (failed self.new) result }
        ensures bound { IfOk result (λ n. bound self.new + n ≤ bound self.old) };

    /// The bound is a number of 64 bits.
    ghost bounded: { (s : Self) → bound s < 2 ^ 64 };
}

/// What the calculator writes to, as std's `Write`.
pub trait Sink {
    /// The bytes that it holds, where it tells them.
    ghost contents: { Self → Option (List ℕ) };

    /// Whether a write has failed, or took none of some bytes.
    ghost failed: { Self → Bool };

    /// Writes a front of the bytes, and answers its length. An `Err` leaves the bytes as before, and
    /// no write follows it, nor one that took none of some bytes.
    fn write(&mut self, bytes: &[u8]) -> Result<usize, WriteFailed>
        requires { failed self.old ≡ false }
        ensures count { IfOk result (λ n. n ≤ length bytes.now) }
        ensures bytes { WriteAppends (contents self.old) (contents self.new) result bytes.now }
        ensures failure { TellsWriteFailure (failed self.old) (failed self.new) result (length bytes.now) };
}

/// Writes all the bytes, in as many writes as it takes. At `Err`, which stands for a write that
/// failed or took none of some bytes, a front of them was written, and no write was made after it.
pub fn write_all<W: Sink>(writer: &mut W, bytes: &[u8]) -> Result<(), WriteFailed>
    requires { W.failed writer.old ≡ false }
    ensures all { OnOk result (Appends (W.contents writer.old) (W.contents writer.new) bytes.now) }
    ensures same { OnOk result (W.failed writer.new ≡ W.failed writer.old) }
    ensures front { OnErr result (AppendsFront (W.contents writer.old) (W.contents writer.new) bytes.now) }
    ensures failed { OnErr result (W.failed writer.new ≡ true) }
{
    let mut at = 0;
    while at < bytes.len() {
        let taken = writer.write(&bytes[at..])?;
        if taken == 0 {
            return Err(WriteFailed);
        }
        at += taken;
    }
    Ok(())
}
