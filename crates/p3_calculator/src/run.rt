//! A run of the calculator: bytes in, lines carried out, texts and a last fault out.
ghost use Rattle.std.specs.Prelude.{◌≡◌, ◌+◌, ◌-◌, ◌<◌, ◌≤◌, ◌^◌, ◌++◌, ◌∷◌, [], true, false, Err, List, ℕ, length, take};
ghost use Rattle.std.specs.Io.KnownBytes.{Appends, Consumes, IsAtEnd};
ghost use Rattle.p3_calculator_text.specs.Faults.{fault_line};
ghost use Rattle.p3_calculator.specs.RunSoFar.{TakesBytes, HasNoEnd, StopsAtFailure, Ended, EndedAt, Finishes};
ghost use Rattle.p3_calculator.specs.Text.{RunEnds};

use crate::machine::{Line, Machine, Stop};
use crate::step::step;
use p3_calculator_text::faults::Fault;
use p3_calculator_text::report::FaultLine;
use p3_calculator_text::streams::{Sink, Source, write_all};
use std::alloc::{Allocator, Global};

/// Carries out the line in the buffer, which its byte 10 ends, and writes its text.
fn carry_out<A: Allocator + Copy, W: Sink>(
    alloc: A,
    machine: &mut Machine,
    writer: &mut W,
) -> Result<(), Stop>
    requires number { machine.old.number < 2 ^ 128 - 1 }
    requires writer { W.failed writer.old ≡ false }
    ensures takes { TakesBytes machine.old machine.new (W.contents writer.old) (W.contents writer.new) result (10 ∷ []) }
    ensures number { machine.new.number ≤ machine.old.number + 1 }
    ensures failure { StopsAtFailure result (W.failed writer.old) (W.failed writer.new) }
{
    match step(
        alloc,
        &mut machine.bank,
        &machine.line.bytes[..machine.line.used],
    ) {
        Err(fault) => Err(Stop::AtFault(fault)),
        Ok(text) => match write_all(writer, &text) {
            Err(_) => Err(Stop::AtWrite),
            Ok(()) => {
                machine.number += 1;
                machine.line.used = 0;
                Ok(())
            }
        },
    }
}

/// Takes one byte, and carries out the line that it ends.
fn take_byte<A: Allocator + Copy, W: Sink>(
    alloc: A,
    machine: &mut Machine,
    writer: &mut W,
    byte: u8,
) -> Result<(), Stop>
    requires number { machine.old.number < 2 ^ 128 - 1 }
    requires writer { W.failed writer.old ≡ false }
    ensures takes { TakesBytes machine.old machine.new (W.contents writer.old) (W.contents writer.new) result (byte ∷ []) }
    ensures number { machine.new.number ≤ machine.old.number + 1 }
    ensures failure { StopsAtFailure result (W.failed writer.old) (W.failed writer.new) }
{
    if byte != b'\n' {
        if machine.line.used == 256 {
            return Err(Stop::AtFault(Fault::LongLine));
        }
        machine.line.bytes[machine.line.used] = byte;
        machine.line.used += 1;
        return Ok(());
    }
    carry_out(alloc, machine, writer)
}

/// Takes bytes up to the end of a line, as far as the line has room for them: how many they are.
fn take_letters(line: &mut Line, bytes: &[u8]) -> usize
    ensures count { result ≤ length bytes.now }
    ensures bytes { take line.new.used line.new.bytes ≡ take line.old.used line.old.bytes ++ take result bytes.now }
    ensures letters { HasNoEnd (take result bytes.now) }
{
    let used = line.used;
    let most = bytes.len().min(256 - used);
    let mut count = 0;
    while count < most && bytes[count] != b'\n' {
        line.bytes[used + count] = bytes[count];
        count += 1;
    }
    line.used = used + count;
    count
}

/// Takes bytes, the letters of each line at once.
fn take_all<A: Allocator + Copy, W: Sink>(
    alloc: A,
    machine: &mut Machine,
    writer: &mut W,
    bytes: &[u8],
) -> Result<(), Stop>
    requires number { machine.old.number + length bytes.now < 2 ^ 128 }
    requires writer { W.failed writer.old ≡ false }
    ensures takes { TakesBytes machine.old machine.new (W.contents writer.old) (W.contents writer.new) result bytes.now }
    ensures number { machine.new.number ≤ machine.old.number + length bytes.now }
    ensures failure { StopsAtFailure result (W.failed writer.old) (W.failed writer.new) }
{
    let mut at = 0;
    while at < bytes.len() {
        at += take_letters(&mut machine.line, &bytes[at..]);
        if at < bytes.len() {
            match take_byte(alloc, machine, writer, bytes[at]) {
                Err(stop) => return Err(stop),
                Ok(()) => at += 1,
            }
        }
    }
    Ok(())
}

/// Ends the run with a fault, and answers the status.
fn end_with<W: Sink>(writer: &mut W, number: u128, fault: Fault) -> u8
    requires { W.failed writer.old ≡ false }
    ensures { Ended (W.contents writer.old) (W.contents writer.new) (W.failed writer.old) (W.failed writer.new) (fault_line number fault) 1 result }
{
    let line = FaultLine::new(number, fault);
    match write_all(writer, line.as_bytes()) {
        Ok(()) => 1,
        Err(_) => 2,
    }
}

/// Ends a run that stopped, and answers the status.
fn end_at<W: Sink>(writer: &mut W, number: u128, stop: Stop) -> u8
    requires { StopsAtFailure (Err stop) false (W.failed writer.old) }
    ensures { EndedAt stop number (W.contents writer.old) (W.contents writer.new) (W.failed writer.old) (W.failed writer.new) result }
{
    match stop {
        Stop::AtFault(fault) => end_with(writer, number, fault),
        Stop::AtWrite => 2,
    }
}

/// Carries out a last line without byte 10, and answers the status.
fn finish<A: Allocator + Copy, W: Sink>(alloc: A, machine: &mut Machine, writer: &mut W) -> u8
    requires { W.failed writer.old ≡ false }
    ensures { Finishes machine.old (W.contents writer.old) (W.contents writer.new) (W.failed writer.old) (W.failed writer.new) result }
{
    if machine.line.used == 0 {
        return 0;
    }
    match step(
        alloc,
        &mut machine.bank,
        &machine.line.bytes[..machine.line.used],
    ) {
        Err(fault) => end_with(writer, machine.number, fault),
        Ok(text) => match write_all(writer, &text) {
            Ok(()) => 0,
            Err(_) => 2,
        },
    }
}

/// Runs the calculator over the lines that the reader gives, and writes their text. The answer is
/// the status: 0 without a fault, 1 after a fault's line, and 2 after a failed write. Only the text
/// of a `show` line takes memory.
///
/// What is written is a text of the bytes that were read. Where a read failed, it is that of the
/// whole lines before, and fault 9; where a write failed, it is the beginning of such a text.
pub fn engine<R: Source, W: Sink>(alloc: Global, reader: &mut R, writer: &mut W) -> u8
    requires reader { R.failed reader.old ≡ false }
    requires writer { W.failed writer.old ≡ false }
    ensures { (bytes text : List ℕ)
        × Consumes (R.remaining reader.old) (R.remaining reader.new) bytes
        × Appends (W.contents writer.old) (W.contents writer.new) text
        × RunEnds (R.failed reader.new) (W.failed writer.new) (IsAtEnd (R.remaining reader.new)) bytes text result }
{
    engine_in(alloc, reader, writer)
}

/// `engine` in any allocator.
pub fn engine_in<A: Allocator + Copy, R: Source, W: Sink>(
    alloc: A,
    reader: &mut R,
    writer: &mut W,
) -> u8
    requires reader { R.failed reader.old ≡ false }
    requires writer { W.failed writer.old ≡ false }
    ensures { (bytes text : List ℕ)
        × Consumes (R.remaining reader.old) (R.remaining reader.new) bytes
        × Appends (W.contents writer.old) (W.contents writer.new) text
        × RunEnds (R.failed reader.new) (W.failed writer.new) (IsAtEnd (R.remaining reader.new)) bytes text result }
{
    let mut machine = Machine::new();
    let mut buf = [0u8; 256];
    'reads: loop {
        match reader.read(&mut buf) {
            Err(_) => return end_with(writer, machine.number, Fault::ReadFault),
            Ok(count) => {
                if count == 0 {
                    return finish(alloc, &mut machine, writer);
                }
                match take_all(alloc, &mut machine, writer, &buf[..count]) {
                    Ok(()) => {}
                    Err(stop) => return end_at(writer, machine.number, stop),
                }
            }
        }
    }
}
