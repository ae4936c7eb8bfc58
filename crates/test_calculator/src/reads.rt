//! Worked runs with a read that fails at each place: the text of the lines before, and fault 9 at the line
//! that is being read.

ghost use Rattle.std.specs.Prelude.{◌<◌};

use crate::example_runs::EXAMPLE_FILES;
use crate::failing_streams::reader;
use crate::lines::{cut_text, ended_lines, fault_line, line_end, shows};
use crate::runs::ran;
use crate::worked_runs::{EXAMPLES, FAULTS, INVERSES, LINES, Run, WITHOUT_A_FIELD};
use p3_calculator::{MemSink, StdSource, engine};
use std::alloc::{AllocError, Global};
use std::process::Abort;
use std::test::Fail;

/// How many reads a whole run makes, so many bytes each: up to the end of the line of its fault, or up to
/// the read that finds the end of the input.
fn reads_of(run: &Run, piece: usize) -> usize
    requires { 0 < piece }
{
    let (input, text, _) = *run;
    if let Some(number) = fault_line(text) {
        if let Some(end) = line_end(input.as_bytes(), number) {
            return end.div_ceil(piece);
        }
    }
    input.len().div_ceil(piece).saturating_add(1)
}

/// What a run writes where no read follows these bytes but one that fails.
fn text_up_to(alloc: Global, run: &Run, given: &[u8]) -> Result<String, AllocError> {
    let (input, text, _) = *run;
    let ended = ended_lines(given);
    cut_text(alloc, text, shows(input, ended), ended.saturating_add(1), 9)
}

/// Runs the input over a reader that fails at one call, and compares the text, the status and how many reads
/// were made. The reader would go on after the call that fails.
fn assert_run(
    rt: &(impl Abort + AllocGlobal),
    input: &[u8],
    piece: usize,
    failing: usize,
    expected: (&str, u8, usize),
) -> Result<(), Fail> {
    let (text, status, reads) = expected;
    let mut reader = reader(input, piece, failing);
    let mut sink = MemSink::new(rt.alloc(), 200, true)?;
    let answer = engine(rt.alloc(), &mut StdSource::new(&mut reader), &mut sink);
    assert_eq!(rt; sink.text(), text.as_bytes(), "{text}");
    assert_eq!(rt; answer, status, "{text}");
    assert_eq!(rt; reader.calls, reads, "{text}");
    Ok(())
}

/// Runs the input with each read failing in turn, and with none.
fn assert_failing_reads(
    rt: &(impl Abort + AllocGlobal),
    run: &Run,
    piece: usize,
) -> Result<(), Fail>
    requires { 0 < piece }
{
    let (input, text, status) = *run;
    let bytes = input.as_bytes();
    let reads = reads_of(run, piece);
    for failing in 0..reads {
        let given = failing.saturating_mul(piece).min(bytes.len());
        let cut = text_up_to(rt.alloc(), run, &bytes[..given])?;
        assert_run(rt, bytes, piece, failing, (&cut, 1, failing + 1))?;
    }
    assert_run(rt, bytes, piece, reads, (text, status, reads))
}

/// Runs each row with each of its reads failing in turn, in pieces of 1, 2 and 7 bytes.
fn assert_rows(rt: &(impl Abort + AllocGlobal), rows: &[Run]) -> Result<(), Fail> {
    for row in rows {
        for piece in [1usize, 2, 7] {
            assert_failing_reads(rt, row, piece)?;
        }
    }
    Ok(())
}

#[test]
fn each_read_of_every_worked_run(rt: HostRuntime) -> Result<(), Fail> {
    assert_rows(&rt, &EXAMPLE_FILES)?;
    assert_rows(&rt, &EXAMPLES)?;
    assert_rows(&rt, &WITHOUT_A_FIELD)?;
    assert_rows(&rt, &FAULTS)?;
    assert_rows(&rt, &LINES)?;
    assert_rows(&rt, &INVERSES)
}

/// A line that is too long ends the run before a read after it can fail, and one that has room doesn't.
#[test]
fn spaces_before_a_failed_read(rt: HostRuntime) -> Result<(), Fail> {
    let mut bytes = [b' '; 257];
    let rows = [
        (256usize, b' ', "line 1: fault 9\n"),
        (257, b'\n', "line 2: fault 9\n"),
        (257, b' ', "line 1: fault 10\n"),
    ];
    for (count, last, text) in rows {
        bytes[256] = last;
        let is_long = text == "line 1: fault 10\n";
        for piece in [1usize, 2, 7, 100] {
            let given = count.div_ceil(piece);
            let reads = if is_long { given } else { given + 1 };
            assert_run(&rt, &bytes[..count], piece, given, (text, 1, reads))?;
        }
    }
    Ok(())
}

/// A read that fails ends the run, though the reader would go on.
#[test]
fn no_read_after_a_failed_one(rt: HostRuntime) -> Result<(), Fail> {
    let input = b"field f17\nshow 0\nput 1 5\nshow 1\n";
    let rows = [
        (0usize, "line 1: fault 9\n"),
        (9, "line 1: fault 9\n"),
        (10, "line 2: fault 9\n"),
        (17, "0\nline 3: fault 9\n"),
        (31, "0\nline 4: fault 9\n"),
        (32, "0\n5\nline 5: fault 9\n"),
    ];
    for (failing, text) in rows {
        assert_run(&rt, input, 1, failing, (text, 1, failing + 1))?;
    }
    assert_run(&rt, input, 1, 33, ("0\n5\n", 0, 33))
}

/// A source in memory that fails after so many reads.
#[test]
fn a_source_in_memory_fails(rt: HostRuntime) -> Result<(), Fail> {
    let inverse_of_zero = "field f17x2\nshow 0\ninv 0 0\n";
    let ends_in_a_line = "field f17\nput 0 3\nshow 0\nput 1";
    let rows = [
        (inverse_of_zero, 6usize, 0usize, "line 1: fault 9\n"),
        (inverse_of_zero, 6, 1, "line 1: fault 9\n"),
        (inverse_of_zero, 6, 2, "line 2: fault 9\n"),
        (inverse_of_zero, 6, 4, "0\nline 3: fault 9\n"),
        (inverse_of_zero, 6, 5, "0\nline 3: fault 5\n"),
        (ends_in_a_line, 30, 1, "3\nline 4: fault 9\n"),
        (ends_in_a_line, 6, 5, "3\nline 4: fault 9\n"),
        (ends_in_a_line, 1, 30, "3\nline 4: fault 9\n"),
    ];
    for (input, piece, reads, text) in rows {
        let source = (piece, Some(reads));
        let (answer, sink) = ran(rt.alloc(), input.as_bytes(), source, (100, true))?;
        assert_eq!(rt; answer, 1, "{text}");
        assert_eq!(rt; sink.text(), text.as_bytes());
    }
    Ok(())
}
