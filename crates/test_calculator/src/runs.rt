//! Runs of the calculator, over sources and sinks in memory.
ghost use Rattle.std.specs.Prelude.{◌<◌};

use crate::example_runs::EXAMPLE_FILES;
use crate::worked_runs::{EXAMPLES, FAULTS, INVERSES, LINES, Run, WITHOUT_A_FIELD};
use p3_calculator::{MemSink, MemSource, engine};
use std::alloc::{AllocError, Global};
use std::process::Abort;
use std::test::Fail;

/// Runs the input over a source that gives so many bytes at once and fails after so many reads, if at all, and
/// a sink with this room, which fails or takes nothing once it is full. The status, and the sink.
pub(crate) fn ran(
    alloc: Global,
    input: &[u8],
    reads: (usize, Option<usize>),
    room: (usize, bool),
) -> Result<(u8, MemSink), AllocError>
    requires { 0 < reads.0 }
{
    let mut source = MemSource::new(input.to_vec(alloc)?, reads.0, reads.1);
    let mut sink = MemSink::new(alloc, room.0, room.1)?;
    let status = engine(alloc, &mut source, &mut sink);
    Ok((status, sink))
}

/// Runs the input in pieces of 1, 2, 7 and 1000 bytes, and compares the text and the status.
fn assert_text(
    rt: &(impl Abort + AllocGlobal),
    input: &[u8],
    text: &str,
    status: u8,
) -> Result<(), Fail> {
    for piece in [1usize, 2, 7, 1000] {
        let (answer, sink) = ran(rt.alloc(), input, (piece, None), (100, true))?;
        assert_eq!(rt; answer, status, "{text}");
        assert_eq!(rt; sink.text(), text.as_bytes());
    }
    Ok(())
}

/// Runs each row's input, and compares the text and the status.
fn assert_texts(rt: &(impl Abort + AllocGlobal), rows: &[Run]) -> Result<(), Fail> {
    for row in rows {
        let (input, text, status) = *row;
        assert_text(rt, input.as_bytes(), text, status)?;
    }
    Ok(())
}

#[test]
fn worked_runs(rt: HostRuntime) -> Result<(), Fail> {
    assert_texts(&rt, &EXAMPLE_FILES)?;
    assert_texts(&rt, &EXAMPLES)?;
    assert_texts(&rt, &WITHOUT_A_FIELD)?;
    assert_texts(&rt, &FAULTS)?;
    assert_texts(&rt, &LINES)?;
    assert_texts(&rt, &INVERSES)
}

#[test]
fn lines_of_spaces(rt: HostRuntime) -> Result<(), Fail> {
    let mut bytes = [b' '; 258];
    assert_text(&rt, &bytes[..257], "line 1: fault 10\n", 1)?;
    bytes[256] = b'\n';
    assert_text(&rt, &bytes[..257], "", 0)?;
    bytes[256] = b' ';
    bytes[257] = b'\n';
    assert_text(&rt, &bytes, "line 1: fault 10\n", 1)
}
