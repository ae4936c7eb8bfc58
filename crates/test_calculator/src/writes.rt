//! Worked runs with a write that fails, or takes nothing, at each place: what was written is the beginning
//! of the text, and the status is 2.

use crate::example_runs::EXAMPLE_FILES;
use crate::failing_streams::{Refusal, writer};
use crate::runs::ran;
use crate::worked_runs::{EXAMPLES, FAULTS, INVERSES, LINES, Run, WITHOUT_A_FIELD};
use p3_calculator::{StdSink, StdSource, engine};
use std::alloc::Global;
use std::process::Abort;
use std::test::Fail;

/// Both ways in which a writer refuses bytes.
const REFUSALS: [Refusal; 2] = [Refusal::Error, Refusal::NoBytes];

/// Runs the input over a sink with this room, which is the beginning of the text. One that is full fails, or
/// takes none.
fn assert_room(
    rt: &(impl Abort + AllocGlobal),
    input: &str,
    text: &[u8],
    status: u8,
) -> Result<(), Fail> {
    for fails in [false, true] {
        let room = (text.len(), fails);
        let (answer, sink) = ran(rt.alloc(), input.as_bytes(), (7, None), room)?;
        assert_eq!(rt; answer, status, "{input}");
        assert_eq!(rt; sink.text(), text, "{input}");
    }
    Ok(())
}

/// What a run over a writer that refuses bytes once did: its status, what was written, and how many writes
/// were made.
type Written = (u8, Vec<u8>, usize);

/// Runs the input over a writer that takes so many bytes at once and refuses them at one call. The writer
/// would go on after that.
fn written(alloc: Global, input: &str, piece: usize, failing: usize, refusal: Refusal) -> Written {
    let mut writer = writer(alloc, piece, failing, refusal);
    let mut source = StdSource::new(input.as_bytes());
    let status = engine(alloc, &mut source, &mut StdSink::new(&mut writer));
    (status, writer.taken, writer.calls)
}

/// Runs the input with each write refused in turn, of so many bytes at most, and with none refused.
fn assert_refused_writes(
    rt: &(impl Abort + AllocGlobal),
    run: &Run,
    piece: usize,
    refusal: Refusal,
) -> Result<(), Fail> {
    let (input, text, status) = *run;
    let text = text.as_bytes();
    for failing in 0..=text.len() {
        let (answer, taken, calls) = written(rt.alloc(), input, piece, failing, refusal);
        if calls <= failing {
            assert_eq!(rt; answer, status, "{input}");
            assert_eq!(rt; taken.as_slice(), text, "{input}");
            return Ok(());
        }
        assert_eq!(rt; answer, 2, "{input}");
        assert_eq!(rt; calls, failing + 1, "{input}");
        assert!(rt;
            failing <= taken.len() && taken.len() < text.len(),
            "{input}"
        );
        assert!(rt; text.starts_with(&taken), "{input}");
    }
    panic!(rt; "a write that takes bytes takes none")
}

/// Runs each row with every room, and with each of its writes refused in turn, of one byte, of three, and of
/// all that there are.
fn assert_rows(rt: &(impl Abort + AllocGlobal), rows: &[Run]) -> Result<(), Fail> {
    for row in rows {
        let (input, text, status) = *row;
        let text = text.as_bytes();
        for room in 0..text.len() {
            assert_room(rt, input, &text[..room], 2)?;
        }
        assert_room(rt, input, text, status)?;
        for piece in [1usize, 3, 1000] {
            for refusal in REFUSALS {
                assert_refused_writes(rt, row, piece, refusal)?;
            }
        }
    }
    Ok(())
}

#[test]
fn each_write_of_every_worked_run(rt: HostRuntime) -> Result<(), Fail> {
    assert_rows(&rt, &EXAMPLE_FILES)?;
    assert_rows(&rt, &EXAMPLES)?;
    assert_rows(&rt, &WITHOUT_A_FIELD)?;
    assert_rows(&rt, &FAULTS)?;
    assert_rows(&rt, &LINES)?;
    assert_rows(&rt, &INVERSES)
}

/// What is written before a write of one byte, of three and of whole lines is refused, and how many writes
/// are made.
#[test]
fn writes_by_hand(rt: HostRuntime) -> Result<(), Fail> {
    let inverse = "field f17x2\nput 0 1 2\ninv 1 0\nshow 1\nmul 2 0 1\nshow 2\n";
    let fault = "field f17x2\nput 0 3 11\nshow 0\ninv 0 1";
    let rows = [
        (inverse, 3usize, 0usize, "", 2u8, 1usize),
        (inverse, 3, 1, "3 +", 2, 2),
        (inverse, 3, 2, "3 + 11", 2, 3),
        (inverse, 3, 3, "3 + 11 X\n", 2, 4),
        (inverse, 3, 4, "3 + 11 X\n1\n", 0, 4),
        (inverse, 1000, 1, "3 + 11 X\n", 2, 2),
        (inverse, 1000, 2, "3 + 11 X\n1\n", 0, 2),
        (inverse, 1, 10, "3 + 11 X\n1", 2, 11),
        (inverse, 1, 11, "3 + 11 X\n1\n", 0, 11),
        (fault, 1000, 1, "3 + 11 X\n", 2, 2),
        (fault, 7, 3, "3 + 11 X\nline 4:", 2, 4),
        (fault, 1000, 2, "3 + 11 X\nline 4: fault 5\n", 1, 2),
    ];
    for (input, piece, failing, text, status, calls) in rows {
        for refusal in REFUSALS {
            let (answer, taken, made) = written(rt.alloc(), input, piece, failing, refusal);
            assert_eq!(rt; answer, status, "{text}");
            assert_eq!(rt; taken.as_slice(), text.as_bytes());
            assert_eq!(rt; made, calls, "{text}");
        }
    }
    Ok(())
}

/// A text longer than any buffer is written whole, and an input longer than any buffer is read to
/// its end.
#[test]
fn long_input_and_text(rt: HostRuntime) -> Result<(), Fail> {
    let mut input = String::new(rt.alloc());
    input.push_str("field f17\n")?;
    for _ in 0..30_000 {
        input.push_str("show 0\n")?;
    }
    let (status, taken, _) = written(rt.alloc(), &input, 1_000_000, usize::MAX, Refusal::Error);
    assert_eq!(rt; status, 0u8);
    assert_eq!(rt; taken.len(), 60_000usize);
    Ok(())
}
