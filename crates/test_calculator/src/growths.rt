//! Worked runs with each growth of memory refused in turn: fault 8 at a line that shows a register, and at
//! no other. An engine that ends with fault 8 at every such line meets its contract; it fails here, where no growth
//! is refused.

use crate::example_runs::EXAMPLE_FILES;
use crate::lines::{cut_text, show_line, values_shown};
use crate::worked_runs::{EXAMPLES, FAULTS, INVERSES, LINES, Run, WITHOUT_A_FIELD};
use p3_calculator::{MemSink, MemSource, engine_in};
use std::alloc::{AllocError, Global};
use std::process::Abort;
use std::test::Fail;
use test_allocator::Refusing;

/// What a run writes where memory is refused after it has shown so many values.
fn text_up_to(alloc: Global, run: &Run, shown: usize) -> Result<String, AllocError> {
    let (input, text, _) = *run;
    cut_text(alloc, text, shown, show_line(input, shown), 8)
}

/// Runs the input with each growth refused in turn. The first that is refused is the last that is asked for,
/// each value that is shown asks for some, and nothing else does.
fn assert_refused_growths(rt: &(impl Abort + AllocGlobal), run: &Run) -> Result<(), Fail> {
    let (input, text, status) = *run;
    let mut refused = 0usize;
    for passing in 0..100u64 {
        let heap = Refusing::after(rt.alloc(), passing);
        let mut source = MemSource::new(input.as_bytes().to_vec(rt.alloc())?, 7, None);
        let mut sink = MemSink::new(rt.alloc(), 200, true)?;
        let answer = engine_in(&heap, &mut source, &mut sink);
        assert_eq!(rt; heap.blocks(), 0, "{input}");
        if heap.growths() <= passing {
            assert_eq!(rt; answer, status, "{input}");
            assert_eq!(rt; sink.text(), text.as_bytes(), "{input}");
            assert_eq!(rt; refused, values_shown(run), "{input}");
            return Ok(());
        }
        assert_eq!(rt; heap.growths(), passing + 1, "{input}");
        assert_eq!(rt; answer, 1, "{input}");
        let at_next = text_up_to(rt.alloc(), run, refused)?;
        if sink.text() == at_next.as_bytes() {
            refused = refused.saturating_add(1);
        } else {
            let at_same = text_up_to(rt.alloc(), run, refused.saturating_sub(1))?;
            assert_eq!(rt; sink.text(), at_same.as_bytes(), "{input}");
        }
    }
    panic!(rt; "a run takes more than a hundred growths")
}

/// Runs each row with each of its growths refused in turn.
fn assert_rows(rt: &(impl Abort + AllocGlobal), rows: &[Run]) -> Result<(), Fail> {
    for row in rows {
        assert_refused_growths(rt, row)?;
    }
    Ok(())
}

#[test]
fn each_growth_of_every_worked_run(rt: HostRuntime) -> Result<(), Fail> {
    assert_rows(&rt, &EXAMPLE_FILES)?;
    assert_rows(&rt, &EXAMPLES)?;
    assert_rows(&rt, &WITHOUT_A_FIELD)?;
    assert_rows(&rt, &FAULTS)?;
    assert_rows(&rt, &LINES)?;
    assert_rows(&rt, &INVERSES)
}

/// The first growth refused, at fields of three sizes of values.
#[test]
fn the_first_growth(rt: HostRuntime) -> Result<(), Fail> {
    let rows = [
        ("field f17\nshow 0\n", "line 2: fault 8\n"),
        ("field f17x2\n\nshow 0\n", "line 3: fault 8\n"),
        ("field f17x8\ninv 0 0\nshow 0\n", "line 2: fault 5\n"),
        ("field bbx4\nput 0 0 1 0 0\nshow 0", "line 3: fault 8\n"),
    ];
    for (input, text) in rows {
        let heap = Refusing::after(rt.alloc(), 0);
        let mut source = MemSource::new(input.as_bytes().to_vec(rt.alloc())?, 7, None);
        let mut sink = MemSink::new(rt.alloc(), 100, true)?;
        let answer = engine_in(&heap, &mut source, &mut sink);
        assert_eq!(rt; answer, 1, "{text}");
        assert_eq!(rt; sink.text(), text.as_bytes());
        assert_eq!(rt; heap.blocks(), 0);
    }
    Ok(())
}
