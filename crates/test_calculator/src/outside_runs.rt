//! Whole runs with outside texts. The inputs are random programs and cases at the edges of the
//! rules; their texts and statuses were made with the original Rust crate over the same fields, and
//! checked against a second program that works from the definitions of the operations alone.

mod root_runs;
mod septic_runs;
mod vector_runs;

use crate::worked_runs::Run;
use p3_calculator::{MemSink, MemSource, engine};
use root_runs::ROOTS;
use septic_runs::SEPTICS;
use std::process::Abort;
use std::test::Fail;
use vector_runs::{EDGES, FAULTS, VALUES};

/// Runs over one field after another, with targets that are operands, words with leading zeros,
/// composite orders and faults in mid-run.
static RUNS: [Run; 14] = [
    (
        "field f17x2\nput 0 3 4\nmul 0 0 0\nshow 0\nput 1 2 5\nmul 1 0 1\nshow 1\nsub 0 1 0\n\
        show 0\n",
        "6 + 7 X\n15 + 10 X\n9 + 3 X\n",
        0,
    ),
    (
        "field f17\nput 5 7\nadd 5 5 5\nshow 5\nmul 5 5 5\nshow 5\nsub 5 5 5\nshow 5\n",
        "14\n9\n0\n",
        0,
    ),
    (
        "field f17\nput 0 3\ninv 0 0\nshow 0\nput 0 0\ninv 1 0\nshow 0\n",
        "6\nline 6: fault 5\n",
        1,
    ),
    (
        "field f17\npow 1 0 00000000000000000000\nshow 1\n",
        "1\n",
        0,
    ),
    ("field f17\nput 10 8\nadd 11 10 10\nshow 11\n", "16\n", 0),
    (
        "field f17\nput 0 16\nshow 0\nput 1 17\nshow 1\n",
        "16\nline 4: fault 4\n",
        1,
    ),
    (
        "field z15\nput 0 2\ninv 1 0\nshow 1\nmul 1 1 0\nshow 1\n",
        "8\n1\n",
        0,
    ),
    (
        "field z15\nput 0 10\nput 01 014\n put  2 1\nmul 06 4 4\n show  5 \n put   2   14 \n\
        sub 11 4 1\nneg 00 03\nmul 7 10 06\nshow 15\nput 8 00000000000000000005\nshow 15\n\
        show 12\nshow 13\nshow 9\n",
        "0\n0\n0\n0\n0\n0\n",
        0,
    ),
    (
        "field f17\nput 00 1\nput  01   16 \nput \nput 2 009\nput 2 0\nadd 10 05 1\nshow 9\n\
        neg 7 2\nsq 10 15\nput 1 13\nadd 8 7 1\n \ninv 4 1\nmul 13 12 13\npow 10 5 0\n\
        show 10\nmul 15 5 5\ndbl 1 8\ndbl  13 0\nmul 11 13 3\nshow 14\nshow 2\nshow 5\n\
        show 0\n",
        "line 4: fault 2\n",
        1,
    ),
    (
        "  field kb  \nput   0  2130706432  \nput 1 2130706432\nput 2 1\ninv 1 0\n\
        add   07   15   2 \ndbl 4 10\nsq 1 6\nadd 2 11 4\nput 03 2130706432\nshow 1\n\
        show 6\nshow 3\nshow 4\nshow 2\nshow 14\n",
        "0\n0\n2130706432\n0\n0\n0\n",
        0,
    ),
    (
        "field bb\nput 0 1\n  put  1   0  \nput 2 00000000002013265920\nsq 13 11\nsq 3   14\n\
        pow 11 12 9223372036854775808\nadd 7 14 3\nput 0 237239173\n \nmul 0 1 5\n\
        show   10  \nshow 7\nshow 11\nshow 9\nshow 2\n",
        "0\n0\n0\n0\n2013265920\n",
        0,
    ),
    (
        "field f31\nput 00 30\nput 1 27\nput 02 0\nshow 7\n  show 0\nmul 0 8 14\nshow 2\n\
        dbl 10 15\nmul 09 15 13\nsq 5 9\nmul 09 2 8\nput   6  22\nmul 7 14 0\nshow 3\n\
        mul 5 3 2\nadd 0 08 8\npow  7   15  2 \nmul 15 2 11\nsq 10 15\ndbl 1 3\n show   5 \n\
        pow 11 11 3\n  \npow 10 2 31\nshow 15\nshow 6\nshow 3\nshow 0\n",
        "0\n30\n0\n0\n0\n0\n22\n0\n0\n",
        0,
    ),
    (
        "field gl\nput   0 4294967296  \nput 1 15416679796330417933\nput 2 4294967296\n\
        dbl 5 6\nsq 5 13\nput 2 18446744069414584320\nfield z15\nsq 5 15\nshow 7\nsq 12 2\n\
        pow 13 06 90\nneg 13 6\npow 04 00 14\nadd 4 15 1\n  neg 7 9 \nshow 2\nadd 15 11 13\n\
        mul 11 15 12\nshow 14 \nadd 14 8 3\n  inv 1 03 \nshow 3\nshow 12\nshow 5\nshow 9\n",
        "0\n0\n0\nline 22: fault 5\n",
        1,
    ),
    (
        "field f17x2\n  put  0 16   16  \nput 1 1 00000000000000000016\nput 02 16 9\n\
        mul 0 8 02\nadd 1 15 1\n inv  5   8\nshow 9\nshow 12\nshow 14\nshow 2",
        "line 7: fault 5\n",
        1,
    ),
];

/// Runs each row's input, and compares the text and the status.
fn assert_runs(rt: &(impl Abort + AllocGlobal), rows: &[(&[u8], &str, u8)]) -> Result<(), Fail> {
    for row in rows {
        let (input, text, status) = *row;
        let mut source = MemSource::new(input.to_vec(rt.alloc())?, 100, None);
        let mut sink = MemSink::new(rt.alloc(), 2000, true)?;
        let answer = engine(rt.alloc(), &mut source, &mut sink);
        assert_eq!(rt; answer, status, "{text}");
        assert_eq!(rt; sink.text(), text.as_bytes(), "{text}");
    }
    Ok(())
}

#[test]
fn outside_runs(rt: HostRuntime) -> Result<(), Fail> {
    for row in RUNS {
        let (input, text, status) = row;
        assert_runs(&rt, &[(input.as_bytes(), text, status)])?;
    }
    assert_runs(&rt, &EDGES)?;
    assert_runs(&rt, &FAULTS)?;
    assert_runs(&rt, &ROOTS)?;
    assert_runs(&rt, &VALUES)?;
    assert_runs(&rt, &SEPTICS)
}
