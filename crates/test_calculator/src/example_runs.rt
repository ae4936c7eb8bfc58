//! The runs of the folder examples/, which scripts/examples compares with this table.

use crate::worked_runs::Run;

/// A run for each kind of line, by the names of their files.
pub(crate) static EXAMPLE_FILES: [Run; 13] = [
    (
        "field f31t3\nput 0 30 1 2\nput 1 2 0 29\nadd 2 0 1\nshow 2\n",
        "1 + X\n",
        0,
    ),
    (
        "field f17bx2\nput 0 9 8\ndbl 1 0\nshow 1\n",
        "1 + 16 X\n",
        0,
    ),
    (
        "field z15x2\nput 0 3 3\n\ninv 1 0\nshow 1\n",
        "line 4: fault 5\n",
        1,
    ),
    (
        "field f31\nput 3 30\nshow 3\nfield f31x3\nshow 3\n",
        "30\n0\n",
        0,
    ),
    (
        "field f17x2\nput 0 1 2\ninv 1 0\nshow 1\nmul 2 0 1\nshow 2\n",
        "3 + 11 X\n1\n",
        0,
    ),
    (
        "field f17t5\nput 0 0 0 0 0 1\nmul 1 0 0\nshow 1\n",
        "16 + X^2 + X^3\n",
        0,
    ),
    ("field kb\nput 0 1\nneg 1 0\nshow 1\n", "2130706432\n", 0),
    (
        "field bb\nput 0 2\npow 1 0 31\nshow 1\npow 2 0 2013265921\nshow 2\n",
        "134217727\n2\n",
        0,
    ),
    (
        "field f17x4\nput 0 1 0 16 5\nshow 0\nput 0 0 1 0 0\nshow 0\n",
        "1 + 16 X^2 + 5 X^3\nX\n",
        0,
    ),
    (
        "field f17x8\nput 15 0 1 0 2 0 0 0 16\nshow 15\nshow 14\n",
        "X + 2 X^3 + 16 X^7\n0\n",
        0,
    ),
    ("field f31c\nput 0 1 2\nsq 1 0\nshow 1\n", "28 + 4 X\n", 0),
    (
        "field f2t5\nput 0 0 1 0 0 0\nsqrt 1 0\nshow 1\nsq 2 1\nshow 2\n",
        "1 + X + X^3 + X^4\nX\n",
        0,
    ),
    (
        "field gl\nput 0 1\nput 1 2\nsub 2 0 1\nshow 2\n",
        "18446744069414584320\n",
        0,
    ),
];
