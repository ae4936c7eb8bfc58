//! Runs of the calculator with their texts and statuses, worked by hand.

/// An input, the text and the status.
pub(crate) type Run = (&'static str, &'static str, u8);

/// Worked runs over one field and over several.
pub(crate) static EXAMPLES: [Run; 10] = [
    (
        "field f17x2\nput 0 1 2\ninv 1 0\nshow 1\nmul 2 0 1\nshow 2\n",
        "3 + 11 X\n1\n",
        0,
    ),
    (
        "field f17x2\nput 0 1 2\nmul 1 0 0\nshow 1\nshow 2",
        "13 + 4 X\n0\n",
        0,
    ),
    (
        "field f17x2\n  put  0 1   2  \nfield f17x2\nshow 0\n",
        "0\n",
        0,
    ),
    ("field f17\nshow 0", "0\n", 0),
    (
        "field f17x2\nput 15 00000000000000000016 00000000000000000001\nshow 15",
        "16 + X\n",
        0,
    ),
    (
        "field f17x2\nput 15 000000000000000000016 1\n",
        "line 2: fault 4\n",
        1,
    ),
    ("field f17\nput 0 13\nsqrt 1 0\nshow 1\n", "8\n", 0),
    ("field f17\nput 0 3\nsqrt 1 0\n", "line 3: fault 6\n", 1),
    ("field f17\nsqrt 1 0\nshow 1\n", "0\n", 0),
    ("field z15\nput 0 4\nsqrt 0 0\n", "line 3: fault 6\n", 1),
];

/// Lines before a field is chosen, and names that no field has.
pub(crate) static WITHOUT_A_FIELD: [Run; 11] = [
    ("", "", 0),
    ("\n\n  \n", "", 0),
    ("inv 0 0", "line 1: fault 7\n", 1),
    ("put", "line 1: fault 7\n", 1),
    ("sqrt 0 0\n", "line 1: fault 7\n", 1),
    ("field f19", "line 1: fault 7\n", 1),
    ("field F17", "line 1: fault 7\n", 1),
    ("field", "line 1: fault 2\n", 1),
    ("field f17x2 f17x2", "line 1: fault 2\n", 1),
    ("\n \ndiv 1 0 0\n", "line 3: fault 1\n", 1),
    ("\n \nadd 1 0 0\n", "line 3: fault 7\n", 1),
];

/// Each fault of a field, the order among them.
pub(crate) static FAULTS: [Run; 43] = [
    (
        "field f17x2\nput 0 1 2\ndiv 1 0 0\n",
        "line 3: fault 1\n",
        1,
    ),
    ("field f17x2\ninv 1 0\n", "line 2: fault 5\n", 1),
    ("field f17x2\nput 16 1 2\n", "line 2: fault 3\n", 1),
    ("field f17x2\nput 000 1 2\n", "line 2: fault 3\n", 1),
    ("field f17x2\nput 0 17 0\n", "line 2: fault 4\n", 1),
    (
        "field f17x2\nput 0 0 18446744073709551616\n",
        "line 2: fault 4\n",
        1,
    ),
    ("field f17x2\nput 0 x 0\n", "line 2: fault 4\n", 1),
    ("field f17x2\nput 16 1\n", "line 2: fault 2\n", 1),
    ("field f17x2\nput 0 1 2 3\n", "line 2: fault 2\n", 1),
    ("field f17x2\nput 16 17 0\n", "line 2: fault 3\n", 1),
    ("field f17x2\nmul 0 1\n", "line 2: fault 2\n", 1),
    ("field f17x2\nshow 20\n", "line 2: fault 3\n", 1),
    ("field f17\nput 16 1\n", "line 2: fault 3\n", 1),
    ("field f17\nput 0 17\n", "line 2: fault 4\n", 1),
    ("field f17\nput 0 1 2\n", "line 2: fault 2\n", 1),
    ("field f17\ninv 1 0\n", "line 2: fault 5\n", 1),
    ("field f2\ninv 1 0\n", "line 2: fault 5\n", 1),
    ("field f17\nadd 1 0\n", "line 2: fault 2\n", 1),
    ("field f17\nsub 0 0 16\n", "line 2: fault 3\n", 1),
    ("field f17\nneg 1\n", "line 2: fault 2\n", 1),
    ("field f17\nsq 1 0 0\n", "line 2: fault 2\n", 1),
    ("field f17\ndbl 16 0\n", "line 2: fault 3\n", 1),
    ("field f17\nsqrt 1\n", "line 2: fault 2\n", 1),
    ("field f17\nsqrt 1 16\n", "line 2: fault 3\n", 1),
    ("field z15\nput 0 6\ninv 0 0\n", "line 3: fault 5\n", 1),
    ("field gl\npow 0 0\n", "line 2: fault 2\n", 1),
    ("field gl\npow 0 0 1 1\n", "line 2: fault 2\n", 1),
    ("field gl\npow 16 0 x\n", "line 2: fault 3\n", 1),
    ("field gl\npow 0 16 x\n", "line 2: fault 3\n", 1),
    ("field gl\npow 0 0 x\n", "line 2: fault 4\n", 1),
    (
        "field gl\npow 0 0 18446744073709551616\n",
        "line 2: fault 4\n",
        1,
    ),
    (
        "field gl\npow 0 0 000000000000000000001\n",
        "line 2: fault 4\n",
        1,
    ),
    ("field f17bx2\nput 0 2 1\ninv 1 0\n", "line 3: fault 5\n", 1),
    ("field z15x2\nput 0 3 3\ninv 1 0\n", "line 3: fault 5\n", 1),
    ("field f31x6\ninv 1 0\n", "line 2: fault 5\n", 1),
    (
        "field f2\nput 0 1\nshow 0\nput 0 2\n",
        "1\nline 4: fault 4\n",
        1,
    ),
    (
        "field f17\nput 0 16\nshow 0\nput 0 17\n",
        "16\nline 4: fault 4\n",
        1,
    ),
    (
        "field f17b\nput 0 16\nshow 0\nput 0 17\n",
        "16\nline 4: fault 4\n",
        1,
    ),
    (
        "field f31\nput 0 30\nshow 0\nput 0 31\n",
        "30\nline 4: fault 4\n",
        1,
    ),
    (
        "field z15\nput 0 14\nshow 0\nput 0 15\n",
        "14\nline 4: fault 4\n",
        1,
    ),
    (
        "field bb\nput 0 2013265920\nshow 0\nput 0 2013265921\n",
        "2013265920\nline 4: fault 4\n",
        1,
    ),
    (
        "field kb\nput 0 2130706432\nshow 0\nput 0 2130706433\n",
        "2130706432\nline 4: fault 4\n",
        1,
    ),
    (
        "field gl\nput 0 18446744069414584320\nshow 0\nput 0 18446744069414584321\n",
        "18446744069414584320\nline 4: fault 4\n",
        1,
    ),
];

/// Each line over prime fields and an extension.
pub(crate) static LINES: [Run; 34] = [
    (
        "field f17x2\nput 0 1 2\nput 1 16 5\nadd 2 0 1\nshow 2\n",
        "7 X\n",
        0,
    ),
    (
        "field f17x2\nput 0 1 2\nput 1 16 5\nsub 2 0 1\nshow 2\n",
        "2 + 14 X\n",
        0,
    ),
    (
        "field f17x2\nput 0 1 2\nput 1 16 5\nsub 2 1 0\nshow 2\n",
        "15 + 3 X\n",
        0,
    ),
    (
        "field f17x2\nput 0 1 2\nput 1 16 5\nmul 2 0 0\nshow 2\n",
        "13 + 4 X\n",
        0,
    ),
    (
        "field f17x2\nput 0 1 2\nput 1 16 5\nneg 2 0\nshow 2\n",
        "16 + 15 X\n",
        0,
    ),
    (
        "field f17x2\nput 0 1 2\nput 1 16 5\nsq 2 0\nshow 2\n",
        "13 + 4 X\n",
        0,
    ),
    (
        "field f17x2\nput 0 1 2\nput 1 16 5\ndbl 2 1\nshow 2\n",
        "15 + 10 X\n",
        0,
    ),
    (
        "field f17x2\nput 0 1 2\nput 1 16 5\npow 2 0 3\nshow 2\n",
        "3 + 13 X\n",
        0,
    ),
    (
        "field f17x2\nput 0 1 2\nput 1 16 5\npow 2 0 0\nshow 2\n",
        "1\n",
        0,
    ),
    (
        "field f17x2\nput 0 1 2\nput 1 16 5\npow 2 2 0\nshow 2\n",
        "1\n",
        0,
    ),
    (
        "field f17x2\nput 0 1 2\nput 1 16 5\npow 2 0 18446744073709551615\nshow 2\n",
        "7 + 15 X\n",
        0,
    ),
    ("field f17\nput 0 5\nput 1 12\nadd 2 0 1\nshow 2", "0\n", 0),
    ("field f17\nput 0 5\nput 1 12\nsub 2 0 1\nshow 2", "10\n", 0),
    ("field f17\nput 0 5\nput 1 12\nmul 2 0 1\nshow 2", "9\n", 0),
    ("field f17\nput 0 5\nput 1 12\nneg 2 0\nshow 2", "12\n", 0),
    ("field f17\nput 0 5\nput 1 12\nsq 2 0\nshow 2", "8\n", 0),
    ("field f17\nput 0 5\nput 1 12\ndbl 2 1\nshow 2", "7\n", 0),
    ("field f17\nput 0 5\nput 1 12\ninv 2 0\nshow 2", "7\n", 0),
    ("field f17\nput 0 5\nput 1 12\npow 2 0 3\nshow 2", "6\n", 0),
    (
        "field f17\nput 0 5\nput 1 12\npow 2 0 18446744073709551615\nshow 2",
        "7\n",
        0,
    ),
    ("field f17b\nput 0 5\nput 1 12\nadd 2 0 1\nshow 2", "0\n", 0),
    (
        "field f17b\nput 0 5\nput 1 12\nsub 2 0 1\nshow 2",
        "10\n",
        0,
    ),
    ("field f17b\nput 0 5\nput 1 12\nmul 2 0 1\nshow 2", "9\n", 0),
    ("field f17b\nput 0 5\nput 1 12\nneg 2 0\nshow 2", "12\n", 0),
    ("field f17b\nput 0 5\nput 1 12\nsq 2 0\nshow 2", "8\n", 0),
    ("field f17b\nput 0 5\nput 1 12\ndbl 2 1\nshow 2", "7\n", 0),
    ("field f17b\nput 0 5\nput 1 12\ninv 2 0\nshow 2", "7\n", 0),
    ("field f17b\nput 0 5\nput 1 12\npow 2 0 3\nshow 2", "6\n", 0),
    (
        "field f17b\nput 0 5\nput 1 12\npow 2 0 18446744073709551615\nshow 2",
        "7\n",
        0,
    ),
    (
        "field f31\nput 0 2\nput 1 1\ninv 0 0\nneg 1 1\ndbl 2 1\nshow 0\nshow 1\nshow 2",
        "16\n30\n29\n",
        0,
    ),
    (
        "field z15\nput 0 2\nput 1 1\ninv 0 0\nneg 1 1\ndbl 2 1\nshow 0\nshow 1\nshow 2",
        "8\n14\n13\n",
        0,
    ),
    (
        "field bb\nput 0 2\nput 1 1\ninv 0 0\nneg 1 1\ndbl 2 1\nshow 0\nshow 1\nshow 2",
        "1006632961\n2013265920\n2013265919\n",
        0,
    ),
    (
        "field kb\nput 0 2\nput 1 1\ninv 0 0\nneg 1 1\ndbl 2 1\nshow 0\nshow 1\nshow 2",
        "1065353217\n2130706432\n2130706431\n",
        0,
    ),
    (
        "field gl\nput 0 2\nput 1 1\ninv 0 0\nneg 1 1\ndbl 2 1\nshow 0\nshow 1\nshow 2",
        "9223372034707292161\n18446744069414584320\n18446744069414584319\n",
        0,
    ),
];

/// The inverse of a value over each extension, its product with the value, and the value less what the
/// square and the inverse give.
pub(crate) static INVERSES: [Run; 13] = [
    (
        "field f17x2\nput 0 1 2\ninv 1 0\nmul 2 0 1\nsq 3 0\nmul 3 3 1\nsub 3 3 0\nshow 1\nshow 2\nshow 3\n",
        "3 + 11 X\n1\n0\n",
        0,
    ),
    (
        "field f17x4\nput 0 1 1 0 0\ninv 1 0\nmul 2 0 1\nsq 3 0\nmul 3 3 1\nsub 3 3 0\nshow 1\nshow 2\nshow 3\n",
        "8 + 9 X + 8 X^2 + 9 X^3\n1\n0\n",
        0,
    ),
    (
        "field f17x8\nput 0 1 1 0 0 0 0 0 0\ninv 1 0\nmul 2 0 1\nsq 3 0\nmul 3 3 1\nsub 3 3 0\nshow 1\nshow 2\nshow 3\n",
        "8 + 9 X + 8 X^2 + 9 X^3 + 8 X^4 + 9 X^5 + 8 X^6 + 9 X^7\n1\n0\n",
        0,
    ),
    (
        "field f17bx2\nput 0 1 1\ninv 1 0\nmul 2 0 1\nsq 3 0\nmul 3 3 1\nsub 3 3 0\nshow 1\nshow 2\nshow 3\n",
        "11 + 6 X\n1\n0\n",
        0,
    ),
    (
        "field z15x2\nput 0 1 2\ninv 1 0\nmul 2 0 1\nsq 3 0\nmul 3 3 1\nsub 3 3 0\nshow 1\nshow 2\nshow 3\n",
        "2 + 11 X\n1\n0\n",
        0,
    ),
    (
        "field f31x3\nput 0 1 1 0\ninv 1 0\nmul 2 0 1\nsq 3 0\nmul 3 3 1\nsub 3 3 0\nshow 1\nshow 2\nshow 3\n",
        "8 + 23 X + 8 X^2\n1\n0\n",
        0,
    ),
    (
        "field f31x5\nput 0 1 1 0 0 0\ninv 1 0\nmul 2 0 1\nsq 3 0\nmul 3 3 1\nsub 3 3 0\nshow 1\nshow 2\nshow 3\n",
        "8 + 23 X + 8 X^2 + 23 X^3 + 8 X^4\n1\n0\n",
        0,
    ),
    (
        "field f31x6\nput 0 1 1 0 0 0 0\ninv 1 0\nmul 2 0 1\nsq 3 0\nmul 3 3 1\nsub 3 3 0\nshow 1\nshow 2\nshow 3\n",
        "15 + 16 X + 15 X^2 + 16 X^3 + 15 X^4 + 16 X^5\n1\n0\n",
        0,
    ),
    (
        "field f31c\nput 0 15 1\ninv 1 0\nmul 2 0 1\nsq 3 0\nmul 3 3 1\nsub 3 3 0\nshow 1\nshow 2\nshow 3\n",
        "12 + 24 X\n1\n0\n",
        0,
    ),
    (
        "field bbx4\nput 0 0 1 0 0\ninv 1 0\nmul 2 0 1\nsq 3 0\nmul 3 3 1\nsub 3 3 0\nshow 1\nshow 2\nshow 3\n",
        "64944062 X^3\n1\n0\n",
        0,
    ),
    (
        "field f31t3\nput 0 0 1 0\ninv 1 0\nmul 2 0 1\nsq 3 0\nmul 3 3 1\nsub 3 3 0\nshow 1\nshow 2\nshow 3\n",
        "30 + X^2\n1\n0\n",
        0,
    ),
    (
        "field f17t5\nput 0 0 1 0 0 0\ninv 1 0\nmul 2 0 1\nsq 3 0\nmul 3 3 1\nsub 3 3 0\nshow 1\nshow 2\nshow 3\n",
        "X + X^4\n1\n0\n",
        0,
    ),
    (
        "field f2t5\nput 0 0 1 0 0 0\ninv 1 0\nmul 2 0 1\nsq 3 0\nmul 3 3 1\nsub 3 3 0\nshow 1\nshow 2\nshow 3\n",
        "X + X^4\n1\n0\n",
        0,
    ),
];
