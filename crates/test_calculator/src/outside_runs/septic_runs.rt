//! Inputs over the extension of the residues modulo 2 by `X^7 = X + 1`, whose texts and statuses were made by
//! a program that works from the definitions alone, since the original Rust crate has no such polynomial.
//! Written by a script out of its list.

/// Programs, wrong counts and values of coefficients, and changes of the field, with the text and the
/// status. No text depends on which of two roots is answered.
pub static SEPTICS: [(&[u8], &str, u8); 6] = [
    (b"field f2t7\nput 0 0 0 0 0 0 0\n", "line 2: fault 2\n", 1),
    (
        b"field f2t7\nput 0 1 1 1 1 1 0 1\nput 1 1 1 1 1 1 1 1\n\
        \x20 put  2  1 1   0 0  1   0 0\nmul 13 0 06\n\
        put 09 1 1 0 00000000000000000001 1 01 1\nsub 8 7 9\n  \n\
        put 5 1 1 1 0 0 0 1\nsq 3 14\nmul 1 4 1\nmul 08 7 14\nshow 4\n\
        \x20show  01 \nmul 6 5 12\n sq  6  8 \nshow 03\nsqrt 1 14\npow 1 1 2\n\
        show 1\nsq 5 6\nshow 13\nsq  11   8\nsq 2 0\nshow 15\npow 8 12 3\n \n\
        sqrt 8 05\nmul 8 8 8\nshow 8\npow 14 15 1\n  \nshow 10\nsq 09 13\n\
        dbl 10 01\nsqrt 10 12\nmul 10 10 10\nshow 10\n  show  6  \nshow 9\n\
        show 8\nshow 3\nshow 12\nmul 2 14 11\ndbl 08 09\nshow 06\n  show 12  \n\
        mul 4 3 3\nmul 2 08 3\nshow 4\nshow 10\nshow 9\nshow 4\nshow 12\n",
        "0\n0\n0\n0\n0\n0\n0\n0\n0\n0\n0\n0\n0\n0\n0\n0\n0\n0\n0\n0\n0\n",
        0,
    ),
    (
        b"field f2t7\nput 0 0 1 1 1 1 1 1\nput 1 0 1 1 1 00000000000000000001 0 1\n\
        put 02 1 1 0 1 1 1 0\nmul 3 3 2\n\
        put 12 01 0 0 00000000000000000000 0 0 1\nshow 2\n  \nshow 4\n\
        \x20sq   11   8\nput 11 1 1 0 0 1 0 1\nsub 13 15 10\nmul 15 3 12\n\
        sqrt 04 5\nsq 4 4\nshow 4\nmul 12 3 7\nshow 12\n\
        put 13 00000000000000000001 0 1 1 1 1 001\ndbl 15 12\nshow 05\nshow 9\n\
        sub 13 1 5\nsub 11 3 11\nmul 12 13 6\n pow   5  7   07  \nsub 2 5 10\n\
        sq 13 14\nadd 1 3 8\nput 13 1 1 0 0 1 1 1\nsq 10 5\nneg 01 10\n\
        sub 1 7 0\nmul 11 9 13\nsqrt 13 13\nmul 13 13 13\nshow 13\ninv 15 15\n\
        show 8\nshow 10\nshow 13\nshow 11",
        "1 + X + X^3 + X^4 + X^5\n0\n0\n0\n0\n0\n1 + X + X^4 + X^5 + X^6\n\
        line 38: fault 5\n",
        1,
    ),
    (
        b"field f2t7\nput 0 0 0 0 0 0 0 1\nsq 1 0\nshow 1\n",
        "X^5 + X^6\n",
        0,
    ),
    (
        b"field f2t7\nput 0 1 1 1 1 1 1 0\n put   1   0   1   00   0  0  0 001 \n\
        put 2 0 1 1 000 1 1 1\npow  5   8 2698136680  \nshow 3\ndbl 1 6\n\
        put 12 1 0 1 1 1 1 0\nshow 4\nadd 0 2 1\nsq 09 5\npow 11 2 6\ninv 5 11\n\
        mul 0 4 11\nshow 2\nadd 6 8 04\nmul 03 0 13\nshow 12\n  pow 9 1   6\n\
        field f17x8\nmul 6 1 2\nshow 03\nmul 12 8 8\nshow 5\n\
        put 11 1 16 00000000000000000016 16 1 16 0 2\nsq 06 2\nshow 10\n\
        show   8  \nshow 11\n show   15  \nshow 6\n sqrt  07   02\nmul 7 7 7\n\
        show 7\nsq 5 10\n sq  4   5 \nadd 1 10 12\nmul 11 15 1\nsq 13 9 \n\
        neg 14 6\nmul 9 7 5\nshow 3\nneg   10   10  \nadd 0 2 2\nfield f2t5\n\
        mul 15 2 9\nmul 1 3 9\nfield f2\nsqrt 0 2\nsq 0 0\nshow 0\nshow 15\n\
        show 8\nshow 3\nshow 12\n",
        "0\n0\nX + X^2 + X^4 + X^5 + X^6\n1 + X^2 + X^3 + X^4 + X^5\n0\n0\n0\n0\n\
        1 + 16 X + 16 X^2 + 16 X^3 + X^4 + 16 X^5 + 2 X^7\n0\n0\n0\n0\n0\n0\n0\n\
        0\n0\n",
        0,
    ),
    (b"field f2t7\nput 0 0 0 0 2 0 0 0\n", "line 2: fault 4\n", 1),
];
