//! Inputs with square roots, whose texts and statuses were made with the original Rust crate, and
//! checked against a second program that works from the definitions alone. Written by a script out
//! of their list.

/// Lines that take roots, and lines whose root isn't answered, with the text and the status. No text
/// depends on which of two roots is answered.
pub static ROOTS: [(&[u8], &str, u8); 37] = [
    (
        b"field f17\nput 0 13\nsqrt 1 0\nsq 1 1\nshow 1\n",
        "13\n",
        0,
    ),
    (
        b"field f17\nput 0 9\nshow 0\nshow 1\nsqrt 2 0\nsq 2 2\nshow 2\nput 3 5\n\
        sqrt 3 3\nshow 0\n",
        "9\n0\n9\nline 9: fault 6\n",
        1,
    ),
    (b"field f17\nput 0 3\nsqrt 1 0\n", "line 3: fault 6\n", 1),
    (
        b"field f31c\nput 0 1 0\nput 1 25 1\nput 2 30 0\nneg 5 09\nadd 10 12 10\n\
        neg 1 2\nmul 4 02 0\nsqrt 13   8  \nsq 13 13\nshow 13\n sq  7   12\nshow 4\n\
        pow 5 11 18310541713262346396\nshow 11\nmul 14 12 12\nshow 8\nsub 5 10 3\n\
        mul 10 0 6\nneg  9    9   10  \nshow 13\nshow 10\nshow 0\nshow 15\n",
        "0\n30\n0\n0\nline 20: fault 2\n",
        1,
    ),
    (
        b" field f17 \nput 0 \xf7\nput 1 0\nput 2 0\nmul   4  2   0 \nsub 5 08 8\n\
        mul 13 02 14\npow 3 10 4294967296\nshow 15\nsqrt 12 11\npow 12 12 2\n\
        show 12\n sq   1  0\nmul 0 15 15\nsqrt 10 14\nsq 10 10\nshow 10\n\
        pow 1 10 16\n\nsq 3 13\nshow 1\nshow 5\nshow 2\nshow 14\n",
        "line 2: fault 4\n",
        1,
    ),
    (
        b"field bb\nput 7 1186530751\nshow 7\nsqrt 7 7\nshow 7\n",
        "1186530751\nline 4: fault 6\n",
        1,
    ),
    (
        b"field bbx4\nput 7 463318630 913320812 495340723 1487254068\nshow 7\n\
        sqrt 7 7\nshow 7\n",
        "463318630 + 913320812 X + 495340723 X^2 + 1487254068 X^3\nline 4: fault 6\n",
        1,
    ),
    (
        b"field f17\nput 7 7\nshow 7\nsqrt 7 7\nshow 7\n",
        "7\nline 4: fault 6\n",
        1,
    ),
    (
        b"field f17b\nput 7 6\nshow 7\nsqrt 7 7\nshow 7\n",
        "6\nline 4: fault 6\n",
        1,
    ),
    (
        b"field f17bx2\nput 7 0 14\nshow 7\nsqrt 7 7\nshow 7\n",
        "14 X\nline 4: fault 6\n",
        1,
    ),
    (
        b"field f17t5\nput 7 15 12 0 2 11\nshow 7\nsqrt 7 7\nshow 7\n",
        "15 + 12 X + 2 X^3 + 11 X^4\nline 4: fault 6\n",
        1,
    ),
    (
        b"field f17x2\nput 7 4 8\nshow 7\nsqrt 7 7\nshow 7\n",
        "4 + 8 X\nline 4: fault 6\n",
        1,
    ),
    (
        b"field f17x4\nput 7 1 16 0 11\nshow 7\nsqrt 7 7\nshow 7\n",
        "1 + 16 X + 11 X^3\nline 4: fault 6\n",
        1,
    ),
    (
        b"field f17x8\nput 7 1 8 9 6 7 6 4 15\nshow 7\nsqrt 7 7\nshow 7\n",
        "1 + 8 X + 9 X^2 + 6 X^3 + 7 X^4 + 6 X^5 + 4 X^6 + 15 X^7\nline 4: fault 6\n",
        1,
    ),
    (
        b"field f31\nput 7 17\nshow 7\nsqrt 7 7\nshow 7\n",
        "17\nline 4: fault 6\n",
        1,
    ),
    (
        b"field f31c\nput 7 21 27\nshow 7\nsqrt 7 7\nshow 7\n",
        "21 + 27 X\nline 4: fault 6\n",
        1,
    ),
    (
        b"field f31t3\nput 7 24 27 6\nshow 7\nsqrt 7 7\nshow 7\n",
        "24 + 27 X + 6 X^2\nline 4: fault 6\n",
        1,
    ),
    (
        b"field f31x3\nput 7 5 22 12\nshow 7\nsqrt 7 7\nshow 7\n",
        "5 + 22 X + 12 X^2\nline 4: fault 6\n",
        1,
    ),
    (
        b"field f31x5\nput 7 15 7 13 21 5\nshow 7\nsqrt 7 7\nshow 7\n",
        "15 + 7 X + 13 X^2 + 21 X^3 + 5 X^4\nline 4: fault 6\n",
        1,
    ),
    (
        b"field f31x6\nput 7 7 26 18 27 29 6\nshow 7\nsqrt 7 7\nshow 7\n",
        "7 + 26 X + 18 X^2 + 27 X^3 + 29 X^4 + 6 X^5\nline 4: fault 6\n",
        1,
    ),
    (
        b"field gl\nput 7 8189697885348443164\nshow 7\nsqrt 7 7\nshow 7\n",
        "8189697885348443164\nline 4: fault 6\n",
        1,
    ),
    (
        b"field kb\nput 7 1301546142\nshow 7\nsqrt 7 7\nshow 7\n",
        "1301546142\nline 4: fault 6\n",
        1,
    ),
    (
        b"field z15\nput 7 13\nshow 7\nsqrt 7 7\nshow 7\n",
        "13\nline 4: fault 6\n",
        1,
    ),
    (
        b"field z15x2\nput 7 7 10\nshow 7\nsqrt 7 7\nshow 7\n",
        "7 + 10 X\nline 4: fault 6\n",
        1,
    ),
    (
        b"field f17\nput 00 0\nput 1 16\nput 2 01\n sqrt  13   0  \npow 13 13 2\n\
        show 13\nsq 1 06\nneg 8 14\npow 11 7 4\n sub 8  13   07\nsqrt 6 02\n\
        pow 6 6 2\nshow 6\nshow 8\nshow 15\nshow 9\nshow 14\n",
        "0\n1\n0\n0\n0\n0\n",
        0,
    ),
    (
        b"field f17b\n put 0   000\nput 1 0\nput 2  16  \nsqrt 2 7\nsq 2 2\nshow 2\n\
        dbl 1 10\nsq 07 11\ndbl 8 14\nmul 5 11 1\nshow 3\nmul 09 12 06\n\
        \x20 mul  14 02 0 \nneg 2 13\nsq 8 3 \ninv 0 8\nshow 11\nshow 7\nshow 10\n\
        show 9\n",
        "0\n0\nline 17: fault 5\n",
        1,
    ),
    (
        b"field f17bx2\n  put  0  1  0\nput 01 1 12\n  put 2   3 9  \nmul 13 04 8\n\
        show 7\nneg 12 13\nshow 2\n  show 8\nshow 11\nshow 11\nneg 6 10\n\
        pow 8  8  5 \nshow 5\nmul 0 6 7\nsq 6 14\nsq 4 11\ndbl 0 13\n\
        add  12  10   11 \nmul 9 00 8\nadd 0 12 09\nmul 13 7 8\nsqrt 13 7\n\
        mul 13 13 13\nshow 13\nshow 3\nshow 10\nshow 2\nshow 9",
        "0\n3 + 9 X\n0\n0\n0\n0\n0\n0\n0\n3 + 9 X\n0\n",
        0,
    ),
    (
        b"field f17x4\n  put  0   16   16 15 16\nput 1 0 9 5 0\n\
        put 2 1 16 00000000000000000016 15\nshow 6\nsub 11 5 4\n  show 3\n\
        sub 4 08 6\nshow 13\nadd 14 1 13\nmul 7 5 04\nsq 04 3\nmul 10 14 6\n\
        sub 6 14 13\n  sq 8 5  \n dbl  0   13 \nsqrt 7 7\nsq 7 7\nshow 7\n\
        \x20 add  15 15  5  \nsq 01 12\nneg 8 5\nneg 8 15\n show  7  \nmul 12 2 14\n\
        mul 02 15 1\n show   13\nshow 10\n  mul 12   15   0\nmul   11   1  12  \n\
        \x20 mul 9   11  6\n put  7   9  4  00000000000000000009  16  \npow 5 0 96\n\
        show 01\nsq 5 10\nput 11 0 00000000000000000000 16 15\nsq 11 13\nshow  9 \n\
        sub 15 7 11\nsq 14 11\nshow 2\nshow 4\nshow 13\nshow 15\n",
        "0\n0\n0\n0\n0\n0\n0\n0\n0\n0\n0\n0\n9 + 4 X + 9 X^2 + 16 X^3\n",
        0,
    ),
    (
        b"  field   f2\nput 0 1\nput 1 0\n put 2   0\nshow 11\nmul 4   4   7 \n\
        \x20 put  0 0  \nadd 13 12 1\nmul 4 01 6\nsqrt 1 7\nsq 1 1\nshow 1\n\
        sub 11 9   10\nshow 3\ndbl 14 14\n  sq  13  11  \n mul 2   13 10 \n\
        neg 10 11\nmul   8  12  14 \nshow 14\nmul   6 8   11  \nput 03 01\nsq 0 5\n\
        sqrt 13 10\npow 13 13 2\nshow 13\nput 6 1\nsq 14 8\nmul 8 5 14\npow 3 13 1\n\
        show 03\nshow 1\ndbl   1   6\nmul 10 11 0\nshow 8\nmul 5 10 11\nsqrt 3 15\n\
        sq 3 3\nshow 3\nmul 00 8 0\nshow 10\nshow 13\nshow 5\nshow 0\n",
        "0\n0\n0\n0\n0\n0\n0\n0\n0\n0\n0\n0\n0\n",
        0,
    ),
    (
        b"field f2t5\nput 0 1 1 1 0 1\nput 1 0 1 1 1 1\nput 2 0 0 1 1 1\nsq 2  1 \n\
        sub 10 3 14\nmul 11 9 4\nshow 12\nadd 1 12 15\nsub 12 13 4\n\
        mul   0   8   5\nsub 13 2 14\nsq 2 6\nsub 13 5 6\ndbl 3 11\nsqrt 02 13\n\
        sq 2 2\nshow 2\nneg 8 12\nsq  7 1 \npow 13 10 32\nshow 9\nshow 2\nsq 13 6\n\
        mul 9 5 8\nshow 3\nshow 12\nshow 14\nshow 4\n",
        "0\n0\n0\n0\n0\n0\n0\n0\n",
        0,
    ),
    (
        b"field f31x6\nput 0 0 29 0 1 16 0\nput 1 18 0 0 30 30 01\n\
        \x20put 02  30 1 30 30  1   8  \ndbl 4 0\nsub 4 15 2\nshow 12\nsq 13 15\n\
        sqrt 1 3\npow 1 1 2\nshow 1\n add  11 5 7  \nshow 1\nshow 13\nshow 14\n\
        show 0\n",
        "0\n0\n0\n0\n0\n29 X + X^3 + 16 X^4\n",
        0,
    ),
    (
        b"field gl\n  put   0 14838322073913488336\n put 1  10076611177731914332 \n\
        put 2 18446744069414584320\nshow 06\nsqrt 8 00\nmul 8 8 8\nshow 8\nsq 09 2\n\
        mul 14 3 8\nmul 1 9 13\n  show   6\npow 4 2 3\nmul 0 9 9\nmul 12 3 9\n\
        neg 15 0\nmul 09 6 9\nshow 14\nmul 12 10 4\nneg 7 14\n \npow 12 7 6\n\
        show 14\nmul 11 6 0\nsq 3 0\nshow 10\nmul 10 09 11\nadd 6 9 3\ndbl 02 2\n\
        sub 10 13 6\nsq 7 4\nsq 5 5\nmul 7 07 13\ninv 11 6\nmul 08 10 8\n\
        pow  3   8 2\npow 5 10 4294967296\nshow 15\nsq 12 5\nshow 7\nshow 4\n\
        show 13\nshow 12\nshow 1\n",
        "0\n14838322073913488336\n0\n0\n0\n0\n18446744069414584320\n0\n\
        18446744069414584320\n0\n1\n0\n",
        0,
    ),
    (
        b"field z15x2\nput 00 00000000000000000001 14\nput 1 01 0\nput 2 1 1\n\
        add 9 00 12\nshow 5\nput  9   00000000000000000001 0  \nput 03 9 14\n\
        pow 15 12 1527988342\n sq 3  4 \nshow 15\n sq 11  7  \n mul  3  8  9 \n\
        put 12 14 00000000000000000014\npow 08 2 6\n  dbl   5 2 \nshow 14 \n\
        mul 14 8 2\nsub   08  13   05 \nshow 5\nshow 2\nshow 14\nsq 12 12\n\
        \x20 add   12 4 15\nmul 7 10 15\nadd 11 7 00\ndbl 14 13\npow 13 12 224\n\
        show 13\nshow 2\n sq   06   7  \n sq   10 5\nneg 15 12\nshow  8\ndbl 11 1\n\
        show 03\nsqrt 5 9\npow 5 5 2\nshow 5\n \nshow 11\nshow 13\nshow 1\nshow 14",
        "0\n0\n0\n2 + 2 X\n1 + X\n14 + 4 X\n0\n1 + X\n13 + 13 X\n0\n1\n2\n0\n1\n0\n",
        0,
    ),
    (
        b"field f17bx2\nsqrt 1 0\nshow 1\ninv 1 1\n",
        "0\nline 4: fault 5\n",
        1,
    ),
    (
        b"field f17x4\nput 15 16 11 7 0\nsq 14 15\nsqrt 0 14\nsq 1 0\nsub 2 1 14\n\
        show 2\nshow 14\nput 15 16 1 1 16\nsq 14 15\nsqrt 0 14\nsq 1 0\nsub 2 1 14\n\
        show 2\nshow 14\nput 15 1 16 16 16\nsq 14 15\nsqrt 0 14\nsq 1 0\n\
        sub 2 1 14\nshow 2\nshow 14\nput 15 16 1 1 1\nsq 14 15\nsqrt 0 14\nsq 1 0\n\
        sub 2 1 14\nshow 2\nshow 14\nput 15 10 16 16 16\nsq 14 15\nsqrt 0 14\n\
        sq 1 0\nsub 2 1 14\nshow 2\nshow 14\nput 15 15 0 16 0\nsq 14 15\nsqrt 0 14\n\
        sq 1 0\nsub 2 1 14\nshow 2\nshow 14\nput 15 3 0 2 0\nsq 14 15\nsqrt 0 14\n\
        sq 1 0\nsub 2 1 14\nshow 2\nshow 14\nput 15 0 0 1 9\nsq 14 15\nsqrt 0 14\n\
        sq 1 0\nsub 2 1 14\nshow 2\nshow 14\nput 15 16 0 9 0\nsq 14 15\nsqrt 0 14\n\
        sq 1 0\nsub 2 1 14\nshow 2\nshow 14\nput 15 9 10 16 13\nsq 14 15\n\
        sqrt 0 14\nsq 1 0\nsub 2 1 14\nshow 2\nshow 14\nput 15 13 2 0 15\nsq 14 15\n\
        sqrt 0 14\nsq 1 0\nsub 2 1 14\nshow 2\nshow 14\nput 15 16 16 6 11\n\
        sq 14 15\nsqrt 0 14\nsq 1 0\nsub 2 1 14\nshow 2\nshow 14\n\
        put 15 0 16 16 10\nsq 14 15\nsqrt 0 14\nsq 1 0\nsub 2 1 14\nshow 2\n\
        show 14\nput 15 0 16 1 9\nsq 14 15\nsqrt 0 14\nsq 1 0\nsub 2 1 14\nshow 2\n\
        show 14\nput 15 0 16 0 14\nsq 14 15\nsqrt 0 14\nsq 1 0\nsub 2 1 14\nshow 2\n\
        show 14\nput 15 1 16 4 0\nsq 14 15\nsqrt 0 14\nsq 1 0\nsub 2 1 14\nshow 2\n\
        show 14\nput 15 16 9 0 16\nsq 14 15\nsqrt 0 14\nsq 1 0\nsub 2 1 14\nshow 2\n\
        show 14\nput 15 2 0 16 0\nsq 14 15\nsqrt 0 14\nsq 1 0\nsub 2 1 14\nshow 2\n\
        show 14\nput 15 1 16 12 16\nsq 14 15\nsqrt 0 14\nsq 1 0\nsub 2 1 14\n\
        show 2\nshow 14\nput 15 0 9 9 10\nsq 14 15\nsqrt 0 14\nsq 1 0\nsub 2 1 14\n\
        show 2\nshow 14\nput 15 1 0 16 1\nsq 14 15\nsqrt 0 14\nsq 1 0\nsub 2 1 14\n\
        show 2\nshow 14\nput 15 12 12 16 6\nsq 14 15\nsqrt 0 14\nsq 1 0\n\
        sub 2 1 14\nshow 2\nshow 14\nput 15 8 12 0 16\nsq 14 15\nsqrt 0 14\nsq 1 0\n\
        sub 2 1 14\nshow 2\nshow 14\nput 15 16 5 9 16\nsq 14 15\nsqrt 0 14\nsq 1 0\n\
        sub 2 1 14\nshow 2\nshow 14\nput 15 16 10 16 3\nsq 14 15\nsqrt 0 14\n\
        sq 1 0\nsub 2 1 14\nshow 2\nshow 14\n",
        "0\n12 + 12 X + 5 X^2 + X^3\n0\n15 + 9 X + 2 X^2 + 4 X^3\n0\n\
        10 + 4 X + 2 X^2\n0\n10 + 4 X + 2 X^2\n0\n7 + 3 X + X^2 + 16 X^3\n0\n\
        7 + 4 X^2\n0\n4 + 12 X^2\n0\n3 + 3 X + 5 X^2\n0\n6 + 16 X^2\n0\n\
        14 + 11 X^2 + 10 X^3\n0\n9 + X + 16 X^2 + 16 X^3\n0\n9 + 7 X + 12 X^2\n0\n\
        11 + 8 X + 12 X^2 + 2 X^3\n0\n3 X + 6 X^2 + 15 X^3\n0\n1 + 11 X^2\n0\n\
        15 + 15 X + 9 X^2 + 9 X^3\n0\n15 + 16 X + 16 X^2 + 2 X^3\n0\n7 + 13 X^2\n0\n\
        14 + 11 X + 11 X^2 + 8 X^3\n0\n1 + 13 X + 7 X^2 + 9 X^3\n0\n\
        4 + 11 X + X^2 + 2 X^3\n0\n1 + 14 X + 7 X^2 + X^3\n0\n\
        9 + 5 X + 11 X^2 + X^3\n0\n10 + 4 X + 10 X^2 + 7 X^3\n0\n\
        14 + 13 X + 10 X^2 + 8 X^3\n",
        0,
    ),
    (
        b"  field gl\nput 0 1\nput 01 10834717677793214434\n\
        put 2 18446744069414584320\n  put   14   4294967296  \nmul 14 9 03\nshow 0\n\
        show 14\nsqrt 4 8\nmul 4 4 4\nshow 4\nneg 13 4\nput 7 10880205686272644163\n\
        put 10 1\npow 8 14 52\npow 7 3 5\nneg 11 0\nshow 11\nshow 3\ninv 15 1\n\
        pow 12 12 4294967296\nfield kb\nshow 03\nmul 01 14 9\nadd 15 7 00\n\
        \x20put   0 0\nshow 1\nfield gl\nneg  5   13\n  sq  3  3\nsub 8 12 10\n\
        show 13\nsq 14 10\nmul 6 11 9\ndbl 4 12\nmul 7 0 2\nshow 4\nneg 11 15\n\
        mul 12 7 9\nsub 2 1 1\nsqrt  1   4 \npow 1 1 2\nshow 1\n\
        put 12 3963093584370952591\npow 6 3 18446744073709551614\nfield f17x4\n\
        sq 9 3\nsqrt 4 12\npow 4 4 2\nshow 4\nsq 1 1\nmul 14 12 00\nfield f2t5\n\
        mul 14 2 4\nmul 14 6 7\nshow 13\n  put   2 00  1   0   00  001  \n\
        sub 11 2 10\nmul 12 15 7\nadd 1 11 0\nshow 11\nshow 8\nshow 1\nshow 6",
        "1\n0\n0\n18446744069414584320\n0\n0\n0\n0\n0\n0\n0\n0\nX + X^4\n0\nX + X^4\n\
        0\n",
        0,
    ),
    (
        b"field z15\nput 0 0\nsqrt 1 0\nsq 2 1\nshow 2\nput 0 1\nsqrt 1 0\nsq 2 1\n\
        show 2\n",
        "0\n1\n",
        0,
    ),
];
