//! Inputs whose texts and statuses were made with the original Rust crate, and checked against a
//! second program that works from the definitions alone. Written by a script out of their list.

/// Lines at the limit of their length, bytes that are no text, and spaces, with the text and the
/// status.
pub static EDGES: [(&[u8], &str, u8); 35] = [
    (&[b'\0'; 256], "line 1: fault 1\n", 1),
    (
        b"field f17\n\
        inv 0 \
        0\n                                                                                      \
        \x20                                                                                     \
        \x20                                                                                    ",
        "line 2: fault 5\n",
        1,
    ),
    (&[b'\0'; 257], "line 1: fault 10\n", 1),
    (
        b"foooooooooooooooooooooooooooooooooooooooooooooooooooooooooooooooooooooooooooooooooooooo\
        ooooooooooooooooooooooooooooooooooooooooooooooooooooooooooooooooooooooooooooooooooooooooo\
        ooooooooooooooooooooooooooooooooooooooooooooooooooooooooooooooooooooooooooooooooooooooooo\
        oooooooooooooooooooooooooooooooooooooo\n",
        "line 1: fault 10\n",
        1,
    ),
    (
        b"xxxxxxxxxxxxxxxxxxxxxxxxxxxxxxxxxxxxxxxxxxxxxxxxxxxxxxxxxxxxxxxxxxxxxxxxxxxxxxxxxxxxxxx\
        xxxxxxxxxxxxxxxxxxxxxxxxxxxxxxxxxxxxxxxxxxxxxxxxxxxxxxxxxxxxxxxxxxxxxxxxxxxxxxxxxxxxxxxxx\
        xxxxxxxxxxxxxxxxxxxxxxxxxxxxxxxxxxxxxxxxxxxxxxxxxxxxxxxxxxxxxxxxxxxxxxxxxxxxxxxx\n",
        "line 1: fault 1\n",
        1,
    ),
    (&[b' '; 256], "", 0),
    (&[b'x'; 256], "line 1: fault 1\n", 1),
    (&[b' '; 257], "line 1: fault 10\n", 1),
    (
        b"                                                                                       \
        \x20                                                                                     \
        \x20                                                                                   \n",
        "line 1: fault 10\n",
        1,
    ),
    (
        b"                                                                                       \
        \x20                                                                                     \
        \x20                                                                                   \n\
        field f17\n",
        "line 1: fault 10\n",
        1,
    ),
    (&[b'x'; 257], "line 1: fault 10\n", 1),
    (
        b"field f17\n\
        inv 0 \
        0                                                                                        \
        \x20                                                                                     \
        \x20                                                                          \n",
        "line 2: fault 5\n",
        1,
    ),
    (&[b'x'; 5000], "line 1: fault 10\n", 1),
    (b"field\rf17\n", "line 1: fault 1\n", 1),
    (b"field f17\n\r\n", "line 2: fault 1\n", 1),
    (
        b"field \
        f17                                                                                      \
        \x20                                                                                     \
        \x20                                                                          \nshow 0\n",
        "0\n",
        0,
    ),
    (b"field f17\nshow 0\n   ", "0\n", 0),
    (
        b"field f17\nshow 0\nshow 0\nshow 0\nshow 0\n\
        show \
        0\n                                                                                      \
        \x20                                                                                     \
        \x20                                                                                    \
        \n",
        "0\n0\n0\n0\n0\nline 7: fault 10\n",
        1,
    ),
    (b"   field    f17   \n  show   0  \n", "0\n", 0),
    (
        b"field f17\n\
        show 0 0 0 0 0 0 0 0 0 0 0 0 0 0 0 0 0 0 0 0 0 0 0 0 0 0 0 0 0 0 0 0 0 0 0 0 0 0 0 0 0 0 \
        0 0 0 0 0 0 0 0 0 0 0 0 0 0 0 0 0 0 0 0 0 0 0 0 0 0 0 0 0 0 0 0 0 0 0 0 0 0 0 0 0 0 0 0 \
        0 0 0 0 0 0 0 0 0 0 0 0 0 0 0 0 0 0 0 0 0 0 0 0 0 0 0 0 0 0 0 0 0 0 0 0 0 0 0 \n",
        "line 2: fault 2\n",
        1,
    ),
    (b"field f17\nshow 0", "0\n", 0),
    (b"field f17\n\0\n", "line 2: fault 1\n", 1),
    (
        b"field f17x8\n\
        put 0 00000000000000000005 00000000000000000005 00000000000000000005 \
        00000000000000000005 00000000000000000005 00000000000000000005 00000000000000000005 \
        00000000000000000005                                                                     \
        \x20             \nshow 0\n",
        "5 + 5 X + 5 X^2 + 5 X^3 + 5 X^4 + 5 X^5 + 5 X^6 + 5 X^7\n",
        0,
    ),
    (
        b"field f17x8\n\
        put 0 00000000000000000005 00000000000000000005 00000000000000000005 \
        00000000000000000005 00000000000000000005 00000000000000000005 00000000000000000005 \
        00000000000000000005\nshow 0\n",
        "5 + 5 X + 5 X^2 + 5 X^3 + 5 X^4 + 5 X^5 + 5 X^6 + 5 X^7\n",
        0,
    ),
    (b"field f17x2\ninv 1 0\n", "line 2: fault 5\n", 1),
    (
        b"field \
        f17\n                                                                                    \
        \x20                                                                                     \
        \x20                                                                               show 0",
        "0\n",
        0,
    ),
    (
        b"field \
        f17\n                                                                                    \
        \x20                                                                                     \
        \x20                                                                               show \
        0\n",
        "0\n",
        0,
    ),
    (
        b"field \
        f17\n                                                                                    \
        \x20                                                                                     \
        \x20                                                                                show \
        0",
        "line 2: fault 10\n",
        1,
    ),
    (b"    \n", "", 0),
    (b"\tfield f17\n", "line 1: fault 1\n", 1),
    (
        b"\xc3\xa9\xc3\xa9\xc3\xa9\xc3\xa9\xc3\xa9\xc3\xa9\xc3\xa9\xc3\xa9\xc3\xa9\xc3\xa9\xc3\
        \xa9\xc3\xa9\xc3\xa9\xc3\xa9\xc3\xa9\xc3\xa9\xc3\xa9\xc3\xa9\xc3\xa9\xc3\xa9\xc3\xa9\xc3\
        \xa9\xc3\xa9\xc3\xa9\xc3\xa9\xc3\xa9\xc3\xa9\xc3\xa9\xc3\xa9\xc3\xa9\xc3\xa9\xc3\xa9\xc3\
        \xa9\xc3\xa9\xc3\xa9\xc3\xa9\xc3\xa9\xc3\xa9\xc3\xa9\xc3\xa9\xc3\xa9\xc3\xa9\xc3\xa9\xc3\
        \xa9\xc3\xa9\xc3\xa9\xc3\xa9\xc3\xa9\xc3\xa9\xc3\xa9\xc3\xa9\xc3\xa9\xc3\xa9\xc3\xa9\xc3\
        \xa9\xc3\xa9\xc3\xa9\xc3\xa9\xc3\xa9\xc3\xa9\xc3\xa9\xc3\xa9\xc3\xa9\xc3\xa9\xc3\xa9\xc3\
        \xa9\xc3\xa9\xc3\xa9\xc3\xa9\xc3\xa9\xc3\xa9\xc3\xa9\xc3\xa9\xc3\xa9\xc3\xa9\xc3\xa9\xc3\
        \xa9\xc3\xa9\xc3\xa9\xc3\xa9\xc3\xa9\xc3\xa9\xc3\xa9\xc3\xa9\xc3\xa9\xc3\xa9\xc3\xa9\xc3\
        \xa9\xc3\xa9\xc3\xa9\xc3\xa9\xc3\xa9\xc3\xa9\xc3\xa9\xc3\xa9\xc3\xa9\xc3\xa9\xc3\xa9\xc3\
        \xa9\xc3\xa9\xc3\xa9\xc3\xa9\xc3\xa9\xc3\xa9\xc3\xa9\xc3\xa9\xc3\xa9\xc3\xa9\xc3\xa9\xc3\
        \xa9\xc3\xa9\xc3\xa9\xc3\xa9\xc3\xa9\xc3\xa9\xc3\xa9\xc3\xa9\xc3\xa9\xc3\xa9\xc3\xa9\xc3\
        \xa9\xc3\xa9\xc3\xa9\xc3\xa9\xc3\xa9\xc3\xa9\xc3\xa9\xc3\xa9\n",
        "line 1: fault 1\n",
        1,
    ),
    (
        b"\xc3\xa9\xc3\xa9\xc3\xa9\xc3\xa9\xc3\xa9\xc3\xa9\xc3\xa9\xc3\xa9\xc3\xa9\xc3\xa9\xc3\
        \xa9\xc3\xa9\xc3\xa9\xc3\xa9\xc3\xa9\xc3\xa9\xc3\xa9\xc3\xa9\xc3\xa9\xc3\xa9\xc3\xa9\xc3\
        \xa9\xc3\xa9\xc3\xa9\xc3\xa9\xc3\xa9\xc3\xa9\xc3\xa9\xc3\xa9\xc3\xa9\xc3\xa9\xc3\xa9\xc3\
        \xa9\xc3\xa9\xc3\xa9\xc3\xa9\xc3\xa9\xc3\xa9\xc3\xa9\xc3\xa9\xc3\xa9\xc3\xa9\xc3\xa9\xc3\
        \xa9\xc3\xa9\xc3\xa9\xc3\xa9\xc3\xa9\xc3\xa9\xc3\xa9\xc3\xa9\xc3\xa9\xc3\xa9\xc3\xa9\xc3\
        \xa9\xc3\xa9\xc3\xa9\xc3\xa9\xc3\xa9\xc3\xa9\xc3\xa9\xc3\xa9\xc3\xa9\xc3\xa9\xc3\xa9\xc3\
        \xa9\xc3\xa9\xc3\xa9\xc3\xa9\xc3\xa9\xc3\xa9\xc3\xa9\xc3\xa9\xc3\xa9\xc3\xa9\xc3\xa9\xc3\
        \xa9\xc3\xa9\xc3\xa9\xc3\xa9\xc3\xa9\xc3\xa9\xc3\xa9\xc3\xa9\xc3\xa9\xc3\xa9\xc3\xa9\xc3\
        \xa9\xc3\xa9\xc3\xa9\xc3\xa9\xc3\xa9\xc3\xa9\xc3\xa9\xc3\xa9\xc3\xa9\xc3\xa9\xc3\xa9\xc3\
        \xa9\xc3\xa9\xc3\xa9\xc3\xa9\xc3\xa9\xc3\xa9\xc3\xa9\xc3\xa9\xc3\xa9\xc3\xa9\xc3\xa9\xc3\
        \xa9\xc3\xa9\xc3\xa9\xc3\xa9\xc3\xa9\xc3\xa9\xc3\xa9\xc3\xa9\xc3\xa9\xc3\xa9\xc3\xa9\xc3\
        \xa9\xc3\xa9\xc3\xa9\xc3\xa9\xc3\xa9\xc3\xa9\xc3\xa9\xc3\xa9x\n",
        "line 1: fault 10\n",
        1,
    ),
    (
        b"6o 9xes2\085l\0sldu0e7x26\t\tsol7 \n\
        fw\re2wd059 4t0e\0u3if27l\r6\r0w0h5pw92683x\r13dl ot\to1lo5pp6 421xph\0stl7f2\xff972\n\
        \r38\t5tdlx\n4l67\rh lteh16fe832p3i\n3i\n\
        dl98u0\ttl\xff56o\n \t109l\r7\xfftelp\r4fud8h0\0\08ffeoss2t\rd69t82dut\xffpp\0e wfp\0\n\
        3o\n\0ipl 08\0u\0 \td7w8\0\te51d351odl2\ri3o\n404\xff94981sfh\n4d7u e5e1",
        "line 1: fault 1\n",
        1,
    ),
    (
        b"wpf6x3x\xffi\r7p\xff\tlo0uus56i\0sw\xff93ie3f\rw55\0\xff2o\no78i\n\
        4\xfff3f\twswust4w3w67w7ouu0l \xff9\0sx\nfs2ll\rpf1ipw43\0uw241we\0pws\xffu6088\n\
        2h4t 44945d57ds\nfth40\xfff78tftxll7t0l7\0\xffff\t\n\
        1 \rfl58\xff078wo071lo84ldlws9 putxx\xffs\t1h1e8we50wd 7ou527i204td0phol4lt8e\th537\n\
        iohp\03us\xff x8w1i\rl\n\tl457\xff\0o83u1whtf9i1\nhh1\n\
        \0460fsw930x83\r1d5\0p\xff\t2f9\xffwuhl\0p 65\02826ud w70t0e\xfflo\t2\n7duhi\n\
        f\0\xff\rd543\r1ou0\0hs\nowx\t84\xffi\xffl2648p wx9\t7",
        "line 1: fault 1\n",
        1,
    ),
    (b"l93", "line 1: fault 1\n", 1),
];

/// Runs at the edges of the rules, most of which end with a fault, with the text and the status.
pub static FAULTS: [(&[u8], &str, u8); 43] = [
    (b"field f17\ninv 0 0\nshow 0\nfoo\n", "line 2: fault 5\n", 1),
    (
        b"field f17x2\nput 0 3 4\nmul 0 0 0\nshow 0\nput 1 2 5\nmul 1 0 1\nshow 1\nsub 0 1 0\n\
        show 0\n",
        "6 + 7 X\n15 + 10 X\n9 + 3 X\n",
        0,
    ),
    (b"\r\n", "line 1: fault 1\n", 1),
    (b"field f17\nadd 0 1 2 3\n", "line 2: fault 2\n", 1),
    (b"field f17\nadd 99 99\n", "line 2: fault 2\n", 1),
    (b"field f17\nshow 16", "line 2: fault 3\n", 1),
    (b"\n\nfield f17\n\n \n\nshow 16\n", "line 7: fault 3\n", 1),
    (b"field f17\nput 0 3\nfield f19\n", "line 3: fault 7\n", 1),
    (b"field f31cx2\n", "line 1: fault 7\n", 1),
    (b"field f17\nfield\n", "line 2: fault 2\n", 1),
    (b"field f17\0\n", "line 1: fault 7\n", 1),
    (b"field nope nope\n", "line 1: fault 2\n", 1),
    (
        b"field f17\nput 0 3\ninv 0 0\nshow 0\nput 0 0\ninv 1 0\nshow 0\n",
        "6\nline 6: fault 5\n",
        1,
    ),
    (b"field f17\ninv 3 3\n", "line 2: fault 5\n", 1),
    (b"\n\n\n\n\n\n\n\n\nfoo", "line 10: fault 1\n", 1),
    (b"add 0 0 0\n", "line 1: fault 7\n", 1),
    (b"\n\n   \ninv 0 0\n", "line 4: fault 7\n", 1),
    (b"put\n", "line 1: fault 7\n", 1),
    (b"show 99\n", "line 1: fault 7\n", 1),
    (
        b"field f17\nput 0 18446744073709551616\n",
        "line 2: fault 4\n",
        1,
    ),
    (b"field f17\nput 0 0x1\n", "line 2: fault 4\n", 1),
    (b"field f17\nput 0 1_0\n", "line 2: fault 4\n", 1),
    (b"field f17\npow 0 0 x\n", "line 2: fault 4\n", 1),
    (
        b"field f17\npow 1 0 00000000000000000000\nshow 1\n",
        "1\n",
        0,
    ),
    (b"field f17\nsqr 0 0\n", "line 2: fault 1\n", 1),
    (b"field f17x4\nput 0 1 x 17 2\n", "line 2: fault 4\n", 1),
    (b"field f17x4\nput 0 1 17 x 2\n", "line 2: fault 4\n", 1),
    (b"field f17\ninv 16 0\n", "line 2: fault 3\n", 1),
    (b"field f17\nshow 0a\n", "line 2: fault 3\n", 1),
    (b"field f17\nput 10 8\nadd 11 10 10\nshow 11\n", "16\n", 0),
    (b"field f17\npow 0 16 x\n", "line 2: fault 3\n", 1),
    (b"field f17\nput 16 x\n", "line 2: fault 3\n", 1),
    (
        b"field f17\nput 5 7\nadd 5 5 5\nshow 5\nmul 5 5 5\nshow 5\nsub 5 5 5\nshow 5\n",
        "14\n9\n0\n",
        0,
    ),
    (b"foo\n", "line 1: fault 1\n", 1),
    (b"field F17\n", "line 1: fault 7\n", 1),
    (b"field z15\ninv 0 0\nshow 0\n", "line 2: fault 5\n", 1),
    (
        b"field f17\nput 00 1\nput  01   16 \nput \nput 2 009\nput 2 0\nadd 10 05 1\nshow 9\n\
        neg 7 2\nsq 10 15\nput 1 13\nadd 8 7 1\n \ninv 4 1\nmul 13 12 13\npow 10 5 0\nshow 10\n\
        mul 15 5 5\ndbl 1 8\ndbl  13 0\nmul 11 13 3\nshow 14\nshow 2\nshow 5\nshow 0\n",
        "line 4: fault 2\n",
        1,
    ),
    (
        b"field f31x3\nput 0 1 20 0\n put  1 23 1 0\nput 2 0 16 30\nsq 10 10\nshow 3\n\
        pow 9 5 9339731012237738955\nsub 12 10 02\nneg 2 10\ndbl 0 1\nshow 10\nshow 2\n\
        mul 13 00 7\nshow 2\n  mul   14   15  7  \n  inv  3  12\nmul 15 10 2\nput 1 1 0 0\n\
        mul 04 10 04\n  m\x02l  10 14   9  \nshow 12\nshow 2\nshow 5\nshow 6\n",
        "0\n0\n0\n0\nline 20: fault 1\n",
        1,
    ),
    (
        b"field f17bx2\nput 0\n 5 0\nput 1 1 16\nput 2 16 0\nadd 12 9 13\n mul0  8 5   03\n\
        mul 13 1 4\nput 12 0 16\nmul 9 6 13\n show 5\n\ninv 7 2\n  inv  14 07  \nmul 2 15 15\n\
        show 5\nput 10 2 16\nmul 9 1 6\nshow 15\nshow 14\nsq 13 4\nshow 1\nshow 4\nshow 2\n\
        show 14\n",
        "line 2: fault 2\n",
        1,
    ),
    (
        b"field f17bx2\nput 3 13 15\nput 4 1 1\nshow 3\ninv 4 3\nshow 4\n",
        "13 + 15 X\nline 5: fault 5\n",
        1,
    ),
    (
        b"field z15x2\nput 3 9 12\nput 4 1 1\nshow 3\ninv 4 3\nshow 4\n",
        "9 + 12 X\nline 5: fault 5\n",
        1,
    ),
    (b"field f17bx2\nput 0 0 0 0\n", "line 2: fault 2\n", 1),
    (
        b"field f17\nput 0 16\nshow 0\nput 1 17\nshow 1\n",
        "16\nline 4: fault 4\n",
        1,
    ),
];

/// Runs that compute, with the text and the status.
pub static VALUES: [(&[u8], &str, u8); 20] = [
    (
        b"field f17x8\nput 0 0 0 0 0 0 0 0 0\nshow 0\nput 0 2 0 0 0 0 0 0 0\nshow 0\n\
        put 0 0 2 0 0 0 0 0 0\nshow 0\nput 0 1 2 0 0 0 0 0 0\nshow 0\nput 0 0 0 2 0 0 0 0 0\n\
        show 0\nput 0 1 0 2 0 0 0 0 0\nshow 0\nput 0 0 16 1 0 0 0 0 0\nshow 0\n\
        put 0 16 16 16 0 0 0 0 0\nshow 0\nput 0 0 0 0 2 0 0 0 0\nshow 0\n\
        put 0 16 0 0 16 0 0 0 0\nshow 0\nput 0 0 2 0 16 0 0 0 0\nshow 0\nput 0 1 2 0 16 0 0 0 0\n\
        show 0\nput 0 0 0 2 2 0 0 0 0\nshow 0\nput 0 16 0 1 16 0 0 0 0\nshow 0\n\
        put 0 0 1 2 2 0 0 0 0\nshow 0\nput 0 1 16 1 2 0 0 0 0\nshow 0\nput 0 0 0 0 0 16 0 0 0\n\
        show 0\nput 0 16 0 0 0 1 0 0 0\nshow 0\nput 0 0 1 0 0 1 0 0 0\nshow 0\n\
        put 0 2 1 0 0 1 0 0 0\nshow 0\nput 0 0 0 1 0 1 0 0 0\nshow 0\nput 0 2 0 2 0 1 0 0 0\n\
        show 0\nput 0 0 1 2 0 2 0 0 0\nshow 0\nput 0 1 1 1 0 2 0 0 0\nshow 0\n\
        put 0 0 0 0 2 16 0 0 0\nshow 0\nput 0 1 0 0 1 2 0 0 0\nshow 0\nput 0 0 16 0 1 2 0 0 0\n\
        show 0\nput 0 1 2 0 2 1 0 0 0\nshow 0\nput 0 0 0 16 1 2 0 0 0\nshow 0\n\
        put 0 2 0 16 16 1 0 0 0\nshow 0\nput 0 0 16 2 1 2 0 0 0\nshow 0\nput 0 2 2 1 1 16 0 0 0\n\
        show 0\nput 0 0 0 0 0 0 1 0 0\nshow 0\nput 0 2 0 0 0 0 1 0 0\nshow 0\n\
        put 0 0 2 0 0 0 1 0 0\nshow 0\nput 0 16 1 0 0 0 16 0 0\nshow 0\nput 0 0 0 16 0 0 16 0 0\n\
        show 0\nput 0 1 0 16 0 0 1 0 0\nshow 0\nput 0 0 2 2 0 0 16 0 0\nshow 0\n\
        put 0 1 1 16 0 0 16 0 0\nshow 0\nput 0 0 0 0 16 0 1 0 0\nshow 0\nput 0 1 0 0 2 0 2 0 0\n\
        show 0\nput 0 0 16 0 16 0 16 0 0\nshow 0\nput 0 2 2 0 16 0 16 0 0\nshow 0\n\
        put 0 0 0 16 2 0 1 0 0\nshow 0\nput 0 16 0 2 1 0 16 0 0\nshow 0\nput 0 0 16 1 2 0 2 0 0\n\
        show 0\nput 0 16 16 2 2 0 16 0 0\nshow 0\nput 0 0 0 0 0 16 2 0 0\nshow 0\n\
        put 0 1 0 0 0 16 16 0 0\nshow 0\nput 0 0 16 0 0 1 16 0 0\nshow 0\n\
        put 0 1 16 0 0 16 2 0 0\nshow 0\nput 0 0 0 16 0 2 2 0 0\nshow 0\nput 0 2 0 1 0 2 1 0 0\n\
        show 0\nput 0 0 16 16 0 1 16 0 0\nshow 0\nput 0 1 16 2 0 2 2 0 0\nshow 0\n\
        put 0 0 0 0 2 2 2 0 0\nshow 0\nput 0 2 0 0 16 2 16 0 0\nshow 0\nput 0 0 1 0 1 2 2 0 0\n\
        show 0\nput 0 2 16 0 1 1 2 0 0\nshow 0\nput 0 0 0 2 1 1 16 0 0\nshow 0\n\
        put 0 2 0 2 2 2 1 0 0\nshow 0\nput 0 0 2 16 1 16 2 0 0\nshow 0\nput 0 2 2 16 2 2 16 0 0\n\
        show 0\n",
        "0\n2\n2 X\n1 + 2 X\n2 X^2\n1 + 2 X^2\n16 X + X^2\n16 + 16 X + 16 X^2\n2 X^3\n\
        16 + 16 X^3\n2 X + 16 X^3\n1 + 2 X + 16 X^3\n2 X^2 + 2 X^3\n16 + X^2 + 16 X^3\n\
        X + 2 X^2 + 2 X^3\n1 + 16 X + X^2 + 2 X^3\n16 X^4\n16 + X^4\nX + X^4\n2 + X + X^4\n\
        X^2 + X^4\n2 + 2 X^2 + X^4\nX + 2 X^2 + 2 X^4\n1 + X + X^2 + 2 X^4\n2 X^3 + 16 X^4\n\
        1 + X^3 + 2 X^4\n16 X + X^3 + 2 X^4\n1 + 2 X + 2 X^3 + X^4\n16 X^2 + X^3 + 2 X^4\n\
        2 + 16 X^2 + 16 X^3 + X^4\n16 X + 2 X^2 + X^3 + 2 X^4\n2 + 2 X + X^2 + X^3 + 16 X^4\n\
        X^5\n2 + X^5\n2 X + X^5\n16 + X + 16 X^5\n16 X^2 + 16 X^5\n1 + 16 X^2 + X^5\n\
        2 X + 2 X^2 + 16 X^5\n1 + X + 16 X^2 + 16 X^5\n16 X^3 + X^5\n1 + 2 X^3 + 2 X^5\n\
        16 X + 16 X^3 + 16 X^5\n2 + 2 X + 16 X^3 + 16 X^5\n16 X^2 + 2 X^3 + X^5\n\
        16 + 2 X^2 + X^3 + 16 X^5\n16 X + X^2 + 2 X^3 + 2 X^5\n\
        16 + 16 X + 2 X^2 + 2 X^3 + 16 X^5\n16 X^4 + 2 X^5\n1 + 16 X^4 + 16 X^5\n\
        16 X + X^4 + 16 X^5\n1 + 16 X + 16 X^4 + 2 X^5\n16 X^2 + 2 X^4 + 2 X^5\n\
        2 + X^2 + 2 X^4 + X^5\n16 X + 16 X^2 + X^4 + 16 X^5\n1 + 16 X + 2 X^2 + 2 X^4 + 2 X^5\n\
        2 X^3 + 2 X^4 + 2 X^5\n2 + 16 X^3 + 2 X^4 + 16 X^5\nX + X^3 + 2 X^4 + 2 X^5\n\
        2 + 16 X + X^3 + X^4 + 2 X^5\n2 X^2 + X^3 + X^4 + 16 X^5\n\
        2 + 2 X^2 + 2 X^3 + 2 X^4 + X^5\n2 X + 16 X^2 + X^3 + 16 X^4 + 2 X^5\n\
        2 + 2 X + 16 X^2 + 2 X^3 + 2 X^4 + 16 X^5\n",
        0,
    ),
    (
        b"field f31\nput 0 1\ninv 1 0\nshow 1\nmul 2 1 0\nshow 2\ninv 3 1\nsub 4 3 0\nshow 4\n\
        put 0 5\ninv 1 0\nshow 1\nmul 2 1 0\nshow 2\ninv 3 1\nsub 4 3 0\nshow 4\nput 0 25\n\
        inv 1 0\nshow 1\nmul 2 1 0\nshow 2\ninv 3 1\nsub 4 3 0\nshow 4\nput 0 30\ninv 1 0\n\
        show 1\nmul 2 1 0\nshow 2\ninv 3 1\nsub 4 3 0\nshow 4\nput 0 16\ninv 1 0\nshow 1\n\
        mul 2 1 0\nshow 2\ninv 3 1\nsub 4 3 0\nshow 4\nput 0 30\ninv 1 0\nshow 1\nmul 2 1 0\n\
        show 2\ninv 3 1\nsub 4 3 0\nshow 4\nput 0 30\ninv 1 0\nshow 1\nmul 2 1 0\nshow 2\n\
        inv 3 1\nsub 4 3 0\nshow 4\nput 0 1\ninv 1 0\nshow 1\nmul 2 1 0\nshow 2\ninv 3 1\n\
        sub 4 3 0\nshow 4\nput 0 1\ninv 1 0\nshow 1\nmul 2 1 0\nshow 2\ninv 3 1\nsub 4 3 0\n\
        show 4\nput 0 30\ninv 1 0\nshow 1\nmul 2 1 0\nshow 2\ninv 3 1\nsub 4 3 0\nshow 4\n\
        put 0 30\ninv 1 0\nshow 1\nmul 2 1 0\nshow 2\ninv 3 1\nsub 4 3 0\nshow 4\nput 0 21\n\
        inv 1 0\nshow 1\nmul 2 1 0\nshow 2\ninv 3 1\nsub 4 3 0\nshow 4\nput 0 13\ninv 1 0\n\
        show 1\nmul 2 1 0\nshow 2\ninv 3 1\nsub 4 3 0\nshow 4\nput 0 30\ninv 1 0\nshow 1\n\
        mul 2 1 0\nshow 2\ninv 3 1\nsub 4 3 0\nshow 4\nput 0 30\ninv 1 0\nshow 1\nmul 2 1 0\n\
        show 2\ninv 3 1\nsub 4 3 0\nshow 4\nput 0 20\ninv 1 0\nshow 1\nmul 2 1 0\nshow 2\n\
        inv 3 1\nsub 4 3 0\nshow 4\nput 0 20\ninv 1 0\nshow 1\nmul 2 1 0\nshow 2\ninv 3 1\n\
        sub 4 3 0\nshow 4\nput 0 22\ninv 1 0\nshow 1\nmul 2 1 0\nshow 2\ninv 3 1\nsub 4 3 0\n\
        show 4\nput 0 14\ninv 1 0\nshow 1\nmul 2 1 0\nshow 2\ninv 3 1\nsub 4 3 0\nshow 4\n\
        put 0 12\ninv 1 0\nshow 1\nmul 2 1 0\nshow 2\ninv 3 1\nsub 4 3 0\nshow 4\nput 0 23\n\
        inv 1 0\nshow 1\nmul 2 1 0\nshow 2\ninv 3 1\nsub 4 3 0\nshow 4\nput 0 15\ninv 1 0\n\
        show 1\nmul 2 1 0\nshow 2\ninv 3 1\nsub 4 3 0\nshow 4\nput 0 1\ninv 1 0\nshow 1\n\
        mul 2 1 0\nshow 2\ninv 3 1\nsub 4 3 0\nshow 4\nput 0 6\ninv 1 0\nshow 1\nmul 2 1 0\n\
        show 2\ninv 3 1\nsub 4 3 0\nshow 4\nput 0 30\ninv 1 0\nshow 1\nmul 2 1 0\nshow 2\n\
        inv 3 1\nsub 4 3 0\nshow 4\n",
        "1\n1\n0\n25\n1\n0\n5\n1\n0\n30\n1\n0\n2\n1\n0\n30\n1\n0\n30\n1\n0\n1\n1\n0\n1\n1\n0\n\
        30\n1\n0\n30\n1\n0\n3\n1\n0\n12\n1\n0\n30\n1\n0\n30\n1\n0\n14\n1\n0\n14\n1\n0\n24\n1\n0\n\
        20\n1\n0\n13\n1\n0\n27\n1\n0\n29\n1\n0\n1\n1\n0\n26\n1\n0\n30\n1\n0\n",
        0,
    ),
    (
        b"field f17bx2\nput 0 0 0\npow 1 0 0\nshow 1\npow 1 0 1\nshow 1\npow 1 0 2\nshow 1\n\
        pow 1 0 3\nshow 1\npow 1 0 16\nshow 1\npow 1 0 17\nshow 1\npow 1 0 288\nshow 1\n\
        pow 1 0 289\nshow 1\npow 1 0 4294967296\nshow 1\npow 1 0 9223372036854775808\nshow 1\n\
        pow 1 0 18446744073709551614\nshow 1\npow 1 0 18446744073709551615\nshow 1\nput 0 1 0\n\
        pow 1 0 0\nshow 1\npow 1 0 1\nshow 1\npow 1 0 2\nshow 1\npow 1 0 3\nshow 1\npow 1 0 16\n\
        show 1\npow 1 0 17\nshow 1\npow 1 0 288\nshow 1\npow 1 0 289\nshow 1\n\
        pow 1 0 4294967296\nshow 1\npow 1 0 9223372036854775808\nshow 1\n\
        pow 1 0 18446744073709551614\nshow 1\npow 1 0 18446744073709551615\nshow 1\nput 0 16 16\n\
        pow 1 0 0\nshow 1\npow 1 0 1\nshow 1\npow 1 0 2\nshow 1\npow 1 0 3\nshow 1\npow 1 0 16\n\
        show 1\npow 1 0 17\nshow 1\npow 1 0 288\nshow 1\npow 1 0 289\nshow 1\n\
        pow 1 0 4294967296\nshow 1\npow 1 0 9223372036854775808\nshow 1\n\
        pow 1 0 18446744073709551614\nshow 1\npow 1 0 18446744073709551615\nshow 1\nput 0 0 1\n\
        pow 1 0 0\nshow 1\npow 1 0 1\nshow 1\npow 1 0 2\nshow 1\npow 1 0 3\nshow 1\npow 1 0 16\n\
        show 1\npow 1 0 17\nshow 1\npow 1 0 288\nshow 1\npow 1 0 289\nshow 1\n\
        pow 1 0 4294967296\nshow 1\npow 1 0 9223372036854775808\nshow 1\n\
        pow 1 0 18446744073709551614\nshow 1\npow 1 0 18446744073709551615\nshow 1\nput 0 15 15\n\
        pow 1 0 0\nshow 1\npow 1 0 1\nshow 1\npow 1 0 2\nshow 1\npow 1 0 3\nshow 1\npow 1 0 16\n\
        show 1\npow 1 0 17\nshow 1\npow 1 0 288\nshow 1\npow 1 0 289\nshow 1\n\
        pow 1 0 4294967296\nshow 1\npow 1 0 9223372036854775808\nshow 1\n\
        pow 1 0 18446744073709551614\nshow 1\npow 1 0 18446744073709551615\nshow 1\n",
        "1\n0\n0\n0\n0\n0\n0\n0\n0\n0\n0\n0\n1\n1\n1\n1\n1\n1\n1\n1\n1\n1\n1\n1\n1\n16 + 16 X\n\
        5 + 2 X\n4 + 10 X\n1\n16 + 16 X\n1\n16 + 16 X\n1\n1\n10 + 13 X\n6 + 11 X\n1\nX\n4\n4 X\n\
        1\nX\n1\nX\n1\n1\n13\n13 X\n1\n15 + 15 X\n3 + 8 X\n15 + 12 X\n1\n15 + 15 X\n1\n\
        15 + 15 X\n1\n1\n11 + 16 X\n3 + 14 X\n",
        0,
    ),
    (
        b"field bb\nput 0 1\n  put  1   0  \nput 2 00000000002013265920\nsq 13 11\nsq 3   14\n\
        pow 11 12 9223372036854775808\nadd 7 14 3\nput 0 237239173\n \nmul 0 1 5\nshow   10  \n\
        show 7\nshow 11\nshow 9\nshow 2\n",
        "0\n0\n0\n0\n2013265920\n",
        0,
    ),
    (
        b"  field  bbx4 \nput 0 2013265920 0 1 0\nput 1 1 1071092309 0 2013265920\n\
        put 2 1445396243 2013265920 1 1006632961\n  show 11\ninv 02 7\nshow 1\nshow 9\nshow 2\n\
        show 15\n",
        "0\nline 6: fault 5\n",
        1,
    ),
    (
        b"field f17x2\n  put  0 16   16  \nput 1 1 00000000000000000016\nput 02 16 9\n\
        mul 0 8 02\nadd 1 15 1\n inv  5   8\nshow 9\nshow 12\nshow 14\nshow 2",
        "line 7: fault 5\n",
        1,
    ),
    (
        b" field  f17x8 \n put   0   0   12   10 16   16 9   3  1  \n put   1 16  0 13 009   6 \
        15 16   0 \nput 2 1 16 9 16 9 16 16 0\n\nput 6 16 2 16 1 14 006 10 16\n\
        pow 7 13 6975757441\ninv 13 0\n  sq  09 8\nshow 1\n inv  14   3\nshow 12\nshow 15\n\
        show 14\nshow 9\n",
        "16 + 13 X^2 + 9 X^3 + 6 X^4 + 15 X^5 + 16 X^6\nline 11: fault 5\n",
        1,
    ),
    (
        b"field f31\nput 00 30\nput 1 27\nput 02 0\nshow 7\n  show 0\nmul 0 8 14\nshow 2\n\
        dbl 10 15\nmul 09 15 13\nsq 5 9\nmul 09 2 8\nput   6  22\nmul 7 14 0\nshow 3\nmul 5 3 2\n\
        add 0 08 8\npow  7   15  2 \nmul 15 2 11\nsq 10 15\ndbl 1 3\n show   5 \n\
        pow 11 11 3\n  \npow 10 2 31\nshow 15\nshow 6\nshow 3\nshow 0\n",
        "0\n30\n0\n0\n0\n0\n22\n0\n0\n",
        0,
    ),
    (
        b"field f31x3\nput 0 20 30 30\nput 01 30 16 30\nput 02 2 0 10\n\n sub 03  9   14  \n\
        show 1\nmul 10 08 10\n\nsub 7 0 10\ninv 2 00\nsub 13 8 5\n\
        put 6 1 00000000000000000030 23\nsq 09 2\nshow 6\npow 5 12 01\n\
        inv 6 0 \n  mul  13   3  3 \ndbl 08 14\nshow 8\nadd 1 8 12\nput 1 1 0 0\n show 3 \n\
        mul 1 00 14\nput 2 0 1 00000000000000000002\nshow 8\nshow 14\nshow 13\nshow 7",
        "30 + 16 X + 30 X^2\n1 + 30 X + 23 X^2\n0\n0\n0\n0\n0\n20 + 30 X + 30 X^2\n",
        0,
    ),
    (
        b"field f31x5\nput 00 1 1 16 0 5\nput 1 2 25 30 29 30\nput 2 13 0 1 1 9\nshow 9\n\
        neg 0 00\nput 14 011 0 0 28 29\npow 5 15 32\nsq 3 10\nput 11 0 0 30 001 1\nmul 7 1 6\n\
        mul 13 9 9\nneg 0 13\nneg 15 13\ndbl 13 15\nshow 10\nadd 6 1 1\nsq 4 1\n\
        show 7\n inv   3   12\nshow 11\nshow 12\nshow 3\nshow 5",
        "0\n0\n0\nline 20: fault 5\n",
        1,
    ),
    (
        b"  field kb  \nput   0  2130706432  \nput 1 2130706432\nput 2 1\ninv 1 0\n\
        add   07   15   2 \ndbl 4 10\nsq 1 6\nadd 2 11 4\nput 03 2130706432\nshow 1\nshow 6\n\
        show 3\nshow 4\nshow 2\nshow 14\n",
        "0\n0\n2130706432\n0\n0\n0\n",
        0,
    ),
    (
        b"field z15\nput 0 10\nput 01 014\n put  2 1\nmul 06 4 4\n show  5 \n put   2   14 \n\
        sub 11 4 1\nneg 00 03\nmul 7 10 06\nshow 15\nput 8 00000000000000000005\nshow 15\n\
        show 12\nshow 13\nshow 9\n",
        "0\n0\n0\n0\n0\n0\n",
        0,
    ),
    (
        b"field z15x2\nput 0 0 0\nsq 1 0\nshow 1\nput 0 0 1\nsq 1 0\nshow 1\nput 0 0 2\nsq 1 0\n\
        show 1\nput 0 0 3\nsq 1 0\nshow 1\nput 0 0 4\nsq 1 0\nshow 1\nput 0 0 5\nsq 1 0\nshow 1\n\
        put 0 0 6\nsq 1 0\nshow 1\nput 0 0 7\nsq 1 0\nshow 1\nput 0 0 8\nsq 1 0\nshow 1\n\
        put 0 0 9\nsq 1 0\nshow 1\nput 0 0 10\nsq 1 0\nshow 1\nput 0 0 11\nsq 1 0\nshow 1\n\
        put 0 0 12\nsq 1 0\nshow 1\nput 0 0 13\nsq 1 0\nshow 1\nput 0 0 14\nsq 1 0\nshow 1\n\
        put 0 1 0\nsq 1 0\nshow 1\nput 0 1 1\nsq 1 0\nshow 1\nput 0 1 2\nsq 1 0\nshow 1\n\
        put 0 1 3\nsq 1 0\nshow 1\nput 0 1 4\nsq 1 0\nshow 1\nput 0 1 5\nsq 1 0\nshow 1\n\
        put 0 1 6\nsq 1 0\nshow 1\nput 0 1 7\nsq 1 0\nshow 1\nput 0 1 8\nsq 1 0\nshow 1\n\
        put 0 1 9\nsq 1 0\nshow 1\nput 0 1 10\nsq 1 0\nshow 1\nput 0 1 11\nsq 1 0\nshow 1\n\
        put 0 1 12\nsq 1 0\nshow 1\nput 0 1 13\nsq 1 0\nshow 1\nput 0 1 14\nsq 1 0\nshow 1\n\
        put 0 2 0\nsq 1 0\nshow 1\nput 0 2 1\nsq 1 0\nshow 1\nput 0 2 2\nsq 1 0\nshow 1\n\
        put 0 2 3\nsq 1 0\nshow 1\nput 0 2 4\nsq 1 0\nshow 1\nput 0 2 5\nsq 1 0\nshow 1\n\
        put 0 2 6\nsq 1 0\nshow 1\nput 0 2 7\nsq 1 0\nshow 1\nput 0 2 8\nsq 1 0\nshow 1\n\
        put 0 2 9\nsq 1 0\nshow 1\nput 0 2 10\nsq 1 0\nshow 1\nput 0 2 11\nsq 1 0\nshow 1\n\
        put 0 2 12\nsq 1 0\nshow 1\nput 0 2 13\nsq 1 0\nshow 1\nput 0 2 14\nsq 1 0\nshow 1\n\
        put 0 3 0\nsq 1 0\nshow 1\nput 0 3 1\nsq 1 0\nshow 1\nput 0 3 2\nsq 1 0\nshow 1\n\
        put 0 3 3\nsq 1 0\nshow 1\nput 0 3 4\nsq 1 0\nshow 1\nput 0 3 5\nsq 1 0\nshow 1\n\
        put 0 3 6\nsq 1 0\nshow 1\nput 0 3 7\nsq 1 0\nshow 1\nput 0 3 8\nsq 1 0\nshow 1\n\
        put 0 3 9\nsq 1 0\nshow 1\nput 0 3 10\nsq 1 0\nshow 1\nput 0 3 11\nsq 1 0\nshow 1\n\
        put 0 3 12\nsq 1 0\nshow 1\nput 0 3 13\nsq 1 0\nshow 1\nput 0 3 14\nsq 1 0\nshow 1\n\
        put 0 4 0\nsq 1 0\nshow 1\nput 0 4 1\nsq 1 0\nshow 1\nput 0 4 2\nsq 1 0\nshow 1\n\
        put 0 4 3\nsq 1 0\nshow 1\nput 0 4 4\nsq 1 0\nshow 1\nput 0 4 5\nsq 1 0\nshow 1\n\
        put 0 4 6\nsq 1 0\nshow 1\nput 0 4 7\nsq 1 0\nshow 1\nput 0 4 8\nsq 1 0\nshow 1\n\
        put 0 4 9\nsq 1 0\nshow 1\nput 0 4 10\nsq 1 0\nshow 1\nput 0 4 11\nsq 1 0\nshow 1\n\
        put 0 4 12\nsq 1 0\nshow 1\nput 0 4 13\nsq 1 0\nshow 1\nput 0 4 14\nsq 1 0\nshow 1\n\
        put 0 5 0\nsq 1 0\nshow 1\nput 0 5 1\nsq 1 0\nshow 1\nput 0 5 2\nsq 1 0\nshow 1\n\
        put 0 5 3\nsq 1 0\nshow 1\nput 0 5 4\nsq 1 0\nshow 1\nput 0 5 5\nsq 1 0\nshow 1\n\
        put 0 5 6\nsq 1 0\nshow 1\nput 0 5 7\nsq 1 0\nshow 1\nput 0 5 8\nsq 1 0\nshow 1\n\
        put 0 5 9\nsq 1 0\nshow 1\nput 0 5 10\nsq 1 0\nshow 1\nput 0 5 11\nsq 1 0\nshow 1\n\
        put 0 5 12\nsq 1 0\nshow 1\nput 0 5 13\nsq 1 0\nshow 1\nput 0 5 14\nsq 1 0\nshow 1\n\
        put 0 6 0\nsq 1 0\nshow 1\nput 0 6 1\nsq 1 0\nshow 1\nput 0 6 2\nsq 1 0\nshow 1\n\
        put 0 6 3\nsq 1 0\nshow 1\nput 0 6 4\nsq 1 0\nshow 1\nput 0 6 5\nsq 1 0\nshow 1\n\
        put 0 6 6\nsq 1 0\nshow 1\nput 0 6 7\nsq 1 0\nshow 1\nput 0 6 8\nsq 1 0\nshow 1\n\
        put 0 6 9\nsq 1 0\nshow 1\nput 0 6 10\nsq 1 0\nshow 1\nput 0 6 11\nsq 1 0\nshow 1\n\
        put 0 6 12\nsq 1 0\nshow 1\nput 0 6 13\nsq 1 0\nshow 1\nput 0 6 14\nsq 1 0\nshow 1\n\
        put 0 7 0\nsq 1 0\nshow 1\nput 0 7 1\nsq 1 0\nshow 1\nput 0 7 2\nsq 1 0\nshow 1\n\
        put 0 7 3\nsq 1 0\nshow 1\nput 0 7 4\nsq 1 0\nshow 1\nput 0 7 5\nsq 1 0\nshow 1\n\
        put 0 7 6\nsq 1 0\nshow 1\nput 0 7 7\nsq 1 0\nshow 1\nput 0 7 8\nsq 1 0\nshow 1\n\
        put 0 7 9\nsq 1 0\nshow 1\nput 0 7 10\nsq 1 0\nshow 1\nput 0 7 11\nsq 1 0\nshow 1\n\
        put 0 7 12\nsq 1 0\nshow 1\nput 0 7 13\nsq 1 0\nshow 1\nput 0 7 14\nsq 1 0\nshow 1\n\
        put 0 8 0\nsq 1 0\nshow 1\nput 0 8 1\nsq 1 0\nshow 1\nput 0 8 2\nsq 1 0\nshow 1\n\
        put 0 8 3\nsq 1 0\nshow 1\nput 0 8 4\nsq 1 0\nshow 1\nput 0 8 5\nsq 1 0\nshow 1\n\
        put 0 8 6\nsq 1 0\nshow 1\nput 0 8 7\nsq 1 0\nshow 1\nput 0 8 8\nsq 1 0\nshow 1\n\
        put 0 8 9\nsq 1 0\nshow 1\nput 0 8 10\nsq 1 0\nshow 1\nput 0 8 11\nsq 1 0\nshow 1\n\
        put 0 8 12\nsq 1 0\nshow 1\nput 0 8 13\nsq 1 0\nshow 1\nput 0 8 14\nsq 1 0\nshow 1\n\
        put 0 9 0\nsq 1 0\nshow 1\nput 0 9 1\nsq 1 0\nshow 1\nput 0 9 2\nsq 1 0\nshow 1\n\
        put 0 9 3\nsq 1 0\nshow 1\nput 0 9 4\nsq 1 0\nshow 1\nput 0 9 5\nsq 1 0\nshow 1\n\
        put 0 9 6\nsq 1 0\nshow 1\nput 0 9 7\nsq 1 0\nshow 1\nput 0 9 8\nsq 1 0\nshow 1\n\
        put 0 9 9\nsq 1 0\nshow 1\nput 0 9 10\nsq 1 0\nshow 1\nput 0 9 11\nsq 1 0\nshow 1\n\
        put 0 9 12\nsq 1 0\nshow 1\nput 0 9 13\nsq 1 0\nshow 1\nput 0 9 14\nsq 1 0\nshow 1\n\
        put 0 10 0\nsq 1 0\nshow 1\nput 0 10 1\nsq 1 0\nshow 1\nput 0 10 2\nsq 1 0\nshow 1\n\
        put 0 10 3\nsq 1 0\nshow 1\nput 0 10 4\nsq 1 0\nshow 1\nput 0 10 5\nsq 1 0\nshow 1\n\
        put 0 10 6\nsq 1 0\nshow 1\nput 0 10 7\nsq 1 0\nshow 1\nput 0 10 8\nsq 1 0\nshow 1\n\
        put 0 10 9\nsq 1 0\nshow 1\nput 0 10 10\nsq 1 0\nshow 1\nput 0 10 11\nsq 1 0\nshow 1\n\
        put 0 10 12\nsq 1 0\nshow 1\nput 0 10 13\nsq 1 0\nshow 1\nput 0 10 14\nsq 1 0\nshow 1\n\
        put 0 11 0\nsq 1 0\nshow 1\nput 0 11 1\nsq 1 0\nshow 1\nput 0 11 2\nsq 1 0\nshow 1\n\
        put 0 11 3\nsq 1 0\nshow 1\nput 0 11 4\nsq 1 0\nshow 1\nput 0 11 5\nsq 1 0\nshow 1\n\
        put 0 11 6\nsq 1 0\nshow 1\nput 0 11 7\nsq 1 0\nshow 1\nput 0 11 8\nsq 1 0\nshow 1\n\
        put 0 11 9\nsq 1 0\nshow 1\nput 0 11 10\nsq 1 0\nshow 1\nput 0 11 11\nsq 1 0\nshow 1\n\
        put 0 11 12\nsq 1 0\nshow 1\nput 0 11 13\nsq 1 0\nshow 1\nput 0 11 14\nsq 1 0\nshow 1\n\
        put 0 12 0\nsq 1 0\nshow 1\nput 0 12 1\nsq 1 0\nshow 1\nput 0 12 2\nsq 1 0\nshow 1\n\
        put 0 12 3\nsq 1 0\nshow 1\nput 0 12 4\nsq 1 0\nshow 1\nput 0 12 5\nsq 1 0\nshow 1\n\
        put 0 12 6\nsq 1 0\nshow 1\nput 0 12 7\nsq 1 0\nshow 1\nput 0 12 8\nsq 1 0\nshow 1\n\
        put 0 12 9\nsq 1 0\nshow 1\nput 0 12 10\nsq 1 0\nshow 1\nput 0 12 11\nsq 1 0\nshow 1\n\
        put 0 12 12\nsq 1 0\nshow 1\nput 0 12 13\nsq 1 0\nshow 1\nput 0 12 14\nsq 1 0\nshow 1\n\
        put 0 13 0\nsq 1 0\nshow 1\nput 0 13 1\nsq 1 0\nshow 1\nput 0 13 2\nsq 1 0\nshow 1\n\
        put 0 13 3\nsq 1 0\nshow 1\nput 0 13 4\nsq 1 0\nshow 1\nput 0 13 5\nsq 1 0\nshow 1\n\
        put 0 13 6\nsq 1 0\nshow 1\nput 0 13 7\nsq 1 0\nshow 1\nput 0 13 8\nsq 1 0\nshow 1\n\
        put 0 13 9\nsq 1 0\nshow 1\nput 0 13 10\nsq 1 0\nshow 1\nput 0 13 11\nsq 1 0\nshow 1\n\
        put 0 13 12\nsq 1 0\nshow 1\nput 0 13 13\nsq 1 0\nshow 1\nput 0 13 14\nsq 1 0\nshow 1\n\
        put 0 14 0\nsq 1 0\nshow 1\nput 0 14 1\nsq 1 0\nshow 1\nput 0 14 2\nsq 1 0\nshow 1\n\
        put 0 14 3\nsq 1 0\nshow 1\nput 0 14 4\nsq 1 0\nshow 1\nput 0 14 5\nsq 1 0\nshow 1\n\
        put 0 14 6\nsq 1 0\nshow 1\nput 0 14 7\nsq 1 0\nshow 1\nput 0 14 8\nsq 1 0\nshow 1\n\
        put 0 14 9\nsq 1 0\nshow 1\nput 0 14 10\nsq 1 0\nshow 1\nput 0 14 11\nsq 1 0\nshow 1\n\
        put 0 14 12\nsq 1 0\nshow 1\nput 0 14 13\nsq 1 0\nshow 1\nput 0 14 14\nsq 1 0\nshow 1\n",
        "0\n2\n8\n3\n2\n5\n12\n8\n8\n12\n5\n2\n3\n8\n2\n1\n3 + 2 X\n9 + 4 X\n4 + 6 X\n3 + 8 X\n\
        6 + 10 X\n13 + 12 X\n9 + 14 X\n9 + X\n13 + 3 X\n6 + 5 X\n3 + 7 X\n4 + 9 X\n9 + 11 X\n\
        3 + 13 X\n4\n6 + 4 X\n12 + 8 X\n7 + 12 X\n6 + X\n9 + 5 X\n1 + 9 X\n12 + 13 X\n12 + 2 X\n\
        1 + 6 X\n9 + 10 X\n6 + 14 X\n7 + 3 X\n12 + 7 X\n6 + 11 X\n9\n11 + 6 X\n2 + 12 X\n\
        12 + 3 X\n11 + 9 X\n14\n6 + 6 X\n2 + 12 X\n2 + 3 X\n6 + 9 X\n14\n11 + 6 X\n12 + 12 X\n\
        2 + 3 X\n11 + 9 X\n1\n3 + 8 X\n9 + X\n4 + 9 X\n3 + 2 X\n6 + 10 X\n13 + 3 X\n9 + 11 X\n\
        9 + 4 X\n13 + 12 X\n6 + 5 X\n3 + 13 X\n4 + 6 X\n9 + 14 X\n3 + 7 X\n10\n12 + 10 X\n\
        3 + 5 X\n13\n12 + 10 X\n5 X\n7\n3 + 10 X\n3 + 5 X\n7\n10 X\n12 + 5 X\n13\n3 + 10 X\n\
        12 + 5 X\n6\n8 + 12 X\n14 + 9 X\n9 + 6 X\n8 + 3 X\n11\n3 + 12 X\n14 + 9 X\n14 + 6 X\n\
        3 + 3 X\n11\n8 + 12 X\n9 + 9 X\n14 + 6 X\n8 + 3 X\n4\n6 + 14 X\n12 + 13 X\n7 + 12 X\n\
        6 + 11 X\n9 + 10 X\n1 + 9 X\n12 + 8 X\n12 + 7 X\n1 + 6 X\n9 + 5 X\n6 + 4 X\n7 + 3 X\n\
        12 + 2 X\n6 + X\n4\n6 + X\n12 + 2 X\n7 + 3 X\n6 + 4 X\n9 + 5 X\n1 + 6 X\n12 + 7 X\n\
        12 + 8 X\n1 + 9 X\n9 + 10 X\n6 + 11 X\n7 + 12 X\n12 + 13 X\n6 + 14 X\n6\n8 + 3 X\n\
        14 + 6 X\n9 + 9 X\n8 + 12 X\n11\n3 + 3 X\n14 + 6 X\n14 + 9 X\n3 + 12 X\n11\n8 + 3 X\n\
        9 + 6 X\n14 + 9 X\n8 + 12 X\n10\n12 + 5 X\n3 + 10 X\n13\n12 + 5 X\n10 X\n7\n3 + 5 X\n\
        3 + 10 X\n7\n5 X\n12 + 10 X\n13\n3 + 5 X\n12 + 10 X\n1\n3 + 7 X\n9 + 14 X\n4 + 6 X\n\
        3 + 13 X\n6 + 5 X\n13 + 12 X\n9 + 4 X\n9 + 11 X\n13 + 3 X\n6 + 10 X\n3 + 2 X\n4 + 9 X\n\
        9 + X\n3 + 8 X\n9\n11 + 9 X\n2 + 3 X\n12 + 12 X\n11 + 6 X\n14\n6 + 9 X\n2 + 3 X\n\
        2 + 12 X\n6 + 6 X\n14\n11 + 9 X\n12 + 3 X\n2 + 12 X\n11 + 6 X\n4\n6 + 11 X\n12 + 7 X\n\
        7 + 3 X\n6 + 14 X\n9 + 10 X\n1 + 6 X\n12 + 2 X\n12 + 13 X\n1 + 9 X\n9 + 5 X\n6 + X\n\
        7 + 12 X\n12 + 8 X\n6 + 4 X\n1\n3 + 13 X\n9 + 11 X\n4 + 9 X\n3 + 7 X\n6 + 5 X\n13 + 3 X\n\
        9 + X\n9 + 14 X\n13 + 12 X\n6 + 10 X\n3 + 8 X\n4 + 6 X\n9 + 4 X\n3 + 2 X\n",
        0,
    ),
    (
        b"field gl\nput   0 4294967296  \nput 1 15416679796330417933\nput 2 4294967296\ndbl 5 6\n\
        sq 5 13\nput 2 18446744069414584320\nfield z15\nsq 5 15\nshow 7\nsq 12 2\npow 13 06 90\n\
        neg 13 6\npow 04 00 14\nadd 4 15 1\n  neg 7 9 \nshow 2\nadd 15 11 13\nmul 11 15 12\n\
        show 14 \nadd 14 8 3\n  inv 1 03 \nshow 3\nshow 12\nshow 5\nshow 9\n",
        "0\n0\n0\nline 22: fault 5\n",
        1,
    ),
    (
        b"field f31\nput 0 1\ninv 1 0\nshow 1\nput 0 2\ninv 1 0\nshow 1\nput 0 3\ninv 1 0\n\
        show 1\nput 0 4\ninv 1 0\nshow 1\nput 0 5\ninv 1 0\nshow 1\nput 0 6\ninv 1 0\nshow 1\n\
        put 0 7\ninv 1 0\nshow 1\nput 0 8\ninv 1 0\nshow 1\nput 0 9\ninv 1 0\nshow 1\nput 0 10\n\
        inv 1 0\nshow 1\nput 0 11\ninv 1 0\nshow 1\nput 0 12\ninv 1 0\nshow 1\nput 0 13\n\
        inv 1 0\nshow 1\nput 0 14\ninv 1 0\nshow 1\nput 0 15\ninv 1 0\nshow 1\nput 0 16\n\
        inv 1 0\nshow 1\nput 0 17\ninv 1 0\nshow 1\nput 0 18\ninv 1 0\nshow 1\nput 0 19\n\
        inv 1 0\nshow 1\nput 0 20\ninv 1 0\nshow 1\nput 0 21\ninv 1 0\nshow 1\nput 0 22\n\
        inv 1 0\nshow 1\nput 0 23\ninv 1 0\nshow 1\nput 0 24\ninv 1 0\nshow 1\nput 0 25\n\
        inv 1 0\nshow 1\nput 0 26\ninv 1 0\nshow 1\nput 0 27\ninv 1 0\nshow 1\nput 0 28\n\
        inv 1 0\nshow 1\nput 0 29\ninv 1 0\nshow 1\nput 0 30\ninv 1 0\nshow 1\n",
        "1\n16\n21\n8\n25\n26\n9\n4\n7\n28\n17\n13\n12\n20\n29\n2\n11\n19\n18\n14\n3\n24\n27\n\
        22\n5\n6\n23\n10\n15\n30\n",
        0,
    ),
    (
        b"field z15\nput 0 2\ninv 1 0\nshow 1\nmul 1 1 0\nshow 1\n",
        "8\n1\n",
        0,
    ),
    (
        b"field f17t5\nput 00 12 3 1 3 3\nput 1 01 5 000 16 012\nput 2 16 05 16 9 0\n\
        show 4\n  show 15\n sq  2 13\nput 9 9 12 7 1 16\n dbl   6 5\n\
        put 1 9 16 16 1 0\n  sub  12  14  13\ndbl 5 10\nshow 2\n\
        put 2 009 1 16 16 0\nshow  01  \nadd 2 10 12\npow 7 12 16\nshow 13\n  \n\
        dbl 10 8\n neg   5   6\nmul 07 9 11\nshow 3\nshow 4\nshow 5\nsq 12 14\n\
        \x20sub   15   2  10\n   \nmul 4 15 7\nsq 5 2\nsub   13   5   4  \n\
        pow 01 14 3792821456\nshow 5\n  dbl   9  13 \nshow 9\npow 1 6 17\n\
        add 8   13  13\nput 15 16 15 9 5 6\ndbl  01 12 \ndbl 15 11\nneg 05 12\n\
        mul 2 7 10\nput 3 0 00 16 0 2\n  sq   0 8 \nsq 5 10\nneg 4 13\nsub 0 2 14\n\
        put 9 010 7 3 6 0\nneg 7 8\nsq 3 5\nshow 1\nsq 9 4\nput 04 1 16 13 0 16\n\
        put 11 1 14 0 1 16\nshow 15\nput 7 0 15 5 1 1\nshow 4\n \n  mul 4 8  10\n\
        pow 9 15 2\nshow 12\nshow 7\nshow 8\nshow 0\n",
        "0\n0\n0\n9 + 16 X + 16 X^2 + X^3\n0\n0\n0\n0\n0\n0\n0\n0\n\
        1 + 16 X + 13 X^2 + 16 X^4\n0\n15 X + 5 X^2 + X^3 + X^4\n0\n0\n",
        0,
    ),
    (
        b" field   f31c  \nput 0 1 001\nput 1 17 1\nput 02 16 09\npow 9 12 31\n  show   14\n\
        \x20show   01\nshow 0\nneg 4 09\nput 8 21 27\ninv 7 2\nmul 6 13 10\n mul 12  1 6 \n\
        sq 6 2\nput 13 020 15\ninv 2 7\ninv 4 8\npow 15 10 18446744073709551614\nadd 4 9 2\n\
        inv 12 8\ndbl 15 3\nadd 8 3 2\nput 5 4 28\nsub 0 5 5\nput 11  0 13 \nshow 4\ninv 06 1\n\
        \x20inv 8  4\n  sub   0 10 10 \nadd 7 9 2\nsq 12 0\npow  15   8 4\nneg 12 0\n\
        put 5 30 28\npow 6 7 2\npow 7 10 3090955007\npow 10 11 18446744073709551614\nshow 14\n\
        \x20 sq   12  12  \nmul 8 03 3\nshow 11\nshow 9\nshow 6\nshow 2\n",
        "0\n17 + X\n1 + X\n16 + 9 X\n0\n13 X\n0\n20 + 9 X\n16 + 9 X\n",
        0,
    ),
    (
        b"field f31t3\nput 0 016 0 23\nput 1 30 16 0\nput 2 0 30 30\ninv 2 2\n\
        pow 4 10 3\npow 5 2 3\ninv 00 2\nadd 01 6 15\ndbl 6 12\n  inv   13   11\n\
        show 13\nshow 6\nshow 3\nshow 8\n",
        "line 11: fault 5\n",
        1,
    ),
    (b"field f17t5\nput 0 0 0 0 0\n", "line 2: fault 2\n", 1),
];
