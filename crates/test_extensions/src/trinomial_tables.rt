//! Values of extensions by trinomials, from the list that `extension_tables` tells of. Those of `F2T7` are
//! of the second program alone, since the original Rust crate has no such polynomial; the first lines of
//! its inverses and images, its streams and its elements of the base are worked by hand.

/// Calls at `f31t3`.
pub const F31T3: &str = "square;13,16,0;14,13,8
square;1,30,1;30,28,4
square;29,1,2;8,4,28
mul;17,30,0|21,3,20;27,10,27
mul;30,23,28|10,30,30;1,28,13
mul;27,23,0|30,0,22;14,18,5
try_inverse;0,1,0;30,0,1
try_inverse;2,30,1;26,19,8
try_inverse;30,1,1;12,19,25
try_inverse;0,29,1;25,6,18
frobenius;1,0,30;6,2,7
frobenius;25,30,29;8,29,8
frobenius;5,20,19;16,20,18
repeated_frobenius;30,0,0|4;30,0,0
repeated_frobenius;0,30,1|15200807450369842593;0,30,1
repeated_frobenius;10,10,30|20;12,21,27
galois_orbit;0,1,0;0,1,0 27,6,6 4,24,25
galois_orbit;0,23,30;0,23,30 6,16,21 23,23,11
galois_orbit;24,13,30;24,13,30 8,18,23 7,0,9
galois_orbit;13,0,0;13,0,0 13,0,0 13,0,0
Display;1,0,1;1 + X^2
Display;0,0,30;30 X^2
Display;0,1,3;X + 3 X^2
Display;0,0,0;0
Display;9,1,30;9 + X + 30 X^2
Display;0,1,1;X + X^2
Display;0,24,1;24 X + X^2
as_base;27,13,13;None
as_base;0,5,0;None
as_base;0,0,0;0
as_base;30,30,0;None";

/// Calls at `f17t5`.
pub const F17T5: &str = "square;0,13,0,16,16;7,1,11,0,6
square;13,9,16,3,16;8,7,6,16,1
square;1,2,0,8,16;13,0,10,4,12
mul;12,14,16,8,16|1,0,7,16,10;15,6,8,7,0
mul;3,16,13,7,16|2,0,1,16,0;0,7,2,1,11
mul;0,1,14,1,7|0,4,4,0,16;4,14,16,5,10
try_inverse;0,1,0,0,0;0,1,0,0,1
try_inverse;0,1,16,12,1;7,7,16,11,2
try_inverse;15,1,16,5,13;11,13,9,14,2
try_inverse;13,16,0,10,0;3,1,10,16,2
frobenius;0,1,0,0,0;1,3,0,13,14
frobenius;0,0,0,13,14;10,2,8,7,10
frobenius;4,1,0,0,1;15,16,7,7,11
frobenius;1,16,0,0,16;7,1,10,10,6
repeated_frobenius;4,16,0,9,16|4839393727254484599;13,14,3,7,4
repeated_frobenius;0,0,14,14,5|11;5,0,0,11,16
repeated_frobenius;16,11,4,16,16|19;15,10,15,3,2
repeated_frobenius;0,1,0,0,0|0;0,1,0,0,0
repeated_frobenius;0,1,0,0,0|1;1,3,0,13,14
repeated_frobenius;0,1,0,0,0|2;14,11,8,12,1
repeated_frobenius;0,1,0,0,0|3;13,14,9,16,5
repeated_frobenius;0,1,0,0,0|4;6,5,0,10,14
repeated_frobenius;0,1,0,0,0|5;0,1,0,0,0
repeated_frobenius;0,1,0,0,0|6;1,3,0,13,14
repeated_frobenius;0,1,0,0,0|1000000007;14,11,8,12,1
repeated_frobenius;0,1,0,0,0|9223372036854775808;13,14,9,16,5
repeated_frobenius;0,1,0,0,0|10000000000000000000;0,1,0,0,0
repeated_frobenius;0,1,0,0,0|18446744073709551614;6,5,0,10,14
repeated_frobenius;0,1,0,0,0|18446744073709551615;0,1,0,0,0
repeated_frobenius;1,2,3,4,5|0;1,2,3,4,5
repeated_frobenius;1,2,3,4,5|1;3,11,16,13,3
repeated_frobenius;1,2,3,4,5|2;8,6,7,10,13
repeated_frobenius;1,2,3,4,5|3;15,9,5,16,13
repeated_frobenius;1,2,3,4,5|4;0,6,3,8,0
repeated_frobenius;1,2,3,4,5|5;1,2,3,4,5
repeated_frobenius;1,2,3,4,5|6;3,11,16,13,3
repeated_frobenius;1,2,3,4,5|1000000007;8,6,7,10,13
repeated_frobenius;1,2,3,4,5|9223372036854775808;15,9,5,16,13
repeated_frobenius;1,2,3,4,5|10000000000000000000;1,2,3,4,5
repeated_frobenius;1,2,3,4,5|18446744073709551614;0,6,3,8,0
repeated_frobenius;1,2,3,4,5|18446744073709551615;1,2,3,4,5
repeated_frobenius;16,16,16,16,16|0;16,16,16,16,16
repeated_frobenius;16,16,16,16,16|1;7,2,4,1,5
repeated_frobenius;16,16,16,16,16|2;13,0,0,11,5
repeated_frobenius;16,16,16,16,16|3;4,16,2,13,12
repeated_frobenius;16,16,16,16,16|4;9,0,12,10,13
repeated_frobenius;16,16,16,16,16|5;16,16,16,16,16
repeated_frobenius;16,16,16,16,16|6;7,2,4,1,5
repeated_frobenius;16,16,16,16,16|1000000007;13,0,0,11,5
repeated_frobenius;16,16,16,16,16|9223372036854775808;4,16,2,13,12
repeated_frobenius;16,16,16,16,16|10000000000000000000;16,16,16,16,16
repeated_frobenius;16,16,16,16,16|18446744073709551614;9,0,12,10,13
repeated_frobenius;16,16,16,16,16|18446744073709551615;16,16,16,16,16
repeated_frobenius;0,0,0,0,9|0;0,0,0,0,9
repeated_frobenius;0,0,0,0,9|1;5,15,12,14,7
repeated_frobenius;0,0,0,0,9|2;12,10,13,3,5
repeated_frobenius;0,0,0,0,9|3;10,6,7,11,13
repeated_frobenius;0,0,0,0,9|4;7,3,2,6,0
repeated_frobenius;0,0,0,0,9|5;0,0,0,0,9
repeated_frobenius;0,0,0,0,9|6;5,15,12,14,7
repeated_frobenius;0,0,0,0,9|1000000007;12,10,13,3,5
repeated_frobenius;0,0,0,0,9|9223372036854775808;10,6,7,11,13
repeated_frobenius;0,0,0,0,9|10000000000000000000;0,0,0,0,9
repeated_frobenius;0,0,0,0,9|18446744073709551614;7,3,2,6,0
repeated_frobenius;0,0,0,0,9|18446744073709551615;0,0,0,0,9
repeated_frobenius;7,0,0,0,0|0;7,0,0,0,0
repeated_frobenius;7,0,0,0,0|1;7,0,0,0,0
repeated_frobenius;7,0,0,0,0|2;7,0,0,0,0
repeated_frobenius;7,0,0,0,0|3;7,0,0,0,0
repeated_frobenius;7,0,0,0,0|4;7,0,0,0,0
repeated_frobenius;7,0,0,0,0|5;7,0,0,0,0
repeated_frobenius;7,0,0,0,0|6;7,0,0,0,0
repeated_frobenius;7,0,0,0,0|1000000007;7,0,0,0,0
repeated_frobenius;7,0,0,0,0|9223372036854775808;7,0,0,0,0
repeated_frobenius;7,0,0,0,0|10000000000000000000;7,0,0,0,0
repeated_frobenius;7,0,0,0,0|18446744073709551614;7,0,0,0,0
repeated_frobenius;7,0,0,0,0|18446744073709551615;7,0,0,0,0
galois_orbit;0,5,4,16,0;0,5,4,16,0 13,7,5,15,3 8,12,4,1,15 5,7,2,13,13 11,3,2,6,3
galois_orbit;13,6,0,1,9;13,6,0,1,9 14,10,9,14,10 5,2,7,16,3 1,1,2,15,11 12,15,16,5,1
galois_orbit;1,0,0,14,16;1,0,0,14,16 4,5,2,2,8 0,15,0,1,14 9,0,10,16,2 0,14,5,1,11
Display;16,16,1,0,12;16 + 16 X + X^2 + 12 X^4
Display;6,16,1,1,0;6 + 16 X + X^2 + X^3
Display;16,14,2,13,5;16 + 14 X + 2 X^2 + 13 X^3 + 5 X^4
Display;1,10,0,13,14;1 + 10 X + 13 X^3 + 14 X^4
as_base;11,1,1,15,0;None
as_base;5,4,2,7,14;None
as_base;0,8,15,16,16;None";

/// Calls at `f2t5`.
pub const F2T5: &str = "square;0,0,1,0,0;0,0,0,0,1
square;0,0,0,0,1;1,0,1,1,0
square;0,1,1,1,0;0,1,1,1,1
mul;1,1,1,0,1|1,0,1,0,1;1,1,0,0,1
mul;1,1,1,0,1|1,0,0,0,1;1,0,1,0,0
mul;1,1,0,1,0|1,0,0,0,1;0,1,0,1,0
try_inverse;0,1,0,0,0;0,1,0,0,1
try_inverse;0,0,1,1,0;1,1,1,0,0
try_inverse;1,1,1,1,0;1,0,1,1,0
try_inverse;0,0,0,1,1;1,0,0,0,1
try_inverse;0,0,0,1,0;0,1,1,0,1
frobenius;0,1,0,0,0;0,0,1,0,0
frobenius;0,1,1,1,0;0,1,1,1,1
frobenius;0,1,0,0,1;1,0,0,1,0
frobenius;1,0,0,0,0;1,0,0,0,0
repeated_frobenius;0,1,0,1,1|2;1,0,1,0,0
repeated_frobenius;0,0,0,1,0|10;0,0,0,1,0
repeated_frobenius;1,0,0,0,1|6130890601753094915;1,0,0,0,1
galois_orbit;1,0,1,0,1;1,0,1,0,1 0,0,1,1,1 1,1,1,0,1 0,0,0,1,1 1,1,1,0,0
galois_orbit;1,1,0,1,0;1,1,0,1,0 1,1,1,1,0 1,1,1,1,1 0,1,0,0,1 1,0,0,1,0
galois_orbit;1,0,1,1,0;1,0,1,1,0 1,1,0,1,1 0,1,0,0,0 0,0,1,0,0 0,0,0,0,1
Display;1,1,0,0,1;1 + X + X^4
Display;0,1,1,0,0;X + X^2
Display;0,1,0,1,0;X + X^3
as_base;0,0,1,1,1;None
as_base;0,0,1,1,0;None
as_base;0,1,0,1,1;None";

/// Calls at `f2t7`.
pub const F2T7: &str = "square;0,0,0,0,0,0,1;0,0,0,0,0,1,1
square;0,1,1,1,1,1,1;0,1,0,1,0,1,0
square;0,0,0,1,1,0,0;0,1,1,0,0,0,1
square;1,0,0,1,1,1,0;1,1,1,1,1,0,1
square;0,0,1,0,1,1,1;0,1,1,1,0,1,1
square;0,0,0,0,1,0,1;0,1,1,0,0,1,1
mul;0,0,0,0,0,0,1|0,0,0,0,0,0,1;0,0,0,0,0,1,1
mul;0,1,1,1,1,1,1|1,0,1,1,0,1,0;1,1,0,1,1,0,0
mul;0,0,0,1,1,0,0|1,0,0,1,1,0,1;0,1,0,1,0,0,1
mul;1,0,0,1,1,1,0|0,0,1,1,0,0,1;0,1,1,1,0,0,1
mul;0,0,1,0,1,1,1|0,1,1,0,1,0,1;0,1,0,0,0,1,0
mul;0,0,0,0,1,0,1|0,1,1,0,1,1,0;1,1,1,0,0,0,1
try_inverse;0,1,0,0,0,0,0;1,0,0,0,0,0,1
try_inverse;0,0,0,0,0,0,0;None
try_inverse;0,0,0,1,0,1,0;0,0,1,0,0,1,1
try_inverse;0,0,1,0,1,0,0;1,1,0,1,0,0,1
try_inverse;0,0,1,1,1,1,0;1,0,0,1,1,1,0
try_inverse;0,1,0,1,0,0,0;1,0,1,0,1,0,0
try_inverse;0,1,1,0,0,1,0;0,0,0,1,1,1,0
try_inverse;0,1,1,1,1,0,0;0,1,0,0,1,1,1
try_inverse;1,0,0,0,1,1,0;0,0,1,0,1,1,1
try_inverse;1,0,1,0,0,0,0;0,1,0,1,0,1,0
try_inverse;1,0,1,1,0,1,0;1,1,0,1,1,1,1
try_inverse;1,1,0,0,1,0,0;0,0,0,0,1,1,1
try_inverse;1,1,0,1,1,1,0;1,0,0,1,0,0,1
try_inverse;1,1,1,1,0,0,0;1,1,1,0,0,1,1
frobenius;0,0,0,0,1,0,0;0,1,1,0,0,0,0
frobenius;0,0,0,0,0,0,0;0,0,0,0,0,0,0
frobenius;0,0,0,1,0,1,0;0,0,0,1,1,0,1
frobenius;0,0,1,0,1,0,0;0,1,1,0,1,0,0
frobenius;0,0,1,1,1,1,0;0,1,1,1,0,0,1
frobenius;0,1,0,1,0,0,0;0,0,1,0,0,0,1
frobenius;0,1,1,0,0,1,0;0,0,1,1,0,0,0
frobenius;0,1,1,1,1,0,0;0,1,0,0,1,0,1
frobenius;1,0,0,0,1,1,0;1,1,1,1,1,0,0
frobenius;1,0,1,0,0,0,0;1,0,0,0,1,0,0
frobenius;1,0,1,1,0,1,0;1,0,0,1,0,0,1
frobenius;1,1,0,0,1,0,0;1,1,0,0,0,0,0
frobenius;1,1,0,1,1,1,0;1,1,0,1,1,0,1
frobenius;1,1,1,1,0,0,0;1,0,1,0,1,0,1
repeated_frobenius;0,0,0,1,1,0,1|0;0,0,0,1,1,0,1
repeated_frobenius;0,0,0,0,0,1,1|7;0,0,0,0,0,1,1
repeated_frobenius;1,1,0,1,0,1,0|18446744073709551615;1,0,1,1,1,0,1
repeated_frobenius;1,1,0,0,1,0,1|6;1,1,1,1,1,0,0
repeated_frobenius;1,1,1,1,1,0,0|1000000007;1,0,0,0,1,1,0
repeated_frobenius;0,0,1,1,0,1,1|3;0,1,1,0,0,1,0
repeated_frobenius;0,1,1,0,0,1,1|13;0,0,0,0,1,0,1
repeated_frobenius;1,1,0,1,0,1,1|0;1,1,0,1,0,1,1
repeated_frobenius;0,0,0,0,0,0,0|7;0,0,0,0,0,0,0
repeated_frobenius;1,1,1,0,0,1,0|18446744073709551615;1,0,1,1,0,0,0
repeated_frobenius;1,0,1,1,0,0,1|6;1,1,1,1,0,1,0
repeated_frobenius;1,1,1,0,0,1,1|1000000007;1,0,0,0,1,0,1
repeated_frobenius;0,0,0,0,1,0,1|3;0,0,0,1,0,1,0
repeated_frobenius;0,1,1,0,0,0,0|13;0,0,0,0,1,0,0
galois_orbit;0,0,0,1,1,0,1;0,0,0,1,1,0,1 0,1,1,0,0,1,0 0,0,1,1,0,0,0 0,0,0,0,1,0,1 0,1,1,0,0,1,1 0,0,1,1,0,1,1 0,0,0,1,0,1,0
galois_orbit;1,1,0,1,0,1,1;1,1,0,1,0,1,1 1,0,1,1,1,1,0 1,1,1,1,0,0,1 1,0,1,0,1,1,0 1,1,1,1,0,0,0 1,0,1,0,1,0,1 1,1,1,0,1,1,1
Display;0,0,0,0,0,0,0;0
Display;0,0,1,1,1,1,0;X^2 + X^3 + X^4 + X^5
Display;0,1,1,1,1,0,0;X + X^2 + X^3 + X^4
Display;1,0,1,1,0,1,0;1 + X^2 + X^3 + X^5
Display;1,1,1,1,0,0,0;1 + X + X^2 + X^3
as_base;0,0,0,0,0,0,0;0
as_base;1,0,0,0,0,0,0;1
as_base;1,0,0,0,0,0,1;None";
