//! Square roots of extension values and their turns, of the original Rust crate over fields written
//! for the purpose, checked by a second program. Written by a script out of its list: a line of that
//! list, `type value root turns`, is a line here. Coefficients are canonical values, from X^0
//! upward. `F2T7`, whose polynomial the original crate doesn't have, is of the second program alone.
//! The first lines of the last three are worked by hand.

/// Roots at `f17x2`.
pub const F17X2: &str = "root;8,0;12,0|4
root;1,1;2,13|8
root;11,1;4,15|3
root;4,2;16,16|5
root;14,2;None|5
root;7,3;None|5
root;0,4;None|5
root;10,4;8,13|1
root;3,5;9,5|10
root;13,5;5,9|4
root;6,6;13,12|3
root;16,6;None|5
root;9,7;4,3|10
root;2,8;4,1|2
root;12,8;None|5
root;5,9;None|5
root;15,9;1,13|3
root;8,10;16,12|9
root;1,11;None|5
root;11,11;16,3|4
root;4,12;14,15|5
root;14,12;2,3|9
root;7,13;15,1|0
root;0,14;None|5
root;10,14;None|5
root;3,15;None|5
root;13,15;4,4|6
root;6,16;16,9|2
root;16,16;8,1|7";

/// Roots at `f17bx2`.
pub const F17BX2: &str = "root;9,0;None|6
root;2,1;None|5
root;12,1;None|8
root;5,2;None|6
root;15,2;None|8
root;8,3;None|8
root;1,4;None|8
root;11,4;None|8
root;4,5;None|8
root;14,5;None|8
root;7,6;None|8
root;0,7;None|8
root;10,7;None|8
root;3,8;None|6
root;13,8;None|8
root;6,9;None|8
root;16,9;None|5
root;9,10;None|8
root;2,11;None|8
root;12,11;None|5
root;5,12;None|8
root;15,12;None|8
root;8,13;None|5
root;1,14;None|8
root;11,14;None|5
root;4,15;None|5
root;14,15;None|8
root;7,16;None|8";

/// Roots at `z15x2`.
pub const Z15X2: &str = "root;0,0;0,0|0
root;10,0;None|5
root;5,1;None|6
root;0,2;None|6
root;10,2;None|6
root;5,3;None|6
root;0,4;None|6
root;10,4;None|6
root;5,5;None|5
root;0,6;None|5
root;10,6;None|6
root;5,7;None|6
root;0,8;None|6
root;10,8;None|6
root;5,9;None|6
root;0,10;None|5
root;10,10;None|5
root;5,11;None|6
root;0,12;None|5
root;10,12;None|6
root;5,13;None|6
root;0,14;None|6
root;10,14;None|6";

/// Roots at `f31c`.
pub const F31C: &str = "root;5,0;25,0|0
root;15,0;0,4|1
root;25,0;5,0|0
root;4,1;None|6
root;14,1;None|6
root;24,1;30,15|6
root;3,2;None|6
root;13,2;14,20|9
root;23,2;None|6
root;2,3;None|6
root;12,3;None|6
root;22,3;30,14|6
root;1,4;None|6
root;11,4;None|6
root;21,4;None|6
root;0,5;7,7|2
root;10,5;19,14|9
root;20,5;None|6
root;30,5;None|6
root;9,6;None|6
root;19,6;10,22|11
root;29,6;27,7|13
root;8,7;14,8|12
root;18,7;26,21|7
root;28,7;None|6
root;7,8;5,7|5
root;17,8;None|6
root;27,8;14,18|11
root;6,9;None|6
root;16,9;None|6
root;26,9;None|6
root;5,10;8,20|10
root;15,10;None|6
root;25,10;None|6
root;4,11;None|6
root;14,11;8,22|8
root;24,11;None|6
root;3,12;None|6
root;13,12;None|6
root;23,12;None|6
root;2,13;19,24|7
root;12,13;None|6
root;22,13;10,27|9
root;1,14;None|6
root;11,14;27,6|14
root;21,14;None|6
root;0,15;15,16|3
root;10,15;None|6
root;20,15;21,7|10
root;30,15;1,23|8
root;9,16;None|6
root;19,16;29,27|7
root;29,16;None|6
root;8,17;None|6
root;18,17;None|6
root;28,17;5,11|11
root;7,18;2,20|4
root;17,18;None|6
root;27,18;None|6
root;6,19;4,14|11
root;16,19;7,8|4
root;26,19;29,3|14
root;5,20;None|6
root;15,20;12,6|6
root;25,20;1,10|4
root;4,21;None|6
root;14,21;None|6
root;24,21;26,1|13
root;3,22;21,2|13
root;13,22;7,6|8
root;23,22;None|6
root;2,23;None|6
root;12,23;None|6
root;22,23;None|6
root;1,24;6,2|10
root;11,24;None|6
root;21,24;15,7|6
root;0,25;20,20|2
root;10,25;None|6
root;20,25;13,26|7
root;30,25;None|6
root;9,26;None|6
root;19,26;4,11|8
root;29,26;None|6
root;8,27;4,15|11
root;18,27;None|6
root;28,27;1,29|7
root;7,28;None|6
root;17,28;2,7|11
root;27,28;4,19|9
root;6,29;12,18|6
root;16,29;None|6
root;26,29;None|6
root;5,30;None|6
root;15,30;28,26|9
root;25,30;None|6";

/// Roots at `f2t5`.
pub const F2T5: &str = "root;0,1,0,0,0;1,1,0,1,1|0
root;0,0,1,0,0;0,1,0,0,0|0
root;0,1,1,1,0;0,1,0,1,0|0
root;0,0,0,1,1;1,1,1,0,1|0";

/// Roots at `f2t7`.
pub const F2T7: &str = "root;0,1,0,0,0,0,0;0,1,0,0,1,0,0|0
root;0,0,0,0,0,0,0;0,0,0,0,0,0,0|0
root;0,0,0,1,0,1,0;0,0,1,1,0,1,1|0
root;0,0,1,0,1,0,0;0,1,1,0,0,0,0|0
root;0,0,1,1,1,1,0;0,1,0,1,0,1,1|0
root;0,1,0,1,0,0,0;0,1,1,0,1,1,0|0
root;0,1,1,0,0,1,0;0,0,0,1,1,0,1|0
root;0,1,1,1,1,0,0;0,0,0,0,1,1,0|0
root;1,0,0,0,1,1,0;1,0,1,1,0,0,1|0
root;1,0,1,0,0,0,0;1,1,0,0,0,0,0|0
root;1,0,1,1,0,1,0;1,1,1,1,0,1,1|0
root;1,1,0,0,1,0,0;1,1,1,0,1,0,0|0
root;1,1,0,1,1,1,0;1,1,0,1,1,1,1|0
root;1,1,1,1,0,0,0;1,0,1,0,1,1,0|0";

/// Roots by the greatest two-adic generator of `f17x2`.
pub const F17X2_TWO_ADIC: &str = "two-adic root;3,0;0,16|9
two-adic root;9,0;3,0|6
two-adic root;2,1;14,14|1
two-adic root;12,1;None|5
two-adic root;5,2;7,5|5
two-adic root;15,2;3,6|10
two-adic root;8,3;None|5
two-adic root;1,4;12,3|4
two-adic root;11,4;None|5
two-adic root;4,5;14,2|9
two-adic root;14,5;2,14|5
two-adic root;7,6;6,9|9
two-adic root;0,7;None|5
two-adic root;10,7;2,6|4
two-adic root;3,8;14,10|4
two-adic root;13,8;None|5
two-adic root;6,9;None|5
two-adic root;16,9;2,15|6
two-adic root;9,10;4,14|4
two-adic root;2,11;9,11|6
two-adic root;12,11;14,1|4
two-adic root;5,12;11,16|1
two-adic root;15,12;None|5
two-adic root;8,13;11,6|3
two-adic root;1,14;7,1|7
two-adic root;11,14;15,5|9
two-adic root;4,15;1,16|4
two-adic root;14,15;None|5
two-adic root;7,16;None|5";
