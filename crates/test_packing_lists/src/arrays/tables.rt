//! Calls on arrays of values of `f17`: a line has the number of entries, the call, its arguments and its answer.

/// Worked by hand.
pub(crate) const WORKED: &str = "3;mul;1,2,3|4,5,6;4,10,1
3;div scalar;1,2,3|2;9,1,10
3;neg;0,1,16;0,16,1
3;square;4,16,3;16,1,9
3;mul scalar;1,2,16|5;5,10,12
3;scalar sum;;0,0,0
3;scalar sum;16|5|3;7,7,7
3;scalar product;;1,1,1
3;scalar product;16|5|3;2,2,2";

/// Outside values.
pub(crate) const OUTSIDE: &str = "3;mul;1,5,0|6,7,2;6,1,0
3;mul;6,15,16|11,15,2;15,4,15
3;div scalar;16,16,16|2;8,8,8
3;div scalar;12,0,2|8;10,0,13
3;sum;8,1,2;8,1,2
3;sum;0,1,14|13,9,1;13,10,15
3;sum;11,16,16|14,14,14|15,16,2|1,15,2|12,0,2|11,16,16|8,2,0|2,15,15|16,4,16;5,13,15
3;product;;1,1,1
3;product;0,16,16;0,16,16
3;sub scalar;10,8,2|8;2,0,11
3;sub scalar;12,12,12|9;3,3,3
4;mul;15,15,16,0|16,8,0,15;2,1,0,0
4;sum;14,3,6,9|10,0,9,8|0,0,0,0;7,3,15,0
4;product;2,8,13,3|9,10,15,8|0,15,1,8|9,2,0,8|3,16,1,9|0,9,2,1|12,12,12,12|16,16,16,16|2,8,9,11;0,8,0,12
4;add;0,0,0,0|8,10,0,1;8,10,0,1
4;sub;10,10,10,10|16,16,16,16;11,11,11,11
4;add scalar;8,0,9,9|5;13,5,14,14
4;halve;15,15,9,6;16,16,13,3";
