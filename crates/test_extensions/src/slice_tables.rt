//! Products, squares, sums and differences over slices, worked by hand. W is 3.

/// Calls for any degree, whose results are written where ones were: at degree 6 they are added to these.
pub const WHERE_ONES_WERE: &str = "f31 binomial_mul 6;0,0,0,0,0,1|0,1,0,0,0,0;4,1,1,1,1,1
f17 binomial_mul 4;0,0,0,1|0,1,0,0;3,0,0,0
f31 binomial_square 6;0,0,0,1,0,0|0,0,0,0,0,0;4,1,1,1,1,1
f17 binomial_square 4;0,0,1,0|0,0,0,0;3,0,0,0";

/// Calls of one degree.
pub const OF_ONE_DEGREE: &str = "f17 quartic_mul;0,0,0,1|0,1,0,0;3,0,0,0
f31 quintic_mul;0,0,0,0,1|0,0,1,0,0;0,3,0,0,0
f17 octic_mul;0,0,0,0,0,0,0,1|0,0,0,0,0,0,0,1;0,0,0,0,0,0,3,0";

/// Calls by trinomials.
pub const BY_TRINOMIALS: &str = "f17 trinomial_quintic_mul;0,0,0,0,1|0,0,0,0,1;16,0,1,1,0
f17 quintic_square;0,0,0,0,1|0,0,0,0,1;16,0,1,1,0
f31 trinomial_cubic_mul;0,0,1|0,0,1;0,1,1
f31 cubic_square;0,0,1|0,0,1;0,1,1";

/// Sums and differences of vectors.
pub const OF_VECTORS: &str = "f17 vector_add;1,2|16,5;0,7
f17 vector_sub;1,2|16,5;2,14";
