//! Values of the extensions that are no fields, with inverses and runs that were worked by a second program from the
//! definitions. Coefficients are canonical values, from X^0 upward, between commas.

/// A line each: the name; behind a colon, between bars, values with their inverses, or `none`, and the registers of
/// a run that is refused, before it and then.
pub(crate) const SPLITS: &str = "
f17sx2: 1,1=none 0,1=0,1 2,1=12,11 3,1=11,2 6,8=1,10|2,1 7,0 1,1|12,11 6,6 1,1
f17sx4: 1,1,1,1=none 0,1,0,0=0,0,0,1 2,1,0,0=13,2,16,9 1,1,0,0=none 3,1,0,0=15,12,13,7 0,1,16,9=11,14,0,11|2,1,0,0 7,0,0,0 1,1,1,1|13,2,16,9 6,6,6,6 1,1,1,1
f17sx8: 1,1,1,1,1,1,1,1=none 0,1,0,0,0,0,0,0=0,0,0,0,0,0,0,1 1,1,0,0,0,0,0,0=none 2,1,0,0,0,0,0,0=none 3,1,0,0,0,0,0,0=3,16,6,15,12,13,7,9 15,6,7,2,12,11,0,8=3,10,5,15,13,4,13,0|3,1,0,0,0,0,0,0 7,0,0,0,0,0,0,0 1,1,1,1,1,1,1,1|3,16,6,15,12,13,7,9 13,13,13,13,13,13,13,13 1,1,1,1,1,1,1,1
f17nx2: 0,1=none 1,1=1,16 2,1=9,4 3,1=6,15 3,12=6,10|1,1 7,0 0,1|1,16 0,1 0,1
f31sx3: 1,1,1=none 0,1,0=0,0,1 6,1,0=none 2,1,0=28,17,7 3,1,0=28,1,10 11,10,0=15,23,27|2,1,0 7,0,0 1,1,1|28,17,7 21,21,21 1,1,1
f31sx5: 1,1,1,1,1=none 0,1,0,0,0=0,0,0,0,1 15,1,0,0,0=none 2,1,0,0,0=8,27,2,30,16 3,1,0,0,0=3,30,21,24,23 20,7,9,19,7=none|2,1,0,0,0 7,0,0,0,0 1,1,1,1,1|8,27,2,30,16 21,21,21,21,21 1,1,1,1,1
f31sx6: 1,1,1,1,1,1=none 0,1,0,0,0,0=0,0,0,0,0,1 1,1,0,0,0,0=none 2,1,0,0,0,0=1,15,8,27,2,30 3,1,0,0,0,0=10,7,8,18,25,2 30,24,28,3,12,17=4,10,26,11,21,24|2,1,0,0,0,0 7,0,0,0,0,0 1,1,1,1,1,1|1,15,8,27,2,30 21,21,21,21,21,21 1,1,1,1,1,1
f59t3: 0,1,0=58,0,1 55,1,0=none 17,1,0=none 2,1,0=51,25,17 3,1,0=31,40,26 31,54,24=54,8,19|2,1,0 7,0,0 55,1,0|51,25,17 49,27,16 55,1,0
";

/// The rings with fewer than 100000 values, of which some other than zero have no inverse: the order, the degree, and
/// what X to the power of the degree is. Two are residues themselves.
pub(crate) const EVERY: &str = "
z4 4 1 0
z15 15 1 0
z15x2 15 2 2,0
f17bx2 17 2 4,0
f17sx2 17 2 1,0
f17nx2 17 2 0,0
f31sx3 31 3 1,0,0
f17sx4 17 4 1,0,0,0
";

/// Those with more values.
pub(crate) const SAMPLED: &str = "
f17sx8 17 8 1,0,0,0,0,0,0,0
f31sx5 31 5 1,0,0,0,0
f31sx6 31 6 1,0,0,0,0,0
f59t3 59 3 1,1,0
";
