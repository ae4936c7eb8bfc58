//! Square roots and their turns, of the original Rust crate over fields written for the purpose,
//! checked by a second program. Written by a script out of its list: a line of that list, `type value
//! root turns`, is a line here. Numbers are canonical values. The names that end in `TWO_ADIC` are
//! of the search by the greatest two-adic generator.

/// Roots at `f17`.
pub const F17: &str = "1;1|0
11;None|4";

/// Roots at `f31`.
pub const F31: &str = "4;2|0
14;18|0
24;None|1";

/// Roots at `z15`.
pub const Z15: &str = "3;None|1
13;None|1";

/// Roots at `f17`, by the greatest two-adic generator.
pub const F17_TWO_ADIC: &str = "2;6|3
12;None|4";

/// Roots at `f31`, by the greatest two-adic generator.
pub const F31_TWO_ADIC: &str = "5;25|0
15;None|1
25;5|0";

/// Roots at `z15`, by the greatest two-adic generator.
pub const Z15_TWO_ADIC: &str = "4;None|1
14;None|1";

/// Roots at `f17`, worked by hand.
pub const WORKED_F17: &str = "13;8|3
3;None|4
0;0|0
2;6|3";

/// Roots at `f17b`, worked by hand.
pub const WORKED_F17B: &str = "16;4|1";

/// Roots at `f31`, worked by hand.
pub const WORKED_F31: &str = "2;8|0
3;None|1";

/// Roots at `f2`, worked by hand.
pub const WORKED_F2: &str = "1;1|0";

/// Roots at `z15`, worked by hand.
pub const WORKED_Z15: &str = "4;None|1";

/// Roots modulo 4, worked by hand.
pub const WORKED_Z4: &str = "2;None|0
3;None|0";
