//! Values of extensions that are worked by hand, as lines like those of `extension_tables`: constants, two-adic
//! generators and names, and calls that no other table has. There is no two-adic generator for 64 bits. Three
//! coefficients make no value of degree 4, and no element of its basis stands at index 4. `texts below` is of
//! the texts of all values `a + b X`, a and b below the number, whatever the formatter is told of its form and
//! width.

/// Calls at `f17x2`.
pub const F17X2: &str = "constants;;3,16,1,2
TWO_ADICITY;;5
two_adic_generator;5;0,1
two_adic_generator;3;9,0
two_adic_generator;64;None
texts below;17;";

/// Calls at `f17x4`.
pub const F17X4: &str = "constants;;3,13,0,1
TWO_ADICITY;;6
two_adic_generator;3;9,0,0,0
two_adic_generator;5;0,0,1,0
two_adic_generator;6;0,1,0,0
two_adic_generator;64;None
from_basis_coefficients_slice;1,2,3|3;None
ith_basis_element;4;None
ith_basis_element;1;0,1,0,0
as_base;0,1,0,0;None
as_base;5,0,0,0;5
add residue;1,2,3,4|2;3,2,3,4
sub residue;1,2,3,4|2;16,2,3,4
mul residue;1,2,3,4|2;2,4,6,8
from residue;|2;2,0,0,0
from coefficients;1,2,3,4;1,2,3,4
mixed_dot_product;1,2,3,4|1,2,3,4|1,1;2,4,6,8
algebra_id;;p3-scalar-basis-v1|bench:f17x4
zero_vec;2;0,0,0,0 0,0,0,0";

/// Calls at `f17x8`.
pub const F17X8: &str = "constants;;3,9,0,1
TWO_ADICITY;;7
two_adic_generator;4;3,0,0,0,0,0,0,0
two_adic_generator;0;1,0,0,0,0,0,0,0
two_adic_generator;64;None";

/// Calls at `f17bx2`.
pub const F17BX2: &str = "constants;;4,16,0,1
pseudo_inv;2,1;0,0
pseudo_inv;0,0;0,0";

/// Calls at `z15x2`.
pub const Z15X2: &str = "constants;;2,14,0,1";

/// Calls at `f31x3`.
pub const F31X3: &str = "constants;;3,25,0,1";

/// Calls at `f31x5`.
pub const F31X5: &str = "constants;;3,16,0,1";

/// Calls at `f31x6`.
pub const F31X6: &str = "constants;;3,26,1,0";

/// Calls at `f31c`.
pub const F31C: &str = "constants;;30,30,3,2
algebra_id;;p3-scalar-basis-v1|p3-power-basis-v1:X^2+1";

/// Calls at `bbx4`.
pub const BBX4: &str = "constants;;31,1728404513,0,1";

/// Calls at `f31t3`.
pub const F31T3: &str = "TWO_ADICITY;;1
two_adic_generator;1;30,0,0
two_adic_generator;64;None";

/// Calls at `f17t5`.
pub const F17T5: &str = "TWO_ADICITY;;4
two_adic_generator;4;3,0,0,0,0
two_adic_generator;64;None";

/// Calls at `f2t5`.
pub const F2T5: &str = "TWO_ADICITY;;0
two_adic_generator;0;1,0,0,0,0
two_adic_generator;64;None
pseudo_inv;0,1,0,0,0;0,1,0,0,1";

/// Calls at `f2t7`.
pub const F2T7: &str = "TWO_ADICITY;;0
two_adic_generator;0;1,0,0,0,0,0,0
two_adic_generator;64;None
pseudo_inv;0,1,0,0,0,0,0;1,0,0,0,0,0,1
pseudo_inv;0,0,0,0,0,0,0;0,0,0,0,0,0,0
generator;;0,1,0,0,0,0,0
algebra_id;;p3-scalar-basis-v1|p3-power-basis-v1:X^7-X-1
order;;128";
