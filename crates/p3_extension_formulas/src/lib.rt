//! Products, squares and fixed inverses of coefficient lists, over slices.
#![tactic(auto)]

pub mod binomial_extension;
pub mod cubic_extension;
pub mod integer_polynomial;
pub mod power_table;
pub mod quintic_extension;
pub mod septic_extension;
pub mod vectors;
