//! What tests of several crates read values by: values by numbers, residues by their canonical ones, coefficient lists,
//! and the rows and names of tables.
#![tactic(auto)]

pub mod canonical;
pub mod lists;
pub mod numbered;
pub mod rows;
pub mod texts;
