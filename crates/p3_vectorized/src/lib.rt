//! Arrays of values and vectors of packings, and runs of steps over them.
#![tactic(auto)]

pub mod array;
pub mod packing_vector;
pub mod steps;
pub mod vectorized;
pub mod vectorized_ext;
