//! Helpers over rings and fields: cosets of roots of unity, helpers on slices and iterators, many inverses by one
//! inversion, digits of a field's values in another one, and runs of arithmetic steps over registers.
#![tactic(auto)]

pub mod batch_inverse;
mod chains;
pub mod coset;
pub mod helpers;
pub mod horner;
pub mod limits;
pub mod packed_inverse;
pub mod packing;
pub mod run_laws;
pub mod splits;
pub mod steps;
mod strands;
