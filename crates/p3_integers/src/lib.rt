//! Integers of the machine as residues and their halves, copies, sums and products of iterators, and values
//! side by side: what needs no ring.
#![tactic(auto)]

pub mod accumulate;
pub mod dup;
pub mod halves;
pub mod integers;
pub mod packed_value;
