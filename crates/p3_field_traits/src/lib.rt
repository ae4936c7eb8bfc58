//! Fields, prime fields and two-adic fields, square roots, and what stands below them: `p3_ring`.
#![tactic(auto)]

pub mod field;
pub mod laws;
pub mod packed_traits;
pub mod sqrt;

pub use p3_ring::{
    accumulate as accumulate, dup as dup, integers as integers,
    linear_combination as linear_combination, powers as powers, ring as ring, sponge as sponge,
    sums as sums,
};
