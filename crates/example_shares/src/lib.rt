//! Shamir's secret sharing over every field of the library: a secret is split into shares, of which so many
//! recover it.
#![tactic(auto)]

pub mod lagrange;
pub mod lines;
pub mod recovery;
pub mod shares;
