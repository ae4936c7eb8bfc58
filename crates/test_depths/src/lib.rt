//! How deep the products lie that make an entry of a list of powers, read at run time: a ring of pairs
//! whose values refer to a table of depths, which contracts do not see.
#![tactic(auto)]

pub mod deep;
pub mod depths;
#[cfg(test)]
mod power_depths;
pub mod residue;
