//! Rings and algebras, powers, sums and linear combinations, over the integer maps of `p3_integers`.
#![tactic(auto)]

pub mod exponentiation;
pub mod linear_combination;
pub mod packed_ring;
mod power_chains;
pub mod powers;
pub mod ring;
pub mod sponge;
pub mod strands;
pub mod sums;

pub use p3_integers::{
    accumulate as accumulate, dup as dup, halves as halves, integers as integers,
    packed_value as packed_value,
};
