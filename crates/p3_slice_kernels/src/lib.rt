//! Lists by blocks of sixteen entries: operations of two slices entry by entry, and sums of products of words of 32 bits.
#![tactic(auto)]

pub mod entrywise;
pub mod short_sums;
