//! Calls over stored words, for cosets of two-adic subgroups, for the values of an extension, each stored as the words
//! of its coefficients, for runs of numbered steps over registers, and for limbs of a large field's values.
#![tactic(auto)]

pub mod coded;
pub mod cosets;
pub mod extensions;
pub mod grouped;
mod groups;
pub mod limbs;
pub mod runs;
