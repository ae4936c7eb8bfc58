//! Spaces over a ring: basis calls, extension fields, streams of bytes and words, monomials, and powers by
//! fixed chains.
#![tactic(auto)]

pub mod array_chunks;
pub mod basis;
pub mod const_power;
pub mod extension_field;
pub mod field_bounds;
pub mod field_bytes;
pub mod hints;
pub mod in_memory;
pub mod monomials;
pub mod sampling;
pub mod streams;
