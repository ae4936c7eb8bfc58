//! Extension values side by side: each coefficient is a packing.
#![tactic(auto)]

pub mod algebra;
pub mod basis;
pub mod bounds;
mod division;
pub mod extension_values;
pub mod holds_scalar;
pub mod laws;
pub mod packed_ext_field;
pub mod packed_field_extension;
