//! Extensions of rings and fields by a monic polynomial: coefficient lists, products and inverses.
#![tactic(auto)]

pub mod extension;
pub mod laws;
pub mod subfield;
