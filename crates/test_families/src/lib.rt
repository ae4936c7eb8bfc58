//! The extensions that tests name, those of the bench and those by polynomials that split, and their values by lists
//! of numbers.
#![tactic(auto)]

pub mod names;
pub mod residues;
pub mod texts;
pub mod values;
