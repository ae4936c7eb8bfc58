//! A prime field of one's own: the residues modulo 2^31 - 1, with a reduction by shifts and sums.
#![tactic(auto)]

mod compare;
mod complex;
mod cubic;
mod field;
mod over_packings;
mod ring;
mod streams;
mod value;
pub mod words;
#[cfg(test)]
mod worked_values;

pub use value::Mersenne31;
