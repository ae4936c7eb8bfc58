//! What a crate adds to the library by numbers: an order of its own, with a two-adic generator and the
//! extension by `X^2 = 5`, and a polynomial of its own, `X^2 - X - 1`, modulo which the powers of X have
//! Fibonacci numbers as coefficients.
#![tactic(auto)]

pub mod calls;
pub mod golden;
pub mod residues;
#[cfg(test)]
mod worked_values;
