//! Values of polynomials at points, over the cosets of two-adic subgroups, and over vectors of packings:
//! what stands first on the public contracts of the library.
#![tactic(auto)]

mod halves;
mod points;
mod values;
mod vector_values;

pub use values::{eval_coset, eval_coset_in, eval_coset_into, eval_point};
pub use vector_values::eval_vectorized;
