//! Packings of the bench's prime fields: `Packed<F, N>`, N values of a field side by side.
#![tactic(auto)]

mod dot_products;
pub mod lane_arithmetic;
pub mod lane_dot_products;
mod lane_loops;
pub mod lanes;
pub mod laws;
pub mod left_operators;
pub mod operators;
pub mod packed;
pub mod ring;
pub mod scalar_operators;
mod slice_dot_products;
mod wide_products;

pub use packed::Packed;
