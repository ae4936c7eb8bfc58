//! Vectors of packings of field values.
pub mod lanes;

use crate::packing_vector::PackingVector;

/// The marker of a vector of packings of field values. This project's own.
#[derive(Clone, Copy)]
pub struct OfScalars;

/// N packings of field values, one after the other. Upstream's `Vectorized`, with the packing as a
/// parameter.
pub type Vectorized<F, P, const N: usize> = PackingVector<F, OfScalars, P, N>;
