//! What generic code over packed extensions asks for, gathered: one bound on the field and one on the packing.
use crate::holds_scalar::HoldsScalar;
use p3_extension::extension::{ExtensionOverAlgebra, ExtensionShape, FrobeniusExtendable};
use p3_field_traits::field::Field;
use p3_field_traits::packed_traits::{Packable, PackedField};
use p3_ring::ring::Algebra;

/// A field whose extension of degree D by the shape S has packings with coefficients in P. Whoever has the
/// traits above it is one; this project's own.
pub trait PackableExtension<
    P: Algebra<Self>,
    const D: usize,
    S: ExtensionShape,
>: FrobeniusExtendable<D, S>
    + ExtensionOverAlgebra<P, D, S>
    + Packable {}

impl<
    F: FrobeniusExtendable<D, S> + ExtensionOverAlgebra<P, D, S> + Packable,
    P: Algebra<F>,
    const D: usize,
    S: ExtensionShape,
> PackableExtension<P, D, S> for F {}

/// A packing of values of F that may be the coefficients of packed extension values, and takes at least the
/// memory of one value. Whoever has the traits above it is one; this project's own.
pub trait CoefficientPacking<F: Field + Packable>: PackedField<F> + HoldsScalar<F> {}

impl<F: Field + Packable, P: PackedField<F> + HoldsScalar<F>> CoefficientPacking<F> for P {}
