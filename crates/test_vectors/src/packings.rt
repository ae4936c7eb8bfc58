//! Runs over vectors of packings of an extension's values, implemented once for all packings.
use crate::runs::{Run, Vectors, run_agrees};
use p3_extension::extension::{
    ExtField, ExtensionOverAlgebra, ExtensionShape, FrobeniusExtendable,
};
use p3_field_traits::field::Field;
use p3_field_traits::packed_traits::{Inhabited, Packable};
use p3_packed_extension::packed_ext_field::{PackedExtField, Packing};
use p3_ring::packed_ring::PackedRing;
use p3_ring::ring::{Algebra, PrimeCharacteristicRing};
use std::alloc::{AllocError, Global};
use test_values::canonical::Canonical;

/// Vectors of packings P of values of an extension of F.
pub(crate) type ExtensionVectors<F, S, P, const D: usize> = Vectors<
    F,
    ExtField<F, D, S, F>,
    PackedExtField<F, D, S, P>,
>;

/// Whether a run leaves what it has to, over packings P of values of an extension of F. Nothing is read of
/// `vectors`.
fn extension_run_agrees<F, S, P, const D: usize>(
    alloc: Global,
    vectors: Option<ExtensionVectors<F, S, P, D>>,
    run: &Run<'_>,
) -> Result<bool, AllocError>
where
    F: FrobeniusExtendable<D, S> + ExtensionOverAlgebra<P, D, S> + Packable + Canonical,
    S: ExtensionShape,
    P: PackedRing<F> + Inhabited + Packing<Scalar = F>,
{
    run_agrees::<F, PackedExtField<F, D, S, P>, S, D>(alloc, vectors, run)
}

/// Runs over packings of this type of values of an extension of F. What the extension owes is a bound of
/// the method: a function over a marker and any such packing passes it from the packing's algebra alone, and
/// the call at so many lanes passes that algebra once.
pub(crate) trait ExtensionRuns<
    F: PrimeCharacteristicRing,
    S: ExtensionShape,
    const D: usize,
>: Algebra<F> {
    /// Vectors of packings. Of an associated type it is known that its values have room.
    type Vectors: Copy;

    /// Whether a run leaves what it has to. Nothing is read of `vectors`.
    fn run_agrees(
        alloc: Global,
        vectors: Option<Self::Vectors>,
        run: &Run<'_>,
    ) -> Result<bool, AllocError>
    where
        F: FrobeniusExtendable<D, S> + ExtensionOverAlgebra<Self, D, S>;
}

impl<
    F: Field + Packable + Canonical,
    S: ExtensionShape,
    P: PackedRing<F> + Inhabited + Packing<Scalar = F>,
    const D: usize,
> ExtensionRuns<F, S, D> for P {
    type Vectors = ExtensionVectors<F, S, P, D>;

    fn run_agrees(
        alloc: Global,
        vectors: Option<ExtensionVectors<F, S, P, D>>,
        run: &Run<'_>,
    ) -> Result<bool, AllocError>
    where
        F: FrobeniusExtendable<D, S> + ExtensionOverAlgebra<P, D, S>,
    {
        extension_run_agrees::<F, S, P, D>(alloc, vectors, run)
    }
}
