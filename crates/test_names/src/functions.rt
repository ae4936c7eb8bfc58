//! Functions of a user's own, each generic over one trait of the library.
ghost use Rattle.std.specs.Prelude.{◌≡◌};
ghost use Rattle.p3_field.specs.Powers.{power};

use p3_field::{
    Algebra, ExtensionField, ExtensionLanes, Field, PackedExtensionRing, PrimeCharacteristicRing,
};

/// The third power in a ring.
pub(crate) fn cube<R: PrimeCharacteristicRing>(x: R) -> R
    ensures { result ≡ power R.ops x 3 }
{
    x.cube()
}

/// The product with an element of the ring below.
pub(crate) fn scaled<F: PrimeCharacteristicRing, A: Algebra<F>>(x: A, f: F) -> A
    ensures { result ≡ A.ops.mul x (A.embed f) }
{
    x * f
}

/// The inverse, or zero where there is none.
pub(crate) fn inverse_or_zero<K: Field>(x: K) -> K {
    match x.try_inverse() {
        Some(inverse) => inverse,
        None => K::zero(),
    }
}

/// The value as one of the base, or zero where it is none.
pub(crate) fn base_or_zero<F: Field, K: ExtensionField<F>>(x: K) -> F {
    match x.as_base() {
        Some(value) => value,
        None => F::zero(),
    }
}

/// The value of the first lane.
pub(crate) fn first_lane<F, EF: Copy, PE: ExtensionLanes<F, EF>>(x: PE) -> EF {
    ExtensionLanes::<F, EF>::extract(&x, 0)
}

/// The third power in each lane.
pub(crate) fn cube_lanes<F, EF: PrimeCharacteristicRing, PE: PackedExtensionRing<F, EF>>(
    x: PE,
) -> PE
    ensures { result ≡ power PE.ops x 3 }
{
    x.cube()
}
