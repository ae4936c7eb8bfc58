//! Division of packed extension values by an extension value and by each other.
ghost use Rattle.std.specs.Prelude.{◌≡◌, ◌<◌, ℕ, map};
ghost use Rattle.p3_theory.specs.Rings.Ring.{Invertible, IsInverse};
ghost use Rattle.p3_theory.specs.Lanes.Lanes.{lane};
ghost use Rattle.p3_extension.specs.Values.{ext_ops};
ghost use Rattle.p3_packed_extension.specs.PackedValues.{packed_ops, spread};
ghost use Rattle.p3_packed_extension.specs.Sizes.{ExtensionFits};
ghost use Rattle.p3_packed_extension.specs.ValueLanes.{value_lanes};

use crate::holds_scalar::HoldsScalar;
use crate::packed_ext_field::{PackedExtField, Packing};
use p3_extension::extension::{
    ExtField, ExtensionOverAlgebra, ExtensionShape, FrobeniusExtendable,
};
use p3_field_traits::field::Field;
use p3_field_traits::packed_traits::{Packable, PackedField};
use p3_helpers::packed_inverse::invert_packed_extension;
use p3_ring::ring::Algebra;
use std::ops::{Div, DivAssign};

/// Division of each lane by one extension value that has an inverse.
impl<
    F: FrobeniusExtendable<D, S> + ExtensionOverAlgebra<P, D, S> + Packable,
    const D: usize,
    S: ExtensionShape,
    P: PackedField<F> + Packing<Scalar = F>,
> Div<ExtField<F, D, S, F>> for PackedExtField<F, D, S, P> {
    type Output = Self;

    ghost can_div = { λ x v. Invertible (ext_ops F.ops F.modulus) v };

    ghost div_gives = { λ x v r. (packed_ops P.ops (map ⟦<P as Algebra<F>>⟧.embed F.modulus)).mul r (spread ⟦<P as Algebra<F>>⟧.embed v) ≡ x };

    #[inline]
    fn div(self, rhs: ExtField<F, D, S, F>) -> Self {
        self * rhs.inverse()
    }
}

impl<
    F: FrobeniusExtendable<D, S> + ExtensionOverAlgebra<P, D, S> + Packable,
    const D: usize,
    S: ExtensionShape,
    P: PackedField<F> + Packing<Scalar = F>,
> DivAssign<ExtField<F, D, S, F>> for PackedExtField<F, D, S, P> {
    ghost can_div_assign = { λ x v. Invertible (ext_ops F.ops F.modulus) v };

    ghost div_assign_gives = { λ x v r. (packed_ops P.ops (map ⟦<P as Algebra<F>>⟧.embed F.modulus)).mul r (spread ⟦<P as Algebra<F>>⟧.embed v) ≡ x };

    #[inline]
    fn div_assign(&mut self, rhs: ExtField<F, D, S, F>) {
        *self = *self / rhs;
    }
}

/// The inverse lane by lane, where an extension value fits in memory.
#[inline]
fn inverse_of_lanes<
    F: FrobeniusExtendable<D, S> + ExtensionOverAlgebra<P, D, S> + Packable,
    const D: usize,
    S: ExtensionShape,
    P: PackedField<F> + Packing<Scalar = F>,
>(y: PackedExtField<F, D, S, P>) -> PackedExtField<F, D, S, P>
    requires room { ExtensionFits F.row D.row S.row }
    requires inverses { (k : ℕ) → k < P.WIDTH → Invertible (ext_ops F.ops F.modulus) (lane (ext_ops F.ops F.modulus) (value_lanes P.ops F.ops P.lanes P.WIDTH) k y) }
    ensures { IsInverse (packed_ops P.ops (map ⟦<P as Algebra<F>>⟧.embed F.modulus)) y result }
{
    invert_packed_extension::<F, ExtField<F, D, S, F>, PackedExtField<F, D, S, P>>(y)
}

/// The quotient lane by lane, where an extension value fits in memory.
#[inline]
fn quotient<
    F: FrobeniusExtendable<D, S> + ExtensionOverAlgebra<P, D, S> + Packable,
    const D: usize,
    S: ExtensionShape,
    P: PackedField<F> + Packing<Scalar = F>,
>(x: PackedExtField<F, D, S, P>, y: PackedExtField<F, D, S, P>) -> PackedExtField<F, D, S, P>
    requires room { ExtensionFits F.row D.row S.row }
    requires inverses { (k : ℕ) → k < P.WIDTH → Invertible (ext_ops F.ops F.modulus) (lane (ext_ops F.ops F.modulus) (value_lanes P.ops F.ops P.lanes P.WIDTH) k y) }
    ensures { (packed_ops P.ops (map ⟦<P as Algebra<F>>⟧.embed F.modulus)).mul result y ≡ x }
{
    x * inverse_of_lanes::<F, D, S, P>(y)
}

/// Division lane by lane, by values whose lanes all have an inverse.
impl<
    F: FrobeniusExtendable<D, S> + ExtensionOverAlgebra<P, D, S> + Packable,
    const D: usize,
    S: ExtensionShape,
    P: PackedField<F> + HoldsScalar<F>,
> Div for PackedExtField<F, D, S, P> {
    type Output = Self;

    ghost can_div = { λ x y. (k : ℕ) → k < P.WIDTH → Invertible (ext_ops F.ops F.modulus) (lane (ext_ops F.ops F.modulus) (value_lanes P.ops F.ops P.lanes P.WIDTH) k y) };

    ghost div_gives = { λ x y r. (packed_ops P.ops (map ⟦<P as Algebra<F>>⟧.embed F.modulus)).mul r y ≡ x };

    #[tactic(auto, using(crate::specs::Sizes::extension_fits))]
    #[inline]
    fn div(self, rhs: Self) -> Self {
        quotient::<F, D, S, P>(self, rhs)
    }
}

impl<
    F: FrobeniusExtendable<D, S> + ExtensionOverAlgebra<P, D, S> + Packable,
    const D: usize,
    S: ExtensionShape,
    P: PackedField<F> + HoldsScalar<F>,
> DivAssign for PackedExtField<F, D, S, P> {
    ghost can_div_assign = { λ x y. (k : ℕ) → k < P.WIDTH → Invertible (ext_ops F.ops F.modulus) (lane (ext_ops F.ops F.modulus) (value_lanes P.ops F.ops P.lanes P.WIDTH) k y) };

    ghost div_assign_gives = { λ x y r. (packed_ops P.ops (map ⟦<P as Algebra<F>>⟧.embed F.modulus)).mul r y ≡ x };

    #[inline]
    fn div_assign(&mut self, other: Self) {
        *self = *self / other;
    }
}
