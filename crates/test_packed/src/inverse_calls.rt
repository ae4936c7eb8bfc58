//! Inverses of packed extension values, and halves.
ghost use Rattle.std.specs.Prelude.{◌<◌, ℕ, IsTrue};
ghost use Rattle.p3_theory.specs.Rings.Ring.{Invertible};
ghost use Rattle.p3_theory.specs.Lanes.Lanes.{lane};

use crate::cases::Case;
use p3_field_traits::field::Field;
use p3_helpers::packed_inverse::invert_packed_extension;
use p3_packing_traits::extension_lanes::{ExtensionLanes, PackedExtensionRing};
use p3_ring::ring::Algebra;
use test_values::numbered::{Numbered, holds, value};

/// Whether a value has an inverse.
pub(crate) fn has_inverse<T: Field>(y: T) -> bool
    ensures { IsTrue result → Invertible T.ops y }
{
    y.try_inverse().is_some()
}

/// Whether every lane has an inverse.
pub(crate) fn have_inverses<F, EF: Field, PE: ExtensionLanes<F, EF>>(packed: PE) -> bool
    ensures { IsTrue result → (k : ℕ) → k < PE.LANES → Invertible EF.ops (lane EF.ops PE.ext_lanes k packed) }
{
    for lane in 0..PE::LANES {
        let value = ExtensionLanes::<F, EF>::extract(&packed, lane);
        if !has_inverse(value) {
            return false;
        }
    }
    true
}

/// Whether the inverse of every lane is the answer.
pub(crate) fn inverse_agrees<F, EF, PE>(case: &Case) -> bool
where
    EF: Field,
    PE: PackedExtensionRing<F, EF> + Numbered,
{
    let x = value::<PE>(case.argument(0));
    have_inverses::<F, EF, PE>(x) && holds(&invert_packed_extension::<F, EF, PE>(x), &case.answer)
}

/// Whether the half of a value is the answer.
pub(crate) fn half_agrees<A: Algebra<T> + Numbered, T: Field>(case: &Case) -> bool {
    let two = T::two();
    let x = value::<A>(case.argument(0));
    has_inverse(two) && holds(&x.halve(), &case.answer)
}
