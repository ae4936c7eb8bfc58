//! Quotients of packings.
ghost use Rattle.std.specs.Prelude.{◌≡◌, ◌<◌, IsTrue};
ghost use Rattle.p3_theory.specs.Rings.Ring.{Invertible};

use crate::cases::Case;
use crate::operations::has_inverse;
use p3_field_traits::field::Field;
use p3_field_traits::packed_traits::{PackedField, PackedValue};
use p3_ring::packed_ring::PackedRing;
use p3_ring::ring::{Algebra, PrimeCharacteristicRing};
use test_values::numbered::{Numbered, holds, value};

/// The packing of the inverses of the lanes, zero where a lane has none.
fn lane_inverses<F: Field, P: PackedValue<Value = F>>(packing: &P) -> P {
    P::from_fn(
        |lane: usize| -> F
            requires { lane < P.WIDTH }
        {
            let value = packing.extract(lane);
            value.try_inverse().unwrap_or(F::zero())
        },
    )
}

/// Whether each lane is one.
fn lanes_are_one<F: Field, P: PackedRing<F>>(packing: P) -> bool
    ensures { IsTrue result → packing ≡ P.ops.one }
{
    for lane in 0..P::WIDTH {
        let value = packing.extract(lane);
        if !value.is_one() {
            return false;
        }
    }
    true
}

/// Whether each lane has an inverse.
fn lanes_have_inverses<F: Field, P: PackedRing<F>>(packing: P) -> bool
    ensures { IsTrue result → Invertible P.ops packing }
{
    let inverses = lane_inverses::<F, P>(&packing);
    let product = packing * inverses;
    lanes_are_one::<F, P>(product)
}

/// Whether the quotient of two packings is the answer; false where a lane of the divisor has no inverse.
pub(crate) fn quotient_agrees<F: Field, P: PackedField<F> + Numbered>(case: &Case) -> bool {
    let x = value::<P>(case.argument(0));
    let y = value::<P>(case.argument(1));
    if !lanes_have_inverses::<F, P>(y) {
        return false;
    }
    let quotient = x / y;
    holds(&quotient, &case.answer)
}

/// Whether the quotient of a packing by a value is the answer; false where that has no inverse.
pub(crate) fn scalar_quotient_agrees<F: Field + Numbered, P: PackedField<F> + Numbered>(
    case: &Case,
) -> bool {
    let x = value::<P>(case.argument(0));
    let scalar = value::<F>(case.argument(1));
    if !has_inverse(scalar) {
        return false;
    }
    let quotient = x / scalar;
    holds(&quotient, &case.answer)
}
