//! Quotients, sums and products of packed extension values.
ghost use Rattle.std.specs.Prelude.{◌<◌, ℕ};
ghost use Rattle.p3_theory.specs.Rings.Ring.{Invertible};
ghost use Rattle.p3_theory.specs.Lanes.Lanes.{lane};

use crate::cases::{Call, Case};
use crate::inverse_calls::{has_inverse, have_inverses};
use p3_extension::extension::{
    ExtField, ExtensionOverAlgebra, ExtensionShape, FrobeniusExtendable,
};
use p3_field_traits::field::Field;
use p3_field_traits::packed_traits::{Packable, PackedField};
use p3_packed_extension::holds_scalar::HoldsScalar;
use p3_packed_extension::packed_ext_field::PackedExtField;
use p3_packing_traits::extension_lanes::ExtensionLanes;
use p3_ring::ring::PrimeCharacteristicRing;
use std::alloc::{AllocError, Global};
use test_values::numbered::{Numbered, holds, value, values};

/// Packings of values of EF with their quotients, and the sums and products of lists.
pub(crate) trait ExtensionOperations<F, EF: PrimeCharacteristicRing>: ExtensionLanes<F, EF> {
    /// The quotient by a value that has an inverse.
    fn over_value(self, value: EF) -> Self
        requires { Invertible EF.ops value };

    /// The quotient by a packing that has an inverse in each lane.
    fn over_packing(self, divisor: Self) -> Self
        requires { (k : ℕ) → k < Self.LANES → Invertible EF.ops (lane EF.ops Self.ext_lanes k divisor) };

    /// The sum of a list.
    fn sum_of(values: Vec<Self>) -> Self;

    /// The product of a list.
    fn product_of(values: Vec<Self>) -> Self;
}

impl<
    F: FrobeniusExtendable<D, S> + ExtensionOverAlgebra<P, D, S> + Packable,
    S: ExtensionShape,
    P: PackedField<F> + HoldsScalar<F>,
    const D: usize,
> ExtensionOperations<F, ExtField<F, D, S, F>> for PackedExtField<F, D, S, P> {
    fn over_value(self, value: ExtField<F, D, S, F>) -> Self {
        self / value
    }

    fn over_packing(self, divisor: Self) -> Self {
        self / divisor
    }

    fn sum_of(values: Vec<Self>) -> Self {
        values.into_iter().sum()
    }

    fn product_of(values: Vec<Self>) -> Self {
        values.into_iter().product()
    }
}

/// Whether the quotient by an extension value or by a packing is the answer; false where the divisor, or a
/// lane of it, has no inverse.
fn quotient_agrees<F, EF, PE>(call: Call, case: &Case) -> bool
where
    EF: Field + Numbered,
    PE: ExtensionOperations<F, EF> + Numbered,
{
    let x = value::<PE>(case.argument(0));
    let quotient = match call {
        Call::DivideByValue => {
            let v = value::<EF>(case.argument(1));
            if !has_inverse(v) {
                return false;
            }
            x.over_value(v)
        }
        _ => {
            let y = value::<PE>(case.argument(1));
            if !have_inverses::<F, EF, PE>(y) {
                return false;
            }
            x.over_packing(y)
        }
    };
    holds(&quotient, &case.answer)
}

/// Whether a quotient, or the sum or the product of a list, is the answer.
pub(crate) fn quotient_or_total_agrees<F, EF, PE>(
    alloc: Global,
    case: &Case,
) -> Result<bool, AllocError>
where
    EF: Field + Numbered,
    PE: ExtensionOperations<F, EF> + Numbered,
{
    match case.call {
        Call::Sum => {
            let sum = PE::sum_of(values::<PE>(alloc, case.argument(0))?);
            Ok(holds(&sum, &case.answer))
        }
        Call::Product => {
            let product = PE::product_of(values::<PE>(alloc, case.argument(0))?);
            Ok(holds(&product, &case.answer))
        }
        call => Ok(quotient_agrees::<F, EF, PE>(call, case)),
    }
}
