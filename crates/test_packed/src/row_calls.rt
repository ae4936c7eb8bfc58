//! Calls on packings of extension values.
use crate::cases::{Call, Case, RightSide};
use crate::column_calls::{Rooms, packed_agree, unpacked_agree};
use crate::columnwise_calls::columnwise_agree;
use crate::inverse_calls::{half_agrees, inverse_agrees};
use crate::lane_calls::lanes_agree;
use crate::operation_calls::{dot_product_agrees, mixed_operation_agrees, operation_agrees};
use crate::sequence_calls::sequences_agree;
use p3_extension_traits::extension_field::ExtensionField;
use p3_field_traits::field::Field;
use p3_packing_traits::extension_lanes::PackedExtensionRing;
use p3_packing_traits::packed_field_extension::PackedFieldExtension;
use p3_ring::ring::{Algebra, PrimeCharacteristicRing};
use std::alloc::{AllocError, Global};
use test_values::numbered::Numbered;

/// Whether a call on lanes or columns has its answer.
fn lane_calls_agree<F, EF, PE>(
    alloc: Global,
    rooms: Option<Rooms<F, EF, PE>>,
    case: &Case,
) -> Result<bool, AllocError>
where
    EF: Field + Numbered,
    PE: PackedExtensionRing<F, EF> + Numbered,
{
    match case.call {
        Call::Lanes(call) => lanes_agree::<F, EF, PE>(alloc, call, case),
        Call::Pack => packed_agree::<F, EF, PE>(alloc, rooms, case),
        Call::Unpack => unpacked_agree::<F, EF, PE>(alloc, rooms, case),
        Call::Invert => Ok(inverse_agrees::<F, EF, PE>(case)),
        _ => Ok(false),
    }
}

/// Whether an operation of the ring, or one on a value of the algebra and one of P or of EF, has its answer. Nothing is
/// read of `scales`.
fn algebra_calls_agree<EF, P, PE>(
    alloc: Global,
    scales: Option<[EF; 2]>,
    case: &Case,
) -> Result<bool, AllocError>
where
    EF: Field + Numbered,
    P: PrimeCharacteristicRing + Numbered,
    PE: Algebra<P> + Algebra<EF> + Numbered,
{
    match case.call {
        Call::Mixed(operation, RightSide::Packing) => {
            mixed_operation_agrees::<PE, P>(alloc, operation, case)
        }
        Call::Mixed(operation, RightSide::Value) => {
            mixed_operation_agrees::<PE, EF>(alloc, operation, case)
        }
        Call::Operation(operation) => Ok(operation_agrees::<PE>(operation, case)),
        Call::DotProduct => dot_product_agrees::<PE>(alloc, case),
        Call::Halve => Ok(half_agrees::<PE, EF>(case)),
        Call::Columnwise | Call::GenericColumnwise => columnwise_agree::<P, EF, PE>(
            alloc, scales, case,
        ),
        _ => Ok(false),
    }
}

/// Whether a call has its answer.
pub(crate) fn row_agrees<F, EF, PE>(
    alloc: Global,
    rooms: Option<Rooms<F, EF, PE>>,
    case: &Case,
) -> Result<bool, AllocError>
where
    F: Field + Numbered,
    EF: ExtensionField<F> + Numbered,
    PE: PackedFieldExtension<F, EF> + Numbered,
    PE::Base: Numbered,
{
    match case.call {
        Call::Lanes(_) | Call::Pack | Call::Unpack | Call::Invert => {
            lane_calls_agree::<F, EF, PE>(alloc, rooms, case)
        }
        Call::Powers | Call::CappedPowers | Call::Values => {
            sequences_agree::<F, EF, PE>(alloc, case.call, case)
        }
        _ => algebra_calls_agree::<EF, PE::Base, PE>(alloc, None, case),
    }
}
