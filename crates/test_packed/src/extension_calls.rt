//! The calls on packings of the values of an extension, and of a field itself, implemented once for all packings.
use crate::cases::{Call, Case};
use crate::column_calls::Rooms;
use crate::extension_operations::quotient_or_total_agrees;
use crate::lane_calls::lanes_agree;
use crate::operation_calls::operation_agrees;
use crate::row_calls::row_agrees;
use crate::sequence_calls::sequences_agree;
use p3_extension::extension::{
    Binomial, ComplexExtendable, ExtField, ExtensionOverAlgebra, ExtensionShape,
    FrobeniusExtendable,
};
use p3_field_traits::field::Field;
use p3_field_traits::packed_traits::{Inhabited, Packable, PackedField};
use p3_packed_extension::holds_scalar::HoldsScalar;
use p3_packed_extension::packed_ext_field::PackedExtField;
use p3_ring::ring::{Algebra, PrimeCharacteristicRing};
use std::alloc::{AllocError, Global};
use test_values::numbered::Numbered;

/// What calls on packings P of values of an extension of F make values of.
pub(crate) type ExtensionRooms<F, S, P, const D: usize> = Rooms<
    F,
    ExtField<F, D, S, F>,
    PackedExtField<F, D, S, P>,
>;

/// `row_agrees` over packings P of values of an extension of F. Nothing is read of `rooms`.
fn extension_row_agrees<F, S, P, const D: usize>(
    alloc: Global,
    rooms: Option<ExtensionRooms<F, S, P, D>>,
    case: &Case,
) -> Result<bool, AllocError>
where
    F: FrobeniusExtendable<D, S> + ExtensionOverAlgebra<P, D, S> + Packable + Numbered,
    S: ExtensionShape,
    P: PackedField<F> + HoldsScalar<F> + Numbered,
{
    row_agrees::<F, ExtField<F, D, S, F>, PackedExtField<F, D, S, P>>(alloc, rooms, case)
}

/// `quotient_or_total_agrees` over packings P of values of an extension of F. Nothing is read of `_rooms`.
fn extension_quotient_or_total_agrees<F, S, P, const D: usize>(
    alloc: Global,
    _rooms: Option<ExtensionRooms<F, S, P, D>>,
    case: &Case,
) -> Result<bool, AllocError>
where
    F: FrobeniusExtendable<D, S> + ExtensionOverAlgebra<P, D, S> + Packable + Numbered,
    S: ExtensionShape,
    P: PackedField<F> + HoldsScalar<F> + Numbered,
{
    quotient_or_total_agrees::<F, ExtField<F, D, S, F>, PackedExtField<F, D, S, P>>(alloc, case)
}

/// The calls over packings of this type of values of an extension of F. What the extension owes is a bound of
/// the method: a function over a marker and any such packing passes it from the packing's algebra alone, and
/// the call at so many lanes passes that algebra once.
pub(crate) trait ExtensionCalls<
    F: PrimeCharacteristicRing,
    S: ExtensionShape,
    const D: usize,
>: Algebra<F> {
    /// What the calls make values of. Of an associated type it is known that its values have room.
    type Rooms: Drop;

    /// Whether a call has its answer. Nothing is read of `rooms`.
    fn agrees(alloc: Global, rooms: Option<Self::Rooms>, case: &Case) -> Result<bool, AllocError>
    where
        F: FrobeniusExtendable<D, S> + ExtensionOverAlgebra<Self, D, S>;
}

impl<
    F: Field + Packable + Numbered,
    S: ExtensionShape,
    P: PackedField<F> + HoldsScalar<F> + Numbered,
    const D: usize,
> ExtensionCalls<F, S, D> for P {
    type Rooms = ExtensionRooms<F, S, P, D>;

    fn agrees(
        alloc: Global,
        rooms: Option<ExtensionRooms<F, S, P, D>>,
        case: &Case,
    ) -> Result<bool, AllocError>
    where
        F: FrobeniusExtendable<D, S> + ExtensionOverAlgebra<P, D, S>,
    {
        match case.call {
            Call::Divide | Call::DivideByValue | Call::Sum | Call::Product => {
                extension_quotient_or_total_agrees::<F, S, P, D>(alloc, rooms, case)
            }
            _ => extension_row_agrees::<F, S, P, D>(alloc, rooms, case),
        }
    }
}

/// The calls over packings of this type of the values of F, which is an extension of itself.
pub(crate) trait BaseCalls<F: PrimeCharacteristicRing>: Inhabited {
    /// Whether a call on lanes, or one that gives powers, has its answer.
    fn base_agrees(alloc: Global, case: &Case) -> Result<bool, AllocError>;
}

impl<F: Field + Packable + Numbered, P: PackedField<F> + Numbered> BaseCalls<F> for P {
    fn base_agrees(alloc: Global, case: &Case) -> Result<bool, AllocError> {
        match case.call {
            Call::Lanes(call) => lanes_agree::<F, F, P>(alloc, call, case),
            _ => sequences_agree::<F, F, P>(alloc, case.call, case),
        }
    }
}

/// The calls over packings of this type of complex values of F.
pub(crate) trait ComplexCalls<F: PrimeCharacteristicRing>: Algebra<F> {
    /// A packing of complex values. Of an associated type it is known that its values have room.
    type Packing: Copy;

    /// Whether an operation has its answer. Nothing is read of `_packing`.
    fn complex_agrees(_packing: Option<Self::Packing>, case: &Case) -> bool;
}

impl<F: ComplexExtendable, P: Algebra<F> + Numbered> ComplexCalls<F> for P {
    type Packing = PackedExtField<F, 2, Binomial<F>, P>;

    fn complex_agrees(_packing: Option<PackedExtField<F, 2, Binomial<F>, P>>, case: &Case) -> bool {
        match case.call {
            Call::Operation(operation) => {
                operation_agrees::<PackedExtField<F, 2, Binomial<F>, P>>(operation, case)
            }
            _ => false,
        }
    }
}
