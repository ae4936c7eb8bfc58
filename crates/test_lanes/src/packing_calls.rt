//! The calls on packings of a prime field's values, implemented once for all of them.
use crate::cases::{Arithmetic, Call, Case, Operation};
use crate::operations::operation_agrees;
use crate::packing_blocks::interleaved_agree;
use crate::packing_columns::{packed_agree, unpacked_agree};
use crate::packing_lanes::lanes_agree;
use crate::packing_quotients::{quotient_agrees, scalar_quotient_agrees};
use crate::packing_slices::{lengths_agree, slices_agree};
use crate::packing_sums::{coefficients_agree, counted_columnwise_agree};
use crate::power_lists::{list_agrees, lists_grow, powers_agree};
use p3_field_traits::field::Field;
use p3_field_traits::packed_traits::{Inhabited, PackedField, PackedFieldPow2};
use p3_packed_prime_fields::lanes::LaneCountPow2;
use p3_packed_prime_fields::packed::Packed;
use p3_packing_traits::unpacked_rows::UnpackedRows;
use p3_prime_fields::form::{Form, Word};
use p3_prime_fields::fp::Fp;
use p3_ring::ring::Algebra;
use p3_vectorized::vectorized::Vectorized;
use std::alloc::{AllocError, Global};
use test_values::numbered::{Numbered, holds, value};

/// What calls on packings P of values of F make values of: where a signature names them, it is known that they
/// have room.
pub(crate) type Rooms<F, P> = (
    P,
    [F; 5],
    [P; 5],
    [P; 8],
    UnpackedRows<P, 5>,
    Vectorized<F, P, 3>,
);

/// Whether an operation on vectors of three packings has its answer. Nothing is read of `_vector`.
fn vectors_agree<F: Field + Numbered, P: Algebra<F> + Inhabited + Numbered>(
    alloc: Global,
    _vector: Option<Vectorized<F, P, 3>>,
    operation: Operation,
    case: &Case,
) -> Result<bool, AllocError> {
    operation_agrees::<Vectorized<F, P, 3>, F>(alloc, operation, case)
}

/// Whether a call that gives a list or goes over slices, or one on columns or on sums, has its answer. Nothing is
/// read of `_rooms`.
fn lists_agree<F: Field + Numbered, P: PackedField<F> + Numbered>(
    alloc: Global,
    _rooms: Option<Rooms<F, P>>,
    case: &Case,
) -> Result<bool, AllocError> {
    match case.call {
        Call::Slices(call) => slices_agree::<F, P>(alloc, call, case),
        Call::EveryLength => lengths_agree::<F, P>(alloc, case),
        Call::Collect => list_agrees::<F, P>(alloc, case),
        Call::Growths => Ok(lists_grow::<F, P>(alloc, case)),
        Call::CoefficientSums => coefficients_agree::<F, P>(alloc, &[], case),
        Call::Columnwise(scales) => counted_columnwise_agree::<F, P>(alloc, scales, case),
        Call::Pack => packed_agree::<F, P>(alloc, &[], &[], case),
        Call::Unpack => unpacked_agree::<F, P>(alloc, &[], &[], None, case),
        _ => Ok(false),
    }
}

/// Whether a call has its answer.
fn all_agree<F: Field + Numbered, P: PackedFieldPow2<F> + Numbered>(
    alloc: Global,
    rooms: Option<Rooms<F, P>>,
    case: &Case,
) -> Result<bool, AllocError> {
    match case.call {
        Call::Operation(operation) => operation_agrees::<P, F>(alloc, operation, case),
        Call::Vectors(operation) => vectors_agree::<F, P>(alloc, None, operation, case),
        Call::Lanes(call) => lanes_agree::<F, P>(alloc, call, case),
        Call::Divide => Ok(quotient_agrees::<F, P>(case)),
        Call::DivideByScalar => Ok(scalar_quotient_agrees::<F, P>(case)),
        Call::Interleave => Ok(interleaved_agree::<F, P>(case)),
        Call::Powers | Call::ShiftedPowers => Ok(powers_agree::<F, P>(case.call, case)),
        _ => lists_agree::<F, P>(alloc, rooms, case),
    }
}

/// Whether an operator of one value and a packing on its right has its answer. Nothing is read of `_packing`.
fn left_operator_agrees<W: Form<T>, T: Word, const N: usize>(
    _packing: Option<Packed<Fp<W, T>, N>>,
    operator: Arithmetic,
    case: &Case,
) -> bool {
    let scalar = value::<Fp<W, T>>(case.argument(0));
    let packing = value::<Packed<Fp<W, T>, N>>(case.argument(1));
    let found = match operator {
        Arithmetic::Add => scalar + packing,
        Arithmetic::Sub => scalar - packing,
        Arithmetic::Mul => scalar * packing,
    };
    holds(&found, &case.answer)
}

/// The calls on packings of this type: a call at a packing's own name passes the form of its words, and not what
/// the packing has by that.
pub(crate) trait PackingCalls: Copy {
    /// What the calls make values of. Of an associated type it is known that its values have room.
    type Rooms: Drop;

    /// Whether a call has its answer. Nothing is read of `rooms`.
    fn agree(alloc: Global, rooms: Option<Self::Rooms>, case: &Case) -> Result<bool, AllocError>;
}

impl<W: Form<T> + LaneCountPow2<N>, T: Word, const N: usize> PackingCalls for Packed<Fp<W, T>, N> {
    type Rooms = Rooms<Fp<W, T>, Packed<Fp<W, T>, N>>;

    fn agree(
        alloc: Global,
        rooms: Option<Rooms<Fp<W, T>, Packed<Fp<W, T>, N>>>,
        case: &Case,
    ) -> Result<bool, AllocError> {
        match case.call {
            Call::OfScalar(operator) => Ok(left_operator_agrees::<W, T, N>(None, operator, case)),
            _ => all_agree::<Fp<W, T>, Packed<Fp<W, T>, N>>(alloc, rooms, case),
        }
    }
}
