//! The calls that the rows of tables name, and the numbers of their arguments and answers.
use std::alloc::{AllocError, Global};
use test_values::rows::Row;
use test_values::texts::{named, numbers};

/// A call on the lanes of a packing.
#[derive(Clone, Copy)]
pub(crate) enum LaneCall {
    FromFn,
    FromSlice,
    SetLane,
    AddToLane,
    Extract,
    ToSlice,
    Transpose,
}

/// An operation of a ring.
#[derive(Clone, Copy)]
pub(crate) enum Operation {
    Add,
    Sub,
    Mul,
    Neg,
    Double,
    Square,
    Cube,
    Exp,
    Mul2Exp,
}

/// An operation on a value of an algebra and one of its ring.
#[derive(Clone, Copy)]
pub(crate) enum MixedOperation {
    From,
    Add,
    Sub,
    Mul,
    DotProduct,
}

/// What the right side of a mixed operation is.
#[derive(Clone, Copy)]
pub(crate) enum RightSide {
    Packing,
    Value,
}

/// What a row calls. Columns and scales are two.
#[derive(Clone, Copy)]
pub(crate) enum Call {
    Lanes(LaneCall),
    Invert,
    Pack,
    Unpack,
    Powers,
    CappedPowers,
    /// The values of packings one after the other.
    Values,
    Operation(Operation),
    DotProduct,
    Halve,
    Mixed(MixedOperation, RightSide),
    DivideByValue,
    Divide,
    Sum,
    Product,
    /// Adds products.
    Columnwise,
    GenericColumnwise,
}

/// The calls on lanes and columns by their names.
static CALLS: [(&str, Call); 15] = [
    ("from_ext_fn", Call::Lanes(LaneCall::FromFn)),
    ("from_ext_slice", Call::Lanes(LaneCall::FromSlice)),
    ("set_ext_lane", Call::Lanes(LaneCall::SetLane)),
    ("add_assign_lane", Call::Lanes(LaneCall::AddToLane)),
    ("extract", Call::Lanes(LaneCall::Extract)),
    ("to_ext_slice", Call::Lanes(LaneCall::ToSlice)),
    ("unpack_transpose_into", Call::Lanes(LaneCall::Transpose)),
    ("pack_ext_columns 2", Call::Pack),
    ("unpack_ext_into 2", Call::Unpack),
    ("packed_ext_powers", Call::Powers),
    ("packed_ext_powers_capped", Call::CappedPowers),
    ("to_ext_iter", Call::Values),
    ("invert_packed_extension", Call::Invert),
    ("batched_columnwise_dot_product 2", Call::Columnwise),
    (
        "generic_batched_columnwise_dot_product 2",
        Call::GenericColumnwise,
    ),
];

/// The operations by their names.
static OPERATIONS: [(&str, Call); 25] = [
    ("add", Call::Operation(Operation::Add)),
    ("sub", Call::Operation(Operation::Sub)),
    ("mul", Call::Operation(Operation::Mul)),
    ("neg", Call::Operation(Operation::Neg)),
    ("double", Call::Operation(Operation::Double)),
    ("square", Call::Operation(Operation::Square)),
    ("cube", Call::Operation(Operation::Cube)),
    ("exp_u64", Call::Operation(Operation::Exp)),
    ("mul_2exp_u64", Call::Operation(Operation::Mul2Exp)),
    ("dot_product", Call::DotProduct),
    ("halve", Call::Halve),
    ("sum", Call::Sum),
    ("product", Call::Product),
    ("div", Call::Divide),
    ("div value", Call::DivideByValue),
    (
        "from packing",
        Call::Mixed(MixedOperation::From, RightSide::Packing),
    ),
    (
        "add packing",
        Call::Mixed(MixedOperation::Add, RightSide::Packing),
    ),
    (
        "sub packing",
        Call::Mixed(MixedOperation::Sub, RightSide::Packing),
    ),
    (
        "mul packing",
        Call::Mixed(MixedOperation::Mul, RightSide::Packing),
    ),
    (
        "mixed_dot_product packing",
        Call::Mixed(MixedOperation::DotProduct, RightSide::Packing),
    ),
    (
        "from value",
        Call::Mixed(MixedOperation::From, RightSide::Value),
    ),
    (
        "add value",
        Call::Mixed(MixedOperation::Add, RightSide::Value),
    ),
    (
        "sub value",
        Call::Mixed(MixedOperation::Sub, RightSide::Value),
    ),
    (
        "mul value",
        Call::Mixed(MixedOperation::Mul, RightSide::Value),
    ),
    (
        "mixed_dot_product value",
        Call::Mixed(MixedOperation::DotProduct, RightSide::Value),
    ),
];

/// The call that a row names; an operation stands behind `packed_ext`.
fn call_of(name: &str) -> Option<Call> {
    match name.strip_prefix("packed_ext ") {
        Some(operation) => named(&OPERATIONS, operation),
        None => named(&CALLS, name),
    }
}

/// A row's call, and the numbers of its arguments and its answer.
#[derive(Drop)]
pub(crate) struct Case {
    pub(crate) call: Call,
    pub(crate) arguments: Vec<Vec<u64>>,
    pub(crate) answer: Vec<u64>,
}

impl Case {
    /// The case of a row, where it names a call.
    pub(crate) fn read(alloc: Global, row: Row<'_>) -> Result<Option<Case>, AllocError> {
        let Some(call) = call_of(row.call) else {
            return Ok(None);
        };
        let mut arguments = Vec::new(alloc);
        for text in row.arguments.split('|') {
            arguments.push(numbers(alloc, text)?)?;
        }
        let answer = numbers(alloc, row.answer)?;
        Ok(Some(Case {
            call,
            arguments,
            answer,
        }))
    }

    /// The numbers of the argument at an index, none where there is none.
    pub(crate) fn argument(&self, index: usize) -> &[u64] {
        match self.arguments.get(index) {
            Some(numbers) => numbers,
            None => &[],
        }
    }

    /// The first number of the argument at an index, zero where there is none.
    pub(crate) fn size(&self, index: usize) -> usize {
        match self.argument(index).first() {
            Some(number) => *number as usize,
            None => 0,
        }
    }
}
