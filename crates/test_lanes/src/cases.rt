//! The calls on packings that the rows of tables name, and the numbers of their arguments and answers.
use std::alloc::{AllocError, Global};
use test_values::rows::Row;
use test_values::texts::{named, numbers};

/// A sum, a difference or a product.
#[derive(Clone, Copy)]
pub(crate) enum Arithmetic {
    Add,
    Sub,
    Mul,
}

/// An operation on one value, and on a number where it takes one.
#[derive(Clone, Copy)]
pub(crate) enum Unary {
    Neg,
    Double,
    Square,
    Cube,
    Exp,
    Mul2Exp,
}

/// An operation of an algebra over a field.
#[derive(Clone, Copy)]
pub(crate) enum Operation {
    /// On two values.
    Binary(Arithmetic),
    /// On a value and a scalar.
    WithScalar(Arithmetic),
    Unary(Unary),
    Halve,
    DotProduct,
    MixedDotProduct,
}

/// A call on the lanes of a packing.
#[derive(Clone, Copy)]
pub(crate) enum LaneCall {
    Broadcast,
    SetLane,
    LoadBlock,
    StoreBlock,
}

/// A call that changes a slice.
#[derive(Clone, Copy)]
pub(crate) enum SliceCall {
    Scale,
    AddScaled,
    AddSlices,
    /// The method of the field, which goes entry by entry.
    AddEntries,
}

/// What a row calls.
#[derive(Clone, Copy)]
pub(crate) enum Call {
    Operation(Operation),
    /// An operator of a scalar and a packing on its right.
    OfScalar(Arithmetic),
    /// An operation on vectors of three packings.
    Vectors(Operation),
    Lanes(LaneCall),
    Divide,
    DivideByScalar,
    Interleave,
    Slices(SliceCall),
    /// Slices of every length up to 17.
    EveryLength,
    Powers,
    ShiftedPowers,
    Collect,
    /// The growths that lists of powers ask for.
    Growths,
    CoefficientSums,
    /// Adds products with so many scales.
    Columnwise(usize),
    /// On five columns.
    Pack,
    Unpack,
}

/// The operations by their names.
static OPERATIONS: [(&str, Operation); 15] = [
    ("add", Operation::Binary(Arithmetic::Add)),
    ("sub", Operation::Binary(Arithmetic::Sub)),
    ("mul", Operation::Binary(Arithmetic::Mul)),
    ("add scalar", Operation::WithScalar(Arithmetic::Add)),
    ("sub scalar", Operation::WithScalar(Arithmetic::Sub)),
    ("mul scalar", Operation::WithScalar(Arithmetic::Mul)),
    ("neg", Operation::Unary(Unary::Neg)),
    ("double", Operation::Unary(Unary::Double)),
    ("square", Operation::Unary(Unary::Square)),
    ("cube", Operation::Unary(Unary::Cube)),
    ("exp_u64", Operation::Unary(Unary::Exp)),
    ("mul_2exp_u64", Operation::Unary(Unary::Mul2Exp)),
    ("halve", Operation::Halve),
    ("dot_product", Operation::DotProduct),
    ("mixed_dot_product", Operation::MixedDotProduct),
];

/// The other calls by their names.
static CALLS: [(&str, Call); 25] = [
    ("scalar add", Call::OfScalar(Arithmetic::Add)),
    ("scalar sub", Call::OfScalar(Arithmetic::Sub)),
    ("scalar mul", Call::OfScalar(Arithmetic::Mul)),
    ("broadcast", Call::Lanes(LaneCall::Broadcast)),
    ("set_lane", Call::Lanes(LaneCall::SetLane)),
    ("load_block", Call::Lanes(LaneCall::LoadBlock)),
    ("store_block", Call::Lanes(LaneCall::StoreBlock)),
    ("div", Call::Divide),
    ("div scalar", Call::DivideByScalar),
    ("interleave", Call::Interleave),
    (
        "scale_slice_in_place_single_core",
        Call::Slices(SliceCall::Scale),
    ),
    (
        "add_scaled_slice_in_place",
        Call::Slices(SliceCall::AddScaled),
    ),
    ("add_slices", Call::Slices(SliceCall::AddSlices)),
    (
        "add_slices of the field",
        Call::Slices(SliceCall::AddEntries),
    ),
    ("slices of every length", Call::EveryLength),
    ("packed_powers", Call::Powers),
    ("packed_shifted_powers", Call::ShiftedPowers),
    ("collect", Call::Collect),
    ("growths of collect", Call::Growths),
    ("coeffwise_dot_product", Call::CoefficientSums),
    (
        "generic_batched_columnwise_dot_product 2",
        Call::Columnwise(2),
    ),
    (
        "generic_batched_columnwise_dot_product 3",
        Call::Columnwise(3),
    ),
    (
        "generic_batched_columnwise_dot_product 4",
        Call::Columnwise(4),
    ),
    ("pack_columns 5", Call::Pack),
    ("unpack_into 5", Call::Unpack),
];

/// The call that a row names.
fn call_of(name: &str) -> Option<Call> {
    if let Some(operation) = name.strip_prefix("vectorized 3 ") {
        return Some(Call::Vectors(named(&OPERATIONS, operation)?));
    }
    match named(&OPERATIONS, name) {
        Some(operation) => Some(Call::Operation(operation)),
        None => named(&CALLS, name),
    }
}

/// A row's call, and the numbers of its arguments and its answer.
#[derive(Drop)]
pub(crate) struct Case {
    pub(crate) call: Call,
    pub(crate) arguments: Vec<Vec<u64>>,
    pub(crate) answer: Vec<u64>,
}

impl Case {
    /// The case of a row, where it names a call.
    pub(crate) fn read(alloc: Global, row: Row<'_>) -> Result<Option<Case>, AllocError> {
        let Some(call) = call_of(row.call) else {
            return Ok(None);
        };
        let mut arguments = Vec::new(alloc);
        for text in row.arguments.split('|') {
            arguments.push(numbers(alloc, text)?)?;
        }
        let answer = numbers(alloc, row.answer)?;
        Ok(Some(Case {
            call,
            arguments,
            answer,
        }))
    }

    /// The numbers of the argument at an index, none where there is none.
    pub(crate) fn argument(&self, index: usize) -> &[u64] {
        match self.arguments.get(index) {
            Some(numbers) => numbers,
            None => &[],
        }
    }

    /// The first number of the argument at an index, zero where there is none.
    pub(crate) fn number(&self, index: usize) -> u64 {
        match self.argument(index).first() {
            Some(number) => *number,
            None => 0,
        }
    }

    /// The same as a size.
    pub(crate) fn size(&self, index: usize) -> usize {
        self.number(index) as usize
    }
}
