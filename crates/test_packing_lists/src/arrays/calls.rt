//! The calls on arrays by their names, and the lines that name them.
use crate::texts::part;

/// An operation on two arrays, or on one and a scalar.
#[derive(Clone, Copy)]
pub(crate) enum Operation {
    Add,
    Sub,
    Mul,
    Neg,
    Square,
    AddScalar,
    SubScalar,
    MulScalar,
}

/// A sum or a product of arrays, or of scalars.
#[derive(Clone, Copy)]
pub(crate) enum Total {
    Sum,
    Product,
    ScalarSum,
    ScalarProduct,
}

/// A call on arrays.
#[derive(Clone, Copy)]
pub(crate) enum Call {
    Operation(Operation),
    Halve,
    DivScalar,
    Total(Total),
}

impl Call {
    /// The call of a name.
    pub(crate) fn of_name(name: &str) -> Option<Call> {
        match name {
            "add" => Some(Call::Operation(Operation::Add)),
            "sub" => Some(Call::Operation(Operation::Sub)),
            "mul" => Some(Call::Operation(Operation::Mul)),
            "neg" => Some(Call::Operation(Operation::Neg)),
            "square" => Some(Call::Operation(Operation::Square)),
            "add scalar" => Some(Call::Operation(Operation::AddScalar)),
            "sub scalar" => Some(Call::Operation(Operation::SubScalar)),
            "mul scalar" => Some(Call::Operation(Operation::MulScalar)),
            "halve" => Some(Call::Halve),
            "div scalar" => Some(Call::DivScalar),
            "sum" => Some(Call::Total(Total::Sum)),
            "product" => Some(Call::Total(Total::Product)),
            "scalar sum" => Some(Call::Total(Total::ScalarSum)),
            "scalar product" => Some(Call::Total(Total::ScalarProduct)),
            _ => None,
        }
    }
}

/// A line of a table.
#[derive(Clone, Copy)]
pub(crate) struct Row<'a> {
    /// The number of entries.
    pub(crate) entries: usize,
    pub(crate) call: &'a str,
    pub(crate) arguments: &'a str,
    pub(crate) answer: &'a str,
}

impl<'a> Row<'a> {
    /// The row of a line like `3;mul;1,2,3|4,5,6;4,10,1`.
    pub(crate) fn read(line: &'a str) -> Option<Row<'a>> {
        Some(Row {
            entries: part(line, 0).parse::<usize>().ok()?,
            call: part(line, 1),
            arguments: part(line, 2),
            answer: part(line, 3),
        })
    }

    /// The argument at an index, empty past the last one.
    pub(crate) fn argument(self, index: usize) -> &'a str {
        self.arguments.split('|').nth(index).unwrap_or("")
    }
}
