//! The commands of the calculator's lines, and their words.
ghost use Rattle.std.specs.Prelude.{◌≡◌, Some};
ghost use Rattle.p3_calculator_text.specs.Words.{command_of};

/// What a line asks for by its first word.
#[derive(Clone, Copy, Debug, PartialEq, Eq)]
pub enum Command {
    /// A field is chosen.
    Field,
    /// Something is computed at the chosen field.
    Compute(Operation),
}

/// What a line computes at the chosen field.
#[derive(Clone, Copy, Debug, PartialEq, Eq)]
pub enum Operation {
    /// A register is set to the value of the coefficients that are given.
    Put,
    /// A register is set to what an operation gives of two registers.
    Binary(BinaryOperation),
    /// A register is set to what an operation gives of a register.
    Unary(UnaryOperation),
    /// A register is set to a power of a register.
    Pow,
    /// A register is set to the inverse of a register.
    Inv,
    /// A register is set to a square root of a register.
    Sqrt,
    /// A register's value is written.
    Show,
}

/// An operation on two values.
#[derive(Clone, Copy, Debug, PartialEq, Eq)]
pub enum BinaryOperation {
    /// The sum.
    Add,
    /// The difference.
    Sub,
    /// The product.
    Mul,
}

/// An operation on one value.
#[derive(Clone, Copy, Debug, PartialEq, Eq)]
pub enum UnaryOperation {
    /// The negation.
    Neg,
    /// The square.
    Sq,
    /// The double.
    Dbl,
}

/// The command of an operation on two registers.
fn binary(operation: BinaryOperation) -> Option<Command>
    ensures { result ≡ Some (Command.Compute (Operation.Binary operation)) }
{
    Some(Command::Compute(Operation::Binary(operation)))
}

/// The command of an operation on a register.
fn unary(operation: UnaryOperation) -> Option<Command>
    ensures { result ≡ Some (Command.Compute (Operation.Unary operation)) }
{
    Some(Command::Compute(Operation::Unary(operation)))
}

/// The command that a word names.
pub fn parse_command(word: &[u8]) -> Option<Command>
    ensures { result ≡ command_of word.now }
{
    match word {
        b"field" => Some(Command::Field),
        b"put" => Some(Command::Compute(Operation::Put)),
        b"add" => binary(BinaryOperation::Add),
        b"sub" => binary(BinaryOperation::Sub),
        b"mul" => binary(BinaryOperation::Mul),
        b"neg" => unary(UnaryOperation::Neg),
        b"sq" => unary(UnaryOperation::Sq),
        b"dbl" => unary(UnaryOperation::Dbl),
        b"pow" => Some(Command::Compute(Operation::Pow)),
        b"inv" => Some(Command::Compute(Operation::Inv)),
        b"sqrt" => Some(Command::Compute(Operation::Sqrt)),
        b"show" => Some(Command::Compute(Operation::Show)),
        _ => None,
    }
}
