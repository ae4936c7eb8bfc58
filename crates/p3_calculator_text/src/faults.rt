//! Faults, which end a run, and their numbers.
ghost use Rattle.std.specs.Prelude.{◌≡◌};
ghost use Rattle.p3_calculator_text.specs.Faults.{fault_code};

/// Why a line, or a read, ends the run.
#[derive(Clone, Copy, Debug, PartialEq, Eq, Drop)]
pub enum Fault {
    /// The first word is no command.
    UnknownCommand,
    /// The line has too few words, or too many.
    WordCount,
    /// A word that is to be a register is none.
    BadRegister,
    /// A word that is to be a number is none, or is too large.
    BadNumber,
    /// The value has no inverse.
    NoInverse,
    /// No square root of the value is answered.
    NoRoot,
    /// No field has this name, or none is chosen yet.
    NoField,
    /// The memory for a text was refused.
    NoMemory,
    /// A read failed.
    ReadFault,
    /// There are more than 256 bytes before the line's end.
    LongLine,
}

impl Fault {
    /// The number that the calculator writes for the fault.
    pub fn code(self) -> u8
        ensures { result ≡ fault_code self }
    {
        match self {
            Fault::UnknownCommand => 1,
            Fault::WordCount => 2,
            Fault::BadRegister => 3,
            Fault::BadNumber => 4,
            Fault::NoInverse => 5,
            Fault::NoRoot => 6,
            Fault::NoField => 7,
            Fault::NoMemory => 8,
            Fault::ReadFault => 9,
            Fault::LongLine => 10,
        }
    }
}
