//! What a run of the calculator keeps from byte to byte.
ghost use Rattle.std.specs.Prelude.{◌≡◌, ◌≤◌, length};

use crate::bank::Bank;
use p3_calculator_text::faults::Fault;

/// The bytes of a line so far.
#[derive(Drop)]
pub struct Line {
    pub bytes: [u8; 256],
    pub used: usize,
    ghost within: { used ≤ 256 },
    ghost full: { length bytes ≡ 256 },
}

impl Line {
    /// No bytes.
    #[inline]
    pub fn new() -> Self
        ensures { result.used ≡ 0 }
    {
        Line {
            bytes: [0; 256],
            used: 0,
        }
    }
}

/// What stands between two bytes of the input: the registers, the number of the line that is being
/// read, and its bytes so far.
#[derive(Drop)]
pub struct Machine {
    pub bank: Bank,
    pub number: u128,
    pub line: Line,
}

impl Machine {
    ghost use Rattle.p3_calculator.specs.Bank.{state_of};
    ghost use Rattle.p3_calculator.specs.States.{no_field};

    /// Before the first line.
    pub fn new() -> Self
        ensures number { result.number ≡ 1 }
        ensures used { result.line.used ≡ 0 }
        ensures state { state_of result.bank ≡ no_field }
    {
        Machine {
            bank: Bank::Empty,
            number: 1,
            line: Line::new(),
        }
    }
}

/// Why a run stops before the end of the input.
#[derive(Clone, Copy)]
pub enum Stop {
    /// A line ended it with a fault.
    AtFault(Fault),
    /// A write failed.
    AtWrite,
}
