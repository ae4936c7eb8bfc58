//! What a line of the calculator does: it chooses a field, or computes at the chosen one.
ghost use Rattle.std.specs.Prelude.{◌≡◌, OnErr};
ghost use Rattle.p3_calculator_text.specs.Lines.{words};
ghost use Rattle.p3_calculator.specs.Names.{field_named};
ghost use Rattle.p3_calculator.specs.Bank.{state_of};
ghost use Rattle.p3_calculator.specs.Effects.{May, Chooses, chosen};
ghost use Rattle.p3_calculator.specs.Outcomes.{outcome, silent};

use crate::act::without_text;
use crate::bank::Bank;
use p3_calculator_text::commands::{Command, parse_command};
use p3_calculator_text::faults::Fault;
use p3_calculator_text::words::{next_word, one_word};
use std::alloc::Allocator;

/// Chooses a field by its name, with all registers zero. A fault leaves the state as before.
fn open(bank: &mut Bank, name: &[u8]) -> Result<(), Fault>
    ensures chooses { silent result (state_of bank.new) ≡ chosen (field_named name.now) }
    ensures kept { OnErr result (state_of bank.new ≡ state_of bank.old) }
{
    let Some(chosen) = Bank::open(name) else {
        return Err(Fault::NoField);
    };
    *bank = chosen;
    Ok(())
}

/// The line `field NAME`. A fault leaves the state as before.
fn choose(bank: &mut Bank, args: &[u8]) -> Result<(), Fault>
    ensures chooses { Chooses (words args.now) (silent result (state_of bank.new)) }
    ensures kept { OnErr result (state_of bank.new ≡ state_of bank.old) }
{
    let Some(name) = one_word(args) else {
        return Err(Fault::WordCount);
    };
    open(bank, name)
}

/// Carries out a line, and answers its text. A fault leaves the state as before.
pub fn step<A: Allocator + Copy>(
    alloc: A,
    bank: &mut Bank,
    line: &[u8],
) -> Result<Vec<u8, A>, Fault>
    ensures may { May (state_of bank.old) line.now (outcome result (state_of bank.new)) }
    ensures kept { OnErr result (state_of bank.new ≡ state_of bank.old) }
{
    if line.len() > 256 {
        return Err(Fault::LongLine);
    }
    let Some((word, args)) = next_word(line) else {
        return Ok(Vec::new(alloc));
    };
    match parse_command(word) {
        None => Err(Fault::UnknownCommand),
        Some(Command::Field) => without_text(alloc, choose(bank, args)),
        Some(Command::Compute(operation)) => bank.act(alloc, operation, args),
    }
}
