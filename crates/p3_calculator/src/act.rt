//! The operations of a line, over the registers of any field.
ghost use Rattle.std.specs.Prelude.{◌≡◌, ◌≢◌, ◌++◌, ◌∷◌, [], ℕ, List, Some, None, length, IfOk, OnErr, IfSome, IfNone};
ghost use Rattle.p3_theory.specs.Rings.Powers.{power};
ghost use Rattle.p3_calculator_text.specs.Lines.{words};
ghost use Rattle.p3_calculator.specs.Registers.{state_at};
ghost use Rattle.p3_calculator.specs.Display.{display};
ghost use Rattle.p3_calculator.specs.States.{State};
ghost use Rattle.p3_calculator.specs.Fields.{order, dimension, ops};
ghost use Rattle.p3_calculator.specs.Premise.{MeetsPremise};
ghost use Rattle.p3_calculator.specs.Effects.{Computes, numbers_below, IsInverse, IsRoot, binary, unary};
ghost use Rattle.p3_calculator.specs.Outcomes.{outcome, silent};

use crate::field::CalculatorField;
use crate::registers::Registers;
use p3_calculator_text::commands::{BinaryOperation, Operation, UnaryOperation};
use p3_calculator_text::faults::Fault;
use p3_calculator_text::words::{
    has_words, next_word, one_register, parse_number, parse_register, registers_and_number,
    three_registers, two_registers,
};
use std::alloc::{AllocError, Allocator};

/// The value whose coefficients are the words of a line, as many as a value has.
fn read_value<F: CalculatorField>(line: &[u8]) -> Option<F>
    requires { length (words line.now) ≡ dimension F.spec }
    ensures some { IfSome result (λ x. numbers_below (order F.spec) (words line.now) ≡ Some (F.coefficients x)) }
    ensures none { IfNone result (numbers_below (order F.spec) (words line.now) ≡ None) }
{
    let mut x = F::zero();
    let mut rest = line;
    for i in 0..F::coefficient_count() {
        let Some((word, more)) = next_word(rest) else {
            return None;
        };
        let Some(c) = parse_number(word, F::base_order() - 1) else {
            return None;
        };
        x = x.with_coefficient(i, c);
        rest = more;
    }
    Some(x)
}

/// A value's text and byte 10. Nothing else of the calculator takes memory.
fn text_of<F: CalculatorField, A: Allocator + Copy>(
    alloc: A,
    x: F,
) -> Result<Vec<u8, A>, AllocError>
    ensures { IfOk result (λ text. text.items ≡ display (F.coefficients x) ++ 10 ∷ []) }
{
    let mut text = x.text(alloc)?.into_bytes();
    text.push(b'\n')?;
    Ok(text)
}

/// What an operation gives of two values.
fn of_two<F: CalculatorField>(operation: BinaryOperation, x: F, y: F) -> F
    ensures { F.coefficients result ≡ binary operation (ops F.spec) (F.coefficients x) (F.coefficients y) }
{
    match operation {
        BinaryOperation::Add => x.sum(y),
        BinaryOperation::Sub => x.difference(y),
        BinaryOperation::Mul => x.product(y),
    }
}

/// What an operation gives of a value.
fn of_one<F: CalculatorField>(operation: UnaryOperation, x: F) -> F
    ensures { F.coefficients result ≡ unary operation (ops F.spec) (F.coefficients x) }
{
    match operation {
        UnaryOperation::Neg => x.negation(),
        UnaryOperation::Sq => x.squared(),
        UnaryOperation::Dbl => x.doubled(),
    }
}

/// A power of a value.
fn power<F: CalculatorField>(x: F, exponent: u64) -> F
    ensures { F.coefficients result ≡ power (ops F.spec) (F.coefficients x) exponent }
{
    x.power(exponent)
}

/// An inverse of a value, where it has one.
fn inverse<F: CalculatorField>(x: F) -> Option<F>
    ensures some { IfSome result (λ y. IsInverse F.spec (F.coefficients x) (F.coefficients y)) }
    ensures none { IfNone result ((y : List ℕ) → IsInverse F.spec (F.coefficients x) y → ⊥) }
{
    x.inverse()
}

/// A square root of a value, where one is answered.
fn root<F: CalculatorField>(x: F) -> Option<F>
    ensures some { IfSome result (λ y. IsRoot F.spec (F.coefficients x) (F.coefficients y)) }
    ensures nonzero { IfNone result (F.coefficients x ≢ (ops F.spec).zero) }
    ensures none { IfNone result (MeetsPremise F.spec → (y : List ℕ) → IsRoot F.spec (F.coefficients x) y → ⊥) }
{
    x.root()
}

/// The line `put R c0 ..`.
fn put<F: CalculatorField>(regs: &mut Registers<F>, args: &[u8]) -> Result<(), Fault>
    ensures computes { let old = state_at F.spec F.coefficients regs.old in let new = state_at F.spec F.coefficients regs.new in
        Computes Operation.Put F.spec old.registers (words args.now) (silent result new) }
    ensures kept { OnErr result (state_at F.spec F.coefficients regs.new ≡ state_at F.spec F.coefficients regs.old) }
{
    let Some((r, rest)) = next_word(args) else {
        return Err(Fault::WordCount);
    };
    if !has_words(rest, F::coefficient_count()) {
        return Err(Fault::WordCount);
    }
    let Some(r) = parse_register(r) else {
        return Err(Fault::BadRegister);
    };
    let Some(x) = read_value::<F>(rest) else {
        return Err(Fault::BadNumber);
    };
    regs.set(r, x);
    Ok(())
}

/// The lines `add R A B`, `sub R A B` and `mul R A B`.
fn set_from_two<F: CalculatorField>(
    operation: BinaryOperation,
    regs: &mut Registers<F>,
    args: &[u8],
) -> Result<(), Fault>
    ensures computes { let old = state_at F.spec F.coefficients regs.old in let new = state_at F.spec F.coefficients regs.new in
        Computes (Operation.Binary operation) F.spec old.registers (words args.now) (silent result new) }
    ensures kept { OnErr result (state_at F.spec F.coefficients regs.new ≡ state_at F.spec F.coefficients regs.old) }
{
    let (r, a, b) = three_registers(args)?;
    let x = of_two(operation, regs.get(a), regs.get(b));
    regs.set(r, x);
    Ok(())
}

/// The lines `neg R A`, `sq R A` and `dbl R A`.
fn set_from_one<F: CalculatorField>(
    operation: UnaryOperation,
    regs: &mut Registers<F>,
    args: &[u8],
) -> Result<(), Fault>
    ensures computes { let old = state_at F.spec F.coefficients regs.old in let new = state_at F.spec F.coefficients regs.new in
        Computes (Operation.Unary operation) F.spec old.registers (words args.now) (silent result new) }
    ensures kept { OnErr result (state_at F.spec F.coefficients regs.new ≡ state_at F.spec F.coefficients regs.old) }
{
    let (r, a) = two_registers(args)?;
    let x = of_one(operation, regs.get(a));
    regs.set(r, x);
    Ok(())
}

/// The line `pow R A E`.
fn pow<F: CalculatorField>(regs: &mut Registers<F>, args: &[u8]) -> Result<(), Fault>
    ensures computes { let old = state_at F.spec F.coefficients regs.old in let new = state_at F.spec F.coefficients regs.new in
        Computes Operation.Pow F.spec old.registers (words args.now) (silent result new) }
    ensures kept { OnErr result (state_at F.spec F.coefficients regs.new ≡ state_at F.spec F.coefficients regs.old) }
{
    let (r, a, exponent) = registers_and_number(args)?;
    let x = power(regs.get(a), exponent);
    regs.set(r, x);
    Ok(())
}

/// The line `inv R A`.
fn inv<F: CalculatorField>(regs: &mut Registers<F>, args: &[u8]) -> Result<(), Fault>
    ensures computes { let old = state_at F.spec F.coefficients regs.old in let new = state_at F.spec F.coefficients regs.new in
        Computes Operation.Inv F.spec old.registers (words args.now) (silent result new) }
    ensures kept { OnErr result (state_at F.spec F.coefficients regs.new ≡ state_at F.spec F.coefficients regs.old) }
{
    let (r, a) = two_registers(args)?;
    let Some(y) = inverse(regs.get(a)) else {
        return Err(Fault::NoInverse);
    };
    regs.set(r, y);
    Ok(())
}

/// The line `sqrt R A`.
fn sqrt<F: CalculatorField>(regs: &mut Registers<F>, args: &[u8]) -> Result<(), Fault>
    ensures computes { let old = state_at F.spec F.coefficients regs.old in let new = state_at F.spec F.coefficients regs.new in
        Computes Operation.Sqrt F.spec old.registers (words args.now) (silent result new) }
    ensures kept { OnErr result (state_at F.spec F.coefficients regs.new ≡ state_at F.spec F.coefficients regs.old) }
{
    let (r, a) = two_registers(args)?;
    let Some(y) = root(regs.get(a)) else {
        return Err(Fault::NoRoot);
    };
    regs.set(r, y);
    Ok(())
}

/// The line `show R`: its text.
fn show<F: CalculatorField, A: Allocator + Copy>(
    alloc: A,
    regs: &Registers<F>,
    args: &[u8],
) -> Result<Vec<u8, A>, Fault>
    ensures { let state = state_at F.spec F.coefficients regs.now in
        Computes Operation.Show F.spec state.registers (words args.now) (outcome result state) }
{
    let r = one_register(args)?;
    match text_of(alloc, regs.get(r)) {
        Ok(text) => Ok(text),
        Err(_) => Err(Fault::NoMemory),
    }
}

/// What a line answers that writes nothing.
pub fn without_text<A: Allocator + Copy>(
    alloc: A,
    done: Result<(), Fault>,
) -> Result<Vec<u8, A>, Fault>
    ensures { (st : State) → outcome result st ≡ silent done st }
{
    match done {
        Ok(()) => Ok(Vec::new(alloc)),
        Err(fault) => Err(fault),
    }
}

/// Carries out a line that writes nothing at the chosen field. A fault leaves the registers as before.
fn change<F: CalculatorField>(
    operation: Operation,
    regs: &mut Registers<F>,
    args: &[u8],
) -> Result<(), Fault>
    requires { operation ≢ Operation.Show }
    ensures computes { let old = state_at F.spec F.coefficients regs.old in let new = state_at F.spec F.coefficients regs.new in
        Computes operation F.spec old.registers (words args.now) (silent result new) }
    ensures kept { OnErr result (state_at F.spec F.coefficients regs.new ≡ state_at F.spec F.coefficients regs.old) }
{
    match operation {
        Operation::Put => put(regs, args),
        Operation::Binary(f) => set_from_two(f, regs, args),
        Operation::Unary(f) => set_from_one(f, regs, args),
        Operation::Pow => pow(regs, args),
        Operation::Inv => inv(regs, args),
        Operation::Sqrt => sqrt(regs, args),
        Operation::Show => unreachable!(),
    }
}

/// Carries out a line at the chosen field, and answers its text. A fault leaves the registers as before.
pub fn act<F: CalculatorField, A: Allocator + Copy>(
    alloc: A,
    operation: Operation,
    regs: &mut Registers<F>,
    args: &[u8],
) -> Result<Vec<u8, A>, Fault>
    ensures computes { let old = state_at F.spec F.coefficients regs.old in let new = state_at F.spec F.coefficients regs.new in
        Computes operation F.spec old.registers (words args.now) (outcome result new) }
    ensures kept { OnErr result (state_at F.spec F.coefficients regs.new ≡ state_at F.spec F.coefficients regs.old) }
{
    match operation {
        Operation::Show => show(alloc, regs, args),
        _ => without_text(alloc, change(operation, regs, args)),
    }
}
