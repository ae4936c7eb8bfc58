//! Runs of steps over registers of words.
ghost use Rattle.std.specs.Prelude.{◌≡◌, ◌↔◌, IsTrue, IsSome, IfOk, Some, All, length};
ghost use Rattle.p3_helpers.specs.FieldRuns.{FieldStepFits, FieldFit, RunMay};
ghost use Rattle.p3_c_calls.specs.RunCalls.{decoded, IsStep, AreSteps, WritesRun};

use crate::coded::RunStep;
use p3_c_words::blocks::{values_of, write};
use p3_c_words::refusal::Refusal;
use p3_c_words::stored::Stored;
use p3_field_traits::field::Field;
use p3_helpers::steps::{FieldStep, Registers, StepFault, StepRefused, run_field_steps};
use std::alloc::{AllocError, Global};

/// The step that is written, and `None` where its operation is unknown.
#[inline]
fn decode(step: &RunStep) -> Option<FieldStep>
    ensures { result ≡ decoded step.now }
{
    let d = step.d as usize;
    let a = step.a as usize;
    let b = step.b as usize;
    let e = step.e;
    let named = [
        FieldStep::Add { d, a, b },
        FieldStep::Sub { d, a, b },
        FieldStep::Mul { d, a, b },
        FieldStep::Neg { d, a },
        FieldStep::Square { d, a },
        FieldStep::Double { d, a },
        FieldStep::Exp { d, a, e },
        FieldStep::Mul2Exp { d, a, e },
        FieldStep::Inv { d, a },
        FieldStep::Sqrt { d, a },
    ];
    named.get(step.op as usize).copied()
}

/// Whether the operation is known, and every register that the step names is below `n`.
#[inline]
fn is_step(step: &RunStep, n: usize) -> bool
    ensures { IsTrue result ↔ IsStep n step.now }
{
    match decode(step) {
        Some(known) => known.fits(n),
        None => false,
    }
}

/// Whether that holds of every step.
#[inline]
fn are_steps(steps: &[RunStep], n: usize) -> bool
    ensures { IsTrue result ↔ All (IsStep n) steps.now }
{
    for i in 0..steps.len() {
        let step = steps[i];
        if !is_step(&step, n) {
            return false;
        }
    }
    true
}

/// The step that is written.
#[inline]
fn known_step(step: &RunStep, n: usize) -> FieldStep
    requires { IsStep n step.now }
    ensures named { decoded step.now ≡ Some result }
    ensures fits { FieldStepFits n result }
{
    decode(step).unwrap()
}

/// The steps that are written, as a vector; `Err` where the memory for them is refused.
#[inline]
fn decode_all(alloc: Global, steps: &[RunStep], n: usize) -> Result<Vec<FieldStep>, AllocError>
    requires { All (IsStep n) steps.now }
    ensures steps { IfOk result (λ known. AreSteps steps.now known.items) }
    ensures fit { IfOk result (λ known. FieldFit n known.items) }
{
    let mut known = Vec::with_capacity(alloc, steps.len())?;
    for i in 0..steps.len() {
        let coded = steps[i];
        let step = known_step(&coded, n);
        known.push(step)?;
    }
    Ok(known)
}

/// Carries out the steps over registers of a field whose order is given.
#[inline]
fn run_values<F: Field>(registers: &mut [F], steps: &[FieldStep]) -> Result<(), StepRefused>
    requires fit { FieldFit (length registers.old) steps.now }
    requires given { IsSome F.size }
    ensures run { RunMay F.ops F.size F.generator steps.now 0 registers.old result registers.new }
    ensures length { length registers.new ≡ length registers.old }
{
    run_field_steps(registers, steps)
}

/// Carries out the steps, one after the other, over the values of the registers. Where a step has no value, or memory
/// is refused, the registers are left.
#[inline]
pub fn run<F: Stored<T> + Field, T: Copy>(
    alloc: Global,
    registers: &mut [T],
    steps: &[RunStep],
) -> Result<(), Refusal>
    requires { IsSome F.size }
    ensures { WritesRun F.ops F.words F.size F.generator steps.now registers.old registers.new result }
{
    if !are_steps(steps, registers.len()) {
        return Err(Refusal::Step);
    }
    if !F::all_stand(registers) {
        return Err(Refusal::Word);
    }
    let Ok(known) = decode_all(alloc, steps, registers.len()) else {
        return Err(Refusal::Memory);
    };
    let Ok(mut values) = values_of::<F, T>(alloc, registers) else {
        return Err(Refusal::Memory);
    };
    match run_values(&mut values, &known) {
        Ok(()) => {
            write(&values, registers);
            Ok(())
        }
        Err(refused) => match refused.kind {
            StepFault::NoInverse => Err(Refusal::NoInverse),
            StepFault::NoRoot => Err(Refusal::NoRoot),
        },
    }
}
