//! What a step's registers are, in the words of the runs.
ghost use Rattle.std.specs.Prelude.{◌↔◌, ℕ};
ghost use Rattle.p3_helpers.specs.Runs.{StepFits};
ghost use Rattle.p3_helpers.specs.FieldRuns.{FieldStepFits};

use crate::steps::{FieldStep, Registers, Step};

/// A step over a ring fits a number of registers where each register that it names is below it.
pub fn step_fits_where_its_registers_do(step: Step, n: usize)
    ensures { ⟦<Step as Registers>⟧.Fits n step ↔ StepFits n step }
{
    let _ = (step, n);
}

/// The same of a step over a field.
pub fn field_step_fits_where_its_registers_do(step: FieldStep, n: usize)
    ensures { ⟦<FieldStep as Registers>⟧.Fits n step ↔ FieldStepFits n step }
{
    let _ = (step, n);
}
