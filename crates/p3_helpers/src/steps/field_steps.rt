//! Steps over the registers of a field: those of a ring, inverses and square roots.
ghost use Rattle.std.specs.Prelude.{◌≡◌, ◌↔◌, ℕ, IsTrue, Result, length};
ghost use Rattle.p3_helpers.specs.FieldRuns.{FieldStepFits, FieldFit, OrderGiven, OrdersGiven, StepMay, RunMay};

use super::{Registers, Step, run_step};
use p3_field_traits::field::Field;

/// One step over registers of a field: a step over any ring, an inverse or a square root. Register
/// `d` becomes the value named, of the registers as they stand. This project's own.
#[derive(Clone, Copy, Debug, PartialEq, Eq)]
pub enum FieldStep {
    /// The sum.
    Add { d: usize, a: usize, b: usize },
    /// The difference.
    Sub { d: usize, a: usize, b: usize },
    /// The product.
    Mul { d: usize, a: usize, b: usize },
    /// The negation.
    Neg { d: usize, a: usize },
    /// The square.
    Square { d: usize, a: usize },
    /// The double.
    Double { d: usize, a: usize },
    /// The power e.
    Exp { d: usize, a: usize, e: u64 },
    /// The product with two to the power e.
    Mul2Exp { d: usize, a: usize, e: u64 },
    /// An inverse.
    Inv { d: usize, a: usize },
    /// A square root.
    Sqrt { d: usize, a: usize },
}

/// Why a step is refused. This project's own.
#[derive(Clone, Copy, Debug, PartialEq, Eq)]
pub enum StepFault {
    /// The value has no inverse.
    NoInverse,
    /// No square root of the value is answered.
    NoRoot,
}

/// The first step that was refused, counted from 0, and why. This project's own.
#[derive(Clone, Copy, Debug, PartialEq, Eq)]
pub struct StepRefused {
    /// The index of the step in the list.
    pub index: usize,
    /// Why it was refused.
    pub kind: StepFault,
}

impl Registers for FieldStep {
    ghost Fits = { FieldStepFits };

    #[inline]
    fn fits(&self, n: usize) -> bool {
        match *self {
            FieldStep::Add { d, a, b } | FieldStep::Sub { d, a, b } | FieldStep::Mul { d, a, b } =>
                { d < n && a < n && b < n }
            FieldStep::Neg { d, a } | FieldStep::Square { d, a } | FieldStep::Double { d, a } => {
                d < n && a < n
            }
            FieldStep::Exp { d, a, e: _ } | FieldStep::Mul2Exp { d, a, e: _ } => d < n && a < n,
            FieldStep::Inv { d, a } | FieldStep::Sqrt { d, a } => d < n && a < n,
        }
    }
}

/// Sets register `d` to an inverse of register `a`.
#[inline]
fn invert<F: Field>(regs: &mut [F], d: usize, a: usize) -> Result<(), StepFault>
    requires { FieldStepFits (length regs.old) (FieldStep.Inv d a) }
    ensures { StepMay F.ops F.size F.generator (FieldStep.Inv d a) regs.old result regs.new }
{
    let Some(inverse) = regs[a].try_inverse() else {
        return Err(StepFault::NoInverse);
    };
    regs[d] = inverse;
    Ok(())
}

/// Sets register `d` to a square root of register `a`.
#[inline]
fn take_root<F: Field>(regs: &mut [F], d: usize, a: usize) -> Result<(), StepFault>
    requires fit { FieldStepFits (length regs.old) (FieldStep.Sqrt d a) }
    requires given { OrderGiven F.size (FieldStep.Sqrt d a) }
    ensures { StepMay F.ops F.size F.generator (FieldStep.Sqrt d a) regs.old result regs.new }
{
    let Some(root) = regs[a].try_sqrt() else {
        return Err(StepFault::NoRoot);
    };
    regs[d] = root;
    Ok(())
}

/// Carries out one step.
#[inline]
fn run_field_step<F: Field>(regs: &mut [F], step: &FieldStep) -> Result<(), StepFault>
    requires fit { FieldStepFits (length regs.old) step.now }
    requires given { OrderGiven F.size step.now }
    ensures { StepMay F.ops F.size F.generator step.now regs.old result regs.new }
{
    match *step {
        FieldStep::Add { d, a, b } => run_step(regs, &Step::Add { d, a, b }),
        FieldStep::Sub { d, a, b } => run_step(regs, &Step::Sub { d, a, b }),
        FieldStep::Mul { d, a, b } => run_step(regs, &Step::Mul { d, a, b }),
        FieldStep::Neg { d, a } => run_step(regs, &Step::Neg { d, a }),
        FieldStep::Square { d, a } => run_step(regs, &Step::Square { d, a }),
        FieldStep::Double { d, a } => run_step(regs, &Step::Double { d, a }),
        FieldStep::Exp { d, a, e } => run_step(regs, &Step::Exp { d, a, e }),
        FieldStep::Mul2Exp { d, a, e } => run_step(regs, &Step::Mul2Exp { d, a, e }),
        FieldStep::Inv { d, a } => return invert(regs, d, a),
        FieldStep::Sqrt { d, a } => return take_root(regs, d, a),
    }
    Ok(())
}

/// Carries out the steps, one after the other, over registers of a field, and refuses at the first
/// step whose value has no inverse, or whose square root isn't answered: the registers stand then as
/// after the steps before it. Where a step takes a root, the order is given; under the finite-field
/// premise a root is refused only where there is none. This project's own.
#[inline]
pub fn run_field_steps<F: Field>(regs: &mut [F], steps: &[FieldStep]) -> Result<(), StepRefused>
    requires fit { FieldFit (length regs.old) steps.now }
    requires given { OrdersGiven F.size steps.now }
    ensures { RunMay F.ops F.size F.generator steps.now 0 regs.old result regs.new }
{
    for index in 0..steps.len() {
        if let Err(kind) = run_field_step(regs, &steps[index]) {
            return Err(StepRefused { index, kind });
        }
    }
    Ok(())
}
