//! Runs of steps over registers.
pub mod field_steps;

ghost use Rattle.std.specs.Prelude.{◌≡◌, ◌↔◌, ℕ, All, IsTrue, length, slice_set};
ghost use Rattle.p3_helpers.specs.Runs.{StepFits, Fit, destination, after_step, run};

pub use field_steps::{FieldStep, StepFault, StepRefused, run_field_steps};
use p3_ring::ring::PrimeCharacteristicRing;

/// One step over registers: register `d` becomes the named operation on registers `a` and `b` as
/// they stand. This project's own.
#[derive(Clone, Copy, Debug, PartialEq, Eq)]
pub enum Step {
    /// The sum.
    Add { d: usize, a: usize, b: usize },
    /// The difference.
    Sub { d: usize, a: usize, b: usize },
    /// The product.
    Mul { d: usize, a: usize, b: usize },
    /// The negation.
    Neg { d: usize, a: usize },
    /// The square.
    Square { d: usize, a: usize },
    /// The double.
    Double { d: usize, a: usize },
    /// The power e.
    Exp { d: usize, a: usize, e: u64 },
    /// The product with two to the power e.
    Mul2Exp { d: usize, a: usize, e: u64 },
}

impl Step {
    /// The register that the step writes.
    #[inline]
    fn destination(&self) -> usize
        ensures { result ≡ destination self.now }
    {
        match *self {
            Step::Add { d, a: _, b: _ }
            | Step::Sub { d, a: _, b: _ }
            | Step::Mul { d, a: _, b: _ } => d,
            Step::Neg { d, a: _ } | Step::Square { d, a: _ } | Step::Double { d, a: _ } => d,
            Step::Exp { d, a: _, e: _ } | Step::Mul2Exp { d, a: _, e: _ } => d,
        }
    }
}

/// What names registers: a step over a ring, or one over a field. This project's own.
pub trait Registers {
    /// The registers that a step names are below a number.
    ghost Fits: { ℕ → Self → Type 0 };

    /// Whether every register that the step names is below `n`.
    fn fits(&self, n: usize) -> bool
        ensures { IsTrue result ↔ Fits n self.now };
}

impl Registers for Step {
    ghost Fits = { StepFits };

    #[inline]
    fn fits(&self, n: usize) -> bool {
        match *self {
            Step::Add { d, a, b } | Step::Sub { d, a, b } | Step::Mul { d, a, b } => {
                d < n && a < n && b < n
            }
            Step::Neg { d, a } | Step::Square { d, a } | Step::Double { d, a } => d < n && a < n,
            Step::Exp { d, a, e: _ } | Step::Mul2Exp { d, a, e: _ } => d < n && a < n,
        }
    }
}

/// Whether every register that the steps name is below `n`; true for no steps. It is the test of
/// what the runs require.
#[inline]
pub fn steps_fit<S: Registers>(steps: &[S], n: usize) -> bool
    ensures { IsTrue result ↔ All (S.Fits n) steps.now }
{
    steps.iter().all(|step| step.fits(n))
}

/// What a step gives the register that it writes.
#[inline]
fn step_value<R: PrimeCharacteristicRing>(regs: &[R], step: &Step) -> R
    requires { StepFits (length regs.now) step.now }
    ensures { slice_set regs.now (destination step.now) result ≡ after_step R.ops step.now regs.now }
{
    match *step {
        Step::Add { d: _, a, b } => regs[a] + regs[b],
        Step::Sub { d: _, a, b } => regs[a] - regs[b],
        Step::Mul { d: _, a, b } => regs[a] * regs[b],
        Step::Neg { d: _, a } => -regs[a],
        Step::Square { d: _, a } => regs[a].square(),
        Step::Double { d: _, a } => regs[a].double(),
        Step::Exp { d: _, a, e } => regs[a].exp_u64(e),
        Step::Mul2Exp { d: _, a, e } => regs[a].mul_2exp_u64(e),
    }
}

/// Carries out one step.
#[inline]
fn run_step<R: PrimeCharacteristicRing>(regs: &mut [R], step: &Step)
    requires { StepFits (length regs.old) step.now }
    ensures { regs.new ≡ after_step R.ops step.now regs.old }
{
    let value = step_value(regs, step);
    let d = step.destination();
    regs[d] = value;
}

/// Carries out the steps, one after the other, over registers of any ring. Over an extension each
/// register so holds the value modulo the extension's polynomial.
#[inline]
pub fn run_steps<R: PrimeCharacteristicRing>(regs: &mut [R], steps: &[Step])
    requires { Fit (length regs.old) steps.now }
    ensures { regs.new ≡ run R.ops steps.now regs.old }
{
    for step in steps {
        run_step(regs, step);
    }
}
