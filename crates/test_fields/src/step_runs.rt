//! Runs of steps over registers: worked values, and where a run is refused.
ghost use Rattle.std.specs.Prelude.{IsSome};
ghost use Rattle.p3_helpers.specs.FieldRuns.{OrdersGiven};

use p3_field::steps::{
    FieldStep, Step, StepFault, StepRefused, run_field_steps, run_steps, steps_fit,
};
use p3_field::{Field, PrimeCharacteristicRing};
use p3_prime_fields::extensions::F17x2;
use p3_prime_fields::form::{Form, Plain};
use p3_prime_fields::fp::Fp;
use p3_prime_fields::small::{F17, M17};
use std::process::Abort;
use std::test::Fail;
use test_values::numbered::{Numbered, all_hold, values};

/// Runs the steps where they fit the registers; whether they do.
fn runs<R: PrimeCharacteristicRing>(regs: &mut [R], steps: &[Step]) -> bool {
    let fit = steps_fit(steps, regs.len());
    if fit {
        run_steps(regs, steps);
    }
    fit
}

/// What a run answers, where its steps fit the registers.
fn field_run<F: Field>(regs: &mut [F], steps: &[FieldStep]) -> Option<Result<(), StepRefused>>
    requires { OrdersGiven F.size steps.now }
{
    if steps_fit(steps, regs.len()) {
        Some(run_field_steps(regs, steps))
    } else {
        None
    }
}

/// Asserts runs of steps, whose registers are given.
fn assert_run<F: PrimeCharacteristicRing + Numbered>(rt: &impl Abort, regs: &mut [F]) {
    let steps = [
        Step::Square { d: 1, a: 0 },
        Step::Add { d: 2, a: 0, b: 1 },
        Step::Mul { d: 0, a: 2, b: 1 },
        Step::Sub { d: 1, a: 1, b: 2 },
        Step::Neg { d: 2, a: 2 },
    ];
    assert!(rt; steps_fit(&steps, 3));
    assert!(rt; !steps_fit(&steps, 2));
    assert!(rt; runs(regs, &steps));
    assert!(rt; all_hold(regs, &[6, 14, 5]));
}

/// Asserts that the inverse of the second register is refused, and what the first one then holds.
fn assert_refused_inverse<F: Field + Numbered>(rt: &impl Abort, regs: &mut [F])
    requires { IsSome F.size }
{
    let steps = [FieldStep::Inv { d: 0, a: 0 }, FieldStep::Inv { d: 1, a: 1 }];
    assert!(rt; steps_fit(&steps, 2));
    assert!(rt; !steps_fit(&steps, 1));
    let refused = StepRefused {
        index: 1,
        kind: StepFault::NoInverse,
    };
    assert_eq!(rt; field_run(regs, &steps), Some(Err(refused)));
    assert!(rt; all_hold(regs, &[9, 0]));
}

/// Asserts that the root of the register is refused, and that it holds what it did.
fn assert_refused_root<F: Field + Numbered>(rt: &impl Abort, regs: &mut [F])
    requires { IsSome F.size }
{
    let steps = [FieldStep::Sqrt { d: 0, a: 0 }];
    let refused = StepRefused {
        index: 0,
        kind: StepFault::NoRoot,
    };
    assert_eq!(rt; field_run(regs, &steps), Some(Err(refused)));
    assert!(rt; all_hold(regs, &[3]));
}

/// Asserts a run over a field.
fn assert_field_run<F: Field + Numbered>(rt: &impl Abort, regs: &mut [F])
    requires { IsSome F.size }
{
    let steps = [
        FieldStep::Add { d: 0, a: 0, b: 0 },
        FieldStep::Sqrt { d: 1, a: 0 },
        FieldStep::Square { d: 1, a: 1 },
        FieldStep::Inv { d: 0, a: 0 },
    ];
    assert_eq!(rt; field_run(regs, &steps), Some(Ok(())));
    assert!(rt; all_hold(regs, &[9, 2]));
}

/// What is run over the registers.
#[derive(Clone, Copy)]
enum Run {
    Ring,
    Field,
    RefusedInverse,
    RefusedRoot,
}

/// Asserts a run over registers that hold the residues of these numbers.
fn assert_run_of<F: Field + Numbered>(
    rt: &(impl Abort + AllocGlobal),
    run: Run,
    numbers: &[u64],
) -> Result<(), Fail>
    requires { IsSome F.size }
{
    let mut regs: Vec<F> = values::<F>(rt.alloc(), numbers)?;
    match run {
        Run::Ring => assert_run::<F>(rt, &mut regs),
        Run::Field => assert_field_run::<F>(rt, &mut regs),
        Run::RefusedInverse => assert_refused_inverse::<F>(rt, &mut regs),
        Run::RefusedRoot => assert_refused_root::<F>(rt, &mut regs),
    }
    Ok(())
}

/// The same over the field of a marker.
fn assert_run_over<W: Form<u32>>(
    rt: &(impl Abort + AllocGlobal),
    run: Run,
    numbers: &[u64],
) -> Result<(), Fail> {
    assert_run_of::<Fp<W>>(rt, run, numbers)
}

#[test]
fn runs_over_a_ring(rt: HostRuntime) -> Result<(), Fail> {
    assert_run_over::<Plain<M17>>(&rt, Run::Ring, &[3, 0, 0])
}

#[test]
fn an_inverse_is_refused(rt: HostRuntime) -> Result<(), Fail> {
    assert_run_over::<Plain<M17>>(&rt, Run::RefusedInverse, &[2, 0])
}

#[test]
fn a_root_is_refused(rt: HostRuntime) -> Result<(), Fail> {
    assert_run_over::<Plain<M17>>(&rt, Run::RefusedRoot, &[3])
}

#[test]
fn a_run_over_a_field(rt: HostRuntime) -> Result<(), Fail> {
    assert_run_over::<Plain<M17>>(&rt, Run::Field, &[1, 0])
}

#[test]
fn a_run_over_an_extension(rt: HostRuntime) {
    let x = F17x2::new([F17::new(5), F17::new(1)]);
    let mut regs = [x, x];
    let steps = [
        Step::Square { d: 1, a: 0 },
        Step::Exp { d: 0, a: 0, e: 2 },
        Step::Mul2Exp { d: 0, a: 0, e: 3 },
        Step::Double { d: 1, a: 1 },
    ];
    assert!(rt; runs(&mut regs, &steps));
    assert!(rt; all_hold(&regs, &[3, 12, 5, 3]));
}
