//! Runs of steps over registers of Goldilocks, whose words are the canonical numbers.
use p3_c_calls::coded::RunStep;
use p3_c_calls::runs::run;
use p3_c_words::refusal::Refusal;
use p3_prime_fields::goldilocks::Goldilocks;
use std::test::Fail;

/// The step with this operation over these registers.
fn step(op: u32, d: u32, a: u32, b: u32) -> RunStep {
    RunStep { op, d, a, b, e: 0 }
}

#[test]
fn steps_over_registers(rt: HostRuntime) -> Result<(), Fail> {
    let mut registers = [5, 7, 0, 0, 0];
    let steps = [step(0, 2, 0, 1), step(2, 3, 2, 1), step(8, 4, 0, 0)];
    assert_eq!(rt;
        run::<Goldilocks, u64>(rt.alloc(), &mut registers, &steps),
        Ok(())
    );
    assert_eq!(rt; registers, [5, 7, 12, 84, 14757395255531667457]);
    let mut registers = [0, 7];
    let steps = [step(5, 1, 1, 1), step(8, 0, 0, 0)];
    let told = run::<Goldilocks, u64>(rt.alloc(), &mut registers, &steps);
    assert_eq!(rt; told, Err(Refusal::NoInverse));
    assert_eq!(rt; registers, [0, 7]);
    Ok(())
}
