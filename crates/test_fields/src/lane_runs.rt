//! Runs of steps over packings whose lanes are the values of an extension, whatever its type, and what the registers
//! then hold at each lane. A field is an extension of itself, and its arrays are packings of its values.
use p3_field::laws::run_packed_extension_steps_by_lanes;
use p3_field::steps::{Step, steps_fit};
use p3_field::{ExtensionLanes, FieldArray, Lanes, PackedExtensionRing, PrimeCharacteristicRing};
use p3_prime_fields::form::{Form, Plain};
use p3_prime_fields::fp::Fp;
use p3_prime_fields::small::M17;
use std::alloc::{AllocError, Global};
use std::test::Fail;
use test_values::numbered::Numbered;

/// The packing whose values these numbers tell, lane by lane.
fn packing<F: Copy, EF: PrimeCharacteristicRing + Numbered, PE: PackedExtensionRing<F, EF>>(
    numbers: &[u64],
) -> PE {
    PE::from_ext_fn(|lane: usize| -> EF { EF::read(numbers, lane, 1) })
}

/// Whether the value at each lane is the one that the number there tells.
fn lanes_hold<F, EF: PrimeCharacteristicRing + Numbered, PE: ExtensionLanes<F, EF>>(
    packing: &PE,
    numbers: &[u64],
) -> bool {
    for lane in 0..PE::LANES {
        let value = ExtensionLanes::<F, EF>::extract(packing, lane);
        if numbers.get(lane).copied() != Some(value.number(0)) {
            return false;
        }
    }
    numbers.len() == PE::LANES
}

/// Whether the steps make of registers with some numbers, lane by lane, those with others.
fn run_agrees<F: Copy, EF: PrimeCharacteristicRing + Numbered, PE: PackedExtensionRing<F, EF>>(
    alloc: Global,
    steps: &[Step],
    before: &[[u64; 4]],
    after: &[[u64; 4]],
) -> Result<bool, AllocError> {
    let mut registers: Vec<PE> = Vec::new(alloc);
    for numbers in before {
        registers.push(packing::<F, EF, PE>(numbers))?;
    }
    if !steps_fit(steps, registers.len()) {
        return Ok(false);
    }
    run_packed_extension_steps_by_lanes::<F, EF, PE>(&mut registers, steps);
    for (register, numbers) in registers.iter().zip(after) {
        if !lanes_hold::<F, EF, PE>(register, numbers) {
            return Ok(false);
        }
    }
    Ok(registers.len() == after.len())
}

/// The same over arrays of four values of a field. Nothing is read of `_array`.
fn arrays_agree<F: Lanes<4> + Numbered>(
    alloc: Global,
    _array: Option<FieldArray<F, 4>>,
    steps: &[Step],
    before: &[[u64; 4]],
    after: &[[u64; 4]],
) -> Result<bool, AllocError> {
    run_agrees::<F, F, FieldArray<F, 4>>(alloc, steps, before, after)
}

/// The same over the field of a marker.
fn marker_agrees<W: Form<u32>>(
    alloc: Global,
    steps: &[Step],
    before: &[[u64; 4]],
    after: &[[u64; 4]],
) -> Result<bool, AllocError> {
    arrays_agree::<Fp<W>>(alloc, None, steps, before, after)
}

#[test]
fn runs_lane_by_lane(rt: HostRuntime) -> Result<(), Fail> {
    let steps = [
        Step::Square { d: 1, a: 0 },
        Step::Add { d: 0, a: 0, b: 1 },
        Step::Mul { d: 1, a: 0, b: 1 },
        Step::Neg { d: 0, a: 0 },
    ];
    let before = [[3, 5, 16, 0], [1, 1, 1, 1]];
    let after = [[5, 4, 0, 0], [6, 2, 0, 0]];
    assert!(rt; marker_agrees::<Plain<M17>>(rt.alloc(), &steps, &before, &after)?);
    assert!(rt; !marker_agrees::<Plain<M17>>(rt.alloc(), &steps, &before, &before)?);
    assert!(rt; !marker_agrees::<Plain<M17>>(rt.alloc(), &steps, &[[3, 5, 16, 0]], &after)?);
    Ok(())
}
