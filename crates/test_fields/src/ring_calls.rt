//! Operations of a ring, and values that numbers name.
use crate::cases::{Case, Name, Operation};
use p3_extension_traits::const_power::exp_const_u64;
use p3_field_traits::field::{Field, PrimeField64, TwoAdicField};
use p3_ring::ring::PrimeCharacteristicRing;
use p3_ring::sponge::SpongePaddingValue;
use test_values::numbered::{Numbered, holds, value};

/// What an operation gives on three values, or on the first of them and a number.
fn operation<R: PrimeCharacteristicRing>(operation: Operation, x: R, y: R, z: R, number: u64) -> R {
    match operation {
        Operation::Add => x + y,
        Operation::Sub => x - y,
        Operation::Mul => x * y,
        Operation::Xor => x.xor(&y),
        Operation::Xor3 => x.xor3(&y, &z),
        Operation::AndNot => x.andn(&y),
        Operation::BoolCheck => x.bool_check(),
        Operation::Cube => x.cube(),
        Operation::Exp => x.exp_u64(number),
        Operation::ExpPowerOf2 => x.exp_power_of_2(number as usize),
        Operation::SeventhPower => exp_const_u64::<R, 7>(&x),
        Operation::Mul2Exp => x.mul_2exp_u64(number),
    }
}

/// Whether an operation has its answer.
pub(crate) fn operation_agrees<R: PrimeCharacteristicRing + Numbered>(
    name: Operation,
    case: &Case,
) -> bool {
    let x = value::<R>(case.argument(0));
    let y = value::<R>(case.argument(1));
    let z = value::<R>(case.argument(2));
    holds(&operation::<R>(name, x, y, z, case.number(1)), &case.answer)
}

/// The value of a ring that a number names, if any.
fn named<R: PrimeCharacteristicRing>(name: Name) -> Option<R> {
    match name {
        Name::Int8(number) => Some(R::from_i8(number)),
        Name::Int128(number) => Some(R::from_u128(number)),
        Name::Truth(truth) => Some(R::from_bool(truth)),
        Name::PadZero => Some(<R as SpongePaddingValue>::pad_zero()),
        Name::PadOne => Some(<R as SpongePaddingValue>::pad_one()),
        _ => None,
    }
}

/// The two-adic generator for so many bits, where the field has one.
fn two_adic_generator<F: TwoAdicField>(bits: u64) -> Option<F> {
    if bits > F::TWO_ADICITY as u64 {
        return None;
    }
    Some(F::two_adic_generator(bits as usize))
}

/// Whether a value that a number names is the answer.
pub(crate) fn name_agrees<F: TwoAdicField + PrimeField64 + Numbered>(
    name: Name,
    case: &Case,
) -> bool {
    let number = case.number(0);
    let found = match name {
        Name::UniqueNumber => {
            return case.answers(value::<F>(case.argument(0)).to_unique_u64());
        }
        Name::InterpolationNode => Some(F::interpolation_node(number as usize)),
        Name::TwoAdicGenerator => two_adic_generator::<F>(number),
        _ => named::<F>(name),
    };
    match found {
        Some(x) => holds(&x, &case.answer),
        None => false,
    }
}
