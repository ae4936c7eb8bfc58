//! Constants of a prime field, and what comes of quotients.
ghost use Rattle.std.specs.Prelude.{IsTrue};
ghost use Rattle.p3_theory.specs.Rings.Ring.{Invertible};

use crate::cases::{Case, Constant, QuotientCall};
use p3_field_traits::field::{Field, PrimeField64, TwoAdicField};
use p3_ring::ring::PrimeCharacteristicRing;
use test_values::numbered::{Numbered, holds, value};

/// Whether a constant is the answer.
pub(crate) fn constant_agrees<F: TwoAdicField + PrimeField64 + Numbered>(
    constant: Constant,
    case: &Case,
) -> bool {
    match constant {
        Constant::Generator => holds(&F::generator(), &case.answer),
        Constant::Order => F::order() == Some(F::ORDER_U64 as u128) && case.answers(F::ORDER_U64),
        Constant::OrderU64 => case.answers(F::ORDER_U64),
        Constant::Bits => case.answers(F::bits() as u64),
        Constant::TwoAdicity => case.answers(F::TWO_ADICITY as u64),
    }
}

/// Whether a value has an inverse.
fn has_inverse<F: Field>(value: F) -> bool
    ensures { IsTrue result → Invertible F.ops value }
{
    value.try_inverse().is_some()
}

/// The quotient of two values, zero where there is none.
fn quotient<F: Field>(x: F, y: F) -> F {
    if has_inverse(y) { x / y } else { F::zero() }
}

/// The half of a value, or the quotient by a power of two; none where two has no inverse.
fn half<F: Field>(x: F, call: QuotientCall, exponent: u64) -> Option<F> {
    let two = F::two();
    if !has_inverse(two) {
        return None;
    }
    match call {
        QuotientCall::Halve => Some(x.halve()),
        _ => Some(x.div_2exp_u64(exponent)),
    }
}

/// Whether what comes of a quotient is the answer.
pub(crate) fn quotient_agrees<F: Field + Numbered>(call: QuotientCall, case: &Case) -> bool {
    let x = value::<F>(case.argument(0));
    let found = match call {
        QuotientCall::Divide => Some(quotient(x, value::<F>(case.argument(1)))),
        QuotientCall::Invert => x.try_inverse(),
        _ => half(x, call, case.number(1)),
    };
    match found {
        Some(x) => holds(&x, &case.answer),
        None => false,
    }
}
