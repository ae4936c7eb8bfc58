//! The calls of the extensions of a field. Nothing is read of the arguments `room`, which tell that values
//! have room.
ghost use Rattle.std.specs.Prelude.{◌<◌};

use crate::calls::agrees;
use crate::cases::{Call, Case, TwoAdicCall};
use crate::two_adic_calls::two_adic_agrees;
use p3_extension::extension::{
    Binomial, BinomialExtensionField, BinomiallyExtendable, ExtField, ExtensionShape,
    FrobeniusExtendable, HasTwoAdicBinomialExtension, TwoAdicExtendable,
};
use std::alloc::{AllocError, Global};
use test_values::canonical::Canonical;
use test_values::lists::{List, at, list_of_text};

/// Whether a call of the extension of degree D by the shape S has its answer.
fn extension_agrees<F: FrobeniusExtendable<D, S> + Canonical, S: ExtensionShape, const D: usize>(
    alloc: Global,
    room: Option<ExtField<F, D, S, F>>,
    case: Case<'_>,
) -> Result<bool, AllocError> {
    agrees::<F, ExtField<F, D, S, F>>(alloc, room, case)
}

/// Whether the coefficients of the two-adic generator for so many bits are these.
fn has_coefficients<F: TwoAdicExtendable<D, S> + Canonical, S: ExtensionShape, const D: usize>(
    bits: usize,
    generator: &List,
) -> bool {
    if bits > <F as TwoAdicExtendable<D, S>>::EXT_TWO_ADICITY {
        return false;
    }
    for i in 0..D {
        let coefficient = <F as TwoAdicExtendable<D, S>>::ext_two_adic_generator(bits, i);
        if coefficient.canonical() != at(generator, i) {
            return false;
        }
    }
    true
}

/// The same of a call of two-adic generators, and of the coefficients that the field gives.
fn two_adic_extension_agrees<
    F: TwoAdicExtendable<D, S> + Canonical,
    S: ExtensionShape,
    const D: usize,
>(room: Option<ExtField<F, D, S, F>>, call: TwoAdicCall, case: Case<'_>) -> bool {
    let has_coefficients = match (call, list_of_text(case.answer)) {
        (TwoAdicCall::Generator, Some(generator)) => {
            has_coefficients::<F, S, D>(case.number(0) as usize, &generator)
        }
        _ => true,
    };
    has_coefficients && two_adic_agrees::<ExtField<F, D, S, F>>(room, call, case)
}

/// W, the root, and the generator candidate's coefficients at 1 and X.
fn constants<F: BinomiallyExtendable<D> + Canonical, const D: usize>() -> List
    requires { 1 < D }
{
    [
        F::w().canonical(),
        F::dth_root().canonical(),
        F::ext_generator(0).canonical(),
        F::ext_generator(1).canonical(),
        0,
        0,
        0,
        0,
    ]
}

/// The same of the extension by `X^D = W`.
pub fn binomial_agrees<F: BinomiallyExtendable<D> + Canonical, const D: usize>(
    alloc: Global,
    room: Option<BinomialExtensionField<F, D>>,
    case: Case<'_>,
) -> Result<bool, AllocError> {
    match case.call {
        Call::Constants => Ok(D >= 2 && case.answers(Some(constants::<F, D>()))),
        _ => extension_agrees::<F, Binomial<F>, D>(alloc, room, case),
    }
}

/// The same of the extension by `X^D = W`, with two-adic generators.
pub fn two_adic_binomial_agrees<F: HasTwoAdicBinomialExtension<D> + Canonical, const D: usize>(
    alloc: Global,
    room: Option<BinomialExtensionField<F, D>>,
    case: Case<'_>,
) -> Result<bool, AllocError> {
    match case.call {
        Call::TwoAdic(call) => {
            Ok(two_adic_extension_agrees::<F, Binomial<F>, D>(room, call, case))
        }
        _ => binomial_agrees::<F, D>(alloc, room, case),
    }
}

/// The same of the extension by the shape S, with two-adic generators.
pub fn two_adic_shape_agrees<
    F: TwoAdicExtendable<D, S> + Canonical,
    S: ExtensionShape,
    const D: usize,
>(alloc: Global, room: Option<ExtField<F, D, S, F>>, case: Case<'_>) -> Result<bool, AllocError> {
    match case.call {
        Call::TwoAdic(call) => Ok(two_adic_extension_agrees::<F, S, D>(room, call, case)),
        _ => extension_agrees::<F, S, D>(alloc, room, case),
    }
}
