//! The calls of values of a field that has two-adic generators.

use crate::calls::list_of;
use crate::cases::{Case, TwoAdicCall};
use crate::values::Listed;
use p3_field_traits::field::TwoAdicField;
use p3_field_traits::sqrt::tonelli_shanks_two_adic_counted;

/// The two-adic generator for so many bits, where there is one.
pub fn generator<T: TwoAdicField>(bits: usize) -> Option<T> {
    if bits <= T::TWO_ADICITY {
        Some(T::two_adic_generator(bits))
    } else {
        None
    }
}

/// Whether the root and the turns that the search by the greatest generator answers are the answer.
fn root_agrees<T: TwoAdicField + Listed>(case: Case<'_>) -> bool {
    match T::order() {
        Some(_) => {
            let (root, turns) = tonelli_shanks_two_adic_counted(T::of_list(&case.list(0)));
            case.answers_root(list_of(root), turns.count())
        }
        None => false,
    }
}

/// Whether a call has its answer. Nothing is read of `_room`, which tells that values have room.
pub fn two_adic_agrees<T: TwoAdicField + Listed>(
    _room: Option<T>,
    call: TwoAdicCall,
    case: Case<'_>,
) -> bool {
    match call {
        TwoAdicCall::TwoAdicity => case.answer.parse::<usize>() == Ok(T::TWO_ADICITY),
        TwoAdicCall::Generator => { case.answers(list_of(generator::<T>(case.number(0) as usize))) }
        TwoAdicCall::Root => root_agrees::<T>(case),
    }
}
