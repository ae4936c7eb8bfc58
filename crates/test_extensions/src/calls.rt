//! The calls of extension values, and whether they have their answers.

use crate::cases::{Call, Case, MemoryCall, MixedCall, ValueCall, part};
use crate::values::Listed;
use p3_extension::extension::HasFrobenius;
use p3_extension_traits::basis::{AlgebraIdentity, BasedVectorSpace};
use p3_extension_traits::extension_field::ExtensionField;
use p3_field_traits::field::Field;
use p3_field_traits::sqrt::tonelli_shanks_counted;
use p3_ring::ring::{Algebra, PrimeCharacteristicRing};
use std::alloc::{AllocError, Global};
use std::fmt::Display;
use test_values::canonical::Canonical;
use test_values::lists::{List, at, list_of_text};

/// The coefficients of an answer.
pub fn list_of<T: Listed>(answer: Option<T>) -> Option<List> {
    match answer {
        Some(value) => Some(value.list()),
        None => None,
    }
}

/// The product of two values.
fn product<T: PrimeCharacteristicRing>(x: T, y: T) -> T {
    x * y
}

/// The value that a call answers, if it answers one.
fn value<F: Field + Canonical, EF: HasFrobenius<F> + Listed>(
    call: ValueCall,
    case: Case<'_>,
) -> Option<EF> {
    let x = EF::of_list(&case.list(0));
    let count = case.number(1) as usize;
    match call {
        ValueCall::Square => Some(x.square()),
        ValueCall::Product => Some(product(x, EF::of_list(&case.list(1)))),
        ValueCall::Inverse => x.try_inverse(),
        ValueCall::InverseOrZero => Some(x.pseudo_inv()),
        ValueCall::Image => Some(x.frobenius()),
        ValueCall::ImageAfter => Some(x.repeated_frobenius(count)),
        ValueCall::FromCoefficients => Some(EF::from_list(&case.list(0))),
        ValueCall::Generator => Some(EF::generator()),
        ValueCall::BasisElement => EF::ith_basis_element(case.number(0) as usize),
    }
}

/// The value that a call with a residue answers.
fn mixed_value<F: PrimeCharacteristicRing, EF: Algebra<F>>(call: MixedCall, x: EF, f: F) -> EF {
    match call {
        MixedCall::Embedded => EF::from(f),
        MixedCall::Sum => x + f,
        MixedCall::Difference => x - f,
        MixedCall::Product => x * f,
    }
}

/// Whether the element of the base that a value is, if it is one, is the answer.
fn base_value_agrees<F: Field + Canonical, EF: ExtensionField<F>>(x: EF, answer: &str) -> bool {
    match x.as_base() {
        Some(base) => answer.parse::<u64>() == Ok(base.canonical()),
        None => answer == "None",
    }
}

/// Whether values are those that a text tells, with spaces between them.
pub fn agree_with<T: Listed>(values: &[T], text: &str) -> bool {
    let mut count: usize = 0;
    for word in text.split_ascii_whitespace() {
        match values.get(count) {
            Some(value) if list_of_text(word) == Some(value.list()) => {}
            _ => return false,
        }
        count = count.wrapping_add(1);
    }
    values.len() == count
}

/// Whether the images of a value are the answer.
fn orbit_agrees<F: Field, EF: HasFrobenius<F> + Listed>(
    alloc: Global,
    case: Case<'_>,
) -> Result<bool, AllocError> {
    let orbit = EF::of_list(&case.list(0)).galois_orbit(alloc)?;
    Ok(agree_with(&orbit, case.answer))
}

/// Whether the text of a value is this one.
fn has_text<T: Display>(alloc: Global, x: &T, text: &str) -> Result<bool, AllocError> {
    let answer = x.to_string(alloc)?;
    Ok(answer.as_str() == text)
}

/// Whether the name of an algebra over F is this one.
fn has_name<F: PrimeCharacteristicRing, V: AlgebraIdentity<F>>(
    alloc: Global,
    name: &str,
) -> Result<bool, AllocError> {
    let answer: Vec<u8> = V::algebra_id(alloc)?;
    Ok(answer.as_slice() == name.as_bytes())
}

/// The value of the first coefficients of a list, so many of them, if they make one.
fn of_slice<F: PrimeCharacteristicRing + Canonical, V: BasedVectorSpace<F> + Listed>(
    alloc: Global,
    list: &List,
    count: usize,
) -> Result<Option<List>, AllocError> {
    let mut coefficients: Vec<F> = Vec::new(alloc);
    for i in 0..count {
        coefficients.push(F::of_number(at(list, i)))?;
    }
    Ok(list_of(V::from_basis_coefficients_slice(&coefficients)))
}

/// Whether the sum of the products of two values with the residues of two numbers is the answer.
fn mixed_sum_agrees<F: PrimeCharacteristicRing + Canonical, EF: Algebra<F> + Listed>(
    alloc: Global,
    case: Case<'_>,
) -> Result<bool, AllocError> {
    let numbers = case.list(2);
    let mut values: Vec<EF> = Vec::new(alloc);
    let mut residues: Vec<F> = Vec::new(alloc);
    for i in 0..2 {
        values.push(EF::of_list(&case.list(i)))?;
        residues.push(F::of_number(at(&numbers, i)))?;
    }
    if values.len() != residues.len() {
        return Ok(false);
    }
    let sum = EF::mixed_dot_product(&values, &residues);
    Ok(case.answers(Some(sum.list())))
}

/// Whether a list of so many zeros is the answer.
fn zeros_agree<T: PrimeCharacteristicRing + Listed>(
    alloc: Global,
    case: Case<'_>,
) -> Result<bool, AllocError> {
    let zeros: Vec<T> = T::zero_vec(alloc, case.number(0) as usize)?;
    Ok(agree_with(&zeros, case.answer))
}

/// The text of `a + b X`, written by hand.
fn line_text(alloc: Global, a: u64, b: u64) -> Result<String, AllocError> {
    match (a, b) {
        (_, 0) => format!(in alloc; "{a}"),
        (0, 1) => format!(in alloc; "X"),
        (0, _) => format!(in alloc; "{b} X"),
        (_, 1) => format!(in alloc; "{a} + X"),
        _ => format!(in alloc; "{a} + {b} X"),
    }
}

/// Whether the text of a value is this one, whatever the formatter is told of its form and width.
fn has_texts<T: Display>(alloc: Global, x: &T, text: &str) -> Result<bool, AllocError> {
    Ok(
        format!(in alloc; "{x}")?.as_str() == text
            && format!(in alloc; "{x:#}")?.as_str() == text
            && format!(in alloc; "{x:>8}")?.as_str() == text,
    )
}

/// Whether the texts of all values `a + b X`, a and b below a number, are those written by hand.
fn have_texts<T: Display + Listed>(alloc: Global, count: u64) -> Result<bool, AllocError> {
    for a in 0..count {
        for b in 0..count {
            let text = line_text(alloc, a, b)?;
            let x = T::of_list(&[a, b, 0, 0, 0, 0, 0, 0]);
            if !has_texts(alloc, &x, text.as_str())? {
                return Ok(false);
            }
        }
    }
    Ok(true)
}

/// Whether the root and the turns that the search answers are the answer.
fn root_agrees<T: Field + Listed>(case: Case<'_>) -> bool {
    match T::order() {
        Some(_) => {
            let (root, turns) = tonelli_shanks_counted(T::of_list(&case.list(0)));
            case.answers_root(list_of(root), turns.count())
        }
        None => false,
    }
}

/// Whether the count of values is the answer.
fn order_agrees<T: Field>(answer: &str) -> bool {
    match T::order() {
        Some(order) => answer.parse::<u128>() == Ok(order),
        None => false,
    }
}

/// Whether a call has its answer. Nothing is read of `_room`, which tells that values have room. False where
/// the call is none of those here.
pub fn agrees<F: Field + Canonical, EF: HasFrobenius<F> + Listed>(
    alloc: Global,
    _room: Option<EF>,
    case: Case<'_>,
) -> Result<bool, AllocError> {
    match case.call {
        Call::Value(call) => Ok(case.answers(list_of(value::<F, EF>(call, case)))),
        Call::Mixed(call) => {
            let x = EF::of_list(&case.list(0));
            let found = mixed_value::<F, EF>(call, x, F::of_number(case.number(1)));
            Ok(case.answers(Some(found.list())))
        }
        Call::Memory(call) => memory_agrees::<F, EF>(alloc, call, case),
        Call::BaseValue => {
            Ok(base_value_agrees::<F, EF>(EF::of_list(&case.list(0)), case.answer))
        }
        Call::Root => Ok(root_agrees::<EF>(case)),
        Call::Order => Ok(order_agrees::<EF>(case.answer)),
        _ => Ok(false),
    }
}

/// The same of the calls that take memory.
fn memory_agrees<F: Field + Canonical, EF: HasFrobenius<F> + Listed>(
    alloc: Global,
    call: MemoryCall,
    case: Case<'_>,
) -> Result<bool, AllocError> {
    match call {
        MemoryCall::Orbit => orbit_agrees::<F, EF>(alloc, case),
        MemoryCall::Text => has_text(alloc, &EF::of_list(&case.list(0)), case.answer),
        MemoryCall::TextsBelow => have_texts::<EF>(alloc, case.number(0)),
        MemoryCall::Names => {
            let base = has_name::<F, F>(alloc, part(case.answer, 0))?;
            Ok(base && has_name::<F, EF>(alloc, part(case.answer, 1))?)
        }
        MemoryCall::OfSlice => {
            let count = case.number(1) as usize;
            Ok(case.answers(of_slice::<F, EF>(alloc, &case.list(0), count)?))
        }
        MemoryCall::MixedDotProduct => mixed_sum_agrees::<F, EF>(alloc, case),
        MemoryCall::Zeros => zeros_agree::<EF>(alloc, case),
    }
}
