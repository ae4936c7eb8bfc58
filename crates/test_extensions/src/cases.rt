//! The calls that the lines of tables name, their arguments and their answers.

use test_values::lists::{List, ZERO, list_of_text};
use test_values::texts::named;

/// A call that answers a value, or none.
#[derive(Clone, Copy)]
pub enum ValueCall {
    Square,
    Product,
    Inverse,
    InverseOrZero,
    /// The image under the Frobenius map.
    Image,
    /// The image under the map taken so often.
    ImageAfter,
    FromCoefficients,
    /// The generator candidate.
    Generator,
    /// The element of the basis at an index.
    BasisElement,
}

/// A call on a value and the residue of a number, or on the residue alone.
#[derive(Clone, Copy)]
pub enum MixedCall {
    Embedded,
    Sum,
    Difference,
    Product,
}

/// A call that takes memory.
#[derive(Clone, Copy)]
pub enum MemoryCall {
    Orbit,
    Text,
    /// The texts of all values `a + b X`, a and b below a number.
    TextsBelow,
    /// The names as algebras over the base: of the base itself, and of the extension.
    Names,
    /// The value of the first coefficients of a list, so many of them.
    OfSlice,
    /// The sum of the products of two values with the residues of two numbers.
    MixedDotProduct,
    /// A list of so many zeros.
    Zeros,
}

/// A call of a field that has two-adic generators.
#[derive(Clone, Copy)]
pub enum TwoAdicCall {
    TwoAdicity,
    Generator,
    /// The root that the search by the greatest two-adic generator answers, and its turns.
    Root,
}

/// What is asked of an extension.
#[derive(Clone, Copy)]
pub enum Call {
    Value(ValueCall),
    Mixed(MixedCall),
    Memory(MemoryCall),
    TwoAdic(TwoAdicCall),
    /// The element of the base that a value is.
    BaseValue,
    /// The root that the search answers, and its turns.
    Root,
    /// How many values there are.
    Order,
    /// W, the root, and the generator candidate's coefficients at 1 and X, of an extension by `X^D = W`.
    Constants,
}

/// The calls by their names.
static CALLS: [(&str, Call); 27] = [
    ("square", Call::Value(ValueCall::Square)),
    ("mul", Call::Value(ValueCall::Product)),
    ("try_inverse", Call::Value(ValueCall::Inverse)),
    ("pseudo_inv", Call::Value(ValueCall::InverseOrZero)),
    ("frobenius", Call::Value(ValueCall::Image)),
    ("repeated_frobenius", Call::Value(ValueCall::ImageAfter)),
    (
        "from coefficients",
        Call::Value(ValueCall::FromCoefficients),
    ),
    ("generator", Call::Value(ValueCall::Generator)),
    ("ith_basis_element", Call::Value(ValueCall::BasisElement)),
    ("from residue", Call::Mixed(MixedCall::Embedded)),
    ("add residue", Call::Mixed(MixedCall::Sum)),
    ("sub residue", Call::Mixed(MixedCall::Difference)),
    ("mul residue", Call::Mixed(MixedCall::Product)),
    ("galois_orbit", Call::Memory(MemoryCall::Orbit)),
    ("Display", Call::Memory(MemoryCall::Text)),
    ("texts below", Call::Memory(MemoryCall::TextsBelow)),
    ("algebra_id", Call::Memory(MemoryCall::Names)),
    (
        "from_basis_coefficients_slice",
        Call::Memory(MemoryCall::OfSlice),
    ),
    (
        "mixed_dot_product",
        Call::Memory(MemoryCall::MixedDotProduct),
    ),
    ("zero_vec", Call::Memory(MemoryCall::Zeros)),
    ("TWO_ADICITY", Call::TwoAdic(TwoAdicCall::TwoAdicity)),
    ("two_adic_generator", Call::TwoAdic(TwoAdicCall::Generator)),
    ("two-adic root", Call::TwoAdic(TwoAdicCall::Root)),
    ("as_base", Call::BaseValue),
    ("root", Call::Root),
    ("order", Call::Order),
    ("constants", Call::Constants),
];

/// The text at an index of those between bars.
pub fn part(text: &str, index: usize) -> &str {
    text.split('|').nth(index).unwrap_or("")
}

/// What a line tells: a call, its arguments and its answer.
#[derive(Clone, Copy)]
pub struct Case<'a> {
    pub call: Call,
    arguments: &'a str,
    pub answer: &'a str,
}

impl<'a> Case<'a> {
    /// The case of a line like `mul;13,0|6,16;10,4`, where it names a call.
    pub fn read(line: &'a str) -> Option<Case<'a>> {
        let (name, sides) = line.split_once(';')?;
        let (arguments, answer) = sides.split_once(';')?;
        Some(Case {
            call: named(&CALLS, name)?,
            arguments,
            answer,
        })
    }

    /// The text of the argument at an index.
    pub fn argument(self, index: usize) -> &'a str {
        part(self.arguments, index)
    }

    /// The coefficients of the argument at an index, zeros where it tells none.
    pub fn list(self, index: usize) -> List {
        list_of_text(self.argument(index)).unwrap_or(ZERO)
    }

    /// The number of the argument at an index, zero where it tells none.
    pub fn number(self, index: usize) -> u64 {
        self.list(index)[0]
    }

    /// Whether these coefficients are the answer, or none are.
    pub fn answers(self, found: Option<List>) -> bool {
        agrees_with(found, self.answer)
    }

    /// Whether a root, or none, and a count of turns are the answer.
    pub fn answers_root(self, root: Option<List>, turns: u32) -> bool {
        agrees_with(root, part(self.answer, 0))
            && list_of_text(part(self.answer, 1)) == Some([turns as u64, 0, 0, 0, 0, 0, 0, 0])
    }
}

/// Whether a text tells these coefficients, or is `None` where there are none.
pub fn agrees_with(found: Option<List>, text: &str) -> bool {
    match found {
        Some(list) => list_of_text(text) == Some(list),
        None => text == "None",
    }
}
