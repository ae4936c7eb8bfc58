//! The calls of complex values, and of the extension of degree 2 over them, by numbers.

use crate::cases::Case;
use crate::fields::binomial_agrees;
use crate::two_adic_calls::generator;
use p3_extension::extension::{
    BinomialExtensionField, BinomiallyExtendable, Complex, ComplexExtendable,
    HasComplexBinomialExtension, HasTwoAdicBinomialExtension, HasTwoAdicComplexBinomialExtension,
};
use p3_field_traits::field::Field;
use p3_ring::ring::PrimeCharacteristicRing;
use std::alloc::{AllocError, Global};
use test_values::canonical::Canonical;

/// The numbers of a complex value, its real and its imaginary part.
pub type Pair = [u64; 2];

/// What is asked of complex values.
#[derive(Clone, Copy)]
pub enum PairCall {
    /// The value with these parts.
    Value(Pair),
    /// The value with this real part alone.
    OfReal(u64),
    /// The value with this imaginary part alone.
    OfImaginary(u64),
    /// The conjugate of a value.
    Conjugate(Pair),
    /// The norm of a value, and zero.
    Norm(Pair),
    /// The real part of a value, and its imaginary part.
    Parts(Pair),
    /// The array of both parts.
    Array(Pair),
    /// A value turned by another one.
    Rotated(Pair, Pair),
    /// The generator candidate.
    Generator,
    /// The two-adicity of the circle, and zero.
    CircleTwoAdicity,
    /// The generator of the circle for so many bits.
    CircleGenerator(usize),
    /// W of the extension over complex values.
    W,
    /// The root of unity of that extension.
    Root,
    /// The product of a value and W.
    TimesW(Pair),
    /// The coefficient of the generator candidate of that extension at an index.
    GeneratorCoefficient(usize),
    /// The two-adicity of that extension, and zero.
    TwoAdicity,
    /// The coefficient at an index of that extension's two-adic generator for so many bits.
    TwoAdicCoefficient { bits: usize, index: usize },
}

/// The complex value with these numbers.
fn complex<F: PrimeCharacteristicRing + Canonical>(pair: Pair) -> Complex<F> {
    Complex::<F>::new_complex(F::of_number(pair[0]), F::of_number(pair[1]))
}

/// The numbers of a complex value.
fn pair<F: Canonical>(z: Complex<F>) -> Pair {
    let real = z.value[0];
    let imaginary = z.value[1];
    [real.canonical(), imaginary.canonical()]
}

/// The numbers of an array of both parts.
fn pair_of_array<F: Canonical>(parts: [F; 2]) -> Pair {
    [parts[0].canonical(), parts[1].canonical()]
}

/// A value turned by another one.
fn rotated<F: PrimeCharacteristicRing>(z: Complex<F>, by: Complex<F>) -> Complex<F> {
    z.rotate(&by)
}

/// The numbers that a call of complex values alone answers. Nothing is read of `_room`, which tells that such
/// values have room.
fn ring_answer<F: PrimeCharacteristicRing + Canonical>(
    _room: Option<Complex<F>>,
    call: PairCall,
) -> Option<Pair> {
    match call {
        PairCall::Value(z) => Some(pair(complex::<F>(z))),
        PairCall::OfReal(x) => Some(pair(Complex::<F>::new_real(F::of_number(x)))),
        PairCall::OfImaginary(x) => Some(pair(Complex::<F>::new_imag(F::of_number(x)))),
        PairCall::Conjugate(z) => Some(pair(complex::<F>(z).conjugate())),
        PairCall::Norm(z) => Some([complex::<F>(z).norm().canonical(), 0]),
        PairCall::Parts(z) => {
            let z = complex::<F>(z);
            Some([z.real().canonical(), z.imag().canonical()])
        }
        PairCall::Array(z) => Some(pair_of_array(complex::<F>(z).to_array())),
        PairCall::Rotated(z, by) => Some(pair(rotated(complex::<F>(z), complex(by)))),
        _ => None,
    }
}

/// The generator of the circle for so many bits, if there is one.
fn circle_generator<F: ComplexExtendable>(bits: usize) -> Option<Complex<F>> {
    if bits <= F::CIRCLE_TWO_ADICITY {
        Some(F::circle_two_adic_generator(bits))
    } else {
        None
    }
}

/// The coefficient at an index of the generator candidate of the extension over complex values.
fn generator_coefficient<F: HasComplexBinomialExtension<2>>(index: usize) -> Option<Complex<F>> {
    if index < 2 {
        Some(<F as HasComplexBinomialExtension<2>>::ext_generator(index))
    } else {
        None
    }
}

/// The coefficient at an index of that extension's two-adic generator for so many bits, if there is one.
fn two_adic_coefficient<F: HasTwoAdicComplexBinomialExtension<2>>(
    bits: usize,
    index: usize,
) -> Option<Complex<F>> {
    if bits <= F::COMPLEX_EXT_TWO_ADICITY && index < 2 {
        Some(F::complex_ext_two_adic_generator(bits, index))
    } else {
        None
    }
}

/// The inverse of a value, if there is one, and its product with a second value.
fn inverse_and_product<F: BinomiallyExtendable<2>>(
    y: BinomialExtensionField<F, 2>,
    z: BinomialExtensionField<F, 2>,
) -> (
    Option<BinomialExtensionField<F, 2>>,
    BinomialExtensionField<F, 2>,
) {
    (y.try_inverse(), y * z)
}

/// A value of the extension over complex values. Of an argument of this type it is known that such values have
/// room; nothing is read of it.
type Tower<F> = BinomialExtensionField<Complex<F>, 2>;

/// The value of the extension over complex values with these coefficients.
fn tower<F: PrimeCharacteristicRing + Canonical>(coefficients: [Pair; 2]) -> Tower<F> {
    Tower::<F>::new([complex(coefficients[0]), complex(coefficients[1])])
}

/// The coefficients of a value of the extension over complex values.
fn tower_pairs<F: Canonical>(y: Tower<F>) -> [Pair; 2] {
    [pair(y.value[0]), pair(y.value[1])]
}

/// The coefficients of the inverse in that extension, if there is one, and of the product with a second value.
fn tower_answers<F: HasComplexBinomialExtension<2> + Canonical>(
    _room: Option<Tower<F>>,
    y: [Pair; 2],
    z: [Pair; 2],
) -> (Option<[Pair; 2]>, [Pair; 2]) {
    let (inverse, product) = inverse_and_product::<Complex<F>>(tower(y), tower(z));
    let inverse = match inverse {
        Some(inverse) => Some(tower_pairs(inverse)),
        None => None,
    };
    (inverse, tower_pairs(product))
}

/// The two-adic generator for so many bits, if there is one, which an extension of degree 2 gives as a two-adic field.
fn generator_over<F: HasTwoAdicBinomialExtension<2>>(
    bits: usize,
) -> Option<BinomialExtensionField<F, 2>> {
    generator::<BinomialExtensionField<F, 2>>(bits)
}

/// The coefficients of the extension over complex values' two-adic generator for so many bits, if there is one. Nothing
/// is read of `_room`.
fn tower_generator<F: HasTwoAdicComplexBinomialExtension<2> + Canonical>(
    _room: Option<Tower<F>>,
    bits: usize,
) -> Option<[Pair; 2]> {
    match generator_over::<Complex<F>>(bits) {
        Some(y) => Some(tower_pairs(y)),
        None => None,
    }
}

/// The name of the extension over complex values as an algebra.
fn tower_name<F: HasComplexBinomialExtension<2>>() -> &'static str {
    F::complex_binomial_algebra_id()
}

/// The numbers of an answer.
fn pair_of<F: Canonical>(answer: Option<Complex<F>>) -> Option<Pair> {
    match answer {
        Some(z) => Some(pair(z)),
        None => None,
    }
}

/// The complex value that a call of the field's extensions answers, if it answers one.
fn extension_answer<F: HasTwoAdicComplexBinomialExtension<2> + Canonical>(
    call: PairCall,
) -> Option<Complex<F>> {
    match call {
        PairCall::Generator => Some(F::complex_generator()),
        PairCall::CircleGenerator(bits) => circle_generator::<F>(bits),
        PairCall::W => Some(<F as HasComplexBinomialExtension<2>>::w()),
        PairCall::Root => Some(<F as HasComplexBinomialExtension<2>>::dth_root()),
        PairCall::TimesW(z) => Some(<F as HasComplexBinomialExtension<2>>::mul_by_w(complex(z))),
        PairCall::GeneratorCoefficient(index) => generator_coefficient::<F>(index),
        PairCall::TwoAdicCoefficient { bits, index } => two_adic_coefficient::<F>(bits, index),
        _ => None,
    }
}

/// The numbers that a call answers, if it answers any. Nothing is read of `room`.
fn answer<F: HasTwoAdicComplexBinomialExtension<2> + Canonical>(
    room: Option<Complex<F>>,
    call: PairCall,
) -> Option<Pair> {
    match call {
        PairCall::CircleTwoAdicity => Some([F::CIRCLE_TWO_ADICITY as u64, 0]),
        PairCall::TwoAdicity => Some([F::COMPLEX_EXT_TWO_ADICITY as u64, 0]),
        _ => match ring_answer::<F>(room, call) {
            Some(pair) => Some(pair),
            None => pair_of(extension_answer::<F>(call)),
        },
    }
}

/// What is told of complex values and of the extension over them.
#[derive(Clone, Copy)]
pub enum Task<'a> {
    /// A call and the numbers that it answers.
    Pair(PairCall, Pair),
    /// A call of complex values as an extension.
    Case(Case<'a>),
    /// The inverse of a value of the extension over complex values.
    Inverse([Pair; 2], [Pair; 2]),
    /// The two-adic generator of that extension for so many bits, if there is one.
    Generator(usize, Option<[Pair; 2]>),
    /// The name of that extension as an algebra.
    Name(&'a str),
}

/// Whether the inverse of y is the one that is told, and the product of both is one. Nothing is read of `room`.
fn inverse_agrees<F: HasComplexBinomialExtension<2> + Canonical>(
    room: Option<Tower<F>>,
    y: [Pair; 2],
    inverse: [Pair; 2],
) -> bool {
    let (found, product) = tower_answers::<F>(room, y, inverse);
    found == Some(inverse) && product == [[1, 0], [0, 0]]
}

/// Whether what is told holds: one call at a field passes what the field owes for all of it. Nothing is read of
/// `_rooms`, which tells that values have room.
pub fn task_agrees<F: HasTwoAdicComplexBinomialExtension<2> + Canonical>(
    alloc: Global,
    _rooms: Option<(Complex<F>, Tower<F>)>,
    task: Task<'_>,
) -> Result<bool, AllocError> {
    match task {
        Task::Pair(call, pair) => Ok(answer::<F>(None, call) == Some(pair)),
        Task::Case(case) => binomial_agrees::<F, 2>(alloc, None, case),
        Task::Inverse(y, inverse) => Ok(inverse_agrees::<F>(None, y, inverse)),
        Task::Generator(bits, expected) => Ok(tower_generator::<F>(None, bits) == expected),
        Task::Name(name) => Ok(tower_name::<F>() == name),
    }
}
