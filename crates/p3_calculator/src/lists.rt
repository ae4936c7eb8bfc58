//! The registers of the chosen field, as one of a list of types.
use crate::registers::Registers;
use p3_extension::extension::Complex;

/// These registers, or what the rest of the list has.
#[derive(Drop)]
pub enum OneOf<R, L> {
    This(R),
    Other(L),
}

/// The end of a list.
#[derive(Drop)]
pub struct NoField;

/// Registers of the extension of a field by `X^2 = -1`. They are a type of their own, since the extension is one
/// by `X^D = W` too.
#[derive(Drop)]
pub struct ComplexRegisters<F> {
    pub values: Registers<Complex<F>>,
}
