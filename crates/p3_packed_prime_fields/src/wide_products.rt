//! Which types have products that take more than a word of 32 bits and go one lane after the other: packings
//! of such types are multiplied by calls in some functions.
use p3_prime_fields::form::{Form, Word};
use p3_prime_fields::fp::Fp;

/// A type whose values are words. Where a product of two words takes more than 32 bits and lanes go one after
/// the other, the compiler finds vectors too dear if a factor is one value in all lanes, or if one packing
/// stands in several dot products of a function; in functions of their own it takes such products in vectors.
/// This project's own.
pub(crate) trait WideProducts {
    /// Whether a product of two words takes more than 32 bits, lane after lane.
    const WIDE: bool;
}

impl<W: Form<T>, T: Word> WideProducts for Fp<W, T> {
    const WIDE: bool = W::ORDER > 0x1_0000 && W::INVERSE == 0;
}
