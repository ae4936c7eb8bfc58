//! Words as residues: sums, remainders and inverses of words, those modulo 2^64 - 2^32 + 1 too, and sums and
//! differences on the lanes of vectors, which can be interleaved by blocks.
#![tactic(auto)]

pub mod goldilocks_words;
pub mod interleaves;
pub mod inverse;
pub mod mod_arithmetic;
pub mod montgomery;
mod odd_modulus;
pub mod remainder;
pub mod short_words;
