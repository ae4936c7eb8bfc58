//! Prime bench fields: residues modulo small orders, of which one is composite, and modulo the
//! primes of BabyBear, KoalaBear and Goldilocks, with the constants of their extensions.
#![tactic(auto)]

pub mod baby_bear;
pub mod binomial_constants;
pub mod complex_tower;
pub mod extensions;
pub mod form;
pub mod fp;
mod fp_bounds;
pub mod goldilocks;
pub mod koala_bear;
pub mod lane_products;
pub mod lane_sums;
pub mod lane_words;
pub mod laws;
pub mod monomials;
pub mod montgomery;
pub mod polynomial_constants;
pub mod small;
pub mod two_adic;
pub mod two_adic_constants;
mod two_adic_extensions;
mod word_products;
pub mod word_sums;
