//! The residues modulo 97, with what their marker owes: numbers alone, no proof.
ghost use Rattle.std.specs.Prelude.{◌∷◌, [], codes, refl};
ghost use Rattle.std.proofs.Common.{lit<, lit≤};

use crate::golden::Golden;
use p3_field::extension::{BinomialExtensionField, ExtField, Modulo};
use p3_fields::Fp;
use p3_fields::binomial_constants::BinomialConstants;
use p3_fields::form::{Modulus, ModulusOrder, Order, Plain};
use p3_fields::polynomial_constants::PolynomialConstants;
use p3_fields::two_adic::{TopPowerConstants, TwoAdicConstants};

/// The marker of the order 97.
pub struct M97;

impl Order for M97 {
    ghost order = { 97 };

    ghost generator = { 5 };
}

impl Modulus for M97 {
    ghost ORDER = { 97 };

    ghost GENERATOR = { 5 };

    ghost above_one = { lit< tt };

    ghost fits = { lit< tt };

    const ORDER: u32 = 97;

    const GENERATOR: u32 = 5;
}

impl ModulusOrder for M97 {
    ghost same_order = { refl };

    ghost same_generator = { refl };
}

/// The residues modulo 97.
pub type F97 = Fp<Plain<M97>>;

/// 96 is 2^5 * 3, and the cube of 5 is 28.
impl TwoAdicConstants for M97 {
    ghost TWO_ADICITY = { 5 };

    ghost TOP_GENERATOR = { 28 };

    const TWO_ADICITY: usize = 5;

    const TOP_GENERATOR: u64 = 28;

    ghost generates = { refl };

    ghost greatest = { refl };
}

impl TopPowerConstants for M97 {
    ghost top_power = { refl };
}

/// The extension of `F97` by `X^2 = 5`.
pub type F97x2 = BinomialExtensionField<F97, 2>;

impl BinomialConstants<2> for M97 {
    ghost W = { 5 };

    ghost DTH_ROOT = { 96 };

    ghost inverses = { 48 ∷ [] };

    ghost ext_generator = { 8 ∷ 1 ∷ [] };

    ghost algebra_id = { codes "example:f97x2" };

    const W: u32 = 5;

    const DTH_ROOT: u32 = 96;

    fn algebra_id() -> &'static str {
        "example:f97x2"
    }

    fn ext_generator(i: usize) -> u32 {
        [8, 1][i]
    }

    ghost at_least_two = { lit≤ tt };

    ghost root_of_unity = { refl };
}

/// The extension of `F97` by `X^2 = X + 1`.
pub type F97g = ExtField<F97, 2, Modulo<Golden, 2>>;

/// The Frobenius map takes X to the other root, `1 - X`.
impl PolynomialConstants<2, Golden> for M97 {
    ghost image = { 1 ∷ 96 ∷ [] };

    ghost powers = { (1 ∷ 0 ∷ []) ∷ (1 ∷ 96 ∷ []) ∷ [] };

    ghost dual = { (1 ∷ 0 ∷ []) ∷ [] };

    ghost ext_generator = { 2 ∷ 1 ∷ [] };

    fn power_of_image(j: usize, k: usize) -> u32 {
        [[1, 0], [1, 96]][j][k]
    }

    fn ext_generator(i: usize) -> u32 {
        [2, 1][i]
    }

    ghost table = { record { width = refl; rows = refl; root = refl; order = refl; apart = refl } };
}
