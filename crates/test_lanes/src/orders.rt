//! The order 17 in Montgomery's form: one that is short, so that a sum of products of many pairs is.
ghost use Rattle.std.specs.Prelude.{refl};
ghost use Rattle.std.proofs.Common.{lit<};

use p3_prime_fields::montgomery::MontgomeryModulus;

/// The marker of the order 17, for words in Montgomery's form. Modulo 17 the power 2^32 is one.
pub(crate) struct Short17;

impl MontgomeryModulus for Short17 {
    ghost ORDER = { 17 };

    ghost GENERATOR = { 3 };

    ghost INVERSE = { 4042322161 };

    ghost SQUARE = { 1 };

    ghost SCALE_INVERSE = { 1 };

    ghost above_one = { lit< tt };

    ghost fits = { lit< tt };

    ghost inverts_order = { refl };

    ghost is_square = { refl };

    ghost undoes_scale = { refl };

    const ORDER: u32 = 17;

    const GENERATOR: u32 = 3;

    const INVERSE: u32 = 4042322161;

    const SQUARE: u32 = 1;
}
