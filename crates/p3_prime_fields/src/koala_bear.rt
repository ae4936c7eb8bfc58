//! KoalaBear: the residues modulo 2^31 - 2^24 + 1.
ghost use Rattle.std.specs.Prelude.{refl};
ghost use Rattle.std.proofs.Common.{lit<};

use crate::form::Order;
use crate::fp::Fp;
use crate::montgomery::{Montgomery, MontgomeryModulus, MontgomeryOrder};

/// The marker of the order 2^31 - 2^24 + 1.
pub struct KoalaBearModulus;

impl Order for KoalaBearModulus {
    ghost order = { 2130706433 };

    ghost generator = { 3 };
}

impl MontgomeryModulus for KoalaBearModulus {
    ghost ORDER = { 2130706433 };

    ghost GENERATOR = { 3 };

    ghost INVERSE = { 2164260865 };

    ghost SQUARE = { 402124772 };

    ghost SCALE_INVERSE = { 1057030144 };

    ghost above_one = { lit< tt };

    ghost fits = { lit< tt };

    ghost inverts_order = { refl };

    ghost is_square = { refl };

    ghost undoes_scale = { refl };

    const ORDER: u32 = 2130706433;

    const GENERATOR: u32 = 3;

    const INVERSE: u32 = 2164260865;

    const SQUARE: u32 = 402124772;
}

impl MontgomeryOrder for KoalaBearModulus {
    ghost same_order = { refl };

    ghost same_generator = { refl };
}

/// The residues modulo 2^31 - 2^24 + 1, in Montgomery's form. Upstream's `KoalaBear`.
pub type KoalaBear = Fp<Montgomery<KoalaBearModulus>>;
