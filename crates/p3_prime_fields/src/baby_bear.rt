//! BabyBear: the residues modulo 2^31 - 2^27 + 1.
ghost use Rattle.std.specs.Prelude.{refl};
ghost use Rattle.std.proofs.Common.{lit<};

use crate::form::Order;
use crate::fp::Fp;
use crate::montgomery::{Montgomery, MontgomeryModulus, MontgomeryOrder};

/// The marker of the order 2^31 - 2^27 + 1.
pub struct BabyBearModulus;

impl Order for BabyBearModulus {
    ghost order = { 2013265921 };

    ghost generator = { 31 };
}

impl MontgomeryModulus for BabyBearModulus {
    ghost ORDER = { 2013265921 };

    ghost GENERATOR = { 31 };

    ghost INVERSE = { 2281701377 };

    ghost SQUARE = { 1172168163 };

    ghost SCALE_INVERSE = { 943718400 };

    ghost above_one = { lit< tt };

    ghost fits = { lit< tt };

    ghost inverts_order = { refl };

    ghost is_square = { refl };

    ghost undoes_scale = { refl };

    const ORDER: u32 = 2013265921;

    const GENERATOR: u32 = 31;

    const INVERSE: u32 = 2281701377;

    const SQUARE: u32 = 1172168163;
}

impl MontgomeryOrder for BabyBearModulus {
    ghost same_order = { refl };

    ghost same_generator = { refl };
}

/// The residues modulo 2^31 - 2^27 + 1, in Montgomery's form. Upstream's `BabyBear`.
pub type BabyBear = Fp<Montgomery<BabyBearModulus>>;
