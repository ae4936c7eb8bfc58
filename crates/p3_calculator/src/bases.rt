//! The bases of the calculator's extensions: residues by their canonical values.
ghost use Rattle.std.specs.Prelude.{◌≡◌, ◌<◌};

use crate::field::Base;
use p3_integers::integers::QuotientMap;
use p3_prime_fields::form::Form;
use p3_prime_fields::fp::Fp;

impl<W: Form<u32>> Base for Fp<W> {
    ghost use Rattle.p3_prime_fields.specs.Elements.{canon};

    ghost base_order = { W.ORDER };

    ghost canon = { canon W.Form };

    fn base_order() -> u64 {
        W::ORDER
    }

    fn zero_residue() -> Self {
        Self::default()
    }

    fn residue(canonical: u64) -> Self {
        Self::from_canonical_unchecked(canonical)
    }
}
