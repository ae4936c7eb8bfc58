//! Laws of residues, as contracts for other crates to stand on.
ghost use Rattle.std.specs.Prelude.{◌≡◌};
ghost use Rattle.std.specs.Hash as fed;
ghost use Rattle.p3_prime_fields.specs.Elements.{canon};

use crate::form::{Form, ShortForm};
use crate::fp::Fp;
use std::hash::Hash;

/// The hash of a residue in a word of 32 bits is that of its canonical number.
pub fn short_hash_is_of_the_number<W: ShortForm>(x: Fp<W>)
    ensures { ⟦<Fp<W> as Hash>⟧.hash_input x ≡ fed.u32 (canon W.Form x) }
{}

/// The hash of a residue in a word of 64 bits is that of its canonical number.
pub fn long_hash_is_of_the_number<W: Form<u64>>(x: Fp<W, u64>)
    ensures { ⟦<Fp<W, u64> as Hash>⟧.hash_input x ≡ fed.u64 (canon W.Form x) }
{}
