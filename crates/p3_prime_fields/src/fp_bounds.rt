//! What `Fp` owes beside its operations: its place in memory, bytes by a law of traits, and the
//! bounds that upstream has on fields.

use crate::form::{Form, ShortForm};
use crate::fp::Fp;
use p3_extension_traits::field_bounds::{FieldBounds, PrimeFieldBounds};
use p3_extension_traits::field_bytes::{PrimeField32Bytes, PrimeField64Bytes};
use p3_extension_traits::in_memory::InMemory;

impl<W: ShortForm> InMemory for Fp<W> {
    ghost use Rattle.std.proofs.Common.{lit<};

    ghost fits = { lit< tt };
}

impl<W: Form<u64>> InMemory for Fp<W, u64> {
    ghost use Rattle.std.proofs.Common.{lit<};

    ghost fits = { lit< tt };
}

impl<W: ShortForm> PrimeField32Bytes for Fp<W> {
    ghost use Rattle.std.specs.Prelude.{refl};

    ghost unique_bytes = { λ x. refl };
}

impl<W: Form<u64>> PrimeField64Bytes for Fp<W, u64> {
    ghost use Rattle.std.specs.Prelude.{refl};

    ghost unique_bytes = { λ x. refl };
}

impl<W: ShortForm> FieldBounds for Fp<W> {
    ghost default_is_zero = { λ x h. h };
}

impl<W: Form<u64>> FieldBounds for Fp<W, u64> {
    ghost default_is_zero = { λ x h. h };
}

impl<W: ShortForm> PrimeFieldBounds for Fp<W> {
    ghost use Rattle.std.specs.Prelude.{refl};

    ghost ordered = { λ x y. refl };
}

impl<W: Form<u64>> PrimeFieldBounds for Fp<W, u64> {
    ghost use Rattle.std.specs.Prelude.{refl};

    ghost ordered = { λ x y. refl };
}
