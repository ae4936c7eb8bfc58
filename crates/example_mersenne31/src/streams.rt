//! Bytes, the place in memory, the bounds that upstream has on fields, and a power that permutes the
//! values.
ghost use Rattle.std.specs.Prelude.{refl};
ghost use Rattle.example_mersenne31.specs.Elements.{canon, is};

use crate::value::Mersenne31;
use p3_field::exponentiation::exp_1717986917;
use p3_field::{
    FieldBounds, InMemory, InjectiveMonomial, PermutationMonomial, PrimeField32Bytes,
    PrimeFieldBounds, RawDataSerializable,
};
use std::array::IntoIter;

impl RawDataSerializable for Mersenne31 {
    ghost use Rattle.std.specs.Int.{w32, to_le_bytes};

    const NUM_BYTES: usize = 4;

    ghost NUM_BYTES = { 4 };

    ghost bytes = { λ x. to_le_bytes w32 (canon x) };

    type Bytes = IntoIter<u8, 4>;

    /// The four bytes of the canonical value, the lowest first.
    #[inline]
    fn into_bytes(self) -> Self::Bytes {
        self.word.to_le_bytes().into_iter()
    }

    ghost num_bytes = { λ x. refl };
}

impl PrimeField32Bytes for Mersenne31 {
    ghost unique_bytes = { λ x. refl };
}

impl InMemory for Mersenne31 {
    ghost use Rattle.std.proofs.Common.{lit<};

    ghost fits = { lit< tt };
}

impl FieldBounds for Mersenne31 {
    ghost default_is_zero = { λ x h. h };
}

impl PrimeFieldBounds for Mersenne31 {
    ghost ordered = { λ x y. refl };
}

/// 5 * 1717986917 is one more than four times the order less one.
impl InjectiveMonomial<5> for Mersenne31 {
    ghost use Rattle.p3_field.specs.Monomials.{residue_injective_power};

    ghost injective = { λ domain. residue_injective_power is domain 5 1717986917 (4, refl) };
}

impl PermutationMonomial<5> for Mersenne31 {
    #[inline]
    fn injective_exp_root_n(&self) -> Self {
        exp_1717986917(*self)
    }
}
