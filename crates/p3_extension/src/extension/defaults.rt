//! The default extension value, packing, and the text for debugging.
ghost use Rattle.std.specs.Prelude.{◌≡◌, replicate};

use super::ext_field::ExtField;
use p3_field_traits::packed_traits::{Inhabited, Packable};
use p3_ring::ring::PrimeCharacteristicRing;
use std::fmt;

/// Zero. Upstream's `Default` of its extension types.
impl<F: Copy, const D: usize, S: Copy, A: PrimeCharacteristicRing> Default
    for ExtField<F, D, S, A> {
    ghost is_default = { λ x. x.value ≡ replicate D A.ops.zero };

    /// The value whose coefficients are all zero.
    #[inline]
    fn default() -> Self {
        Self::new([A::zero(); D])
    }
}

/// The value whose coefficients are all one value of the coefficient type.
impl<F: Copy, const D: usize, S: Copy, A: Inhabited> Inhabited for ExtField<F, D, S, A> {
    ghost use Rattle.std.proofs.lemmas.List.{length-replicate};
    ghost use Rattle.p3_extension.specs.Values.{value_of};

    ghost inhabitant = { value_of (replicate D A.inhabitant) (length-replicate D A.inhabitant) };
}

/// Extension values may stand in the lanes of a packing. Upstream's `Packable` of its extension
/// types.
impl<F: Copy, const D: usize, S: Copy, A: PrimeCharacteristicRing + Eq + Inhabited> Packable
    for ExtField<F, D, S, A> {}

/// The coefficients as a list. No contract speaks of the text, which isn't the one that upstream
/// derives.
impl<F, const D: usize, S, A: fmt::Debug> fmt::Debug for ExtField<F, D, S, A> {
    fn fmt<W: fmt::Write>(&self, f: &mut fmt::Formatter<W>) -> fmt::Result {
        fmt::Debug::fmt(&self.value, f)
    }
}
