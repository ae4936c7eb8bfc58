//! Laws of packings of extension values, as contracts for other crates to stand on.
ghost use Rattle.std.specs.Prelude.{◌≡◌, replicate};

use crate::packed_ext_field::PackedExtField;
use p3_ring::ring::PrimeCharacteristicRing;

/// The default packing of extension values is zero: each of its coefficients is.
pub fn packed_ext_default_is_zero<F: Copy, const D: usize, S: Copy, P: PrimeCharacteristicRing>(
    x: PackedExtField<F, D, S, P>,
)
    ensures { ⟦<PackedExtField<F, D, S, P> as Default>⟧.is_default x → x.value.value ≡ replicate D P.ops.zero }
{}
