//! Inverses of values, where they have one.
ghost use Rattle.std.specs.Prelude.{◌<◌, ℕ, length, get_or, IsTrue};
ghost use Rattle.p3_theory.specs.Rings.Ring.{Invertible};

use p3_field_traits::field::Field;

/// Whether a value has an inverse.
pub(crate) fn has_inverse<F: Field>(y: F) -> bool
    ensures { IsTrue result → Invertible F.ops y }
{
    match y.try_inverse() {
        Some(_) => true,
        None => false,
    }
}

/// Whether every entry has an inverse.
pub(crate) fn have_inverses<F: Field>(x: &[F]) -> bool
    ensures { IsTrue result → (d : F) (i : ℕ) → i < length x.now → Invertible F.ops (get_or x.now i d) }
{
    for i in 0..x.len() {
        if !has_inverse(x[i]) {
            return false;
        }
    }
    true
}

/// The inverse, or zero where there is none.
pub(crate) fn inverse_or_zero<F: Field>(y: F) -> F {
    match y.try_inverse() {
        Some(inverse) => inverse,
        None => F::zero(),
    }
}
