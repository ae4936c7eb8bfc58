//! Quotients of two arrays, entry by entry, and quotients that are written back.
ghost use Rattle.std.specs.Prelude.{◌≡◌, ◌<◌, ℕ, get_or};
ghost use Rattle.p3_theory.specs.Rings.Ring.{Invertible};

use super::FieldArray;
use p3_field_traits::field::Field;
use p3_field_traits::packed_traits::Inhabited;
use std::ops::{Div, DivAssign};

/// Each entry divided by the other array's, which has an inverse. This project's own.
impl<F: Field + Inhabited, const N: usize> Div for FieldArray<F, N> {
    type Output = Self;

    ghost can_div = { λ x y. (d : F) (k : ℕ) → k < N → Invertible F.ops (get_or y.items k d) };

    ghost div_gives = { λ x y r. (d : F) (k : ℕ) → k < N → F.ops.mul (get_or r.items k d) (get_or y.items k d) ≡ get_or x.items k d };

    #[inline]
    fn div(self, other: Self) -> Self {
        let xs = self.items();
        let ys = other.items();
        let mut items = xs;
        for i in 0..N {
            items[i] = xs[i] / ys[i];
        }
        Self::new(items)
    }
}

impl<F: Field + Inhabited, const N: usize> DivAssign for FieldArray<F, N> {
    ghost can_div_assign = { λ x y. (d : F) (k : ℕ) → k < N → Invertible F.ops (get_or y.items k d) };

    ghost div_assign_gives = { λ x y r. (d : F) (k : ℕ) → k < N → F.ops.mul (get_or r.items k d) (get_or y.items k d) ≡ get_or x.items k d };

    #[inline]
    fn div_assign(&mut self, other: Self) {
        *self = *self / other;
    }
}

/// Each entry divided by the value, which has an inverse. This project's own.
impl<F: Field + Inhabited, const N: usize> DivAssign<F> for FieldArray<F, N> {
    ghost can_div_assign = { λ x f. Invertible F.ops f };

    ghost div_assign_gives = { λ x f r. (d : F) (k : ℕ) → k < N → F.ops.mul (get_or r.items k d) f ≡ get_or x.items k d };

    #[inline]
    fn div_assign(&mut self, rhs: F) {
        *self = *self / rhs;
    }
}
