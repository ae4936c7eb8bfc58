//! The operators of a packing and one value, which stands for itself in all lanes.
ghost use Rattle.std.specs.Prelude.{◌≡◌, ◌<◌, ◌+◌, ◌-◌, ◌*◌, ◌%◌, ℕ, get_or};
ghost use Rattle.p3_theory.specs.Rings.Ring.{Invertible};
ghost use Rattle.p3_prime_fields.specs.Elements.{canon, ops};

use crate::lane_arithmetic::LaneArithmetic;
use crate::lane_loops::{add_value, div_value, mul_lanes, sub_value};
use crate::packed::Packed;
use crate::wide_products::WideProducts;
use p3_prime_fields::form::{Form, Word};
use p3_prime_fields::fp::Fp;
use std::ops::{Add, AddAssign, Div, DivAssign, Mul, MulAssign, Sub, SubAssign};

impl<W: Form<T>, T: Word, const N: usize> Add<Fp<W, T>> for Packed<Fp<W, T>, N> {
    type Output = Self;

    ghost add_gives = { λ x f r. (d : _) (k : ℕ) → k < N → canon W.Form (get_or r.value k d) ≡ (canon W.Form (get_or x.value k d) + canon W.Form f) % W.ORDER };

    #[inline]
    fn add(self, other: Fp<W, T>) -> Self {
        add_value(self, other)
    }
}

impl<W: Form<T>, T: Word, const N: usize> AddAssign<Fp<W, T>> for Packed<Fp<W, T>, N> {
    ghost add_assign_gives = { λ x f r. (d : _) (k : ℕ) → k < N → canon W.Form (get_or r.value k d) ≡ (canon W.Form (get_or x.value k d) + canon W.Form f) % W.ORDER };

    #[inline]
    fn add_assign(&mut self, other: Fp<W, T>) {
        *self = *self + other;
    }
}

impl<W: Form<T>, T: Word, const N: usize> Sub<Fp<W, T>> for Packed<Fp<W, T>, N> {
    type Output = Self;

    ghost sub_gives = { λ x f r. (d : _) (k : ℕ) → k < N → canon W.Form (get_or r.value k d) ≡ (canon W.Form (get_or x.value k d) + (W.ORDER - canon W.Form f)) % W.ORDER };

    #[inline]
    fn sub(self, other: Fp<W, T>) -> Self {
        sub_value(self, other)
    }
}

impl<W: Form<T>, T: Word, const N: usize> SubAssign<Fp<W, T>> for Packed<Fp<W, T>, N> {
    ghost sub_assign_gives = { λ x f r. (d : _) (k : ℕ) → k < N → canon W.Form (get_or r.value k d) ≡ (canon W.Form (get_or x.value k d) + (W.ORDER - canon W.Form f)) % W.ORDER };

    #[inline]
    fn sub_assign(&mut self, other: Fp<W, T>) {
        *self = *self - other;
    }
}

/// The product at each lane, in a function that isn't taken into its callers (see `WideProducts`).
#[inline(never)]
fn mul_lanes_apart<F: LaneArithmetic<N>, const N: usize>(
    x: Packed<F, N>,
    y: Packed<F, N>,
) -> Packed<F, N>
    ensures { (d : F) (k : ℕ) → k < N → F.mul_gives (get_or x.value k d) (get_or y.value k d) (get_or result.value k d) }
{
    mul_lanes(x, y)
}

impl<W: Form<T>, T: Word, const N: usize> Mul<Fp<W, T>> for Packed<Fp<W, T>, N> {
    type Output = Self;

    ghost mul_gives = { λ x f r. (d : _) (k : ℕ) → k < N → canon W.Form (get_or r.value k d) ≡ (canon W.Form (get_or x.value k d) * canon W.Form f) % W.ORDER };

    #[inline]
    fn mul(self, other: Fp<W, T>) -> Self {
        let others = Self::new([other; N]);
        if Fp::<W, T>::WIDE {
            mul_lanes_apart(self, others)
        } else {
            mul_lanes(self, others)
        }
    }
}

impl<W: Form<T>, T: Word, const N: usize> MulAssign<Fp<W, T>> for Packed<Fp<W, T>, N> {
    ghost mul_assign_gives = { λ x f r. (d : _) (k : ℕ) → k < N → canon W.Form (get_or r.value k d) ≡ (canon W.Form (get_or x.value k d) * canon W.Form f) % W.ORDER };

    #[inline]
    fn mul_assign(&mut self, other: Fp<W, T>) {
        *self = *self * other;
    }
}

impl<W: Form<T>, T: Word, const N: usize> Div<Fp<W, T>> for Packed<Fp<W, T>, N> {
    type Output = Self;

    ghost can_div = { λ x f. Invertible (ops W.Form) f };

    ghost div_gives = { λ x f r. (d : _) (k : ℕ) → k < N → (ops W.Form).mul (get_or r.value k d) f ≡ get_or x.value k d };

    #[inline]
    fn div(self, other: Fp<W, T>) -> Self {
        div_value(self, other)
    }
}

impl<W: Form<T>, T: Word, const N: usize> DivAssign<Fp<W, T>> for Packed<Fp<W, T>, N> {
    ghost can_div_assign = { λ x f. Invertible (ops W.Form) f };

    ghost div_assign_gives = { λ x f r. (d : _) (k : ℕ) → k < N → (ops W.Form).mul (get_or r.value k d) f ≡ get_or x.value k d };

    #[inline]
    fn div_assign(&mut self, other: Fp<W, T>) {
        *self = *self / other;
    }
}
