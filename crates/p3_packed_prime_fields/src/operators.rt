//! The operators of two packings, lane by lane.
ghost use Rattle.std.specs.Prelude.{◌≡◌, ◌<◌, ◌+◌, ◌-◌, ◌*◌, ◌%◌, ℕ, get_or};
ghost use Rattle.p3_theory.specs.Rings.Ring.{Invertible};
ghost use Rattle.p3_prime_fields.specs.Elements.{canon, ops};

use crate::lane_loops::{add_lanes, div_lanes, mul_lanes, neg_lanes, sub_lanes};
use crate::packed::Packed;
use p3_prime_fields::form::{Form, Word};
use p3_prime_fields::fp::Fp;
use std::ops::{Add, AddAssign, Div, DivAssign, Mul, MulAssign, Neg, Sub, SubAssign};

impl<W: Form<T>, T: Word, const N: usize> Add for Packed<Fp<W, T>, N> {
    type Output = Self;

    ghost add_gives = { λ x y r. (d : _) (k : ℕ) → k < N → canon W.Form (get_or r.value k d) ≡ (canon W.Form (get_or x.value k d) + canon W.Form (get_or y.value k d)) % W.ORDER };

    #[inline]
    fn add(self, other: Self) -> Self {
        add_lanes(self, other)
    }
}

impl<W: Form<T>, T: Word, const N: usize> AddAssign for Packed<Fp<W, T>, N> {
    ghost add_assign_gives = { λ x y r. (d : _) (k : ℕ) → k < N → canon W.Form (get_or r.value k d) ≡ (canon W.Form (get_or x.value k d) + canon W.Form (get_or y.value k d)) % W.ORDER };

    #[inline]
    fn add_assign(&mut self, other: Self) {
        *self = *self + other;
    }
}

impl<W: Form<T>, T: Word, const N: usize> Sub for Packed<Fp<W, T>, N> {
    type Output = Self;

    ghost sub_gives = { λ x y r. (d : _) (k : ℕ) → k < N → canon W.Form (get_or r.value k d) ≡ (canon W.Form (get_or x.value k d) + (W.ORDER - canon W.Form (get_or y.value k d))) % W.ORDER };

    #[inline]
    fn sub(self, other: Self) -> Self {
        sub_lanes(self, other)
    }
}

impl<W: Form<T>, T: Word, const N: usize> SubAssign for Packed<Fp<W, T>, N> {
    ghost sub_assign_gives = { λ x y r. (d : _) (k : ℕ) → k < N → canon W.Form (get_or r.value k d) ≡ (canon W.Form (get_or x.value k d) + (W.ORDER - canon W.Form (get_or y.value k d))) % W.ORDER };

    #[inline]
    fn sub_assign(&mut self, other: Self) {
        *self = *self - other;
    }
}

impl<W: Form<T>, T: Word, const N: usize> Neg for Packed<Fp<W, T>, N> {
    type Output = Self;

    ghost neg_gives = { λ x r. (d : _) (k : ℕ) → k < N → canon W.Form (get_or r.value k d) ≡ (W.ORDER - canon W.Form (get_or x.value k d)) % W.ORDER };

    #[inline]
    fn neg(self) -> Self {
        neg_lanes(self)
    }
}

impl<W: Form<T>, T: Word, const N: usize> Mul for Packed<Fp<W, T>, N> {
    type Output = Self;

    ghost mul_gives = { λ x y r. (d : _) (k : ℕ) → k < N → canon W.Form (get_or r.value k d) ≡ (canon W.Form (get_or x.value k d) * canon W.Form (get_or y.value k d)) % W.ORDER };

    #[inline(always)]
    fn mul(self, other: Self) -> Self {
        mul_lanes(self, other)
    }
}

impl<W: Form<T>, T: Word, const N: usize> MulAssign for Packed<Fp<W, T>, N> {
    ghost mul_assign_gives = { λ x y r. (d : _) (k : ℕ) → k < N → canon W.Form (get_or r.value k d) ≡ (canon W.Form (get_or x.value k d) * canon W.Form (get_or y.value k d)) % W.ORDER };

    #[inline(always)]
    fn mul_assign(&mut self, other: Self) {
        *self = *self * other;
    }
}

impl<W: Form<T>, T: Word, const N: usize> Div for Packed<Fp<W, T>, N> {
    type Output = Self;

    ghost can_div = { λ x y. (d : _) (k : ℕ) → k < N → Invertible (ops W.Form) (get_or y.value k d) };

    ghost div_gives = { λ x y r. (d : _) (k : ℕ) → k < N → (ops W.Form).mul (get_or r.value k d) (get_or y.value k d) ≡ get_or x.value k d };

    #[inline]
    fn div(self, other: Self) -> Self {
        div_lanes(self, other)
    }
}

impl<W: Form<T>, T: Word, const N: usize> DivAssign for Packed<Fp<W, T>, N> {
    ghost can_div_assign = { λ x y. (d : _) (k : ℕ) → k < N → Invertible (ops W.Form) (get_or y.value k d) };

    ghost div_assign_gives = { λ x y r. (d : _) (k : ℕ) → k < N → (ops W.Form).mul (get_or r.value k d) (get_or y.value k d) ≡ get_or x.value k d };

    #[inline]
    fn div_assign(&mut self, other: Self) {
        *self = *self / other;
    }
}
