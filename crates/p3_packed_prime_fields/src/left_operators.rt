//! The operators of one value, which stands for itself in all lanes, and a packing on its right.
ghost use Rattle.std.specs.Prelude.{◌≡◌, ◌<◌, ◌+◌, ◌-◌, ◌*◌, ◌%◌, ℕ, get_or};
ghost use Rattle.p3_prime_fields.specs.declared.fp.Fp.{Fp};
ghost use Rattle.p3_prime_fields.specs.Elements.{canon};

use crate::packed::Packed;
use p3_prime_fields::form::{Form, Word};
use p3_prime_fields::fp::Fp;
use std::ops::{Add, Mul, Sub};

/// The value plus each lane.
impl<W: Form<T>, T: Word, const N: usize> Add<Packed<Fp<W, T>, N>> for Fp<W, T> {
    type Output = Packed<Fp<W, T>, N>;

    ghost add_gives = { λ f x r. (d : _) (k : ℕ) → k < N → canon W.Form (get_or r.value k d) ≡ (canon W.Form f + canon W.Form (get_or x.value k d)) % W.ORDER };

    #[inline]
    fn add(self, packing: Packed<Fp<W, T>, N>) -> Packed<Fp<W, T>, N> {
        packing + self
    }
}

/// The value less each lane.
impl<W: Form<T>, T: Word, const N: usize> Sub<Packed<Fp<W, T>, N>> for Fp<W, T> {
    type Output = Packed<Fp<W, T>, N>;

    ghost sub_gives = { λ f x r. (d : _) (k : ℕ) → k < N → canon W.Form (get_or r.value k d) ≡ (canon W.Form f + (W.ORDER - canon W.Form (get_or x.value k d))) % W.ORDER };

    #[inline]
    fn sub(self, packing: Packed<Fp<W, T>, N>) -> Packed<Fp<W, T>, N> {
        Packed::from(self) - packing
    }
}

/// The value times each lane.
impl<W: Form<T>, T: Word, const N: usize> Mul<Packed<Fp<W, T>, N>> for Fp<W, T> {
    type Output = Packed<Fp<W, T>, N>;

    ghost mul_gives = { λ f x r. (d : _) (k : ℕ) → k < N → canon W.Form (get_or r.value k d) ≡ (canon W.Form f * canon W.Form (get_or x.value k d)) % W.ORDER };

    #[inline]
    fn mul(self, packing: Packed<Fp<W, T>, N>) -> Packed<Fp<W, T>, N> {
        packing * self
    }
}
