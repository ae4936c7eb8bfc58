//! Packings of a prime field's values: N words side by side.
ghost use Rattle.std.specs.Prelude.{◌≡◌, ℕ, length, replicate};

use p3_prime_fields::form::{Form, Word};
use p3_prime_fields::fp::Fp;
use std::alloc::AllocError;
use std::fmt;

/// N values side by side, each in a lane of its own. What upstream's packings of a prime field are,
/// as `PackedBabyBearAVX2`.
pub struct Packed<F, const N: usize> {
    pub value: [F; N],
    pub ghost sized: { length value ≡ N },
}

impl<F: Copy, const N: usize> Clone for Packed<F, N> {
    ghost use Rattle.std.specs.Prelude.{⊤};

    ghost is_clone = { λ x y. y ≡ x };

    ghost is_infallible = { λ _. ⊤ };

    #[inline]
    fn clone(&self) -> Result<Self, AllocError> {
        Ok(*self)
    }
}

impl<F: Copy, const N: usize> Copy for Packed<F, N> {}

impl<F: Copy, const N: usize> Packed<F, N> {
    /// The packing with these values, from lane 0 upward.
    #[inline]
    pub fn new(value: [F; N]) -> Self
        ensures { result.value ≡ value }
    {
        Packed { value }
    }
}

impl<W: Form<T>, T: Word, const N: usize> From<Fp<W, T>> for Packed<Fp<W, T>, N> {
    ghost from_gives = { λ f r. r.value ≡ replicate N f };

    /// The value in all lanes.
    #[inline]
    fn from(value: Fp<W, T>) -> Self {
        Self::new([value; N])
    }
}

impl<F: Copy, const N: usize> From<[F; N]> for Packed<F, N> {
    ghost from_gives = { λ v r. r.value ≡ v };

    /// The values, lane by lane.
    #[inline]
    fn from(value: [F; N]) -> Self {
        Self::new(value)
    }
}

impl<F: Copy + Default, const N: usize> Default for Packed<F, N> {
    ghost is_default = { λ x. (f : F) × F.is_default f × (x.value ≡ replicate N f) };

    /// The default value in all lanes.
    #[inline]
    fn default() -> Self {
        Self::new([F::default(); N])
    }
}

impl<F: PartialEq, const N: usize> PartialEq for Packed<F, N> {
    ghost use Rattle.std.specs.Cmp.Lexicographic.{pointwise};
    ghost use Rattle.p3_packed_prime_fields.specs.Values.{values_per};

    ghost eq = { λ x y. pointwise F.eq x.value y.value };

    ghost laws = { values_per F.laws };

    #[inline]
    fn eq(&self, other: &Self) -> bool {
        self.value == other.value
    }
}

impl<F: Eq, const N: usize> Eq for Packed<F, N> {
    ghost use Rattle.p3_packed_prime_fields.specs.Values.{values_equiv};

    ghost laws = { values_equiv F.Eq.laws };
}

impl<F: fmt::Debug, const N: usize> fmt::Debug for Packed<F, N> {
    ghost use Rattle.std.specs.Fmt.{debug_list};

    ghost debug_output = { λ x. debug_list F.debug_output x.value };

    /// The list of the values.
    fn fmt<O: fmt::Write>(&self, f: &mut fmt::Formatter<O>) -> fmt::Result {
        fmt::Debug::fmt(&self.value, f)
    }
}
