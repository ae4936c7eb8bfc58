//! Arrays of values, as a ring entry by entry, whose entries are lanes.
pub mod lanes;
pub mod laws;
mod quotients;
mod scalar_sums;

ghost use Rattle.std.specs.Prelude.{◌≡◌, ◌<◌, ℕ, get_or, slice_index_or, replicate};
ghost use Rattle.std.specs.Array.{IsMapOf, list_steps};
ghost use Rattle.std.specs.Iterator.{CallableAtEachTurn};
ghost use Rattle.p3_theory.specs.Rings.Ring.{Invertible};

use crate::packing_vector::PackingVector;
use p3_field_traits::field::Field;
use p3_field_traits::packed_traits::{Inhabited, Packable, PackedValue};
use std::ops::{Div, Index, IndexMut};

/// The marker of an array of field values. This project's own.
#[derive(Clone, Copy)]
pub struct OfValues;

/// N values, with the ring's operations entry by entry: a vector of packings of one lane each, which are
/// the values themselves. Upstream's `FieldArray`.
pub type FieldArray<F, const N: usize> = PackingVector<F, OfValues, F, N>;

impl<F: Inhabited, const N: usize> FieldArray<F, N> {
    /// What `f` answers at each entry, as an array of N values of any type: `f` is called at the first
    /// entry, then at the next, up to the last. Each call has to be one that `f` may take after the
    /// calls before it. Upstream's `map_into_array`.
    #[inline]
    pub fn map_into_array<U, G: FnMut(F) -> U>(self, f: G) -> [U; N]
        requires callable { CallableAtEachTurn list_steps (λ p x q. (y : U) × G.step p x y q) G.pre self.items f }
        ensures items { IsMapOf G.FnMut f self.items result N }
    {
        let mut call = f;
        std::array::from_fn(
            move |i|
                requires { (i < N) × G.pre call (get_or self.items i F.inhabitant) }
                ensures { G.step call.entry (get_or self.items i F.inhabitant) result call.exit }
            {
                let entry = self[i];
                call(entry)
            },
        )
    }

    /// What `f` answers at each entry, in the same indices: `f` is called at the first entry, then at the
    /// next, up to the last. Each call has to be one that `f` may take after the calls before it.
    /// Upstream's `map`.
    #[inline]
    pub fn map<U: Inhabited, G: FnMut(F) -> U>(self, f: G) -> FieldArray<U, N>
        requires callable { CallableAtEachTurn list_steps (λ p x q. (y : U) × G.step p x y q) G.pre self.items f }
        ensures items { IsMapOf G.FnMut f self.items result.items N }
    {
        let mapped = self.map_into_array(f);
        FieldArray::new(mapped)
    }
}

/// The entry at an index, which has to be below N. Upstream's `Index`.
impl<F: Inhabited, const N: usize> Index<usize> for FieldArray<F, N> {
    type Output = F;

    ghost can_index = { λ a i. i < N };

    ghost index_gives = { λ a i x. x ≡ slice_index_or a.items i x };

    /// The entry at `index`; a call at an index of N or above is refused.
    #[inline]
    fn index(&self, index: usize) -> &F {
        &self.0[index]
    }
}

/// The entry at an index, which has to be below N, to be written. What is written there is safe, and
/// the array stays one of N entries; nothing more is known of it afterwards, so a proof that needs the
/// entries writes by `set_lane`. Upstream's `IndexMut`.
impl<F: Inhabited, const N: usize> IndexMut<usize> for FieldArray<F, N> {
    /// The entry at `index`; a call at an index of N or above is refused.
    #[inline]
    fn index_mut(&mut self, index: usize) -> &mut F
        requires { index < N }
        ensures { result.now ≡ slice_index_or self.old.items index result.now }
    {
        &mut self.0[index]
    }
}

impl<F: Inhabited, const N: usize> From<[F; N]> for FieldArray<F, N> {
    ghost from_gives = { λ v r. r.items ≡ v };

    /// The values, entry by entry.
    #[inline]
    fn from(value: [F; N]) -> Self {
        Self::new(value)
    }
}

/// Each entry divided by the value, which has an inverse: by one inversion, as upstream.
impl<F: Field + Inhabited, const N: usize> Div<F> for FieldArray<F, N> {
    type Output = Self;

    ghost can_div = { λ x f. Invertible F.ops f };

    ghost div_gives = { λ x f r. (d : F) (k : ℕ) → k < N → F.ops.mul (get_or r.items k d) f ≡ get_or x.items k d };

    #[inline]
    fn div(self, rhs: F) -> Self {
        let inverse = rhs.inverse();
        self * inverse
    }
}

impl<F: Inhabited + PartialEq, const N: usize> PartialEq for FieldArray<F, N> {
    ghost use Rattle.std.specs.Cmp.Lexicographic.{pointwise};
    ghost use Rattle.p3_vectorized.specs.ArrayEquality.{rows_per};

    ghost eq = { λ x y. pointwise F.eq x.items y.items };

    ghost laws = { rows_per F.laws };

    #[inline]
    fn eq(&self, other: &Self) -> bool {
        self.items() == other.items()
    }
}

impl<F: Inhabited + Eq, const N: usize> Eq for FieldArray<F, N> {
    ghost use Rattle.p3_vectorized.specs.ArrayEquality.{rows_equiv};

    ghost laws = { rows_equiv F.Eq.laws };
}

/// The entries are lanes.
impl<F: Packable, const N: usize> PackedValue for FieldArray<F, N> {
    type Value = F;

    const WIDTH: usize = N;

    ghost WIDTH = { N };

    ghost lanes = { λ x. x.items };

    #[inline]
    fn from_fn<G: FnMut(usize) -> F>(f: G) -> Self {
        let items = std::array::from_fn(f);
        Self::new(items)
    }

    #[inline]
    fn broadcast(value: F) -> Self {
        Self::new([value; N])
    }

    #[inline]
    fn from_slice(slice: &[F]) -> Self {
        Self::new(<[F; N]>::try_from(slice).unwrap())
    }

    #[inline]
    fn to_slice(&self, out: &mut [F]) {
        let items = self.items();
        out.copy_from_slice(&items);
    }

    #[inline]
    fn extract(&self, lane: usize) -> F {
        let entries = self.items();
        entries[lane]
    }

    #[inline]
    fn set_lane(&mut self, lane: usize, value: F) {
        let mut items = self.items();
        items[lane] = value;
        *self = Self::new(items);
    }
}

/// One value in each entry.
impl<F: Inhabited, const N: usize> Inhabited for FieldArray<F, N> {
    ghost use Rattle.std.proofs.lemmas.List.{length-replicate};

    ghost inhabitant = { record { items = replicate N F.inhabitant; sized = length-replicate N F.inhabitant } };
}
