//! Arrays of values and vectors of packings, as a ring entry by entry.
mod algebra;

ghost use Rattle.std.specs.Prelude.{◌≡◌, ◌<◌, ℕ, length, get_or, replicate};
ghost use Rattle.p3_theory.specs.Rings.Ring.{subtract};

use p3_field_traits::packed_traits::Inhabited;
use p3_ring::accumulate::{product_from, sum_from};
use p3_ring::ring::{PrimeCharacteristicRing, RingSums};
use std::alloc::AllocError;
use std::fmt;
use std::iter::{Product, Sum};
use std::marker::{Model, PhantomData};
use std::ops::{Add, AddAssign, Mul, MulAssign, Neg, Sub, SubAssign};

/// N packings P of values of S, one after the other. By the marker T it is an array of values, each a
/// packing of one lane (`OfValues`), a vector of packings of field values (`OfScalars`), or one of
/// packings of values of an extension of F (`OfExtension<F>`), which also takes vectors of packings of
/// values of F as operands. This project's own: upstream has a type for each marker.
pub struct PackingVector<S, T, P: Inhabited, const N: usize>(pub [P; N], PhantomData<(S, T)>);

impl<S, T, P: Inhabited, const N: usize> Model for PackingVector<S, T, P, N> {
    ghost use Rattle.std.specs.Prelude.{◌≡◌, length};
    ghost use Rattle.p3_theory.specs.Lanes.Rows.{Row, fitted, row_code};
    ghost use Rattle.p3_vectorized.specs.Inside.{same_inside};

    ghost Value = { Row P N };

    ghost coded = { row_code N P.code };

    ghost view = { λ a. fitted P.inhabitant N a.0 };

    ghost invariant = { λ a. length a.0 ≡ N };

    ghost inverse = { λ v. record { 0 = v.items; 1 = record {} } };

    ghost inverse_ok = { λ a h. same_inside P.inhabitant N a h };
}

impl<S: Copy, T: Copy, P: Inhabited, const N: usize> Clone for PackingVector<S, T, P, N> {
    ghost use Rattle.std.specs.Prelude.{⊤};

    ghost is_clone = { λ x y. y ≡ x };

    ghost is_infallible = { λ _. ⊤ };

    #[inline]
    fn clone(&self) -> Result<Self, AllocError> {
        Ok(*self)
    }
}

impl<S: Copy, T: Copy, P: Inhabited, const N: usize> Copy for PackingVector<S, T, P, N> {}

impl<S: Copy, T: Copy, P: Inhabited, const N: usize> PackingVector<S, T, P, N> {
    /// The vector of these packings. This project's own: upstream writes the array alone.
    #[tactic(auto, using(p3_theory::specs::Lanes::Rows::fit_same))]
    #[inline]
    pub fn new(items: [P; N]) -> Self
        ensures { result.items ≡ items }
    {
        PackingVector(items, PhantomData)
    }

    /// The packings.
    #[inline]
    pub(crate) fn items(self) -> [P; N]
        ensures { result ≡ self.items }
    {
        self.0
    }
}

/// Zero. Upstream's `Default`.
impl<S: Copy, T: Copy, P: PrimeCharacteristicRing + Inhabited, const N: usize> Default
    for PackingVector<S, T, P, N> {
    ghost is_default = { λ x. x.items ≡ replicate N P.ops.zero };

    /// The vector of zeros.
    #[inline]
    fn default() -> Self {
        Self::new([P::zero(); N])
    }
}

/// The packings as a list. No contract speaks of the text.
impl<S, T, P: Inhabited + fmt::Debug, const N: usize> fmt::Debug for PackingVector<S, T, P, N> {
    fn fmt<W: fmt::Write>(&self, f: &mut fmt::Formatter<W>) -> fmt::Result {
        fmt::Debug::fmt(&self.0, f)
    }
}

impl<S: Copy, T: Copy, P: PrimeCharacteristicRing + Inhabited, const N: usize> Add
    for PackingVector<S, T, P, N> {
    type Output = Self;

    ghost add_gives = { λ x y r. (d : P) (k : ℕ) → k < N → get_or r.items k d ≡ P.ops.add (get_or x.items k d) (get_or y.items k d) };

    #[inline]
    fn add(self, other: Self) -> Self {
        let xs = self.items();
        let ys = other.items();
        let mut items = xs;
        for i in 0..N {
            items[i] = xs[i] + ys[i];
        }
        Self::new(items)
    }
}

impl<S: Copy, T: Copy, P: PrimeCharacteristicRing + Inhabited, const N: usize> AddAssign
    for PackingVector<S, T, P, N> {
    ghost add_assign_gives = { λ x y r. (d : P) (k : ℕ) → k < N → get_or r.items k d ≡ P.ops.add (get_or x.items k d) (get_or y.items k d) };

    #[inline]
    fn add_assign(&mut self, other: Self) {
        *self = *self + other;
    }
}

impl<S: Copy, T: Copy, P: PrimeCharacteristicRing + Inhabited, const N: usize> Sub
    for PackingVector<S, T, P, N> {
    type Output = Self;

    ghost sub_gives = { λ x y r. (d : P) (k : ℕ) → k < N → get_or r.items k d ≡ subtract P.ops (get_or x.items k d) (get_or y.items k d) };

    #[inline]
    fn sub(self, other: Self) -> Self {
        let xs = self.items();
        let ys = other.items();
        let mut items = xs;
        for i in 0..N {
            items[i] = xs[i] - ys[i];
        }
        Self::new(items)
    }
}

impl<S: Copy, T: Copy, P: PrimeCharacteristicRing + Inhabited, const N: usize> SubAssign
    for PackingVector<S, T, P, N> {
    ghost sub_assign_gives = { λ x y r. (d : P) (k : ℕ) → k < N → get_or r.items k d ≡ subtract P.ops (get_or x.items k d) (get_or y.items k d) };

    #[inline]
    fn sub_assign(&mut self, other: Self) {
        *self = *self - other;
    }
}

impl<S: Copy, T: Copy, P: PrimeCharacteristicRing + Inhabited, const N: usize> Mul
    for PackingVector<S, T, P, N> {
    type Output = Self;

    ghost mul_gives = { λ x y r. (d : P) (k : ℕ) → k < N → get_or r.items k d ≡ P.ops.mul (get_or x.items k d) (get_or y.items k d) };

    #[inline]
    fn mul(self, other: Self) -> Self {
        let xs = self.items();
        let ys = other.items();
        let mut items = xs;
        for i in 0..N {
            items[i] = xs[i] * ys[i];
        }
        Self::new(items)
    }
}

impl<S: Copy, T: Copy, P: PrimeCharacteristicRing + Inhabited, const N: usize> MulAssign
    for PackingVector<S, T, P, N> {
    ghost mul_assign_gives = { λ x y r. (d : P) (k : ℕ) → k < N → get_or r.items k d ≡ P.ops.mul (get_or x.items k d) (get_or y.items k d) };

    #[inline]
    fn mul_assign(&mut self, other: Self) {
        *self = *self * other;
    }
}

impl<S: Copy, T: Copy, P: PrimeCharacteristicRing + Inhabited, const N: usize> Neg
    for PackingVector<S, T, P, N> {
    type Output = Self;

    ghost neg_gives = { λ x r. (d : P) (k : ℕ) → k < N → get_or r.items k d ≡ P.ops.neg (get_or x.items k d) };

    #[inline]
    fn neg(self) -> Self {
        let xs = self.items();
        let mut items = xs;
        for i in 0..N {
            items[i] = -xs[i];
        }
        Self::new(items)
    }
}

impl<S: Copy, T: Copy, P: PrimeCharacteristicRing + Inhabited, const N: usize> Sum<
    PackingVector<S, T, P, N>,
> for PackingVector<S, T, P, N> {
    ghost use Rattle.p3_theory.specs.Rings.Operators.{sum_list};
    ghost use Rattle.p3_theory.specs.Lanes.Rows.{rows};
    ghost use Rattle.p3_theory.specs.Lanes.RowRing.{row_ops};

    ghost sum_gives = { λ xs r. r ≡ sum_list (row_ops rows P.ops) xs };

    #[inline]
    fn sum<I: Iterator<Item = Self>>(iter: I) -> Self {
        let start = <Self as PrimeCharacteristicRing>::zero();
        sum_from(start, iter)
    }
}

impl<S: Copy, T: Copy, P: PrimeCharacteristicRing + Inhabited, const N: usize> Product<
    PackingVector<S, T, P, N>,
> for PackingVector<S, T, P, N> {
    ghost use Rattle.p3_theory.specs.Rings.Operators.{product_list};
    ghost use Rattle.p3_theory.specs.Lanes.Rows.{rows};
    ghost use Rattle.p3_theory.specs.Lanes.RowRing.{row_ops};

    ghost product_gives = { λ xs r. r ≡ product_list (row_ops rows P.ops) xs };

    #[inline]
    fn product<I: Iterator<Item = Self>>(iter: I) -> Self {
        let start = <Self as PrimeCharacteristicRing>::one();
        product_from(start, iter)
    }
}

impl<
    S: Copy,
    T: Copy,
    P: PrimeCharacteristicRing + Inhabited,
    const N: usize,
> PrimeCharacteristicRing for PackingVector<S, T, P, N> {
    ghost use Rattle.p3_theory.specs.Lanes.Rows.{rows};
    ghost use Rattle.p3_theory.specs.Lanes.RowRing.{row_ops, row_laws, row_characteristic, written_sum, written_product, written_negation, written_difference};

    type PrimeSubfield = P::PrimeSubfield;

    ghost ops = { row_ops rows P.ops };

    #[inline]
    fn zero() -> Self {
        let zero = P::zero();
        Self::new([zero; N])
    }

    #[inline]
    fn one() -> Self {
        let one = P::one();
        Self::new([one; N])
    }

    #[inline]
    fn from_prime_subfield(f: P::PrimeSubfield) -> Self {
        let value = P::from_prime_subfield(f);
        Self::new([value; N])
    }

    #[inline]
    fn halve(&self) -> Self {
        let xs = self.items();
        let mut items = xs;
        for i in 0..N {
            let x = xs[i];
            items[i] = x.halve();
        }
        Self::new(items)
    }

    #[inline]
    fn square(&self) -> Self {
        let xs = self.items();
        let mut items = xs;
        for i in 0..N {
            let x = xs[i];
            items[i] = x.square();
        }
        Self::new(items)
    }

    #[inline]
    fn mul_2exp_u64(&self, exponent: u64) -> Self {
        let xs = self.items();
        let mut items = xs;
        for i in 0..N {
            let x = xs[i];
            items[i] = x.mul_2exp_u64(exponent);
        }
        Self::new(items)
    }

    ghost ring = { row_laws rows P.ops P.ring };

    ghost characteristic = { row_characteristic rows P.ops P.PrimeSubfield.order P.characteristic };

    ghost adds = { record { callable = λ _ _. tt; exact = written_sum rows P.ops } };

    ghost add_assigns = { record { callable = λ _ _. tt; exact = written_sum rows P.ops } };

    ghost subs = { record { callable = λ _ _. tt; exact = written_difference rows P.ops } };

    ghost sub_assigns = { record { callable = λ _ _. tt; exact = written_difference rows P.ops } };

    ghost negs = { record { callable = λ _. tt; exact = written_negation rows P.ops } };

    ghost muls = { record { callable = λ _ _. tt; exact = written_product rows P.ops } };

    ghost mul_assigns = { record { callable = λ _ _. tt; exact = written_product rows P.ops } };
}

impl<S: Copy, T: Copy, P: PrimeCharacteristicRing + Inhabited, const N: usize> RingSums
    for PackingVector<S, T, P, N> {
    ghost sums = { record { callable = λ _. tt; exact = λ _ _ h. h; whole = λ _. tt } };

    ghost products = { record { callable = λ _. tt; exact = λ _ _ h. h; whole = λ _. tt } };
}
