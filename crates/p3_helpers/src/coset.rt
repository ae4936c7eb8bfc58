//! Cosets of the subgroups of roots of unity whose orders are powers of two.
ghost use Rattle.std.specs.Prelude.{◌≤◌};
ghost use Rattle.p3_theory.specs.Rings.Ring.{IsInverse};

use p3_field_traits::field::TwoAdicField;
use p3_ring::powers::BoundedPowers;
use std::alloc::AllocError;

/// A coset `shift * g^j`, for j below `2^log_size`, of the subgroup that the two-adic generator g
/// for `log_size` bits generates. Upstream's `TwoAdicMultiplicativeCoset`. Its shift has an
/// inverse, and its log size is at most the two-adicity.
#[derive(Debug)]
pub struct TwoAdicMultiplicativeCoset<F: TwoAdicField> {
    shift: F,
    shift_inverse: F,
    log_size: usize,
    pub ghost unit: { IsInverse F.ops shift shift_inverse },
    pub ghost within: { log_size ≤ F.TWO_ADICITY },
}

impl<F: TwoAdicField> Clone for TwoAdicMultiplicativeCoset<F> {
    ghost use Rattle.std.specs.Prelude.{◌≡◌, ⊤};

    ghost is_clone = { λ x y. y ≡ x };

    ghost is_infallible = { λ _. ⊤ };

    #[inline]
    fn clone(&self) -> Result<Self, AllocError> {
        Ok(*self)
    }
}

impl<F: TwoAdicField> Copy for TwoAdicMultiplicativeCoset<F> {}

impl<F: TwoAdicField> TwoAdicMultiplicativeCoset<F> {
    ghost use Rattle.std.specs.Prelude.{◌≡◌, ◌<◌, ◌-◌, ◌*◌, ◌%◌, ◌^◌, ◌↔◌, ℕ, IsTrue, IsSome, IfSome, Contains, get_or};
    ghost use Rattle.p3_theory.specs.Rings.Ring.{Invertible};
    ghost use Rattle.p3_theory.specs.Rings.Powers.{power};
    ghost use Rattle.p3_theory.specs.Rings.ZeroDivisors.{HasNoZeroDivisors};
    ghost use Rattle.p3_ring.specs.BoundedSequence.{terms};
    ghost use Rattle.p3_theory.specs.Rings.GeometricSequence.{geometric_sequence};
    ghost use Rattle.p3_theory.specs.Roots.Cosets.{coset};

    /// The coset of the shift and the size `2^log_size`, and `None` where the shift has no inverse
    /// or the log size is past the two-adicity.
    #[must_use]
    pub fn new(shift: F, log_size: usize) -> Option<Self>
        ensures given { IsSome result ↔ (Invertible F.ops shift × (log_size ≤ F.TWO_ADICITY)) }
        ensures shift { IfSome result (λ c. c.shift ≡ shift) }
        ensures log_size { IfSome result (λ c. c.log_size ≡ log_size) }
    {
        if log_size > F::TWO_ADICITY {
            return None;
        }
        match shift.try_inverse() {
            Some(shift_inverse) => Some(Self {
                shift,
                shift_inverse,
                log_size,
            }),
            None => None,
        }
    }

    /// The generator of the subgroup.
    #[inline]
    #[must_use]
    pub fn subgroup_generator(&self) -> F
        ensures { result ≡ F.two_adic self.now.log_size }
    {
        F::two_adic_generator(self.log_size)
    }

    /// The first item.
    #[inline]
    #[must_use]
    pub fn shift(&self) -> F
        ensures { result ≡ self.now.shift }
    {
        self.shift
    }

    /// The inverse of the shift.
    #[inline]
    #[must_use]
    pub fn shift_inverse(&self) -> F
        ensures { IsInverse F.ops self.now.shift result }
    {
        self.shift_inverse
    }

    /// The logarithm to base two of the size.
    #[inline]
    #[must_use]
    pub fn log_size(&self) -> usize
        ensures { result ≡ self.now.log_size }
    {
        self.log_size
    }

    /// How many items there are, where the log size is below 64.
    #[inline]
    #[must_use]
    pub fn size(&self) -> usize
        requires { self.now.log_size < 64 }
        ensures { result ≡ 2 ^ self.now.log_size }
    {
        1 << self.log_size
    }

    /// The coset of the same shift whose log size is less by the factor's, and `None` where that
    /// is past the log size.
    #[inline]
    #[must_use]
    pub fn shrink_coset(&self, log_scale_factor: usize) -> Option<Self>
        ensures given { IsSome result ↔ (log_scale_factor ≤ self.now.log_size) }
        ensures shift { IfSome result (λ c. c.shift ≡ self.now.shift) }
        ensures log_size { IfSome result (λ c. c.log_size ≡ self.now.log_size - log_scale_factor) }
    {
        if log_scale_factor > self.log_size {
            return None;
        }
        Some(Self {
            shift: self.shift,
            shift_inverse: self.shift_inverse,
            log_size: self.log_size - log_scale_factor,
        })
    }

    /// The coset whose shift is the shift to the power `2^log_scale_factor`, and whose log size is
    /// less by the factor's, and `None` where that is past the log size.
    #[inline]
    #[must_use]
    pub fn exp_power_of_2(&self, log_scale_factor: usize) -> Option<Self>
        ensures given { IsSome result ↔ (log_scale_factor ≤ self.now.log_size) }
        ensures shift { IfSome result (λ c. c.shift ≡ power F.ops self.now.shift (2 ^ log_scale_factor)) }
        ensures log_size { IfSome result (λ c. c.log_size ≡ self.now.log_size - log_scale_factor) }
    {
        let shrunk = self.shrink_coset(log_scale_factor)?;
        let shift = self.shift.exp_power_of_2(log_scale_factor);
        let shift_inverse = self.shift_inverse.exp_power_of_2(log_scale_factor);
        Some(Self {
            shift,
            shift_inverse,
            log_size: shrunk.log_size,
        })
    }

    /// The coset of the same size whose shift is the shift times `scale`, a product that has an
    /// inverse.
    #[inline]
    #[must_use]
    pub fn shift_by(&self, scale: F) -> Self
        requires { Invertible F.ops (F.ops.mul self.now.shift scale) }
        ensures shift { result.shift ≡ F.ops.mul self.now.shift scale }
        ensures log_size { result.log_size ≡ self.now.log_size }
    {
        let shift = self.shift * scale;
        self.set_shift(shift)
    }

    /// The coset of the same size with another shift, which has an inverse.
    #[inline]
    #[must_use]
    pub fn set_shift(&self, shift: F) -> Self
        requires { Invertible F.ops shift }
        ensures shift { result.shift ≡ shift }
        ensures log_size { result.log_size ≡ self.now.log_size }
    {
        let shift_inverse = shift.inverse();
        Self {
            shift,
            shift_inverse,
            log_size: self.log_size,
        }
    }

    /// Whether the element and the shift agree after `log_size` squarings of both. Each item does,
    /// and where no product but of zeros is zero nothing else.
    #[inline]
    #[must_use]
    pub fn contains(&self, element: F) -> bool
        ensures value { let size = 2 ^ self.now.log_size in
            IsTrue result ↔ (power F.ops element size ≡ power F.ops self.now.shift size) }
        ensures members { let items = coset F.ops F.two_adic self.now.shift self.now.log_size in
            Contains items element → IsTrue result }
        ensures no_others { let items = coset F.ops F.two_adic self.now.shift self.now.log_size in
            HasNoZeroDivisors F.ops → IsTrue result → Contains items element }
    {
        let mut shift = self.shift;
        let mut element = element;
        for _ in 0..self.log_size {
            if element == shift {
                return true;
            }
            element = element.square();
            shift = shift.square();
        }
        element == shift
    }

    /// The item at the index modulo the size.
    #[inline]
    #[must_use]
    pub fn element(&self, index: usize) -> F
        requires { self.now.log_size < 64 }
        ensures { let items = coset F.ops F.two_adic self.now.shift self.now.log_size in
            result ≡ get_or items (index % 2 ^ self.now.log_size) F.ops.zero }
    {
        self.shift * self.generator_exp(index)
    }

    /// The generator to the power `exp` modulo the size. Its binary digits are gone through from the
    /// lowest: each that is one makes the generator of a smaller subgroup a factor.
    #[inline]
    fn generator_exp(&self, exp: usize) -> F
        requires { self.now.log_size < 64 }
        ensures { result ≡ power F.ops (F.two_adic self.now.log_size) (exp % 2 ^ self.now.log_size) }
    {
        let mut gen_power = F::one();
        let mut rest = exp % self.size();
        let mut i = self.log_size;
        while rest > 0 {
            if rest % 2 == 1 {
                gen_power *= F::two_adic_generator(i);
            }
            rest /= 2;
            i -= 1;
        }
        gen_power
    }

    /// The items in order.
    #[inline]
    pub fn iter(&self) -> BoundedPowers<F>
        requires { self.now.log_size < 64 }
        ensures { terms F.ops result ≡ coset F.ops F.two_adic self.now.shift self.now.log_size }
    {
        self.items()
    }

    /// How many items are yielded: all of them, or as many as a count has room for.
    #[inline]
    fn item_count(&self) -> usize
        ensures all { self.now.log_size < 64 → result ≡ 2 ^ self.now.log_size }
        ensures greatest { 64 ≤ self.now.log_size → result ≡ 2 ^ 64 - 1 }
    {
        if self.log_size < 64 {
            self.size()
        } else {
            usize::MAX
        }
    }

    /// The items in order. A log size of 64 or more has more items than a count has room for: then
    /// they are the first 2^64 - 1.
    #[inline]
    fn items(&self) -> BoundedPowers<F>
        ensures all { self.now.log_size < 64
            → terms F.ops result ≡ coset F.ops F.two_adic self.now.shift self.now.log_size }
        ensures first { (n : ℕ) → n ≡ 2 ^ 64 - 1 → 64 ≤ self.now.log_size
            → terms F.ops result ≡ geometric_sequence F.ops (F.two_adic self.now.log_size) self.now.shift n }
    {
        let count = self.item_count();
        self.subgroup_generator()
            .shifted_powers(self.shift)
            .take(count)
    }
}

impl<F: TwoAdicField> IntoIterator for TwoAdicMultiplicativeCoset<F> {
    ghost use Rattle.std.specs.Prelude.{◌≡◌, ◌<◌, ◌-◌, ◌^◌, ℕ};
    ghost use Rattle.p3_ring.specs.BoundedSequence.{terms};
    ghost use Rattle.p3_theory.specs.Rings.GeometricSequence.{geometric_sequence};
    ghost use Rattle.p3_theory.specs.Roots.Cosets.{coset};

    type Item = F;

    type IntoIter = BoundedPowers<F>;

    ghost into_iter_gives = { λ c r. (c.log_size < 64
        → terms F.ops r ≡ coset F.ops F.two_adic c.shift c.log_size)
        × ((n : ℕ) → n ≡ 2 ^ 64 - 1 → 64 ≤ c.log_size
        → terms F.ops r ≡ geometric_sequence F.ops (F.two_adic c.log_size) c.shift n) };

    /// The items in order, and the first 2^64 - 1 of them where the log size is 64 or more.
    #[inline]
    fn into_iter(self) -> BoundedPowers<F> {
        self.items()
    }
}

impl<F: TwoAdicField> IntoIterator for &TwoAdicMultiplicativeCoset<F> {
    ghost use Rattle.std.specs.Prelude.{◌≡◌, ◌<◌, ◌-◌, ◌^◌, ℕ};
    ghost use Rattle.p3_ring.specs.BoundedSequence.{terms};
    ghost use Rattle.p3_theory.specs.Rings.GeometricSequence.{geometric_sequence};
    ghost use Rattle.p3_theory.specs.Roots.Cosets.{coset};

    type Item = F;

    type IntoIter = BoundedPowers<F>;

    ghost into_iter_gives = { λ c r. (c.now.log_size < 64
        → terms F.ops r ≡ coset F.ops F.two_adic c.now.shift c.now.log_size)
        × ((n : ℕ) → n ≡ 2 ^ 64 - 1 → 64 ≤ c.now.log_size
        → terms F.ops r ≡ geometric_sequence F.ops (F.two_adic c.now.log_size) c.now.shift n) };

    /// The items in order, and the first 2^64 - 1 of them where the log size is 64 or more.
    #[inline]
    fn into_iter(self) -> BoundedPowers<F> {
        self.items()
    }
}
