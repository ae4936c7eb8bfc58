//! Values by numbers: residues by their canonical ones, and others by those of their parts.
use p3_extension::extension::ExtField;
use p3_field_traits::field::PrimeField64;
use p3_field_traits::packed_traits::Inhabited;
use p3_packed_extension::packed_ext_field::PackedExtField;
use p3_packed_prime_fields::packed::Packed;
use p3_prime_fields::form::{Form, Word};
use p3_prime_fields::fp::Fp;
use p3_ring::ring::PrimeCharacteristicRing;
use p3_vectorized::vectorized::Vectorized;
use std::alloc::{AllocError, Global};

/// Values that numbers tell: of an array, a packing or a vector those of each entry, and of a packing of extension
/// values those of each lane, which are the ones of the coefficients there.
pub trait Numbered: Copy {
    /// How many numbers a value has.
    fn count() -> usize;

    /// The value whose numbers are those of a list at an index, and each so many after the one before. Past
    /// the end of the list they are zero.
    fn read(numbers: &[u64], first: usize, step: usize) -> Self;

    /// The number at an index, zero past the last one.
    fn number(&self, index: usize) -> u64;
}

impl<W: Form<T>, T: Word> Numbered for Fp<W, T> {
    fn count() -> usize {
        1
    }

    fn read(numbers: &[u64], first: usize, _step: usize) -> Self {
        match numbers.get(first) {
            Some(number) => Self::from_u64(*number),
            None => Self::from_u64(0),
        }
    }

    fn number(&self, _index: usize) -> u64 {
        self.as_canonical_u64()
    }
}

impl Numbered for u8 {
    fn count() -> usize {
        1
    }

    fn read(numbers: &[u64], first: usize, _step: usize) -> u8 {
        match numbers.get(first) {
            Some(number) => u8::try_from(*number).unwrap_or(0),
            None => 0,
        }
    }

    fn number(&self, _index: usize) -> u64 {
        *self as u64
    }
}

impl Numbered for u32 {
    fn count() -> usize {
        1
    }

    fn read(numbers: &[u64], first: usize, _step: usize) -> u32 {
        match numbers.get(first) {
            Some(number) => u32::try_from(*number).unwrap_or(0),
            None => 0,
        }
    }

    fn number(&self, _index: usize) -> u64 {
        *self as u64
    }
}

impl Numbered for u64 {
    fn count() -> usize {
        1
    }

    fn read(numbers: &[u64], first: usize, _step: usize) -> u64 {
        match numbers.get(first) {
            Some(number) => *number,
            None => 0,
        }
    }

    fn number(&self, _index: usize) -> u64 {
        *self
    }
}

/// The numbers of each item, one after the other.
impl<T: Numbered, const N: usize> Numbered for [T; N] {
    fn count() -> usize {
        T::count().wrapping_mul(N)
    }

    fn read(numbers: &[u64], first: usize, step: usize) -> Self {
        let width = T::count().wrapping_mul(step);
        std::array::from_fn(|i: usize| -> T {
            T::read(numbers, first.wrapping_add(i.wrapping_mul(width)), step)
        })
    }

    fn number(&self, index: usize) -> u64 {
        let count = T::count();
        match self.get(index.checked_div(count).unwrap_or(N)) {
            Some(item) => item.number(index.checked_rem(count).unwrap_or(0)),
            None => 0,
        }
    }
}

impl<F: Numbered, const N: usize> Numbered for Packed<F, N> {
    fn count() -> usize {
        <[F; N]>::count()
    }

    fn read(numbers: &[u64], first: usize, step: usize) -> Self {
        Packed::new(<[F; N]>::read(numbers, first, step))
    }

    fn number(&self, index: usize) -> u64 {
        self.value.number(index)
    }
}

impl<F: Copy, P: Inhabited + Numbered, const N: usize> Numbered for Vectorized<F, P, N> {
    fn count() -> usize {
        <[P; N]>::count()
    }

    fn read(numbers: &[u64], first: usize, step: usize) -> Self {
        Vectorized::new(<[P; N]>::read(numbers, first, step))
    }

    fn number(&self, index: usize) -> u64 {
        let vector = *self;
        let packings = vector.0;
        packings.number(index)
    }
}

/// The numbers of a lane are those of the coefficients there.
impl<F: Copy, const D: usize, S: Copy, A: Numbered> Numbered for ExtField<F, D, S, A> {
    fn count() -> usize {
        A::count().wrapping_mul(D)
    }

    fn read(numbers: &[u64], first: usize, step: usize) -> Self {
        let width = step.wrapping_mul(D);
        ExtField::<F, D, S, A>::new(std::array::from_fn(|d: usize| -> A {
            A::read(numbers, first.wrapping_add(d.wrapping_mul(step)), width)
        }))
    }

    fn number(&self, index: usize) -> u64 {
        match self.value.get(index.checked_rem(D).unwrap_or(D)) {
            Some(coefficient) => coefficient.number(index.checked_div(D).unwrap_or(0)),
            None => 0,
        }
    }
}

impl<F: Copy, const D: usize, S: Copy, P: Numbered> Numbered for PackedExtField<F, D, S, P> {
    fn count() -> usize {
        P::count().wrapping_mul(D)
    }

    fn read(numbers: &[u64], first: usize, step: usize) -> Self {
        let value = ExtField::<F, D, S, P>::read(numbers, first, step);
        PackedExtField::<F, D, S, P>::new(value.value)
    }

    fn number(&self, index: usize) -> u64 {
        self.value.number(index)
    }
}

/// The value that a list of numbers tells.
pub fn value<T: Numbered>(numbers: &[u64]) -> T {
    T::read(numbers, 0, 1)
}

/// The value at an index of those that a list of numbers tells, one after the other.
pub fn value_at<T: Numbered>(numbers: &[u64], index: usize) -> T {
    T::read(numbers, index.wrapping_mul(T::count()), 1)
}

/// How many values a list of numbers tells.
pub fn value_count<T: Numbered>(numbers: &[u64]) -> usize {
    numbers.len().checked_div(T::count()).unwrap_or(0)
}

/// The values that a list of numbers tells.
pub fn values<T: Numbered>(alloc: Global, numbers: &[u64]) -> Result<Vec<T>, AllocError> {
    let mut values = Vec::new(alloc);
    for index in 0..value_count::<T>(numbers) {
        values.push(value_at::<T>(numbers, index))?;
    }
    Ok(values)
}

/// So many values, whose first numbers are the multiples of a step from one time on, and the others zero.
pub fn multiples<T: Numbered>(
    alloc: Global,
    count: usize,
    step: u64,
) -> Result<Vec<T>, AllocError> {
    let mut values = Vec::new(alloc);
    let mut number: u64 = 0;
    for _ in 0..count {
        number = number.wrapping_add(step);
        values.push(value::<T>(&[number]))?;
    }
    Ok(values)
}

/// So many values, the first number of each of which is its index, and the others zero.
pub fn counted<T: Numbered>(alloc: Global, count: usize) -> Result<Vec<T>, AllocError> {
    let mut values = Vec::new(alloc);
    let mut number: u64 = 0;
    for _ in 0..count {
        values.push(value::<T>(&[number]))?;
        number = number.wrapping_add(1);
    }
    Ok(values)
}

/// The number at an index of a list, if any.
pub fn number_at(numbers: &[u64], index: usize) -> Option<u64> {
    match numbers.get(index) {
        Some(number) => Some(*number),
        None => None,
    }
}

/// Whether a value is the one at an index of those that a list tells.
pub fn holds_at<T: Numbered>(value: &T, numbers: &[u64], index: usize) -> bool {
    let count = T::count();
    let first = index.wrapping_mul(count);
    for i in 0..count {
        if number_at(numbers, first.wrapping_add(i)) != Some(value.number(i)) {
            return false;
        }
    }
    true
}

/// Whether a value is the one that a list tells.
pub fn holds<T: Numbered>(value: &T, numbers: &[u64]) -> bool {
    numbers.len() == T::count() && holds_at::<T>(value, numbers, 0)
}

/// Whether values are those that a list tells.
pub fn all_hold<T: Numbered>(values: &[T], numbers: &[u64]) -> bool {
    for (index, value) in values.iter().enumerate() {
        if !holds_at::<T>(value, numbers, index) {
            return false;
        }
    }
    values.len().checked_mul(T::count()) == Some(numbers.len())
}
