//! Extension values by their coefficient lists.
use p3_extension::extension::{ExtField, ExtensionShape, FrobeniusExtendable, HasFrobenius};
use p3_field_traits::field::{Field, PrimeField64};
use p3_prime_fields::form::{Form, Word};
use p3_prime_fields::fp::Fp;
use p3_ring::ring::PrimeCharacteristicRing;
use test_values::lists::{List, MOST, ZERO, at};

/// Values that lists of numbers tell: of an extension value those of each coefficient, one after the other.
pub trait Listed: Copy {
    /// How many numbers a value has.
    fn count() -> usize;

    /// The value whose numbers stand in a list from an index on.
    fn read(list: &List, first: usize) -> Self;

    /// The number at an index, zero past the last one.
    fn number(&self, index: usize) -> u64;

    /// The inverse, or zero where there is none.
    fn inverse_or_zero(&self) -> Self;
}

impl<W: Form<T>, T: Word> Listed for Fp<W, T> {
    fn count() -> usize {
        1
    }

    fn read(list: &List, first: usize) -> Self {
        Self::from_u64(at(list, first))
    }

    fn number(&self, index: usize) -> u64 {
        if index == 0 {
            self.as_canonical_u64()
        } else {
            0
        }
    }

    /// By the inverse alone: a prime field has no such call.
    fn inverse_or_zero(&self) -> Self {
        self.try_inverse().unwrap_or(Self::from_u64(0))
    }
}

impl<F: FrobeniusExtendable<D, S> + Listed, const D: usize, S: ExtensionShape> Listed
    for ExtField<F, D, S, F> {
    fn count() -> usize {
        F::count().wrapping_mul(D)
    }

    fn read(list: &List, first: usize) -> Self {
        ExtField::<F, D, S, F>::new(std::array::from_fn(|d: usize| -> F {
            F::read(list, first.wrapping_add(d.wrapping_mul(F::count())))
        }))
    }

    fn number(&self, index: usize) -> u64 {
        let count = F::count();
        match self.value.get(index.checked_div(count).unwrap_or(D)) {
            Some(coefficient) => coefficient.number(index.checked_rem(count).unwrap_or(0)),
            None => 0,
        }
    }

    fn inverse_or_zero(&self) -> Self {
        self.pseudo_inv()
    }
}

/// The value that a list tells.
pub fn of_list<T: Listed>(list: &List) -> T {
    T::read(list, 0)
}

/// The numbers of a value.
pub fn list_of_value<T: Listed>(value: &T) -> List {
    let mut list = ZERO;
    for i in 0..MOST {
        list[i] = value.number(i);
    }
    list
}
