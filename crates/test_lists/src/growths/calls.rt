//! The calls of the table on values, limbs and extension values.
use super::numbers::{Pair, Sequence, coefficient, coefficients, terms};
use super::table::Call;
use crate::inverses::have_inverses;
use p3_extension::extension::{Binomial, BinomiallyExtendable, ExtField, HasFrobenius};
use p3_extension_traits::basis::{AlgebraIdentity, BasedVectorSpace};
use p3_extension_traits::in_memory::InMemory;
use p3_field_traits::field::{Field, PrimeField32};
use p3_field_traits::packed_traits::Packable;
use p3_helpers::batch_inverse::batch_multiplicative_inverse_in;
use p3_helpers::splits::{
    split_32_in, split_pf_to_field_order_limbs_in, split_pf_to_packed_limbs_in,
};
use p3_ring::ring::PrimeCharacteristicRing;
use std::alloc::{AllocError, Allocator};
use std::marker::PhantomData;
use test_values::canonical::Canonical;

/// What has calls in the table.
pub(crate) trait Callee: Copy {
    /// Whether a call answers these items with memory of `alloc`, and leaves what it is lent as it was.
    /// What it is given lies in the memory of `ample`.
    fn answers<A: Allocator + Copy>(
        self,
        alloc: A,
        ample: A,
        call: Call,
        items: &[Pair],
    ) -> Result<bool, AllocError>;
}

/// The value with these canonical coefficients, where X is given: zero in the field itself.
fn value<T: PrimeCharacteristicRing>(x: T, numbers: Pair) -> T {
    let multiple = T::from_u64(numbers.1) * x;
    T::from_u64(numbers.0) + multiple
}

/// The values with these canonical coefficients.
fn values<T: PrimeCharacteristicRing, A: Allocator + Copy>(
    alloc: A,
    x: T,
    items: &[Pair],
) -> Result<Vec<T, A>, AllocError> {
    let mut values = Vec::with_capacity(alloc, items.len())?;
    for item in items {
        values.push(value(x, *item))?;
    }
    Ok(values)
}

/// Whether a value has these canonical coefficients.
fn is_value<F: PrimeCharacteristicRing + Canonical + InMemory, T: BasedVectorSpace<F>>(
    value: T,
    numbers: Pair,
) -> bool {
    let coefficients = value.as_basis_coefficients_slice();
    for i in 0..coefficients.len() {
        if coefficients[i].canonical() != coefficient(numbers, i) {
            return false;
        }
    }
    true
}

/// Whether the values have these canonical coefficients.
fn are_values<F: PrimeCharacteristicRing + Canonical + InMemory, T: BasedVectorSpace<F>>(
    values: &[T],
    items: &[Pair],
) -> bool {
    if values.len() != items.len() {
        return false;
    }
    for i in 0..values.len() {
        if !is_value::<F, T>(values[i], items[i]) {
            return false;
        }
    }
    true
}

/// Whether entries that are lent have these inverses, and are the same afterwards.
fn lent_inverts<
    F: PrimeCharacteristicRing + Canonical + InMemory,
    T: Field + BasedVectorSpace<F>,
    A: Allocator + Copy,
>(alloc: A, lent: &[T], entries: &[Pair], inverses: &[Pair]) -> Result<bool, AllocError> {
    if !have_inverses(lent) {
        return Ok(false);
    }
    let answer = batch_multiplicative_inverse_in(alloc, lent);
    if !are_values::<F, T>(lent, entries) {
        return Ok(false);
    }
    let found = answer?;
    Ok(are_values::<F, T>(&found, inverses))
}

/// Whether the entries that are the first terms of a sequence have these inverses.
fn inverts<
    F: PrimeCharacteristicRing + Canonical + InMemory,
    T: Field + BasedVectorSpace<F>,
    A: Allocator + Copy,
>(alloc: A, ample: A, x: T, sequence: Sequence, inverses: &[Pair]) -> Result<bool, AllocError> {
    let entries = terms(ample, sequence, inverses.len())?;
    let given = values(ample, x, &entries)?;
    lent_inverts::<F, T, A>(alloc, &given, &entries, inverses)
}

/// Whether values are flattened to their coefficients.
fn flattens<
    F: PrimeCharacteristicRing + Canonical + InMemory,
    T: PrimeCharacteristicRing + BasedVectorSpace<F>,
    A: Allocator + Copy,
>(alloc: A, ample: A, x: T, items: &[Pair]) -> Result<bool, AllocError> {
    let given = values(ample, x, items)?;
    let found = <T as BasedVectorSpace<F>>::flatten_to_base_in(alloc, given)?;
    let expected = coefficients(ample, items, <T as BasedVectorSpace<F>>::DIMENSION)?;
    Ok(are_values::<F, F>(&found, &expected))
}

/// Whether values are put together of their coefficients.
fn reconstitutes<
    F: PrimeCharacteristicRing + Canonical + InMemory,
    T: BasedVectorSpace<F>,
    A: Allocator + Copy,
>(alloc: A, ample: A, _x: T, items: &[Pair]) -> Result<bool, AllocError> {
    let dimension = <T as BasedVectorSpace<F>>::DIMENSION;
    let numbers = coefficients(ample, items, dimension)?;
    let given: Vec<F, A> = values(ample, F::zero(), &numbers)?;
    if given.len().checked_rem(dimension) != Some(0) {
        return Ok(false);
    }
    let found = <T as BasedVectorSpace<F>>::reconstitute_from_base_in(alloc, given)?;
    Ok(are_values::<F, T>(&found, items))
}

/// Whether a call on values answers these items, where X is given: zero in the field itself.
fn values_answer<
    F: PrimeCharacteristicRing + Canonical + InMemory,
    T: Field + Packable + AlgebraIdentity<F>,
    A: Allocator + Copy,
>(alloc: A, ample: A, x: T, call: Call, items: &[Pair]) -> Result<bool, AllocError> {
    let found = match call {
        Call::ZeroVec => T::zero_vec_in(alloc, items.len())?,
        Call::CollectN(powers) => value(x, powers.ratio)
            .shifted_powers(value(x, powers.first))
            .collect_n_in::<T, A>(alloc, items.len())?,
        Call::Collect(powers) => value(x, powers.ratio)
            .shifted_powers(value(x, powers.first))
            .take(items.len())
            .collect_in::<T, A>(alloc)?,
        Call::FlattenToBase(_) => return flattens::<F, T, A>(alloc, ample, x, items),
        Call::ReconstituteFromBase(_) => return reconstitutes::<F, T, A>(alloc, ample, x, items),
        Call::BatchInverse { entries, .. } => {
            return inverts::<F, T, A>(alloc, ample, x, entries, items);
        }
        Call::AlgebraId(name) => {
            let found = <T as AlgebraIdentity<F>>::algebra_id_in(alloc)?;
            return Ok(found.as_slice() == name.as_bytes());
        }
        _ => return Ok(false),
    };
    Ok(are_values::<F, T>(&found, items))
}

/// The values of a field itself.
#[derive(Clone, Copy)]
pub(crate) struct Scalars<F> {
    field: PhantomData<F>,
}

impl<F> Scalars<F> {
    /// The values of the field.
    pub(crate) fn of_field() -> Self {
        Scalars { field: PhantomData }
    }
}

impl<F: Field + Canonical + InMemory + Packable> Callee for Scalars<F> {
    fn answers<A: Allocator + Copy>(
        self,
        alloc: A,
        ample: A,
        call: Call,
        items: &[Pair],
    ) -> Result<bool, AllocError> {
        values_answer::<F, F, A>(alloc, ample, F::zero(), call, items)
    }
}

impl<F: BinomiallyExtendable<2> + Canonical + InMemory + Packable> Callee
    for ExtField<F, 2, Binomial<F>, F> {
    fn answers<A: Allocator + Copy>(
        self,
        alloc: A,
        ample: A,
        call: Call,
        items: &[Pair],
    ) -> Result<bool, AllocError> {
        match call {
            Call::GaloisOrbit { value: numbers, .. } => {
                let found = HasFrobenius::<F>::galois_orbit_in(value(self, numbers), alloc)?;
                Ok(are_values::<F, Self>(&found, items))
            }
            _ => values_answer::<F, Self, A>(alloc, ample, self, call, items),
        }
    }
}

/// Values of a field that are split into values of the same.
#[derive(Clone, Copy)]
pub(crate) struct Splits<F> {
    field: PhantomData<F>,
}

impl<F> Splits<F> {
    /// The splits of the field.
    pub(crate) fn of_field() -> Self {
        Splits { field: PhantomData }
    }
}

impl<F: PrimeField32 + Canonical + InMemory> Callee for Splits<F> {
    fn answers<A: Allocator + Copy>(
        self,
        alloc: A,
        _ample: A,
        call: Call,
        items: &[Pair],
    ) -> Result<bool, AllocError> {
        let count = items.len();
        let found: Vec<F, A> = match call {
            Call::PackedLimbs { number, radix_bits } => {
                if radix_bits >= 32 || 1u64 << radix_bits > F::ORDER_U32 as u64 {
                    return Ok(false);
                }
                split_pf_to_packed_limbs_in(alloc, F::from_u64(number), count, radix_bits)?
            }
            Call::FieldOrderLimbs(number) => {
                split_pf_to_field_order_limbs_in(alloc, F::from_u64(number), count)?
            }
            Call::Words(number) => split_32_in(alloc, F::from_u64(number), count)?,
            _ => return Ok(false),
        };
        Ok(are_values::<F, F>(&found, items))
    }
}
