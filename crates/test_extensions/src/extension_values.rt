//! Order, hash and default of extension values, and lists of their coefficients, at one type. What is called at
//! an extension is so over a marker: a test at a marker's name passes the field's constants alone.

use crate::calls::agree_with;
use crate::values::{Listed, coefficients};
use p3_extension::extension::BinomialExtensionField;
use p3_extension_traits::basis::BasedVectorSpace;
use p3_extension_traits::in_memory::InMemory;
use p3_field_traits::packed_traits::Packable;
use p3_prime_fields::binomial_constants::BinomialConstants;
use p3_prime_fields::form::{OverModulus, Plain, ShortForm};
use p3_prime_fields::fp::Fp;
use p3_prime_fields::small::M17;
use p3_ring::ring::PrimeCharacteristicRing;
use std::alloc::{AllocError, Global};
use std::collections::hash_map::DefaultHasher;
use std::fmt::Debug;
use std::hash::{Hash, Hasher};
use std::process::Abort;
use std::test::Fail;
use test_values::canonical::Canonical;
use test_values::lists::{List, ZERO};

fn hash_of<T: Hash>(x: &T) -> u64 {
    let mut hasher = DefaultHasher::new();
    x.hash(&mut hasher);
    hasher.finish()
}

/// The default of what may stand in a lane.
fn default_lane<T: Packable>() -> T {
    T::default()
}

/// Asserts that x is below y, that x and the value of another list have one hash, and that x has a text.
fn assert_compared<T: Ord + Hash + Debug + Listed>(
    rt: &(impl Abort + AllocGlobal),
    x: T,
    y: T,
    same: &List,
) -> Result<(), Fail> {
    assert!(rt; x < y);
    assert!(rt; x.cmp(&y).is_lt());
    assert!(rt; hash_of(&x) == hash_of(&T::of_list(same)));
    let text = format!(in rt.alloc(); "{x:?}")?;
    assert!(rt; !text.is_empty());
    Ok(())
}

/// The values of the extension by `X^4 = W`.
type Quartic<W> = BinomialExtensionField<Fp<W>, 4>;

/// The default value, and the second of the values of two lists. Nothing is read of `_room`.
fn default_and_second<W: ShortForm>(
    _room: Option<Quartic<W>>,
    first: &List,
    second: &List,
) -> (List, List) {
    let pair = Quartic::<W>::new_array([coefficients(first), coefficients(second)]);
    let last = pair[1];
    (default_lane::<Quartic<W>>().list(), last.list())
}

/// `assert_compared` of the values of two lists. Nothing is read of `_room`.
fn assert_values<W: ShortForm>(
    rt: &(impl Abort + AllocGlobal),
    _room: Option<Quartic<W>>,
    first: &List,
    second: &List,
    same: &List,
) -> Result<(), Fail> {
    let x = Quartic::<W>::of_list(first);
    let y = Quartic::<W>::of_list(second);
    assert_compared::<Quartic<W>>(rt, x, y, same)
}

#[test]
fn values_of_one_type(rt: HostRuntime) -> Result<(), Fail> {
    let x = [1, 2, 3, 4, 0, 0, 0, 0];
    let y = [5, 6, 7, 8, 0, 0, 0, 0];
    let same = [18, 19, 20, 21, 0, 0, 0, 0];
    assert_values::<Plain<M17>>(&rt, None, &x, &y, &same)?;
    let (default, second) = default_and_second::<Plain<M17>>(None, &x, &y);
    assert!(rt; default == ZERO);
    assert!(rt; second == y);
    Ok(())
}

/// The canonical numbers of the coefficients of values, one value after the other.
fn flat_numbers<F, V>(alloc: Global, lists: &[List]) -> Result<Vec<u64>, AllocError>
where
    F: PrimeCharacteristicRing + InMemory + Canonical,
    V: BasedVectorSpace<F> + Listed,
{
    let values: Vec<V> = lists.iter().map(|list| V::of_list(list)).collect(alloc)?;
    let flat: Vec<F> = V::flatten_to_base(alloc, values)?;
    flat.iter().map(|c| c.canonical()).collect(alloc)
}

/// The values that a list of coefficients makes.
fn reconstituted<F, V>(alloc: Global, numbers: &[u64]) -> Result<Vec<V>, AllocError>
where
    F: PrimeCharacteristicRing + Canonical,
    V: BasedVectorSpace<F>,
{
    let flat: Vec<F> = numbers.iter().map(|n| F::of_number(*n)).collect(alloc)?;
    if flat.len() % V::DIMENSION == 0 {
        V::reconstitute_from_base(alloc, flat)
    } else {
        Ok(Vec::new(alloc))
    }
}

/// Whether the coefficients of values, one value after the other, are these numbers, and the values that these
/// make are those that a text tells. Nothing is read of `_room`.
fn flat_lists_agree<W: OverModulus<u32> + ShortForm>(
    alloc: Global,
    _room: Option<Quartic<W>>,
    lists: &[List],
    numbers: &[u64],
    text: &str,
) -> Result<bool, AllocError>
where
    W::Modulus: BinomialConstants<4>,
{
    let flat = flat_numbers::<Fp<W>, Quartic<W>>(alloc, lists)?;
    let back = reconstituted::<Fp<W>, Quartic<W>>(alloc, numbers)?;
    Ok(flat.as_slice() == numbers && agree_with::<Quartic<W>>(&back, text))
}

#[test]
fn lists_of_values(rt: HostRuntime) -> Result<(), Fail> {
    let lists = [[1, 2, 3, 4, 0, 0, 0, 0], [5, 6, 7, 8, 0, 0, 0, 0]];
    let numbers = [1, 2, 3, 4, 5, 6, 7, 8];
    let text = "1,2,3,4 5,6,7,8";
    let agree = flat_lists_agree::<Plain<M17>>(rt.alloc(), None, &lists, &numbers, text)?;
    assert!(rt; agree);
    Ok(())
}
