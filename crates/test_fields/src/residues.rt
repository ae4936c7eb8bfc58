//! Residues of integers, their order, hash and text.

use p3_field::integers::QuotientMap;
use p3_field::{Algebra, PrimeCharacteristicRing, PrimeField32, PrimeField64, PrimeFieldBounds};
use p3_prime_fields::form::{Plain, ShortForm};
use p3_prime_fields::fp::Fp;
use p3_prime_fields::goldilocks::Goldilocks;
use p3_prime_fields::small::{F17, M17, M31};
use std::alloc::{AllocError, Global};
use std::collections::hash_map::DefaultHasher;
use std::hash::{Hash, Hasher};
use std::process::Abort;
use std::test::Fail;

fn hash_of<T: Hash>(x: &T) -> u64 {
    let mut hasher = DefaultHasher::new();
    x.hash(&mut hasher);
    hasher.finish()
}

/// A field element plus one of the algebra.
fn mixed<F: PrimeCharacteristicRing, A: Algebra<F>>(x: A, f: F) -> A {
    x + f
}

/// Whether the value is the residue of this number, and is written as it.
fn is_written<F: PrimeFieldBounds>(alloc: Global, x: F, number: &str) -> Result<bool, AllocError> {
    let text = format!(in alloc; "{x}")?;
    let debug = format!(in alloc; "{x:?}")?;
    Ok(text.as_str() == number && debug.as_str() == number)
}

/// Asserts residues modulo 17 of integers of several types.
fn assert_integers<F: PrimeField32>(rt: &impl Abort) {
    let residue = <F as QuotientMap<i8>>::from_int(-1);
    assert!(rt; residue.as_canonical_u64() == 16);
    let residue = <F as QuotientMap<u128>>::from_int(u128::MAX);
    assert!(rt; residue.as_canonical_u32() == 0);
    let residue = <F as QuotientMap<i128>>::from_int(i128::MIN);
    assert!(rt; residue.as_canonical_biguint() == 8);
    match <F as QuotientMap<u8>>::from_canonical_checked(16) {
        Some(residue) => assert!(rt; residue.as_canonical_u64() == 16),
        None => assert!(rt; false),
    }
    assert!(rt; <F as QuotientMap<u8>>::from_canonical_checked(17).is_none());
    assert!(rt; <F as QuotientMap<i32>>::from_canonical_checked(-1).is_none());
    assert!(rt; F::ORDER_U32 == 17);
    let sum = mixed(F::from_u64(9), F::from_u64(10));
    assert!(rt; sum == F::two());
}

/// Asserts the order, the hash and the text of residues modulo 17, of which 17, 20 and 33 are given, and
/// 16 as a canonical value.
fn assert_values<F: PrimeField64 + PrimeFieldBounds>(
    rt: &(impl Abort + AllocGlobal),
    residues: &[F],
) -> Result<(), Fail> {
    let three = F::from_u64(3);
    assert!(rt; residues.len() == 4);
    assert!(rt; F::from_u64(16) > three);
    assert!(rt; residues[0] < three);
    assert!(rt; residues[1] == three);
    assert!(rt; hash_of(&residues[1]) == hash_of(&three));
    assert!(rt; residues[2].as_canonical_u64() == 16);
    assert!(rt; residues[3] == residues[2]);
    let written = is_written(rt.alloc(), F::neg_one(), "16")?;
    assert!(rt; written);
    Ok(())
}

/// Asserts that the text of a value is its canonical number, whatever the formatter is told of its form
/// and width.
fn assert_texts<F: PrimeField64>(rt: &(impl Abort + AllocGlobal), order: u64) -> Result<(), Fail> {
    for n in 0..order {
        let number = format!(in rt.alloc(); "{n}")?;
        let x = F::from_u64(n);
        assert!(rt; format!(in rt.alloc(); "{x}")?.as_str() == number.as_str());
        assert!(rt; format!(in rt.alloc(); "{x:#}")?.as_str() == number.as_str());
        assert!(rt; format!(in rt.alloc(); "{x:>8}")?.as_str() == number.as_str());
    }
    Ok(())
}

/// Whether the value has this word and this canonical value, by both widths.
fn has_word<F: PrimeField32>(x: F, word: u32, canonical: u32) -> bool {
    x.to_unique_u32() == word
        && x.to_unique_u64() == word as u64
        && x.as_canonical_u32() == canonical
        && x.as_canonical_u64() == canonical as u64
}

/// What is asserted of residues.
#[derive(Clone, Copy)]
pub(crate) enum Topic {
    /// Residues modulo 17 of integers.
    Integers,
    /// The order, the hash and the text of the given residues modulo 17.
    Values,
    /// The texts of the residues of all numbers below this one.
    Texts(u64),
    /// The word that stands for each given residue, and its canonical value.
    Word(u32, u32),
}

/// Asserts a topic of residues.
fn assert_residues<F: PrimeField32 + PrimeFieldBounds>(
    rt: &(impl Abort + AllocGlobal),
    topic: Topic,
    residues: &[F],
) -> Result<(), Fail> {
    match topic {
        Topic::Integers => {
            assert_integers::<F>(rt);
            Ok(())
        }
        Topic::Values => assert_values::<F>(rt, residues),
        Topic::Texts(order) => assert_texts::<F>(rt, order),
        Topic::Word(word, canonical) => {
            for x in residues {
                assert!(rt; has_word(*x, word, canonical), "{word}");
            }
            Ok(())
        }
    }
}

/// Asserts a topic of residues of the field of a marker: a check passes what the field owes once for all topics.
pub(crate) fn assert_over<W: ShortForm>(
    rt: &(impl Abort + AllocGlobal),
    topic: Topic,
    residues: &[Fp<W>],
) -> Result<(), Fail> {
    assert_residues::<Fp<W>>(rt, topic, residues)
}

#[test]
fn residues_of_order_17(rt: HostRuntime) -> Result<(), Fail> {
    assert_over::<Plain<M17>>(&rt, Topic::Integers, &[])?;
    assert!(rt; F17::from_prime_subfield(F17::new(19)) == F17::two());
    let sixteen = F17::from_canonical_unchecked(16usize);
    let residues = [F17::new(17), F17::new(20), F17::new(33), sixteen];
    assert_over::<Plain<M17>>(&rt, Topic::Values, &residues)
}

#[test]
fn texts_of_residues(rt: HostRuntime) -> Result<(), Fail> {
    assert_over::<Plain<M31>>(&rt, Topic::Texts(31), &[])
}

/// Asserts residues of Goldilocks, of which that of 2^64 - 1 is given, and 2^32 - 2 as a canonical value.
fn assert_goldilocks<F: PrimeField64 + PrimeFieldBounds>(
    rt: &(impl Abort + AllocGlobal),
    greatest: F,
    wrapped: F,
) -> Result<(), Fail> {
    let x = <F as QuotientMap<i128>>::from_int(-1);
    let written = is_written(rt.alloc(), x, "18446744069414584320")?;
    assert!(rt; written);
    assert!(rt; greatest.to_unique_u64() == 4294967294);
    assert!(rt; greatest == wrapped);
    assert!(rt; F::default() < F::one());
    assert!(rt; hash_of(&greatest) == hash_of(&wrapped));
    assert!(rt; F::from_u64(7).exp_u64(9223372034707292160) == F::neg_one());
    Ok(())
}

#[test]
fn residues_of_goldilocks(rt: HostRuntime) -> Result<(), Fail> {
    let wrapped = Goldilocks::from_canonical_unchecked(4294967294u64);
    assert_goldilocks(&rt, Goldilocks::new(u64::MAX), wrapped)
}
