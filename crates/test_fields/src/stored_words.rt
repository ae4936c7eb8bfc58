//! Worked values of the words that stand for residues, plain or in Montgomery's form.

use crate::residues::{Topic, assert_over};
use p3_prime_fields::baby_bear::{BabyBear, BabyBearModulus};
use p3_prime_fields::form::Plain;
use p3_prime_fields::koala_bear::{KoalaBear, KoalaBearModulus};
use p3_prime_fields::montgomery::Montgomery;
use p3_prime_fields::small::{F17, M17};
use std::test::Fail;

/// Canonical values of BabyBear, and the words that are stored for them.
static WORDS: [(u32, u32); 6] = [
    (0, 0),
    (1, 268435454),
    (2, 536870908),
    (491055816, 563026996),
    (602005842, 1936946344),
    (2013265920, 1744830467),
];

/// Canonical values of KoalaBear, and the words that are stored for them.
static KOALA_BEAR_WORDS: [(u32, u32); 4] = [
    (0, 0),
    (1, 33554430),
    (123456789, 606780237),
    (2130706432, 2097152003),
];

#[test]
fn words_of_values(rt: HostRuntime) -> Result<(), Fail> {
    assert_over::<Plain<M17>>(&rt, Topic::Word(3, 3), &[F17::new(20)])?;
    for row in &WORDS {
        let (canonical, word) = *row;
        let residue = [BabyBear::new(canonical)];
        assert_over::<Montgomery<BabyBearModulus>>(&rt, Topic::Word(word, canonical), &residue)?;
    }
    for row in &KOALA_BEAR_WORDS {
        let (canonical, word) = *row;
        let residue = [KoalaBear::new(canonical)];
        assert_over::<Montgomery<KoalaBearModulus>>(&rt, Topic::Word(word, canonical), &residue)?;
    }
    Ok(())
}
