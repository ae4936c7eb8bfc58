//! Dot products of many packings and of many values, and operations on packings of each number of lanes, against plain
//! arithmetic.
use crate::cases::Arithmetic;
use crate::number_rules::{Rule, plain_at, plain_dot};
use crate::orders::Short17;
use p3_packed_prime_fields::packed::Packed;
use p3_prime_fields::baby_bear::BabyBearModulus;
use p3_prime_fields::form::{Form, Plain, Word};
use p3_prime_fields::fp::Fp;
use p3_prime_fields::goldilocks::GoldilocksForm;
use p3_prime_fields::koala_bear::KoalaBearModulus;
use p3_prime_fields::montgomery::Montgomery;
use p3_prime_fields::small::M17;
use p3_ring::ring::{PrimeCharacteristicRing, RingSums};
use std::alloc::{AllocError, Global};
use std::test::Fail;
use test_values::numbered::{Numbered, value, values};

/// An order, and two lists of numbers below it by their rules.
#[derive(Clone, Copy)]
pub(crate) struct Lists {
    order: u64,
    left: Rule,
    right: Rule,
}

/// The order of BabyBear.
const BABY_BEAR: u64 = 2013265921;

/// The order of KoalaBear.
const KOALA_BEAR: u64 = 2130706433;

/// The order of Goldilocks.
const GOLDILOCKS: u64 = 0xffff_ffff_0000_0001;

/// Lists modulo 17: of the greatest numbers, and of multiples.
static MODULO_17: [Lists; 2] = [
    Lists {
        order: 17,
        left: Rule::Same(16),
        right: Rule::Same(16),
    },
    Lists {
        order: 17,
        left: Rule::Multiples(5),
        right: Rule::Multiples(11),
    },
];

/// Lists of BabyBear: of the greatest numbers, of the number whose word is the greatest, and of multiples.
static OF_BABY_BEAR: [Lists; 3] = [
    Lists {
        order: BABY_BEAR,
        left: Rule::Same(2013265920),
        right: Rule::Same(2013265920),
    },
    Lists {
        order: BABY_BEAR,
        left: Rule::Same(1069547521),
        right: Rule::Same(1069547521),
    },
    Lists {
        order: BABY_BEAR,
        left: Rule::Multiples(1234567891),
        right: Rule::Multiples(987654321),
    },
];

/// Lists of KoalaBear: of the greatest numbers, of the number whose word is the greatest in Montgomery's form, and of
/// multiples.
pub(crate) static OF_KOALA_BEAR: [Lists; 3] = [
    Lists {
        order: KOALA_BEAR,
        left: Rule::Same(2130706432),
        right: Rule::Same(2130706432),
    },
    Lists {
        order: KOALA_BEAR,
        left: Rule::Same(1073676289),
        right: Rule::Same(1073676289),
    },
    Lists {
        order: KOALA_BEAR,
        left: Rule::Multiples(1234567891),
        right: Rule::Multiples(987654321),
    },
];

/// Lists of Goldilocks: of the greatest numbers, and of multiples.
static OF_GOLDILOCKS: [Lists; 2] = [
    Lists {
        order: GOLDILOCKS,
        left: Rule::Same(0xffff_ffff_0000_0000),
        right: Rule::Same(0xffff_ffff_0000_0000),
    },
    Lists {
        order: GOLDILOCKS,
        left: Rule::Multiples(0x9e37_79b9_7f4a_7c15),
        right: Rule::Multiples(0xc2b2_ae3d_27d4_eb4f),
    },
];

/// Whether each number of a value is the plain sum of products in its lane.
fn is_plain_dot<R: Numbered>(sum: &R, left: &[u64], right: &[u64], order: u64) -> bool {
    let lanes = R::count();
    for lane in 0..lanes {
        if sum.number(lane) as u128 != plain_dot(left, right, lane, lanes, order) {
            return false;
        }
    }
    true
}

/// Whether the dot product of so many values is the plain sum of products, lane by lane.
fn dot_agrees<R: PrimeCharacteristicRing + Numbered>(
    alloc: Global,
    lists: Lists,
    count: usize,
) -> Result<bool, AllocError> {
    let total = count.wrapping_mul(R::count());
    let left = lists.left.numbers(alloc, total, lists.order)?;
    let right = lists.right.numbers(alloc, total, lists.order)?;
    let xs = values::<R>(alloc, &left)?;
    let ys = values::<R>(alloc, &right)?;
    if xs.len() != ys.len() {
        return Ok(false);
    }
    let sum = R::dot_product(&xs, &ys);
    Ok(xs.len() == count && is_plain_dot(&sum, &left, &right, lists.order))
}

/// Whether the sum of so many values is the plain sum.
fn sum_agrees<R: RingSums + Numbered>(
    alloc: Global,
    lists: Lists,
    count: usize,
) -> Result<bool, AllocError> {
    let numbers = lists.left.numbers(alloc, count, lists.order)?;
    let ones = Rule::Same(1).numbers(alloc, count, lists.order)?;
    let xs = values::<R>(alloc, &numbers)?;
    let sum = R::sum_slice(&xs);
    Ok(xs.len() == count && is_plain_dot(&sum, &numbers, &ones, lists.order))
}

/// Whether each number of a value is what an operation makes of two lists at its index.
fn is_plain<R: Numbered>(
    found: &R,
    operation: Arithmetic,
    left: &[u64],
    right: &[u64],
    order: u64,
) -> bool {
    for lane in 0..R::count() {
        if found.number(lane) as u128 != plain_at(operation, left, right, lane, order) {
            return false;
        }
    }
    true
}

/// Whether the sum, the difference and the product of two values are the plain ones, lane by lane.
fn operations_agree<R: PrimeCharacteristicRing + Numbered>(
    alloc: Global,
    lists: Lists,
) -> Result<bool, AllocError> {
    let order = lists.order;
    let left = lists.left.numbers(alloc, R::count(), order)?;
    let right = lists.right.numbers(alloc, R::count(), order)?;
    let x = value::<R>(&left);
    let y = value::<R>(&right);
    let (sum, difference, product) = (x + y, x - y, x * y);
    Ok(
        is_plain(&sum, Arithmetic::Add, &left, &right, order)
            && is_plain(&difference, Arithmetic::Sub, &left, &right, order)
            && is_plain(&product, Arithmetic::Mul, &left, &right, order),
    )
}

/// What is compared.
#[derive(Clone, Copy)]
enum Compared {
    Operations,
    /// A dot product of so many packings.
    Dot(usize),
}

/// Operations, and dot products of numbers of packings about those at which these go by blocks of four and at which
/// all products are summed up before they are reduced.
static COMPARED: [Compared; 10] = [
    Compared::Operations,
    Compared::Dot(0),
    Compared::Dot(1),
    Compared::Dot(4),
    Compared::Dot(31),
    Compared::Dot(32),
    Compared::Dot(33),
    Compared::Dot(34),
    Compared::Dot(35),
    Compared::Dot(64),
];

/// Three packings more than a strip.
const STRIP: Compared = Compared::Dot(65539);

/// Whether what is compared agrees at packings of N lanes. Nothing is read of `_packing`.
fn packings_agree<W: Form<T>, T: Word, const N: usize>(
    alloc: Global,
    _packing: Option<Packed<Fp<W, T>, N>>,
    compared: Compared,
    lists: Lists,
) -> Result<bool, AllocError> {
    match compared {
        Compared::Operations => operations_agree::<Packed<Fp<W, T>, N>>(alloc, lists),
        Compared::Dot(count) => dot_agrees::<Packed<Fp<W, T>, N>>(alloc, lists, count),
    }
}

/// Whether it does at packings of so many lanes of words of 32 bits; false where these aren't among the numbers of
/// lanes that are tested: 15 are a block of eight, one of four and a rest.
fn lanes_agree<W: Form<u32>>(
    alloc: Global,
    lanes: usize,
    compared: Compared,
    lists: Lists,
) -> Result<bool, AllocError> {
    match lanes {
        1 => packings_agree::<W, u32, 1>(alloc, None, compared, lists),
        2 => packings_agree::<W, u32, 2>(alloc, None, compared, lists),
        3 => packings_agree::<W, u32, 3>(alloc, None, compared, lists),
        4 => packings_agree::<W, u32, 4>(alloc, None, compared, lists),
        8 => packings_agree::<W, u32, 8>(alloc, None, compared, lists),
        15 => packings_agree::<W, u32, 15>(alloc, None, compared, lists),
        16 => packings_agree::<W, u32, 16>(alloc, None, compared, lists),
        _ => Ok(false),
    }
}

/// The numbers of lanes of the packings.
static LANES: [usize; 7] = [1, 2, 3, 4, 8, 15, 16];

/// Whether operations and dot products agree at packings of so many lanes.
fn each_agrees<W: Form<u32>>(
    alloc: Global,
    lanes: usize,
    lists: Lists,
) -> Result<bool, AllocError> {
    for compared in COMPARED {
        if !lanes_agree::<W>(alloc, lanes, compared, lists)? {
            return Ok(false);
        }
    }
    Ok(true)
}

/// Whether they do at each number of lanes.
pub(crate) fn all_agree<W: Form<u32>>(alloc: Global, lists: Lists) -> Result<bool, AllocError> {
    for lanes in LANES {
        if !each_agrees::<W>(alloc, lanes, lists)? {
            return Ok(false);
        }
    }
    Ok(true)
}

/// Whether the dot product and the sum of so many values agree. Nothing is read of `_value`.
fn values_agree<W: Form<T>, T: Word>(
    alloc: Global,
    _value: Option<Fp<W, T>>,
    lists: Lists,
    count: usize,
) -> Result<bool, AllocError> {
    Ok(dot_agrees::<Fp<W, T>>(alloc, lists, count)? && sum_agrees::<Fp<W, T>>(alloc, lists, count)?)
}

/// Numbers of values about those at which a dot product goes by blocks of sixteen.
pub(crate) static VALUES: [usize; 11] = [0, 4, 5, 8, 9, 47, 48, 49, 63, 64, 1000];

/// Numbers of values, one more than the strips of dot products modulo small orders and of sums.
static STRIPS: [usize; 2] = [65537, 131073];

/// Whether the dot products and the sums of values agree, of each number of them. Nothing is read of `_value`.
fn all_values_agree<W: Form<T>, T: Word>(
    alloc: Global,
    _value: Option<Fp<W, T>>,
    counts: &[usize],
    lists: Lists,
) -> Result<bool, AllocError> {
    for count in counts {
        if !values_agree::<W, T>(alloc, None, lists, *count)? {
            return Ok(false);
        }
    }
    Ok(true)
}

/// Whether they do over words of 32 bits.
pub(crate) fn short_values_agree<W: Form<u32>>(
    alloc: Global,
    counts: &[usize],
    lists: Lists,
) -> Result<bool, AllocError> {
    all_values_agree::<W, u32>(alloc, None, counts, lists)
}

#[test]
fn packings_modulo_17(rt: HostRuntime) -> Result<(), Fail> {
    for lists in MODULO_17 {
        assert!(rt; all_agree::<Plain<M17>>(rt.alloc(), lists)?);
        assert!(rt; all_agree::<Montgomery<Short17>>(rt.alloc(), lists)?);
    }
    Ok(())
}

#[test]
fn packings_of_baby_bear(rt: HostRuntime) -> Result<(), Fail> {
    for lists in OF_BABY_BEAR {
        assert!(rt; all_agree::<Montgomery<BabyBearModulus>>(rt.alloc(), lists)?);
    }
    Ok(())
}

#[test]
fn packings_of_koala_bear(rt: HostRuntime) -> Result<(), Fail> {
    for lists in OF_KOALA_BEAR {
        assert!(rt; all_agree::<Montgomery<KoalaBearModulus>>(rt.alloc(), lists)?);
    }
    Ok(())
}

#[test]
fn packings_of_goldilocks(rt: HostRuntime) -> Result<(), Fail> {
    for lists in OF_GOLDILOCKS {
        for compared in COMPARED {
            assert!(rt;
                packings_agree::<GoldilocksForm, u64, 2>(rt.alloc(), None, compared, lists)?
            );
            assert!(rt;
                packings_agree::<GoldilocksForm, u64, 4>(rt.alloc(), None, compared, lists)?
            );
        }
    }
    Ok(())
}

#[test]
fn strips_of_packings(rt: HostRuntime) -> Result<(), Fail> {
    for lists in MODULO_17 {
        assert!(rt; lanes_agree::<Plain<M17>>(rt.alloc(), 4, STRIP, lists)?);
    }
    Ok(())
}

#[test]
fn strips_in_montgomery_form(rt: HostRuntime) -> Result<(), Fail> {
    for lists in MODULO_17 {
        assert!(rt; lanes_agree::<Montgomery<Short17>>(rt.alloc(), 4, STRIP, lists)?);
    }
    Ok(())
}

#[test]
fn strips_of_baby_bear(rt: HostRuntime) -> Result<(), Fail> {
    for lists in OF_BABY_BEAR {
        assert!(rt; lanes_agree::<Montgomery<BabyBearModulus>>(rt.alloc(), 4, STRIP, lists)?);
    }
    Ok(())
}

#[test]
fn many_values(rt: HostRuntime) -> Result<(), Fail> {
    for lists in MODULO_17 {
        assert!(rt; short_values_agree::<Plain<M17>>(rt.alloc(), &VALUES, lists)?);
        assert!(rt; short_values_agree::<Montgomery<Short17>>(rt.alloc(), &VALUES, lists)?);
    }
    for lists in OF_BABY_BEAR {
        assert!(rt; short_values_agree::<Montgomery<BabyBearModulus>>(rt.alloc(), &VALUES, lists)?);
    }
    for lists in OF_KOALA_BEAR {
        assert!(rt;
            short_values_agree::<Montgomery<KoalaBearModulus>>(rt.alloc(), &VALUES, lists)?
        );
    }
    for lists in OF_GOLDILOCKS {
        assert!(rt; all_values_agree::<GoldilocksForm, u64>(rt.alloc(), None, &VALUES, lists)?);
    }
    Ok(())
}

#[test]
fn strips_of_values(rt: HostRuntime) -> Result<(), Fail> {
    for lists in MODULO_17 {
        assert!(rt; short_values_agree::<Plain<M17>>(rt.alloc(), &STRIPS, lists)?);
    }
    Ok(())
}

#[test]
fn strips_of_greater_values(rt: HostRuntime) -> Result<(), Fail> {
    for lists in OF_BABY_BEAR {
        assert!(rt; short_values_agree::<Montgomery<BabyBearModulus>>(rt.alloc(), &STRIPS, lists)?);
    }
    Ok(())
}

#[test]
fn other_sums_are_refused(rt: HostRuntime) {
    let left = [16, 3, 5];
    let right = [2, 16, 7];
    let sum = value::<Fp<Plain<M17>>>(&[13]);
    assert!(rt; is_plain_dot(&sum, &left, &right, 17));
    assert!(rt; !is_plain_dot(&sum, &left, &[2, 16, 8], 17));
    assert!(rt; is_plain(&sum, Arithmetic::Mul, &[16], &[4], 17));
    assert!(rt; !is_plain(&sum, Arithmetic::Add, &[16], &[4], 17));
}
