//! Calls on limbs told by lines of three texts: the call, its arguments and its answer. Arguments stand between
//! bars, values of a list between commas.
mod calls;
mod tables;

ghost use Rattle.std.specs.Prelude.{◌≤◌, ◌^◌};

use calls::{Call, Count, Reduction, Row, Split};
use p3_field_traits::field::{PrimeField, PrimeField32};
use p3_helpers::limits::{
    absorb_radix_bits, injective_pack_bits, max_absorb_injective_limbs, max_packed_injective_limbs,
    max_shifted_absorb_injective_limbs, max_shifted_packed_injective_limbs,
    pf_packed_limbs_cover_order, squeeze_field_order_num_limbs,
};
use p3_helpers::packing::{reduce_32, reduce_packed, reduce_packed_shifted};
use p3_helpers::splits::{split_32, split_pf_to_field_order_limbs, split_pf_to_packed_limbs};
use p3_prime_fields::baby_bear::BabyBearModulus;
use p3_prime_fields::form::{Form, Plain, ShortForm, Word};
use p3_prime_fields::fp::Fp;
use p3_prime_fields::goldilocks::GoldilocksForm;
use p3_prime_fields::koala_bear::KoalaBearModulus;
use p3_prime_fields::montgomery::Montgomery;
use p3_prime_fields::small::{M2, M15, M17, M31};
use std::alloc::{AllocError, Global};
use std::process::Abort;
use std::test::Fail;

/// What a limit or a count of bits answers; none where the text is no radix that it takes.
fn counted<F: PrimeField32, PF: PrimeField>(count: Count, radix: &str) -> Option<usize> {
    match count {
        Count::AbsorbRadixBits => Some(absorb_radix_bits::<F>() as usize),
        Count::InjectivePackBits => Some(injective_pack_bits::<F>() as usize),
        Count::MaxAbsorb => Some(max_absorb_injective_limbs::<F, PF>()),
        Count::MaxShiftedAbsorb => Some(max_shifted_absorb_injective_limbs::<F, PF>()),
        Count::SqueezeFieldOrder => Some(squeeze_field_order_num_limbs::<PF, F>()),
        Count::MaxPacked => packed_limit::<F, PF>(false, radix),
        Count::MaxShiftedPacked => packed_limit::<F, PF>(true, radix),
    }
}

/// What a limit of packed limbs answers; none where the text is no radix of one bit to 63.
fn packed_limit<F: PrimeField32, PF: PrimeField>(is_shifted: bool, radix: &str) -> Option<usize> {
    let radix_bits = radix.parse::<u32>().ok()?;
    if radix_bits == 0 || radix_bits >= 64 {
        return None;
    }
    if is_shifted {
        Some(max_shifted_packed_injective_limbs::<F, PF>(radix_bits))
    } else {
        Some(max_packed_injective_limbs::<F, PF>(radix_bits))
    }
}

/// Whether limbs cover an order as the row says.
fn covers<PF: PrimeField>(row: Row<'_>) -> Option<bool> {
    let num_limbs = row.argument(0).parse::<usize>().ok()?;
    let radix_bits = row.argument(1).parse::<u32>().ok()?;
    let covers = pf_packed_limbs_cover_order::<PF>(num_limbs, radix_bits);
    Some(covers == (row.answer == "true"))
}

/// The number that values stand for once they are packed; none where the text is no radix below 64 bits.
fn reduced<F: PrimeField32, PF: PrimeField>(
    reduction: Reduction,
    values: &[F],
    radix: &str,
) -> Option<u128> {
    if let Reduction::Words = reduction {
        let packed: PF = reduce_32(values);
        return Some(packed.as_canonical_biguint());
    }
    let radix_bits = radix.parse::<u32>().ok()?;
    if radix_bits >= 64 {
        return None;
    }
    let packed: PF = match reduction {
        Reduction::Shifted => reduce_packed_shifted(values, radix_bits),
        _ => reduce_packed(values, radix_bits),
    };
    Some(packed.as_canonical_biguint())
}

/// Whether the values of a row, packed, stand for its number.
fn reduction_agrees<F: PrimeField32, PF: PrimeField>(
    alloc: Global,
    reduction: Reduction,
    row: Row<'_>,
) -> Result<Option<bool>, AllocError> {
    let text = match reduction {
        Reduction::Words => row.argument(0),
        _ => row.argument(1),
    };
    let mut values: Vec<F> = Vec::new(alloc);
    for word in text.split_terminator(',') {
        values.push(F::from_u32(word.parse::<u32>().unwrap_or(0)))?;
    }
    Ok(same_number(
        reduced::<F, PF>(reduction, &values, row.argument(0)),
        row.answer,
    ))
}

/// So many limbs of a value; none where the text is asked for and no radix within the small field's order.
fn limbs<F: PrimeField32, PF: PrimeField>(
    alloc: Global,
    split: Split,
    value: PF,
    count: usize,
    radix: &str,
) -> Result<Option<Vec<F>>, AllocError> {
    match split {
        Split::Words => Ok(Some(split_32(alloc, value, count)?)),
        Split::FieldOrder => Ok(Some(split_pf_to_field_order_limbs(alloc, value, count)?)),
        Split::Packed => packed_limbs(alloc, value, count, radix),
    }
}

/// The limbs in a radix; none where the radix passes the small field's order.
fn packed_limbs<F: PrimeField32, PF: PrimeField>(
    alloc: Global,
    value: PF,
    count: usize,
    radix: &str,
) -> Result<Option<Vec<F>>, AllocError> {
    let Ok(radix_bits) = radix.parse::<u32>() else {
        return Ok(None);
    };
    if radix_bits >= 32 || 1u64 << radix_bits > F::ORDER_U32 as u64 {
        return Ok(None);
    }
    Ok(Some(split_pf_to_packed_limbs(alloc, value, count, radix_bits)?))
}

/// Whether the limbs of a row's value are those that it says.
fn split_agrees<F: PrimeField32, PF: PrimeField>(
    alloc: Global,
    split: Split,
    row: Row<'_>,
) -> Result<Option<bool>, AllocError> {
    let Ok(number) = row.argument(0).parse::<u64>() else {
        return Ok(None);
    };
    let Ok(count) = row.argument(1).parse::<usize>() else {
        return Ok(None);
    };
    match limbs::<F, PF>(alloc, split, PF::from_u64(number), count, row.argument(2))? {
        Some(limbs) => Ok(Some(same_limbs(&limbs, row.answer))),
        None => Ok(None),
    }
}

/// Whether the text tells this count; none where it is no number, or there is no count.
fn same_count(count: Option<usize>, text: &str) -> Option<bool> {
    Some(text.parse::<usize>().ok()? == count?)
}

/// Whether the text tells this number; none where it is no number, or there is none.
fn same_number(number: Option<u128>, text: &str) -> Option<bool> {
    Some(text.parse::<u64>().ok()? as u128 == number?)
}

/// The number at an index of a text.
fn number_at(text: &str, index: usize) -> Option<u32> {
    text.split_terminator(',').nth(index)?.parse::<u32>().ok()
}

/// Whether the text lists the numbers of these limbs.
fn same_limbs<F: PrimeField32>(limbs: &[F], text: &str) -> bool {
    for i in 0..limbs.len() {
        if number_at(text, i) != Some(limbs[i].as_canonical_u32()) {
            return false;
        }
    }
    text.split_terminator(',').count() == limbs.len()
}

/// Whether the call of a line over a small field F and a large one PF answers what the line says; `Ok(None)` where the
/// line can't be read, or names no call.
fn answers<F: PrimeField32, PF: PrimeField>(
    alloc: Global,
    line: &str,
) -> Result<Option<bool>, AllocError> {
    let Some(row) = Row::read(line) else {
        return Ok(None);
    };
    match Call::of_name(row.call) {
        Some(Call::Count(count)) => {
            Ok(same_count(counted::<F, PF>(count, row.arguments), row.answer))
        }
        Some(Call::Covers) => Ok(covers::<PF>(row)),
        Some(Call::Reduce(reduction)) => reduction_agrees::<F, PF>(alloc, reduction, row),
        Some(Call::Split(split)) => split_agrees::<F, PF>(alloc, split, row),
        None => Ok(None),
    }
}

/// Asserts that each line is answered so, over the residues of a short form and of any form: a call at markers
/// passes what they ask for alone.
fn assert_lines<W: ShortForm, V: Form<T>, T: Word>(
    rt: &(impl Abort + AllocGlobal),
    table: &str,
) -> Result<(), Fail> {
    for line in table.lines() {
        let holds = answers::<Fp<W>, Fp<V, T>>(rt.alloc(), line)?;
        assert_eq!(rt; holds, Some(true), "{line}");
    }
    Ok(())
}

#[test]
fn limbs_between_fields(rt: HostRuntime) -> Result<(), Fail> {
    assert_lines::<Plain<M17>, Montgomery<BabyBearModulus>, u32>(&rt, tables::F17_INTO_BB)?;
    assert_lines::<Plain<M2>, Plain<M17>, u32>(&rt, tables::F2_INTO_F17)?;
    assert_lines::<Montgomery<KoalaBearModulus>, Montgomery<BabyBearModulus>, u32>(
        &rt,
        tables::KB_INTO_BB,
    )?;
    assert_lines::<Montgomery<BabyBearModulus>, GoldilocksForm, u64>(&rt, tables::BB_INTO_GL)?;
    assert_lines::<Plain<M17>, GoldilocksForm, u64>(&rt, tables::F17_INTO_GL)?;
    assert_lines::<Plain<M2>, GoldilocksForm, u64>(&rt, tables::F2_INTO_GL)?;
    assert_lines::<Plain<M2>, Plain<M2>, u32>(&rt, tables::F2_INTO_F2)?;
    assert_lines::<Plain<M17>, Plain<M2>, u32>(&rt, tables::F17_INTO_F2)?;
    assert_lines::<Plain<M17>, Plain<M17>, u32>(&rt, tables::F17_INTO_F17)?;
    assert_lines::<Plain<M31>, Montgomery<KoalaBearModulus>, u32>(&rt, tables::F31_INTO_KB)?;
    assert_lines::<Plain<M15>, Montgomery<BabyBearModulus>, u32>(&rt, tables::Z15_INTO_BB)?;
    assert_lines::<Montgomery<KoalaBearModulus>, GoldilocksForm, u64>(&rt, tables::KB_INTO_GL)?;
    assert_lines::<Montgomery<BabyBearModulus>, Montgomery<KoalaBearModulus>, u32>(
        &rt,
        tables::BB_INTO_KB,
    )?;
    assert_lines::<Montgomery<BabyBearModulus>, Plain<M17>, u32>(&rt, tables::BB_INTO_F17)
}
