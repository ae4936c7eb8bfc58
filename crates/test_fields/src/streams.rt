//! The bytes and words of values, by functions that are generic over what is written.
use crate::stream_tables as tables;
use p3_extension::extension::{Binomial, ByteCountFits, ExtField};
use p3_extension_traits::streams::{ByteStream, RawDataSerializable};
use p3_packing_traits::parallel_streams::into_parallel_u64_streams;
use p3_prime_fields::baby_bear::{BabyBear, BabyBearModulus};
use p3_prime_fields::form::{Plain, ShortForm};
use p3_prime_fields::fp::Fp;
use p3_prime_fields::goldilocks::Goldilocks;
use p3_prime_fields::koala_bear::KoalaBearModulus;
use p3_prime_fields::montgomery::Montgomery;
use p3_prime_fields::small::{F17, M2, M17};
use std::alloc::{AllocError, Global};
use std::array::IntoIter;
use std::process::Abort;
use std::test::Fail;
use test_values::numbered::{Numbered, all_hold, value, values};
use test_values::texts::numbers;

/// A call that writes values.
#[derive(Clone, Copy)]
enum StreamCall {
    OneValue,
    Bytes,
    ShortWords,
    LongWords,
}

/// The call of a name.
fn call_of(name: &str) -> Option<StreamCall> {
    match name {
        "into_bytes" => Some(StreamCall::OneValue),
        "into_byte_stream" => Some(StreamCall::Bytes),
        "into_u32_stream" => Some(StreamCall::ShortWords),
        "into_u64_stream" => Some(StreamCall::LongWords),
        _ => None,
    }
}

/// Whether the bytes or words of values are the answer.
fn stream_agrees<T: RawDataSerializable + Numbered>(
    alloc: Global,
    call: StreamCall,
    arguments: &[u64],
    answer: &[u64],
) -> Result<bool, AllocError> {
    let items = values::<T>(alloc, arguments)?;
    let items = items.iter().copied();
    match call {
        StreamCall::OneValue => {
            let bytes: Vec<u8> = value::<T>(arguments).into_bytes().collect(alloc)?;
            Ok(all_hold(&bytes, answer))
        }
        StreamCall::Bytes => {
            let bytes: Vec<u8> = T::into_byte_stream(items).collect(alloc)?;
            Ok(all_hold(&bytes, answer))
        }
        StreamCall::ShortWords => {
            let words: Vec<u32> = T::into_u32_stream(items).collect(alloc)?;
            Ok(all_hold(&words, answer))
        }
        StreamCall::LongWords => {
            let words: Vec<u64> = T::into_u64_stream(items).collect(alloc)?;
            Ok(all_hold(&words, answer))
        }
    }
}

/// Whether a line has numbers and the bytes, or the words, of their values.
fn agrees<T: RawDataSerializable + Numbered>(
    alloc: Global,
    line: &str,
) -> Result<bool, AllocError> {
    let Some((name, sides)) = line.split_once(';') else {
        return Ok(false);
    };
    let (Some(call), Some((arguments, answer))) = (call_of(name), sides.split_once(';')) else {
        return Ok(false);
    };
    let arguments = numbers(alloc, arguments)?;
    let answer = numbers(alloc, answer)?;
    stream_agrees::<T>(alloc, call, &arguments, &answer)
}

/// Asserts that each line has numbers and the bytes, or the words, of their values.
pub(crate) fn assert_streams<T: RawDataSerializable + Numbered>(
    rt: &(impl Abort + AllocGlobal),
    table: &str,
) -> Result<(), Fail> {
    for line in table.lines() {
        assert!(rt; agrees::<T>(rt.alloc(), line)?, "{line}");
    }
    Ok(())
}

/// `assert_streams` of the residues of a marker in words of 32 bits: a check passes how residues are written once.
fn assert_residues<W: ShortForm>(rt: &(impl Abort + AllocGlobal), table: &str) -> Result<(), Fail> {
    assert_streams::<Fp<W>>(rt, table)
}

/// `assert_streams` of values of the extension of F of degree D by the shape S. Nothing is read of `_rooms`,
/// which tells that values and their bytes have room.
fn assert_values<F: ByteCountFits<D> + Numbered, S: Copy, const D: usize>(
    rt: &(impl Abort + AllocGlobal),
    _rooms: Option<(ExtField<F, D, S, F>, ByteStream<IntoIter<F, D>, F::Bytes>)>,
    table: &str,
) -> Result<(), Fail> {
    assert_streams::<ExtField<F, D, S, F>>(rt, table)
}

#[test]
fn streams_of_residues(rt: HostRuntime) -> Result<(), Fail> {
    assert_residues::<Plain<M2>>(&rt, tables::F2)?;
    assert_residues::<Plain<M17>>(&rt, tables::F17)?;
    assert_residues::<Montgomery<BabyBearModulus>>(&rt, tables::BABY_BEAR)?;
    assert_residues::<Montgomery<KoalaBearModulus>>(&rt, tables::KOALA_BEAR)?;
    assert_streams::<Goldilocks>(&rt, tables::GOLDILOCKS)
}

#[test]
fn streams_of_extension_values(rt: HostRuntime) -> Result<(), Fail> {
    assert_values::<F17, Binomial<F17>, 2>(&rt, None, tables::F17X2)?;
    assert_values::<BabyBear, Binomial<BabyBear>, 4>(&rt, None, tables::BABY_BEAR_X4)
}

#[test]
fn words_side_by_side(rt: HostRuntime) -> Result<(), Fail> {
    let rows = [
        [F17::new(1), F17::new(2)],
        [F17::new(3), F17::new(4)],
        [F17::new(5), F17::new(6)],
    ];
    let words: Vec<[u64; 2]> = into_parallel_u64_streams(rows.iter().copied()).collect(rt.alloc())?;
    assert_eq!(rt; words.len(), 2);
    assert_eq!(rt; words[0], [12884901889, 17179869186]);
    assert_eq!(rt; words[1], [5, 6]);
    Ok(())
}
