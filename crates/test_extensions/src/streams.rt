//! The bytes of extension values. The functions that choose the extension are generic over the marker of a field:
//! a test then passes the field's order alone.

use crate::stream_tables as tables;
use crate::values::Listed;
use p3_extension::extension::{
    Binomial, ByteCountFits, CubicTrinomial, ExtField, QuinticTrinomial, SepticTrinomial,
};
use p3_extension_traits::streams::{ByteStream, RawDataSerializable};
use p3_prime_fields::baby_bear::BabyBearModulus;
use p3_prime_fields::form::{Plain, ShortForm};
use p3_prime_fields::fp::Fp;
use p3_prime_fields::montgomery::Montgomery;
use p3_prime_fields::small::{M2, M15, M17, M17b, M31};
use std::alloc::{AllocError, Global};
use std::array::IntoIter;
use std::process::Abort;
use std::test::Fail;
use test_values::canonical::Canonical;
use test_values::lists::{List, list_of_text};

/// Whether words are those that a text tells, with commas between them.
fn are_words(words: &[u64], text: &str) -> bool {
    let mut count: usize = 0;
    for word in text.split(',') {
        match (words.get(count), word.parse::<u64>()) {
            (Some(found), Ok(expected)) if *found == expected => {}
            _ => return false,
        }
        count = count.wrapping_add(1);
    }
    words.len() == count
}

/// Whether a line like `13,0;13` has values and the words of their bytes, one value after the other.
fn words_agree<T: RawDataSerializable + Listed>(
    alloc: Global,
    line: &str,
) -> Result<bool, AllocError> {
    let Some((lists, words)) = line.split_once(';') else {
        return Ok(false);
    };
    let mut values: Vec<T> = Vec::new(alloc);
    for word in lists.split_ascii_whitespace() {
        match list_of_text(word) {
            Some(list) => values.push(T::of_list(&list))?,
            None => return Ok(false),
        }
    }
    let stream: Vec<u64> = T::into_u64_stream(values.iter().copied()).collect(alloc)?;
    Ok(are_words(&stream, words))
}

/// `words_agree` of values of the extension of F of degree D by the shape S: a call at a base passes how it counts
/// bytes alone. Nothing is read of `_rooms`, which tells that values and their bytes have room.
fn extension_words_agree<F: ByteCountFits<D> + Canonical, S: Copy, const D: usize>(
    alloc: Global,
    _rooms: Option<(ExtField<F, D, S, F>, ByteStream<IntoIter<F, D>, F::Bytes>)>,
    line: &str,
) -> Result<bool, AllocError> {
    words_agree::<ExtField<F, D, S, F>>(alloc, line)
}

/// The extensions by their polynomials.
#[derive(Clone, Copy)]
enum Shape {
    /// `X^2 = W`.
    Quadratic,
    /// `X^3 = W`.
    Cubic,
    /// `X^4 = W`.
    Quartic,
    /// `X^5 = W`.
    Quintic,
    /// `X^6 = W`.
    Sextic,
    /// `X^8 = W`.
    Octic,
    CubicTrinomial,
    QuinticTrinomial,
    SepticTrinomial,
}

/// The fields.
#[derive(Clone, Copy)]
enum Base {
    F2,
    F17,
    F17b,
    F31,
    Z15,
    BabyBear,
}

/// `extension_words_agree` over the field of a marker.
fn shape_words_agree<W: ShortForm>(
    alloc: Global,
    shape: Shape,
    line: &str,
) -> Result<bool, AllocError> {
    match shape {
        Shape::Quadratic => extension_words_agree::<Fp<W>, Binomial<Fp<W>>, 2>(alloc, None, line),
        Shape::Cubic => extension_words_agree::<Fp<W>, Binomial<Fp<W>>, 3>(alloc, None, line),
        Shape::Quartic => extension_words_agree::<Fp<W>, Binomial<Fp<W>>, 4>(alloc, None, line),
        Shape::Quintic => extension_words_agree::<Fp<W>, Binomial<Fp<W>>, 5>(alloc, None, line),
        Shape::Sextic => extension_words_agree::<Fp<W>, Binomial<Fp<W>>, 6>(alloc, None, line),
        Shape::Octic => extension_words_agree::<Fp<W>, Binomial<Fp<W>>, 8>(alloc, None, line),
        Shape::CubicTrinomial => {
            extension_words_agree::<Fp<W>, CubicTrinomial, 3>(alloc, None, line)
        }
        Shape::QuinticTrinomial => {
            extension_words_agree::<Fp<W>, QuinticTrinomial, 5>(alloc, None, line)
        }
        Shape::SepticTrinomial => {
            extension_words_agree::<Fp<W>, SepticTrinomial, 7>(alloc, None, line)
        }
    }
}

/// The same over a field that has a name.
fn base_words_agree(
    alloc: Global,
    base: Base,
    shape: Shape,
    line: &str,
) -> Result<bool, AllocError> {
    match base {
        Base::F2 => shape_words_agree::<Plain<M2>>(alloc, shape, line),
        Base::F17 => shape_words_agree::<Plain<M17>>(alloc, shape, line),
        Base::F17b => shape_words_agree::<Plain<M17b>>(alloc, shape, line),
        Base::F31 => shape_words_agree::<Plain<M31>>(alloc, shape, line),
        Base::Z15 => shape_words_agree::<Plain<M15>>(alloc, shape, line),
        Base::BabyBear => shape_words_agree::<Montgomery<BabyBearModulus>>(alloc, shape, line),
    }
}

/// Asserts that each line has values and the words of their bytes.
fn assert_words(
    rt: &(impl Abort + AllocGlobal),
    base: Base,
    shape: Shape,
    table: &str,
) -> Result<(), Fail> {
    for line in table.lines() {
        assert!(rt; base_words_agree(rt.alloc(), base, shape, line)?, "{line}");
    }
    Ok(())
}

/// Whether the bytes of a value are these.
fn are_bytes<T: RawDataSerializable + Listed>(
    alloc: Global,
    list: &List,
    bytes: &[u8],
) -> Result<bool, AllocError> {
    let answer: Vec<u8> = T::of_list(list).into_bytes().collect(alloc)?;
    Ok(answer.as_slice() == bytes && T::NUM_BYTES == bytes.len())
}

/// The same of a value of the extension of F of degree D by the shape S. Nothing is read of `_rooms`.
fn extension_bytes_agree<F: ByteCountFits<D> + Canonical, S: Copy, const D: usize>(
    alloc: Global,
    _rooms: Option<(ExtField<F, D, S, F>, ByteStream<IntoIter<F, D>, F::Bytes>)>,
    list: &List,
    bytes: &[u8],
) -> Result<bool, AllocError> {
    are_bytes::<ExtField<F, D, S, F>>(alloc, list, bytes)
}

/// The same of a value of the extension by `X^7 = X + 1` over the field of a marker.
fn septic_bytes_agree<W: ShortForm>(
    alloc: Global,
    list: &List,
    bytes: &[u8],
) -> Result<bool, AllocError> {
    extension_bytes_agree::<Fp<W>, SepticTrinomial, 7>(alloc, None, list, bytes)
}

#[test]
fn words_modulo_17(rt: HostRuntime) -> Result<(), Fail> {
    assert_words(&rt, Base::F17, Shape::Quadratic, tables::F17X2)?;
    assert_words(&rt, Base::F17, Shape::Quartic, tables::F17X4)?;
    assert_words(&rt, Base::F17, Shape::Octic, tables::F17X8)?;
    assert_words(&rt, Base::F17b, Shape::Quadratic, tables::F17BX2)?;
    assert_words(&rt, Base::F17, Shape::QuinticTrinomial, tables::F17T5)
}

#[test]
fn words_modulo_31(rt: HostRuntime) -> Result<(), Fail> {
    assert_words(&rt, Base::F31, Shape::Cubic, tables::F31X3)?;
    assert_words(&rt, Base::F31, Shape::Quintic, tables::F31X5)?;
    assert_words(&rt, Base::F31, Shape::Sextic, tables::F31X6)?;
    assert_words(&rt, Base::F31, Shape::Quadratic, tables::F31C)?;
    assert_words(&rt, Base::F31, Shape::CubicTrinomial, tables::F31T3)
}

#[test]
fn words_modulo_other_orders(rt: HostRuntime) -> Result<(), Fail> {
    assert_words(&rt, Base::F2, Shape::QuinticTrinomial, tables::F2T5)?;
    assert_words(&rt, Base::F2, Shape::SepticTrinomial, tables::F2T7)?;
    assert_words(&rt, Base::Z15, Shape::Quadratic, tables::Z15X2)?;
    assert_words(&rt, Base::BabyBear, Shape::Quartic, tables::BBX4)
}

#[test]
fn septic_bytes(rt: HostRuntime) -> Result<(), Fail> {
    let expected = [
        1u8, 0, 0, 0, 0, 0, 0, 0, 0, 0, 0, 0, 1, 0, 0, 0, 1, 0, 0, 0, 1, 0, 0, 0, 0, 0, 0, 0,
    ];
    let list = [1, 0, 0, 1, 1, 1, 0, 0];
    let agrees = septic_bytes_agree::<Plain<M2>>(rt.alloc(), &list, &expected)?;
    assert!(rt; agrees);
    Ok(())
}
