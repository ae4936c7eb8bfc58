//! Limbs packed into one value, a value split into limbs, and how many can be packed.
ghost use Rattle.std.specs.Prelude.{◌≡◌, ◌↔◌, IsTrue};
ghost use Rattle.p3_c_calls.specs.LimbCalls.{IsDigitRadix, AnswersPacked, WritesDigits, AnswersLimit};

use p3_c_words::blocks::{values_of, write};
use p3_c_words::refusal::Refusal;
use p3_c_words::stored::Stored;
use p3_field_traits::field::{PrimeField, PrimeField32};
use p3_helpers::limits::max_packed_injective_limbs;
use p3_helpers::packing::reduce_packed;
use p3_helpers::splits::split_pf_to_packed_limbs;
use std::alloc::Global;

/// The value of TF for the number whose digits in radix `2^radix_bits`, the lowest first, are the limbs.
#[inline]
pub fn pack<SF: Stored<T> + PrimeField32, T: Copy, TF: Stored<U> + PrimeField, U: Copy>(
    alloc: Global,
    limbs: &[T],
    radix_bits: u32,
) -> Result<U, Refusal>
    ensures { AnswersPacked SF.words SF.canon TF.words TF.canon TF.order limbs.now radix_bits result }
{
    if radix_bits == 0 || radix_bits >= 64 {
        return Err(Refusal::Radix);
    }
    if !SF::all_stand(limbs) {
        return Err(Refusal::Word);
    }
    let Ok(values) = values_of::<SF, T>(alloc, limbs) else {
        return Err(Refusal::Memory);
    };
    let packed: TF = reduce_packed(&values, radix_bits);
    Ok(packed.to_word())
}

/// Whether a radix of so many bits is at least two, and not above the order.
#[inline]
fn is_digit_radix<F: PrimeField32>(radix_bits: u32) -> bool
    ensures { IsTrue result ↔ IsDigitRadix F.order radix_bits }
{
    radix_bits > 0 && radix_bits < 64 && 1u64 << radix_bits <= F::ORDER_U32 as u64
}

/// Writes the lowest digits of the value in radix `2^radix_bits`, the lowest first, as many as there are limbs.
#[inline]
pub fn split<TF: Stored<T> + PrimeField32, T: Copy, SF: Stored<U> + PrimeField, U: Copy>(
    alloc: Global,
    value: U,
    radix_bits: u32,
    limbs: &mut [T],
) -> Result<(), Refusal>
    ensures { WritesDigits TF.words TF.canon TF.order SF.words SF.canon value radix_bits limbs.old limbs.new result }
{
    if !is_digit_radix::<TF>(radix_bits) {
        return Err(Refusal::Radix);
    }
    if !SF::stands(value) {
        return Err(Refusal::Word);
    }
    let whole = SF::of_word(value);
    let Ok(digits) = split_pf_to_packed_limbs::<SF, TF>(alloc, whole, limbs.len(), radix_bits)
    else {
        return Err(Refusal::Memory);
    };
    write(&digits, limbs);
    Ok(())
}

/// How many limbs can be packed into one value at most, so that lists of one length stay apart where the radix is
/// not below the order.
#[inline]
pub fn most_digits<SF: PrimeField32, TF: PrimeField>(radix_bits: u32) -> Result<usize, Refusal>
    ensures { AnswersLimit SF.canon SF.order TF.order radix_bits result }
{
    if radix_bits == 0 || radix_bits >= 64 {
        return Err(Refusal::Radix);
    }
    Ok(max_packed_injective_limbs::<SF, TF>(radix_bits))
}
