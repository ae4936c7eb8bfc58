//! One value of a large prime field as a list of digits, each a value of a small prime field.

ghost use Rattle.std.specs.Prelude.{◌≡◌, ◌≤◌, ◌*◌, ◌%◌, ◌^◌, IfOk, IsOk, map};
ghost use Rattle.p3_theory.specs.Rings.Multiples.{of_nat};
ghost use Rattle.p3_theory.specs.Rings.Powers.{eval};
ghost use Rattle.p3_helpers.specs.Digits.{digits};

use p3_field_traits::field::{PrimeField, PrimeField32};
use std::alloc::{AllocError, Allocator, Global};

/// The lowest `num_limbs` digits of the canonical value in radix `2^radix_bits`, the lowest first,
/// as values of TF, whose order is at least the radix; a digit that the value doesn't have is zero.
/// Where so many digits hold every value of the source field, they give the value back: it is the
/// value at `2^radix_bits` of the polynomial whose coefficients are the digits, all of them taken
/// into the source field as one so many times, which is what `from_int` answers. `Err` where the
/// memory is refused. Upstream's `split_pf_to_packed_limbs`.
#[inline]
pub fn split_pf_to_packed_limbs<SF: PrimeField, TF: PrimeField32>(
    alloc: Global,
    val: SF,
    num_limbs: usize,
    radix_bits: u32,
) -> Result<Vec<TF>, AllocError>
    requires injective { 2 ^ radix_bits ≤ TF.order }
    ensures digits { IfOk result (λ limbs. map TF.canon limbs.items ≡ digits (SF.canon val) (2 ^ radix_bits) num_limbs) }
    ensures whole { SF.order ≤ 2 ^ (num_limbs * radix_bits) → IfOk result (λ limbs. eval SF.ops SF.ops (λ x. x) (of_nat SF.ops (2 ^ radix_bits)) (map (λ limb. of_nat SF.ops (TF.canon limb)) limbs.items) ≡ val) }
    ensures empty { num_limbs ≡ 0 → IsOk result }
{
    split_pf_to_packed_limbs_in(alloc, val, num_limbs, radix_bits)
}

/// `split_pf_to_packed_limbs` in any allocator. It asks for memory once, and for no limbs not at
/// all. This project's own.
#[inline]
pub fn split_pf_to_packed_limbs_in<SF: PrimeField, TF: PrimeField32, A: Allocator + Copy>(
    alloc: A,
    val: SF,
    num_limbs: usize,
    radix_bits: u32,
) -> Result<Vec<TF, A>, AllocError>
    requires injective { 2 ^ radix_bits ≤ TF.order }
    ensures digits { IfOk result (λ limbs. map TF.canon limbs.items ≡ digits (SF.canon val) (2 ^ radix_bits) num_limbs) }
    ensures whole { SF.order ≤ 2 ^ (num_limbs * radix_bits) → IfOk result (λ limbs. eval SF.ops SF.ops (λ x. x) (of_nat SF.ops (2 ^ radix_bits)) (map (λ limb. of_nat SF.ops (TF.canon limb)) limbs.items) ≡ val) }
    ensures empty { num_limbs ≡ 0 → IsOk result }
{
    radix_digits_in(alloc, val.as_canonical_biguint(), num_limbs, radix_bits)
}

/// The lowest `num_limbs` digits of a number in radix `2^radix_bits`, the lowest first.
#[inline]
fn radix_digits_in<TF: PrimeField32, A: Allocator + Copy>(
    alloc: A,
    value: u128,
    num_limbs: usize,
    radix_bits: u32,
) -> Result<Vec<TF, A>, AllocError>
    requires injective { 2 ^ radix_bits ≤ TF.order }
    ensures digits { IfOk result (λ limbs. map TF.canon limbs.items ≡ digits value (2 ^ radix_bits) num_limbs) }
    ensures empty { num_limbs ≡ 0 → IsOk result }
{
    prove!(radix_bits <= TF::ORDER_U32.ilog2());
    let mask = (1u128 << radix_bits) - 1;
    let mut rem = value;
    let mut limbs = Vec::with_capacity(alloc, num_limbs)?;
    for _ in 0..num_limbs {
        let limb = (rem & mask) as u32;
        limbs.push(TF::from_int(limb))?;
        rem >>= radix_bits;
    }
    Ok(limbs)
}

/// The lowest `num_limbs` digits of the canonical value in the order of TF as the radix, the lowest
/// first, as values of TF; a digit that the value doesn't have is zero. `Err` where the memory is
/// refused. Upstream's `split_pf_to_field_order_limbs`.
#[inline]
pub fn split_pf_to_field_order_limbs<SF: PrimeField, TF: PrimeField32>(
    alloc: Global,
    val: SF,
    num_limbs: usize,
) -> Result<Vec<TF>, AllocError>
    ensures digits { IfOk result (λ limbs. map TF.canon limbs.items ≡ digits (SF.canon val) TF.order num_limbs) }
    ensures empty { num_limbs ≡ 0 → IsOk result }
{
    split_pf_to_field_order_limbs_in(alloc, val, num_limbs)
}

/// `split_pf_to_field_order_limbs` in any allocator. It asks for memory once, and for no limbs not
/// at all. This project's own.
#[inline]
pub fn split_pf_to_field_order_limbs_in<SF: PrimeField, TF: PrimeField32, A: Allocator + Copy>(
    alloc: A,
    val: SF,
    num_limbs: usize,
) -> Result<Vec<TF, A>, AllocError>
    ensures digits { IfOk result (λ limbs. map TF.canon limbs.items ≡ digits (SF.canon val) TF.order num_limbs) }
    ensures empty { num_limbs ≡ 0 → IsOk result }
{
    order_digits_in(alloc, val.as_canonical_biguint(), num_limbs)
}

/// The lowest `num_limbs` digits of a number in the order of TF as the radix, the lowest first.
#[inline]
fn order_digits_in<TF: PrimeField32, A: Allocator + Copy>(
    alloc: A,
    value: u128,
    num_limbs: usize,
) -> Result<Vec<TF, A>, AllocError>
    ensures digits { IfOk result (λ limbs. map TF.canon limbs.items ≡ digits value TF.order num_limbs) }
    ensures empty { num_limbs ≡ 0 → IsOk result }
{
    let p_u32 = TF::ORDER_U32;
    let p = p_u32 as u128;
    let mut rem = value;
    let mut limbs = Vec::with_capacity(alloc, num_limbs)?;
    for _ in 0..num_limbs {
        let limb = (rem % p) as u32;
        limbs.push(TF::from_int(limb))?;
        rem /= p;
    }
    Ok(limbs)
}

/// The lowest `n` digits of the canonical value in radix `2^64`, the lowest first, each as the
/// value of TF for its remainder; a digit that the value doesn't have is zero. `Err` where the
/// memory is refused. Upstream's `split_32`.
#[inline]
pub fn split_32<SF: PrimeField, TF: PrimeField32>(
    alloc: Global,
    val: SF,
    n: usize,
) -> Result<Vec<TF>, AllocError>
    ensures digits { IfOk result (λ limbs. map TF.canon limbs.items ≡ map (λ digit. digit % TF.order) (digits (SF.canon val) (2 ^ 64) n)) }
    ensures empty { n ≡ 0 → IsOk result }
{
    split_32_in(alloc, val, n)
}

/// `split_32` in any allocator. It asks for memory once, and for no digits not at all. This
/// project's own.
#[inline]
pub fn split_32_in<SF: PrimeField, TF: PrimeField32, A: Allocator + Copy>(
    alloc: A,
    val: SF,
    n: usize,
) -> Result<Vec<TF, A>, AllocError>
    ensures digits { IfOk result (λ limbs. map TF.canon limbs.items ≡ map (λ digit. digit % TF.order) (digits (SF.canon val) (2 ^ 64) n)) }
    ensures empty { n ≡ 0 → IsOk result }
{
    word_digits_in(alloc, val.as_canonical_biguint(), n)
}

/// The lowest `n` digits of a number in radix `2^64`, the lowest first, each modulo the order of TF.
#[inline]
fn word_digits_in<TF: PrimeField32, A: Allocator + Copy>(
    alloc: A,
    value: u128,
    n: usize,
) -> Result<Vec<TF, A>, AllocError>
    ensures digits { IfOk result (λ limbs. map TF.canon limbs.items ≡ map (λ digit. digit % TF.order) (digits value (2 ^ 64) n)) }
    ensures empty { n ≡ 0 → IsOk result }
{
    let mask = u64::MAX as u128;
    let mut rem = value;
    let mut limbs = Vec::with_capacity(alloc, n)?;
    for _ in 0..n {
        let digit = (rem & mask) as u64;
        limbs.push(TF::from_int(digit))?;
        rem >>= 64u32;
    }
    Ok(limbs)
}
