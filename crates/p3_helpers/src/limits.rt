//! How many limbs of a field a value of another one takes at most, so that packing stays injective.
ghost use Rattle.std.specs.Prelude.{◌≡◌, ◌<◌, ◌≤◌, ◌+◌, ◌*◌, ◌^◌, ◌-◌, ◌↔◌, IsTrue, ℕ, List, length};
ghost use Rattle.p3_theory.specs.ResidueRings.BitLength.{IsBitLength};
ghost use Rattle.p3_helpers.specs.Digits.{IsLimit, pack, shifted_pack};

use p3_field_traits::field::{Field, PrimeField, PrimeField32};

/// The order of a prime field.
#[inline]
fn order_of<F: PrimeField>() -> u128
    ensures { result ≡ F.order }
{
    match F::order() {
        Some(order) => order,
        None => 0,
    }
}

/// The greatest count of digits, all of them the greatest, that make a number below the order.
fn digits_below(order: u128, radix_bits: u32, greatest: u32) -> usize
    requires digit { 0 < greatest }
    requires radix { 0 < radix_bits }
    requires narrow { radix_bits < 64 }
    requires whole { 0 < order }
    ensures { IsLimit greatest (2 ^ radix_bits) order result }
{
    let base = 1u128 << radix_bits;
    let mut sum: u128 = 0;
    let mut power: u128 = 1;
    for k in 0..128 {
        let Some(more) = (greatest as u128).checked_mul(power) else {
            return k;
        };
        if more >= order - sum {
            return k;
        }
        sum += more;
        let Some(next) = power.checked_mul(base) else {
            return k + 1;
        };
        power = next;
    }
    128
}

/// How many values can be packed into one at most, so that lists of one length stay apart.
/// Upstream's `max_packed_injective_limbs`.
pub fn max_packed_injective_limbs<F: PrimeField32, PF: PrimeField>(radix_bits: u32) -> usize
    requires radix { 0 < radix_bits }
    requires narrow { radix_bits < 64 }
    ensures limit { IsLimit (F.order - 1) (2 ^ radix_bits) PF.order result }
    ensures injective { F.order ≤ 2 ^ radix_bits → (xs ys : List F) → length xs ≡ length ys → length xs ≤ result → pack F.canon xs radix_bits PF.order ≡ pack F.canon ys radix_bits PF.order → xs ≡ ys }
{
    digits_below(order_of::<PF>(), radix_bits, F::ORDER_U32 - 1)
}

/// How many values can be packed into one at most with one added to each digit, so that lists of
/// any lengths stay apart. Upstream's `max_shifted_packed_injective_limbs`.
pub fn max_shifted_packed_injective_limbs<F: PrimeField32, PF: PrimeField>(radix_bits: u32) -> usize
    requires radix { 0 < radix_bits }
    requires narrow { radix_bits < 64 }
    ensures limit { IsLimit F.order (2 ^ radix_bits) PF.order result }
    ensures injective { F.order < 2 ^ radix_bits → (xs ys : List F) → length xs ≤ result → length ys ≤ result → shifted_pack F.canon xs radix_bits PF.order ≡ shifted_pack F.canon ys radix_bits PF.order → xs ≡ ys }
{
    digits_below(order_of::<PF>(), radix_bits, F::ORDER_U32)
}

/// Whether the limbs hold every value of the field: none too many bits for a `usize`. Upstream's
/// `pf_packed_limbs_cover_order`.
pub fn pf_packed_limbs_cover_order<SF: PrimeField>(num_limbs: usize, radix_bits: u32) -> bool
    ensures { IsTrue result ↔ ((num_limbs * radix_bits < 2 ^ 64) × (SF.order ≤ 2 ^ (num_limbs * radix_bits))) }
{
    let order = order_of::<SF>();
    match num_limbs.checked_mul(radix_bits as usize) {
        None => false,
        Some(bits) => if bits < 128 {
            order <= 1u128 << bits
        } else {
            true
        },
    }
}

/// The number of binary digits of the greatest canonical value: so many bits hold every value.
/// Upstream's `absorb_radix_bits`.
#[inline]
pub fn absorb_radix_bits<F: PrimeField32>() -> u32
    ensures length { IsBitLength (F.order - 1) result }
    ensures some { 0 < result }
    ensures few { result ≤ 32 }
{
    u32::BITS - (F::ORDER_U32 - 1).leading_zeros()
}

/// The number of binary digits of the greatest canonical value, less one: every number of so many
/// bits is below the order. Upstream's `injective_pack_bits`.
#[inline]
pub fn injective_pack_bits<F: PrimeField32>() -> u32
    ensures length { IsBitLength (F.order - 1) (result + 1) }
    ensures few { result < 32 }
{
    absorb_radix_bits::<F>() - 1
}

/// How many values of F can be packed into one of PF at most, each in as many bits as the greatest
/// one has, so that lists of one length stay apart. Upstream's `max_absorb_injective_limbs`.
pub fn max_absorb_injective_limbs<F: PrimeField32, PF: PrimeField>() -> usize
    ensures limit { (r : ℕ) → IsBitLength (F.order - 1) r → IsLimit (F.order - 1) (2 ^ r) PF.order result }
    ensures injective { (r : ℕ) → IsBitLength (F.order - 1) r → (xs ys : List F) → length xs ≡ length ys → length xs ≤ result → pack F.canon xs r PF.order ≡ pack F.canon ys r PF.order → xs ≡ ys }
{
    max_packed_injective_limbs::<F, PF>(absorb_radix_bits::<F>())
}

/// How many values of F can be packed into one of PF at most, each in as many bits as the greatest
/// one has and with one added to each digit; lists of any lengths stay apart where the order of F is
/// no power of two. Upstream's `max_shifted_absorb_injective_limbs`.
pub fn max_shifted_absorb_injective_limbs<F: PrimeField32, PF: PrimeField>() -> usize
    ensures limit { (r : ℕ) → IsBitLength (F.order - 1) r → IsLimit F.order (2 ^ r) PF.order result }
    ensures injective { (r : ℕ) → IsBitLength (F.order - 1) r → F.order < 2 ^ r → (xs ys : List F) → length xs ≤ result → length ys ≤ result → shifted_pack F.canon xs r PF.order ≡ shifted_pack F.canon ys r PF.order → xs ≡ ys }
{
    max_shifted_packed_injective_limbs::<F, PF>(absorb_radix_bits::<F>())
}

/// The greatest k with p to the power k + 1 below the order, and 0 where there is none.
fn powers_below(order: u128, p: u32) -> usize
    requires above_one { 1 < p }
    ensures below { 0 < result → p ^ (result + 1) < order }
    ensures greatest { (m : ℕ) → p ^ (m + 1) < order → m ≤ result }
{
    let mut power: u128 = 1;
    for k in 0..128 {
        let Some(next) = power.checked_mul(p as u128) else {
            return if k == 0 { 0 } else { k - 1 };
        };
        if next >= order {
            return if k == 0 { 0 } else { k - 1 };
        }
        power = next;
    }
    127
}

/// How many values of TF a value of PF yields that are all but evenly spread: the greatest k with the
/// order of TF to the power k + 1 below that of PF, and 0 where there is none. Upstream's
/// `squeeze_field_order_num_limbs`.
pub fn squeeze_field_order_num_limbs<PF: PrimeField, TF: PrimeField32>() -> usize
    ensures below { 0 < result → TF.order ^ (result + 1) < PF.order }
    ensures greatest { (m : ℕ) → TF.order ^ (m + 1) < PF.order → m ≤ result }
{
    powers_below(order_of::<PF>(), TF::ORDER_U32)
}
