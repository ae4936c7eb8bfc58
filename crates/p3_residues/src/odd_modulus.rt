//! Inverses modulo an odd number, by shifts, and the quotients by powers of two that they take.
ghost use Rattle.std.specs.Prelude.{◌≡◌, ◌<◌, ◌≤◌, ◌+◌, ◌*◌, ◌%◌, ◌^◌, ℕ, MatchOption};
ghost use Rattle.p3_residues.specs.Inverses.{IsInverseModulo};

/// By shifts, modulo an odd number: the trailing zeros of one number are dropped, and the lesser
/// number is subtracted from the greater, until the lesser one is one or the difference is zero. Each
/// number, times two to the power of all shifts so far, is, up to its sign, its coefficient times the
/// value. That power is divided out at the end.
#[inline]
pub(crate) fn inverse_by_shifts(value: u64, modulus: u64) -> Option<u64>
    requires above { 1 < modulus }
    requires odd { modulus % 2 ≡ 1 }
    ensures { MatchOption result ((y : ℕ) → ¬ IsInverseModulo modulus value y)
        (λ y. (y < modulus) × IsInverseModulo modulus value y) }
{
    let mut last = modulus;
    let mut rest = value;
    let mut last_coefficient = 0u64;
    let mut coefficient = 1u64;
    let mut negative = false;
    let mut shifts = 0u32;
    while rest > 0 && last > 1 {
        let zeros = rest.trailing_zeros();
        let shifted = rest >> zeros;
        let scaled = last_coefficient << zeros;
        let less = shifted < last;
        last_coefficient = if less { coefficient } else { scaled };
        coefficient = coefficient + scaled;
        rest = shifted.abs_diff(last);
        last = shifted.min(last);
        negative = negative != less;
        shifts = shifts + zeros;
    }
    if last != 1 {
        return None;
    }
    let answer = divided_by_power(last_coefficient, modulus, shifts);
    if negative {
        Some(answer)
    } else {
        Some(modulus - answer)
    }
}

/// The quotient of a residue by a power of two, modulo an odd number.
#[inline]
fn divided_by_power(residue: u64, modulus: u64, exponent: u32) -> u64
    requires below { residue ≤ modulus }
    requires odd { modulus % 2 ≡ 1 }
    ensures below { result ≤ modulus }
    ensures value { (result * 2 ^ exponent) % modulus ≡ residue % modulus }
{
    let inverse = negated_inverse(modulus);
    let mut answer = residue;
    let mut left = exponent;
    while left > 32 {
        answer = divided_by_short_power(answer, modulus, inverse, 32);
        left = left - 32;
    }
    divided_by_short_power(answer, modulus, inverse, left)
}

/// The quotient of a residue by a power of two of at most 32 digits. The negated inverse of the
/// modulus gives a multiple of it whose sum with the residue ends in as many zeros. Where the modulus has
/// 32 digits, the sum fits 64.
#[inline]
fn divided_by_short_power(residue: u64, modulus: u64, inverse: u64, exponent: u32) -> u64
    requires below { residue ≤ modulus }
    requires inverse { (modulus * inverse + 1) % 2 ^ 32 ≡ 0 }
    requires short { exponent ≤ 32 }
    ensures below { result ≤ modulus }
    ensures value { (result * 2 ^ exponent) % modulus ≡ residue % modulus }
{
    let factor = residue.wrapping_mul(inverse) % (1u64 << exponent);
    if modulus <= 0xffff_ffff {
        return residue + factor * modulus >> exponent;
    }
    let sum = residue as u128 + factor as u128 * modulus as u128;
    (sum >> exponent) as u64
}

/// The negated inverse of an odd number modulo 2^32, by five steps from one modulo two.
#[inline]
fn negated_inverse(modulus: u64) -> u64
    requires { modulus % 2 ≡ 1 }
    ensures { (modulus * result + 1) % 2 ^ 32 ≡ 0 }
{
    let of_2_digits = twice_as_many_digits(modulus, 1);
    let of_4_digits = twice_as_many_digits(modulus, of_2_digits);
    let of_8_digits = twice_as_many_digits(modulus, of_4_digits);
    let of_16_digits = twice_as_many_digits(modulus, of_8_digits);
    twice_as_many_digits(modulus, of_16_digits)
}

/// A negated inverse modulo the square of the power of two to which this is one: the product with
/// the modulus, and one, is squared.
#[inline]
fn twice_as_many_digits(modulus: u64, inverse: u64) -> u64
    ensures { (modulus * result + 1) % 2 ^ 64 ≡ ((modulus * inverse + 1) * (modulus * inverse + 1)) % 2 ^ 64 }
{
    inverse.wrapping_mul(modulus.wrapping_mul(inverse).wrapping_add(2))
}
