//! The inverse of a word modulo an order.
ghost use Rattle.std.specs.Prelude.{◌≡◌, ◌<◌, ℕ, MatchOption};
ghost use Rattle.p3_residues.specs.Inverses.{IsInverseModulo};

use crate::odd_modulus::inverse_by_shifts;

/// An inverse of the value modulo the modulus, below it, and `None` exactly where no number is
/// one. By the extended Euclidean algorithm, with shifts where the modulus is odd and with
/// divisions where it is even.
#[inline]
pub fn inverse_modulo(value: u64, modulus: u64) -> Option<u64>
    requires { 1 < modulus }
    ensures { MatchOption result ((y : ℕ) → ¬ IsInverseModulo modulus value y)
        (λ y. (y < modulus) × IsInverseModulo modulus value y) }
{
    if modulus % 2 == 1 {
        inverse_by_shifts(value, modulus)
    } else {
        inverse_by_divisions(value, modulus)
    }
}

/// By divisions: each remainder is, up to its sign, its coefficient times the value, and the signs
/// alternate.
fn inverse_by_divisions(value: u64, modulus: u64) -> Option<u64>
    requires { 1 < modulus }
    ensures { MatchOption result ((y : ℕ) → ¬ IsInverseModulo modulus value y)
        (λ y. (y < modulus) × IsInverseModulo modulus value y) }
{
    let mut last = modulus;
    let mut rest = value;
    let mut last_coefficient = 0u64;
    let mut coefficient = 1u64;
    let mut negative = false;
    while rest > 0 {
        let quotient = last / rest;
        let remainder = last % rest;
        let next_coefficient = last_coefficient + quotient * coefficient;
        last = rest;
        rest = remainder;
        last_coefficient = coefficient;
        coefficient = next_coefficient;
        negative = !negative;
    }
    if last != 1 {
        return None;
    }
    let reduced = last_coefficient % modulus;
    if negative {
        Some(reduced)
    } else {
        Some((modulus - reduced) % modulus)
    }
}
