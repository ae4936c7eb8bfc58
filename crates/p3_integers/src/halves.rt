//! Halves of residues modulo an odd number, on words.

ghost use Rattle.std.specs.Prelude.{◌≡◌, ◌+◌, ◌-◌, ◌*◌, ◌/◌, ◌%◌, ◌^◌, ◌<◌};

/// Half of `x` rounded down, and `(P + 1) / 2` more where `x` is odd: the half of `x` modulo P,
/// where P is odd and `x` is below P. P is below 2^32 - 1. Upstream's `halve_u32`.
#[inline]
#[must_use]
pub fn halve_u32<const P: u32>(x: u32) -> u32
    requires { P < 2 ^ 32 - 1 }
    ensures value { result ≡ x / 2 + (x % 2) * ((P + 1) / 2) }
    ensures half { P % 2 ≡ 1 → x < P → (result + result) % P ≡ x }
    ensures canonical { P % 2 ≡ 1 → x < P → result < P }
{
    let shift: u32 = (P + 1) / 2;
    let half = x / 2;
    if x % 2 == 0 { half } else { half + shift }
}

/// The same on words of 64 bits, for P below 2^64 - 1. Upstream's `halve_u64`.
#[inline]
#[must_use]
pub fn halve_u64<const P: u64>(x: u64) -> u64
    requires { P < 2 ^ 64 - 1 }
    ensures value { result ≡ x / 2 + (x % 2) * ((P + 1) / 2) }
    ensures half { P % 2 ≡ 1 → x < P → (result + result) % P ≡ x }
    ensures canonical { P % 2 ≡ 1 → x < P → result < P }
{
    let shift: u64 = (P + 1) / 2;
    let half = x / 2;
    if x % 2 == 0 { half } else { half + shift }
}
