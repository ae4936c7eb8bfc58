//! Arithmetic of words modulo 2^31 - 1, where 2^31 is one: what stands above 31 bits is shifted down
//! and added.
ghost use Rattle.std.specs.Prelude.{◌≡◌, ◌<◌, ◌+◌, ◌-◌, ◌*◌, ◌%◌, ◌^◌};

/// The order, 2^31 - 1: the greatest word of 31 bits.
pub const P: u32 = 0x7fff_ffff;

/// The remainder modulo the order. Two folds leave at most four more than the order.
#[inline]
pub fn reduce(x: u64) -> u32
    ensures below { result < P }
    ensures value { result ≡ x % P }
{
    let once = (x & 0x7fff_ffff) + (x >> 31);
    let twice = (once & 0x7fff_ffff) + (once >> 31);
    let word = twice as u32;
    if word < P { word } else { word - P }
}

/// The sum of two residues.
#[inline]
pub fn add_residues(left: u32, right: u32) -> u32
    requires left { left < P }
    requires right { right < P }
    ensures below { result < P }
    ensures value { result ≡ (left + right) % P }
{
    let sum = left + right;
    sum.min(sum.wrapping_sub(P))
}

/// The difference of two residues.
#[inline]
pub fn subtract_residues(left: u32, right: u32) -> u32
    requires left { left < P }
    requires right { right < P }
    ensures below { result < P }
    ensures value { result ≡ (left + (P - right)) % P }
{
    let difference = left.wrapping_sub(right);
    difference.min(difference.wrapping_add(P))
}

/// The negation of a residue.
#[inline]
pub fn negate_residue(word: u32) -> u32
    requires { word < P }
    ensures below { result < P }
    ensures value { result ≡ (P - word) % P }
{
    if word == 0 { 0 } else { P - word }
}

/// The product of two residues.
#[inline]
pub fn multiply_residues(left: u32, right: u32) -> u32
    requires left { left < P }
    requires right { right < P }
    ensures below { result < P }
    ensures value { result ≡ (left * right) % P }
{
    reduce(left as u64 * right as u64)
}

/// The half of a residue: its bits rotated by one, since the lowest one counts 2^31.
#[inline]
pub fn halve_residue(word: u32) -> u32
    requires { word < P }
    ensures below { result < P }
    ensures half { (result + result) % P ≡ word }
{
    (word >> 1) + ((word & 1) << 30)
}
