//! Arithmetic of words modulo 2^64 - 2^32 + 1, the order of Goldilocks.
ghost use Rattle.std.specs.Prelude.{◌≡◌, ◌≤◌, ◌<◌, ◌+◌, ◌-◌, ◌*◌, ◌%◌, ◌^◌};

/// The order of Goldilocks, 2^64 - 2^32 + 1.
pub const P: u64 = 18446744069414584321;

/// A difference that was borrowed 2^64, less the 2^32 - 1 that this is modulo the order. One product in 2^32 comes
/// here: such a call stands apart, so that the others go on by one jump, and loops aren't made into vectors of jumps.
#[cold]
#[inline(never)]
fn difference_after_borrow(difference: u64) -> u64
    requires { 2 ^ 32 - 1 ≤ difference }
    ensures { result + (2 ^ 32 - 1) ≡ difference }
{
    difference - 0xffff_ffff
}

/// The remainder modulo the order. The 128 bits are low + 2^64 * middle + 2^96 * top; modulo the
/// order 2^64 is 2^32 - 1 and 2^96 is minus one. What is left of low may be any word: with the multiple of 2^32 - 1 it
/// stays below twice the order. Upstream's `reduce128`, whose rare case is a jump too.
#[inline]
pub fn reduce128(x: u128) -> u64
    ensures below { result < P }
    ensures value { result ≡ x % P }
{
    let low = (x & 0xffff_ffff_ffff_ffff) as u64;
    let high = (x >> 64) as u64;
    let middle = high & 0xffff_ffff;
    let top = high >> 32;
    let (difference, borrowed) = low.overflowing_sub(top);
    let less = if borrowed {
        difference_after_borrow(difference)
    } else {
        difference
    };
    let more = middle * 0xffff_ffff;
    let (sum, below_zero) = less.overflowing_sub(P - more);
    let back = sum.wrapping_add(P);
    if below_zero { back } else { sum }
}

/// The sum of two residues: the first less what the second lacks of the order, and the order more
/// where that borrows. Written so, it is compiled without a jump, in loops too.
#[inline]
pub fn add_residues(a: u64, b: u64) -> u64
    requires left { a < P }
    requires right { b < P }
    ensures below { result < P }
    ensures value { result ≡ (a + b) % P }
{
    let (less, borrowed) = a.overflowing_sub(P - b);
    let back = if borrowed { P } else { 0 };
    less.wrapping_add(back)
}

/// The difference of two residues: where it borrows 2^64, the order is 2^32 - 1 less than that. Written so, vectors of
/// four take the loop.
#[inline]
pub fn subtract_residues(a: u64, b: u64) -> u64
    requires left { a < P }
    requires right { b < P }
    ensures below { result < P }
    ensures value { result ≡ (a + (P - b)) % P }
{
    let (difference, borrowed) = a.overflowing_sub(b);
    let too_much = if borrowed { 0xffff_ffff } else { 0 };
    difference.wrapping_sub(too_much)
}

/// The remainder of a number that is given by its halves: modulo the order 2^64 is 2^32 - 1.
#[inline]
pub fn reduce_halves(low: u128, high: u128) -> u64
    ensures below { result < P }
    ensures value { result ≡ (low + 2 ^ 64 * high) % P }
{
    let low_residue = reduce128(low);
    let high_residue = reduce128(high);
    let folded = reduce128(high_residue as u128 * 0xffff_ffff);
    add_residues(low_residue, folded)
}
