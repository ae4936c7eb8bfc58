//! The statuses that calls from C answer.
ghost use Rattle.std.specs.Prelude.{◌≡◌};
ghost use Rattle.p3_c_words.specs.Statuses.{number_of, status_of, or_old};

use crate::refusal::Refusal;

/// All is done.
pub const P3_OK: i32 = 0;

/// The lengths differ, or a length isn't what the call asks for.
pub const P3_LENGTH: i32 = 1;

/// A word is not below the order.
pub const P3_WORD: i32 = 2;

/// A value has no inverse.
pub const P3_NO_INVERSE: i32 = 3;

/// No square root is found.
pub const P3_NO_ROOT: i32 = 4;

/// The log size is past the two-adicity.
pub const P3_LOG_SIZE: i32 = 5;

/// Memory was refused.
pub const P3_MEMORY: i32 = 6;

/// A step's number is unknown, or a register that it names isn't there.
pub const P3_STEP: i32 = 7;

/// The bits of the radix are not what the call asks for.
pub const P3_RADIX: i32 = 8;

/// The status of a refusal.
#[inline]
fn number_of(refusal: Refusal) -> i32
    ensures { result ≡ number_of refusal }
{
    match refusal {
        Refusal::Length => P3_LENGTH,
        Refusal::Word => P3_WORD,
        Refusal::NoInverse => P3_NO_INVERSE,
        Refusal::NoRoot => P3_NO_ROOT,
        Refusal::LogSize => P3_LOG_SIZE,
        Refusal::Memory => P3_MEMORY,
        Refusal::Step => P3_STEP,
        Refusal::Radix => P3_RADIX,
    }
}

/// The status of a call that writes over a slice.
#[inline]
pub fn status(done: Result<(), Refusal>) -> i32
    ensures { result ≡ status_of done }
{
    match done {
        Ok(()) => P3_OK,
        Err(refusal) => number_of(refusal),
    }
}

/// Writes the answer, where there is one, and tells the status.
#[inline]
pub fn answer<T: Copy>(found: Result<T, Refusal>, out: &mut T) -> i32
    ensures status { result ≡ status_of found }
    ensures written { out.new ≡ or_old found out.old }
{
    match found {
        Ok(word) => {
            *out = word;
            P3_OK
        }
        Err(refusal) => number_of(refusal),
    }
}
