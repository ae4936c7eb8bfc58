//! Why a call is refused.

/// Why a call is refused.
#[derive(Clone, Copy, Debug, PartialEq, Eq)]
pub enum Refusal {
    /// The lengths differ, or a length isn't what the call asks for.
    Length,
    /// A word is not below the order.
    Word,
    /// A value has no inverse.
    NoInverse,
    /// No square root is found.
    NoRoot,
    /// The log size is past the two-adicity.
    LogSize,
    /// Memory was refused.
    Memory,
    /// A step's number is unknown, or a register that it names isn't there.
    Step,
    /// The bits of the radix are not what the call asks for.
    Radix,
}
