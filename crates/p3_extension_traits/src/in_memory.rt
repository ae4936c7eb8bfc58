//! Types whose values fit in memory.

ghost use Rattle.std.specs.Mem.{FitsInMemory};

/// A type whose values take fewer than 2^63 bytes, so that a value can be lent as a slice. It is
/// owed once for each type, by computing on its layout. This project's own.
pub trait InMemory {
    /// A value takes fewer than 2^63 bytes.
    ghost fits: { FitsInMemory Self.row };
}
