//! Steps as C writes them.

/// One step over registers: register d becomes what the operation gives of registers a and b as they stand, or of
/// register a alone.
#[derive(Clone, Copy, Debug, PartialEq, Eq)]
#[repr(C)]
pub struct RunStep {
    /// The operation: 0 the sum, 1 the difference, 2 the product, 3 the negation, 4 the square, 5 the double, 6 the
    /// power e, 7 the product with two to the power e, 8 the inverse, 9 a square root.
    pub op: u32,
    /// The register that is written.
    pub d: u32,
    /// The register that is read.
    pub a: u32,
    /// The second register that is read, by the operations 0, 1 and 2.
    pub b: u32,
    /// The exponent of the operations 6 and 7.
    pub e: u64,
}
