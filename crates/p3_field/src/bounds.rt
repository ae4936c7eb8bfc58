//! The traits that proofs need and the theory of fields doesn't have: each says one fact of a type, or gathers what
//! upstream has among its supertraits. `F` is a field of one's own, `P` a packing of its values.
//!
//! | trait | what it is for | what one writes |
//! |---|---|---|
//! | `Inhabited` | a value, for what is read past a vector's end | `impl Inhabited for F { ghost inhabitant = { zero }; }` |
//! | `InMemory` | a value takes fewer than 2^63 bytes, so it can be lent as a slice | `impl InMemory for F { ghost fits = { lit< tt }; }` |
//! | `ByteCountFits<D>` | the bytes of D coefficients are counted by a `usize` | `impl ByteCountFits<3> for F { ghost fits = { lit< tt }; }` |
//! | `NestedByteCountFits<D, E>` | the same of E coefficients of D each | `impl NestedByteCountFits<2, 2> for F { ghost nested_fits = { lit< tt }; }` |
//! | `RingSums` | `sum` and `product` of an iterator are those of the ring | `impl RingSums for F { ghost sums = { .. }; ghost products = { .. }; }` |
//! | `ScalarSums<F>` | the same, of scalars into an algebra | nothing for a ring over itself |
//! | `FieldBounds`, `PrimeFieldBounds` | default, hash, bytes and text; and order | `impl FieldBounds for F { ghost default_is_zero = { .. }; }` |
//! | `Packing` | what stands in a lane | `impl Packing for P { type Scalar = F; }` |
//! | `HoldsScalar<F>` | a packing is no smaller than a value in its lanes | `impl HoldsScalar<F> for P { ghost holds = { .. }; }` |
//!
//! `example_mersenne31` has these lines with their proofs; `p3_packed_prime_fields` those of a packing.
pub use p3_extension::extension::{ByteCountFits, NestedByteCountFits};
pub use p3_extension_traits::field_bounds::{FieldBounds, PrimeFieldBounds};
pub use p3_extension_traits::in_memory::InMemory;
pub use p3_field_traits::packed_traits::Inhabited;
pub use p3_packed_extension::holds_scalar::HoldsScalar;
pub use p3_packed_extension::packed_ext_field::Packing;
pub use p3_packing_traits::scalar_sums::ScalarSums;
pub use p3_ring::ring::RingSums;
