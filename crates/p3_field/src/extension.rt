//! Extensions by X^D = W and modulo polynomials with integer coefficients, and packings of their values.
pub use p3_extension::extension::{
    Binomial, BinomialExtensionField, BinomiallyExtendable, ByteCountFits, Complex,
    ComplexExtendable, Cubic, CubicTrinomial, CubicTrinomialExtendable,
    CubicTrinomialExtensionField, ExtField, ExtendableModulo, ExtensionAlgebra,
    ExtensionOverAlgebra, ExtensionProduct, ExtensionShape, FrobeniusExtendable,
    HasComplexBinomialExtension, HasFrobenius, HasTwoAdicBinomialExtension,
    HasTwoAdicComplexBinomialExtension, HasTwoAdicCubicExtension, HasTwoAdicQuinticExtension,
    HasTwoAdicSepticExtension, IntegerPolynomial, InverseByFormula, Modulo, NestedByteCountFits,
    PackedProduct, Quintic, QuinticTrinomial, QuinticTrinomialExtendable,
    QuinticTrinomialExtensionField, Septic, SepticTrinomial, SepticTrinomialExtendable,
    SepticTrinomialExtensionField, TwoAdicExtendable, binomial_mul, binomial_square, cubic_square,
    octic_mul, quartic_mul, quintic_mul, quintic_square, septic_square, trinomial_cubic_mul,
    trinomial_quintic_mul, trinomial_septic_mul, vector_add, vector_sub,
};
pub use p3_extension_formulas::binomial_extension::{binomial_product, ring_product};
pub use p3_packed_extension::bounds::{CoefficientPacking, PackableExtension};
pub use p3_packed_extension::holds_scalar::HoldsScalar;
pub use p3_packed_extension::packed_ext_field::{
    PackedBinomialExtensionField, PackedCubicTrinomialExtensionField, PackedExtField,
    PackedQuinticTrinomialExtensionField, PackedSepticTrinomialExtensionField, Packing,
};
