//! The fields that have a name: for each group its names, and the types of their registers in the same order. An
//! extension owes that its order is given.
ghost use Rattle.std.specs.Prelude.{◌<◌, ◌^◌};
ghost use Rattle.std.proofs.Common.{lit<};
ghost use Rattle.p3_calculator.specs.Bases.{residues_are_base};
ghost use Rattle.p3_calculator.specs.Representation.{IsBase};

use crate::field::{Base, Named};
use crate::lists::{ComplexRegisters, NoField, OneOf};
use crate::registers::Registers;
use p3_extension::extension::{
    Binomial, ComplexExtendable, Cubic, IntegerPolynomial, Modulo, Quintic, Septic,
};
use p3_prime_fields::baby_bear::{BabyBear, BabyBearModulus};
use p3_prime_fields::binomial_constants::BinomialConstants;
use p3_prime_fields::extensions::{
    BabyBearx4, F2t5, F2t7, F17bx2, F17t5, F17x2, F17x4, F17x8, F31t3, F31x3, F31x5, F31x6, Z15x2,
};
use p3_prime_fields::form::{OverModulus, Plain};
use p3_prime_fields::fp::Fp;
use p3_prime_fields::goldilocks::Goldilocks;
use p3_prime_fields::koala_bear::KoalaBear;
use p3_prime_fields::montgomery::Montgomery;
use p3_prime_fields::polynomial_constants::PolynomialConstants;
use p3_prime_fields::small::{F2, F17, F17b, F31, M2, M15, M17, M17b, M31, Z15};

/// The names of residues.
pub const RESIDUE_NAMES: &str = "f2 f17 f17b f31 z15 bb kb gl";

/// Their registers.
pub type ResidueList = OneOf<
    Registers<F2>,
    OneOf<
        Registers<F17>,
        OneOf<
            Registers<F17b>,
            OneOf<
                Registers<F31>,
                OneOf<
                    Registers<Z15>,
                    OneOf<
                        Registers<BabyBear>,
                        OneOf<Registers<KoalaBear>, OneOf<Registers<Goldilocks>, NoField>>,
                    >,
                >,
            >,
        >,
    >,
>;

/// The names of extensions of degree 2.
pub const QUADRATIC_NAMES: &str = "f17x2 f17bx2 z15x2 f31c";

/// Their registers.
pub type QuadraticList = OneOf<
    Registers<F17x2>,
    OneOf<Registers<F17bx2>, OneOf<Registers<Z15x2>, OneOf<ComplexRegisters<F31>, NoField>>>,
>;

/// The names of extensions of degree 3 and 4.
pub const MIDDLE_NAMES: &str = "f31x3 f31t3 f17x4 bbx4";

/// Their registers.
pub type MiddleList = OneOf<
    Registers<F31x3>,
    OneOf<Registers<F31t3>, OneOf<Registers<F17x4>, OneOf<Registers<BabyBearx4>, NoField>>>,
>;

/// The names of extensions of degree 5 and more.
pub const HIGH_NAMES: &str = "f31x5 f17t5 f2t5 f31x6 f17x8 f2t7";

/// Their registers.
pub type HighList = OneOf<
    Registers<F31x5>,
    OneOf<
        Registers<F17t5>,
        OneOf<
            Registers<F2t5>,
            OneOf<Registers<F31x6>, OneOf<Registers<F17x8>, OneOf<Registers<F2t7>, NoField>>>,
        >,
    >,
>;

/// A form of residues whose extension of degree D by `X^D = W` has a name in the calculator. A function that is
/// generic over the marker passes the traits of the field once, and a call at a name the marker's alone.
pub trait NamedBinomial<const D: usize>: OverModulus<u32> {
    /// The order of the extension is below 2^128, so that it is given.
    ghost order_fits: { Self.ORDER ^ D < 2 ^ 128 };
}

/// The same for the extension modulo the polynomial S, of degree D.
pub trait NamedPolynomial<const D: usize, S: IntegerPolynomial<D>>: OverModulus<u32> {
    /// The order of the extension is below 2^128, so that it is given.
    ghost order_fits: { Self.ORDER ^ D < 2 ^ 128 };
}

/// A field whose extension by `X^2 = -1` has a name in the calculator. A function that is generic over the
/// field passes the traits of the extension once, and a call at a name those of the field alone.
pub trait NamedComplex: Base + ComplexExtendable {
    /// The order of the extension is below 2^128, so that it is given.
    ghost order_fits: { Self.base_order ^ 2 < 2 ^ 128 };

    /// The field's own operations, size and text are those of residues.
    ghost is_base: { IsBase Self.base_order Self.canon Self.ops Self.size Self.text };
}

impl<W: NamedBinomial<D>, const D: usize> Named<D, Binomial<Fp<W>>> for Fp<W>
where
    W::Modulus: BinomialConstants<D>,
{
    ghost order_fits = { W.order_fits };

    ghost is_base = { residues_are_base };
}

impl<W: NamedPolynomial<D, S>, const D: usize, S: IntegerPolynomial<D>> Named<D, Modulo<S, D>>
    for Fp<W>
where
    W::Modulus: PolynomialConstants<D, S>,
{
    ghost order_fits = { W.order_fits };

    ghost is_base = { residues_are_base };
}

impl<F: NamedComplex> Named<2, Binomial<F>> for F {
    ghost order_fits = { F.order_fits };

    ghost is_base = { F.is_base };
}

impl NamedComplex for F31 {
    ghost order_fits = { lit< tt };

    ghost is_base = { residues_are_base };
}

impl NamedBinomial<2> for Plain<M17> {
    ghost order_fits = { lit< tt };
}

impl NamedBinomial<4> for Plain<M17> {
    ghost order_fits = { lit< tt };
}

impl NamedBinomial<8> for Plain<M17> {
    ghost order_fits = { lit< tt };
}

impl NamedBinomial<2> for Plain<M17b> {
    ghost order_fits = { lit< tt };
}

impl NamedBinomial<2> for Plain<M15> {
    ghost order_fits = { lit< tt };
}

impl NamedBinomial<3> for Plain<M31> {
    ghost order_fits = { lit< tt };
}

impl NamedBinomial<5> for Plain<M31> {
    ghost order_fits = { lit< tt };
}

impl NamedBinomial<6> for Plain<M31> {
    ghost order_fits = { lit< tt };
}

impl NamedBinomial<4> for Montgomery<BabyBearModulus> {
    ghost order_fits = { lit< tt };
}

impl NamedPolynomial<3, Cubic> for Plain<M31> {
    ghost order_fits = { lit< tt };
}

impl NamedPolynomial<5, Quintic> for Plain<M17> {
    ghost order_fits = { lit< tt };
}

impl NamedPolynomial<5, Quintic> for Plain<M2> {
    ghost order_fits = { lit< tt };
}

impl NamedPolynomial<7, Septic> for Plain<M2> {
    ghost order_fits = { lit< tt };
}
