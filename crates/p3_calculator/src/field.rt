//! What the calculator asks of a field, and its implementations: residues, and extensions of them.
ghost use Rattle.std.specs.Prelude.{◌≡◌, ◌<◌, ◌^◌, ℕ, List, Option, map, refl, slice_set, string_bytes, IfOk};
ghost use Rattle.p3_theory.specs.Rings.Ring.{Ops, subtract};
ghost use Rattle.p3_theory.specs.Rings.Powers.{power};
ghost use Rattle.p3_theory.specs.Polynomials.Polynomial.{tabulate};
ghost use Rattle.p3_calculator.specs.Display.{display};
ghost use Rattle.p3_calculator.specs.Fields.{FieldSpec, PolynomialsModulo, order, dimension, value_count, generator_of};
ghost use Rattle.p3_calculator.specs.Representation.{IsBase, Represents, InverseOrNone, RootOrNone};

use p3_extension::extension::{ExtField, ExtensionShape, FrobeniusExtendable};
use p3_field_traits::field::Field;
use p3_field_traits::sqrt::tonelli_shanks;
use p3_ring::ring::PrimeCharacteristicRing;
use std::alloc::{AllocError, Allocator};

/// A field of the calculator: its values are known by their canonical coefficients. It has just
/// what the lines ask for.
pub trait CalculatorField: Copy {
    /// The field by numbers.
    ghost spec: { FieldSpec };

    /// The canonical coefficients of a value, from X^0 upward.
    ghost coefficients: { Self → List ℕ };

    /// The operations of the type.
    ghost ops: { Ops Self };

    /// The element by which square roots are looked for.
    ghost generator: { Self };

    /// The order of the base.
    fn base_order() -> u64
        ensures { result ≡ order spec };

    /// How many coefficients a value has.
    fn coefficient_count() -> usize
        ensures { result ≡ dimension spec };

    /// Zero.
    fn zero() -> Self
        ensures { result ≡ ops.zero };

    /// The value with one coefficient changed.
    fn with_coefficient(self, i: usize, c: u64) -> Self
        requires index { i < dimension spec }
        requires below { c < order spec }
        ensures { coefficients result ≡ slice_set (coefficients self) i c };

    /// The sum of two values.
    fn sum(self, other: Self) -> Self
        ensures { result ≡ ops.add self other };

    /// The value less the other one.
    fn difference(self, other: Self) -> Self
        ensures { result ≡ subtract ops self other };

    /// The product of two values.
    fn product(self, other: Self) -> Self
        ensures { result ≡ ops.mul self other };

    /// The negation.
    fn negation(self) -> Self
        ensures { result ≡ ops.neg self };

    /// The square.
    fn squared(self) -> Self
        ensures { result ≡ ops.mul self self };

    /// The double.
    fn doubled(self) -> Self
        ensures { result ≡ ops.add self self };

    /// The product of `exponent` copies of the value.
    fn power(self, exponent: u64) -> Self
        ensures { result ≡ power ops self exponent };

    /// An inverse, and `None` exactly where there is none.
    fn inverse(self) -> Option<Self>
        ensures { InverseOrNone ops self result };

    /// A square root. `None` says of a value but zero that it has none, where the premise of a
    /// finite field holds.
    fn root(self) -> Option<Self>
        ensures { RootOrNone ops (value_count spec) generator self result };

    /// The text that `Display` writes.
    fn text<A: Allocator + Copy>(self, alloc: A) -> Result<String<A>, AllocError>
        ensures { IfOk result (λ text. string_bytes text ≡ display (coefficients self)) };

    /// The operations are those of the field on coefficient lists.
    ghost represents: { Represents spec ops coefficients };

    /// The element is that of the field.
    ghost generator_is: { coefficients generator ≡ generator_of spec };
}

/// A base of the calculator's extensions: residues by their canonical values. It asks for no other
/// trait, since a call at a name's own type passes all that the trait stands on.
pub trait Base: Copy {
    /// The order.
    ghost base_order: { ℕ };

    /// The canonical value of a residue.
    ghost canon: { Self → ℕ };

    /// The order.
    fn base_order() -> u64
        ensures { result ≡ base_order };

    /// Zero.
    fn zero_residue() -> Self
        ensures { canon result ≡ 0 };

    /// The residue with this canonical value.
    fn residue(canonical: u64) -> Self
        requires { canonical < base_order }
        ensures { canon result ≡ canonical };
}

/// A base whose extension of degree D by the shape S has a name in the calculator: what a name adds.
pub trait Named<const D: usize, S: ExtensionShape>: Base + FrobeniusExtendable<D, S> {
    /// The order of the extension is below 2^128, so that it is given.
    ghost order_fits: { Self.base_order ^ D < 2 ^ 128 };

    /// The field's own operations, size and text are those of residues.
    ghost is_base: { IsBase Self.base_order Self.canon Self.ops Self.size Self.text };
}

impl<F: Named<D, S>, const D: usize, S: ExtensionShape> CalculatorField for ExtField<F, D, S, F> {
    ghost use Rattle.p3_theory.specs.Polynomials.Coefficients.{length-tabulate};
    ghost use Rattle.p3_extension.specs.Values.{ext_ops, value_of};
    ghost use Rattle.p3_calculator.specs.Coefficients.{all_coefficients, extension_represented};

    ghost spec = { PolynomialsModulo F.base_order D (map F.canon F.modulus) (map F.canon (tabulate D F.generator_coefficients)) };

    ghost coefficients = { all_coefficients F.canon };

    ghost ops = { ext_ops F.ops F.modulus };

    ghost generator = { value_of (tabulate D F.generator_coefficients) (length-tabulate D F.generator_coefficients) };

    fn base_order() -> u64 {
        F::base_order()
    }

    fn coefficient_count() -> usize {
        D
    }

    fn zero() -> Self {
        <Self as PrimeCharacteristicRing>::zero()
    }

    fn with_coefficient(self, i: usize, c: u64) -> Self {
        let mut value = self.value;
        value[i] = F::residue(c);
        Self::new(value)
    }

    fn sum(self, other: Self) -> Self {
        self + other
    }

    fn difference(self, other: Self) -> Self {
        self - other
    }

    fn product(self, other: Self) -> Self {
        self * other
    }

    fn negation(self) -> Self {
        -self
    }

    fn squared(self) -> Self {
        self.square()
    }

    fn doubled(self) -> Self {
        self.double()
    }

    fn power(self, exponent: u64) -> Self {
        self.exp_u64(exponent)
    }

    fn inverse(self) -> Option<Self> {
        self.try_inverse()
    }

    fn root(self) -> Option<Self> {
        tonelli_shanks(self)
    }

    fn text<A: Allocator + Copy>(self, alloc: A) -> Result<String<A>, AllocError> {
        self.to_string(alloc)
    }

    ghost represents = { extension_represented F.base_order F.ops F.canon F.is_base.residues D F.modulus (map F.canon (tabulate D F.generator_coefficients)) };

    ghost generator_is = { refl };
}
