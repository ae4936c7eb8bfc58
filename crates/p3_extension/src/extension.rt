//! Extensions: shapes of polynomials, and what a base field gives for each of them.
ghost use Rattle.std.specs.Prelude.{◌≡◌, ◌≤◌, ◌<◌, ◌+◌, ℕ, List, length, map, replicate};
ghost use Rattle.p3_theory.specs.Rings.Ring.{Ops, Invertible, IsInverse, subtract};
ghost use Rattle.p3_theory.specs.Polynomials.Polynomial.{IsMonic, at, quotient_mul, quotient_add, quotient_ops, embed, binomial};
ghost use Rattle.p3_theory.specs.Inverses.ListInverses.{HasNoInverse};
ghost use Rattle.p3_theory.specs.Rings.Powers.{power};
ghost use Rattle.p3_theory.specs.FrobeniusMaps.FrobeniusTable.{frobenius_list, orbit_list, IsFrobeniusTable};
ghost use Rattle.p3_theory.specs.FrobeniusMaps.Frobenius.{iterate};
ghost use Rattle.p3_extension_formulas.specs.Entries.{entrywise_difference};
ghost use Rattle.p3_extension.specs.Shapes.{IsBinomial};

pub mod algebra;
pub mod basis;
pub mod binomial_extension;
mod complex_algebra;
pub mod complex_binomial;
pub mod complex_extension;
mod defaults;
pub mod display;
mod entries;
pub mod ext_field;
mod field_bounds;
pub mod frobenius;
mod has_frobenius;
mod order;
pub mod polynomial_extension;
mod streams;
mod two_adic;

pub use complex_binomial::HasComplexBinomialExtension;
pub use complex_extension::{Complex, ComplexExtendable};
use entries::{add_each, scale_each, sub_each};
pub use ext_field::ExtField;
pub use has_frobenius::HasFrobenius;
pub use p3_extension_formulas::binomial_extension::{
    InverseByFormula, binomial_mul, binomial_square, octic_mul, quartic_mul, quintic_mul,
};
pub use p3_extension_formulas::cubic_extension::{Cubic, cubic_square, trinomial_cubic_mul};
pub use p3_extension_formulas::integer_polynomial::IntegerPolynomial;
pub use p3_extension_formulas::quintic_extension::{
    Quintic, quintic_square, trinomial_quintic_mul,
};
pub use p3_extension_formulas::septic_extension::{Septic, septic_square, trinomial_septic_mul};
pub use p3_extension_formulas::vectors::{vector_add, vector_sub};
use p3_field_traits::field::Field;
use p3_ring::ring::{Algebra, PrimeCharacteristicRing};
pub use polynomial_extension::{ExtendableModulo, Modulo};
use std::alloc::AllocError;
use std::marker::PhantomData;
pub use streams::{ByteCountFits, NestedByteCountFits};
pub use two_adic::{
    HasTwoAdicBinomialExtension, HasTwoAdicComplexBinomialExtension, TwoAdicExtendable,
};

mod sealed {
    pub trait Sealed {}
}

/// How products of an extension fold back: the polynomial that is zero there. Sealed, this
/// project's own; upstream has a type for each shape.
pub trait ExtensionShape: Copy + sealed::Sealed {
    /// What it is for a polynomial over a ring to be of the shape at a degree.
    ghost is_modulus: { (A : Type 0) → Ops A → ℕ → List A → Type 0 };
}

/// The shape `X^D = W`, for a base field F.
#[derive(Debug, PartialEq, Eq, PartialOrd, Ord, Hash)]
pub struct Binomial<F>(PhantomData<F>);

impl<F> Clone for Binomial<F> {
    ghost use Rattle.std.specs.Prelude.{⊤};

    ghost is_clone = { λ x y. y ≡ x };

    ghost is_infallible = { λ _. ⊤ };

    #[inline]
    fn clone(&self) -> Result<Self, AllocError> {
        Ok(*self)
    }
}

impl<F> Copy for Binomial<F> {}

impl<F> sealed::Sealed for Binomial<F> {}

impl<F> ExtensionShape for Binomial<F> {
    ghost is_modulus = { λ A o D f. IsBinomial o D f };
}

/// The shape `X^3 = X + 1`.
pub type CubicTrinomial = Modulo<Cubic, 3>;

/// The shape `X^5 = 1 - X^2`.
pub type QuinticTrinomial = Modulo<Quintic, 5>;

/// The shape `X^7 = X + 1`, this project's own.
pub type SepticTrinomial = Modulo<Septic, 7>;

/// An extension of F modulo `X^D - W`. Upstream's `BinomialExtensionField`.
pub type BinomialExtensionField<F, const D: usize, A = F> = ExtField<F, D, Binomial<F>, A>;

/// An extension of F modulo `X^3 - X - 1`. Upstream's `CubicTrinomialExtensionField`.
pub type CubicTrinomialExtensionField<F, A = F> = ExtField<F, 3, CubicTrinomial, A>;

/// An extension of F modulo `X^5 + X^2 - 1`. Upstream's `QuinticTrinomialExtensionField`.
pub type QuinticTrinomialExtensionField<F, A = F> = ExtField<F, 5, QuinticTrinomial, A>;

/// An extension of F modulo `X^7 - X - 1`, this project's own.
pub type SepticTrinomialExtensionField<F, A = F> = ExtField<F, 7, SepticTrinomial, A>;

/// The product of coefficient lists alone, under the smallest bounds. `*` of `ExtField` stands on
/// it; upstream has the product in `ExtensionAlgebra`.
pub trait ExtensionProduct<F, const D: usize, S>: Copy {
    /// What the product may answer.
    ghost ext_product_gives: { List Self → List Self → List Self → Type 0 };

    /// The product of two lists of D coefficients, written to `res`, whatever it held.
    fn ext_product(a: &[Self], b: &[Self], res: &mut [Self])
        requires left { length a.now ≡ D }
        requires right { length b.now ≡ D }
        requires room { length res.old ≡ D }
        ensures { ext_product_gives a.now b.now res.new };
}

/// A coefficient ring whose lists of D coefficients are multiplied modulo the shape's polynomial.
/// Upstream's `ExtensionAlgebra`.
pub trait ExtensionAlgebra<F, const D: usize, S: ExtensionShape>: PrimeCharacteristicRing
    + ExtensionProduct<F, D, S> {
    /// The polynomial that is zero in the extension, from its constant coefficient upward.
    ghost modulus: { List Self };

    /// The product of two lists, where `res` is all zero before.
    #[inline]
    final fn ext_mul(a: &[Self], b: &[Self], res: &mut [Self])
        requires left { length a.now ≡ D }
        requires right { length b.now ≡ D }
        requires zeroed { res.old ≡ replicate D Self.ops.zero }
        ensures { res.new ≡ quotient_mul Self.ops D modulus a.now b.now }
    {
        Self::ext_product(a, b, res);
    }

    /// The square of a list, where `res` is all zero before. A type with a faster formula gives it.
    #[inline]
    fn ext_square(a: &[Self], res: &mut [Self])
        requires left { length a.now ≡ D }
        requires zeroed { res.old ≡ replicate D Self.ops.zero }
        ensures { res.new ≡ quotient_mul Self.ops D modulus a.now a.now }
    {
        Self::ext_product(a, a, res);
    }

    /// The sum entry by entry.
    #[inline]
    fn ext_add(a: &[Self], b: &[Self], res: &mut [Self])
        requires left { length a.now ≡ D }
        requires right { length b.now ≡ D }
        requires room { length res.old ≡ D }
        ensures { res.new ≡ quotient_add Self.ops D a.now b.now }
    {
        add_each(a, b, res);
    }

    /// The difference entry by entry.
    #[inline]
    fn ext_sub(a: &[Self], b: &[Self], res: &mut [Self])
        requires left { length a.now ≡ D }
        requires right { length b.now ≡ D }
        requires room { length res.old ≡ D }
        ensures { res.new ≡ entrywise_difference Self.ops D a.now b.now }
    {
        sub_each(a, b, res);
    }

    /// The product with an embedded element: each entry times `rhs`.
    #[inline]
    fn ext_base_mul(lhs: &[Self], rhs: Self, res: &mut [Self])
        requires left { length lhs.now ≡ D }
        requires room { length res.old ≡ D }
        ensures { res.new ≡ quotient_mul Self.ops D modulus lhs.now (embed Self.ops D rhs) }
    {
        scale_each(lhs, rhs, res);
    }

    /// The degree is two or more.
    ghost at_least_two: { 2 ≤ D };

    /// The polynomial is one of the shape.
    ghost of_shape: { S.is_modulus Self Self.ops D modulus };

    /// The polynomial is monic, of degree D.
    ghost monic: { IsMonic Self.ops D modulus };

    /// The product is the remainder of the convolution modulo the polynomial.
    ghost ext_products: { (a b r : List Self) → Self.ext_product_gives a b r → r ≡ quotient_mul Self.ops D modulus a b };
}

/// The product of coefficient lists whose coefficients are packings of the field, under the smallest
/// bounds. `*` of a packed extension stands on it; upstream has the product in `ExtensionAlgebra`.
pub trait PackedProduct<P, const D: usize, S>: Copy {
    /// What the product may answer.
    ghost packed_product_gives: { List P → List P → List P → Type 0 };

    /// What a product is written over, D times: any packing, best zero. Over a copy of a factor whose
    /// lanes are read one by one, the compiler would write the product one by one, too.
    fn placeholder() -> P;

    /// The product of two lists of D packings, written to `res`, whatever it held.
    fn packed_product(a: &[P], b: &[P], res: &mut [P])
        requires left { length a.now ≡ D }
        requires right { length b.now ≡ D }
        requires room { length res.old ≡ D }
        ensures { packed_product_gives a.now b.now res.new };

    /// The square of a list of D packings, written to `res`, whatever it held. A type with a faster
    /// formula gives it.
    #[inline]
    fn packed_square(a: &[P], res: &mut [P])
        requires input { length a.now ≡ D }
        requires room { length res.old ≡ D }
        ensures { packed_product_gives a.now a.now res.new }
    {
        Self::packed_product(a, a, res);
    }
}

/// A ring whose extension modulo the shape's polynomial also multiplies lists of elements of the
/// algebra P, modulo the same polynomial. It stands for upstream's `ExtensionAlgebra` of a packing.
pub trait ExtensionOverAlgebra<
    P: Algebra<Self>,
    const D: usize,
    S: ExtensionShape,
>: ExtensionAlgebra<Self, D, S>
    + PackedProduct<P, D, S> {
    /// The product is the remainder of the convolution modulo the polynomial, embedded.
    ghost packed_products: { (a b r : List P) → Self.packed_product_gives a b r → r ≡ quotient_mul P.ops D (map P.embed Self.modulus) a b };
}

/// A field with a W and a root of unity, for the extension of degree D by `X^D = W`. Upstream's
/// `BinomiallyExtendable`.
pub trait BinomiallyExtendable<const D: usize>: Field + ExtensionAlgebra<Self, D, Binomial<Self>> {
    ghost w: { Self };

    ghost dth_root: { Self };

    /// The coefficients of the generator candidate.
    ghost ext_generator: { ℕ → Self };

    /// The bytes of the name of the extension as an algebra.
    ghost binomial_algebra_id: { List ℕ };

    /// The name of the extension as an algebra, which tells it from others over the same base.
    fn binomial_algebra_id() -> &'static str
        ensures { result.now ≡ binomial_algebra_id };

    /// The W of `X^D = W`.
    fn w() -> Self
        ensures { result ≡ w };

    /// A root of unity of order D: its D-th power is one, and its powers 1 to D - 1, each less
    /// one, have inverses.
    fn dth_root() -> Self
        ensures { result ≡ dth_root };

    /// The coefficient at `X^i` of a generator candidate, for i below D; no law says that it
    /// generates.
    fn ext_generator(i: usize) -> Self
        requires { i < D }
        ensures { result ≡ ext_generator i };

    ghost by_w: { Self.modulus ≡ binomial Self.ops D w };

    ghost root_power: { power Self.ops dth_root D ≡ Self.ops.one };

    ghost apart: { (k : ℕ) → 1 ≤ k → k < D → Invertible Self.ops (subtract Self.ops (power Self.ops dth_root k) Self.ops.one) };
}

/// A field with a Frobenius map for its extension of degree 3 by `X^3 = X + 1`: whoever gives the table
/// of that polynomial. Upstream's `CubicTrinomialExtendable`.
pub trait CubicTrinomialExtendable: ExtendableModulo<3, Cubic> {
    /// The entry in row i and column j of the map's matrix: the coefficient at `X^i` of power j of the
    /// image of X. Upstream's `FROBENIUS_MATRIX`.
    #[inline]
    final fn frobenius_matrix(i: usize, j: usize) -> Self
        requires row { i < 3 }
        requires column { j < 3 }
        ensures { result ≡ at Self.ops (power (quotient_ops Self.ops 3 Self.modulus) Self.ExtendableModulo.image j) i }
    {
        Self::power_of_image(j, i)
    }
}

impl<F: ExtendableModulo<3, Cubic>> CubicTrinomialExtendable for F {}

/// A field with two-adic generators of its extension of degree 3 by `X^3 = X + 1`. Upstream's
/// `HasTwoAdicCubicExtension`.
pub trait HasTwoAdicCubicExtension: CubicTrinomialExtendable
    + TwoAdicExtendable<3, CubicTrinomial> {}

impl<F: CubicTrinomialExtendable + TwoAdicExtendable<3, CubicTrinomial>> HasTwoAdicCubicExtension
    for F {}

/// A field with a Frobenius map for its extension of degree 5 by `X^5 = 1 - X^2`: whoever gives the table
/// of that polynomial; `frobenius_coeffs` reads it. Upstream's `QuinticTrinomialExtendable`.
pub trait QuinticTrinomialExtendable: ExtendableModulo<5, Quintic> {}

impl<F: ExtendableModulo<5, Quintic>> QuinticTrinomialExtendable for F {}

/// A field with two-adic generators of its extension of degree 5 by `X^5 = 1 - X^2`. Upstream's
/// `HasTwoAdicQuinticExtension`.
pub trait HasTwoAdicQuinticExtension: QuinticTrinomialExtendable
    + TwoAdicExtendable<5, QuinticTrinomial> {}

impl<
    F: QuinticTrinomialExtendable + TwoAdicExtendable<5, QuinticTrinomial>,
> HasTwoAdicQuinticExtension for F {}

/// A field with a Frobenius map for its extension of degree 7 by `X^7 = X + 1`: whoever gives the table of
/// that polynomial. This project's own, as `QuinticTrinomialExtendable`.
pub trait SepticTrinomialExtendable: ExtendableModulo<7, Septic> {}

impl<F: ExtendableModulo<7, Septic>> SepticTrinomialExtendable for F {}

/// A field with two-adic generators of its extension of degree 7 by `X^7 = X + 1`. This project's own, as
/// `HasTwoAdicQuinticExtension`.
pub trait HasTwoAdicSepticExtension: SepticTrinomialExtendable
    + TwoAdicExtendable<7, SepticTrinomial> {}

impl<F: SepticTrinomialExtendable + TwoAdicExtendable<7, SepticTrinomial>> HasTwoAdicSepticExtension
    for F {}

/// A field whose extension has a Frobenius map: X becomes its image. It stands for what the
/// shapes share; this project's own.
pub trait FrobeniusExtendable<const D: usize, S: ExtensionShape>: Field
    + ExtensionAlgebra<Self, D, S> {
    /// The image of X.
    ghost image: { List Self };

    /// The coefficients of the extension's generator candidate.
    ghost generator_coefficients: { ℕ → Self };

    /// The bytes of the name of the extension as an algebra.
    ghost algebra_id: { List ℕ };

    /// The name of the extension as an algebra, which tells it from others over the same base.
    fn algebra_id() -> &'static str
        ensures { result.now ≡ algebra_id };

    /// The coefficients of the image of a value.
    fn apply_frobenius(a: &[Self], res: &mut [Self])
        requires input { length a.now ≡ D }
        requires room { length res.old ≡ D }
        ensures { res.new ≡ frobenius_list Self.ops D Self.modulus image a.now };

    /// The coefficients of what the map taken `count` times makes of a value.
    #[inline]
    fn apply_repeated_frobenius(a: &[Self], count: usize, res: &mut [Self])
        requires input { length a.now ≡ D }
        requires room { length res.old ≡ D }
        ensures { res.new ≡ iterate (frobenius_list Self.ops D Self.modulus image) count a.now }
    {
        let mut value = [Self::zero(); D];
        value.copy_from_slice(a);
        for i in 0..count {
            Self::apply_frobenius(&value, res);
            value.copy_from_slice(res);
        }
        res.copy_from_slice(&value);
    }

    /// The constant coefficient of the product of two lists.
    #[inline]
    fn constant_of_product(a: &[Self], b: &[Self]) -> Self
        requires left { length a.now ≡ D }
        requires right { length b.now ≡ D }
        ensures { result ≡ at Self.ops (quotient_mul Self.ops D Self.modulus a.now b.now) 0 }
    {
        let mut product = [Self::zero(); D];
        Self::ext_product(a, b, &mut product);
        product[0]
    }

    /// The inverse of a list by the fixed formula of the degree, where the shape has one: written
    /// to `res`, whatever that held.
    #[inline]
    fn inverse_by_formula(a: &[Self], res: &mut [Self]) -> InverseByFormula
        requires input { length a.now ≡ D }
        requires room { length res.old ≡ D }
        ensures inverse { result ≡ InverseByFormula.Found → IsInverse (quotient_ops Self.ops D Self.modulus) a.now res.new }
        ensures none { result ≡ InverseByFormula.NoInverse → HasNoInverse Self.ops D Self.modulus a.now }
    {
        InverseByFormula::NoFormula
    }

    /// The coefficient at `X^i` of the generator candidate, which `generator` of the extension answers.
    fn generator_coefficient(i: usize) -> Self
        requires { i < D }
        ensures { result ≡ generator_coefficients i };

    /// The map keeps sums and products, fixes the base, is the identity after D times, and leaves
    /// only base values unchanged.
    ghost frobenius_laws: { IsFrobeniusTable Self.ops D Self.modulus image };
}
