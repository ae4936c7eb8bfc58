//! The traits of fields, of prime fields by the words that hold a value, and of two-adic fields.
ghost use Rattle.std.specs.Prelude.{◌≡◌, ◌≢◌, ◌↔◌, ◌≤◌, ℕ, IsTrue, IsSome, IfSome, MatchOption, Option, Some, Decides, List, length};
ghost use Rattle.p3_theory.specs.Rings.Ring.{Ops, Invertible, IsInverse};
ghost use Rattle.p3_theory.specs.Rings.Multiples.{of_nat};
ghost use Rattle.p3_theory.specs.Lists.PairedLists.{zip_with};
ghost use Rattle.p3_theory.specs.ResidueRings.BitLength.{IsBitLength};
ghost use Rattle.p3_theory.specs.ResidueRings.Residues.{AreResidues};
ghost use Rattle.p3_theory.specs.Roots.ValueLists.{ValueList};
ghost use Rattle.p3_theory.specs.Roots.SquareRoots.{IsSquareRoot, CountedByGenerator};
ghost use Rattle.p3_theory.specs.Roots.TwoAdic.{AreTwoAdicGenerators, DividesOrder};

use crate::sqrt::tonelli_shanks;
use p3_integers::integers::{Quotient, QuotientMap};
use p3_ring::ring::PrimeCharacteristicRing;
use p3_ring::strands::add_entries;
use std::fmt::Display;
use std::ops::{Div, DivAssign};

/// The bit length of a number.
#[inline]
fn bit_length(n: u128) -> usize
    ensures { IsBitLength n result }
{
    (128 - n.leading_zeros()) as usize
}

/// A ring in which zero is not one, and whose units are found. Upstream's `Field`. What has no
/// inverse need not be zero: residues modulo a composite number and reducible extensions have
/// these laws too, and `try_inverse` is exact there.
pub trait Field: PrimeCharacteristicRing + Eq + Display + Div<Output = Self> + DivAssign {
    /// The text that `Display` writes.
    ghost text: { Self → List ℕ };

    /// How many values there are, where that is below `2^128` and given.
    ghost size: { Option ℕ };

    /// The element that `generator` answers.
    ghost generator: { Self };

    /// Whether a program gains where it evaluates many expressions over the type side by side.
    /// Upstream's constant: no contract speaks of it.
    const BENEFITS_FROM_LOCKSTEP_EVALUATION: bool;

    /// A generator candidate: of a field upstream's generates the units. No law says that it does.
    fn generator() -> Self
        ensures { result ≡ generator };

    /// Whether the value is zero.
    #[inline]
    final fn is_zero(&self) -> bool
        ensures { IsTrue result ↔ (self.now ≡ Self.ops.zero) }
    {
        *self == Self::zero()
    }

    /// Whether the value is one.
    #[inline]
    final fn is_one(&self) -> bool
        ensures { IsTrue result ↔ (self.now ≡ Self.ops.one) }
    {
        *self == Self::one()
    }

    /// An inverse of the value, and `None` exactly where it has none. Its bodies: of an extension `exact_inverse`
    /// in `p3_extension/src/extension/frobenius.rt`, of a prime field `find_inverse` in `p3_prime_fields/src/fp.rt`.
    fn try_inverse(&self) -> Option<Self>
        ensures { MatchOption result ((y : Self) → Self.ops.mul self.now y ≢ Self.ops.one) (λ y. IsInverse Self.ops self.now y) };

    /// The inverse of a value that has one.
    #[inline]
    final fn inverse(&self) -> Self
        requires { Invertible Self.ops self.now }
        ensures { IsInverse Self.ops self.now result }
    {
        self.try_inverse().unwrap()
    }

    /// The image of the index: one, taken as many times as `i` says.
    #[inline]
    final fn interpolation_node(i: usize) -> Self
        ensures { result ≡ of_nat Self.ops i }
    {
        Self::from_usize(i)
    }

    /// Adds each entry of the second slice to that of the first at its index. The slices have one
    /// length.
    #[inline]
    fn add_slices(slice_1: &mut [Self], slice_2: &[Self])
        requires { length slice_1.old ≡ length slice_2.now }
        ensures { slice_1.new ≡ zip_with Self.ops.add slice_1.old slice_2.now }
    {
        add_entries(slice_1, slice_2);
    }

    /// How many values there are, and `None` where that is `2^128` or more, or not given.
    fn order() -> Option<u128>
        ensures { result ≡ size };

    /// Where the order is given, a list of so many items has every value just once.
    ghost values: { (n : ℕ) → size ≡ Some n → ValueList Self n };

    ghost zero_is_not_one: { Self.ops.zero ≢ Self.ops.one };

    /// Equality is that of values.
    ghost equals: { (x y : Self) → Decides (Self.eq x y) (x ≡ y) };

    /// Division is allowed by what has an inverse.
    ghost can_divide: { (x y : Self) → Invertible Self.ops y → Self.can_div x y };

    /// A quotient times the divisor is what was divided.
    ghost divides: { (x y r : Self) → Self.div_gives x y r → Self.ops.mul r y ≡ x };

    ghost can_divide_assign: { (x y : Self) → Invertible Self.ops y → Self.can_div_assign x y };

    ghost divide_assigns: { (x y r : Self) → Self.div_assign_gives x y r → Self.ops.mul r y ≡ x };

    /// `Display` writes exactly the text.
    ghost shows: { (x : Self) → Self.output x ≡ Some (text x) };

    /// The bit length of the order, which is given.
    #[inline]
    final fn bits() -> usize
        requires { IsSome size }
        ensures { IfSome size (λ order. IsBitLength order result) }
    {
        match Self::order() {
            Some(order) => bit_length(order),
            None => unreachable!(),
        }
    }

    /// A square root of the value, in a field whose order is given, or `None`, as `tonelli_shanks`
    /// answers it. Upstream's `try_sqrt`.
    #[inline]
    final fn try_sqrt(&self) -> Option<Self>
        requires { IsSome size }
        ensures root { IfSome result (λ r. IsSquareRoot Self.ops self.now r) }
        ensures counted { (turns : ℕ) × CountedByGenerator Self.ops size generator self.now result turns }
    {
        tonelli_shanks(*self)
    }
}

/// The residues modulo an order, which need not be prime. Upstream's `PrimeField`.
pub trait PrimeField: Field
    + Quotient
    + QuotientMap<u8>
    + QuotientMap<u16>
    + QuotientMap<u32>
    + QuotientMap<u64>
    + QuotientMap<u128>
    + QuotientMap<usize>
    + QuotientMap<i8>
    + QuotientMap<i16>
    + QuotientMap<i32>
    + QuotientMap<i64>
    + QuotientMap<i128>
    + QuotientMap<isize> {
    /// The canonical value: the residue as a number from 0 to the order less one. Upstream's name
    /// stays, although orders are below 2^128 here.
    fn as_canonical_biguint(&self) -> u128
        ensures { result ≡ Self.canon self.now };

    /// There are as many values as the order says.
    ghost size_is_order: { Self.size ≡ Some Self.order };

    /// The canonical values are one to one onto the numbers below the order, and the operations
    /// are those of residues.
    ghost residues: { AreResidues Self.order Self.ops Self.canon };
}

/// A prime field whose order fits 64 bits. Upstream's `PrimeField64`.
pub trait PrimeField64: PrimeField {
    /// The order.
    const ORDER_U64: u64;

    ghost ORDER_U64: { ℕ };

    /// What `to_unique_u64` answers.
    ghost unique_u64: { Self → ℕ };

    /// The canonical value.
    fn as_canonical_u64(&self) -> u64
        ensures { result ≡ Self.canon self.now };

    /// A number that no other value has. It may be the word that is stored, and is cheap.
    fn to_unique_u64(&self) -> u64
        ensures { result ≡ unique_u64 self.now };

    ghost order_u64: { ORDER_U64 ≡ Self.order };

    /// Values with one number are one value.
    ghost same_unique_u64: { (x y : Self) → unique_u64 x ≡ unique_u64 y → x ≡ y };
}

/// A prime field whose order fits 32 bits. Upstream's `PrimeField32`.
pub trait PrimeField32: PrimeField64 {
    /// The order.
    const ORDER_U32: u32;

    ghost ORDER_U32: { ℕ };

    /// What `to_unique_u32` answers.
    ghost unique_u32: { Self → ℕ };

    /// The canonical value.
    fn as_canonical_u32(&self) -> u32
        ensures { result ≡ Self.canon self.now };

    /// A number that no other value has. It may be the word that is stored, and is cheap.
    fn to_unique_u32(&self) -> u32
        ensures { result ≡ unique_u32 self.now };

    ghost order_u32: { ORDER_U32 ≡ Self.order };

    /// Values with one number are one value.
    ghost same_unique_u32: { (x y : Self) → unique_u32 x ≡ unique_u32 y → x ≡ y };
}

/// A field with generators of its subgroups whose orders are powers of two, up to the two-adicity.
/// Upstream's `TwoAdicField`.
pub trait TwoAdicField: Field {
    /// The root of unity of order `2^bits` that `two_adic_generator` answers.
    ghost two_adic: { ℕ → Self };

    /// The greatest number of bits that a two-adic generator is given for.
    const TWO_ADICITY: usize;

    ghost TWO_ADICITY: { ℕ };

    /// A root of unity of order `2^bits`, for bits up to the two-adicity.
    fn two_adic_generator(bits: usize) -> Self
        requires { bits ≤ TWO_ADICITY }
        ensures { result ≡ two_adic bits };

    /// The generator for no bits is one, each one's square is the one before it, and the one for
    /// one bit is minus one.
    ghost generators: { AreTwoAdicGenerators Self.ops TWO_ADICITY two_adic };

    /// Two to the two-adicity divides the order less one, where the order is given.
    ghost divides_order: { DividesOrder TWO_ADICITY Self.size };
}
