//! Two-adic generators of the prime fields: from the top generator as a number to all laws.
ghost use Rattle.std.specs.Prelude.{◌≡◌, ◌+◌, ◌-◌, ◌%◌, ◌^◌, ℕ, true, refl};
ghost use Rattle.p3_theory.specs.ResidueRings.ResidueGenerators.{ArePowersOf, is_two_adic_generator, top_generator};

use crate::baby_bear::BabyBearModulus;
use crate::form::{Order, OverModulus, Word};
use crate::fp::Fp;
use crate::koala_bear::KoalaBearModulus;
use crate::small::{M2, M15, M17, M17b, M31};
use p3_field_traits::field::TwoAdicField;
use p3_ring::ring::PrimeCharacteristicRing;

/// A two-adic field whose two-adic generators are powers of its `generator`. This project's own.
pub trait TwoAdicPowers: TwoAdicField {
    /// For n values the generator for so many bits is the power `(n - 1) / 2^bits`.
    ghost powers: { ArePowersOf Self.ops Self.generator Self.size Self.TWO_ADICITY Self.two_adic };
}

/// The two-adicity and the top generator, as numbers, for the marker of an order. It stands for what
/// upstream writes in each impl of `TwoAdicField`.
pub trait TwoAdicConstants: Order {
    ghost TWO_ADICITY: { ℕ };

    ghost TOP_GENERATOR: { ℕ };

    /// The greatest number of bits that a two-adic generator is given for.
    const TWO_ADICITY: usize;

    /// The two-adic generator for that many bits.
    const TOP_GENERATOR: u64;

    /// The top generator, squared once less than the two-adicity says, is minus one, and two to
    /// the two-adicity divides the order less one.
    ghost generates: { is_two_adic_generator Self.order TWO_ADICITY TOP_GENERATOR ≡ true };

    /// The next power of two doesn't divide it: half of that power is left.
    ghost greatest: { (Self.order - 1) % 2 ^ (TWO_ADICITY + 1) ≡ 2 ^ TWO_ADICITY };
}

/// Constants whose top generator is a power of the field's `generator`.
pub trait TopPowerConstants: TwoAdicConstants {
    /// It is the power `(order - 1) / 2^TWO_ADICITY`.
    ghost top_power: { Self.TOP_GENERATOR ≡ top_generator Self.order Self.TWO_ADICITY Self.generator };
}

impl<W: OverModulus<T>, T: Word> TwoAdicField for Fp<W, T>
where
    W::Modulus: TwoAdicConstants,
{
    ghost use Rattle.std.proofs.Common.{subst};
    ghost use Rattle.p3_theory.specs.Roots.TwoAdic.{repeated_squares};
    ghost use Rattle.p3_theory.specs.ResidueRings.ResidueGenerators.{residue_generators, divides_residue_order};
    ghost use Rattle.p3_prime_fields.specs.Elements.{of, ops, is};

    ghost two_adic = { repeated_squares (ops W.Form) W.Modulus.TWO_ADICITY (of W.Form W.Modulus.TOP_GENERATOR) };

    const TWO_ADICITY: usize = <W::Modulus>::TWO_ADICITY;

    ghost TWO_ADICITY = { W.Modulus.TWO_ADICITY };

    #[inline]
    fn two_adic_generator(bits: usize) -> Self {
        let top = Self::residue_of(<W::Modulus>::TOP_GENERATOR);
        top.exp_power_of_2(<W::Modulus>::TWO_ADICITY - bits)
    }

    ghost generators = { residue_generators (is W.Form) W.Modulus.TWO_ADICITY W.Modulus.TOP_GENERATOR (subst (λ n. is_two_adic_generator n W.Modulus.TWO_ADICITY W.Modulus.TOP_GENERATOR ≡ true) W.same_order W.Modulus.generates) };

    ghost divides_order = { divides_residue_order W.ORDER W.Modulus.TWO_ADICITY W.Modulus.TOP_GENERATOR (subst (λ n. is_two_adic_generator n W.Modulus.TWO_ADICITY W.Modulus.TOP_GENERATOR ≡ true) W.same_order W.Modulus.generates) };
}

impl<W: OverModulus<T>, T: Word> TwoAdicPowers for Fp<W, T>
where
    W::Modulus: TopPowerConstants,
{
    ghost use Rattle.std.proofs.Common.{subst, ap₂, ◌∙◌};
    ghost use Rattle.p3_theory.specs.ResidueRings.ResidueGenerators.{generator_powers};
    ghost use Rattle.p3_prime_fields.specs.Elements.{is};

    ghost powers = { generator_powers (is W.Form) W.Modulus.TWO_ADICITY W.GENERATOR W.Modulus.TOP_GENERATOR (subst (λ n. is_two_adic_generator n W.Modulus.TWO_ADICITY W.Modulus.TOP_GENERATOR ≡ true) W.same_order W.Modulus.generates) W.is_form.fits (W.Modulus.top_power ∙ ap₂ (λ n r. top_generator n W.Modulus.TWO_ADICITY r) W.same_order W.same_generator) };
}

impl TwoAdicConstants for M2 {
    ghost TWO_ADICITY = { 0 };

    ghost TOP_GENERATOR = { 1 };

    const TWO_ADICITY: usize = 0;

    const TOP_GENERATOR: u64 = 1;

    ghost generates = { refl };

    ghost greatest = { refl };
}

impl TopPowerConstants for M2 {
    ghost top_power = { refl };
}

impl TwoAdicConstants for M17 {
    ghost TWO_ADICITY = { 4 };

    ghost TOP_GENERATOR = { 3 };

    const TWO_ADICITY: usize = 4;

    const TOP_GENERATOR: u64 = 3;

    ghost generates = { refl };

    ghost greatest = { refl };
}

impl TopPowerConstants for M17 {
    ghost top_power = { refl };
}

impl TwoAdicConstants for M17b {
    ghost TWO_ADICITY = { 4 };

    ghost TOP_GENERATOR = { 3 };

    const TWO_ADICITY: usize = 4;

    const TOP_GENERATOR: u64 = 3;

    ghost generates = { refl };

    ghost greatest = { refl };
}

impl TopPowerConstants for M17b {
    ghost top_power = { refl };
}

impl TwoAdicConstants for M31 {
    ghost TWO_ADICITY = { 1 };

    ghost TOP_GENERATOR = { 30 };

    const TWO_ADICITY: usize = 1;

    const TOP_GENERATOR: u64 = 30;

    ghost generates = { refl };

    ghost greatest = { refl };
}

impl TopPowerConstants for M31 {
    ghost top_power = { refl };
}

/// The top generator is minus one: the residues modulo 15 are no field, and the power 7 of their
/// `generator` is another root.
impl TwoAdicConstants for M15 {
    ghost TWO_ADICITY = { 1 };

    ghost TOP_GENERATOR = { 14 };

    const TWO_ADICITY: usize = 1;

    const TOP_GENERATOR: u64 = 14;

    ghost generates = { refl };

    ghost greatest = { refl };
}

impl TwoAdicConstants for BabyBearModulus {
    ghost TWO_ADICITY = { 27 };

    ghost TOP_GENERATOR = { 440564289 };

    const TWO_ADICITY: usize = 27;

    const TOP_GENERATOR: u64 = 440564289;

    ghost generates = { refl };

    ghost greatest = { refl };
}

impl TopPowerConstants for BabyBearModulus {
    ghost top_power = { refl };
}

impl TwoAdicConstants for KoalaBearModulus {
    ghost TWO_ADICITY = { 24 };

    ghost TOP_GENERATOR = { 1791270792 };

    const TWO_ADICITY: usize = 24;

    const TOP_GENERATOR: u64 = 1791270792;

    ghost generates = { refl };

    ghost greatest = { refl };
}

impl TopPowerConstants for KoalaBearModulus {
    ghost top_power = { refl };
}
