//! Laws of the calculator's fields and of the definitions that the contracts cite.

ghost use Rattle.std.specs.Prelude.{◌≡◌, ◌*◌, ◌%◌, ◌^◌, ℕ, List, Option, Some, codes, false, IfSome};
ghost use Rattle.std.specs.Io.KnownBytes.{Consumes, IsAtEnd};
ghost use Rattle.p3_theory.specs.Rings.Powers.{power};
ghost use Rattle.p3_theory.specs.Rings.ZeroDivisors.{HasNoZeroDivisors};
ghost use Rattle.p3_theory.specs.Roots.SquareRoots.{FiniteFieldPremise};
ghost use Rattle.p3_calculator_text.specs.Lines.{lines_of};
ghost use Rattle.p3_calculator.specs.Premise.{NameMeetsPremise};
ghost use Rattle.p3_calculator.specs.States.{no_field};
ghost use Rattle.p3_calculator.specs.Text.{RunEnds, IsText};
ghost use Rattle.p3_calculator.specs.SameTexts.{TakeNoRoots, AreOneFrom};

use p3_field_traits::field::{Field, PrimeField32, TwoAdicField};
use p3_integers::integers::Quotient;
use p3_prime_fields::baby_bear::BabyBear;
use p3_prime_fields::extensions::{F17x2, F31c};
use p3_prime_fields::small::{F2, F17, F31};
use p3_ring::ring::PrimeCharacteristicRing;

/// A product in the prime field of order 17 is zero only where a factor is.
pub fn domain_f17()
    ensures { HasNoZeroDivisors ⟦<F17 as PrimeCharacteristicRing>⟧.ops }
{}

/// A product in the prime field of order 31 is zero only where a factor is.
pub fn domain_f31()
    ensures { HasNoZeroDivisors ⟦<F31 as PrimeCharacteristicRing>⟧.ops }
{}

/// The finite-field premise of the prime field of order 2, at the generator to the power 1: the order less one is
/// `2^0 * 1`. The same at the greatest two-adic generator.
pub fn premise_f2()
    ensures order { ⟦<F2 as Field>⟧.size ≡ Some 2 }
    ensures premise { FiniteFieldPremise ⟦<F2 as PrimeCharacteristicRing>⟧.ops 2 0 1 (power ⟦<F2 as PrimeCharacteristicRing>⟧.ops ⟦<F2 as Field>⟧.generator 1) }
    ensures two_adicity { ⟦<F2 as TwoAdicField>⟧.TWO_ADICITY ≡ 0 }
    ensures two_adic { FiniteFieldPremise ⟦<F2 as PrimeCharacteristicRing>⟧.ops 2 0 1 (⟦<F2 as TwoAdicField>⟧.two_adic 0) }
{}

/// The finite-field premise of the prime field of order 17, at the generator to the power 1: the order less one is
/// `2^4 * 1`. The same at the greatest two-adic generator.
pub fn premise_f17()
    ensures order { ⟦<F17 as Field>⟧.size ≡ Some 17 }
    ensures premise { FiniteFieldPremise ⟦<F17 as PrimeCharacteristicRing>⟧.ops 17 4 1 (power ⟦<F17 as PrimeCharacteristicRing>⟧.ops ⟦<F17 as Field>⟧.generator 1) }
    ensures two_adicity { ⟦<F17 as TwoAdicField>⟧.TWO_ADICITY ≡ 4 }
    ensures two_adic { FiniteFieldPremise ⟦<F17 as PrimeCharacteristicRing>⟧.ops 17 4 1 (⟦<F17 as TwoAdicField>⟧.two_adic 4) }
{}

/// The finite-field premise of the prime field of order 31, at the generator to the power 15: the order less one is
/// `2^1 * 15`. The same at the greatest two-adic generator.
pub fn premise_f31()
    ensures order { ⟦<F31 as Field>⟧.size ≡ Some 31 }
    ensures premise { FiniteFieldPremise ⟦<F31 as PrimeCharacteristicRing>⟧.ops 31 1 15 (power ⟦<F31 as PrimeCharacteristicRing>⟧.ops ⟦<F31 as Field>⟧.generator 15) }
    ensures two_adicity { ⟦<F31 as TwoAdicField>⟧.TWO_ADICITY ≡ 1 }
    ensures two_adic { FiniteFieldPremise ⟦<F31 as PrimeCharacteristicRing>⟧.ops 31 1 15 (⟦<F31 as TwoAdicField>⟧.two_adic 1) }
{}

/// The finite-field premise of the extension of `F17` by `X^2 = 3`, at the generator to the power 9: the order less one is
/// `2^5 * 9`. The same at the greatest two-adic generator.
pub fn premise_f17x2()
    ensures order { ⟦<F17x2 as Field>⟧.size ≡ Some 289 }
    ensures premise { FiniteFieldPremise ⟦<F17x2 as PrimeCharacteristicRing>⟧.ops 289 5 9 (power ⟦<F17x2 as PrimeCharacteristicRing>⟧.ops ⟦<F17x2 as Field>⟧.generator 9) }
    ensures two_adicity { ⟦<F17x2 as TwoAdicField>⟧.TWO_ADICITY ≡ 5 }
    ensures two_adic { FiniteFieldPremise ⟦<F17x2 as PrimeCharacteristicRing>⟧.ops 289 5 9 (⟦<F17x2 as TwoAdicField>⟧.two_adic 5) }
{}

/// The finite-field premise of the complex values over `F31`, at the generator to the power 15: the order less one is
/// `2^6 * 15`.
pub fn premise_f31c()
    ensures order { ⟦<F31c as Field>⟧.size ≡ Some 961 }
    ensures premise { FiniteFieldPremise ⟦<F31c as PrimeCharacteristicRing>⟧.ops 961 6 15 (power ⟦<F31c as PrimeCharacteristicRing>⟧.ops ⟦<F31c as Field>⟧.generator 15) }
{}

/// The numbers of `f2` as they stand meet the premise of a finite field, over coefficient lists. So a
/// root that is missing there is a fault only where there is none.
pub fn specification_f2_meets_the_premise()
    ensures { NameMeetsPremise (codes "f2") }
{
    premise_f2();
}

/// The numbers of `f17` as they stand meet the premise of a finite field, over coefficient lists. So a
/// root that is missing there is a fault only where there is none.
pub fn specification_f17_meets_the_premise()
    ensures { NameMeetsPremise (codes "f17") }
{
    premise_f17();
}

/// The numbers of `f31` as they stand meet the premise of a finite field, over coefficient lists. So a
/// root that is missing there is a fault only where there is none.
pub fn specification_f31_meets_the_premise()
    ensures { NameMeetsPremise (codes "f31") }
{
    premise_f31();
}

/// The numbers of `f17x2` as they stand meet the premise of a finite field, over coefficient lists. So a
/// root that is missing there is a fault only where there is none.
pub fn specification_f17x2_meets_the_premise()
    ensures { NameMeetsPremise (codes "f17x2") }
{
    premise_f17x2();
}

/// The numbers of `f31c` as they stand meet the premise of a finite field, over coefficient lists. So a
/// root that is missing there is a fault only where there is none.
pub fn specification_f31c_meets_the_premise()
    ensures { NameMeetsPremise (codes "f31c") }
{
    premise_f31c();
}

/// BabyBear stands in Montgomery's form: the stored word is the canonical value times 2^32 modulo the order.
pub fn baby_bear_is_in_montgomery_form(x: BabyBear)
    ensures { ⟦<BabyBear as PrimeField32>⟧.unique_u32 x ≡ (⟦<BabyBear as Quotient>⟧.canon x * 2 ^ 32) % 2013265921 }
{
    let _ = x;
}

/// The texts of the calculator are defined for every input.
pub fn every_input_has_a_text()
    ensures { (bytes : List ℕ) → (text : List ℕ) × (status : ℕ) × IsText (lines_of bytes) text status }
{}

/// Lines that take no square root have one text and status, whoever computes them. Only refused memory
/// makes two: then one of them ends with fault 8 where the other one goes on.
pub fn a_text_without_roots_is_one()
    ensures { (lines : List (List ℕ)) (a b : List ℕ) (s t : ℕ) → TakeNoRoots lines → IsText lines a s → IsText lines b t
        → AreOneFrom 1 no_field lines a s b t }
{}

/// Where the reader tells its bytes and nothing failed, the text is one of the whole input.
pub fn a_complete_text_is_of_the_whole_input()
    ensures { (old new : Option (List ℕ)) (bytes text : List ℕ) (status : ℕ) → Consumes old new bytes
        → RunEnds false false (IsAtEnd new) bytes text status → IfSome old (λ input. IsText (lines_of input) text status) }
{}
