//! The field: inverses, division, and the laws of a field, a prime field and a two-adic field.
ghost use Rattle.std.specs.Prelude.{◌≡◌, ◌≢◌, MatchOption, Some, refl};
ghost use Rattle.std.specs.Fmt.{decimal};
ghost use Rattle.p3_field.specs.Ring.{Invertible, IsInverse};
ghost use Rattle.example_mersenne31.specs.Elements.{canon, of, ops, is, same_word};
ghost use Rattle.example_mersenne31.specs.declared.words.TheConstants.{P};

use crate::value::Mersenne31;
use crate::words::P;
use p3_field::{
    Field, Inhabited, Packable, PrimeCharacteristicRing, PrimeField, PrimeField32, PrimeField64,
    TwoAdicField, inverse_modulo,
};
use std::ops::{Div, DivAssign};

/// An inverse of the value, and `None` exactly where it has none.
#[inline]
fn find_inverse(value: Mersenne31) -> Option<Mersenne31>
    ensures { MatchOption result ((y : Mersenne31) → ops.mul value y ≢ ops.one) (λ y. IsInverse ops value y) }
{
    match inverse_modulo(value.word as u64, P as u64) {
        Some(residue) => Some(Mersenne31::from_residue(residue)),
        None => None,
    }
}

impl Div for Mersenne31 {
    type Output = Self;

    ghost can_div = { λ x y. Invertible ops y };

    ghost div_gives = { λ x y r. ops.mul r y ≡ x };

    #[inline]
    fn div(self, other: Self) -> Self {
        self * find_inverse(other).unwrap()
    }
}

impl DivAssign for Mersenne31 {
    ghost can_div_assign = { λ x y. Invertible ops y };

    ghost div_assign_gives = { λ x y r. ops.mul r y ≡ x };

    #[inline]
    fn div_assign(&mut self, other: Self) {
        *self = *self / other;
    }
}

impl Inhabited for Mersenne31 {
    ghost inhabitant = { of 0 };
}

impl Packable for Mersenne31 {}

impl Field for Mersenne31 {
    ghost use Rattle.p3_field.specs.ValueLists.{values_where_given, values-residues};
    ghost use Rattle.p3_field.specs.ResidueInverses.{zero_is_not_one, same_where_equal};

    ghost text = { λ x. decimal (canon x) };

    ghost size = { Some P };

    ghost generator = { of 7 };

    const BENEFITS_FROM_LOCKSTEP_EVALUATION: bool = false;

    #[inline]
    fn generator() -> Self {
        Self::new(7)
    }

    #[inline]
    fn try_inverse(&self) -> Option<Self> {
        find_inverse(*self)
    }

    #[inline]
    fn order() -> Option<u128> {
        Some(P as u128)
    }

    ghost values = { values_where_given (values-residues is) };

    ghost zero_is_not_one = { zero_is_not_one is };

    ghost equals = { same_where_equal is };

    ghost can_divide = { λ x y h. h };

    ghost divides = { λ x y r h. h };

    ghost can_divide_assign = { λ x y h. h };

    ghost divide_assigns = { λ x y r h. h };

    ghost shows = { λ x. refl };
}

impl PrimeField for Mersenne31 {
    ghost use Rattle.p3_field.specs.Residues.{are_residues};

    #[inline]
    fn as_canonical_biguint(&self) -> u128 {
        self.word as u128
    }

    ghost size_is_order = { refl };

    ghost residues = { are_residues is };
}

impl PrimeField64 for Mersenne31 {
    const ORDER_U64: u64 = P as u64;

    ghost ORDER_U64 = { P };

    ghost unique_u64 = { canon };

    #[inline]
    fn as_canonical_u64(&self) -> u64 {
        self.word as u64
    }

    #[inline]
    fn to_unique_u64(&self) -> u64 {
        self.word as u64
    }

    ghost order_u64 = { refl };

    ghost same_unique_u64 = { same_word };
}

impl PrimeField32 for Mersenne31 {
    const ORDER_U32: u32 = P;

    ghost ORDER_U32 = { P };

    ghost unique_u32 = { canon };

    #[inline]
    fn as_canonical_u32(&self) -> u32 {
        self.word
    }

    #[inline]
    fn to_unique_u32(&self) -> u32 {
        self.word
    }

    ghost order_u32 = { refl };

    ghost same_unique_u32 = { same_word };
}

/// The order less one is twice an odd number, so one and minus one are all there is.
impl TwoAdicField for Mersenne31 {
    ghost use Rattle.p3_field.specs.TwoAdic.{repeated_squares};
    ghost use Rattle.p3_field.specs.ResidueGenerators.{residue_generators, divides_residue_order};

    ghost two_adic = { repeated_squares ops 1 (of 2147483646) };

    const TWO_ADICITY: usize = 1;

    ghost TWO_ADICITY = { 1 };

    #[inline]
    fn two_adic_generator(bits: usize) -> Self {
        Self::new(0x7fff_fffe).exp_power_of_2(1 - bits)
    }

    ghost generators = { residue_generators is 1 2147483646 refl };

    ghost divides_order = { divides_residue_order P 1 2147483646 refl };
}
