//! The two-adic generators of the extensions of the bench fields.
ghost use Rattle.std.specs.Prelude.{[], ◌∷◌, refl};
ghost use Rattle.std.proofs.Common.{arith};

use crate::small::{M2, M17, M31};
use crate::two_adic_constants::{TwoAdicBinomialConstants, TwoAdicPolynomialConstants};
use p3_extension::extension::{Cubic, Quintic, Septic};

impl TwoAdicBinomialConstants<2> for M17 {
    ghost generator_table = { (1 ∷ 0 ∷ []) ∷ (16 ∷ 0 ∷ []) ∷ (13 ∷ 0 ∷ []) ∷ (9 ∷ 0 ∷ []) ∷ (3 ∷ 0 ∷ []) ∷ (0 ∷ 1 ∷ []) ∷ [] };

    ghost EXT_TWO_ADICITY = { 5 };

    const EXT_TWO_ADICITY: usize = 5;

    #[inline]
    fn ext_two_adic_generator(bits: usize, i: usize) -> u32 {
        [[1, 0], [16, 0], [13, 0], [9, 0], [3, 0], [0, 1]][bits][i]
    }

    ghost generators = { record { trivial = refl; squares = refl; minus_one = λ _. refl } };

    ghost divides_order = { (9, refl) };
}

impl TwoAdicBinomialConstants<4> for M17 {
    ghost generator_table = { (1 ∷ 0 ∷ 0 ∷ 0 ∷ []) ∷ (16 ∷ 0 ∷ 0 ∷ 0 ∷ []) ∷ (13 ∷ 0 ∷ 0 ∷ 0 ∷ []) ∷ (9 ∷ 0 ∷ 0 ∷ 0 ∷ []) ∷ (3 ∷ 0 ∷ 0 ∷ 0 ∷ []) ∷ (0 ∷ 0 ∷ 1 ∷ 0 ∷ []) ∷ (0 ∷ 1 ∷ 0 ∷ 0 ∷ []) ∷ [] };

    ghost EXT_TWO_ADICITY = { 6 };

    const EXT_TWO_ADICITY: usize = 6;

    #[inline]
    fn ext_two_adic_generator(bits: usize, i: usize) -> u32 {
        [
            [1, 0, 0, 0],
            [16, 0, 0, 0],
            [13, 0, 0, 0],
            [9, 0, 0, 0],
            [3, 0, 0, 0],
            [0, 0, 1, 0],
            [0, 1, 0, 0],
        ][bits][i]
    }

    ghost generators = { record { trivial = refl; squares = refl; minus_one = λ _. refl } };

    ghost divides_order = { (1305, refl) };
}

impl TwoAdicBinomialConstants<8> for M17 {
    ghost generator_table = { (1 ∷ 0 ∷ 0 ∷ 0 ∷ 0 ∷ 0 ∷ 0 ∷ 0 ∷ []) ∷ (16 ∷ 0 ∷ 0 ∷ 0 ∷ 0 ∷ 0 ∷ 0 ∷ 0 ∷ []) ∷ (13 ∷ 0 ∷ 0 ∷ 0 ∷ 0 ∷ 0 ∷ 0 ∷ 0 ∷ []) ∷ (9 ∷ 0 ∷ 0 ∷ 0 ∷ 0 ∷ 0 ∷ 0 ∷ 0 ∷ []) ∷ (3 ∷ 0 ∷ 0 ∷ 0 ∷ 0 ∷ 0 ∷ 0 ∷ 0 ∷ []) ∷ (0 ∷ 0 ∷ 0 ∷ 0 ∷ 1 ∷ 0 ∷ 0 ∷ 0 ∷ []) ∷ (0 ∷ 0 ∷ 1 ∷ 0 ∷ 0 ∷ 0 ∷ 0 ∷ 0 ∷ []) ∷ (0 ∷ 1 ∷ 0 ∷ 0 ∷ 0 ∷ 0 ∷ 0 ∷ 0 ∷ []) ∷ [] };

    ghost EXT_TWO_ADICITY = { 7 };

    const EXT_TWO_ADICITY: usize = 7;

    #[inline]
    fn ext_two_adic_generator(bits: usize, i: usize) -> u32 {
        [
            [1, 0, 0, 0, 0, 0, 0, 0],
            [16, 0, 0, 0, 0, 0, 0, 0],
            [13, 0, 0, 0, 0, 0, 0, 0],
            [9, 0, 0, 0, 0, 0, 0, 0],
            [3, 0, 0, 0, 0, 0, 0, 0],
            [0, 0, 0, 0, 1, 0, 0, 0],
            [0, 0, 1, 0, 0, 0, 0, 0],
            [0, 1, 0, 0, 0, 0, 0, 0],
        ][bits][i]
    }

    ghost generators = { record { trivial = refl; squares = refl; minus_one = λ _. refl } };

    ghost divides_order = { (54498105, refl) };
}

impl TwoAdicPolynomialConstants<3, Cubic> for M31 {
    ghost generator_table = { (1 ∷ 0 ∷ 0 ∷ []) ∷ (30 ∷ 0 ∷ 0 ∷ []) ∷ [] };

    ghost EXT_TWO_ADICITY = { 1 };

    const EXT_TWO_ADICITY: usize = 1;

    #[inline]
    fn ext_two_adic_generator(bits: usize, i: usize) -> u32 {
        [[1, 0, 0], [30, 0, 0]][bits][i]
    }

    ghost generators = { record { trivial = refl; squares = refl; minus_one = λ _. refl } };

    ghost divides_order = { (14895, refl) };
}

impl TwoAdicPolynomialConstants<5, Quintic> for M17 {
    ghost generator_table = { (1 ∷ 0 ∷ 0 ∷ 0 ∷ 0 ∷ []) ∷ (16 ∷ 0 ∷ 0 ∷ 0 ∷ 0 ∷ []) ∷ (13 ∷ 0 ∷ 0 ∷ 0 ∷ 0 ∷ []) ∷ (9 ∷ 0 ∷ 0 ∷ 0 ∷ 0 ∷ []) ∷ (3 ∷ 0 ∷ 0 ∷ 0 ∷ 0 ∷ []) ∷ [] };

    ghost EXT_TWO_ADICITY = { 4 };

    const EXT_TWO_ADICITY: usize = 4;

    #[inline]
    fn ext_two_adic_generator(bits: usize, i: usize) -> u32 {
        [
            [1, 0, 0, 0, 0],
            [16, 0, 0, 0, 0],
            [13, 0, 0, 0, 0],
            [9, 0, 0, 0, 0],
            [3, 0, 0, 0, 0],
        ][bits][i]
    }

    ghost generators = { record { trivial = refl; squares = refl; minus_one = λ _. refl } };

    ghost divides_order = { (88741, refl) };
}

impl TwoAdicPolynomialConstants<5, Quintic> for M2 {
    ghost generator_table = { (1 ∷ 0 ∷ 0 ∷ 0 ∷ 0 ∷ []) ∷ [] };

    ghost EXT_TWO_ADICITY = { 0 };

    const EXT_TWO_ADICITY: usize = 0;

    #[inline]
    fn ext_two_adic_generator(bits: usize, i: usize) -> u32 {
        [[1, 0, 0, 0, 0]][bits][i]
    }

    ghost generators = { record { trivial = refl; squares = refl; minus_one = λ none. absurd (omega (arith, none)) } };

    ghost divides_order = { (31, refl) };
}

impl TwoAdicPolynomialConstants<7, Septic> for M2 {
    ghost generator_table = { (1 ∷ 0 ∷ 0 ∷ 0 ∷ 0 ∷ 0 ∷ 0 ∷ []) ∷ [] };

    ghost EXT_TWO_ADICITY = { 0 };

    const EXT_TWO_ADICITY: usize = 0;

    #[inline]
    fn ext_two_adic_generator(bits: usize, i: usize) -> u32 {
        [[1, 0, 0, 0, 0, 0, 0]][bits][i]
    }

    ghost generators = { record { trivial = refl; squares = refl; minus_one = λ none. absurd (omega (arith, none)) } };

    ghost divides_order = { (127, refl) };
}
