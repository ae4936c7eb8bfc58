//! Markers of rings with two-adic generators in which values other than zero have no inverse: residues of two composite
//! orders, and an extension of a field by a polynomial that is a product of two factors.
ghost use Rattle.std.specs.Prelude.{◌∷◌, [], codes, refl};
ghost use Rattle.std.proofs.Common.{lit<, lit≤};

use p3_prime_fields::binomial_constants::BinomialConstants;
use p3_prime_fields::form::{Modulus, ModulusOrder, Order};
use p3_prime_fields::two_adic::TwoAdicConstants;
use p3_prime_fields::two_adic_constants::TwoAdicBinomialConstants;

/// The marker of the order 27.
pub(crate) struct M27;

impl Order for M27 {
    ghost order = { 27 };

    ghost generator = { 2 };
}

impl Modulus for M27 {
    ghost ORDER = { 27 };

    ghost GENERATOR = { 2 };

    ghost above_one = { lit< tt };

    ghost fits = { lit< tt };

    const ORDER: u32 = 27;

    const GENERATOR: u32 = 2;
}

impl ModulusOrder for M27 {
    ghost same_order = { refl };

    ghost same_generator = { refl };
}

impl TwoAdicConstants for M27 {
    ghost TWO_ADICITY = { 1 };

    ghost TOP_GENERATOR = { 26 };

    const TWO_ADICITY: usize = 1;

    const TOP_GENERATOR: u64 = 26;

    ghost generates = { refl };

    ghost greatest = { refl };
}

/// The marker of the order 85, modulo which 13 squared is minus one.
pub(crate) struct M85;

impl Order for M85 {
    ghost order = { 85 };

    ghost generator = { 2 };
}

impl Modulus for M85 {
    ghost ORDER = { 85 };

    ghost GENERATOR = { 2 };

    ghost above_one = { lit< tt };

    ghost fits = { lit< tt };

    const ORDER: u32 = 85;

    const GENERATOR: u32 = 2;
}

impl ModulusOrder for M85 {
    ghost same_order = { refl };

    ghost same_generator = { refl };
}

impl TwoAdicConstants for M85 {
    ghost TWO_ADICITY = { 2 };

    ghost TOP_GENERATOR = { 13 };

    const TWO_ADICITY: usize = 2;

    const TOP_GENERATOR: u64 = 13;

    ghost generates = { refl };

    ghost greatest = { refl };
}

/// The marker of the order 17 whose extension of degree 2 is by `X^2 = 1`. The roots are 1 and 16.
pub(crate) struct SplitM17;

impl Order for SplitM17 {
    ghost order = { 17 };

    ghost generator = { 3 };
}

impl Modulus for SplitM17 {
    ghost ORDER = { 17 };

    ghost GENERATOR = { 3 };

    ghost above_one = { lit< tt };

    ghost fits = { lit< tt };

    const ORDER: u32 = 17;

    const GENERATOR: u32 = 3;
}

impl ModulusOrder for SplitM17 {
    ghost same_order = { refl };

    ghost same_generator = { refl };
}

impl BinomialConstants<2> for SplitM17 {
    ghost W = { 1 };

    ghost DTH_ROOT = { 16 };

    ghost inverses = { 8 ∷ [] };

    ghost ext_generator = { 0 ∷ 1 ∷ [] };

    ghost algebra_id = { codes "split:f17x2" };

    const W: u32 = 1;

    const DTH_ROOT: u32 = 16;

    fn algebra_id() -> &'static str {
        "split:f17x2"
    }

    fn ext_generator(i: usize) -> u32 {
        [0, 1][i]
    }

    ghost at_least_two = { lit≤ tt };

    ghost root_of_unity = { refl };
}

impl TwoAdicBinomialConstants<2> for SplitM17 {
    ghost generator_table = { (1 ∷ 0 ∷ []) ∷ (16 ∷ 0 ∷ []) ∷ (13 ∷ 0 ∷ []) ∷ [] };

    ghost EXT_TWO_ADICITY = { 2 };

    const EXT_TWO_ADICITY: usize = 2;

    fn ext_two_adic_generator(bits: usize, i: usize) -> u32 {
        [[1, 0], [16, 0], [13, 0]][bits][i]
    }

    ghost generators = { record { trivial = refl; squares = refl; minus_one = λ _. refl } };

    ghost divides_order = { (72, refl) };
}
