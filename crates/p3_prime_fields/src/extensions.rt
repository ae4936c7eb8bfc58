//! The extensions of the bench fields.
ghost use Rattle.std.specs.Prelude.{◌≡◌, [], ◌∷◌, codes, refl};
ghost use Rattle.std.proofs.Common.{lit≤, lit<};
ghost use Rattle.p3_prime_fields.specs.ComplexNumbers.{complex_of};
ghost use Rattle.p3_prime_fields.specs.Elements.{of};

use crate::baby_bear::{BabyBear, BabyBearModulus};
use crate::binomial_constants::BinomialConstants;
use crate::form::{Form, Plain, ShortForm};
use crate::fp::Fp;
use crate::polynomial_constants::PolynomialConstants;
use crate::small::{F2, F17, F17b, F31, M2, M15, M17, M17b, M31, Z15};
use p3_extension::extension::{
    BinomialExtensionField, ByteCountFits, Complex, ComplexExtendable, Cubic,
    CubicTrinomialExtensionField, NestedByteCountFits, Quintic, QuinticTrinomialExtensionField,
    Septic, SepticTrinomialExtensionField,
};

/// The extension of `F17` by `X^2 = 3`.
pub type F17x2 = BinomialExtensionField<F17, 2>;

impl BinomialConstants<2> for M17 {
    ghost W = { 3 };

    ghost DTH_ROOT = { 16 };

    ghost inverses = { 8 ∷ [] };

    ghost ext_generator = { 1 ∷ 2 ∷ [] };

    ghost algebra_id = { codes "bench:f17x2" };

    const W: u32 = 3;

    const DTH_ROOT: u32 = 16;

    #[inline]
    fn algebra_id() -> &'static str {
        "bench:f17x2"
    }

    #[inline]
    fn ext_generator(i: usize) -> u32 {
        [1, 2][i]
    }

    ghost at_least_two = { lit≤ tt };

    ghost root_of_unity = { refl };
}

/// The extension of `F17` by `X^4 = 3`.
pub type F17x4 = BinomialExtensionField<F17, 4>;

impl BinomialConstants<4> for M17 {
    ghost W = { 3 };

    ghost DTH_ROOT = { 13 };

    ghost inverses = { 10 ∷ 8 ∷ 6 ∷ [] };

    ghost ext_generator = { 0 ∷ 1 ∷ 0 ∷ 0 ∷ [] };

    ghost algebra_id = { codes "bench:f17x4" };

    const W: u32 = 3;

    const DTH_ROOT: u32 = 13;

    #[inline]
    fn algebra_id() -> &'static str {
        "bench:f17x4"
    }

    #[inline]
    fn ext_generator(i: usize) -> u32 {
        [0, 1, 0, 0][i]
    }

    ghost at_least_two = { lit≤ tt };

    ghost root_of_unity = { refl };
}

/// The extension of `F17` by `X^8 = 3`.
pub type F17x8 = BinomialExtensionField<F17, 8>;

impl BinomialConstants<8> for M17 {
    ghost W = { 3 };

    ghost DTH_ROOT = { 9 };

    ghost inverses = { 15 ∷ 10 ∷ 11 ∷ 8 ∷ 5 ∷ 6 ∷ 1 ∷ [] };

    ghost ext_generator = { 0 ∷ 1 ∷ 0 ∷ 0 ∷ 0 ∷ 0 ∷ 0 ∷ 0 ∷ [] };

    ghost algebra_id = { codes "bench:f17x8" };

    const W: u32 = 3;

    const DTH_ROOT: u32 = 9;

    #[inline]
    fn algebra_id() -> &'static str {
        "bench:f17x8"
    }

    #[inline]
    fn ext_generator(i: usize) -> u32 {
        [0, 1, 0, 0, 0, 0, 0, 0][i]
    }

    ghost at_least_two = { lit≤ tt };

    ghost root_of_unity = { refl };
}

/// The extension of `F17b` by `X^2 = 4`. 4 is the square of 2, so values such as `2 + X` have no inverse.
pub type F17bx2 = BinomialExtensionField<F17b, 2>;

impl BinomialConstants<2> for M17b {
    ghost W = { 4 };

    ghost DTH_ROOT = { 16 };

    ghost inverses = { 8 ∷ [] };

    ghost ext_generator = { 0 ∷ 1 ∷ [] };

    ghost algebra_id = { codes "bench:f17bx2" };

    const W: u32 = 4;

    const DTH_ROOT: u32 = 16;

    #[inline]
    fn algebra_id() -> &'static str {
        "bench:f17bx2"
    }

    #[inline]
    fn ext_generator(i: usize) -> u32 {
        [0, 1][i]
    }

    ghost at_least_two = { lit≤ tt };

    ghost root_of_unity = { refl };
}

/// The extension of `Z15` by `X^2 = 2`. The order of the base is composite.
pub type Z15x2 = BinomialExtensionField<Z15, 2>;

impl BinomialConstants<2> for M15 {
    ghost W = { 2 };

    ghost DTH_ROOT = { 14 };

    ghost inverses = { 7 ∷ [] };

    ghost ext_generator = { 0 ∷ 1 ∷ [] };

    ghost algebra_id = { codes "bench:z15x2" };

    const W: u32 = 2;

    const DTH_ROOT: u32 = 14;

    #[inline]
    fn algebra_id() -> &'static str {
        "bench:z15x2"
    }

    #[inline]
    fn ext_generator(i: usize) -> u32 {
        [0, 1][i]
    }

    ghost at_least_two = { lit≤ tt };

    ghost root_of_unity = { refl };
}

/// The extension of `F31` by `X^3 = 3`.
pub type F31x3 = BinomialExtensionField<F31, 3>;

impl BinomialConstants<3> for M31 {
    ghost W = { 3 };

    ghost DTH_ROOT = { 25 };

    ghost inverses = { 22 ∷ 8 ∷ [] };

    ghost ext_generator = { 0 ∷ 1 ∷ 0 ∷ [] };

    ghost algebra_id = { codes "bench:f31x3" };

    const W: u32 = 3;

    const DTH_ROOT: u32 = 25;

    #[inline]
    fn algebra_id() -> &'static str {
        "bench:f31x3"
    }

    #[inline]
    fn ext_generator(i: usize) -> u32 {
        [0, 1, 0][i]
    }

    ghost at_least_two = { lit≤ tt };

    ghost root_of_unity = { refl };
}

/// The extension of `F31` by `X^5 = 3`.
pub type F31x5 = BinomialExtensionField<F31, 5>;

impl BinomialConstants<5> for M31 {
    ghost W = { 3 };

    ghost DTH_ROOT = { 16 };

    ghost inverses = { 29 ∷ 9 ∷ 21 ∷ 1 ∷ [] };

    ghost ext_generator = { 0 ∷ 1 ∷ 0 ∷ 0 ∷ 0 ∷ [] };

    ghost algebra_id = { codes "bench:f31x5" };

    const W: u32 = 3;

    const DTH_ROOT: u32 = 16;

    #[inline]
    fn algebra_id() -> &'static str {
        "bench:f31x5"
    }

    #[inline]
    fn ext_generator(i: usize) -> u32 {
        [0, 1, 0, 0, 0][i]
    }

    ghost at_least_two = { lit≤ tt };

    ghost root_of_unity = { refl };
}

/// The extension of `F31` by `X^6 = 3`.
pub type F31x6 = BinomialExtensionField<F31, 6>;

impl BinomialConstants<6> for M31 {
    ghost W = { 3 };

    ghost DTH_ROOT = { 26 };

    ghost inverses = { 5 ∷ 22 ∷ 15 ∷ 8 ∷ 25 ∷ [] };

    ghost ext_generator = { 1 ∷ 0 ∷ 0 ∷ 1 ∷ 0 ∷ 0 ∷ [] };

    ghost algebra_id = { codes "bench:f31x6" };

    const W: u32 = 3;

    const DTH_ROOT: u32 = 26;

    #[inline]
    fn algebra_id() -> &'static str {
        "bench:f31x6"
    }

    #[inline]
    fn ext_generator(i: usize) -> u32 {
        [1, 0, 0, 1, 0, 0][i]
    }

    ghost at_least_two = { lit≤ tt };

    ghost root_of_unity = { refl };
}

/// The extension of `BabyBear` by `X^4 = 31`.
pub type BabyBearx4 = BinomialExtensionField<BabyBear, 4>;

impl BinomialConstants<4> for BabyBearModulus {
    ghost W = { 31 };

    ghost DTH_ROOT = { 1728404513 };

    ghost inverses = { 1149063664 ∷ 1006632960 ∷ 864202256 ∷ [] };

    ghost ext_generator = { 0 ∷ 1 ∷ 0 ∷ 0 ∷ [] };

    ghost algebra_id = { codes "bench:bbx4" };

    const W: u32 = 31;

    /// 31 to the power (p - 1) / 4 modulo the order p: the generator of the roots of unity of order 4.
    const DTH_ROOT: u32 = 1728404513;

    #[inline]
    fn algebra_id() -> &'static str {
        "bench:bbx4"
    }

    #[inline]
    fn ext_generator(i: usize) -> u32 {
        [0, 1, 0, 0][i]
    }

    ghost at_least_two = { lit≤ tt };

    ghost root_of_unity = { refl };
}

/// The extension of `F31` by `X^3 = X + 1`.
pub type F31t3 = CubicTrinomialExtensionField<F31>;

impl PolynomialConstants<3, Cubic> for M31 {
    ghost image = { 27 ∷ 6 ∷ 6 ∷ [] };

    ghost powers = { (1 ∷ 0 ∷ 0 ∷ []) ∷ (27 ∷ 6 ∷ 6 ∷ []) ∷ (26 ∷ 29 ∷ 24 ∷ []) ∷ [] };

    ghost dual = { (30 ∷ 18 ∷ 0 ∷ []) ∷ (13 ∷ 29 ∷ 0 ∷ []) ∷ [] };

    ghost ext_generator = { 3 ∷ 0 ∷ 0 ∷ [] };

    #[inline]
    fn power_of_image(j: usize, k: usize) -> u32 {
        [[1, 0, 0], [27, 6, 6], [26, 29, 24]][j][k]
    }

    #[inline]
    fn ext_generator(i: usize) -> u32 {
        [3, 0, 0][i]
    }

    ghost table = { record { width = refl; rows = refl; root = refl; order = refl; apart = refl } };
}

/// The extension of `F17` by `X^5 = 1 - X^2`.
pub type F17t5 = QuinticTrinomialExtensionField<F17>;

impl PolynomialConstants<5, Quintic> for M17 {
    ghost image = { 1 ∷ 3 ∷ 0 ∷ 13 ∷ 14 ∷ [] };

    ghost powers = { (1 ∷ 0 ∷ 0 ∷ 0 ∷ 0 ∷ []) ∷ (1 ∷ 3 ∷ 0 ∷ 13 ∷ 14 ∷ []) ∷ (8 ∷ 5 ∷ 9 ∷ 2 ∷ 14 ∷ []) ∷ (7 ∷ 11 ∷ 14 ∷ 7 ∷ 4 ∷ []) ∷ (10 ∷ 13 ∷ 7 ∷ 11 ∷ 14 ∷ []) ∷ [] };

    ghost dual = { (0 ∷ 14 ∷ 1 ∷ 0 ∷ 9 ∷ []) ∷ (2 ∷ 12 ∷ 13 ∷ 0 ∷ 3 ∷ []) ∷ (5 ∷ 8 ∷ 16 ∷ 0 ∷ 7 ∷ []) ∷ (12 ∷ 14 ∷ 14 ∷ 0 ∷ 2 ∷ []) ∷ [] };

    ghost ext_generator = { 3 ∷ 0 ∷ 0 ∷ 0 ∷ 0 ∷ [] };

    #[inline]
    fn power_of_image(j: usize, k: usize) -> u32 {
        [
            [1, 0, 0, 0, 0],
            [1, 3, 0, 13, 14],
            [8, 5, 9, 2, 14],
            [7, 11, 14, 7, 4],
            [10, 13, 7, 11, 14],
        ][j][k]
    }

    #[inline]
    fn ext_generator(i: usize) -> u32 {
        [3, 0, 0, 0, 0][i]
    }

    ghost table = { record { width = refl; rows = refl; root = refl; order = refl; apart = refl } };
}

/// The extension of `F2` by `X^5 = 1 - X^2`.
pub type F2t5 = QuinticTrinomialExtensionField<F2>;

impl PolynomialConstants<5, Quintic> for M2 {
    ghost image = { 0 ∷ 0 ∷ 1 ∷ 0 ∷ 0 ∷ [] };

    ghost powers = { (1 ∷ 0 ∷ 0 ∷ 0 ∷ 0 ∷ []) ∷ (0 ∷ 0 ∷ 1 ∷ 0 ∷ 0 ∷ []) ∷ (0 ∷ 0 ∷ 0 ∷ 0 ∷ 1 ∷ []) ∷ (0 ∷ 1 ∷ 0 ∷ 1 ∷ 0 ∷ []) ∷ (1 ∷ 0 ∷ 1 ∷ 1 ∷ 0 ∷ []) ∷ [] };

    ghost dual = { (0 ∷ 0 ∷ 1 ∷ 0 ∷ 1 ∷ []) ∷ (1 ∷ 0 ∷ 0 ∷ 0 ∷ 1 ∷ []) ∷ (0 ∷ 1 ∷ 1 ∷ 0 ∷ 1 ∷ []) ∷ (1 ∷ 0 ∷ 0 ∷ 0 ∷ 0 ∷ []) ∷ [] };

    ghost ext_generator = { 0 ∷ 1 ∷ 0 ∷ 0 ∷ 0 ∷ [] };

    #[inline]
    fn power_of_image(j: usize, k: usize) -> u32 {
        [
            [1, 0, 0, 0, 0],
            [0, 0, 1, 0, 0],
            [0, 0, 0, 0, 1],
            [0, 1, 0, 1, 0],
            [1, 0, 1, 1, 0],
        ][j][k]
    }

    #[inline]
    fn ext_generator(i: usize) -> u32 {
        [0, 1, 0, 0, 0][i]
    }

    ghost table = { record { width = refl; rows = refl; root = refl; order = refl; apart = refl } };
}

/// The extension of `F2` by `X^7 = X + 1`.
pub type F2t7 = SepticTrinomialExtensionField<F2>;

impl PolynomialConstants<7, Septic> for M2 {
    ghost image = { 0 ∷ 0 ∷ 1 ∷ 0 ∷ 0 ∷ 0 ∷ 0 ∷ [] };

    ghost powers = { (1 ∷ 0 ∷ 0 ∷ 0 ∷ 0 ∷ 0 ∷ 0 ∷ []) ∷ (0 ∷ 0 ∷ 1 ∷ 0 ∷ 0 ∷ 0 ∷ 0 ∷ []) ∷ (0 ∷ 0 ∷ 0 ∷ 0 ∷ 1 ∷ 0 ∷ 0 ∷ []) ∷ (0 ∷ 0 ∷ 0 ∷ 0 ∷ 0 ∷ 0 ∷ 1 ∷ []) ∷ (0 ∷ 1 ∷ 1 ∷ 0 ∷ 0 ∷ 0 ∷ 0 ∷ []) ∷ (0 ∷ 0 ∷ 0 ∷ 1 ∷ 1 ∷ 0 ∷ 0 ∷ []) ∷ (0 ∷ 0 ∷ 0 ∷ 0 ∷ 0 ∷ 1 ∷ 1 ∷ []) ∷ [] };

    ghost dual = { (0 ∷ 0 ∷ 1 ∷ 1 ∷ 1 ∷ 0 ∷ 1 ∷ []) ∷ (0 ∷ 1 ∷ 1 ∷ 0 ∷ 0 ∷ 0 ∷ 0 ∷ []) ∷ (0 ∷ 0 ∷ 0 ∷ 0 ∷ 0 ∷ 0 ∷ 1 ∷ []) ∷ (0 ∷ 1 ∷ 1 ∷ 1 ∷ 1 ∷ 0 ∷ 1 ∷ []) ∷ (0 ∷ 0 ∷ 0 ∷ 1 ∷ 0 ∷ 0 ∷ 1 ∷ []) ∷ (0 ∷ 0 ∷ 0 ∷ 1 ∷ 0 ∷ 1 ∷ 1 ∷ []) ∷ [] };

    ghost ext_generator = { 0 ∷ 1 ∷ 0 ∷ 0 ∷ 0 ∷ 0 ∷ 0 ∷ [] };

    #[inline]
    fn power_of_image(j: usize, k: usize) -> u32 {
        [
            [1, 0, 0, 0, 0, 0, 0],
            [0, 0, 1, 0, 0, 0, 0],
            [0, 0, 0, 0, 1, 0, 0],
            [0, 0, 0, 0, 0, 0, 1],
            [0, 1, 1, 0, 0, 0, 0],
            [0, 0, 0, 1, 1, 0, 0],
            [0, 0, 0, 0, 0, 1, 1],
        ][j][k]
    }

    #[inline]
    fn ext_generator(i: usize) -> u32 {
        [0, 1, 0, 0, 0, 0, 0][i]
    }

    ghost table = { record { width = refl; rows = refl; root = refl; order = refl; apart = refl } };
}

/// The extension of `F31` by `X^2 = -1`.
pub type F31c = Complex<F31>;

/// The value with the residues of these numbers at `X^0` and at `X^1`.
pub(crate) fn complex(real: u32, imag: u32) -> F31c
    ensures { result ≡ complex_of (of ⟦<Plain<M31> as Form<u32>>⟧) (real ∷ imag ∷ []) }
{
    let real_part = F31::new(real);
    let imaginary_part = F31::new(imag);
    F31c::new_complex(real_part, imaginary_part)
}

impl ComplexExtendable for F31 {
    ghost use Rattle.std.specs.Prelude.{get_or};
    ghost use Rattle.p3_prime_fields.specs.Elements.{is};
    ghost use Rattle.p3_residues.specs.Halves.{two_has_inverse};

    ghost complex_generator_coefficient = { λ i. of ⟦<Plain<M31> as Form<u32>>⟧ (get_or (3 ∷ 2 ∷ []) i 0) };

    ghost circle_two_adic = { λ bits. complex_of (of ⟦<Plain<M31> as Form<u32>>⟧) (get_or ((1 ∷ 0 ∷ []) ∷ (30 ∷ 0 ∷ []) ∷ (0 ∷ 30 ∷ []) ∷ (4 ∷ 27 ∷ []) ∷ (7 ∷ 13 ∷ []) ∷ (2 ∷ 11 ∷ []) ∷ []) bits []) };

    ghost CIRCLE_TWO_ADICITY = { 5 };

    const CIRCLE_TWO_ADICITY: usize = 5;

    #[inline]
    fn complex_generator_coefficient(i: usize) -> Self {
        let coefficient = [3, 2][i];
        Self::new(coefficient)
    }

    #[inline]
    fn circle_two_adic_generator(bits: usize) -> F31c {
        let row = [[1, 0], [30, 0], [0, 30], [4, 27], [7, 13], [2, 11]][bits];
        complex(row[0], row[1])
    }

    ghost two_has_an_inverse = { two_has_inverse (is ⟦<Plain<M31> as Form<u32>>⟧) refl };
}

impl<W: ShortForm> ByteCountFits<2> for Fp<W> {
    ghost fits = { lit< tt };
}

impl<W: ShortForm> NestedByteCountFits<2, 2> for Fp<W> {
    ghost nested_fits = { lit< tt };
}

impl<W: ShortForm> ByteCountFits<3> for Fp<W> {
    ghost fits = { lit< tt };
}

impl<W: ShortForm> ByteCountFits<4> for Fp<W> {
    ghost fits = { lit< tt };
}

impl<W: ShortForm> ByteCountFits<5> for Fp<W> {
    ghost fits = { lit< tt };
}

impl<W: ShortForm> ByteCountFits<6> for Fp<W> {
    ghost fits = { lit< tt };
}

impl<W: ShortForm> ByteCountFits<7> for Fp<W> {
    ghost fits = { lit< tt };
}

impl<W: ShortForm> ByteCountFits<8> for Fp<W> {
    ghost fits = { lit< tt };
}
