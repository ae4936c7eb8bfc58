//! The extension by X^2 = -1: the order is 3 modulo 4, so minus one has no root. Its generators of
//! orders 2^k stand in a table.
ghost use Rattle.std.specs.Prelude.{◌≡◌, ◌≤◌, ◌<◌, refl};
ghost use Rattle.p3_field.specs.TwoAdicCoefficients.{entry};
ghost use Rattle.example_mersenne31.specs.Elements.{of, is};
ghost use Rattle.example_mersenne31.specs.ComplexGenerators.{generator_table, generators};

use crate::value::Mersenne31;
use p3_field::extension::{ByteCountFits, Complex, ComplexExtendable, HasTwoAdicBinomialExtension};

/// The residues of the coefficients of the two-adic generators, a row for each number of bits.
const GENERATORS: [[u32; 2]; 33] = [
    [1, 0],
    [2147483646, 0],
    [0, 2147483646],
    [32768, 2147450879],
    [590768354, 978592373],
    [1179735656, 1241207368],
    [1567857810, 456695729],
    [1774253895, 1309288441],
    [736262640, 1553669210],
    [1819216575, 1662816114],
    [1323191254, 1936974060],
    [605622498, 1964232216],
    [343674985, 501786993],
    [1995316534, 149306621],
    [2107600913, 1378821388],
    [541476169, 2101081972],
    [2135874973, 483411332],
    [2097144245, 1684033590],
    [1662322247, 670236780],
    [1172215635, 595888646],
    [241940101, 323856519],
    [1957194259, 2139647100],
    [1957419629, 1541039442],
    [1062045235, 1824580421],
    [1929382196, 1664698822],
    [1889294251, 331248939],
    [1214231414, 1646302518],
    [1765392370, 461136547],
    [1629751483, 66485474],
    [1501355827, 1439063420],
    [509778402, 800467507],
    [311014874, 1584694829],
    [1166849849, 1117296306],
];

/// The coefficient at `X^i` of the two-adic generator for so many bits.
#[inline]
fn generator_coefficient(bits: usize, i: usize) -> Mersenne31
    requires bits { bits ≤ 32 }
    requires index { i < 2 }
    ensures { result ≡ of (entry generator_table bits i) }
{
    let number = GENERATORS[bits][i];
    Mersenne31::new(number)
}

/// The complex values of a field element with 12 + X as their generator.
impl ComplexExtendable for Mersenne31 {
    ghost use Rattle.std.specs.Prelude.{[], ◌∷◌, get_or};
    ghost use Rattle.example_mersenne31.specs.ComplexGenerators.{generator};
    ghost use Rattle.p3_field.specs.Halves.{two_has_inverse};

    ghost complex_generator_coefficient = { λ i. of (get_or (12 ∷ 1 ∷ []) i 0) };

    ghost circle_two_adic = { generator };

    const CIRCLE_TWO_ADICITY: usize = 31;

    ghost CIRCLE_TWO_ADICITY = { 31 };

    #[inline]
    fn complex_generator_coefficient(i: usize) -> Self {
        let number = [12, 1][i];
        Self::new(number)
    }

    #[inline]
    fn circle_two_adic_generator(bits: usize) -> Complex<Self> {
        let real = generator_coefficient(bits, 0);
        let imag = generator_coefficient(bits, 1);
        Complex::<Self>::new_complex(real, imag)
    }

    ghost two_has_an_inverse = { two_has_inverse is refl };
}

/// The rows for up to 31 bits are those of the circle; there is one more.
impl HasTwoAdicBinomialExtension<2> for Mersenne31 {
    ghost ext_two_adic = { λ bits i. of (entry generator_table bits i) };

    const EXT_TWO_ADICITY: usize = 32;

    ghost EXT_TWO_ADICITY = { 32 };

    #[inline]
    fn ext_two_adic_generator(bits: usize, i: usize) -> Self {
        generator_coefficient(bits, i)
    }

    ghost ext_generators = { generators };

    ghost ext_divides_order = { (1073741823, refl) };
}

impl ByteCountFits<2> for Mersenne31 {
    ghost use Rattle.std.proofs.Common.{lit<};

    ghost fits = { lit< tt };
}
