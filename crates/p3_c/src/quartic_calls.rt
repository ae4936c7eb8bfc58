//! The calls over the values of the extension of BabyBear by `X^4 = 31`. Each value is four words, those of its
//! coefficients from the constant one upward.
ghost use Rattle.p3_theory.specs.FrobeniusMaps.Frobenius.{iterate};
ghost use Rattle.p3_theory.specs.FrobeniusMaps.FrobeniusTable.{frobenius_list};
ghost use Rattle.p3_theory.specs.Polynomials.Polynomial.{quotient_mul, quotient_ops};
ghost use Rattle.p3_c_words.specs.Statuses.{Tells};
ghost use Rattle.p3_c_calls.specs.ExtensionCalls.{WritesEach, WritesPairs, WritesDot, WritesInverse, WritesEachInverse};

use p3_c_calls::extensions;
use p3_c_words::status::status;
use p3_c_words::stored::Stored;
use p3_extension::extension::{Binomial, ExtensionAlgebra, FrobeniusExtendable};
use p3_prime_fields::baby_bear::BabyBear;
use p3_prime_fields::extensions::BabyBearx4;
use p3_ring::ring::PrimeCharacteristicRing;
use std::alloc::Global;

/// Multiplies each value of the left list by that of the right one at its index.
#[unsafe(no_mangle)]
pub extern "C" fn p3_bbx4_mul(left: &mut [u32], right: &[u32]) -> i32
    ensures { Tells (WritesPairs 4 ⟦<BabyBear as Stored<u32>>⟧.words (quotient_mul ⟦<BabyBear as PrimeCharacteristicRing>⟧.ops 4 ⟦<BabyBear as ExtensionAlgebra<BabyBear, 4, Binomial<BabyBear>>>⟧.modulus) left.old right.now left.new) result }
{
    status(extensions::multiply::<BabyBear, u32, 4, Binomial<BabyBear>>(None, left, right))
}

/// Writes over each value its square.
#[unsafe(no_mangle)]
pub extern "C" fn p3_bbx4_square(values: &mut [u32]) -> i32
    ensures { Tells (WritesEach 4 ⟦<BabyBear as Stored<u32>>⟧.words (λ x. quotient_mul ⟦<BabyBear as PrimeCharacteristicRing>⟧.ops 4 ⟦<BabyBear as ExtensionAlgebra<BabyBear, 4, Binomial<BabyBear>>>⟧.modulus x x) values.old values.new) result }
{
    status(extensions::square::<BabyBear, u32, 4, Binomial<BabyBear>>(None, values))
}

/// Writes over each value its image under the Frobenius map, taken so many times.
#[unsafe(no_mangle)]
pub extern "C" fn p3_bbx4_frobenius(values: &mut [u32], count: usize) -> i32
    ensures { Tells (WritesEach 4 ⟦<BabyBear as Stored<u32>>⟧.words (iterate (frobenius_list ⟦<BabyBear as PrimeCharacteristicRing>⟧.ops 4 ⟦<BabyBear as ExtensionAlgebra<BabyBear, 4, Binomial<BabyBear>>>⟧.modulus ⟦<BabyBear as FrobeniusExtendable<4, Binomial<BabyBear>>>⟧.image) count) values.old values.new) result }
{
    status(extensions::frobenius::<BabyBear, u32, 4, Binomial<BabyBear>>(None, values, count))
}

/// Writes the sum of the products, index by index: one value.
#[unsafe(no_mangle)]
pub extern "C" fn p3_bbx4_dot(left: &[u32], right: &[u32], dot: &mut [u32]) -> i32
    ensures { Tells (WritesDot 4 (quotient_ops ⟦<BabyBear as PrimeCharacteristicRing>⟧.ops 4 ⟦<BabyBear as ExtensionAlgebra<BabyBear, 4, Binomial<BabyBear>>>⟧.modulus) ⟦<BabyBear as Stored<u32>>⟧.words left.now right.now dot.old dot.new) result }
{
    status(extensions::dot_product::<BabyBear, u32, 4, Binomial<BabyBear>>(None, left, right, dot))
}

/// Writes the inverse of one value.
#[unsafe(no_mangle)]
pub extern "C" fn p3_bbx4_inverse(value: &[u32], inverse: &mut [u32]) -> i32
    ensures { Tells (WritesInverse 4 (quotient_ops ⟦<BabyBear as PrimeCharacteristicRing>⟧.ops 4 ⟦<BabyBear as ExtensionAlgebra<BabyBear, 4, Binomial<BabyBear>>>⟧.modulus) ⟦<BabyBear as Stored<u32>>⟧.words value.now inverse.old inverse.new) result }
{
    status(extensions::inverse::<BabyBear, u32, 4, Binomial<BabyBear>>(None, value, inverse))
}

/// Writes over each value its inverse.
#[unsafe(no_mangle)]
pub extern "C" fn p3_bbx4_batch_inverse(alloc: Global, values: &mut [u32]) -> i32
    ensures { Tells (WritesEachInverse 4 (quotient_ops ⟦<BabyBear as PrimeCharacteristicRing>⟧.ops 4 ⟦<BabyBear as ExtensionAlgebra<BabyBear, 4, Binomial<BabyBear>>>⟧.modulus) ⟦<BabyBear as Stored<u32>>⟧.words values.old values.new) result }
{
    status(extensions::batch_inverse::<BabyBear, u32, 4, Binomial<BabyBear>>(None, alloc, values))
}
