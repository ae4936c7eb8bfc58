//! Powers that permute a field.

use p3_extension_traits::monomials::PermutationMonomial;
use p3_prime_fields::baby_bear::BabyBearModulus;
use p3_prime_fields::form::{OverModulus, Plain, Word};
use p3_prime_fields::fp::Fp;
use p3_prime_fields::goldilocks::GoldilocksForm;
use p3_prime_fields::koala_bear::KoalaBearModulus;
use p3_prime_fields::monomials::MonomialConstants;
use p3_prime_fields::montgomery::Montgomery;
use p3_prime_fields::small::{M17, M31};
use test_values::canonical::Canonical;

/// The power N of a number's residue, and the number whose power N is the residue of a second one.
fn powers_of<F: PermutationMonomial<N> + Canonical, const N: u64>(x: u64, y: u64) -> [u64; 2] {
    [
        F::of_number(x).injective_exp_n().canonical(),
        F::of_number(y).injective_exp_root_n().canonical(),
    ]
}

/// The same for the field of a marker: a test at a marker passes the field's constants alone.
fn powers<W: OverModulus<T>, T: Word, const N: u64>(x: u64, y: u64) -> [u64; 2]
where
    W::Modulus: MonomialConstants<N>,
{
    powers_of::<Fp<W, T>, N>(x, y)
}

#[test]
fn powers_that_permute_small_fields(rt: HostRuntime) {
    assert_eq!(rt; powers::<Plain<M17>, u32, 3>(2, 8), [8, 2]);
    assert_eq!(rt; powers::<Plain<M31>, u32, 7>(3, 17), [17, 3]);
}

#[test]
fn powers_that_permute(rt: HostRuntime) {
    let baby_bear = powers::<Montgomery<BabyBearModulus>, u32, 7>(3, 2187);
    assert_eq!(rt; baby_bear, [2187, 3]);
    assert_eq!(rt;
        powers::<Montgomery<KoalaBearModulus>, u32, 3>(5, 125),
        [125, 5]
    );
    assert_eq!(rt; powers::<GoldilocksForm, u64, 7>(3, 2187), [2187, 3]);
}
