//! Values worked by hand, from 2^31 = 1 alone.

use crate::value::Mersenne31;
use p3_field::extension::{BinomialExtensionField, Complex, ComplexExtendable};
use p3_field::integers::QuotientMap;
use p3_field::{
    Field, PermutationMonomial, PrimeCharacteristicRing, PrimeField32, RawDataSerializable,
    TwoAdicField,
};
use std::test::Fail;

/// 2^30 twice is 2^31, which is one; 2^16 * 2^16 is 2^32, which is two; -1 is 2^31 - 2.
#[test]
fn sums_and_products(rt: HostRuntime) {
    let quarter = Mersenne31::new(1 << 30);
    let root = Mersenne31::new(1 << 16);
    let zero = Mersenne31::new(0);
    let one = Mersenne31::new(1);
    assert_eq!(rt; quarter + quarter, one);
    assert_eq!(rt; root * root, Mersenne31::new(2));
    assert_eq!(rt; zero - one, Mersenne31::new(2147483646));
    assert_eq!(rt; -one * -one, one);
    assert_eq!(rt; Mersenne31::new(0x7fff_ffff), zero);
    assert_eq!(rt; Mersenne31::new(0xffff_ffff), one);
}

/// Half of one is 2^30; half of three is one more. 3 * 1431655765 is 2^32 - 1, which is one; zero
/// has no inverse; 2^16 * 2^15 is 2^31.
#[test]
fn halves_and_inverses(rt: HostRuntime) {
    let one = Mersenne31::new(1);
    let three = Mersenne31::new(3);
    let half = one.halve();
    let more = three.halve();
    assert_eq!(rt; half, Mersenne31::new(1 << 30));
    assert_eq!(rt; more, Mersenne31::new((1 << 30) + 1));
    assert_eq!(rt; three.try_inverse(), Some(Mersenne31::new(1431655765)));
    assert_eq!(rt; Mersenne31::new(0).try_inverse(), None);
    let root = Mersenne31::new(1 << 16);
    assert_eq!(rt; one / root, Mersenne31::new(1 << 15));
}

/// 2^62 is one, and so is 2^124; -1 is 2^31 - 2, which is the last canonical value.
#[test]
fn integers(rt: HostRuntime) {
    assert_eq!(rt; Mersenne31::from_u64(1 << 62), Mersenne31::new(1));
    assert_eq!(rt; Mersenne31::from_int(1u128 << 124), Mersenne31::new(1));
    assert_eq!(rt; Mersenne31::from_int(-1i64).as_canonical_u32(), 2147483646);
    assert_eq!(rt; Mersenne31::from_canonical_checked(2147483647u32), None);
}

/// 2 to the power 31 is one; the values of order two and one are -1 and 1.
#[test]
fn powers(rt: HostRuntime) {
    let two = Mersenne31::new(2);
    assert_eq!(rt; two.exp_u64(31), Mersenne31::new(1));
    assert_eq!(rt;
        Mersenne31::two_adic_generator(1),
        Mersenne31::new(2147483646)
    );
    assert_eq!(rt; Mersenne31::two_adic_generator(0), Mersenne31::new(1));
}

/// The square of 2^16 is two, and minus one is no square, since the order is 3 modulo 4.
#[test]
fn square_roots(rt: HostRuntime) {
    let root = Mersenne31::new(1 << 16);
    let found = Mersenne31::new(2).try_sqrt();
    assert!(rt; found == Some(root) || found == Some(-root));
    let none = Mersenne31::new(2147483646).try_sqrt();
    assert_eq!(rt; none, None);
}

/// -1 is 2^31 - 2.
#[test]
fn texts(rt: HostRuntime) -> Result<(), Fail> {
    let text = format!(in rt.alloc(); "{}", Mersenne31::new(0) - Mersenne31::new(1))?;
    assert_eq!(rt; text.as_str(), "2147483646");
    Ok(())
}

/// (1 + 2i)(3 + 4i) is 3 - 8 + 10i. (1 + i)(1 - i) is two, so the inverse of 1 + i is half of 1 - i,
/// which is 2^30 - 2^30 i. The element of order four is -i.
#[test]
fn complex_values(rt: HostRuntime) {
    let first = Complex::new_complex(Mersenne31::new(1), Mersenne31::new(2));
    let second = Complex::new_complex(Mersenne31::new(3), Mersenne31::new(4));
    let product = first * second;
    assert_eq!(rt;
        product.to_array(),
        [-Mersenne31::new(5), Mersenne31::new(10)]
    );
    let one_and_i = Complex::new_complex(Mersenne31::new(1), Mersenne31::new(1));
    let inverse = one_and_i.try_inverse();
    let expected = Complex::new_complex(Mersenne31::new(1 << 30), Mersenne31::new((1 << 30) - 1));
    assert_eq!(rt; inverse, Some(expected));
    let fourth = Mersenne31::circle_two_adic_generator(2);
    assert_eq!(rt;
        fourth.to_array(),
        [Mersenne31::new(0), -Mersenne31::new(1)]
    );
}

/// X^2 * X^2 is X^4, which is 5 X.
#[test]
fn cubic_values(rt: HostRuntime) {
    let zero = Mersenne31::new(0);
    let one = Mersenne31::new(1);
    let square = BinomialExtensionField::<Mersenne31, 3>::new([zero, zero, one]);
    let expected = BinomialExtensionField::<Mersenne31, 3>::new([zero, Mersenne31::new(5), zero]);
    assert_eq!(rt; square * square, expected);
}

/// 2^16 + 2 has the bytes 2, 0, 1, 0; two to the power 5 is 32.
#[test]
fn bytes_and_roots(rt: HostRuntime) -> Result<(), Fail> {
    let bytes: Vec<u8> = Mersenne31::new((1 << 16) + 2)
        .into_bytes()
        .collect(rt.alloc())?;
    assert_eq!(rt; bytes.as_slice(), [2, 0, 1, 0].as_slice());
    let root = Mersenne31::new(32).injective_exp_root_n();
    assert_eq!(rt; root, Mersenne31::new(2));
    Ok(())
}
