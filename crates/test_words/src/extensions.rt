//! Inverses in BabyBear's extension by `X^4 = 31`. The words of coefficients are their numbers times 2^32.
use p3_c_calls::extensions::batch_inverse;
use p3_extension::extension::Binomial;
use p3_prime_fields::baby_bear::BabyBear;
use std::test::Fail;

/// The words of X, of 2 and of 1 + X.
const VALUES: [u32; 12] = [
    0, 268435454, 0, 0, 536870908, 0, 0, 0, 268435454, 268435454, 0, 0,
];

/// Those of X^3 / 31, of 1 / 2 and of (1 - X + X^2 - X^3) / (1 - 31).
const INVERSES: [u32; 12] = [
    0, 0, 0, 398323580, 134217727, 0, 0, 0, 930576248, 1082689673, 930576248, 1082689673,
];

#[test]
fn inverses_of_extension_values(rt: HostRuntime) -> Result<(), Fail> {
    let mut words = VALUES;
    let told = batch_inverse::<BabyBear, u32, 4, Binomial<BabyBear>>(None, rt.alloc(), &mut words);
    assert_eq!(rt; told, Ok(()));
    assert_eq!(rt; words, INVERSES);
    Ok(())
}
