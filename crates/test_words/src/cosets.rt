//! Values of polynomials over cosets of Goldilocks, whose words are the canonical numbers.
use p3_c_calls::cosets::coset_values;
use p3_c_words::refusal::Refusal;
use p3_prime_fields::goldilocks::Goldilocks;
use std::test::Fail;

#[test]
fn values_over_cosets(rt: HostRuntime) -> Result<(), Fail> {
    let mut values = [0; 4];
    let told = coset_values::<Goldilocks, u64>(rt.alloc(), &[1, 2, 3], 7, 2, &mut values);
    assert_eq!(rt; told, Ok(()));
    assert_eq!(rt; values, [162, 3940649673949038, 134, 18442803419740634991]);
    let told = coset_values::<Goldilocks, u64>(rt.alloc(), &[1, 2, 3], 0, 2, &mut values);
    assert_eq!(rt; told, Err(Refusal::NoInverse));
    assert_eq!(rt; values, [162, 3940649673949038, 134, 18442803419740634991]);
    Ok(())
}
