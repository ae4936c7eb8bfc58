//! Limbs of BabyBear, whose words are its numbers times 2^32, packed into values of Goldilocks, and back.
use p3_c_calls::limbs::{pack, split};
use p3_prime_fields::baby_bear::BabyBear;
use p3_prime_fields::goldilocks::Goldilocks;
use std::test::Fail;

/// The words of 1, 2 and 3.
const LIMBS: [u32; 3] = [268435454, 536870908, 805306362];

/// 1 + 2 * 2^8 + 3 * 2^16.
const PACKED: u64 = 197121;

#[test]
fn limbs_and_values(rt: HostRuntime) -> Result<(), Fail> {
    let packed = pack::<BabyBear, u32, Goldilocks, u64>(rt.alloc(), &LIMBS, 8);
    assert_eq!(rt; packed, Ok(PACKED));
    let mut limbs = [0; 3];
    let told = split::<BabyBear, u32, Goldilocks, u64>(rt.alloc(), PACKED, 8, &mut limbs);
    assert_eq!(rt; told, Ok(()));
    assert_eq!(rt; limbs, LIMBS);
    Ok(())
}
