//! The laws at small fields, and a packing, by the names that the front of the bench gives out.

use p3_field_bench::laws::{domain_f17, domain_f31};
use p3_field_bench::{F17, F31, Packed};
use p3_field_traits::laws::fermat;
use p3_ring::ring::PrimeCharacteristicRing;

#[test]
fn powers_by_the_order_less_one(rt: HostRuntime) {
    domain_f17();
    fermat(F17::new(3));
    assert_eq!(rt; F17::new(3).exp_u64(16), F17::one());
    domain_f31();
    fermat(F31::new(3));
    assert_eq!(rt; F31::new(3).exp_u64(30), F31::one());
}

/// Twice 9 is 1 modulo 17, in each lane.
#[test]
fn a_packing_by_the_front(rt: HostRuntime) {
    let halves = Packed::<F17, 4>::new([F17::new(9); 4]);
    let ones = halves + halves;
    assert_eq!(rt; ones.value[3], F17::new(1));
}
