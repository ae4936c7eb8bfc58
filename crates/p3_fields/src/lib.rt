//! Every concrete field, extension and packing of the library, and what a field of one's own by a marker needs.
#![tactic(auto)]

pub use p3_packed_prime_fields::packed::Packed;
pub use p3_packed_prime_fields::{lane_dot_products, lanes, packed};
pub use p3_prime_fields::baby_bear::{BabyBear, BabyBearModulus};
pub use p3_prime_fields::complex_tower::F31cx2;
pub use p3_prime_fields::extensions::{
    BabyBearx4, F2t5, F2t7, F17bx2, F17t5, F17x2, F17x4, F17x8, F31c, F31t3, F31x3, F31x5, F31x6,
    Z15x2,
};
pub use p3_prime_fields::fp::Fp;
pub use p3_prime_fields::goldilocks::Goldilocks;
pub use p3_prime_fields::koala_bear::{KoalaBear, KoalaBearModulus};
pub use p3_prime_fields::small::{F2, F17, F17b, F31, Z15};
pub use p3_prime_fields::{
    binomial_constants, form, fp, monomials, montgomery, polynomial_constants, two_adic,
    two_adic_constants,
};
