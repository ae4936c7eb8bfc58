//! Over a user's own field and its extension by `X^2 = 5`, four lanes. Expected values by hand.
ghost use Rattle.std.specs.Prelude.{◌<◌};

use example_fibonacci::residues::{F97, F97x2};
use p3_field_traits::field::PrimeField64;
use p3_packed_extension::packed_ext_field::PackedBinomialExtensionField;
use p3_packed_prime_fields::packed::Packed;
use p3_packing_traits::extension_lanes::ExtensionLanes;

type FourLanes = PackedBinomialExtensionField<F97, Packed<F97, 4>, 2>;

/// The values `l + 1 + X` in lanes l from 0 to 3.
fn four() -> FourLanes {
    let low = Packed::new([F97::new(1), F97::new(2), F97::new(3), F97::new(4)]);
    FourLanes::new([low, Packed::new([F97::new(1); 4])])
}

/// The canonical numbers of the coefficients.
fn numbers(x: F97x2) -> (u64, u64) {
    (x.value[0].as_canonical_u64(), x.value[1].as_canonical_u64())
}

/// The canonical numbers of the coefficients in a lane.
fn four_at(x: &FourLanes, lane: usize) -> (u64, u64)
    requires { lane < 4 }
{
    let low = x.value.value[0].value;
    let high = x.value.value[1].value;
    (low[lane].as_canonical_u64(), high[lane].as_canonical_u64())
}

#[test]
fn products_and_lanes(rt: HostRuntime) {
    let square = four() * four();
    assert_eq!(rt; four_at(&square, 0), (6, 2));
    assert_eq!(rt; four_at(&square, 3), (21, 8));
    assert_eq!(rt; numbers(four().extract(2)), (3, 1));
}
