//! Over the extension of the residues modulo 17 by `X^2 = 3`. Expected values by hand.
use p3_field_traits::field::PrimeField64;
use p3_packed_extension::packed_ext_field::PackedBinomialExtensionField;
use p3_packed_prime_fields::packed::Packed;
use p3_packing_traits::ext_lane_items::to_ext_iter;
use p3_packing_traits::ext_powers::packed_ext_powers;
use p3_packing_traits::extension_lanes::ExtensionLanes;
use p3_prime_fields::extensions::F17x2;
use p3_prime_fields::small::F17;
use p3_ring::ring::PrimeCharacteristicRing;

type FourLanes = PackedBinomialExtensionField<F17, Packed<F17, 4>, 2>;

/// The values `l + 1 + (2 l + 1) X` in lanes l from 0 to 3.
fn four() -> FourLanes {
    let low = Packed::new([F17::new(1), F17::new(2), F17::new(3), F17::new(4)]);
    let high = Packed::new([F17::new(1), F17::new(3), F17::new(5), F17::new(7)]);
    FourLanes::new([low, high])
}

/// The canonical numbers of the coefficients.
fn numbers(x: F17x2) -> (u64, u64) {
    (x.value[0].as_canonical_u64(), x.value[1].as_canonical_u64())
}

/// The values at x of two polynomials by Horner's rule, the highest coefficient first: the values in the lanes of
/// packings, one after the other, and the powers of x in the lanes of a packing. A function of a user's own, generic
/// over what it needs.
fn evaluations<F, EF: PrimeCharacteristicRing, PE: ExtensionLanes<F, EF>>(
    packings: &[PE],
    x: EF,
) -> (EF, EF) {
    let mut first = EF::zero();
    for value in to_ext_iter::<F, EF, PE, _>(packings.iter().copied()) {
        first = first * x + value;
    }
    let powers = packed_ext_powers::<F, EF, PE>(x);
    let mut second = EF::zero();
    for lane in 0..PE::LANES {
        second = second * x + ExtensionLanes::<F, EF>::extract(&powers.current, lane);
    }
    (first, second)
}

/// The second value is four times the cube of x.
#[test]
fn lanes_and_powers(rt: HostRuntime) {
    let x = F17x2::new([F17::new(1), F17::new(2)]);
    let (first, second) = evaluations::<F17, F17x2, FourLanes>(&[four(), four()], x);
    assert_eq!(rt; numbers(first), (12, 5));
    assert_eq!(rt; numbers(second), (12, 1));
}
