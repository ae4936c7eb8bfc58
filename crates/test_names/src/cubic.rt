//! Calls at the extension by `X^3 = 5` of a field of one's own, and at its packings in arrays of four.
use crate::functions::{base_or_zero, cube, cube_lanes, first_lane, inverse_or_zero, scaled};
use example_mersenne31::Mersenne31;
use p3_field::extension::{BinomialExtensionField, PackedBinomialExtensionField};
use p3_field::{ExtensionLanes, FieldArray};
use std::test::Fail;

/// The extension by `X^3 = 5`.
type Cubic = BinomialExtensionField<Mersenne31, 3>;

/// Four values of it side by side.
type Packed4 = PackedBinomialExtensionField<Mersenne31, FieldArray<Mersenne31, 4>, 3>;

/// The value with these coefficients.
fn value(a: u32, b: u32, c: u32) -> Cubic {
    Cubic::new([Mersenne31::new(a), Mersenne31::new(b), Mersenne31::new(c)])
}

/// The third power, by a function over every ring.
fn cubed(x: Cubic) -> Cubic {
    cube(x)
}

/// The product with a value of the base, by a function over every algebra.
fn times(x: Cubic, f: Mersenne31) -> Cubic {
    scaled::<Mersenne31, Cubic>(x, f)
}

/// The inverse, by a function over every field.
fn inverted(x: Cubic) -> Cubic {
    inverse_or_zero(x)
}

/// The value as one of the base, by a function over every extension field.
fn in_base(x: Cubic) -> Mersenne31 {
    base_or_zero::<Mersenne31, Cubic>(x)
}

/// The third power in each lane, by a function over every ring.
fn packed_cubed(x: Packed4) -> Packed4 {
    cube(x)
}

/// The product with a value, by a function over every algebra.
fn packed_times(x: Packed4, y: Cubic) -> Packed4 {
    scaled::<Cubic, Packed4>(x, y)
}

/// The value of the first lane, by a function over all extension lanes.
fn packed_first(x: Packed4) -> Cubic {
    first_lane::<Mersenne31, Cubic, Packed4>(x)
}

/// The third power in each lane, by a function over every packed extension ring.
fn packed_cubed_by_lanes(x: Packed4) -> Packed4 {
    cube_lanes::<Mersenne31, Cubic, Packed4>(x)
}

/// The value in all lanes.
fn packed(x: Cubic) -> Packed4 {
    ExtensionLanes::<Mersenne31, Cubic>::ext_broadcast(x)
}

#[test]
fn calls_at_the_extension(rt: HostRuntime) -> Result<(), Fail> {
    let x = value(0, 1, 0);
    assert_eq!(rt; cubed(x), value(5, 0, 0));
    assert_eq!(rt; times(x, Mersenne31::new(7)), value(0, 7, 0));
    assert_eq!(rt; inverted(x), value(0, 0, 858993459));
    assert_eq!(rt; inverted(value(0, 0, 0)), value(0, 0, 0));
    assert_eq!(rt; in_base(value(3, 0, 0)), Mersenne31::new(3));
    assert_eq!(rt; in_base(x), Mersenne31::new(0));
    Ok(())
}

#[test]
fn calls_at_its_packings(rt: HostRuntime) -> Result<(), Fail> {
    let x = value(0, 1, 0);
    assert_eq!(rt; packed_first(packed(x)), x);
    assert_eq!(rt; packed_first(packed_cubed(packed(x))), value(5, 0, 0));
    assert_eq!(rt;
        packed_first(packed_cubed_by_lanes(packed(x))),
        value(5, 0, 0)
    );
    assert_eq!(rt;
        packed_first(packed_times(packed(x), value(0, 0, 2))),
        value(10, 0, 0)
    );
    Ok(())
}
