//! Cosets of two elements of residues modulo 15, 27 and 85, and over an extension that is no field, by hand; and
//! the tests of cosets.
use crate::coset_values::assert_values;
use crate::rings::{M27, M85, SplitM17};
use p3_extension::extension::{BinomialExtensionField, HasTwoAdicBinomialExtension};
use p3_field_traits::field::TwoAdicField;
use p3_helpers::coset::TwoAdicMultiplicativeCoset;
use p3_prime_fields::form::{OverModulus, Plain};
use p3_prime_fields::fp::Fp;
use p3_prime_fields::small::{M15, M17};
use p3_prime_fields::two_adic::TwoAdicConstants;
use p3_prime_fields::two_adic_constants::TwoAdicBinomialConstants;
use std::process::Abort;
use std::test::Fail;
use test_values::canonical::Canonical;

/// A shift, and the elements of its coset; none where the shift has no inverse.
type Row = (u64, Option<[u64; 2]>);

/// The cosets modulo 15.
const MODULO_15: [Row; 6] = [
    (1, Some([1, 14])),
    (2, Some([2, 13])),
    (3, None),
    (5, None),
    (0, None),
    (14, Some([14, 1])),
];

/// The cosets modulo 27.
const MODULO_27: [Row; 6] = [
    (1, Some([1, 26])),
    (2, Some([2, 25])),
    (3, None),
    (18, None),
    (0, None),
    (26, Some([26, 1])),
];

/// The cosets modulo 85.
const MODULO_85: [Row; 6] = [
    (2, Some([2, 83])),
    (5, None),
    (17, None),
    (34, None),
    (0, None),
    (84, Some([84, 1])),
];

/// Shifts over the extension of the residues modulo 17 by `X^2 = 1`, by their coefficients, and whether they have
/// a coset: where they aren't zero at 1 or 16.
const OVER_SPLIT: [(u64, u64, bool); 7] = [
    (1, 0, true),
    (0, 1, true),
    (2, 1, true),
    (0, 0, false),
    (1, 1, false),
    (1, 16, false),
    (5, 12, false),
];

/// Whether the coset has just these elements, by their indices and as an iterator.
fn has_elements<F: TwoAdicField + Canonical>(
    coset: TwoAdicMultiplicativeCoset<F>,
    elements: [u64; 2],
) -> bool {
    if coset.log_size() >= 64 || coset.size() != 2 {
        return false;
    }
    let mut items = coset.iter();
    for i in 0..2 {
        let item = match items.next() {
            Some(item) => item.canonical(),
            None => return false,
        };
        if item != elements[i] || coset.element(i).canonical() != elements[i] {
            return false;
        }
    }
    items.next().is_none()
}

/// Asserts that each shift has its coset, or none.
fn assert_cosets<F: TwoAdicField + Canonical>(rt: &impl Abort, rows: &[Row]) {
    for row in rows {
        let (shift, elements) = *row;
        let holds = match (
            TwoAdicMultiplicativeCoset::<F>::new(F::from_u64(shift), 1),
            elements,
        ) {
            (Some(coset), Some(elements)) => has_elements(coset, elements),
            (None, None) => true,
            _ => false,
        };
        assert!(rt; holds, "{shift}");
    }
}

/// Whether there is a coset of two elements with a shift.
fn has_coset<T: TwoAdicField>(shift: T) -> bool {
    TwoAdicMultiplicativeCoset::<T>::new(shift, 1).is_some()
}

/// Whether each shift over the extension of degree 2 by `X^2 = W` has a coset just where a row says so. Nothing is
/// read of `_value`.
fn shifts_agree<F: HasTwoAdicBinomialExtension<2>>(
    _value: Option<BinomialExtensionField<F, 2>>,
    rows: &[(u64, u64, bool)],
) -> bool {
    for row in rows {
        let (low, high, expected) = *row;
        let shift = BinomialExtensionField::<F, 2>::new([F::from_u64(low), F::from_u64(high)]);
        if has_coset::<BinomialExtensionField<F, 2>>(shift) != expected {
            return false;
        }
    }
    true
}

/// The same at the marker of a type.
fn shifts_agree_over<W: OverModulus<u32>>(rows: &[(u64, u64, bool)]) -> bool
where
    W::Modulus: TwoAdicBinomialConstants<2>,
{
    shifts_agree::<Fp<W>>(None, rows)
}

/// What is asserted of a two-adic type.
#[derive(Clone, Copy)]
enum Topic<'a> {
    /// The elements of cosets.
    Elements(&'a [Row]),
    /// The values of polynomials over cosets modulo 17.
    Values,
}

/// Asserts a topic at the marker of a type.
fn assert_over<W: OverModulus<u32>>(
    rt: &(impl Abort + AllocGlobal),
    topic: Topic<'_>,
) -> Result<(), Fail>
where
    W::Modulus: TwoAdicConstants,
{
    match topic {
        Topic::Elements(rows) => {
            assert_cosets::<Fp<W>>(rt, rows);
            Ok(())
        }
        Topic::Values => assert_values::<Fp<W>>(rt),
    }
}

#[test]
fn cosets_of_residues(rt: HostRuntime) -> Result<(), Fail> {
    assert_over::<Plain<M15>>(&rt, Topic::Elements(&MODULO_15))?;
    assert_over::<Plain<M27>>(&rt, Topic::Elements(&MODULO_27))?;
    assert_over::<Plain<M85>>(&rt, Topic::Elements(&MODULO_85))
}

#[test]
fn shifts_of_an_extension(rt: HostRuntime) {
    assert!(rt; shifts_agree_over::<Plain<SplitM17>>(&OVER_SPLIT));
}

#[test]
fn values_modulo_17(rt: HostRuntime) -> Result<(), Fail> {
    assert_over::<Plain<M17>>(&rt, Topic::Values)
}
