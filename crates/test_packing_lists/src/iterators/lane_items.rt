//! The values in the lanes of packings as an iterator.
use super::{repeated, says_left, says_none_left};
use p3_field_traits::field::Field;
use p3_field_traits::packed_traits::{Packable, PackedField};
use p3_packing_traits::ext_lane_items::to_ext_iter;
use p3_packing_traits::extension_lanes::ExtensionLanes;
use p3_ring::ring::PrimeCharacteristicRing;
use std::process::Abort;
use std::test::Fail;

/// Asserts what the items of these packings say is left before any is taken, after each, and after the last, and what
/// they say where a filter may leave out each packing.
fn assert_items_of<F, EF: PrimeCharacteristicRing, PE: ExtensionLanes<F, EF> + Copy>(
    rt: &impl Abort,
    packings: &[PE],
) {
    let total = packings.len().saturating_mul(PE::LANES);
    for taken in 0..=total {
        let items = to_ext_iter::<F, EF, PE, _>(packings.iter().copied());
        assert!(rt; says_left(items, taken, total - taken), "{taken}");
    }
    assert!(rt; says_none_left(to_ext_iter::<F, EF, PE, _>(packings.iter().copied()), total));
    let filtered = to_ext_iter::<F, EF, PE, _>(packings.iter().copied().filter(|_| true));
    assert!(rt; filtered.size_hint() == (0, Some(total)));
}

/// Asserts this of the items of three packings P.
pub(crate) fn assert_items<F: Field + Packable, P: PackedField<F>>(
    rt: &(impl Abort + AllocGlobal),
) -> Result<(), Fail> {
    let packings = repeated(rt.alloc(), P::one(), 3)?;
    assert_items_of::<F, F, P>(rt, &packings);
    Ok(())
}
