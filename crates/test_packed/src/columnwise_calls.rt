//! Products of rows of packings and two scales, added column by column to packings of extension values.
use crate::cases::{Call, Case};
use p3_packing_traits::columnwise::{
    batched_columnwise_dot_product, generic_batched_columnwise_dot_product,
};
use p3_ring::ring::{Algebra, PrimeCharacteristicRing};
use std::alloc::{AllocError, Global};
use test_values::numbered::{Numbered, all_hold, value, values};

/// The items of a product, told after the accumulators by turns by a row of packings and its scales.
fn items<P: Numbered, EF: Numbered>(
    alloc: Global,
    case: &Case,
) -> Result<Vec<(Vec<P>, [EF; 2])>, AllocError> {
    let mut items = Vec::new(alloc);
    for index in 0..case.arguments.len() / 2 {
        let row = index.wrapping_mul(2).wrapping_add(1);
        let packings = values::<P>(alloc, case.argument(row))?;
        let scales = value::<[EF; 2]>(case.argument(row.wrapping_add(1)));
        items.push((packings, scales))?;
    }
    Ok(items)
}

/// Adds the products by the call.
fn add_products<P, EF, PE>(call: Call, accumulators: &mut [PE], items: Vec<(Vec<P>, [EF; 2])>)
where
    P: PrimeCharacteristicRing,
    EF: PrimeCharacteristicRing,
    PE: Algebra<P> + Algebra<EF>,
{
    let items = items.into_iter();
    match call {
        Call::Columnwise => batched_columnwise_dot_product::<P, EF, PE, Vec<P>, [EF; 2], _, 2>(
            accumulators,
            items,
        ),
        _ => generic_batched_columnwise_dot_product::<P, EF, PE, Vec<P>, [EF; 2], _, 2>(
            accumulators,
            items,
        ),
    }
}

/// Whether the accumulators are the answer once the products are added. That scales are named tells that they have
/// room; nothing is read of them.
pub(crate) fn columnwise_agree<P, EF, PE>(
    alloc: Global,
    _scales: Option<[EF; 2]>,
    case: &Case,
) -> Result<bool, AllocError>
where
    P: PrimeCharacteristicRing + Numbered,
    EF: PrimeCharacteristicRing + Numbered,
    PE: Algebra<P> + Algebra<EF> + Numbered,
{
    let mut accumulators = values::<PE>(alloc, case.argument(0))?;
    let items = items::<P, EF>(alloc, case)?;
    add_products::<P, EF, PE>(case.call, &mut accumulators, items);
    Ok(all_hold::<PE>(&accumulators, &case.answer))
}
