//! Sums of products of lists of packings.
ghost use Rattle.std.specs.Prelude.{◌≡◌, ◌<◌, length};

use crate::cases::Case;
use p3_field_traits::field::Field;
use p3_field_traits::packed_traits::PackedField;
use p3_packing_traits::columnwise::{
    AsRow, coeffwise_dot_product, generic_batched_columnwise_dot_product,
};
use p3_ring::ring::{Algebra, PrimeCharacteristicRing};
use std::alloc::{AllocError, Global};
use test_values::numbered::{Numbered, all_hold, holds, value, values};

/// The pairs of coefficients and the packing that they go with, told by turns after the first argument.
fn pairs<P: Numbered>(alloc: Global, case: &Case) -> Result<Vec<(Vec<P>, P)>, AllocError> {
    let mut pairs = Vec::new(alloc);
    for index in 0..case.arguments.len() / 2 {
        let row = index.wrapping_mul(2).wrapping_add(1);
        let coefficients = values::<P>(alloc, case.argument(row))?;
        pairs.push((coefficients, value::<P>(case.argument(row.wrapping_add(1)))))?;
    }
    Ok(pairs)
}

/// Whether the sums of products coefficient by coefficient are the answer. The first argument is the degree. The
/// empty slice names the array of the sums, of which it is known then that it has room.
pub(crate) fn coefficients_agree<F: Field, P: PackedField<F> + Numbered>(
    alloc: Global,
    _room: &[[P; 8]],
    case: &Case,
) -> Result<bool, AllocError> {
    let degree = case.size(0);
    let items = pairs::<P>(alloc, case)?;
    if degree > 8 {
        return Ok(false);
    }
    let sums = coeffwise_dot_product::<F, P, Vec<P>, _>(degree, items.into_iter());
    Ok(holds::<[P; 8]>(&sums, &case.answer))
}

/// N scales.
#[derive(Drop)]
struct Scales<T, const N: usize> {
    scales: Vec<T>,
    ghost whole: { length scales.items ≡ N },
}

impl<T, const N: usize> AsRow<T, N> for Scales<T, N> {
    ghost entries = { λ x. x.scales.items };

    fn as_row(&self) -> &[T] {
        self.scales.as_slice()
    }
}

/// The N scales that a list tells.
fn scales_of<T: Numbered, const N: usize>(
    alloc: Global,
    numbers: &[u64],
) -> Result<Option<Scales<T, N>>, AllocError> {
    let scales = values::<T>(alloc, numbers)?;
    if scales.len() != N {
        return Ok(None);
    }
    Ok(Some(Scales { scales }))
}

/// The items of a product, told after the accumulators by turns by a row of packings and its N scales.
fn items<P: Numbered, F: Numbered, const N: usize>(
    alloc: Global,
    case: &Case,
) -> Result<Option<Vec<(Vec<P>, Scales<F, N>)>>, AllocError> {
    let mut items = Vec::new(alloc);
    for index in 0..case.arguments.len() / 2 {
        let row = index.wrapping_mul(2).wrapping_add(1);
        let packings = values::<P>(alloc, case.argument(row))?;
        let Some(scales) = scales_of::<F, N>(alloc, case.argument(row.wrapping_add(1)))? else {
            return Ok(None);
        };
        items.push((packings, scales))?;
    }
    Ok(Some(items))
}

/// Whether the accumulators are the answer once the products with N scales are added.
fn columnwise_agree<
    F: PrimeCharacteristicRing + Numbered,
    P: Algebra<F> + Numbered,
    const N: usize,
>(alloc: Global, case: &Case) -> Result<bool, AllocError>
    requires { 0 < N }
{
    let mut accumulators = values::<P>(alloc, case.argument(0))?;
    let Some(items) = items::<P, F, N>(alloc, case)? else {
        return Ok(false);
    };
    generic_batched_columnwise_dot_product::<P, F, P, Vec<P>, Scales<F, N>, _, N>(
        &mut accumulators,
        items.into_iter(),
    );
    Ok(all_hold::<P>(&accumulators, &case.answer))
}

/// `columnwise_agree` at a number of scales.
pub(crate) fn counted_columnwise_agree<
    F: PrimeCharacteristicRing + Numbered,
    P: Algebra<F> + Numbered,
>(alloc: Global, scales: usize, case: &Case) -> Result<bool, AllocError> {
    match scales {
        2 => columnwise_agree::<F, P, 2>(alloc, case),
        3 => columnwise_agree::<F, P, 3>(alloc, case),
        4 => columnwise_agree::<F, P, 4>(alloc, case),
        _ => Ok(false),
    }
}
