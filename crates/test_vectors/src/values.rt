//! Extension values by their coefficient lists.
use p3_extension::extension::{ExtField, ExtensionShape, FrobeniusExtendable};
use test_values::canonical::Canonical;
use test_values::lists::{List, MOST, ZERO, at};

/// Values that coefficient lists tell.
pub(crate) trait Listed: Copy {
    /// The value with these coefficients.
    fn of_list(list: &List) -> Self;

    /// The canonical numbers of the coefficients.
    fn list(&self) -> List;
}

impl<F: FrobeniusExtendable<D, S> + Canonical, const D: usize, S: ExtensionShape> Listed
    for ExtField<F, D, S, F> {
    fn of_list(list: &List) -> Self {
        let mut value = [F::zero(); D];
        for i in 0..D {
            value[i] = F::from_u64(at(list, i));
        }
        ExtField::<F, D, S, F>::new(value)
    }

    fn list(&self) -> List {
        let mut list = ZERO;
        for i in 0..D {
            if i < MOST {
                let coefficient = self.value[i];
                list[i] = coefficient.canonical();
            }
        }
        list
    }
}
