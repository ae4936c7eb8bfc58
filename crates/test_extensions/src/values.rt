//! Extension values by lists of the canonical numbers of their coefficients.

use p3_extension::extension::ExtField;
use test_values::canonical::Canonical;
use test_values::lists::{List, MOST, ZERO, at};

/// Extension values that lists of coefficients tell.
pub trait Listed: Copy {
    /// The value with these coefficients.
    fn of_list(list: &List) -> Self;

    /// The same value, by `From`.
    fn from_list(list: &List) -> Self;

    /// The canonical numbers of the coefficients.
    fn list(&self) -> List;
}

/// The residues of the first D numbers of a list.
pub fn coefficients<F: Canonical, const D: usize>(list: &List) -> [F; D] {
    let mut coefficients = [F::of_number(0); D];
    for i in 0..D {
        coefficients[i] = F::of_number(at(list, i));
    }
    coefficients
}

impl<F: Canonical, const D: usize, S: Copy> Listed for ExtField<F, D, S, F> {
    fn of_list(list: &List) -> Self {
        ExtField::<F, D, S, F>::new(coefficients(list))
    }

    fn from_list(list: &List) -> Self {
        ExtField::<F, D, S, F>::from(coefficients(list))
    }

    fn list(&self) -> List {
        let mut list = ZERO;
        for i in 0..D {
            if i < MOST {
                let coefficient = self.value[i];
                list[i] = coefficient.canonical();
            }
        }
        list
    }
}
