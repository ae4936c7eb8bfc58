//! Fields that tell which of their values lie in a field below.
ghost use Rattle.std.specs.Prelude.{◌≡◌, ◌≢◌, ◌↔◌, IsTrue, MatchOption};
ghost use Rattle.std.specs.List.{All};
ghost use Rattle.p3_theory.specs.Bases.Subfields.{IsEmbedded};

use crate::extension::{ExtField, ExtensionShape, FrobeniusExtendable};
use p3_extension_traits::extension_field::ExtensionField;
use p3_field_traits::field::Field;
use p3_ring::ring::Algebra;

/// A field that tells which of its values lie in a field S below it. Upstream's `HasSubfield`.
pub trait HasSubfield<S: Field>: Field + Algebra<S> {
    /// The element of S that the value is, and `None` exactly where it is none.
    fn as_subfield(&self) -> Option<S>
        ensures { MatchOption result ((s : S) → Self.embed s ≢ self.now) (λ s. Self.embed s ≡ self.now) };

    /// Whether every value of the slice lies in S. It is so where there are none.
    #[inline]
    fn all_in_subfield(values: &[Self]) -> bool
        ensures { IsTrue result ↔ All (λ x. IsEmbedded Self.embed x) values.now }
    {
        for i in 0..values.len() {
            let value = values[i];
            let Some(_) = value.as_subfield() else {
                return false;
            };
        }
        true
    }
}

/// The base lies in each of its extensions: the values whose coefficients past index 0 are zero.
impl<F: FrobeniusExtendable<D, S>, const D: usize, S: ExtensionShape> HasSubfield<F>
    for ExtField<F, D, S, F> {
    #[inline]
    fn as_subfield(&self) -> Option<F> {
        <Self as ExtensionField<F>>::as_base(self)
    }

    #[inline]
    fn all_in_subfield(values: &[Self]) -> bool {
        for i in 0..values.len() {
            let value = values[i];
            match <Self as ExtensionField<F>>::as_base(&value) {
                Some(_) => {}
                None => return false,
            }
        }
        true
    }
}
