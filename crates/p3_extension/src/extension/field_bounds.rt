//! Extensions have the bounds of fields where their base has them.
use super::ext_field::ExtField;
use super::streams::ByteCountFits;
use super::{ExtensionShape, FrobeniusExtendable};
use p3_extension_traits::field_bounds::FieldBounds;

/// An extension of a field with all bounds of fields has them too.
impl<
    F: FrobeniusExtendable<D, S> + FieldBounds + ByteCountFits<D>,
    const D: usize,
    S: ExtensionShape,
> FieldBounds for ExtField<F, D, S, F> {
    ghost use Rattle.p3_extension.specs.ValueOrder.{zero_value};

    ghost default_is_zero = { zero_value F.ops F.modulus };
}
