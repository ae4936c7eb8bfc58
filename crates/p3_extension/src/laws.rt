//! Laws of extensions, as contracts for other crates to stand on.
ghost use Rattle.std.specs.Prelude.{◌≡◌, ◌↔◌, List, flat_map};
ghost use Rattle.std.specs.Cmp.Lexicographic.{slice_cmp};
ghost use Rattle.std.specs.Hash as fed;
ghost use Rattle.std.specs.declared.cmp.Ordering.TheVariants.{Less, Equal};
ghost use Rattle.p3_theory.specs.Lists.ListOrder.{IsLessAtFirst};
ghost use Rattle.p3_extension_traits.specs.Streams.{byte_stream};
ghost use Rattle.p3_theory.specs.Polynomials.Polynomial.{IsRemainder, convolution};
ghost use Rattle.p3_theory.specs.Rings.Ring.{Invertible};
ghost use Rattle.p3_theory.specs.Rings.Operators.{product_list};
ghost use Rattle.p3_theory.specs.FrobeniusMaps.FrobeniusTable.{orbit_list};
ghost use Rattle.p3_extension.specs.Values.{ext_ops, constant};
ghost use Rattle.p3_extension.specs.Conjugates.{frobenius_map, norm_of};

use crate::extension::ext_field::ExtField;
use crate::extension::{ByteCountFits, ExtensionAlgebra, ExtensionShape, FrobeniusExtendable};
use p3_extension_traits::streams::RawDataSerializable;
use p3_field_traits::field::Field;
use std::hash::Hash;

/// The product of two values has the one remainder of the convolution of their coefficient lists
/// modulo the shape's polynomial: what is left of it after taking away a multiple.
pub fn product_is_remainder<
    F: Copy,
    const D: usize,
    S: ExtensionShape,
    A: ExtensionAlgebra<F, D, S>,
>(a: ExtField<F, D, S, A>, b: ExtField<F, D, S, A>)
    ensures remainder { IsRemainder A.ops D A.modulus (convolution A.ops a.value b.value) ((ext_ops A.ops A.modulus).mul a b).value }
    ensures unique { (r : List A) → IsRemainder A.ops D A.modulus (convolution A.ops a.value b.value) r → r ≡ ((ext_ops A.ops A.modulus).mul a b).value }
{}

/// The product of a value and its images under the Frobenius map is an embedded element of the
/// base, the norm, which has an inverse exactly where the value has one.
pub fn orbit_product_is_norm<F: FrobeniusExtendable<D, S>, const D: usize, S: ExtensionShape>(
    a: ExtField<F, D, S, F>,
)
    ensures embedded { product_list (ext_ops F.ops F.modulus) (orbit_list (frobenius_map F.ops F.modulus F.image) D a) ≡ constant F.ops (norm_of F.ops F.modulus F.image a) }
    ensures exact { Invertible (ext_ops F.ops F.modulus) a ↔ Invertible F.ops (norm_of F.ops F.modulus F.image a) }
{}

/// The bytes of extension values are those of their coefficients, one value after the other.
pub fn bytes_are_of_coefficients<F: ByteCountFits<D> + Copy, const D: usize, S: Copy>(
    xs: &[ExtField<F, D, S, F>],
)
    ensures { byte_stream ⟦<ExtField<F, D, S, F> as RawDataSerializable>⟧.bytes xs.now ≡ byte_stream F.bytes (flat_map (λ x. x.value) xs.now) }
{}

/// Comparing two values is comparing their coefficient lists: they tie exactly where the lists are
/// equal, and one is less exactly where the first coefficient that differs is less.
pub fn order_is_lexicographic<F: Copy, const D: usize, S: Copy, A: Field + Ord>(
    x: ExtField<F, D, S, A>,
    y: ExtField<F, D, S, A>,
)
    ensures lists { ⟦<ExtField<F, D, S, A> as Ord>⟧.cmp x y ≡ slice_cmp A.cmp x.value y.value }
    ensures equal { (⟦<ExtField<F, D, S, A> as Ord>⟧.cmp x y ≡ Equal) ↔ (x.value ≡ y.value) }
    ensures less { (⟦<ExtField<F, D, S, A> as Ord>⟧.cmp x y ≡ Less) ↔ IsLessAtFirst A.cmp x.value y.value }
{}

/// The hash of a value is that of its coefficient list, so values with equal lists hash alike.
pub fn hash_is_of_coefficients<F: Copy, const D: usize, S: Copy, A: Hash + Copy>(
    x: ExtField<F, D, S, A>,
    y: ExtField<F, D, S, A>,
)
    ensures list { ⟦<ExtField<F, D, S, A> as Hash>⟧.hash_input x ≡ fed.slice A.hash_input x.value }
    ensures alike { x.value ≡ y.value → ⟦<ExtField<F, D, S, A> as Hash>⟧.hash_input x ≡ ⟦<ExtField<F, D, S, A> as Hash>⟧.hash_input y }
{}

/// The default value is zero.
pub fn default_is_zero<F: Copy, const D: usize, S: ExtensionShape, A: ExtensionAlgebra<F, D, S>>(
    x: ExtField<F, D, S, A>,
)
    ensures { ⟦<ExtField<F, D, S, A> as Default>⟧.is_default x → x ≡ (ext_ops A.ops A.modulus).zero }
{}
