//! Laws of arrays, as contracts for other crates to stand on.
ghost use Rattle.std.specs.Prelude.{◌≡◌, ◌<◌, ℕ, Decides, get_or};
ghost use Rattle.p3_theory.specs.Rings.Ring.{Invertible};

use super::FieldArray;
use p3_field_traits::field::Field;
use p3_field_traits::packed_traits::Inhabited;
use p3_ring::ring::PrimeCharacteristicRing;
use std::ops::Div;

/// Comparing two arrays decides whether their lists of entries are one.
pub fn array_equality_is_of_entries<F: Field + Inhabited, const N: usize>(
    x: FieldArray<F, N>,
    y: FieldArray<F, N>,
)
    ensures { Decides (⟦<FieldArray<F, N> as PartialEq>⟧.eq x y) (x.items ≡ y.items) }
{}

/// The default array is zero in each entry.
pub fn default_array_is_zero<F: PrimeCharacteristicRing + Inhabited, const N: usize>(
    x: FieldArray<F, N>,
)
    ensures { ⟦<FieldArray<F, N> as Default>⟧.is_default x → (d : F) (k : ℕ) → k < N → get_or x.items k d ≡ F.ops.zero }
{}

/// The array of a list has just its entries.
pub fn array_of_list_has_its_entries<F: Inhabited, const N: usize>(
    list: [F; N],
    x: FieldArray<F, N>,
)
    ensures { ⟦<FieldArray<F, N> as From<[F; N]>>⟧.from_gives list x → x.items ≡ list }
{}

/// An array may be divided by a value that has an inverse, and each entry of the quotient times the
/// value is the entry of the array.
pub fn array_quotient_by_entries<F: Field + Inhabited, const N: usize>(
    x: FieldArray<F, N>,
    divisor: F,
    quotient: FieldArray<F, N>,
)
    ensures allowed { Invertible F.ops divisor → ⟦<FieldArray<F, N> as Div<F>>⟧.can_div x divisor }
    ensures entries { ⟦<FieldArray<F, N> as Div<F>>⟧.div_gives x divisor quotient → (d : F) (k : ℕ) → k < N → F.ops.mul (get_or quotient.items k d) divisor ≡ get_or x.items k d }
{}
