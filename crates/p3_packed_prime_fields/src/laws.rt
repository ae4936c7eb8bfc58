//! Laws of packings of residues, as contracts for other crates to stand on.
ghost use Rattle.std.specs.Prelude.{◌≡◌, ◌≤◌, ◌<◌, ◌^◌, ◌⊎◌, ◌↔◌, ℕ, true, Decides, get_or};
ghost use Rattle.p3_theory.specs.Rings.Ring.{subtract};
ghost use Rattle.p3_prime_fields.specs.declared.fp.Fp.{Fp};
ghost use Rattle.p3_prime_fields.specs.Elements.{ops};

use crate::lane_dot_products::LaneDotProducts;
use crate::packed::Packed;
use p3_field_traits::field::Field;
use p3_prime_fields::form::{Form, Word};
use p3_prime_fields::fp::Fp;
use std::ops::{Add, Mul, Sub};

/// Comparing two packings decides whether their lists of lanes are one.
pub fn packing_equality_is_of_lanes<F: Field, const N: usize>(x: Packed<F, N>, y: Packed<F, N>)
    ensures { Decides (⟦<Packed<F, N> as PartialEq>⟧.eq x y) (x.value ≡ y.value) }
{}

/// The default packing is zero in each lane.
pub fn default_packing_is_zero<W: Form<T>, T: Word, const N: usize>(x: Packed<Fp<W, T>, N>)
    ensures { ⟦<Packed<Fp<W, T>, N> as Default>⟧.is_default x → (d : Fp W T W.Form T.Word) (k : ℕ) → k < N → get_or x.value k d ≡ (ops W.Form).zero }
{}

/// The packing of a list has just its entries, from lane 0 upward.
pub fn packing_of_list_has_its_entries<F: Copy, const N: usize>(list: [F; N], x: Packed<F, N>)
    ensures { ⟦<Packed<F, N> as From<[F; N]>>⟧.from_gives list x → x.value ≡ list }
{}

/// The packing of a value has it in each lane.
pub fn packing_of_value_has_it_in_each_lane<W: Form<T>, T: Word, const N: usize>(
    value: Fp<W, T>,
    x: Packed<Fp<W, T>, N>,
)
    ensures { ⟦<Packed<Fp<W, T>, N> as From<Fp<W, T>>>⟧.from_gives value x → (d : Fp W T W.Form T.Word) (k : ℕ) → k < N → get_or x.value k d ≡ value }
{}

/// A value plus, less and times a packing on its right is at each lane the value plus, less and times
/// that lane.
pub fn left_operators_by_lanes<W: Form<T>, T: Word, const N: usize>(
    value: Fp<W, T>,
    x: Packed<Fp<W, T>, N>,
    r: Packed<Fp<W, T>, N>,
)
    ensures sum { ⟦<Fp<W, T> as Add<Packed<Fp<W, T>, N>>>⟧.add_gives value x r → (d : Fp W T W.Form T.Word) (k : ℕ) → k < N → get_or r.value k d ≡ (ops W.Form).add value (get_or x.value k d) }
    ensures difference { ⟦<Fp<W, T> as Sub<Packed<Fp<W, T>, N>>>⟧.sub_gives value x r → (d : Fp W T W.Form T.Word) (k : ℕ) → k < N → get_or r.value k d ≡ subtract (ops W.Form) value (get_or x.value k d) }
    ensures product { ⟦<Fp<W, T> as Mul<Packed<Fp<W, T>, N>>>⟧.mul_gives value x r → (d : Fp W T W.Form T.Word) (k : ℕ) → k < N → get_or r.value k d ≡ (ops W.Form).mul value (get_or x.value k d) }
{}

/// Residues have dot products of rows at once in Montgomery's form, and where each is its own word and
/// the order is at most 2^7: of rows of at most 64 values.
pub fn dot_products_at_once<W: Form<T>, T: Word, const N: usize>()
    ensures { ⟦<Fp<W, T> as LaneDotProducts<N>>⟧.at_once ↔ ((N ≤ 64) × ((0 < W.INVERSE) ⊎ ((W.PLAIN ≡ true) × (W.ORDER ≤ 2 ^ 7)))) }
{}
