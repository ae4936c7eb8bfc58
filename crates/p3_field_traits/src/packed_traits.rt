//! The traits of packings of a field, whose lanes can be divided, and interleaved by blocks.
ghost use Rattle.std.specs.Prelude.{◌≡◌, ◌%◌, ◌^◌, ℕ};
ghost use Rattle.p3_theory.specs.Rings.Ring.{Invertible};
ghost use Rattle.p3_theory.specs.Lanes.Interleaves.{Interleaves};
ghost use Rattle.p3_ring.specs.PackedPowers.{PacksTerms};

use crate::field::Field;
pub use p3_integers::packed_value::{Inhabited, Packable, PackedValue};
use p3_ring::packed_ring::{PackedRing, packed_shifted_powers};
use p3_ring::powers::Powers;
use std::ops::{Div, DivAssign};

/// Values of a field side by side: what an operation gives at a lane is the field's own operation on
/// that lane. Upstream's `PackedField`, with the scalar as a parameter.
pub trait PackedField<F: Field>: PackedRing<F>
    + Inhabited
    + Div<Output = Self>
    + Div<F, Output = Self>
    + DivAssign
    + DivAssign<F> {
    /// Division is allowed by what has an inverse.
    ghost can_divide: { (x y : Self) → Invertible Self.ops y → ⟦<Self as Div<Self>>⟧.can_div x y };

    /// A quotient times the divisor is what was divided.
    ghost divides: { (x y r : Self) → ⟦<Self as Div<Self>>⟧.div_gives x y r → Self.ops.mul r y ≡ x };

    ghost can_divide_assign: { (x y : Self) → Invertible Self.ops y → ⟦<Self as DivAssign<Self>>⟧.can_div_assign x y };

    ghost divide_assigns: { (x y r : Self) → ⟦<Self as DivAssign<Self>>⟧.div_assign_gives x y r → Self.ops.mul r y ≡ x };

    /// Division by a scalar is allowed by one that has an inverse.
    ghost can_divide_scalar: { (x : Self) (f : F) → Invertible F.ops f → ⟦<Self as Div<F>>⟧.can_div x f };

    /// A quotient times the scalar is what was divided.
    ghost divides_scalar: { (x : Self) (f : F) (r : Self) → ⟦<Self as Div<F>>⟧.div_gives x f r → Self.ops.mul r (Self.embed f) ≡ x };

    ghost can_divide_assign_scalar: { (x : Self) (f : F) → Invertible F.ops f → ⟦<Self as DivAssign<F>>⟧.can_div_assign x f };

    ghost divide_assigns_scalar: { (x : Self) (f : F) (r : Self) → ⟦<Self as DivAssign<F>>⟧.div_assign_gives x f r → Self.ops.mul r (Self.embed f) ≡ x };

    /// The powers of the base from one upward, `WIDTH` of them in each item. Upstream's
    /// `packed_powers`.
    #[inline]
    final fn packed_powers(base: F) -> Powers<Self>
        ensures { PacksTerms Self.ops F.ops Self.lanes Self.WIDTH result.base result.current base F.ops.one }
    {
        Self::packed_shifted_powers(base, F::one())
    }

    /// The sequence `start`, `start * base`, `start * base^2`, .., `WIDTH` terms in each item.
    /// Upstream's `packed_shifted_powers`.
    #[inline]
    final fn packed_shifted_powers(base: F, start: F) -> Powers<Self>
        ensures { PacksTerms Self.ops F.ops Self.lanes Self.WIDTH result.base result.current base start }
    {
        packed_shifted_powers::<F, Self>(base, start)
    }
}

/// A field is a packing of width 1 of itself.
impl<F: Field + Packable> PackedField<F> for F {
    ghost can_divide = { F.can_divide };

    ghost divides = { F.divides };

    ghost can_divide_assign = { F.can_divide_assign };

    ghost divide_assigns = { F.divide_assigns };

    ghost can_divide_scalar = { F.can_divide };

    ghost divides_scalar = { F.divides };

    ghost can_divide_assign_scalar = { F.can_divide_assign };

    ghost divide_assigns_scalar = { F.divide_assigns };
}

/// A packing whose lanes can be interleaved with those of another by blocks. Upstream's
/// `PackedFieldPow2`.
pub trait PackedFieldPow2<F: Field>: PackedField<F> {
    /// The lanes of two packings, interleaved by blocks of so many lanes. The block length is a power
    /// of two that divides `WIDTH`.
    fn interleave(&self, other: Self, block_len: usize) -> (Self, Self)
        requires power { (k : ℕ) × (block_len ≡ 2 ^ k) }
        requires divides { Self.WIDTH % block_len ≡ 0 }
        ensures { Interleaves block_len Self.WIDTH (Self.lanes self.now) (Self.lanes other) (Self.lanes result.0) (Self.lanes result.1) };
}

/// One lane is the only block.
impl<F: Field + Packable> PackedFieldPow2<F> for F {
    #[inline]
    fn interleave(&self, other: F, block_len: usize) -> (F, F) {
        let _ = block_len;
        (*self, other)
    }
}
