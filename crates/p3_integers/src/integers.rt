//! Integers as residues: the remainder of each of the twelve integer types modulo the order of a ring.
ghost use Rattle.std.specs.Prelude.{◌≡◌, ◌<◌, ℕ, pos, MatchOption};
ghost use Rattle.p3_theory.specs.Rings.Multiples.{remainder_of, IsCanonical};

pub mod integer;

use integer::Integer;

/// A type whose values stand for the whole numbers below an order.
pub trait Quotient: Copy {
    /// How many whole numbers there are.
    ghost order: { ℕ };

    /// The whole number that a value stands for, its canonical value.
    ghost canon: { Self → ℕ };

    /// The canonical value is from 0 to the order less one.
    ghost below: { (x : Self) → canon x < order };
}

/// The map from an integer type to its quotient by the order. Upstream's `QuotientMap`.
pub trait QuotientMap<Int: Integer>: Quotient {
    /// The value of the integer's remainder modulo the order.
    fn from_int(int: Int) -> Self
        ensures { Self.canon result ≡ remainder_of (Int.value int) Self.order };

    /// The value of an integer from 0 to the order less one, and `None` at every other integer.
    fn from_canonical_checked(int: Int) -> Option<Self>
        ensures { MatchOption result (IsCanonical (Int.value int) Self.order → ⊥) (λ x. Int.value int ≡ pos (Self.canon x)) };

    /// The value of an integer that is known to be from 0 to the order less one.
    fn from_canonical_unchecked(int: Int) -> Self
        requires { IsCanonical (Int.value int) Self.order }
        ensures { Int.value int ≡ pos (Self.canon result) };
}

/// The value of every integer's remainder, by one map for all integer types, so that generic code
/// over rings has one bound in the place of twelve. This project's own; where `QuotientMap` is
/// implemented for every integer type at once, it is its `from_int`.
pub trait IntegerQuotient: Quotient {
    /// The value of the integer's remainder modulo the order.
    fn of_integer<Int: Integer>(int: Int) -> Self
        ensures { Self.canon result ≡ remainder_of (Int.value int) Self.order };
}
