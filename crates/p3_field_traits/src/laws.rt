//! Laws of fields, as contracts for other crates to stand on.
ghost use Rattle.std.specs.Prelude.{◌≡◌, ◌≢◌, ◌-◌, IsSome, IfSome};
ghost use Rattle.p3_theory.specs.Rings.Powers.{power};
ghost use Rattle.p3_theory.specs.Rings.ZeroDivisors.{HasNoZeroDivisors};

use crate::field::Field;

/// Fermat's little theorem: where the order n is given and no product of values but zero is zero,
/// each value but zero to the power n - 1 is one.
pub fn fermat<F: Field>(x: F)
    requires given { IsSome F.size }
    requires no_zero_divisors { HasNoZeroDivisors F.ops }
    requires nonzero { x ≢ F.ops.zero }
    ensures { IfSome F.size (λ n. power F.ops x (n - 1) ≡ F.ops.one) }
{}
