//! The text of an extension value, as a polynomial in X.
ghost use Rattle.std.specs.Prelude.{◌≡◌, ℕ, Some, List, Bool};
ghost use Rattle.std.specs.Fmt.{WritesOnOk};
ghost use Rattle.p3_theory.specs.Polynomials.Text.{power_text, term_text, next_text, polynomial_text};

use super::ext_field::ExtField;
use p3_field_traits::field::Field;
use std::fmt;

/// Writes `X` or `X^i`.
fn write_power<W: fmt::Write>(f: &mut fmt::Formatter<W>, i: usize) -> fmt::Result
    ensures { WritesOnOk W.write_str_gives f.old result (power_text i) f.new }
{
    if i == 1 {
        write!(f, "X")
    } else {
        write!(f, "X^{i}")
    }
}

/// Writes what `Display` writes, under the smallest bound.
fn write_shown<C: fmt::Display + Copy, W: fmt::Write>(
    f: &mut fmt::Formatter<W>,
    c: C,
) -> fmt::Result
    ensures { (text : List ℕ) → C.output c ≡ Some text → WritesOnOk W.write_str_gives f.old result text f.new }
{
    write!(f, "{c}")
}

/// Writes a coefficient's own text.
fn write_coefficient<F: Field, W: fmt::Write>(f: &mut fmt::Formatter<W>, c: F) -> fmt::Result
    ensures { WritesOnOk W.write_str_gives f.old result (F.text c) f.new }
{
    write_shown(f, c)
}

/// Writes the term of a coefficient at `X^i`.
fn write_term<F: Field, W: fmt::Write>(f: &mut fmt::Formatter<W>, i: usize, c: F) -> fmt::Result
    ensures { WritesOnOk W.write_str_gives f.old result (term_text i (F.eq c F.ops.one) (F.text c)) f.new }
{
    if i == 0 {
        return write_coefficient(f, c);
    }
    if c == F::one() {
        return write_power(f, i);
    }
    write_coefficient(f, c)?;
    write!(f, " ")?;
    write_power(f, i)
}

/// Writes a term and what joins it to those before it.
fn write_next<F: Field, W: fmt::Write>(
    f: &mut fmt::Formatter<W>,
    begun: bool,
    i: usize,
    c: F,
) -> fmt::Result
    ensures { WritesOnOk W.write_str_gives f.old result (next_text begun i (F.eq c F.ops.one) (F.text c)) f.new }
{
    if begun {
        write!(f, " + ")?;
    }
    write_term(f, i, c)
}

/// The nonzero terms from the constant one upward, joined by ` + `, and `0` for zero: `3 + 11 X`.
impl<F: Field, const D: usize, S: Copy> fmt::Display for ExtField<F, D, S, F> {
    ghost output = { λ x. Some (polynomial_text (λ c. F.eq c F.ops.zero) (λ c. F.eq c F.ops.one) F.text x.value) };

    fn fmt<W: fmt::Write>(&self, f: &mut fmt::Formatter<W>) -> fmt::Result {
        let mut begun = false;
        for i in 0..D {
            let c = self.value[i];
            if c != F::zero() {
                write_next(f, begun, i, c)?;
                begun = true;
            }
        }
        if !begun {
            write!(f, "0")?;
        }
        Ok(())
    }
}
