//! Values of polynomials over cosets of residues modulo 17, and the one growth that a list of them asks for.
ghost use Rattle.std.specs.Prelude.{◌<◌};

use crate::texts::{hold, values};
use p3_field_traits::field::TwoAdicField;
use p3_helpers::coset::TwoAdicMultiplicativeCoset;
use poly_eval::{eval_coset, eval_coset_in, eval_coset_into};
use std::alloc::{AllocError, Global};
use std::process::Abort;
use std::test::Fail;
use test_allocator::Refusing;
use test_values::canonical::Canonical;

/// The coefficients, the shift and the log size of a coset, and the values over it.
type Row = (&'static str, u64, usize, &'static str);

/// The first five rows are worked by hand, over the coset 3, 5, 14, 12: X^4 is 13 at each of the four items, and what
/// lies above the size of the coset is folded. The others are outside values.
const ROWS: [Row; 9] = [
    ("1 2 3", 3, 2, "0 1 5 15"),
    ("", 3, 2, "0 0 0 0"),
    ("0 0 0 0 1", 3, 2, "13 13 13 13"),
    ("0 0 0 0 0 1", 3, 2, "5 14 12 3"),
    ("1 2 3 5", 3, 2, "16 14 6 2"),
    ("", 1, 0, "0"),
    ("0 16 16 0 16 0 8 0", 9, 1, "11 12"),
    ("16", 16, 3, "16 16 16 16 16 16 16 16"),
    ("12 8", 14, 4, "5 8 0 10 6 11 9 3 2 16 7 14 1 13 15 4"),
];

/// Whether the list of values asks for memory once, where so many growths pass: it is the answer where that passes, and
/// refused where it doesn't, and no block is kept.
fn grows_once<F: TwoAdicField + Canonical>(
    alloc: Global,
    coeffs: &[F],
    coset: &TwoAdicMultiplicativeCoset<F>,
    passing: u64,
    answer: &str,
) -> bool
    requires { coset.now.log_size < 64 }
{
    let heap = Refusing::after(alloc, passing);
    let is_right = match eval_coset_in(&heap, coeffs, coset) {
        Ok(values) => 0 < passing && hold(&values, answer),
        Err(_) => passing == 0,
    };
    is_right && heap.growths() == 1 && heap.blocks() == 0
}

/// Whether the values over a coset, written over others and listed, are the answer, and the coefficients are as before;
/// false where there is no such coset.
fn row_agrees<F: TwoAdicField + Canonical>(alloc: Global, row: Row) -> Result<bool, AllocError> {
    let (coefficients, shift, log_size, answer) = row;
    let coeffs: Vec<F> = values(alloc, coefficients)?;
    let Some(coset) = TwoAdicMultiplicativeCoset::new(F::from_u64(shift), log_size) else {
        return Ok(false);
    };
    if coset.log_size() >= 64 {
        return Ok(false);
    }
    let mut out = Vec::new(alloc);
    for _ in 0..coset.size() {
        out.push(F::from_u64(9))?;
    }
    if out.len() != coset.size() {
        return Ok(false);
    }
    eval_coset_into(&coeffs, &coset, &mut out);
    let listed = eval_coset(alloc, &coeffs, &coset)?;
    for passing in 0..3 {
        if !grows_once(alloc, &coeffs, &coset, passing, answer) {
            return Ok(false);
        }
    }
    Ok(hold(&out, answer) && hold(&listed, answer) && hold(&coeffs, coefficients))
}

/// Asserts the rows.
pub(crate) fn assert_values<F: TwoAdicField + Canonical>(
    rt: &(impl Abort + AllocGlobal),
) -> Result<(), Fail> {
    for row in ROWS {
        assert!(rt; row_agrees::<F>(rt.alloc(), row)?, "{} {}", row.0, row.1);
    }
    Ok(())
}
