//! The points of a coset, and the values of a polynomial over it.
ghost use Rattle.std.specs.Prelude.{◌≡◌, ◌<◌, ◌≤◌, ◌^◌, IfOk, length};
ghost use Rattle.p3_c_calls.specs.CosetCalls.{FindsCoset, HasSize, WritesCoset, WritesValues};
ghost use Rattle.p3_c_words.specs.Words.{Stands};

use p3_c_words::blocks::{values_of, write};
use p3_c_words::points::write_powers;
use p3_c_words::refusal::Refusal;
use p3_c_words::stored::Stored;
use p3_field_traits::field::TwoAdicField;
use p3_helpers::coset::TwoAdicMultiplicativeCoset;
use poly_eval::eval_coset;
use std::alloc::Global;

/// Refuses a log size past the two-adicity, and a count of items that isn't two to the log size.
#[inline]
fn check_size<F: TwoAdicField>(log_size: usize, count: usize) -> Result<(), Refusal>
    ensures { HasSize F.TWO_ADICITY log_size count result }
{
    if log_size > F::TWO_ADICITY || log_size >= 64 {
        return Err(Refusal::LogSize);
    }
    if count != 1 << log_size {
        return Err(Refusal::Length);
    }
    Ok(())
}

/// The coset of the shift and the log size.
#[inline]
fn find_coset<F: Stored<T> + TwoAdicField, T: Copy>(
    shift: T,
    log_size: usize,
) -> Result<TwoAdicMultiplicativeCoset<F>, Refusal>
    requires shift { Stands F.words shift }
    requires within { log_size ≤ F.TWO_ADICITY }
    ensures { FindsCoset F.ops (F.words.value shift) (λ c. (c.shift ≡ F.words.value shift) × (c.log_size ≡ log_size)) result }
{
    match TwoAdicMultiplicativeCoset::new(F::of_word(shift), log_size) {
        Some(coset) => Ok(coset),
        None => Err(Refusal::NoInverse),
    }
}

/// Writes the points of the coset of the shift, whose size is two to the log size. The room is for one block of them.
#[inline]
pub fn coset_points<F: Stored<T> + TwoAdicField, T: Copy>(
    shift: T,
    log_size: usize,
    points: &mut [T],
    room: &mut [F],
) -> Result<(), Refusal>
    requires { 0 < length room.old }
    ensures { WritesCoset F.ops F.words F.TWO_ADICITY F.two_adic shift log_size points.old points.new result }
{
    check_size::<F>(log_size, points.len())?;
    if !F::stands(shift) {
        return Err(Refusal::Word);
    }
    let coset = find_coset::<F, T>(shift, log_size)?;
    write_powers(coset.subgroup_generator(), coset.shift(), points, room);
    Ok(())
}

/// Writes the values over the coset of the polynomial with these coefficients, the constant one first.
#[inline]
pub fn coset_values<F: Stored<T> + TwoAdicField, T: Copy>(
    alloc: Global,
    coefficients: &[T],
    shift: T,
    log_size: usize,
    values: &mut [T],
) -> Result<(), Refusal>
    ensures { WritesValues F.ops F.words F.TWO_ADICITY F.two_adic coefficients.now shift log_size values.old values.new result }
{
    check_size::<F>(log_size, values.len())?;
    if !F::stands(shift) || !F::all_stand(coefficients) {
        return Err(Refusal::Word);
    }
    let coset = find_coset::<F, T>(shift, log_size)?;
    let Ok(coeffs) = values_of::<F, T>(alloc, coefficients) else {
        return Err(Refusal::Memory);
    };
    let Ok(results) = eval_coset(alloc, &coeffs, &coset) else {
        return Err(Refusal::Memory);
    };
    write(&results, values);
    Ok(())
}
