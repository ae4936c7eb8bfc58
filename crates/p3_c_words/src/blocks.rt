//! Blocks of words as values, and back.
ghost use Rattle.std.specs.Prelude.{◌≡◌, IfOk, length, map};
ghost use Rattle.p3_c_words.specs.Words.{AllStand};

use crate::stored::Stored;
use std::alloc::{AllocError, Global};

/// Writes the values that the words stand for.
#[inline(always)]
pub fn read<F: Stored<T>, T: Copy>(words: &[T], values: &mut [F])
    requires lengths { length words.now ≡ length values.old }
    requires stand { AllStand F.words words.now }
    ensures { values.new ≡ map F.words.value words.now }
{
    for i in 0..words.len() {
        values[i] = F::of_word(words[i]);
    }
}

/// Writes the words that stand for the values.
#[inline(always)]
pub fn write<F: Stored<T>, T: Copy>(values: &[F], words: &mut [T])
    requires { length values.now ≡ length words.old }
    ensures { words.new ≡ map F.words.word values.now }
{
    for i in 0..values.len() {
        words[i] = values[i].to_word();
    }
}

/// The values that the words stand for as a vector; `Err` where the memory for them is refused.
#[inline]
pub fn values_of<F: Stored<T>, T: Copy>(alloc: Global, words: &[T]) -> Result<Vec<F>, AllocError>
    requires { AllStand F.words words.now }
    ensures { IfOk result (λ values. values.items ≡ map F.words.value words.now) }
{
    let mut values = F::zero_vec(alloc, words.len())?;
    read(words, &mut values);
    Ok(values)
}
