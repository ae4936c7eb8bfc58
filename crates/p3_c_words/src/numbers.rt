//! Canonical numbers and stored words, in place.
ghost use Rattle.p3_c_words.specs.Calls.{WritesNumbers, WritesWords, Checks};

use crate::refusal::Refusal;
use crate::stored::Stored;

/// Writes over each number the word of its value; refused where a number is not below the order.
#[inline]
pub fn from_canonical<F: Stored<T>, T: Copy>(words: &mut [T]) -> Result<(), Refusal>
    ensures { WritesWords F.words words.old words.new result }
{
    if !F::all_stand(words) {
        return Err(Refusal::Word);
    }
    for i in 0..words.len() {
        words[i] = F::of_number(words[i]).to_word();
    }
    Ok(())
}

/// Writes over each word the canonical number of its value.
#[inline]
pub fn to_canonical<F: Stored<T>, T: Copy>(words: &mut [T]) -> Result<(), Refusal>
    ensures { WritesNumbers F.words words.old words.new result }
{
    if !F::all_stand(words) {
        return Err(Refusal::Word);
    }
    for i in 0..words.len() {
        words[i] = F::of_word(words[i]).to_number();
    }
    Ok(())
}

/// Refuses words that are not all below the order.
#[inline]
pub fn check<F: Stored<T>, T: Copy>(words: &[T]) -> Result<(), Refusal>
    ensures { Checks F.words words.now result }
{
    if F::all_stand(words) {
        Ok(())
    } else {
        Err(Refusal::Word)
    }
}
