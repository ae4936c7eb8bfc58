//! The words of N values as words of 32 bits, and back.
ghost use Rattle.std.specs.Prelude.{◌≡◌, ◌≤◌, ◌<◌, ◌^◌, ℕ, length, get_or};

use crate::form::{Form, Word};
use crate::fp::Fp;

/// Up to how many values go as vectors.
pub const MOST_LANES: usize = 64;

/// The words of N values, which 32 bits hold.
#[inline(always)]
pub fn words_of<W: Form<T>, T: Word, const N: usize>(values: &[Fp<W, T>; N]) -> [u32; N]
    requires { W.ORDER ≤ 2 ^ 32 }
    ensures length { length result ≡ N }
    ensures words { (d : ℕ) (x : Fp W T W.Form T.Word) (k : ℕ) → k < N → get_or result k d ≡ W.number (get_or values.now k x).word }
{
    let mut words = [0; N];
    for i in 0..N {
        let value = values[i];
        words[i] = value.short_word();
    }
    words
}

/// The values with these words.
#[inline(always)]
pub fn values_of<W: Form<T>, T: Word, const N: usize>(words: &[u32; N]) -> [Fp<W, T>; N]
    requires { (d : ℕ) (k : ℕ) → k < N → get_or words.now k d < W.ORDER }
    ensures length { length result ≡ N }
    ensures words { (d : ℕ) (x : Fp W T W.Form T.Word) (k : ℕ) → k < N → W.number (get_or result k x).word ≡ get_or words.now k d }
{
    let mut values = [Fp::<W, T>::with_short_word(0); N];
    for i in 0..N {
        values[i] = Fp::with_short_word(words[i]);
    }
    values
}
