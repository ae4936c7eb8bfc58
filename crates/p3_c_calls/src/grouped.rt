//! Values that are stored as a group of words each.
ghost use Rattle.std.specs.Prelude.{◌≡◌, List, All, length};

use p3_c_words::blocks::{read, write};
use p3_c_words::stored::Stored;
use p3_extension::extension::ExtField;

/// Values that are stored as D words each, one after the other.
pub trait Grouped<T: Copy, const D: usize>: Copy {
    /// What may be a word of a value.
    ghost stands: { T → Type 0 };

    /// The words of a value.
    ghost group: { Self → List T };

    /// The value with these words.
    fn read_group(words: &[T]) -> Self
        requires width { length words.now ≡ D }
        requires stand { All stands words.now }
        ensures { group result ≡ words.now };

    /// Writes the value's words.
    fn write_group(&self, words: &mut [T])
        requires { length words.old ≡ D }
        ensures { words.new ≡ group self.now };

    /// Each value has D words.
    ghost widths: { (x : Self) → length (group x) ≡ D };
}

/// The words of the coefficients, the constant one first.
impl<F: Stored<T>, T: Copy, const D: usize, S: Copy> Grouped<T, D> for ExtField<F, D, S, F> {
    ghost use Rattle.std.specs.Prelude.{map};
    ghost use Rattle.std.proofs.Common.{◌∙◌};
    ghost use Rattle.std.proofs.lemmas.List.{length-map};
    ghost use Rattle.p3_c_words.specs.Words.{Stands};

    ghost stands = { Stands F.words };

    ghost group = { λ x. map F.words.word x.value };

    #[inline]
    fn read_group(words: &[T]) -> Self {
        let mut value = [F::zero(); D];
        read(words, &mut value);
        ExtField::<F, D, S, F>::new(value)
    }

    #[inline]
    fn write_group(&self, words: &mut [T]) {
        write(&self.value, words);
    }

    ghost widths = { λ x. length-map x.value F.words.word ∙ x.sized };
}
