//! Extension values as bytes and words.
ghost use Rattle.std.specs.Prelude.{◌*◌, ◌<◌, ◌^◌};

use super::ext_field::ExtField;
use p3_extension_traits::streams::{ByteStream, RawDataSerializable};
use std::array::IntoIter;

/// A base over which the bytes of D coefficients are counted by a `usize`: what an extension of
/// degree D asks for to be written as bytes. The fact is computed at each base and degree. This
/// project's own; upstream's constant doesn't compile where it doesn't fit.
pub trait ByteCountFits<const D: usize>: RawDataSerializable {
    /// D coefficients make fewer than `2^64` bytes.
    ghost fits: { Self.NUM_BYTES * D < 2 ^ 64 };
}

/// A base over whose extensions of degree D the bytes of E coefficients are counted by a `usize`:
/// what an extension of degree E of such an extension asks for. This project's own.
pub trait NestedByteCountFits<const D: usize, const E: usize>: ByteCountFits<D> {
    /// E coefficients of D coefficients each make fewer than `2^64` bytes.
    ghost nested_fits: { Self.NUM_BYTES * D * E < 2 ^ 64 };
}

impl<F: NestedByteCountFits<D, E> + Copy, const D: usize, const E: usize, S: Copy> ByteCountFits<E>
    for ExtField<F, D, S, F> {
    ghost fits = { F.nested_fits };
}

/// The bytes of the coefficients, one coefficient after the other, from the constant one upward.
/// The streams over many values are the calls of the trait. Upstream's `RawDataSerializable` of its
/// extension types.
impl<F: ByteCountFits<D> + Copy, const D: usize, S: Copy> RawDataSerializable
    for ExtField<F, D, S, F> {
    ghost use Rattle.p3_extension_traits.specs.Streams.{byte_stream};
    ghost use Rattle.p3_extension.specs.ValueBytes.{byte_count};

    const NUM_BYTES: usize = F::NUM_BYTES * D;

    ghost NUM_BYTES = { F.NUM_BYTES * D };

    ghost bytes = { λ x. byte_stream F.bytes x.value };

    type Bytes = ByteStream<IntoIter<F, D>, F::Bytes>;

    #[inline]
    fn into_bytes(self) -> Self::Bytes {
        let coefficients = self.value.into_iter();
        F::into_byte_stream(coefficients)
    }

    /// Byte i of the value, read from its coefficient alone.
    #[inline]
    fn byte_at(self, i: usize) -> u8 {
        let width = F::NUM_BYTES;
        let coefficient = self.value[i / width];
        coefficient.byte_at(i % width)
    }

    ghost num_bytes = { byte_count F.bytes F.num_bytes };
}
