//! Fields from which uniform bits are drawn.
/// A field from which uniform bits can be drawn, as two constants of its own, of which nothing is
/// claimed. Upstream's `UniformSamplingField`.
pub trait UniformSamplingField {
    /// The most bits that one field element gives.
    const MAX_SINGLE_SAMPLE_BITS: usize;

    /// At index k the greatest multiple of 2^k that is at most the order.
    const SAMPLING_BITS_M: [u64; 64];
}
