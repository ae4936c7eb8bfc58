//! Values by their numbers, those of an extension value being its coefficients, and their bytes or words. Those of
//! `f2` are outside values, the others worked.

/// Values of `f2`.
pub(crate) const F2: &str = "into_byte_stream;;
into_byte_stream;1,1,1,1;1,0,0,0,1,0,0,0,1,0,0,0,1,0,0,0
into_byte_stream;1,1,1,1,1,1,1,1;1,0,0,0,1,0,0,0,1,0,0,0,1,0,0,0,1,0,0,0,1,0,0,0,1,0,0,0,1,0,0,0
into_u64_stream;1,1,0;4294967297,0
into_u64_stream;1,1,0,1,1,0,0;4294967297,4294967296,1,0";

/// Values of `f17`.
pub(crate) const F17: &str = "into_bytes;20;3,0,0,0
into_u64_stream;1,2,3;8589934593,3";

/// Values of `gl`, the greatest canonical one among them.
pub(crate) const GOLDILOCKS: &str = "into_byte_stream;258;2,1,0,0,0,0,0,0
into_u32_stream;18446744069414584320;0,4294967295";

/// Values of `bb`, which are stored as words in Montgomery's form.
pub(crate) const BABY_BEAR: &str = "into_bytes;1;254,255,255,15
into_bytes;220298451;148,211,252,67
into_u64_stream;1,2;2305842992302260222
into_u64_stream;;";

/// Values of `kb`, which are stored as words in Montgomery's form.
pub(crate) const KOALA_BEAR: &str = "into_bytes;1;254,255,255,1
into_bytes;123456789;77,187,42,36
into_u32_stream;2130706432;2097152003
into_u64_stream;1,2;288230359005396990";

/// Values of the extension of `f17` by `X^2 = 3`.
pub(crate) const F17X2: &str = "into_byte_stream;1,2,20,16;1,0,0,0,2,0,0,0,3,0,0,0,16,0,0,0";

/// Values of the extension of `bb` of degree 4: `2013265919 X^2 + 1655397457 X^3`, and
/// `1 + 1006632961 X + 1435861115 X^2`.
pub(crate) const BABY_BEAR_X4: &str =
    "into_byte_stream;0,0,2013265919,1655397457,1,1006632961,1435861115,0;0,0,0,0,0,0,0,0,5,0,0,88,51,93,129,21,254,255,255,15,255,255,255,7,183,186,107,17,0,0,0,0
into_u32_stream;;";

/// Words of 32 bits, which are written with their lowest bytes first.
pub(crate) const WORDS: &str = "into_byte_stream;1,2,3;1,0,0,0,2,0,0,0,3,0,0,0
into_u32_stream;1,2,3;1,2,3
into_u64_stream;1,2,3;8589934593,3";

/// The bytes of the words 1 and 2, and beside each that of the words 5 and 6.
pub(crate) const BYTES_SIDE_BY_SIDE: &str = "1,5,0,0,0,0,0,0,2,6,0,0,0,0,0,0";
