//! The calls that take memory, what each is given, what it answers and how often it asks for memory.
use super::numbers::{ORDER, Pair, Sequence, bytes, digits, terms};
use std::alloc::{AllocError, Allocator};

/// A call, with what tells its input and its answer.
#[derive(Clone, Copy)]
pub(crate) enum Call {
    /// Zeros.
    ZeroVec,
    /// Powers from a start.
    CollectN(Sequence),
    /// Powers from a start, bounded first.
    Collect(Sequence),
    /// The coefficients of values.
    FlattenToBase(Sequence),
    /// The values of coefficients.
    ReconstituteFromBase(Sequence),
    /// Inverses of entries.
    BatchInverse {
        entries: Sequence,
        inverses: Sequence,
    },
    /// A value and its image under the Frobenius map.
    GaloisOrbit {
        value: Pair,
        image: Pair,
    },
    /// A name as an algebra.
    AlgebraId(&'static str),
    /// The digits of a number in radix `2^radix_bits`.
    PackedLimbs {
        number: u64,
        radix_bits: u32,
    },
    /// The digits of a number in the order.
    FieldOrderLimbs(u64),
    /// The digits of a number in radix `2^64`.
    Words(u64),
}

/// The items that a call answers, so many of them where the call takes their number.
pub(crate) fn answered<A: Allocator + Copy>(
    alloc: A,
    call: Call,
    count: usize,
) -> Result<Vec<Pair, A>, AllocError> {
    match call {
        Call::ZeroVec => terms(alloc, ZEROS, count),
        Call::CollectN(sequence)
        | Call::Collect(sequence)
        | Call::FlattenToBase(sequence)
        | Call::ReconstituteFromBase(sequence) => terms(alloc, sequence, count),
        Call::BatchInverse { inverses, .. } => terms(alloc, inverses, count),
        Call::GaloisOrbit { value, image } => Vec::from_slice(alloc, &[value, image]),
        Call::AlgebraId(name) => bytes(alloc, name),
        Call::PackedLimbs { number, radix_bits } => {
            let radix = 1u128.checked_shl(radix_bits).unwrap_or(0);
            digits(alloc, number, radix, count)
        }
        Call::FieldOrderLimbs(number) => digits(alloc, number, ORDER as u128, count),
        Call::Words(number) => digits(alloc, number, 1 << 64u32, count),
    }
}

/// How often a call asks for memory.
#[derive(Clone, Copy)]
pub(crate) enum Growths {
    /// Once, whatever it is given.
    Once,
    /// Once, and without items not at all.
    OnceForItems,
    /// Once for fewer than sixteen items, twice for more, and without items not at all.
    TwiceFromSixteen,
}

/// The growths that are asked for where there are so many items.
pub(crate) fn growths_at(growths: Growths, items: usize) -> u64 {
    match growths {
        Growths::Once => 1,
        _ if items == 0 => 0,
        Growths::TwiceFromSixteen if 16 <= items => 2,
        _ => 1,
    }
}

/// A call by its name, and how often it asks for memory.
pub(crate) type Row = (&'static str, Call, Growths);

/// Zero again and again.
const ZEROS: Sequence = Sequence {
    first: (0, 0),
    ratio: (0, 0),
};

/// The powers of three, from five.
const OF_THREE: Sequence = Sequence {
    first: (5, 0),
    ratio: (3, 0),
};

/// The powers of six, which is the inverse of three, from seven, which is that of five.
const OF_SIX: Sequence = Sequence {
    first: (7, 0),
    ratio: (6, 0),
};

/// The powers of `1 + 2 X`, from `2 + X`.
const OF_PAIR: Sequence = Sequence {
    first: (2, 1),
    ratio: (1, 2),
};

/// The powers of `3 + 11 X`, which is the inverse of `1 + 2 X`, from `2 + 16 X`, which is that of `2 + X`.
const OF_INVERSE_PAIR: Sequence = Sequence {
    first: (2, 16),
    ratio: (3, 11),
};

/// Over the residues modulo 17.
pub(crate) const SCALARS: [Row; 7] = [
    ("zero_vec", Call::ZeroVec, Growths::OnceForItems),
    (
        "collect_n",
        Call::CollectN(OF_THREE),
        Growths::TwiceFromSixteen,
    ),
    (
        "collect",
        Call::Collect(OF_THREE),
        Growths::TwiceFromSixteen,
    ),
    (
        "flatten_to_base",
        Call::FlattenToBase(OF_THREE),
        Growths::OnceForItems,
    ),
    (
        "reconstitute_from_base",
        Call::ReconstituteFromBase(OF_THREE),
        Growths::OnceForItems,
    ),
    (
        "batch_multiplicative_inverse",
        Call::BatchInverse {
            entries: OF_THREE,
            inverses: OF_SIX,
        },
        Growths::OnceForItems,
    ),
    (
        "algebra_id",
        Call::AlgebraId("p3-scalar-basis-v1"),
        Growths::Once,
    ),
];

/// Over their extension by `X^2 = 3`.
pub(crate) const PAIRS: [Row; 8] = [
    ("zero_vec", Call::ZeroVec, Growths::OnceForItems),
    (
        "collect_n",
        Call::CollectN(OF_PAIR),
        Growths::TwiceFromSixteen,
    ),
    ("collect", Call::Collect(OF_PAIR), Growths::TwiceFromSixteen),
    (
        "flatten_to_base",
        Call::FlattenToBase(OF_PAIR),
        Growths::OnceForItems,
    ),
    (
        "reconstitute_from_base",
        Call::ReconstituteFromBase(OF_PAIR),
        Growths::OnceForItems,
    ),
    (
        "batch_multiplicative_inverse",
        Call::BatchInverse {
            entries: OF_PAIR,
            inverses: OF_INVERSE_PAIR,
        },
        Growths::OnceForItems,
    ),
    (
        "galois_orbit",
        Call::GaloisOrbit {
            value: (1, 2),
            image: (1, 15),
        },
        Growths::Once,
    ),
    ("algebra_id", Call::AlgebraId("bench:f17x2"), Growths::Once),
];

/// The greatest residue modulo 17, split into such residues.
pub(crate) const LIMBS: [Row; 3] = [
    (
        "split_pf_to_packed_limbs",
        Call::PackedLimbs {
            number: 16,
            radix_bits: 3,
        },
        Growths::OnceForItems,
    ),
    (
        "split_pf_to_field_order_limbs",
        Call::FieldOrderLimbs(16),
        Growths::OnceForItems,
    ),
    ("split_32", Call::Words(16), Growths::OnceForItems),
];
