//! The bench: its fields, their extensions and packings, and the calculator over them.
#![tactic(auto)]

pub use p3_calculator::{engine, engine_in, field, laws, registers};
pub use p3_calculator_text::memory::{MemSink, MemSource};
pub use p3_calculator_text::standard::{StdSink, StdSource};
pub use p3_calculator_text::streams::{ReadFailed, Sink, Source, WriteFailed, write_all};
pub use p3_fields::{
    BabyBear, BabyBearx4, F2, F2t5, F2t7, F17, F17b, F17bx2, F17t5, F17x2, F17x4, F17x8, F31, F31c,
    F31cx2, F31t3, F31x3, F31x5, F31x6, Fp, Goldilocks, KoalaBear, Packed, Z15, Z15x2,
};
