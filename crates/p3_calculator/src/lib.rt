//! The calculator over the fields of the bench: it reads lines, computes with values of finite
//! fields and their extensions, and writes the values that it is asked to show.
#![tactic(auto)]

mod act;
mod bank;
mod bases;
pub mod field;
pub mod laws;
mod lists;
mod machine;
mod names;
mod primes;
pub mod registers;
mod run;
mod step;
mod zeros;

pub use p3_calculator_text::memory::{MemSink, MemSource};
pub use p3_calculator_text::standard::{StdSink, StdSource};
pub use p3_calculator_text::streams::{ReadFailed, Sink, Source, WriteFailed, write_all};
pub use run::{engine, engine_in};
