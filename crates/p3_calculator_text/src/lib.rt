//! What the calculator reads and writes: the words of a line, the text of a fault, and sources and sinks of bytes, in
//! memory and over std's readers and writers. It names no field.
#![tactic(auto)]

pub mod commands;
pub mod faults;
pub mod memory;
pub mod report;
pub mod standard;
pub mod streams;
pub mod words;
