//! The call from C of the calculator.
use p3_calculator::{MemSink, MemSource, engine};
use std::alloc::{AllocError, Global};

/// Runs the calculator over the input, and writes what it writes as far as there is room: how many
/// bytes that are.
fn run(alloc: Global, input: &[u8], output: &mut [u8]) -> Result<usize, AllocError> {
    let bytes = Vec::from_slice(alloc, input)?;
    let mut source = MemSource::new(bytes, 4096, None);
    let mut sink = MemSink::new(alloc, output.len(), true)?;
    engine(alloc, &mut source, &mut sink);
    let text = sink.text();
    let count = text.len().min(output.len());
    output[..count].copy_from_slice(&text[..count]);
    Ok(count)
}

/// Runs the calculator over the input, and writes what it writes as far as there is room. The
/// answer is how many bytes that are, and 0 where the memory is refused.
#[unsafe(no_mangle)]
pub extern "C" fn p3_speed_calculator(alloc: Global, input: &[u8], output: &mut [u8]) -> usize {
    run(alloc, input, output).unwrap_or(0)
}
