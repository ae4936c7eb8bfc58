//! The calculator on standard input and output. Its arguments are ignored, and it writes nothing
//! to standard error.
#![tactic(auto)]

use p3_calculator::{StdSink, StdSource, engine};
use std::process::ExitCode;

fn main(rt: HostRuntime) -> ExitCode {
    let mut reader = StdSource::new(rt.stdin());
    let mut writer = StdSink::new(rt.stdout());
    ExitCode::from(engine(rt.alloc(), &mut reader, &mut writer))
}
