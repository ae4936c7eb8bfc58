//! Shamir's secret sharing over BabyBear: each line of standard input asks for shares or for a secret, which
//! are printed. The first line that is refused is told on standard error, and ends the program with status 1.
#![tactic(auto)]

#[cfg(test)]
mod tests;

use example_shares::lines::answer;
use p3_prime_fields::baby_bear::BabyBear;
use std::process::ExitCode;

fn main(rt: HostRuntime) -> ExitCode {
    for line in rt.lines(rt.alloc()) {
        let Ok(line) = line else {
            let _ = eprintln!(rt; "a line was not read");
            return ExitCode::FAILURE;
        };
        match answer::<BabyBear>(rt.alloc(), line.as_str()) {
            Ok(text) => {
                if print!(rt; "{text}").is_err() {
                    return ExitCode::FAILURE;
                }
            }
            Err(error) => {
                let _ = eprintln!(rt; "{error}: {line}");
                return ExitCode::FAILURE;
            }
        }
    }
    ExitCode::SUCCESS
}
