//! The calls from C of the loops that are timed, at the types of the bench, and one of the
//! calculator.
#![tactic(auto)]

pub mod calculator_call;
pub mod coset_calls;
pub mod extension_calls;
pub mod lane_calls;
pub mod prime_calls;
