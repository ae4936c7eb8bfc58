//! Tests of the calculator: worked runs over its streams, in pieces of every size, with a read that fails at each
//! place, with a write that fails or takes nothing, and with each growth of memory refused; runs whose texts were
//! made outside; and laws.
#![tactic(auto)]

#[cfg(test)]
mod example_runs;
#[cfg(test)]
mod failing_streams;
#[cfg(test)]
mod growths;
#[cfg(test)]
mod laws;
#[cfg(test)]
mod lines;
#[cfg(test)]
mod outside_runs;
#[cfg(test)]
mod reads;
#[cfg(test)]
mod runs;
#[cfg(test)]
mod worked_runs;
#[cfg(test)]
mod writes;
