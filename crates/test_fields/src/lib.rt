//! Tests of rings and prime fields: worked rows and outside values as tables.
#![tactic(auto)]

#[cfg(test)]
mod byte_streams;
#[cfg(test)]
mod cases;
#[cfg(test)]
mod cosets;
#[cfg(test)]
mod field_calls;
#[cfg(test)]
mod lane_runs;
#[cfg(test)]
mod list_calls;
#[cfg(test)]
mod prime_tables;
#[cfg(test)]
mod prime_types;
#[cfg(test)]
mod readme;
#[cfg(test)]
mod residues;
#[cfg(test)]
mod ring_calls;
#[cfg(test)]
mod step_runs;
#[cfg(test)]
mod stored_words;
#[cfg(test)]
mod stream_tables;
#[cfg(test)]
mod streams;
#[cfg(test)]
mod tool_calls;
