//! Loops over fields, extensions, their packings, slices and cosets, to be timed: each runs the library's own code as
//! often as it is told, and answers numbers that depend on all of it.
#![tactic(auto)]

pub mod batch_loops;
pub mod coset_rounds;
mod coset_values;
pub mod extension_loops;
pub mod extensions;
mod inversions;
pub mod lane_loops;
pub mod packed_loops;
mod packings;
pub mod prime_loops;
pub mod primes;
mod residues;
mod rounds;
pub mod slice_loops;
mod slice_rounds;
