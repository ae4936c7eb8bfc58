//! Tests of vectors of packings and of packed extension values, and of runs of steps over them.
#![tactic(auto)]

#[cfg(test)]
mod extension_vectors;
#[cfg(test)]
mod extensions;
#[cfg(test)]
mod field_vectors;
#[cfg(test)]
mod packings;
#[cfg(test)]
mod run_tables;
#[cfg(test)]
mod runs;
#[cfg(test)]
mod values;
#[cfg(test)]
mod vector_runs;
