//! Tests of lists of values: batch inversion, the growths of memory that calls ask for, cosets, the values of
//! polynomials, and values of a small prime field packed as limbs of a large one.
#![tactic(auto)]

#[cfg(test)]
mod batch_inverses;
#[cfg(test)]
mod coset_values;
#[cfg(test)]
mod cosets;
#[cfg(test)]
mod fields;
#[cfg(test)]
mod growths;
#[cfg(test)]
mod inverses;
#[cfg(test)]
mod large_cosets;
#[cfg(test)]
mod limbs;
#[cfg(test)]
mod plain_ring;
#[cfg(test)]
mod points;
#[cfg(test)]
mod rings;
#[cfg(test)]
mod texts;
