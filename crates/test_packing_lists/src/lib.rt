//! Tests of arrays, and of iterators over lanes and bytes: calls on arrays and their entries, arrays as packings, what
//! iterators say is left, and values of a polynomial at the lanes of vectors.
#![tactic(auto)]

#[cfg(test)]
mod arrays;
#[cfg(test)]
mod fields;
#[cfg(test)]
mod hashes;
#[cfg(test)]
mod iterators;
#[cfg(test)]
mod lanes;
#[cfg(test)]
mod texts;
#[cfg(test)]
mod vector_values;
