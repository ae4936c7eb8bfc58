//! Tests of inverses in extensions that are no fields. Their polynomials are products of factors `X - root`, so that
//! some values other than zero have no inverse, and products of nonzero values are zero.
#![tactic(auto)]

#[cfg(test)]
mod extensions;
#[cfg(test)]
mod plain;
#[cfg(test)]
mod split_tables;
#[cfg(test)]
mod splits;
#[cfg(test)]
mod value_calls;
