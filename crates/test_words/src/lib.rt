//! Tests of the calls over stored words that ask for memory: where they get it, each writes its answer.
#![tactic(auto)]

#[cfg(test)]
mod cosets;
#[cfg(test)]
mod extensions;
#[cfg(test)]
mod limbs;
#[cfg(test)]
mod runs;
