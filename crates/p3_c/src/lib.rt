//! The calls that C makes: each is one of the library's calls over words, at one field. Every call takes every input,
//! answers a status, and leaves what was lent as it was where the status is not `P3_OK`.
#![tactic(auto)]

pub mod baby_bear_calls;
pub mod goldilocks_calls;
pub mod koala_bear_calls;
pub mod quartic_calls;
