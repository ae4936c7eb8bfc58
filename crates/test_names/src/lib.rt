//! Calls as a user writes them: generic functions of one's own, called directly at types that have names.
#![tactic(auto)]

#[cfg(test)]
mod cubic;
#[cfg(test)]
mod functions;
