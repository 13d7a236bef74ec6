// One segment of the directory as a list of entries: decoded, edited, and encoded again.
#![tactic(auto)]

pub mod bytes;
mod entries;
pub mod join;
pub mod splice;
