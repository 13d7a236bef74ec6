// The bytes of a directory, read as values.
#![tactic(auto)]

pub mod chain;
pub mod entry;
mod order;
pub mod walk;
