// The listing of a directory.
#![tactic(auto)]

mod digits;
pub mod line;
mod totals;
pub mod write;
