// The rules of a sound directory, each as a sentence about the directory, and the checks that decide them.
#![tactic(auto)]

pub mod entries;
pub mod first;
pub mod headers;
pub mod names;
