// How numbers and text lie in the bytes of a volume.
#![tactic(auto)]

pub mod date;
pub mod digits;
pub mod name;
pub mod words;
