// An RT-11 volume on a device: its home block and its directory.
#![tactic(auto)]

pub mod entry;
pub mod fault;
mod home;
pub mod initial;
pub mod level;
pub mod rule;
pub mod segment;
pub mod transfer;
