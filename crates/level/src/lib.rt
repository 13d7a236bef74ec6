// A level: the directory of the volume that a device shows, read into a workspace.
#![tactic(auto)]

pub mod check;
pub mod load;
pub mod lookup;
