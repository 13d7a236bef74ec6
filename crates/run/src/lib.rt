// Does what the fields of a run file say to a pack, and reports each in a line.
#![tactic(auto)]

pub mod perform;
pub mod play;
