// A pack: a device with its mounted containers, and the calls on its deepest level.
#![tactic(auto)]

mod list;
pub mod pack;
