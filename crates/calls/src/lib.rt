// The calls on a level that change its directory.
#![tactic(auto)]

pub mod edit;
