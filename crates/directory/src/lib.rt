// The directory in the workspace: its entries in chain order, and the rules of a sound level.
#![tactic(auto)]

pub mod find;
pub mod pending;
pub mod placed;
pub mod rules;
pub mod sound;
pub mod walk;
