// Changes of the directory in the workspace.
#![tactic(auto)]

pub mod rewrite;
