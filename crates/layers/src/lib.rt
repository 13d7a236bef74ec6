// Layers that show whole blocks of what is below: windows, and the levels of mounted containers.
#![tactic(auto)]

pub mod levels;
mod part;
pub mod table;
pub mod window;
