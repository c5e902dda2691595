// The lines that tell what was received, byte for byte.
#![tactic(auto)]

pub mod file;
pub mod line;
mod page;
pub mod report;
mod steps;
