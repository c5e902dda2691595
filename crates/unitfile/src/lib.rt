// Unit files: the settings and the captures of both channels in one file.
#![tactic(auto)]

pub mod file;
pub mod summary;
