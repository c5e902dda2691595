// Captures of falling edges: the events that their records become, and parts of them.
#![tactic(auto)]

pub mod absolute;
pub mod capture;
pub mod counter;
pub mod events;
pub mod part;
pub mod sound;
