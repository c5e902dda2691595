// The words that every layer shares: events and where they come from, faults, a channel's settings, and what it is fed from.
#![tactic(auto)]

pub mod event;
pub mod fault;
pub mod feed;
pub mod settings;
pub mod side;
pub mod source;
