// The receiver: channels, and the unit of two channels.
#![tactic(auto)]

pub mod answer;
pub mod channel;
mod fed;
pub mod unit;
