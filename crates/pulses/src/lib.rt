// From events to frames: the pulses of one channel, measured in ticks and put together.
#![tactic(auto)]

pub mod decoder;
pub mod frame;
mod interval;
pub mod outcome;
mod partial;
mod state;
