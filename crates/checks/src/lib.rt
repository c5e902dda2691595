// The two checks of what a head sends: four bits over the data nibbles of a frame and over a short message,
// six bits over an enhanced message.
#![tactic(auto)]

pub mod four;
mod running;
pub mod six;
