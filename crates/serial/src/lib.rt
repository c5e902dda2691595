// Serial messages, which ride on the status of the frames: two bits of each frame, a message over many frames. What a format is, and
// the window of a channel's last pairs.
#![tactic(auto)]

pub mod format;
pub mod pair;
mod recent;
pub mod report;
pub mod window;
