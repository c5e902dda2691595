// Series of frames: a decoder taken through a list of events, and the laws of clean series and of moved edges.
#![tactic(auto)]

pub mod decoding;
pub mod exhibits;
