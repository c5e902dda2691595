// An absolute log: records of eight bytes with the whole time.
use crate::capture::{Capture, Checked};
use records::record::Log;

pub type AbsoluteLog<'a> = Capture<'a, Log>;

pub type CheckedLog<'a> = Checked<'a, Log>;
