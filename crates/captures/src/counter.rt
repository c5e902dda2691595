// A counter capture: records of four bytes with the values of a sixteen-bit timer.
use crate::capture::{Capture, Checked};
use records::record::Counter;

pub type CounterCapture<'a> = Capture<'a, Counter>;

pub type CheckedCounter<'a> = Checked<'a, Counter>;
