// What one event gives.
ghost use Rattle.std.specs.Prelude.{◌≡◌};
ghost use Rattle.pulses.specs.Refusals.{refusal_number};

use crate::frame::FrameRow;
use model::fault::Fault;

// The one outcome of a step.
#[derive(Clone, Copy, PartialEq, Eq, Debug)]
pub enum Outcome {
    // a pulse was taken, or the first edge
    Quiet,
    // an interval was passed over in the search for a calibration pulse
    Skipped,
    // the event completed this frame
    Framed(FrameRow),
    Failed(Fault),
}

// Why an event is not taken.
#[derive(Clone, Copy, PartialEq, Eq, Debug)]
pub enum StepRefusal {
    // its time is 2^40 counts or more
    Late = 6,
}

impl StepRefusal {
    pub fn number(self) -> u16
        ensures { result ≡ refusal_number self }
    {
        self as u16
    }
}
