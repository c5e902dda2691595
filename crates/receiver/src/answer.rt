// What is asked of a unit, and what it answers.
ghost use Rattle.std.specs.Prelude.{◌≡◌};

use model::side::Side;
use pulses::outcome::Outcome;
use serial::report::SerialReport;

// What a channel reports at one event: the outcome of its pulses and, after a frame, what its serial pairs then tell.
#[derive(Clone, Copy, PartialEq, Eq, Debug)]
pub struct Reports<M> {
    pub pulse: Outcome,
    pub serial: Option<SerialReport<M>>,
}

// A step of the unit: the channel that was given an event, the event's time, and what the channel reported. The messages of the two
// channels are of two types.
#[derive(Clone, Copy, PartialEq, Eq, Debug)]
pub enum Step<X, Y> {
    A { time: u64, reports: Reports<X> },
    B { time: u64, reports: Reports<Y> },
}

// Why a unit is not stepped, under the number that tells it.
#[derive(Clone, Copy, PartialEq, Eq, Debug)]
pub enum StepRefusal {
    // neither source has an event left
    NoEvent = 7,
}

// What can be looked at without a step.
#[derive(Clone, Copy, PartialEq, Eq, Debug)]
pub enum Subject {
    // the reading of a channel
    Reading(Side),
}

// What is asked of a unit: plain data and no method, because a run is a list of calls.
#[derive(Clone, Copy, PartialEq, Eq, Debug)]
pub enum Call {
    Step,
    Look(Subject),
}

// The answer to a call: one case for each way that a call can end. A step's refusal is not nested in a `Result`, since a run's
// definitions match on the three flat cases.
#[derive(Clone, Copy, PartialEq, Eq, Debug)]
pub enum Answer<X, Y> {
    Stepped(Step<X, Y>),
    Refused(StepRefusal),
    Reading(Option<u16>),
}

// What a channel has given: its frames, and its faults of the layers below the serial one. Each figure stops at 4,294,967,295.
#[derive(Clone, Copy, PartialEq, Eq, Debug)]
pub struct Figures {
    pub frames: u32,
    pub faults: u32,
}

// The figures of both channels of a unit that was closed.
#[derive(Clone, Copy, PartialEq, Eq, Debug)]
pub struct Closing {
    pub a: Figures,
    pub b: Figures,
}
