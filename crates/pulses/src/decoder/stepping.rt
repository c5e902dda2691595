ghost use Rattle.std.specs.Prelude.{◌≡◌, ◌^◌, ◌<◌, ◌≤◌, IfOk, MatchResult};
ghost use Rattle.model.specs.Events.{time_of};
ghost use Rattle.pulses.specs.declared.outcome.StepRefusal.TheVariants.{Late};
ghost use Rattle.pulses.specs.Decoding.{state_of};
ghost use Rattle.pulses.specs.Steps.{step, fault, lost, Proper};

use super::Decoder;
use crate::frame::Frame;
use crate::interval::{LastEdge, in_window};
use crate::outcome::{Outcome, StepRefusal};
use crate::partial::Partial;
use crate::state::State;
use model::event::{Event, TIME_LIMIT};
use model::fault::{Fault, FaultKind};
use model::settings::Settings;

fn failed(kind: FaultKind, place: u32) -> Outcome
    ensures { result ≡ fault kind place }
{
    Outcome::Failed(Fault { kind, place })
}

// The state that a frame leaves at the edge that ends it, whether or not its check fitted. Every head goes on alike, and this is
// the one place where the settings decide it: a head that pauses after a frame can differ here.
fn after_frame(settings: Settings, edge: LastEdge) -> State
    ensures { result ≡ State.Expecting edge }
{
    let _ = settings;
    State::Expecting(edge)
}

impl Decoder {
    // A decoder that has seen no event.
    pub fn prepare(settings: Settings) -> Decoder
        ensures settings_kept { result.settings ≡ settings }
        ensures lost_at_first { state_of result ≡ lost }
    {
        Decoder {
            settings,
            state: State::Lost,
        }
    }

    // What the decoder was prepared from.
    pub fn settings(&self) -> Settings
        ensures { result ≡ self.now.settings }
    {
        self.settings
    }

    // What one event gives, and the state then. An event of a time beyond the limit is refused and changes nothing.
    #[tactic(auto, unfolding(crate::specs::Steps::step))]
    pub fn step(&mut self, event: Event) -> Result<Outcome, StepRefusal>
        ensures answer { MatchResult result (λ o. (time_of event < 2 ^ 40) × (o ≡ (step self.old.settings (state_of self.old) event).outcome) × (state_of self.new ≡ (step self.old.settings (state_of self.old) event).state)) (λ e. (2 ^ 40 ≤ time_of event) × (e ≡ Late) × (self.new.state ≡ self.old.state)) }
        ensures nibbles_below_sixteen { IfOk result (λ o. Proper o) }
        ensures settings_stay { self.new.settings ≡ self.old.settings }
    {
        if event.time() >= TIME_LIMIT {
            return Err(StepRefusal::Late);
        }
        let settings = self.settings;
        // Each state has arms of its own: a pattern `A | B` is not proved where a state holds a frame that keeps facts. An arm takes
        // the edge from its event, as a break has none: its place and time are the last edge then.
        match (self.state, event) {
            (_, Event::Break { place, .. }) => {
                self.state = State::Lost;
                Ok(failed(FaultKind::Break, place))
            }
            (State::Lost, Event::Edge { place, time }) => {
                self.state = State::Hunting(LastEdge { place, time });
                Ok(Outcome::Quiet)
            }
            (State::Hunting(last), Event::Edge { place, time }) if last.apart(time) => {
                self.state = State::Hunting(LastEdge { place, time });
                Ok(failed(FaultKind::Interval, place))
            }
            (State::Expecting(last), Event::Edge { place, time }) if last.apart(time) => {
                self.state = State::Hunting(LastEdge { place, time });
                Ok(failed(FaultKind::Interval, place))
            }
            (State::Inside(last, _), Event::Edge { place, time }) if last.apart(time) => {
                self.state = State::Hunting(LastEdge { place, time });
                Ok(failed(FaultKind::Interval, place))
            }
            (State::Hunting(last), Event::Edge { place, time })
                if in_window(settings, last.interval(time)) => {
                let partial = Partial::begun(last.place, last.interval(time));
                self.state = State::Inside(LastEdge { place, time }, partial);
                Ok(Outcome::Quiet)
            }
            (State::Expecting(last), Event::Edge { place, time })
                if in_window(settings, last.interval(time)) => {
                let partial = Partial::begun(last.place, last.interval(time));
                self.state = State::Inside(LastEdge { place, time }, partial);
                Ok(Outcome::Quiet)
            }
            (State::Hunting(_), Event::Edge { place, time }) => {
                self.state = State::Hunting(LastEdge { place, time });
                Ok(Outcome::Skipped)
            }
            (State::Expecting(_), Event::Edge { place, time }) => {
                self.state = State::Hunting(LastEdge { place, time });
                Ok(failed(FaultKind::Calibration, place))
            }
            (State::Inside(last, frame), Event::Edge { place, time })
                if frame.ticks(last.interval(time)) < 12 => {
                self.state = State::Hunting(LastEdge { place, time });
                Ok(failed(FaultKind::ShortNibble, place))
            }
            (State::Inside(last, frame), Event::Edge { place, time })
                if frame.ticks(last.interval(time)) > 27 => {
                let long = last.interval(time);
                self.state = if in_window(settings, long) {
                    State::Inside(LastEdge { place, time }, Partial::begun(last.place, long))
                } else {
                    State::Hunting(LastEdge { place, time })
                };
                Ok(failed(FaultKind::LongNibble, place))
            }
            (State::Inside(last, frame), Event::Edge { place, time })
                if frame.count <= settings.nibbles() => {
                let nibble = (frame.ticks(last.interval(time)) - 12) as u8;
                self.state = State::Inside(LastEdge { place, time }, frame.with_nibble(nibble));
                Ok(Outcome::Quiet)
            }
            (State::Inside(last, frame), Event::Edge { place, time }) => {
                let check = (frame.ticks(last.interval(time)) - 12) as u8;
                self.state = after_frame(settings, LastEdge { place, time });
                if !frame.check_fits(settings, check) {
                    return Ok(failed(FaultKind::FrameCheck, place));
                }
                Ok(Outcome::Framed(Frame::from(frame).row()))
            }
        }
    }
}
