ghost use Rattle.std.specs.Prelude.{◌≡◌, ◌^◌, ◌<◌, ◌≤◌, IfOk, MatchResult};
ghost use Rattle.model.specs.Events.{time_of};
ghost use Rattle.pulses.specs.declared.outcome.StepRefusal.TheVariants.{Late};
ghost use Rattle.pulses.specs.Steps.{Proper};
ghost use Rattle.receiver.specs.Channels.{reading, reading_of};
ghost use Rattle.receiver.specs.Units.{figures};
ghost use Rattle.receiver.specs.Standing.{channel_new, reports_of, given_to};

use super::Channel;
use crate::answer::{Figures, Reports};
use model::event::Event;
use model::settings::Settings;
use pulses::decoder::Decoder;
use pulses::frame::FrameRow;
use pulses::outcome::{Outcome, StepRefusal};
use serial::format::SerialFormat;
use serial::pair::Pair;
use serial::window::Window;

// The reading of a frame: its first three data nibbles, or all if it has fewer, the first highest.
fn reading(settings: Settings, row: FrameRow) -> u16
    ensures { result ≡ reading settings row }
{
    let read = usize::from(settings.nibbles().min(3));
    row.frame().nibbles()[..read]
        .iter()
        .fold(0, |code, nibble| (code << 4) | u16::from(*nibble))
}

impl<F: SerialFormat> Channel<F> {
    // A channel that has seen no event.
    pub fn prepare(settings: Settings) -> Channel<F>
        ensures new { result ≡ channel_new settings }
    {
        Channel {
            decoder: Decoder::prepare(settings),
            window: Window::new(),
            latest: None,
            figures: Figures {
                frames: 0,
                faults: 0,
            },
        }
    }

    // What the channel reports at an event, and what it is then. An event of a time beyond the limit is refused and changes nothing.
    pub fn step(&mut self, event: Event) -> Result<Reports<F::Message>, StepRefusal>
        ensures answer { MatchResult result (λ o. (time_of event < 2 ^ 40) × (o ≡ reports_of F.meaning self.old event) × (self.new ≡ given_to F.meaning self.old event)) (λ e. (2 ^ 40 ≤ time_of event) × (e ≡ Late) × (self.new ≡ self.old)) }
        ensures nibbles_below_sixteen { IfOk result (λ o. Proper o.pulse) }
    {
        let pulse = self.decoder.step(event)?;
        let serial = match pulse {
            Outcome::Quiet | Outcome::Skipped => None,
            Outcome::Framed(row) => {
                self.latest = Some(row);
                self.figures.frames = self.figures.frames.saturating_add(1);
                self.window
                    .take(Pair::of_status(row.status), row.place, event.place())
            }
            Outcome::Failed(_) => {
                self.latest = None;
                self.figures.faults = self.figures.faults.saturating_add(1);
                self.window.empty();
                None
            }
        };
        Ok(Reports { pulse, serial })
    }

    // The reading of the latest frame, if no fault of the pulses came after it.
    pub(crate) fn reading(&self) -> Option<u16>
        ensures { result ≡ reading_of self.now.settings self.now.state.latest }
    {
        self.latest.map(|row| reading(self.decoder.settings(), row))
    }

    // How many frames and faults of the pulses the channel has given.
    pub fn figures(&self) -> Figures
        ensures { result ≡ figures self.now.state }
    {
        self.figures
    }
}
