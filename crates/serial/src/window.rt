// The last pairs of a channel, and what they say.
ghost use Rattle.std.specs.Prelude.{◌≡◌, ◌≤◌, [], ◌∷◌, ◌++◌, length};

use crate::format::SerialFormat;
use crate::pair::Pair;
use crate::recent::Recent;
use crate::report::SerialReport;
use std::marker::PhantomData;

// The pairs kept, and the places of their frames: two rows, since a format reads the pairs as one slice.
#[derive(Drop)]
pub struct Window<F> {
    last: Recent<Pair, u32>,
    format: PhantomData<F>,
    ghost even: { length last.firsts ≡ length last.seconds },
    ghost few: { length last.firsts ≤ 18 },
}

impl<F: SerialFormat> Window<F> {
    ghost use Rattle.serial.specs.Runs.{JoinedListsToldWhole};
    ghost use Rattle.serial.specs.Windows.{last, kept, first_place, reported};

    // A window that keeps nothing yet. Lawful lists that are joined will be told whole by it, and nothing else.
    pub fn new() -> Window<F>
        ensures empty { kept result ≡ [] }
        ensures joined_lists_told_whole { JoinedListsToldWhole F.SerialFormat.meaning }
    {
        let blank = Pair {
            high: false,
            low: false,
        };
        Window {
            last: Recent::new(blank, 0),
            format: PhantomData,
        }
    }

    // Keeps nothing any more.
    pub fn empty(&mut self)
        ensures { kept self.new ≡ [] }
    {
        self.last.clear();
    }

    // The place of the oldest frame kept.
    fn first_place(&self) -> u32
        ensures { result ≡ first_place (kept self.now) }
    {
        self.last.seconds().first().copied().unwrap_or(0)
    }

    // What the pairs kept say at an event.
    fn judge(&self, event: u32) -> Option<SerialReport<F::Message>>
        ensures { result ≡ reported F.SerialFormat.meaning (kept self.now) event }
    {
        let pairs = self.last.firsts();
        F::matches(pairs).then(|| SerialReport::judged(
            F::message(pairs),
            self.first_place(),
            event,
        ))
    }

    // Takes the pair of a frame with the frame's place, at the event that ended the frame.
    // If the pairs kept then match the framing, they tell a message or, where the check does not fit, a fault at the event.
    #[tactic(auto, using(crate::proofs::Rows::kept_more))]
    pub fn take(&mut self, pair: Pair, place: u32, event: u32) -> Option<SerialReport<F::Message>>
        ensures kept { kept self.new ≡ last F.SerialFormat.meaning.size (kept self.old ++ record { pair = pair; place = place } ∷ []) }
        ensures report { result ≡ reported F.SerialFormat.meaning (kept self.new) event }
    {
        self.last.push(pair, place, F::L);
        self.judge(event)
    }
}
