// Open captures, of either kind.
ghost use Rattle.std.specs.Prelude.{◌≡◌, true, false, Some, None, IsNone, MatchResult};
ghost use Rattle.model.specs.Events.{Lawful};
ghost use Rattle.records.specs.Checked.{checked};
ghost use Rattle.records.specs.Verdicts.{RefusedByTheFirstBadRecord};
ghost use Rattle.captures.specs.Times.{ahead, pending};
ghost use Rattle.captures.specs.Rules.{EventsByRule};

use crate::events::{Cursor, Timing};
use crate::part::PartRefusal;
use crate::sound::Sound;
use model::event::Event;
use model::source::EdgeSource;
use records::checking::{CheckRefusal, check};
use std::marker::PhantomData;

// A source: its next event, found already so that looking costs nothing, and the cursor behind that.
// No Peekable iterator holds both, since that looks through &mut and a source through &self.
#[derive(Drop)]
pub struct Capture<'a, K: Timing> {
    next: Option<Event>,
    behind: Cursor<'a>,
    of: PhantomData<K>,
    ghost lawful: { ∥ Lawful (pending next (ahead K.kind behind)) ∥₁ },
}

// An open capture, and whether it is sound.
#[derive(Drop)]
pub struct Checked<'a, K: Timing> {
    pub source: Capture<'a, K>,
    pub check: Result<(), CheckRefusal>,
}

impl<'a, K: Timing> Capture<'a, K> {
    ghost use Rattle.captures.specs.Parts.{has_part, part_of};
    ghost use Rattle.captures.specs.Times.{capture_events, in_order, event_at, record_count};
    ghost use Rattle.captures.specs.Sources.{source_left};

    // Whether the capture is sound, or why not.
    pub fn check(bytes: &[u8]) -> Result<(), CheckRefusal>
        ensures verdict { MatchResult result (λ _. checked K.kind bytes.now ≡ None) (λ e. checked K.kind bytes.now ≡ Some e) }
        ensures refused_by_the_first_bad_record { RefusedByTheFirstBadRecord K.kind bytes.now }
    {
        check::<K>(bytes)
    }

    // How many records a capture has; one that the check refuses has none.
    pub fn record_count(bytes: &[u8]) -> u32
        ensures { result ≡ record_count K.kind bytes.now }
    {
        Sound::<K>::check(bytes).map_or(0, |sound| sound.record_count())
    }

    // The records from one place through another, of an accepted capture.
    pub fn part(bytes: &'a [u8], first: u32, last: u32) -> Result<&'a [u8], PartRefusal>
        ensures { MatchResult result (λ p. (has_part K.kind bytes.now first last ≡ true) × (p.now ≡ part_of K.kind bytes.now first last)) (λ _. has_part K.kind bytes.now first last ≡ false) }
    {
        // told before the check, which reads the whole capture
        if first > last {
            return Err(PartRefusal::NoSuchPart);
        }
        let sound = Sound::<K>::check(bytes).map_err(|_| PartRefusal::NoSuchPart)?;
        sound.part(first, last)
    }

    // A source of the capture's events: of none where the check refuses it.
    pub fn open(bytes: &'a [u8]) -> Capture<'a, K>
        ensures events { source_left result ≡ capture_events K.kind bytes.now }
        ensures those_of_the_places_in_order { source_left result ≡ in_order (event_at K.kind bytes.now) (record_count K.kind bytes.now) }
        ensures each_event_by_its_rule { EventsByRule K.kind bytes.now }
    {
        let sound = Sound::check(bytes).unwrap_or(Sound::empty());
        Self::open_sound(&sound)
    }

    // The same source, and what the check that this takes gave.
    pub fn open_checked(bytes: &'a [u8]) -> Checked<'a, K>
        ensures check { MatchResult result.check (λ _. checked K.kind bytes.now ≡ None) (λ e. checked K.kind bytes.now ≡ Some e) }
        ensures events { source_left result.source ≡ capture_events K.kind bytes.now }
        ensures those_of_the_places_in_order { source_left result.source ≡ in_order (event_at K.kind bytes.now) (record_count K.kind bytes.now) }
        ensures each_event_by_its_rule { EventsByRule K.kind bytes.now }
    {
        match Sound::check(bytes) {
            Ok(sound) => Checked {
                source: Self::open_sound(&sound),
                check: Ok(()),
            },
            Err(why) => Checked {
                source: Self::open_sound(&Sound::empty()),
                check: Err(why),
            },
        }
    }

    // The same of a capture that was accepted, with no further check.
    pub fn open_sound(capture: &Sound<'a, K>) -> Capture<'a, K>
        ensures events { source_left result ≡ capture_events K.kind capture.now.bytes.now }
        ensures those_of_the_places_in_order { source_left result ≡ in_order (event_at K.kind capture.now.bytes.now) (record_count K.kind capture.now.bytes.now) }
        ensures each_event_by_its_rule { EventsByRule K.kind capture.now.bytes.now }
    {
        Self::begun(capture.bytes)
    }

    fn begun(bytes: &'a [u8]) -> Capture<'a, K>
        requires { IsNone (checked K.kind bytes.now) }
        ensures { source_left result ≡ capture_events K.kind bytes.now }
    {
        let mut behind = Cursor::at_start(bytes);
        let next = behind.next_event::<K>();
        Capture {
            next,
            behind,
            of: PhantomData,
        }
    }
}

impl<'a, K: Timing> EdgeSource for Capture<'a, K> {
    ghost use Rattle.captures.specs.Sources.{source_left, source_lawful};

    ghost events = { source_left };

    ghost lawful = { source_lawful };

    fn look(&self) -> Option<Event> {
        self.next
    }

    fn take(&mut self) -> Option<Event> {
        let event = self.next?;
        self.next = self.behind.next_event::<K>();
        Some(event)
    }
}
