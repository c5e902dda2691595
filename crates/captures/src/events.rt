// From records to events: one text for both kinds of capture.
ghost use Rattle.std.specs.Prelude.{◌≡◌, ◌+◌, ◌≤◌, length};
ghost use Rattle.captures.specs.Stamps.{stamp_of};

use model::event::Event;
use records::record::{Counter, Cut, Log, Recording};

// What a record says of time.
#[derive(Clone, Copy)]
pub enum Stamp {
    Timed(u64),
    Lost,
    Wrapped,
}

// What the records of a kind say of time.
pub trait Timing: Recording {
    // What a record says after so many wraps of the timer.
    fn stamp(of: &Cut<'_>, wraps: u32) -> Stamp
        ensures { result ≡ stamp_of Self.kind wraps of.now.record };
}

impl Timing for Counter {
    fn stamp(of: &Cut<'_>, wraps: u32) -> Stamp {
        match of.record.letter as char {
            'C' => Stamp::Timed(65_536 * u64::from(wraps) + of.record.value),
            'O' => Stamp::Wrapped,
            _ => Stamp::Lost,
        }
    }
}

impl Timing for Log {
    fn stamp(of: &Cut<'_>, _wraps: u32) -> Stamp {
        match of.record.letter as char {
            'A' => Stamp::Timed(of.record.value),
            _ => Stamp::Lost,
        }
    }
}

// How far a capture has been read: what is left of it, the place of its next record, how often the timer
// has wrapped, and the time of the last edge.
#[derive(Clone, Copy)]
pub struct Cursor<'a> {
    rest: &'a [u8],
    place: u32,
    wraps: u32,
    last: Option<u64>,
    ghost small: { place + length rest.now ≤ 24576 },
    ghost few: { wraps ≤ place },
}

impl<'a> Cursor<'a> {
    ghost use Rattle.std.specs.Prelude.{None};
    ghost use Rattle.captures.specs.Times.{is_later, lost_event, ahead, pending};

    // A cursor before the first of these bytes.
    pub(crate) fn at_start(bytes: &'a [u8]) -> Cursor<'a>
        requires { length bytes.now ≤ 24576 }
        ensures { (result.rest.now ≡ bytes.now) × (result.place ≡ 0) × (result.wraps ≡ 0) × (result.last ≡ None) }
    {
        Cursor {
            rest: bytes,
            place: 0,
            wraps: 0,
            last: None,
        }
    }

    // Whether a time is later than the last edge.
    fn is_later(&self, time: u64) -> bool
        ensures { result ≡ is_later time self.now.last }
    {
        self.last.is_none_or(|last| last < time)
    }

    // What a record at a place is that shows lost edges.
    fn lost_event(&self, place: u32) -> Event
        ensures { result ≡ lost_event place self.now.last }
    {
        let time = self.last.unwrap_or(0);
        Event::Break { place, time }
    }

    // The next event ahead, if there is one: the cursor is then behind its record. Wraps are passed over, each once.
    // The place is counted here and in no iterator, since it is the cursor's: it goes on from one call to the next.
    pub(crate) fn next_event<K: Timing>(&mut self) -> Option<Event>
        ensures all { pending result (ahead K.kind self.new) ≡ ahead K.kind self.old }
    {
        while let Some(cut) = K::first_record(self.rest) {
            let place = self.place;
            let stamp = K::stamp(&cut, self.wraps);
            self.rest = cut.rest;
            self.place += 1;
            match stamp {
                Stamp::Wrapped => self.wraps += 1,
                Stamp::Timed(time) if self.is_later(time) => {
                    self.last = Some(time);
                    return Some(Event::Edge { place, time });
                }
                Stamp::Timed(_) | Stamp::Lost => return Some(self.lost_event(place)),
            }
        }
        None
    }
}
