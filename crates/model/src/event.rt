// What a capture tells of the line.
ghost use Rattle.std.specs.Prelude.{◌≡◌};
ghost use Rattle.model.specs.Events.{place_of, time_of};

// Every event's time is below this many counts.
pub const TIME_LIMIT: u64 = 1 << 40;

// A falling edge, or a break: a place where edges may be missing.
// The place is the number of its record in its capture, the time is in counts of the unit's clock.
#[derive(Clone, Copy, PartialEq, Eq, Debug)]
pub enum Event {
    Edge { place: u32, time: u64 },
    Break { place: u32, time: u64 },
}

impl Event {
    pub fn place(self) -> u32
        ensures { result ≡ place_of self }
    {
        match self {
            Event::Edge { place, .. } | Event::Break { place, .. } => place,
        }
    }

    pub fn time(self) -> u64
        ensures { result ≡ time_of self }
    {
        match self {
            Event::Edge { time, .. } | Event::Break { time, .. } => time,
        }
    }
}
