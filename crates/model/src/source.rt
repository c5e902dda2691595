// Where a channel's events come from.
ghost use Rattle.std.specs.Prelude.{◌≡◌, List};
ghost use Rattle.model.specs.declared.event.Event.{Event};
ghost use Rattle.model.specs.Events.{Lawful, first, rest};

use crate::event::Event;

// A source is known by the events that it has yet to give. It is no Iterator: a unit looks at both channels' next events before it takes one.
pub trait EdgeSource {
    // the events still to come
    ghost events: { Self → List Event };

    // the law that each such list keeps
    ghost lawful: { (s : Self) → Lawful (events s) };

    // The first event still to come, which stays there.
    fn look(&self) -> Option<Event>
        ensures { result ≡ first (events self.now) };

    // The first event still to come, which is then gone.
    fn take(&mut self) -> Option<Event>
        ensures answer { result ≡ first (events self.old) }
        ensures left { events self.new ≡ rest (events self.old) };
}
