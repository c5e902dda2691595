// A decoder taken through a list of events.
ghost use Rattle.std.specs.Prelude.{◌≡◌, Some, None, vec_capacity, MatchResult, OnOk};
ghost use Rattle.pulses.specs.Decoding.{state_of};
ghost use Rattle.pulses.specs.Steps.{lost, outcomes, after};
ghost use Rattle.series.specs.Running.{in_time, run_refused};
ghost use Rattle.series.specs.Series.{CleanSeriesReceived, MovedEdgesTolerated};

use model::event::{Event, TIME_LIMIT};
use model::settings::Settings;
use pulses::decoder::Decoder;
use pulses::outcome::Outcome;

// Why a run over a list of events is not made.
#[derive(Clone, Copy, PartialEq, Eq, Debug)]
pub enum RunRefusal {
    // there is not room for an outcome of each event
    Room,
    // the time of an event is 2^40 counts or more
    Late,
}

// Whether every event's time is below the limit.
fn all_in_time(events: &[Event]) -> bool
    ensures { result ≡ in_time events.now }
{
    events.iter().all(|event| event.time() < TIME_LIMIT)
}

// Takes a newly prepared decoder through the events and puts their outcomes, in order, in the place of what the list held.
// The list needs the capacity already; a refusal leaves it as it was. Hands back the decoder.
pub fn decode(
    settings: Settings,
    events: &[Event],
    out: &mut Vec<Outcome>,
) -> Result<Decoder, RunRefusal>
    ensures answer { MatchResult result (λ d. (run_refused events.now (vec_capacity out.old) ≡ None) × (out.new.items ≡ outcomes settings lost events.now) × (d.settings ≡ settings) × (state_of d ≡ after settings lost events.now)) (λ e. (run_refused events.now (vec_capacity out.old) ≡ Some e) × (out.new.items ≡ out.old.items)) }
    ensures room_stays { vec_capacity out.new ≡ vec_capacity out.old }
    ensures clean_series_received { OnOk result (CleanSeriesReceived settings events.now out.new.items) }
    ensures moved_edges_tolerated { OnOk result (MovedEdgesTolerated settings events.now out.new.items) }
{
    if out.capacity() < events.len() {
        return Err(RunRefusal::Room);
    }
    if !all_in_time(events) {
        return Err(RunRefusal::Late);
    }
    let mut decoder = Decoder::prepare(settings);
    out.clear();
    for event in events {
        // every time is below the limit: no step is refused
        out.push_reserved(decoder.step(*event).unwrap());
    }
    Ok(decoder)
}
