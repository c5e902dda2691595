// Intervals between edges, in counts of the unit's clock.
ghost use Rattle.std.specs.Prelude.{◌≡◌, ◌-◌, ◌<◌, ◌≤◌, false};
ghost use Rattle.pulses.specs.Intervals.{window, ticks, apart};

use model::settings::Settings;

// The longest time between two edges that is taken for an interval.
const LONGEST: u64 = 16_777_215;

// The last edge, at which the next interval starts.
#[derive(Clone, Copy)]
pub(crate) struct LastEdge {
    pub place: u32,
    pub time: u64,
}

impl LastEdge {
    // Whether there is no interval to take from this edge to one at this time.
    pub(crate) fn apart(self, time: u64) -> bool
        ensures told { result ≡ apart self.time time }
        ensures near { result ≡ false → (self.time < time) × (time - self.time ≤ 16777215) }
    {
        time <= self.time || time - self.time > LONGEST
    }

    // The interval from this edge to one at this time.
    pub(crate) fn interval(self, time: u64) -> u32
        requires later { self.time < time }
        requires short { time - self.time ≤ 16777215 }
        ensures { result ≡ time - self.time }
    {
        (time - self.time) as u32
    }
}

// Whether the interval may be a calibration pulse: it is within a fifth of the nominal one.
#[tactic(auto, unfolding(crate::specs::Intervals::window))]
pub(crate) fn in_window(settings: Settings, interval: u32) -> bool
    ensures { result ≡ window settings interval }
{
    let nominal = u64::from(settings.calibration());
    4 * nominal <= 5 * u64::from(interval) && 5 * u64::from(interval) <= 6 * nominal
}

// The ticks of the interval under a calibration interval, which has 56, to the nearest.
#[tactic(auto, unfolding(crate::specs::Intervals::ticks))]
pub(crate) fn ticks(calibration: u32, interval: u32) -> u64
    requires { 0 < calibration }
    ensures { result ≡ ticks calibration interval }
{
    let whole = u64::from(calibration);
    (112 * u64::from(interval) + whole) / (2 * whole)
}
