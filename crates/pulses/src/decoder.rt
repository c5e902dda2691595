// The pulse decoder of one channel.
ghost use Rattle.std.specs.Prelude.{◌≡◌, ◌+◌, ◌≤◌, true};
ghost use Rattle.pulses.specs.States.{calibrated, count_of};

use crate::state::State;
use model::settings::Settings;

// A channel's pulses from event to event. Inside a frame its calibration interval always passes the window, and at most the
// status nibble and the data nibbles are kept.
#[derive(Drop)]
pub struct Decoder {
    settings: Settings,
    state: State,
    ghost in_window: { calibrated settings state ≡ true },
    ghost few: { count_of state ≤ settings.nibbles + 1 },
}

pub mod stepping;
