// A frame that is being received.
ghost use Rattle.std.specs.Prelude.{◌≡◌, ℕ, ◌+◌, ◌<◌, ◌≤◌, ◌++◌, [], ◌∷◌, length, take, drop, ◌==◌, slice_index};

use crate::interval::ticks;
use checks::four::check4;
use model::settings::Settings;

// A frame of which the calibration pulse was taken: the place of the edge that starts it, its calibration interval, and of the
// seven places for nibbles so many in use, the status nibble first. Every nibble is below 16, and the unused places hold zero.
// The count stands beside the array because a state is copied whole, in fixed memory: no list of the library is `Copy`.
#[derive(Clone, Copy)]
pub(crate) struct Partial {
    pub start: u32,
    pub calibration: u32,
    pub count: u8,
    pub kept: [u8; 7],
    ghost some: { 0 < calibration },
    ghost seven: { length kept ≡ 7 },
    ghost few: { count ≤ 7 },
    ghost nibbles: { ((i : ℕ) → slice_index kept i < 16) },
    ghost unused: { ((i : ℕ) → count ≤ i → slice_index kept i ≡ 0) },
}

impl Partial {
    ghost use Rattle.pulses.specs.Intervals.{ticks};
    ghost use Rattle.pulses.specs.Frames.{frame_check};
    ghost use Rattle.pulses.specs.States.{taken};

    // A frame of which only the calibration pulse was taken.
    pub(crate) fn begun(start: u32, calibration: u32) -> Partial
        requires { 0 < calibration }
        ensures empty { taken result ≡ [] }
        ensures counted { result.count ≡ 0 }
        ensures started { result.start ≡ start }
        ensures calibrated { result.calibration ≡ calibration }
    {
        Partial {
            start,
            calibration,
            count: 0,
            kept: [0; 7],
        }
    }

    // The ticks of an interval inside the frame.
    pub(crate) fn ticks(self, interval: u32) -> u64
        ensures { result ≡ ticks self.calibration interval }
    {
        ticks(self.calibration, interval)
    }

    // The frame with one nibble more. It is built anew: a struct with facts of its own takes no `..self`, and writing to a copy of
    // the whole takes more moves.
    pub(crate) fn with_nibble(self, nibble: u8) -> Partial
        requires room { self.count < 7 }
        requires small { nibble < 16 }
        ensures more { taken result ≡ taken self ++ nibble ∷ [] }
        ensures counted { result.count ≡ self.count + 1 }
        ensures start_stays { result.start ≡ self.start }
        ensures calibration_stays { result.calibration ≡ self.calibration }
    {
        let mut kept = self.kept;
        kept[usize::from(self.count)] = nibble;
        Partial {
            start: self.start,
            calibration: self.calibration,
            count: self.count + 1,
            kept,
        }
    }

    // Whether the check nibble fits the data nibbles, which stand behind the status nibble.
    pub(crate) fn check_fits(&self, settings: Settings, check: u8) -> bool
        ensures { result ≡ (check == frame_check settings (take settings.nibbles (drop 1 self.now.kept))) }
    {
        check == check4(&self.kept[1..usize::from(settings.nibbles()) + 1])
    }
}
