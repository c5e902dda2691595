// How a channel is set up for its head.
ghost use Rattle.std.specs.Prelude.{◌≤◌};

// The nominal calibration pulse in counts of the unit's clock, and the number of data nibbles in a frame.
// Every value is within its limits, so that nothing prepared from settings can be refused for them.
#[derive(Clone, Copy, PartialEq, Eq, Debug)]
pub struct Settings {
    calibration: u32,
    nibbles: u8,
    ghost long: { 560 ≤ calibration },
    ghost short: { calibration ≤ 4000000 },
    ghost some: { 1 ≤ nibbles },
    ghost few: { nibbles ≤ 6 },
}

// Why a pair of numbers is no settings.
#[derive(Clone, Copy, PartialEq, Eq, Debug)]
pub enum SettingsRefusal {
    // the calibration pulse is outside 560 to 4,000,000 counts
    Calibration = 4,
    // the number of data nibbles is outside 1 to 6
    Nibbles = 5,
}

impl Settings {
    ghost use Rattle.std.specs.Prelude.{◌≡◌, Some, None, MatchResult};
    ghost use Rattle.model.specs.Preparing.{refused};

    // Settings of these two numbers, or why there are none.
    pub fn new(calibration: u32, nibbles: u8) -> Result<Settings, SettingsRefusal>
        ensures { MatchResult result (λ s. (refused calibration nibbles ≡ None) × (s.calibration ≡ calibration) × (s.nibbles ≡ nibbles)) (λ e. refused calibration nibbles ≡ Some e) }
    {
        if !(560..=4_000_000).contains(&calibration) {
            return Err(SettingsRefusal::Calibration);
        }
        if !(1..=6).contains(&nibbles) {
            return Err(SettingsRefusal::Nibbles);
        }
        Ok(Settings {
            calibration,
            nibbles,
        })
    }

    // The nominal calibration pulse, in counts.
    pub fn calibration(&self) -> u32
        ensures value { result ≡ self.now.calibration }
        ensures within_its_limits { (560 ≤ result) × (result ≤ 4000000) }
    {
        self.calibration
    }

    // The number of data nibbles in a frame.
    pub fn nibbles(&self) -> u8
        ensures value { result ≡ self.now.nibbles }
        ensures within_its_limits { (1 ≤ result) × (result ≤ 6) }
    {
        self.nibbles
    }
}

impl SettingsRefusal {
    ghost use Rattle.std.specs.Prelude.{◌≡◌};
    ghost use Rattle.model.specs.Preparing.{refusal_number};

    pub fn number(self) -> u16
        ensures { result ≡ refusal_number self }
    {
        self as u16
    }
}
