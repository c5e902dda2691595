// What one frame brings to a serial message.
ghost use Rattle.std.specs.Prelude.{◌≡◌};
ghost use Rattle.serial.specs.Pairs.{pair_of};

// Bit 3 and bit 2 of the frame's status.
#[derive(Clone, Copy)]
pub struct Pair {
    pub high: bool,
    pub low: bool,
}

impl Pair {
    // The pair of a status; its other bits do not count. No `From`, which keeps all that a value says.
    pub fn of_status(status: u8) -> Pair
        ensures { result ≡ pair_of status }
    {
        Pair {
            high: status / 8 % 2 == 1,
            low: status / 4 % 2 == 1,
        }
    }
}
