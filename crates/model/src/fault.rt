// What can be wrong with what a head sent, or with what was captured of it.
ghost use Rattle.std.specs.Prelude.{◌≡◌, ◌/◌};
ghost use Rattle.model.specs.Faults.{number, layer, digit};

// Where in the chain from the wire to the message a fault was seen. The numbers of a layer's faults begin with its own.
#[derive(Clone, Copy, PartialEq, Eq, Debug)]
pub enum Layer {
    Source = 2,
    Pulse = 3,
    Frame = 4,
    Serial = 5,
}

// What is wrong, with the number by which it is reported.
#[derive(Clone, Copy, PartialEq, Eq, Debug)]
pub enum FaultKind {
    // edges were lost, or an edge came that was not later than the last
    Break = 201,
    // no interval can be taken: not later than the last edge, or too long after it
    Interval = 202,
    // a calibration pulse was due and something else came
    Calibration = 301,
    // a pulse shorter than any nibble
    ShortNibble = 302,
    // a pulse longer than any nibble
    LongNibble = 303,
    // the check nibble does not fit the data nibbles
    FrameCheck = 401,
    // the check of a serial message does not fit it
    SerialCheck = 501,
}

// A fault at the place of the event that showed it.
#[derive(Clone, Copy, PartialEq, Eq, Debug)]
pub struct Fault {
    pub kind: FaultKind,
    pub place: u32,
}

impl Layer {
    // The first digit of the numbers of the layer's faults.
    pub fn digit(self) -> u16
        ensures { result ≡ digit self }
    {
        self as u16 // its digit is declared with it
    }
}

impl FaultKind {
    pub fn number(self) -> u16
        ensures { result ≡ number self }
    {
        self as u16 // its number is declared with it
    }

    // The layer whose digit begins the fault's number.
    pub fn layer(self) -> Layer
        ensures which { result ≡ layer self }
        ensures by_the_first_digit { digit result ≡ number self / 100 }
    {
        match self {
            FaultKind::Break | FaultKind::Interval => Layer::Source,
            FaultKind::Calibration | FaultKind::ShortNibble | FaultKind::LongNibble => Layer::Pulse,
            FaultKind::FrameCheck => Layer::Frame,
            FaultKind::SerialCheck => Layer::Serial,
        }
    }
}
