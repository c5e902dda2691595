// What a line can tell, and why none is written.
ghost use Rattle.std.specs.Prelude.{◌≡◌, ℕ};
ghost use Rattle.listing.specs.declared.report.LineReport.{LineReport};
ghost use Rattle.listing.specs.declared.report.LineReport.TheVariants.{Short, Enhanced};
ghost use Rattle.listing.specs.Lines.{kind_letter, place_of, refusal_number};

use formats::enhanced::EnhancedMessage;
use formats::short::ShortMessage;
use model::fault::Fault;
use pulses::frame::FrameRow;

// What a channel reports of one event. A message has the place of its first frame.
#[derive(Clone, Copy, PartialEq, Eq, Debug)]
pub enum LineReport {
    Frame(FrameRow),
    Short {
        place: u32,
        message: ShortMessage,
    },
    Enhanced {
        place: u32,
        message: EnhancedMessage,
    },
    Fault(Fault),
}

impl LineReport {
    // The letter that says what the line tells.
    pub(crate) fn letter(self) -> u8
        ensures { result ≡ kind_letter self }
    {
        match self {
            LineReport::Frame(_) => b'F',
            LineReport::Short { .. } | LineReport::Enhanced { .. } => b'M',
            LineReport::Fault(_) => b'X',
        }
    }

    pub(crate) fn place(self) -> u32
        ensures { result ≡ place_of self }
    {
        match self {
            LineReport::Frame(FrameRow { place, .. })
            | LineReport::Short { place, .. }
            | LineReport::Enhanced { place, .. }
            | LineReport::Fault(Fault { place, .. }) => place,
        }
    }
}

// A message of a serial format, which a line can tell.
pub(crate) trait LineMessage: Copy {
    ghost told: { ℕ → Self → LineReport };

    fn report(self, place: u32) -> LineReport
        ensures { result ≡ told place self };
}

impl LineMessage for ShortMessage {
    ghost told = { λ place m. Short place m };

    fn report(self, place: u32) -> LineReport {
        LineReport::Short {
            place,
            message: self,
        }
    }
}

impl LineMessage for EnhancedMessage {
    ghost told = { λ place m. Enhanced place m };

    fn report(self, place: u32) -> LineReport {
        LineReport::Enhanced {
            place,
            message: self,
        }
    }
}

// Why a line is refused.
#[derive(Clone, Copy, PartialEq, Eq, Debug)]
pub enum LineRefusal {
    // the number of data nibbles is outside 1 to 6
    Nibbles = 5,
    // no event has so late a time
    Time = 6,
    // the buffer has not room for every line
    Buffer = 8,
}

impl LineRefusal {
    pub fn number(self) -> u16
        ensures { result ≡ refusal_number self }
    {
        self as u16
    }
}
