// What a window of pairs has to say.
ghost use Rattle.std.specs.Prelude.{◌≡◌};

use model::fault::{Fault, FaultKind};

// No `Result`: a check that does not fit is told beside the messages, and nothing stops at it.
#[derive(Clone, Copy, PartialEq, Eq, Debug)]
pub enum SerialReport<T> {
    // a message, with the place of its first frame
    Told { place: u32, message: T },
    // pairs that match the framing, with a check that does not fit
    Failed { fault: Fault },
}

impl<T> SerialReport<T> {
    ghost use Rattle.serial.specs.Windows.{judged};

    // What pairs that match the framing say: the message that they tell, or else the fault of their check.
    pub(crate) fn judged(message: Option<T>, place: u32, event: u32) -> SerialReport<T>
        ensures { result ≡ judged message place event }
    {
        message.map_or_else(
            || SerialReport::Failed {
                fault: Fault {
                    kind: FaultKind::SerialCheck,
                    place: event,
                },
            },
            |message| SerialReport::Told { place, message },
        )
    }
}
