// Windows over runs of frames.
use crate::doublet::Doublet;
use crate::lists::pairs;
use formats::enhanced::{Configuration, Enhanced, EnhancedMessage};
use formats::short::{Short, ShortMessage};
use model::fault::{Fault, FaultKind};
use serial::format::SerialFormat;
use serial::pair::Pair;
use serial::report::SerialReport;
use serial::window::Window;
use std::fmt::Debug;
use std::process::Abort;

// Every frame has its place, and ends at an event this much later.
const LATER: u32 = 1000;

// Gives a window the pairs of frames with places from `from` on, and hands back what it says at the last;
// before that it has to say nothing.
fn last_said<F: SerialFormat>(
    rt: &impl Abort,
    window: &mut Window<F>,
    list: &[Pair],
    from: u32,
) -> Option<SerialReport<F::Message>> {
    let mut said = None;
    for (place, pair) in (from..u32::MAX).zip(list) {
        assert!(rt; said.is_none());
        said = window.take(*pair, place, place.wrapping_add(LATER));
    }
    said
}

// Far more messages in a row than the window has room for.
fn messages_in_a_row<F: SerialFormat>(rt: &impl Abort, list: &[Pair], message: F::Message)
where
    F::Message: PartialEq + Debug,
{
    let mut window: Window<F> = Window::new();
    for k in 0..40u32 {
        let place = k.wrapping_mul(F::L as u32);
        let said = last_said(rt, &mut window, list, place);
        assert_eq!(rt; said, Some(SerialReport::Told { place, message }));
    }
}

const SHORT: ShortMessage = ShortMessage { id: 3, data: 0x5a };

const WIDE: EnhancedMessage = EnhancedMessage {
    configuration: Configuration::Data16,
    id: 5,
    data: 0xa3c1,
};

#[test]
fn short_messages_in_a_row(rt: HostRuntime) {
    let list = pairs(0x8000 * 4, 0x35ac * 4);
    messages_in_a_row::<Short>(&rt, &list[0..16], SHORT);
}

#[test]
fn enhanced_messages_in_a_row(rt: HostRuntime) {
    messages_in_a_row::<Enhanced>(&rt, &pairs(0x3f554, 0x343c1), WIDE);
}

// A run that begins inside a message tells the next one.
#[test]
fn message_after_a_late_start(rt: HostRuntime) {
    let mut window: Window<Short> = Window::new();
    let list = pairs(0x8000 * 4, 0x35ac * 4);
    assert_eq!(rt; last_said(&rt, &mut window, &list[5..16], 0), None);
    assert_eq!(rt;
        last_said(&rt, &mut window, &list[0..16], 11),
        Some(SerialReport::Told {
            place: 11,
            message: SHORT,
        })
    );
}

// A check that does not fit is a fault at the event that ended the last frame; the next message is told.
#[test]
fn fault_and_then_a_message(rt: HostRuntime) {
    let mut window: Window<Short> = Window::new();
    let list = pairs(0x8000 * 4, 0x35ac * 4);
    let mut damaged = list;
    damaged[6].low = !list[6].low;
    let fault = Fault {
        kind: FaultKind::SerialCheck,
        place: 15 + LATER,
    };
    assert_eq!(rt;
        last_said(&rt, &mut window, &damaged[0..16], 0),
        Some(SerialReport::Failed { fault })
    );
    assert_eq!(rt;
        last_said(&rt, &mut window, &list[0..16], 16),
        Some(SerialReport::Told {
            place: 16,
            message: SHORT,
        })
    );
}

// An emptied window has forgotten the pairs.
#[test]
fn emptied_inside_a_message(rt: HostRuntime) {
    let mut window: Window<Enhanced> = Window::new();
    let list = pairs(0x3f554, 0x343c1);
    assert_eq!(rt; last_said(&rt, &mut window, &list[0..17], 0), None);
    window.empty();
    assert_eq!(rt; last_said(&rt, &mut window, &list[17..18], 17), None);
    assert_eq!(rt;
        last_said(&rt, &mut window, &list, 18),
        Some(SerialReport::Told {
            place: 18,
            message: WIDE,
        })
    );
}

// The pairs of a list that fails are still there for the next one.
#[test]
fn fault_keeps_the_pairs(rt: HostRuntime) {
    let mut window: Window<Doublet> = Window::new();
    let set = Pair {
        high: true,
        low: false,
    };
    let last = Pair {
        high: false,
        low: true,
    };
    let fault = Fault {
        kind: FaultKind::SerialCheck,
        place: 71,
    };
    assert_eq!(rt; window.take(set, 3, 70), None);
    assert_eq!(rt;
        window.take(set, 4, 71),
        Some(SerialReport::Failed { fault })
    );
    assert_eq!(rt;
        window.take(last, 5, 72),
        Some(SerialReport::Told {
            place: 4,
            message: true,
        })
    );
}
