use captures::absolute::AbsoluteLog;
use captures::counter::CounterCapture;
use formats::enhanced::{Enhanced, EnhancedMessage};
use formats::short::{Short, ShortMessage};
use model::fault::{Fault, FaultKind};
use model::feed::Feed;
use model::settings::{Settings, SettingsRefusal};
use model::side::Side;
use pulses::frame::FrameRow;
use pulses::outcome::Outcome;
use receiver::answer::{Figures, Reports, Step};
use receiver::unit::Receiver;
use std::test::Fail;

// A frame of one data nibble, 4, under a calibration pulse of 560 counts, then one edge that is no calibration pulse.
const COUNTER: &[u8] = b"SC\x00\x00SC\x02\x30SC\x02\xa8SC\x03\x48SC\x03\xe8SC\x03\xe9";

// A break, and an edge at 560 counts.
const LOG: &[u8] = b"SL\x00\x00\x00\x00\x00\x00SA\x00\x00\x00\x00\x02\x30";

// A step of a channel whose serial pairs tell nothing yet.
fn step(side: Side, time: u64, pulse: Outcome) -> Step<ShortMessage, EnhancedMessage> {
    match side {
        Side::A => Step::A {
            time,
            reports: Reports {
                pulse,
                serial: None,
            },
        },
        Side::B => Step::B {
            time,
            reports: Reports {
                pulse,
                serial: None,
            },
        },
    }
}

// A unit of both captures, whose channels have a calibration pulse of 560 counts and one data nibble.
fn new_unit() -> Result<
    Receiver<CounterCapture<'static>, AbsoluteLog<'static>, Short, Enhanced>,
    SettingsRefusal,
> {
    let settings = Settings::new(560, 1)?;
    Ok(Receiver::new(
        Feed {
            source: CounterCapture::open(COUNTER),
            settings,
        },
        Feed {
            source: AbsoluteLog::open(LOG),
            settings,
        },
    ))
}

#[test]
fn events_go_by_time_and_a_goes_first(rt: HostRuntime) -> Result<(), Fail> {
    let mut unit = new_unit()?;
    let frame = Outcome::Framed(FrameRow {
        place: 0,
        status: 0,
        packed: 0x40_0000,
    });
    let lost = Outcome::Failed(Fault {
        kind: FaultKind::Break,
        place: 0,
    });
    let off = Outcome::Failed(Fault {
        kind: FaultKind::Calibration,
        place: 5,
    });
    let expected = [
        step(Side::A, 0, Outcome::Quiet),
        step(Side::B, 0, lost),
        step(Side::A, 560, Outcome::Quiet),
        step(Side::B, 560, Outcome::Quiet),
        step(Side::A, 680, Outcome::Quiet),
        step(Side::A, 840, Outcome::Quiet),
        step(Side::A, 1_000, frame),
        step(Side::A, 1_001, off),
    ];
    for wanted in expected {
        assert_eq!(rt; unit.step(), Ok(wanted));
    }
    assert!(rt; unit.step().is_err() && unit.step().is_err());
    let closing = unit.close();
    assert_eq!(rt;
        closing.a,
        Figures {
            frames: 1,
            faults: 1,
        }
    );
    assert_eq!(rt;
        closing.b,
        Figures {
            frames: 0,
            faults: 1,
        }
    );
    Ok(())
}

#[test]
fn a_reading_lasts_until_a_fault(rt: HostRuntime) -> Result<(), Fail> {
    let mut unit = new_unit()?;
    let before = unit.reading(Side::A);
    for _ in 0..7 {
        let _ = unit.step();
    }
    let at_the_frame = (unit.reading(Side::A), unit.reading(Side::B));
    let _ = unit.step();
    let after = unit.reading(Side::A);
    let _ = unit.close();
    assert_eq!(rt; before, None);
    assert_eq!(rt; at_the_frame, (Some(4), None));
    assert_eq!(rt; after, None);
    Ok(())
}
