use captures::absolute::AbsoluteLog;
use captures::counter::CounterCapture;
use formats::enhanced::{Enhanced, EnhancedMessage};
use formats::short::{Short, ShortMessage};
use model::feed::Feed;
use model::settings::Settings;
use model::side::Side;
use pulses::frame::FrameRow;
use pulses::outcome::Outcome;
use receiver::answer::{Answer, Call, Reports, Step, StepRefusal, Subject};
use runs::run::run;
use std::test::Fail;

const COUNTER: &[u8] = b"SC\x00\x00SC\x02\x30SC\x02\xa8SC\x03\x48SC\x03\xe8";

// The capture, and an empty log.
fn feeds(settings: Settings) -> (Feed<CounterCapture<'static>>, Feed<AbsoluteLog<'static>>) {
    let a = Feed {
        source: CounterCapture::open(COUNTER),
        settings,
    };
    let b = Feed {
        source: AbsoluteLog::open(b""),
        settings,
    };
    (a, b)
}

// A step of channel A, whose serial pairs tell nothing yet.
fn stepped(time: u64, pulse: Outcome) -> Answer<ShortMessage, EnhancedMessage> {
    Answer::Stepped(Step::A {
        time,
        reports: Reports {
            pulse,
            serial: None,
        },
    })
}

#[test]
fn looks_stand_between_steps(rt: HostRuntime) -> Result<(), Fail> {
    let settings = Settings::new(560, 1)?;
    let look_a = Call::Look(Subject::Reading(Side::A));
    let look_b = Call::Look(Subject::Reading(Side::B));
    let step = Call::Step;
    let calls = [
        look_a, step, step, step, step, look_a, step, look_a, look_b, step, step, look_a,
    ];
    let mut out: Vec<Answer<ShortMessage, EnhancedMessage>> = Vec::with_capacity(rt.alloc(), 12)?;
    let (a, b) = feeds(settings);
    let outcome = run::<CounterCapture, AbsoluteLog, Short, Enhanced>(a, b, &calls, &mut out);
    let made = outcome.is_ok();
    let _ = outcome.unwrap_or_else(|refused| refused.unit).close();
    assert!(rt; made);
    assert_eq!(rt; out.len(), 12);
    let none = Answer::Reading(None);
    let four = Answer::Reading(Some(4));
    let refused = Answer::Refused(StepRefusal::NoEvent);
    let frame = Outcome::Framed(FrameRow {
        place: 0,
        status: 0,
        packed: 0x40_0000,
    });
    let wanted = [
        none,
        stepped(0, Outcome::Quiet),
        stepped(560, Outcome::Quiet),
        stepped(680, Outcome::Quiet),
        stepped(840, Outcome::Quiet),
        none,
        stepped(1_000, frame),
        four,
        none,
        refused,
        refused,
        four,
    ];
    for (answer, told) in out.iter().zip(wanted) {
        assert_eq!(rt; *answer, told);
    }
    Ok(())
}

#[test]
fn a_run_without_room_takes_nothing(rt: HostRuntime) -> Result<(), Fail> {
    let settings = Settings::new(560, 1)?;
    let mut out: Vec<Answer<ShortMessage, EnhancedMessage>> = Vec::new(rt.alloc());
    let (a, b) = feeds(settings);
    let outcome = run::<CounterCapture, AbsoluteLog, Short, Enhanced>(
        a,
        b,
        &[Call::Step],
        &mut out,
    );
    let refused = outcome.is_err();
    let mut unit = outcome.unwrap_or_else(|why| why.unit);
    let steps = (0..9).filter(|_| unit.step().is_ok()).count();
    let _ = unit.close();
    assert!(rt; refused);
    assert_eq!(rt; out.len(), 0);
    assert_eq!(rt; steps, 5);
    Ok(())
}
