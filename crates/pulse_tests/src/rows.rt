// Each row of the step, and its limits.
use crate::scenes::{decoder, edge, edges_give, failed, framed};
use model::event::Event;
use model::fault::FaultKind;
use pulses::outcome::{Outcome, StepRefusal};
use std::test::Fail;

#[test]
fn window_at_560(rt: HostRuntime) -> Result<(), Fail> {
    for (interval, outcome) in [
        (447, Outcome::Skipped),
        (448, Outcome::Quiet),
        (672, Outcome::Quiet),
        (673, Outcome::Skipped),
    ] {
        let mut d = decoder(560, 1)?;
        edges_give(&rt, &mut d, 0, &[(0, Outcome::Quiet), (interval, outcome)])?;
    }
    Ok(())
}

#[test]
fn break_loses_the_last_edge(rt: HostRuntime) -> Result<(), Fail> {
    let mut d = decoder(560, 1)?;
    assert_eq!(rt;
        d.step(Event::Break { place: 0, time: 0 })?,
        failed(FaultKind::Break, 0)
    );
    edges_give(
        &rt,
        &mut d,
        1,
        &[(100, Outcome::Quiet), (660, Outcome::Quiet)],
    )?;
    assert_eq!(rt;
        d.step(Event::Break {
            place: 3,
            time: 660,
        })?,
        failed(FaultKind::Break, 3)
    );
    // the first edge after it starts no interval
    edges_give(
        &rt,
        &mut d,
        4,
        &[
            (1220, Outcome::Quiet),
            (1780, Outcome::Quiet),
            (1900, Outcome::Quiet),
        ],
    )
}

#[test]
fn no_interval(rt: HostRuntime) -> Result<(), Fail> {
    let mut d = decoder(560, 1)?;
    edges_give(
        &rt,
        &mut d,
        0,
        &[
            (1000, Outcome::Quiet),
            (1000, failed(FaultKind::Interval, 1)),
            (900, failed(FaultKind::Interval, 2)),
            (900 + 16_777_215, Outcome::Skipped),
            (900 + 2 * 16_777_215 + 1, failed(FaultKind::Interval, 4)),
            // the last edge is the one of the fault
            (900 + 2 * 16_777_215 + 561, Outcome::Quiet),
            (900 + 2 * 16_777_215 + 561, failed(FaultKind::Interval, 6)),
        ],
    )
}

#[test]
fn calibration_due(rt: HostRuntime) -> Result<(), Fail> {
    let mut d = decoder(560, 1)?;
    edges_give(
        &rt,
        &mut d,
        0,
        &[
            (0, Outcome::Quiet),
            (560, Outcome::Quiet),
            (680, Outcome::Quiet),
            (840, Outcome::Quiet),
            (1000, framed(0, 0, 0x400000)),
            (1447, failed(FaultKind::Calibration, 5)),
            (1894, Outcome::Skipped),
            (2454, Outcome::Quiet),
        ],
    )
}

#[test]
fn ticks_of_nibbles(rt: HostRuntime) -> Result<(), Fail> {
    for (interval, outcome) in [
        (114, failed(FaultKind::ShortNibble, 2)),
        (115, Outcome::Quiet),
        (274, Outcome::Quiet),
        (275, failed(FaultKind::LongNibble, 2)),
    ] {
        let mut d = decoder(560, 1)?;
        edges_give(
            &rt,
            &mut d,
            0,
            &[
                (0, Outcome::Quiet),
                (560, Outcome::Quiet),
                (560 + interval, outcome),
            ],
        )?;
    }
    Ok(())
}

#[test]
fn short_nibble_is_no_calibration(rt: HostRuntime) -> Result<(), Fail> {
    let mut d = decoder(560, 1)?;
    edges_give(
        &rt,
        &mut d,
        0,
        &[
            (0, Outcome::Quiet),
            (560, Outcome::Quiet),
            (570, failed(FaultKind::ShortNibble, 2)),
            (690, Outcome::Skipped),
        ],
    )
}

#[test]
fn interval_of_a_long_nibble_starts_a_frame(rt: HostRuntime) -> Result<(), Fail> {
    let mut d = decoder(560, 1)?;
    edges_give(
        &rt,
        &mut d,
        0,
        &[
            (0, Outcome::Quiet),
            (560, Outcome::Quiet),
            (1120, failed(FaultKind::LongNibble, 2)),
            (1240, Outcome::Quiet),
            (1400, Outcome::Quiet),
            (1560, framed(1, 0, 0x400000)),
        ],
    )
}

#[test]
fn long_nibble_outside_the_window(rt: HostRuntime) -> Result<(), Fail> {
    let mut d = decoder(560, 1)?;
    edges_give(
        &rt,
        &mut d,
        0,
        &[
            (0, Outcome::Quiet),
            (560, Outcome::Quiet),
            (960, failed(FaultKind::LongNibble, 2)),
            (1080, Outcome::Skipped),
        ],
    )
}

#[test]
fn check_that_does_not_fit(rt: HostRuntime) -> Result<(), Fail> {
    let mut d = decoder(560, 1)?;
    edges_give(
        &rt,
        &mut d,
        0,
        &[
            (0, Outcome::Quiet),
            (560, Outcome::Quiet),
            (680, Outcome::Quiet),
            (840, Outcome::Quiet),
            (1010, failed(FaultKind::FrameCheck, 4)),
            // a calibration pulse is due all the same
            (1130, failed(FaultKind::Calibration, 5)),
        ],
    )
}

#[test]
fn late_events_change_nothing(rt: HostRuntime) -> Result<(), Fail> {
    let mut d = decoder(560, 1)?;
    let limit = 1 << 40;
    edges_give(
        &rt,
        &mut d,
        0,
        &[
            (0, Outcome::Quiet),
            (560, Outcome::Quiet),
            (680, Outcome::Quiet),
        ],
    )?;
    assert_eq!(rt; d.step(edge(3, limit)), Err(StepRefusal::Late));
    assert_eq!(rt;
        d.step(Event::Break {
            place: 3,
            time: limit,
        }),
        Err(StepRefusal::Late)
    );
    assert_eq!(rt; StepRefusal::Late.number(), 6);
    edges_give(
        &rt,
        &mut d,
        3,
        &[(840, Outcome::Quiet), (1000, framed(0, 0, 0x400000))],
    )?;
    assert_eq!(rt; d.step(edge(5, limit - 1))?, failed(FaultKind::Interval, 5));
    Ok(())
}
