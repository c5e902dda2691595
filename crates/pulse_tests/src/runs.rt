// Whole frames, runs and rows.
use crate::scenes::{decoder, edge, edges_give, failed, framed};
use model::event::Event;
use model::fault::FaultKind;
use model::settings::Settings;
use pulses::frame::FrameRow;
use pulses::outcome::Outcome;
use series::decoding::{RunRefusal, decode};
use std::test::Fail;

#[test]
fn fraction_of_a_tick_counts(rt: HostRuntime) -> Result<(), Fail> {
    let mut d = decoder(560, 1)?;
    edges_give(
        &rt,
        &mut d,
        0,
        &[
            (0, Outcome::Quiet),
            (615, Outcome::Quiet),
            (911, Outcome::Quiet),
            (1087, Outcome::Quiet),
            (1263, framed(0, 15, 0x400000)),
        ],
    )
}

#[test]
fn slowest_head(rt: HostRuntime) -> Result<(), Fail> {
    let mut d = decoder(4_000_000, 1)?;
    edges_give(
        &rt,
        &mut d,
        7,
        &[
            (0, Outcome::Quiet),
            (4_800_000, Outcome::Quiet),
            (5_828_571, Outcome::Quiet),
            (7_200_000, Outcome::Quiet),
            (8_571_429, framed(7, 0, 0x400000)),
        ],
    )
}

// two frames of six nibbles back to back, the status taking no part in the check
#[test]
fn six_nibbles(rt: HostRuntime) -> Result<(), Fail> {
    let mut d = decoder(560, 6)?;
    edges_give(&rt, &mut d, 0, &[(0, Outcome::Quiet)])?;
    for (status, start, begin) in [(5, 0, 0), (10, 9, 1980)] {
        let shift = begin + 10 * status as u64;
        edges_give(
            &rt,
            &mut d,
            start + 1,
            &[
                (begin + 560, Outcome::Quiet),
                (shift + 680, Outcome::Quiet),
                (shift + 870, Outcome::Quiet),
                (shift + 1030, Outcome::Quiet),
                (shift + 1230, Outcome::Quiet),
                (shift + 1420, Outcome::Quiet),
                (shift + 1580, Outcome::Quiet),
                (shift + 1780, Outcome::Quiet),
                (shift + 1930, framed(start, status, 0x748748)),
            ],
        )?;
    }
    Ok(())
}

#[test]
fn rows_and_frames(rt: HostRuntime) {
    let row = FrameRow {
        place: 9,
        status: 5,
        packed: 0x748532,
    };
    let frame = row.frame();
    assert_eq!(rt; frame.place(), 9);
    assert_eq!(rt; frame.status(), 5);
    assert_eq!(rt; frame.nibbles(), [7, 4, 8, 5, 3, 2]);
    assert_eq!(rt; frame.row(), row);
}

#[test]
fn run_over_events(rt: HostRuntime) -> Result<(), Fail> {
    let settings = Settings::new(560, 1)?;
    let events = [
        edge(0, 0),
        edge(1, 560),
        edge(2, 680),
        edge(3, 840),
        edge(4, 1000),
        Event::Break {
            place: 5,
            time: 1000,
        },
    ];
    let mut out = Vec::with_capacity(rt.alloc(), 6)?;
    decode(settings, &events, &mut out)?;
    assert_eq!(rt; out.len(), 6);
    assert_eq!(rt; out.get(4).copied(), Some(framed(0, 0, 0x400000)));
    assert_eq!(rt; out.get(5).copied(), Some(failed(FaultKind::Break, 5)));
    let late = [edge(0, 1 << 40)];
    assert_eq!(rt;
        decode(settings, &late, &mut out).err(),
        Some(RunRefusal::Late)
    );
    assert_eq!(rt; out.len(), 6);
    let mut small = Vec::new(rt.alloc());
    assert_eq!(rt;
        decode(settings, &events, &mut small).err(),
        Some(RunRefusal::Room)
    );
    assert_eq!(rt; small.len(), 0);
    Ok(())
}
