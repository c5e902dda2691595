// What the tests say of events and outcomes.
use model::event::Event;
use model::fault::{Fault, FaultKind};
use model::settings::Settings;
use pulses::decoder::Decoder;
use pulses::frame::FrameRow;
use pulses::outcome::Outcome;
use std::process::Abort;
use std::test::Fail;

pub fn edge(place: u32, time: u64) -> Event {
    Event::Edge { place, time }
}

pub fn framed(place: u32, status: u8, packed: u32) -> Outcome {
    Outcome::Framed(FrameRow {
        place,
        status,
        packed,
    })
}

pub fn failed(kind: FaultKind, place: u32) -> Outcome {
    Outcome::Failed(Fault { kind, place })
}

// A decoder for this nominal calibration pulse and so many data nibbles.
pub fn decoder(calibration: u32, nibbles: u8) -> Result<Decoder, Fail> {
    Ok(Decoder::prepare(Settings::new(calibration, nibbles)?))
}

// The decoder gives these outcomes at edges of these times, whose places count from `place` on.
pub fn edges_give(
    rt: &impl Abort,
    decoder: &mut Decoder,
    place: u32,
    steps: &[(u64, Outcome)],
) -> Result<(), Fail> {
    for (next, (time, outcome)) in (place..).zip(steps) {
        assert_eq!(rt; decoder.step(edge(next, *time))?, *outcome, "{}", *time);
    }
    Ok(())
}
