use captures::absolute::AbsoluteLog;
use formats::enhanced::{Configuration, Enhanced, EnhancedMessage};
use formats::short::{Short, ShortMessage};
use model::feed::Feed;
use model::settings::Settings;
use receiver::answer::Step;
use receiver::unit::Receiver;
use serial::report::SerialReport;
use std::alloc::{AllocError, Global};
use std::test::Fail;

// Bit 3 and bit 2 of the statuses of frames that carry a message, highest first.
const SHORT: (u32, u32) = (0x8000, 0x35ac);

const ENHANCED: (u32, u32) = (0b11_1111_0101_0101_0100, 0b11_0100_0011_1100_0001);

// A log of frames with the data nibble 4 at ten counts a tick, whose statuses spell these bits.
fn log_of(heap: Global, bits: (u32, u32), count: u32) -> Result<Vec<u8>, AllocError> {
    let mut bytes = Vec::new(heap);
    let mut time: u64 = 0;
    push_edge(&mut bytes, time)?;
    for bit in (0..count).rev() {
        let status = (bits.0 >> (bit % 32)) % 2 * 8 + (bits.1 >> (bit % 32)) % 2 * 4;
        for long in [560, 120 + 10 * u64::from(status), 160, 160] {
            time = time.wrapping_add(long);
            push_edge(&mut bytes, time)?;
        }
    }
    Ok(bytes)
}

fn push_edge(bytes: &mut Vec<u8>, time: u64) -> Result<(), AllocError> {
    bytes.extend_from_slice(b"SA")?;
    let [_, _, a, b, c, d, e, f] = time.to_be_bytes();
    bytes.extend_from_slice(&[a, b, c, d, e, f])
}

// The message that a report tells, with the place of its first frame.
fn told<M: Copy>(serial: Option<SerialReport<M>>) -> Option<(u32, M)> {
    match serial? {
        SerialReport::Told { place, message } => Some((place, message)),
        SerialReport::Failed { .. } => None,
    }
}

#[test]
fn messages_of_both_formats(rt: HostRuntime) -> Result<(), Fail> {
    let settings = Settings::new(560, 1)?;
    let bytes_a = log_of(rt.alloc(), SHORT, 16)?;
    let bytes_b = log_of(rt.alloc(), ENHANCED, 18)?;
    let mut unit: Receiver<AbsoluteLog, AbsoluteLog, Short, Enhanced> = Receiver::new(
        Feed {
            source: AbsoluteLog::open(&bytes_a),
            settings,
        },
        Feed {
            source: AbsoluteLog::open(&bytes_b),
            settings,
        },
    );
    let mut short = None;
    let mut enhanced = None;
    for step in (0..200).map_while(|_| unit.step().ok()) {
        match step {
            Step::A { reports, .. } => short = told(reports.serial).or(short),
            Step::B { reports, .. } => enhanced = told(reports.serial).or(enhanced),
        }
    }
    let closing = unit.close();
    assert_eq!(rt; closing.a.frames, 16);
    assert_eq!(rt; closing.b.frames, 18);
    assert_eq!(rt; short, Some((0, ShortMessage { id: 3, data: 0x5a })));
    let told = EnhancedMessage {
        configuration: Configuration::Data16,
        id: 5,
        data: 0xa3c1,
    };
    assert_eq!(rt; enhanced, Some((0, told)));
    Ok(())
}
