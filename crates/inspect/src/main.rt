// Says what a unit file on standard input holds, or why it is refused.
#![tactic(auto)]

use anyhow::anyhow;
use captures::events::Timing;
use model::side::Side;
use std::io;
use std::io::Read;
use unitfile::file::{FileRefusal, MOST_BYTES, UnitChannel, UnitFile};
use unitfile::summary::{Span, summary_of};

// One byte more than a unit file may have, so that a longer one is seen to be too long.
const READ_AT_MOST: u64 = MOST_BYTES as u64 + 1;

fn main(rt: HostRuntime) -> anyhow::Result<()> {
    let mut input = Vec::new(rt.alloc());
    rt.stdin().take(READ_AT_MOST).read_to_end(&mut input)?;
    match UnitFile::read(&input) {
        Ok(file) => {
            describe(&rt, Side::A, &file.a)?;
            describe(&rt, Side::B, &file.b)?;
            Ok(())
        }
        Err(why) => {
            refuse(&rt, why)?;
            Err(anyhow!("refused"))
        }
    }
}

fn describe<K: Timing>(
    rt: &HostRuntime,
    side: Side,
    channel: &UnitChannel<'_, K>,
) -> io::Result<()> {
    let letter = side.letter();
    let feed = channel.open();
    let k = feed.settings.calibration();
    let n = feed.settings.nibbles();
    let records = channel.capture.record_count();
    let summary = summary_of(feed.source);
    let edges = summary.edges;
    let breaks = summary.breaks;
    match summary.span {
        Some(Span { first, last }) => println!(rt;
            "{letter} K {k} N {n} records {records} edges {edges} breaks {breaks} first {first} last {last}"
        ),
        None => println!(rt;
            "{letter} K {k} N {n} records {records} edges {edges} breaks {breaks} first - last -"
        ),
    }
}

fn refuse(rt: &HostRuntime, why: FileRefusal) -> io::Result<()> {
    let number = why.number();
    let place = why.place();
    let letter = why.side().map_or('-', Side::letter);
    println!(rt; "R {number} {letter} {place}")
}
