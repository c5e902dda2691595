// Counts what both heads of a unit file on standard input sent: frames, and faults of the pulses, for each channel.
#![tactic(auto)]

use anyhow::anyhow;
use captures::absolute::AbsoluteLog;
use captures::counter::CounterCapture;
use formats::enhanced::Enhanced;
use formats::short::Short;
use receiver::answer::Closing;
use receiver::unit::Receiver;
use std::io::Read;
use unitfile::file::{MOST_BYTES, UnitFile};

// One byte more than a unit file may have, so that a longer one is seen to be too long.
const READ_AT_MOST: u64 = MOST_BYTES as u64 + 1;

fn main(rt: HostRuntime) -> anyhow::Result<()> {
    let mut input = Vec::new(rt.alloc());
    rt.stdin().take(READ_AT_MOST).read_to_end(&mut input)?;
    match UnitFile::read(&input) {
        Ok(file) => {
            let closing = counted(&file);
            println!(rt; "A frames {} faults {}", closing.a.frames, closing.a.faults)?;
            println!(rt; "B frames {} faults {}", closing.b.frames, closing.b.faults)?;
            Ok(())
        }
        Err(why) => {
            println!(rt; "refused by {}", why.number())?;
            Err(anyhow!("refused"))
        }
    }
}

// The unit owns its sources from here on, and closing takes the unit. A capture that is to be read again is opened again.
fn counted(file: &UnitFile<'_>) -> Closing {
    let (a, b) = file.open();
    let mut unit: Receiver<CounterCapture, AbsoluteLog, Short, Enhanced> = Receiver::new(a, b);
    while let Ok(_) = unit.step() {}
    unit.close()
}
