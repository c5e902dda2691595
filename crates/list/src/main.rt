// Lists what both heads of a unit file on standard input sent, or why the file is refused.
#![tactic(auto)]

use anyhow::{anyhow, ensure};
use listing::file::{Verdict, list, room_for};
use std::io::{Read, Write};
use unitfile::file::MOST_BYTES;

// One byte more than a unit file may have, so that a longer one is seen to be too long.
const READ_AT_MOST: u64 = MOST_BYTES as u64 + 1;

fn main(rt: HostRuntime) -> anyhow::Result<()> {
    let mut input = Vec::new(rt.alloc());
    rt.stdin().take(READ_AT_MOST).read_to_end(&mut input)?;
    let mut listing = Vec::with_capacity(rt.alloc(), room_for(input.len()))?;
    let verdict = list(&input, &mut listing).map_err(|_| anyhow!(
        "there is no room for the listing"
    ))?;
    rt.stdout().write_all(&listing)?;
    ensure!(verdict == Verdict::Accepted, "the file is refused");
    Ok(())
}
