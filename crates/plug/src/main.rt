//! Listens on a serial line: reads received bytes from standard input and lists the frames in them.
#![tactic(auto)]

use listing::frames::listing;
use std::io::Read;

/// The most bytes that are read.
const MAX_RECEIVED: u64 = 65_536;

fn main(rt: HostRuntime) -> anyhow::Result<()> {
    let mut received = Vec::new(rt.alloc());
    rt.stdin().take(MAX_RECEIVED).read_to_end(&mut received)?;
    let text = listing(rt.alloc(), received.as_slice())?;
    print!(rt; "{text}")?;
    Ok(())
}
