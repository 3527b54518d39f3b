#![tactic(auto)]

// Reads a job file from standard input, and prints its listing.
use anyhow::anyhow;
use listing::listing;
use std::io::Read;

/// 129 records: one more than a list holds, so that a longer file is refused as one with too many jobs.
const MOST_BYTES: u64 = 2064;

fn main(rt: HostRuntime) -> anyhow::Result<()> {
    let mut bytes = Vec::new(rt.alloc());
    let _ = rt.stdin().take(MOST_BYTES).read_to_end(&mut bytes)?;
    let text = listing(rt.alloc(), &bytes).map_err(|_| anyhow!("out of memory"))?;
    print!(rt; "{text}")?;
    Ok(())
}
