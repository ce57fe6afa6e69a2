// Reads a sheet from standard input, and prints its code.
#![tactic(auto)]

use shown::write_code;
use std::io::{BufWriter, Read, Write};

// The most bytes of the input that are looked at; a sheet has far fewer.
const MOST: u64 = 1_048_576;

// proofread takes its input alike; a library of their own for these lines would be no plainer.
fn main(rt: HostRuntime) -> anyhow::Result<()> {
    let mut text = Vec::new(rt.alloc());
    rt.stdin().take(MOST).read_to_end(&mut text)?;
    let mut out = BufWriter::new(rt.alloc(), rt.stdout())?;
    write_code(&mut out, text.as_slice())?;
    out.flush()?;
    Ok(())
}
