// Reads a sheet from standard input, and says what it found: the sheet in order, or its first fault.
#![tactic(auto)]

mod accepted;
mod fault;
mod position;
mod visible;

use accepted::write_accepted;
use fault::Fault;
use reader::limits::STATEMENTS;
use reader::read;
use reader::types::ZERO_RECORD;
use std::io::{BufWriter, Read, Write};

// The most bytes of the input that are looked at; a sheet has far fewer.
const MOST: u64 = 1_048_576;

// listing takes its input alike; a library of their own for these lines would be no plainer.
fn main(rt: HostRuntime) -> anyhow::Result<()> {
    let mut text = Vec::new(rt.alloc());
    rt.stdin().take(MOST).read_to_end(&mut text)?;
    let mut out = BufWriter::new(rt.alloc(), rt.stdout())?;
    proofread(&mut out, text.as_slice())?;
    out.flush()?;
    Ok(())
}

fn proofread(out: &mut impl Write, text: &[u8]) -> anyhow::Result<()> {
    let mut records = [ZERO_RECORD; STATEMENTS];
    match read(text, &mut records) {
        Ok(count) => write_accepted(out, text.len(), &records[..count]),
        Err(refused) => {
            let fault = Fault { text, refused };
            write!(out, "{fault}")?;
            Ok(())
        }
    }
}
