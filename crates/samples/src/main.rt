// Reads samples, a line for each, and prints what was found in the sheet of each.
#![tactic(auto)]

mod escape;
mod finding;

use anyhow::anyhow;
use escape::{BadLine, sample_text};
use finding::write_finding;
use std::alloc::Global;
use std::io::{BufRead, BufReader, BufWriter, Write};

fn main(rt: HostRuntime) -> anyhow::Result<()> {
    let heap = rt.alloc();
    let mut out = BufWriter::new(heap, rt.stdout())?;
    for line in BufReader::new(heap, rt.stdin())?.split(heap, b'\n') {
        let line = line?;
        out.write_all(line.as_slice())?;
        writeln!(out)?;
        answer(&mut out, heap, line.as_slice())?;
        writeln!(out)?;
    }
    out.flush()?;
    Ok(())
}

// Writes what was found in the sample on the line, or why the line has none.
fn answer(out: &mut impl Write, heap: Global, line: &[u8]) -> anyhow::Result<()> {
    match sample_text(heap, line) {
        Ok(text) => write_finding(out, text.as_slice()),
        Err(BadLine::Memory(e)) => Err(BadLine::Memory(e).into()),
        Err(bad) => {
            writeln!(out, "no sample: {bad}")?;
            Ok(())
        }
    }
}
