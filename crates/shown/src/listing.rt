// The listing of a sheet: its code, one instruction to a line.
use crate::line::Line;
use reader::limits::STATEMENTS;
use reader::types::{Placed, Refusal, ZERO_RECORD};
use std::io;
use std::io::Write;
use translator::draft::{HALT, SealedCode};
use translator::limits::{FLATS, INSTRUCTIONS};
use translator::load::load;
use translator::types::ZERO_FLAT;

// Writes the code of the sheet that the text spells, or how the text is refused. The memory is enough for each sheet.
pub fn write_code(out: &mut impl Write, text: &[u8]) -> io::Result<()> {
    let mut records = [ZERO_RECORD; STATEMENTS];
    let mut flats = [ZERO_FLAT; FLATS];
    let mut memory = [HALT; INSTRUCTIONS];
    match load(text, &mut records, &mut flats, &mut memory) {
        Ok(code) => write_lines(out, &code),
        Err(refused) => write_refused(out, refused.fault.cause),
    }
}

// Writes the instructions, each with its label, which counts from 1.
fn write_lines(out: &mut impl Write, code: &SealedCode<'_>) -> io::Result<()> {
    for (index, instruction) in code.as_slice().iter().enumerate() {
        let line = Line {
            label: index + 1,
            instruction: *instruction,
        };
        writeln!(out, "{line}")?;
    }
    Ok(())
}

// Writes the number and the place of a refusal.
pub fn write_refused(out: &mut impl Write, refused: Placed<Refusal>) -> io::Result<()> {
    let number = refused.item.number();
    let place = refused.place;
    writeln!(out, "refused {number} at {place}")
}
