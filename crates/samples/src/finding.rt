// What is found in the text of a sheet.
use crate::escape::Escaped;
use reader::limits::{LONGEST, STATEMENTS};
use reader::types::{Placed, Statement, ZERO_RECORD};
use reader::{print, read};
use shown::{write_code, write_refused};
use std::io::Write;
use survey::depth;

// Writes how the text is refused; or the counts of its sheet, the sheet in printed form, and its code.
pub fn write_finding(out: &mut impl Write, text: &[u8]) -> anyhow::Result<()> {
    let mut records = [ZERO_RECORD; STATEMENTS];
    match read(text, &mut records) {
        Ok(count) => {
            write_sheet(out, &records[..count])?;
            write_code(out, text)?;
            Ok(())
        }
        Err(refused) => {
            write_refused(out, refused)?;
            Ok(())
        }
    }
}

fn write_sheet(out: &mut impl Write, sheet: &[Placed<Statement>]) -> anyhow::Result<()> {
    let statements = sheet.len();
    let deepest = depth(sheet);
    writeln!(out, "{statements} statements, depth {deepest}")?;
    let mut page = [0; LONGEST];
    let length = print(sheet, &mut page)?;
    let printed = Escaped(&page[..length]);
    writeln!(out, "printed {printed}")?;
    Ok(())
}
