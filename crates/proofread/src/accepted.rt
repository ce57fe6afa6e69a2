// What is said of a sheet that is in order.
use crate::visible::Visible;
use reader::limits::{LONGEST, STATEMENTS};
use reader::types::{Placed, Statement, ZERO_RECORD};
use reader::{print, read};
use std::io;
use std::io::Write;
use survey::{depth, loops};

// Writes the counts of the sheet, its printed form, and whether that gives the same statements again.
pub fn write_accepted(
    out: &mut impl Write,
    bytes: usize,
    sheet: &[Placed<Statement>],
) -> anyhow::Result<()> {
    write_counts(out, bytes, sheet)?;
    let mut page = [0; LONGEST];
    let length = print(sheet, &mut page)?;
    write_printed(out, &page[..length], sheet)?;
    Ok(())
}

fn write_counts(out: &mut impl Write, bytes: usize, sheet: &[Placed<Statement>]) -> io::Result<()> {
    let statements = sheet.len();
    let loop_count = loops(sheet);
    let deepest = depth(sheet);
    writeln!(out, "The sheet is in order.")?;
    writeln!(out)?;
    writeln!(out, "  bytes       {bytes}")?;
    writeln!(out, "  statements  {statements}")?;
    writeln!(out, "  LOOPs       {loop_count}")?;
    writeln!(
        out,
        "  depth       {deepest}  (LOOPs and WHILEs inside one another)"
    )?;
    writeln!(out)
}

fn write_printed(
    out: &mut impl Write,
    printed: &[u8],
    sheet: &[Placed<Statement>],
) -> io::Result<()> {
    let shown = Visible(printed);
    writeln!(out, "Printed form:")?;
    writeln!(out)?;
    writeln!(out, "{shown}")?;
    writeln!(out)?;
    if reads_as(printed, sheet) {
        writeln!(
            out,
            "The printed form was read back and gives the same statements."
        )?;
        writeln!(out, "Only their places in the text may differ.")
    } else {
        writeln!(
            out,
            "The printed form was read back and gives other statements."
        )?;
        writeln!(
            out,
            "That is a mistake of this program, and not of the sheet."
        )
    }
}

// Whether the text is read as the statements of the sheet, places aside.
fn reads_as(text: &[u8], sheet: &[Placed<Statement>]) -> bool {
    let mut records = [ZERO_RECORD; STATEMENTS];
    match read(text, &mut records) {
        Ok(count) => same_statements(&records[..count], sheet),
        Err(_) => false,
    }
}

fn same_statements(left: &[Placed<Statement>], right: &[Placed<Statement>]) -> bool {
    left.iter().map(|r| r.item).eq(right.iter().map(|r| r.item))
}
