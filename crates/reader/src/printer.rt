ghost use Rattle.reader.specs.Printing.{PrintAnswers, PrintReads};
ghost use Rattle.reader.specs.PrintClaims.{NextSiblingLeadsOn, PrintedSheetReadsBack, PrintIsUnique, ReadSheetPrints, ExamplePrints};

use crate::check::is_sheet;
use crate::types::{Placed, Refusal, Statement};
use crate::writer::write_sheet;

// Prints the sheet of the records at the front of the page, and answers how many bytes it has. Records that are those of
// no sheet within the limits, and a page that is too short, are refused; the page is then as it was.
pub fn print(records: &[Placed<Statement>], page: &mut [u8]) -> Result<usize, Refusal>
    ensures answer { PrintAnswers records.now page.old result page.new }
    ensures reads_back { PrintReads records.now result page.new }
{
    if !is_sheet(records) {
        return Err(Refusal::NoSheet);
    }
    let length = write_sheet(records, &mut []);
    if page.len() < length {
        return Err(Refusal::PageFull);
    }
    let _ = write_sheet(records, page);
    Ok(length)
}

// The next-sibling question leads along a body.
pub fn next_sibling_leads_on() -> u8
    ensures { NextSiblingLeadsOn }
{
    0
}

// The printed form of a sheet is read back.
pub fn printed_sheet_reads_back() -> u8
    ensures { PrintedSheetReadsBack }
{
    0
}

// A print has at most one answer.
pub fn print_is_unique() -> u8
    ensures { PrintIsUnique }
{
    0
}

// The records of every text that is read can be printed.
pub fn read_sheet_prints() -> u8
    ensures { ReadSheetPrints }
{
    0
}

// The printed form of the worked example.
pub fn example_prints() -> u8
    ensures { ExamplePrints }
{
    0
}
