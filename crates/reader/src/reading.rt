ghost use Rattle.std.specs.Prelude.{length};
ghost use Rattle.reader.specs.Parsing.{SheetRead};
ghost use Rattle.reader.specs.Reading.{ReadAnswers};

use crate::limits::LONGEST;
use crate::parser::{Parser, clear_from};
use crate::types::{Placed, Refusal, Statement};

// Reads the text of a sheet into records, one for each statement, in text order, and answers how many there are.
// The memory behind them is cleared; a refusal clears all of it, and tells its place in the text.
pub fn read(text: &[u8], records: &mut [Placed<Statement>]) -> Result<usize, Placed<Refusal>>
    ensures answers { ReadAnswers text.now (length records.old) result records.new }
{
    if text.len() > LONGEST {
        clear_from(records, 0);
        return Err(Placed {
            place: LONGEST,
            item: Refusal::Overlong,
        });
    }
    let answer = parse(text, records);
    clear_from(records, answer.unwrap_or(0));
    answer
}

// Parses the text, as far as there is memory for its records.
fn parse(text: &[u8], records: &mut [Placed<Statement>]) -> Result<usize, Placed<Refusal>>
    ensures { SheetRead (length records.old) text.now records.old result records.new }
{
    let mut parser = Parser::new(text, records);
    parser.sheet()
}
