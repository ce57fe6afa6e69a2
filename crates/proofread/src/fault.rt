// What is said of a sheet that is refused.
use crate::position::Position;
use crate::visible::{Blanks, Visible};
use reader::types::{Placed, Refusal, Word};
use reader::word_at;
use std::fmt;

// A text, and how it was refused.
#[derive(Clone, Copy)]
pub struct Fault<'a> {
    pub text: &'a [u8],
    pub refused: Placed<Refusal>,
}

impl fmt::Display for Fault<'_> {
    fn fmt<W: fmt::Write>(&self, f: &mut fmt::Formatter<W>) -> fmt::Result {
        let place = self.refused.place;
        let refusal = self.refused.item;
        let number = refusal.number();
        writeln!(f, "refused {number} at {place}: {refusal}")?;
        let word = word_at(self.text, place);
        let position = Position::of(self.text, place);
        let is_end = place >= self.text.len();
        write_position(f, position, word, is_end)?;
        write_line(f, position, word)?;
        let hint = if is_end {
            hint_at_end(refusal)
        } else {
            hint(refusal)
        };
        writeln!(f, "{hint}")
    }
}

fn write_position<W: fmt::Write>(
    f: &mut fmt::Formatter<W>,
    position: Position<'_>,
    word: Word<'_>,
    is_end: bool,
) -> fmt::Result {
    let line = position.line;
    let column = position.column;
    write!(f, "Line {line}, column {column}")?;
    if is_end {
        write!(f, ", at the end of the text")?;
    } else if word.length > 0 {
        let shown = Visible(word.bytes);
        write!(f, ", at the word {shown}")?;
    }
    writeln!(f, ":")
}

// Writes the line, and a mark below the place, as long as the word there.
fn write_line<W: fmt::Write>(
    f: &mut fmt::Formatter<W>,
    position: Position<'_>,
    word: Word<'_>,
) -> fmt::Result {
    let before = Visible(position.before);
    let after = Visible(position.after);
    let blanks = Blanks(position.before);
    writeln!(f)?;
    writeln!(f, "  | {before}{after}")?;
    write!(f, "  | {blanks}")?;
    for _ in 0..word.length.max(1) {
        write!(f, "^")?;
    }
    writeln!(f)?;
    writeln!(f)
}

fn hint(refusal: Refusal) -> &'static str {
    match refusal {
        Refusal::Overlong => concat!(
            "A sheet has at most 16,384 bytes.\n",
            "The mark stands below the first byte too many.",
        ),
        Refusal::StrayByte => concat!(
            "No word or mark begins here. The marks are := != + - and ; with no blank inside.\n",
            "Only the space and the line feed are blanks. Tabs and carriage returns are not.",
        ),
        Refusal::StrangeWord => concat!(
            "A word is LOOP, WHILE, DO or END in capitals, a number such as 12,\n",
            "or a register such as x12. No number begins with a needless 0.",
        ),
        Refusal::TooBig => "The largest number is 999,999, and the highest register is x31.",
        Refusal::OutOfOrder => concat!(
            "All before the mark can begin a sheet, but this cannot come next. A statement is\n",
            "  xi := xj + c\n",
            "  xi := xj - c\n",
            "  LOOP xi DO .. END\n",
            "  WHILE xi != 0 DO .. END\n",
            "and a semicolon stands between two statements, but not behind the last.",
        ),
        Refusal::TooDeep => concat!(
            "LOOPs and WHILEs stand inside one another at most 8 deep.\n",
            "This one would be the ninth.",
        ),
        Refusal::TooMany => concat!(
            "A sheet has at most 256 statements, and at most 32 of them are LOOPs.\n",
            "The mark stands below the first too many.",
        ),
        _ => "The sheet does not fit into the memory that was set aside for it.",
    }
}

fn hint_at_end(refusal: Refusal) -> &'static str {
    match refusal {
        Refusal::OutOfOrder => concat!(
            "The text ends before the sheet is whole. Look for an END that is missing,\n",
            "a semicolon behind the last statement, or a statement that breaks off.",
        ),
        _ => hint(refusal),
    }
}
