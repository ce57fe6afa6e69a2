// A script, taken line by line.
ghost use Rattle.std.specs.Prelude.{◌≡◌, ◌<◌, ◌≤◌, length, MatchOption};
ghost use Rattle.console.specs.Scripts.{Cut, Front};

use survey::line_length;

// What is still to come of a script.
#[derive(Clone, Copy)]
pub struct Script<'a> {
    rest: &'a [u8],
}

impl<'a> Script<'a> {
    pub fn new(text: &'a [u8]) -> Script<'a>
        ensures { result.rest.now ≡ text.now }
    {
        Script { rest: text }
    }

    // Takes the next line and hands it out without its line feed.
    pub fn next_line(&mut self) -> Option<&'a [u8]>
        ensures cut { MatchOption result (length self.old.rest.now ≡ 0) (λ line. Cut self.old.rest.now line.now self.new.rest.now) }
        ensures shorter { MatchOption result (self.new.rest.now ≡ self.old.rest.now) (λ _. length self.new.rest.now < length self.old.rest.now) }
    {
        let text = self.rest;
        if text.is_empty() {
            return None;
        }
        let (line, rest) = first_line(text);
        self.rest = rest;
        Some(line)
    }

    // Takes the lines of a sheet with the line `.` behind them, and hands out the sheet's: joined by line feeds, with
    // none at the end. There is no sheet where the script ends before that line.
    pub fn next_sheet(&mut self) -> Option<&'a [u8]>
        ensures front { MatchOption result (length self.new.rest.now ≡ 0) (λ sheet. Front self.old.rest.now sheet.now) }
        ensures shorter { length self.new.rest.now ≤ length self.old.rest.now }
    {
        let text = self.rest;
        let mut length = 0;
        while let Some(line) = self.next_line() {
            if line.trim_ascii_end() == b".".as_slice() {
                return Some(&text[0..length]);
            }
            length = text.len() - self.rest.len() - 1;
        }
        None
    }
}

// The first line of a text, and what comes behind its line feed.
fn first_line(text: &[u8]) -> (&[u8], &[u8])
    ensures cut { Cut text.now result.0.now result.1.now }
    ensures shorter { 0 < length text.now → length result.1.now < length text.now }
{
    let end = line_length(text);
    if end < text.len() {
        (&text[0..end], &text[end + 1..])
    } else {
        (text, &text[end..])
    }
}
