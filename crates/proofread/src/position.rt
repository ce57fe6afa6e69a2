// Where a place of a text lies for a person.
use survey::line_length;

// The line and the column of a place, both counted from 1, and the bytes of that line before the place and from it on.
#[derive(Clone, Copy)]
pub struct Position<'a> {
    pub line: usize,
    pub column: usize,
    pub before: &'a [u8],
    pub after: &'a [u8],
}

impl<'a> Position<'a> {
    // The position of the place; a place past the end of the text counts as the end.
    pub fn of(text: &'a [u8], place: usize) -> Position<'a> {
        let place = place.min(text.len());
        let (before, after) = text.split_at(place);
        let line = 1 + before.iter().filter(|byte| **byte == b'\n').count();
        let start = before
            .iter()
            .rposition(|byte| *byte == b'\n')
            .map_or(0, |feed| feed + 1);
        Position {
            line,
            column: place - start + 1,
            before: &before[start..],
            after: &after[..line_length(after)],
        }
    }
}
