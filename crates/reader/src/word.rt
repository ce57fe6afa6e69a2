ghost use Rattle.std.specs.Prelude.{◌≡◌, Decides, slice_index};
ghost use Rattle.std.specs.Char.{is_ascii_alphanumeric};
ghost use Rattle.reader.specs.Words.{WordBegins, WordFound};

use crate::lexer::word_length;
use crate::types::Word;

// Whether a letter or digit stands at the place.
fn stands_alnum(text: &[u8], place: usize) -> bool
    ensures { result ≡ is_ascii_alphanumeric (slice_index text.now place) }
{
    text.get(place).is_some_and(|b| b.is_ascii_alphanumeric())
}

// Whether a word begins at the place: a letter or digit stands there, and none before it.
fn begins_word(text: &[u8], place: usize) -> bool
    ensures { Decides result (WordBegins text.now place) }
{
    stands_alnum(text, place) && (place == 0 || !stands_alnum(text, place - 1))
}

// The word that begins at the place, as a part of the text; an empty one where none begins, which as published
// has a place too. Any place will do.
pub fn word_at<'a>(text: &'a [u8], place: usize) -> Word<'a>
    ensures { WordFound text.now place result }
{
    if begins_word(text, place) {
        let rest = &text[place..];
        let length = word_length(rest);
        return Word {
            start: place,
            length,
            bytes: &rest[..length],
        };
    }
    let start = place.min(text.len());
    Word {
        start,
        length: 0,
        bytes: &text[start..start],
    }
}
