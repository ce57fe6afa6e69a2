// The escapes of a sample: bytes on one line of printable ASCII characters.
ghost use Rattle.std.specs.Prelude.{◌<◌, length, IfSome};

use std::alloc::{AllocError, Global};
use std::fmt;
use thiserror::Error;

// Why a line has no sample.
#[derive(Debug, Drop, Error)]
pub enum BadLine {
    #[error("the line does not begin with `text `")]
    NoText,
    #[error("the backslash in column {0} begins no escape, as \\\\, \\n or \\xHH do")]
    BadEscape(usize),
    #[error("out of memory")]
    Memory(#[from(alloc)] AllocError),
}

// The bytes of the sheet on a line.
pub fn sample_text(heap: Global, line: &[u8]) -> Result<Vec<u8>, BadLine> {
    let mut rest = line.strip_prefix(b"text ").ok_or(BadLine::NoText)?;
    let mut text = Vec::new(heap);
    while !rest.is_empty() {
        let column = line.len() - rest.len() + 1;
        let (byte, after) = first_byte(rest).ok_or(BadLine::BadEscape(column))?;
        text.push(byte)?;
        rest = after;
    }
    Ok(text)
}

// The byte that stands at the front, as itself or as an escape, and what comes after it.
fn first_byte(rest: &[u8]) -> Option<(u8, &[u8])>
    ensures { IfSome result (λ p. length p.1.now < length rest.now) }
{
    match rest {
        [b'\\', b'\\', after @ ..] => Some((b'\\', after)),
        [b'\\', b'n', after @ ..] => Some((b'\n', after)),
        [b'\\', b'x', high, low, after @ ..] => {
            Some((hex_digit(*high)? * 16 + hex_digit(*low)?, after))
        }
        [b'\\', ..] => None,
        [byte, after @ ..] => Some((*byte, after)),
        [] => None,
    }
}

fn hex_digit(digit: u8) -> Option<u8>
    ensures { IfSome result (λ d. d < 16) }
{
    match digit {
        b'0'..=b'9' => Some(digit - b'0'),
        b'a'..=b'f' => Some(digit - b'a' + 10),
        b'A'..=b'F' => Some(digit - b'A' + 10),
        _ => None,
    }
}

// Bytes that are shown escaped, on one line.
#[derive(Clone, Copy)]
pub struct Escaped<'a>(pub &'a [u8]);

impl fmt::Display for Escaped<'_> {
    fn fmt<W: fmt::Write>(&self, f: &mut fmt::Formatter<W>) -> fmt::Result {
        let Some((last, front)) = self.0.split_last() else {
            return Ok(());
        };
        for byte in front {
            write_escaped(f, *byte, false)?;
        }
        write_escaped(f, *last, true)
    }
}

fn write_escaped<W: fmt::Write>(f: &mut fmt::Formatter<W>, byte: u8, is_last: bool) -> fmt::Result {
    match byte {
        b'\\' => write!(f, "\\\\"),
        b'\n' => write!(f, "\\n"),
        b' ' if is_last => write!(f, "\\x20"),
        b' '..=b'~' => {
            let c = char::from(byte);
            write!(f, "{c}")
        }
        _ => write!(f, "\\x{byte:02x}"),
    }
}
