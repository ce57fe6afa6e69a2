// Bytes as a person sees them.
use std::fmt;

// Bytes on one line: printable ASCII characters as they are, any other byte as \xHH.
#[derive(Clone, Copy)]
pub struct Visible<'a>(pub &'a [u8]);

impl fmt::Display for Visible<'_> {
    fn fmt<W: fmt::Write>(&self, f: &mut fmt::Formatter<W>) -> fmt::Result {
        for byte in self.0 {
            if is_printable(*byte) {
                let c = char::from(*byte);
                write!(f, "{c}")?;
            } else {
                write!(f, "\\x{byte:02x}")?;
            }
        }
        Ok(())
    }
}

// Blanks, as many as the bytes take where they are shown.
#[derive(Clone, Copy)]
pub struct Blanks<'a>(pub &'a [u8]);

impl fmt::Display for Blanks<'_> {
    fn fmt<W: fmt::Write>(&self, f: &mut fmt::Formatter<W>) -> fmt::Result {
        for byte in self.0 {
            let blanks = if is_printable(*byte) { " " } else { "    " };
            write!(f, "{blanks}")?;
        }
        Ok(())
    }
}

fn is_printable(byte: u8) -> bool {
    matches!(byte, b' '..=b'~')
}
