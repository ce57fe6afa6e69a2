ghost use Rattle.std.specs.Prelude.{◌≡◌, Some};
ghost use Rattle.reader.specs.Refusals.{refusal_number, refusal_words};

use crate::types::Refusal;
use std::error::Error;
use std::fmt;

impl Refusal {
    // The number of the refusal.
    pub fn number(self) -> u8
        ensures { result ≡ refusal_number self }
    {
        u8::from(self)
    }

    // The words of the refusal.
    pub fn words(self) -> &'static str
        ensures { result.now ≡ refusal_words self }
    {
        match self {
            Refusal::Overlong => "overlong",
            Refusal::StrayByte => "stray byte",
            Refusal::StrangeWord => "strange word",
            Refusal::TooBig => "too big",
            Refusal::OutOfOrder => "out of order",
            Refusal::TooDeep => "too deep",
            Refusal::TooMany => "too many",
            Refusal::TreeFull => "tree full",
            Refusal::NoSheet => "no sheet",
            Refusal::FlatFull => "flat full",
            Refusal::CodeFull => "code full",
            Refusal::JumpOpen => "jump open",
            Refusal::NotOpen => "not open",
            Refusal::BadDraft => "bad draft",
            Refusal::PageFull => "page full",
            Refusal::NoRegister => "no register",
            Refusal::OverTop => "over top",
            Refusal::SmallStore => "small store",
            Refusal::ManyInputs => "many inputs",
            Refusal::LongTick => "long tick",
            Refusal::LongShow => "long show",
        }
    }
}

// The number of the refusal, which no derive gives.
impl From<Refusal> for u8 {
    ghost from_gives = { λ r n. n ≡ refusal_number r };

    fn from(refusal: Refusal) -> u8 {
        refusal as u8
    }
}

// The words of the refusal.
impl fmt::Display for Refusal {
    ghost output = { λ r. Some (refusal_words r) };

    fn fmt<W: fmt::Write>(&self, f: &mut fmt::Formatter<W>) -> fmt::Result {
        let words = self.words();
        write!(f, "{words}")
    }
}

impl Error for Refusal {}
