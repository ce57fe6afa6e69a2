ghost use Rattle.reader.specs.Checks.{IsSheet};
ghost use Rattle.reader.specs.Pages.{SheetWritten};

use crate::check::next_sibling;
use crate::types::{Kind, Lexeme, Placed, Statement};
use itoa::Buffer;

// A page that is written from the front. Bytes past its end are counted and not stored, which no writer of std over lent
// memory does.
#[derive(Drop)]
pub struct Writer<'a> {
    page: &'a mut [u8],
    written: usize,
}

// Prints the sheet of the records on the page, as far as it goes, and answers how many bytes the sheet has in print.
pub fn write_sheet(records: &[Placed<Statement>], page: &mut [u8]) -> usize
    requires { IsSheet records.now }
    ensures { SheetWritten records.now page.old result page.new }
{
    let mut writer = Writer { page, written: 0 };
    writer.body(records, 0, records.len());
    writer.finish()
}

impl<'a> Writer<'a> {
    ghost use Rattle.std.specs.Prelude.{◌≡◌, ◌+◌, ◌-◌, ◌*◌, ◌<◌, ◌≤◌, [], ◌∷◌, length, decimal};
    ghost use Rattle.reader.specs.Lexing.{meant};
    ghost use Rattle.reader.specs.Checks.{Body, IsStatement, span};
    ghost use Rattle.reader.specs.Printed.{bytes_of, spelling};
    ghost use Rattle.reader.specs.Pages.{on_page, put_bytes, gap_after, put_symbols, meanings, first_statement, end_of};

    // Ends the writing, and answers how many bytes were put.
    pub fn finish(self) -> usize
        ensures count { result ≡ self.entry.written }
        ensures page { self.exit.0.now ≡ self.entry.page.now }
    {
        let Writer { page: _, written } = self;
        written
    }

    // Puts one byte. Here and below `requires` leaves room for the count, which each call adds to, so that no type bounds it.
    fn byte(&mut self, b: u8)
        requires { self.old.written < 65536 }
        ensures { on_page self.new ≡ put_bytes (b ∷ []) (on_page self.old) }
    {
        if self.written < self.page.len() {
            self.page[self.written] = b;
        }
        self.written += 1;
    }

    // Puts bytes.
    fn bytes(&mut self, text: &[u8])
        requires { self.old.written + length text.now ≤ 65536 }
        ensures { on_page self.new ≡ put_bytes text.now (on_page self.old) }
    {
        for b in text {
            self.byte(*b);
        }
    }

    // Puts a number in base ten.
    fn number(&mut self, n: usize)
        requires { self.old.written + 20 ≤ 65536 }
        ensures put { on_page self.new ≡ put_bytes (decimal n) (on_page self.old) }
        ensures short { self.new.written ≤ self.old.written + 20 }
    {
        let mut buffer = Buffer::new();
        self.bytes(buffer.format(n).as_bytes());
    }

    // Puts the space before a token, unless the token is the first or a semicolon.
    fn gap(&mut self, token: Lexeme)
        requires { self.old.written < 65536 }
        ensures put { on_page self.new ≡ put_bytes (gap_after self.old.written (meant token)) (on_page self.old) }
        ensures short { self.new.written ≤ self.old.written + 1 }
    {
        if self.written > 0 && token != Lexeme::Semicolon {
            self.byte(b' ');
        }
    }

    // Puts the bytes of a token.
    fn spell(&mut self, token: Lexeme)
        requires { self.old.written + 21 ≤ 65536 }
        ensures put { on_page self.new ≡ put_bytes (bytes_of (meant token)) (on_page self.old) }
        ensures short { self.new.written ≤ self.old.written + 21 }
    {
        match token {
            Lexeme::Loop => self.bytes(b"LOOP"),
            Lexeme::While => self.bytes(b"WHILE"),
            Lexeme::Do => self.bytes(b"DO"),
            Lexeme::End => self.bytes(b"END"),
            // `usize::from` takes no `u32`; a `number` of either type would say its bound of twenty bytes twice.
            Lexeme::Number(n) => self.number(n as usize),
            Lexeme::Register(i) => {
                self.byte(b'x');
                self.number(i);
            }
            Lexeme::Assign => self.bytes(b":="),
            Lexeme::Unequal => self.bytes(b"!="),
            Lexeme::Plus => self.bytes(b"+"),
            Lexeme::Minus => self.bytes(b"-"),
            Lexeme::Semicolon => self.bytes(b";"),
        }
    }

    // Puts tokens, each behind its space.
    pub fn tokens(&mut self, tokens: &[Lexeme])
        requires { self.old.written + 22 * length tokens.now ≤ 65536 }
        ensures put { on_page self.new ≡ put_symbols (meanings tokens.now) (on_page self.old) }
        ensures short { self.new.written ≤ self.old.written + 22 * length tokens.now }
    {
        for t in tokens {
            self.gap(*t);
            self.spell(*t);
        }
    }

    // Prints the statement of record `index`, in a body that ends before `to`.
    #[cycle(body_statement)]
    fn statement(&mut self, records: &[Placed<Statement>], index: usize, to: usize)
        requires sound { IsStatement records.now index to 0 }
        requires room { self.old.written + 154 * (end_of records.now index - index) ≤ 65536 }
        ensures put { on_page self.new ≡ put_symbols (spelling (first_statement records.now index)) (on_page self.old) }
        ensures short { self.new.written + 22 ≤ self.old.written + 154 * (end_of records.now index - index) }
    {
        let s = records[index].item;
        let target = Lexeme::Register(s.target);
        let source = Lexeme::Register(s.source);
        let constant = Lexeme::Number(s.constant);
        match s.kind {
            Kind::Zero => {}
            Kind::Plus => self.tokens(&[target, Lexeme::Assign, source, Lexeme::Plus, constant]),
            Kind::Minus => self.tokens(&[target, Lexeme::Assign, source, Lexeme::Minus, constant]),
            Kind::Loop => {
                self.tokens(&[Lexeme::Loop, source, Lexeme::Do]);
                self.body(records, index + 1, s.end);
                self.tokens(&[Lexeme::End]);
            }
            Kind::While => {
                self.tokens(&[
                    Lexeme::While,
                    source,
                    Lexeme::Unequal,
                    Lexeme::Number(0),
                    Lexeme::Do,
                ]);
                self.body(records, index + 1, s.end);
                self.tokens(&[Lexeme::End]);
            }
        }
    }

    // Prints the statements of the records from `from` up to `to`, with a semicolon between two of them. It goes as deep
    // as LOOPs and WHILEs are nested.
    #[cycle(body_statement)]
    fn body(&mut self, records: &[Placed<Statement>], from: usize, to: usize)
        requires order { from < to }
        requires sound { Body records.now from to 0 }
        requires room { self.old.written + 154 * (to - from) ≤ 65536 }
        ensures put { on_page self.new ≡ put_symbols (spelling (span records.now from to)) (on_page self.old) }
        ensures short { self.new.written ≤ self.old.written + 154 * (to - from) }
    {
        let mut index = from;
        self.statement(records, index, to);
        while let Some(next) = next_sibling(records, index, to) {
            self.tokens(&[Lexeme::Semicolon]);
            self.statement(records, next, to);
            index = next;
        }
    }
}
