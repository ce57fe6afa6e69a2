ghost use Rattle.std.specs.Prelude.{◌≡◌};
ghost use Rattle.reader.specs.declared.types.Refusal.TheVariants.{OutOfOrder};
ghost use Rattle.reader.specs.Symbols.{placed};

use crate::lexer::{next_token, token_lexeme, width};
use crate::types::{Kind, Lexeme, Placed, Refusal, Statement};

// A text, and the place from which reading goes on. Each call leaves the text as it is; a clause says so, since no type says
// how a `&mut` changes.
#[derive(Drop)]
pub struct Cursor<'a> {
    text: &'a [u8],
    pos: usize,
}

impl<'a> Cursor<'a> {
    ghost use Rattle.std.specs.Prelude.{◌≡◌, length};
    ghost use Rattle.reader.specs.Lexing.{LexemeRead};
    ghost use Rattle.reader.specs.Expecting.{Required, Picked, Expected, RegisterExpected, NumberExpected, SignExpected, Closed, Over, AssignmentRead, LoopHeadRead, WhileHeadRead};

    pub(crate) fn new(text: &'a [u8]) -> Self
        ensures text { result.text.now ≡ text.now }
        ensures pos { result.pos ≡ 0 }
    {
        Cursor { text, pos: 0 }
    }

    // Reads the next symbol; none at the text's end.
    pub(crate) fn next(&mut self) -> Result<Option<Placed<Lexeme>>, Placed<Refusal>>
        ensures read { LexemeRead self.old.text.now self.old.pos result self.new.pos }
        ensures text { self.new.text.now ≡ self.old.text.now }
    {
        let Some(token) = next_token(self.text, self.pos)? else {
            return Ok(None);
        };
        let place = token.place;
        self.pos = place + width(token.item);
        let item = token_lexeme(token.item).map_err(|item| Placed { place, item })?;
        Ok(Some(Placed { place, item }))
    }

    // The next symbol; the text's end is out of order.
    pub(crate) fn require(&mut self) -> Result<Placed<Lexeme>, Placed<Refusal>>
        ensures read { Required self.old.text.now self.old.pos result self.new.pos }
        ensures text { self.new.text.now ≡ self.old.text.now }
    {
        let found = self.next()?;
        found.ok_or(out_of_order(self.text.len()))
    }

    // Passes a symbol of which `pick` takes something; any other is out of order.
    fn pick<T, F: FnOnce(Lexeme) -> Option<T>>(&mut self, pick: F) -> Result<T, Placed<Refusal>>
        requires { F.IsAlwaysCallable pick }
        ensures read { Picked (F.post pick) self.old.text.now self.old.pos result self.new.pos }
        ensures text { self.new.text.now ≡ self.old.text.now }
    {
        let found = self.require()?;
        pick(found.item).ok_or(out_of_order(found.place))
    }

    // Passes the wanted symbol.
    fn expect(&mut self, wanted: Lexeme) -> Result<(), Placed<Refusal>>
        ensures read { Expected wanted self.old.text.now self.old.pos result self.new.pos }
        ensures text { self.new.text.now ≡ self.old.text.now }
    {
        self.pick(|found| (found == wanted).then_some(()))
    }

    // Passes a register.
    fn expect_register(&mut self) -> Result<usize, Placed<Refusal>>
        ensures read { RegisterExpected self.old.text.now self.old.pos result self.new.pos }
        ensures text { self.new.text.now ≡ self.old.text.now }
    {
        self.pick(Lexeme::register)
    }

    // Passes a number.
    fn expect_number(&mut self) -> Result<u32, Placed<Refusal>>
        ensures read { NumberExpected self.old.text.now self.old.pos result self.new.pos }
        ensures text { self.new.text.now ≡ self.old.text.now }
    {
        self.pick(Lexeme::number)
    }

    // Passes the sign of an assignment, which tells its kind.
    fn expect_sign(&mut self) -> Result<Kind, Placed<Refusal>>
        ensures read { SignExpected self.old.text.now self.old.pos result self.new.pos }
        ensures text { self.new.text.now ≡ self.old.text.now }
    {
        self.pick(Lexeme::sign)
    }

    // Refuses what follows a body, unless it is the word END. It takes `&mut self`, since by `&self` the borrow checker does
    // not cover the parser's call yet.
    pub(crate) fn expect_end(
        &mut self,
        follow: Option<Placed<Lexeme>>,
    ) -> Result<(), Placed<Refusal>>
        ensures closed { Closed (length self.old.text.now) follow result }
        ensures text { self.new.text.now ≡ self.old.text.now }
        ensures pos { self.new.pos ≡ self.old.pos }
    {
        let found = follow.ok_or(out_of_order(self.text.len()))?;
        if found.item == Lexeme::End {
            Ok(())
        } else {
            Err(out_of_order(found.place))
        }
    }

    // Refuses what follows the whole sheet; gives the place of the text's end. It takes `&mut self` as `expect_end` does.
    pub(crate) fn expect_nothing(
        &mut self,
        follow: Option<Placed<Lexeme>>,
    ) -> Result<usize, Placed<Refusal>>
        ensures over { Over (length self.old.text.now) follow result }
        ensures text { self.new.text.now ≡ self.old.text.now }
    {
        match follow {
            Some(found) => Err(out_of_order(found.place)),
            None => Ok(self.text.len()),
        }
    }

    // Reads what follows the target of an assignment, and gives its record.
    pub(crate) fn assignment(
        &mut self,
        target: usize,
        end: usize,
    ) -> Result<Statement, Placed<Refusal>>
        ensures read { AssignmentRead self.old.text.now self.old.pos target end result self.new.pos }
        ensures text { self.new.text.now ≡ self.old.text.now }
    {
        self.expect(Lexeme::Assign)?;
        let source = self.expect_register()?;
        let kind = self.expect_sign()?;
        let constant = self.expect_number()?;
        Ok(Statement {
            kind,
            target,
            source,
            constant,
            end,
        })
    }

    // Reads what follows the word LOOP, up to its body, and gives the register.
    pub(crate) fn loop_head(&mut self) -> Result<usize, Placed<Refusal>>
        ensures read { LoopHeadRead self.old.text.now self.old.pos result self.new.pos }
        ensures text { self.new.text.now ≡ self.old.text.now }
    {
        let source = self.expect_register()?;
        self.expect(Lexeme::Do)?;
        Ok(source)
    }

    // Reads what follows the word WHILE, up to its body, and gives the register.
    pub(crate) fn while_head(&mut self) -> Result<usize, Placed<Refusal>>
        ensures read { WhileHeadRead self.old.text.now self.old.pos result self.new.pos }
        ensures text { self.new.text.now ≡ self.old.text.now }
    {
        let source = self.expect_register()?;
        self.expect(Lexeme::Unequal)?;
        self.expect(Lexeme::Number(0))?;
        self.expect(Lexeme::Do)?;
        Ok(source)
    }
}

// A symbol at a place where the grammar has none such.
pub(crate) fn out_of_order(place: usize) -> Placed<Refusal>
    ensures { result ≡ placed place OutOfOrder }
{
    Placed {
        place,
        item: Refusal::OutOfOrder,
    }
}
