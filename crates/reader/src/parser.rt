ghost use Rattle.std.specs.Prelude.{ℕ, ◌≤◌};

mod record_filing;

use crate::cursor::{Cursor, out_of_order};
use crate::level::Level;
use crate::limits::{LOOPS, STATEMENTS};
use crate::types::{Kind, Lexeme, Placed, Refusal, Statement};
pub(crate) use record_filing::clear_from;
use record_filing::{amend_record, file_record};

// How many statements and LOOPs have begun, within the limits of a sheet.
#[derive(Drop)]
pub struct Counts {
    statements: usize,
    loops: usize,
    ghost few: { statements ≤ 256 },
    ghost looped: { loops ≤ 32 },
}

// The kind of a block.
#[derive(Clone, Copy)]
pub enum BlockKind {
    Loop,
    While,
}

// The same kind among all. No derive gives such a conversion.
impl From<BlockKind> for Kind {
    ghost use Rattle.std.specs.Prelude.{◌≡◌};
    ghost use Rattle.reader.specs.Parsing.{kind_of};

    ghost from_gives = { λ b k. k ≡ kind_of b };

    fn from(kind: BlockKind) -> Kind {
        match kind {
            BlockKind::Loop => Kind::Loop,
            BlockKind::While => Kind::While,
        }
    }
}

// A text that is parsed, and the records of the statements that have begun, as far as their memory goes. The memory is no
// table here for the reason that parser/record_filing gives. What a call leaves as it was (`Kept`) is a clause of each, since
// no type says what is left behind a `&mut`.
#[derive(Drop)]
pub struct Parser<'a, 't> {
    cursor: Cursor<'a>,
    records: &'t mut [Placed<Statement>],
    counts: Counts,
}

impl<'a, 't> Parser<'a, 't> {
    ghost use Rattle.std.specs.Prelude.{◌≡◌, ℕ, ◌<◌, ◌≤◌, List, [], ◌∷◌, length, slice_set};
    ghost use Rattle.reader.specs.Symbols.{Symbol, register, placed};
    ghost use Rattle.reader.specs.Machine.{Expect};
    ghost use Rattle.reader.specs.Parsing.{text_of, pos_of, memory_of, Kept, StatementRead, BodyRead, Opening, kind_of, BlockAdmitted, BlockHeadRead, RecordFiled, Fresh, SheetRead};

    pub(crate) fn new(text: &'a [u8], records: &'t mut [Placed<Statement>]) -> Self
        ensures text { text_of result ≡ text.now }
        ensures pos { pos_of result ≡ 0 }
        ensures begun { (result.counts.statements ≡ 0) × (result.counts.loops ≡ 0) }
        ensures memory { memory_of result ≡ records.old }
        ensures loan { result.records.ghost_name ≡ records.entry.ghost_name }
    {
        Parser {
            cursor: Cursor::new(text),
            records,
            counts: Counts {
                statements: 0,
                loops: 0,
            },
        }
    }

    // Files the record of one statement more, as far as memory goes; gives its index.
    fn file(&mut self, place: usize, item: Statement) -> usize
        requires { self.old.counts.statements < 256 }
        ensures { RecordFiled (placed place item) self.old result self.new }
    {
        let index = self.counts.statements;
        file_record(self.records, index, Placed { place, item });
        self.counts.statements = index + 1;
        index
    }

    // Puts the record in the place of the one at `index`, if there is memory for it.
    fn amend(&mut self, index: usize, record: Placed<Statement>)
        requires { index < self.old.counts.statements }
        ensures begun { (self.new.counts.statements ≡ self.old.counts.statements) × (self.new.counts.loops ≡ self.old.counts.loops) }
        ensures amended { memory_of self.new ≡ slice_set (memory_of self.old) index «record» }
        ensures kept { Kept self.old self.new }
        ensures pos { pos_of self.new ≡ pos_of self.old }
    {
        let filed = self.counts.statements;
        amend_record(self.records, filed, index, record);
    }

    // Lets a LOOP or WHILE begin at that place and level, counting a LOOP, and gives the level inside it; or tells the limit
    // that it passes.
    fn admit(
        &mut self,
        kind: BlockKind,
        place: usize,
        level: Level,
    ) -> Result<Level, Placed<Refusal>>
        ensures { BlockAdmitted level.depth (kind_of kind) place self.old result self.new }
    {
        let inner = level.inner().ok_or(Placed {
            place,
            item: Refusal::TooDeep,
        })?;
        let too_many = Placed {
            place,
            item: Refusal::TooMany,
        };
        if self.counts.statements >= STATEMENTS {
            return Err(too_many);
        }
        match kind {
            BlockKind::Loop => {
                if self.counts.loops >= LOOPS {
                    return Err(too_many);
                }
                self.counts.loops += 1;
                Ok(inner)
            }
            BlockKind::While => Ok(inner),
        }
    }

    // Reads what follows the word of a LOOP or WHILE, up to its body, and gives the register.
    fn head(&mut self, kind: BlockKind) -> Result<usize, Placed<Refusal>>
        ensures { BlockHeadRead (kind_of kind) self.old result self.new }
    {
        match kind {
            BlockKind::Loop => self.cursor.loop_head(),
            BlockKind::While => self.cursor.while_head(),
        }
    }

    // Reads what follows the target of an assignment, and files its record.
    fn assignment(&mut self, place: usize, target: usize) -> Result<(), Placed<Refusal>>
        requires { target ≤ 31 }
        ensures read { (level : ℕ) → StatementRead (placed place (register target) ∷ []) level self.old result self.new }
        ensures kept { Kept self.old self.new }
    {
        if self.counts.statements >= STATEMENTS {
            return Err(Placed {
                place,
                item: Refusal::TooMany,
            });
        }
        let item = self.cursor.assignment(target, self.counts.statements + 1)?;
        self.file(place, item);
        Ok(())
    }

    // Reads one statement at that level, and files its records.
    #[cycle(block_body_statement)]
    fn statement(&mut self, level: Level) -> Result<(), Placed<Refusal>>
        ensures read { StatementRead [] level.depth self.old result self.new }
        ensures kept { Kept self.old self.new }
    {
        let first = self.cursor.require()?;
        match first.item {
            Lexeme::Register(target) => self.assignment(first.place, target),
            Lexeme::Loop => self.block(BlockKind::Loop, first.place, level),
            Lexeme::While => self.block(BlockKind::While, first.place, level),
            _ => Err(out_of_order(first.place)),
        }
    }

    // Reads what follows the word of a LOOP or WHILE, and files its records.
    #[cycle(block_body_statement)]
    fn block(&mut self, kind: BlockKind, place: usize, level: Level) -> Result<(), Placed<Refusal>>
        ensures read { (s : Symbol) (x : Expect) → Opening (kind_of kind) s x → StatementRead (placed place s ∷ []) level.depth self.old result self.new }
        ensures kept { Kept self.old self.new }
    {
        let inner = self.admit(kind, place, level)?;
        let source = self.head(kind)?;
        let index = self.file(place, Statement::block(Kind::from(kind), source, 0));
        let follow = self.body(inner)?;
        self.cursor.expect_end(follow)?;
        let item = Statement::block(Kind::from(kind), source, self.counts.statements);
        self.amend(index, Placed { place, item });
        Ok(())
    }

    // Reads the statements of a body at that level, and files their records; gives what follows them.
    #[cycle(block_body_statement)]
    pub(crate) fn body(&mut self, level: Level) -> Result<Option<Placed<Lexeme>>, Placed<Refusal>>
        ensures read { BodyRead level.depth self.old result self.new }
        ensures kept { Kept self.old self.new }
    {
        loop {
            self.statement(level)?;
            let Some(found) = self.cursor.next()? else {
                return Ok(None);
            };
            match found.item {
                Lexeme::Semicolon => {}
                _ => return Ok(Some(found)),
            }
        }
    }

    // Reads the whole sheet, as far as there is memory for its records; gives the number of statements.
    pub(crate) fn sheet(&mut self) -> Result<usize, Placed<Refusal>>
        requires { Fresh (length (memory_of self.old)) self.old }
        ensures read { SheetRead (length (memory_of self.old)) (text_of self.old) (memory_of self.old) result (memory_of self.new) }
        ensures kept { Kept self.old self.new }
    {
        let follow = self.body(Level::outermost())?;
        let end = self.cursor.expect_nothing(follow)?;
        if self.counts.statements > self.records.len() {
            return Err(Placed {
                place: end,
                item: Refusal::TreeFull,
            });
        }
        Ok(self.counts.statements)
    }
}
