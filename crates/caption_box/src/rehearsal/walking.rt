// Where a rehearsal goes in its records. Nothing of a body is copied. The records are the rehearsal's, and each call is given
// them.
ghost use Rattle.std.specs.Prelude.{◌≡◌, ◌<◌};
ghost use Rattle.reader.specs.Checks.{at as record_in, IsSheet};

use arrayvec::ArrayVec;
use reader::next_sibling;
use reader::types::{Kind, Placed, Statement, ZERO_RECORD};

// Record i, and past the end a zero record, which is how a rehearsal has ended.
pub(super) fn record_at(records: &[Placed<Statement>], i: usize) -> Statement
    ensures { result ≡ record_in records.now i }
{
    records.get(i).copied().unwrap_or(ZERO_RECORD).item
}

// An open level: the index of its LOOP or WHILE, and for a LOOP the rounds left after the present one.
#[derive(Clone, Copy, Default)]
struct Level {
    head: usize,
    left: u32,
}

// Where a rehearsal stands: the index of the next statement, and the open levels, the outermost first. By default it
// stands before the first statement, with no open level.
#[derive(Default, Drop)]
pub(super) struct Position {
    pub(super) at: usize,
    levels: ArrayVec<Level, 8>,
}

impl Position {
    ghost use Rattle.caption_box.specs.Rests.{levels_of, depth_of, body_end, opened, Held, Reaches, rest_behind, rest_after};

    // The index after the innermost open body.
    fn body_end(&self, records: &[Placed<Statement>]) -> usize
        ensures { result ≡ body_end records.now (levels_of self.now) (depth_of self.now) }
    {
        match self.levels.last() {
            Some(level) => record_at(records, level.head).end,
            None => records.len(),
        }
    }

    // Before the body of its statement, in a level of its own. A sheet opens no more than eight.
    fn open(&mut self, left: u32)
        ensures { depth_of self.old < 8 → self.old.at < 256 → self.new ≡ opened self.old left }
    {
        let head = self.at;
        let _ = self.levels.try_push(Level { head, left });
        self.at = head.saturating_add(1);
    }

    // Behind its statement, which is done: a level whose body has ended goes round again or is closed.
    fn leave(&mut self, records: &[Placed<Statement>])
        ensures { IsSheet records.now → Held records.now self.old → Reaches records.now self.new (rest_behind records.now self.old) }
    {
        loop {
            let end = self.body_end(records);
            if let Some(next) = next_sibling(records, self.at, end) {
                self.at = next;
                return;
            }
            let Some(level) = self.levels.pop() else {
                self.at = records.len();
                return;
            };
            self.at = level.head;
            if record_at(records, level.head).kind == Kind::While {
                return;
            }
            if level.left > 0 {
                self.open(level.left - 1);
                return;
            }
        }
    }

    // After the step of its statement, which is of that kind and whose source held `found`.
    pub(super) fn go_on(&mut self, records: &[Placed<Statement>], kind: Kind, found: u32)
        ensures { IsSheet records.now → Held records.now self.old → kind ≡ (record_in records.now self.old.at).kind
            → Reaches records.now self.new (rest_after records.now self.old found) }
    {
        match kind {
            Kind::Loop if found > 0 => self.open(found - 1),
            Kind::While if found > 0 => self.open(0),
            _ => self.leave(records),
        }
    }
}
