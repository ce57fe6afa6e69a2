ghost use Rattle.std.specs.Prelude.{◌≡◌, ℕ, ◌<◌, ◌≤◌, Decides};
ghost use Rattle.reader.specs.Checks.{IsSheet, sibling, Assigned, Headed, Body, IsStatement, loop_count as loops_of, loops_in};

use crate::level::Level;
use crate::limits::{HIGHEST_REGISTER, LARGEST_NUMBER, LOOPS, STATEMENTS};
use crate::types::{Kind, Placed, Statement};

// The index of the next statement of the same body, which ends before `body_end`; none after the last one.
pub fn next_sibling(records: &[Placed<Statement>], index: usize, body_end: usize) -> Option<usize>
    ensures answer { result ≡ sibling records.now index body_end }
{
    let end = records.get(index)?.item.end;
    (end < body_end).then_some(end)
}

// Whether the record is that of an assignment, behind which comes the index `next`.
fn is_assignment(s: Statement, next: usize) -> bool
    ensures { Decides result (Assigned s next) }
{
    s.end == next
        && s.target <= HIGHEST_REGISTER
        && s.source <= HIGHEST_REGISTER
        && s.constant <= LARGEST_NUMBER
}

// Whether the record is the head of a LOOP or WHILE whose body begins at `next`, in a body that ends before `to`.
fn is_head(s: Statement, next: usize, to: usize) -> bool
    ensures { (level : ℕ) → level < 8 → Decides result (Headed s next to level) }
{
    s.target == 0 && s.source <= HIGHEST_REGISTER && s.constant == 0 && next < s.end && s.end <= to
}

// Whether record `index`, with those of its body, is a statement at that level, in a body that ends before `to`. Records
// and bounds stay apart, here and in the writer: no two calls have the same bounds, and a struct of them would state none.
#[cycle(is_body_is_statement)]
fn is_statement(records: &[Placed<Statement>], index: usize, to: usize, level: Level) -> bool
    ensures { Decides result (IsStatement records.now index to level.depth) }
{
    let Some(record) = records.get(index) else {
        return false;
    };
    let s = record.item;
    match s.kind {
        Kind::Zero => false,
        Kind::Plus | Kind::Minus => is_assignment(s, index + 1),
        Kind::Loop | Kind::While => {
            let Some(inner) = level.inner() else {
                return false;
            };
            is_head(s, index + 1, to) && is_body(records, index + 1, s.end, inner)
        }
    }
}

// Whether the records from `from` up to `to` are those of statements at that level.
#[cycle(is_body_is_statement)]
fn is_body(records: &[Placed<Statement>], from: usize, to: usize, level: Level) -> bool
    ensures { Decides result (Body records.now from to level.depth) }
{
    let mut index = from;
    while index < to {
        if !is_statement(records, index, to, level) {
            return false;
        }
        index = records[index].item.end;
    }
    index == to
}

// 1 for a LOOP, 0 for others.
fn loop_number(kind: Kind) -> usize
    ensures value { result ≡ loops_of kind }
    ensures small { result ≤ 1 }
{
    usize::from(kind == Kind::Loop)
}

// How many of the records are LOOPs. A filtered chain that is counted branches at each record, and takes 1.7 times as long.
pub fn loop_count(records: &[Placed<Statement>]) -> usize
    ensures { result ≡ loops_in records.now }
{
    let mut count = 0;
    for r in records {
        count += loop_number(r.item.kind);
    }
    count
}

// Whether the records are, places aside, those of a sheet within the limits.
pub fn is_sheet(records: &[Placed<Statement>]) -> bool
    ensures { Decides result (IsSheet records.now) }
{
    if records.len() == 0 || records.len() > STATEMENTS {
        return false;
    }
    if loop_count(records) > LOOPS {
        return false;
    }
    is_body(records, 0, records.len(), Level::outermost())
}
