// What is printed behind a call.
use crate::line::BadLine;
use caption_box::types::Ticked;
use reader::types::{Placed, Refusal};
use std::fmt;
use stores::store::Store;
use thiserror::Error;

// The answer to a line of the script.
#[derive(Clone, Copy)]
pub enum Answer {
    Sheet(Counts),
    Store { count: usize, top: u32 },
    Done(Lines),
    Ticked(Ticked, Lines),
    Number(u128),
}

// The line of what runs, or a show's beside that of a rehearsal.
#[derive(Clone, Copy)]
pub enum Lines {
    One(u128),
    Both(Comparison),
}

// What a line comes to.
pub type Reply = Result<Answer, NotDone>;

// Why a line was not done.
#[derive(Clone, Copy, Debug, Drop, Error)]
pub enum NotDone {
    #[error("refused {} ({})", .0.number(), .0)]
    Refused(#[from] Refusal),
    #[error("refused {} at {} ({})", .0.item.number(), .0.place, .0.item)]
    RefusedAt(Placed<Refusal>),
    #[error("no sheet was loaded")]
    NoSheet,
    #[error("no store was made")]
    NoStore,
    #[error("no show or rehearsal was started")]
    NoRun,
    #[error("the script ends before the line . that ends a sheet")]
    Unfinished,
    #[error(transparent)]
    Bad(#[from] BadLine),
}

// What is counted in a sheet and its code; `registers` is how many the code needs.
#[derive(Clone, Copy)]
pub struct Counts {
    pub statements: usize,
    pub depth: usize,
    pub instructions: usize,
    pub registers: usize,
}

// The line of a show, and the line and written steps of the rehearsal beside it. They agree if the written steps and all of
// x0 to x31 are the same.
#[derive(Clone, Copy)]
pub struct Comparison {
    pub line: u128,
    pub sheet_line: u128,
    pub written: u128,
    pub agrees: bool,
}

impl Answer {
    // The answer to a line that makes a store.
    pub fn of_store<S: Store>(store: &S) -> Answer {
        Answer::Store {
            count: store.count(),
            top: store.top(),
        }
    }
}

impl fmt::Display for Answer {
    fn fmt<W: fmt::Write>(&self, f: &mut fmt::Formatter<W>) -> fmt::Result {
        match *self {
            Answer::Sheet(counts) => write!(f, "{counts}"),
            Answer::Store { count, top } => write!(f, "{count} numbers, top {top}"),
            Answer::Done(lines) => write!(f, "done, {lines}"),
            Answer::Ticked(Ticked { steps, state }, lines) => {
                write!(f, "{steps} done, {state}, {lines}")
            }
            Answer::Number(number) => write!(f, "{number}"),
        }
    }
}

impl fmt::Display for Lines {
    fn fmt<W: fmt::Write>(&self, f: &mut fmt::Formatter<W>) -> fmt::Result {
        match *self {
            Lines::One(line) => write!(f, "line {line}"),
            Lines::Both(both) => write!(f, "{both}"),
        }
    }
}

impl fmt::Display for Comparison {
    fn fmt<W: fmt::Write>(&self, f: &mut fmt::Formatter<W>) -> fmt::Result {
        let Comparison {
            line,
            sheet_line,
            written,
            agrees,
        } = *self;
        let verdict = if agrees { "agrees" } else { "DIFFERS" };
        write!(
            f,
            "line {line}; the written sheet {verdict}: {written} steps, line {sheet_line}"
        )
    }
}

impl fmt::Display for Counts {
    fn fmt<W: fmt::Write>(&self, f: &mut fmt::Formatter<W>) -> fmt::Result {
        let Counts {
            statements,
            depth,
            instructions,
            registers,
        } = *self;
        write!(
            f,
            "{statements} statements, depth {depth}, {instructions} instructions, {registers} registers"
        )
    }
}
