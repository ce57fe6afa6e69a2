// What a line of the script says.
ghost use Rattle.std.specs.Prelude.{◌≡◌, ◌<◌, MatchResult};

use crate::number::{number, steps};
use crate::view::View;
use caption_box::types::{Question, Tally};
use std::alloc::{AllocError, Global};
use std::str::SplitWhitespace;
use thiserror::Error;

// A line: a store is made, a sheet begins, or something is done on the store that there is.
#[derive(Drop)]
pub enum Line {
    Store(Make),
    Sheet,
    Order(Order),
}

// A store to be made, of that many numbers.
#[derive(Clone, Copy)]
pub enum Make {
    Flat(usize),
    Decimal(usize),
}

// What is done on a store.
#[derive(Drop)]
pub enum Order {
    Window(View),
    Start(RunKind, Vec<u32>),
    Call(Call),
}

// What is started: a show, a rehearsal, or a show with a rehearsal beside it.
#[derive(Clone, Copy)]
pub enum RunKind {
    Show,
    Rehearsal,
    Both,
}

// A call to what was started last.
#[derive(Drop)]
pub enum Call {
    Tick(u32),
    Correct { register: usize, value: u32 },
    Rewind(Vec<u32>),
    Ask(Question),
}

// What is wrong with a line; `Form` has how such a line is written.
#[derive(Clone, Copy, Debug, Drop, Error)]
pub enum BadLine {
    #[error("no such call; there are sheet, store, window, start, rehearse, compare, tick, correct, rewind and ask")]
    Unknown,
    #[error("not understood; write {0}")]
    Form(&'static str),
    #[error("a number to store is at most 4294967295")]
    TooLarge,
    #[error("there is no memory for it")]
    Memory(#[from(alloc)] AllocError),
}

// Parses a line.
pub fn parse(heap: Global, line: &str) -> Result<Line, BadLine> {
    let mut words = line.split_whitespace();
    match words.next().unwrap_or("") {
        "sheet" => sheet(words),
        "store" => store(words),
        "window" => window(words),
        "start" => start(heap, words, RunKind::Show, "start V.., each V a number"),
        "rehearse" => start(
            heap,
            words,
            RunKind::Rehearsal,
            "rehearse V.., each V a number",
        ),
        "compare" => start(heap, words, RunKind::Both, "compare V.., each V a number"),
        "tick" => tick(words),
        "correct" => correct(words),
        "rewind" => Ok(called(Call::Rewind(inputs(heap, words, "rewind V.., each V a number")?))),
        "ask" => ask(words),
        _ => Err(BadLine::Unknown),
    }
}

fn start(
    heap: Global,
    words: SplitWhitespace<'_>,
    kind: RunKind,
    form: &'static str,
) -> Result<Line, BadLine> {
    let inputs = inputs(heap, words, form)?;
    Ok(Line::Order(Order::Start(kind, inputs)))
}

fn called(call: Call) -> Line {
    Line::Order(Order::Call(call))
}

fn sheet(mut words: SplitWhitespace<'_>) -> Result<Line, BadLine> {
    match words.next() {
        None => Ok(Line::Sheet),
        Some(_) => Err(BadLine::Form("sheet alone, and the sheet on the lines behind it")),
    }
}

fn store(mut words: SplitWhitespace<'_>) -> Result<Line, BadLine> {
    let form = BadLine::Form("store flat COUNT or store decimal COUNT");
    let kind = words.next().unwrap_or("");
    let count = last_number(words).ok_or(form)?;
    match kind {
        "flat" => Ok(Line::Store(Make::Flat(count))),
        "decimal" => Ok(Line::Store(Make::Decimal(count))),
        _ => Err(form),
    }
}

fn window(mut words: SplitWhitespace<'_>) -> Result<Line, BadLine> {
    let form = BadLine::Form("window BASE LENGTH, both numbers");
    let base = number(words.next().unwrap_or("")).ok_or(form)?;
    let length = last_number(words).ok_or(form)?;
    Ok(Line::Order(Order::Window(View { base, length })))
}

fn tick(words: SplitWhitespace<'_>) -> Result<Line, BadLine> {
    let k = last_number(words).ok_or(BadLine::Form("tick K, with a number K"))?;
    Ok(called(Call::Tick(steps(k))))
}

fn correct(mut words: SplitWhitespace<'_>) -> Result<Line, BadLine> {
    let form = BadLine::Form("correct xI V, with numbers I and V");
    let register = register(words.next().unwrap_or("")).ok_or(form)?;
    let value = value(last_number(words).ok_or(form)?)?;
    Ok(called(Call::Correct { register, value }))
}

fn ask(mut words: SplitWhitespace<'_>) -> Result<Line, BadLine> {
    let form = BadLine::Form("ask xI, or ask box, written, entered, rounds or whiles");
    let word = words.next().unwrap_or("");
    if words.next().is_some() {
        return Err(form);
    }
    let question = match word {
        "box" => Question::Tally(Tally::BoxSteps),
        "written" => Question::Tally(Tally::WrittenSteps),
        "entered" => Question::Tally(Tally::LoopsEntered),
        "rounds" => Question::Tally(Tally::LoopRounds),
        "whiles" => Question::Tally(Tally::WhileRounds),
        _ => Question::Register(register(word).ok_or(form)?),
    };
    Ok(called(Call::Ask(question)))
}

// The inputs that the words give.
fn inputs(
    heap: Global,
    words: SplitWhitespace<'_>,
    form: &'static str,
) -> Result<Vec<u32>, BadLine> {
    let mut all = Vec::new(heap);
    for word in words {
        let number = number(word).ok_or(BadLine::Form(form))?;
        all.push(value(number)?)?;
    }
    Ok(all)
}

// A number that a register is to hold.
fn value(number: usize) -> Result<u32, BadLine>
    ensures { MatchResult result (λ v. v ≡ number) (λ e. (e ≡ BadLine.TooLarge) × (4294967295 < number)) }
{
    u32::try_from(number).map_err(|_| BadLine::TooLarge)
}

// The register that a word as x12 names.
fn register(word: &str) -> Option<usize> {
    number(word.strip_prefix('x')?)
}

// The number that the only word left gives.
fn last_number(mut words: SplitWhitespace<'_>) -> Option<usize> {
    let word = words.next()?;
    if words.next().is_some() {
        return None;
    }
    number(word)
}
