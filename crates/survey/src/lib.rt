// What is counted in a sheet: in its records, and in its text.
#![tactic(auto)]

ghost use Rattle.std.specs.Prelude.{◌≡◌, ℕ, ◌<◌, ◌≤◌, length, ◌≢◌, slice_index};
ghost use Rattle.survey.specs.Counts.{is_open, blocks_around, Deepest, LoopsOfSheet, DepthOfSheet};
ghost use Rattle.reader.specs.Checks.{loops_in};

use reader::loop_count;
use reader::types::{Kind, Placed, Statement};

// How many of the records are LOOPs: the reader's count, with what it says of a sheet.
pub fn loops(records: &[Placed<Statement>]) -> usize
    ensures count { result ≡ loops_in records.now }
    ensures of_sheet { LoopsOfSheet records.now result }
{
    loop_count(records)
}

// Whether the statement at index `head` is a LOOP or WHILE that is open at `index`, its head included.
fn is_open_at(s: Statement, head: usize, index: usize) -> bool
    ensures { result ≡ is_open s head index }
{
    head <= index && index < s.end && matches!(s.kind, Kind::Loop | Kind::While)
}

// How many LOOPs and WHILEs are open at the index, one that begins there included.
fn levels_around(records: &[Placed<Statement>], index: usize) -> usize
    ensures { result ≡ blocks_around records.now index }
{
    records
        .iter()
        .enumerate()
        .filter(|(head, r)| is_open_at(r.item, *head, index))
        .count()
}

// The depth: the most LOOPs and WHILEs that are open at one index.
pub fn depth(records: &[Placed<Statement>]) -> usize
    ensures most { Deepest records.now result }
    ensures of_sheet { DepthOfSheet records.now result }
{
    // The closure has a clause of its own, so that another body of it is refused here, and not where the maximum is proved.
    (0..records.len())
        .map(
            |index|
                ensures { result ≡ blocks_around records.entry.now index }
            { levels_around(records, index) },
        )
        .max()
        .unwrap_or(0)
}

// How many bytes of a text stand in front of its first line feed, or at all where there is none.
pub fn line_length(text: &[u8]) -> usize
    ensures within { result ≤ length text.now }
    ensures before { (k : ℕ) → k < result → slice_index text.now k ≢ 10 }
    ensures found { result < length text.now → slice_index text.now result ≡ 10 }
{
    text.iter()
        .position(|byte| *byte == b'\n')
        .unwrap_or(text.len())
}
