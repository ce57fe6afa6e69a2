ghost use Rattle.reader.specs.Checks.{IsSheet};
ghost use Rattle.caption_box.specs.Rests.{Stands};
ghost use Rattle.caption_box.specs.WrittenSteps.{written_counts, Counted};

mod calls;
mod counting;
mod running;
mod stepping;
mod walking;

use counting::WrittenTallies;
use reader::types::{Placed, Statement};
use walking::Position;

// A rehearsal: a written run of the sheet of the records, which it borrows until it is put away. Its registers are in a
// store that each call is given, as those of a show. That a call leaves the records as they are is a clause of its own, as
// there. A tick goes by its facts: the records are those of a sheet, the position stands in it, and the tallies are as
// bounded as the written steps. Two are truncated, as a ghost field may have one proof at most; proofs/Told has them
// whole.
#[derive(Drop)]
pub struct Rehearsal<'a> {
    records: &'a [Placed<Statement>],
    position: Position,
    tallies: WrittenTallies,
    ghost sheet: { ∥ IsSheet records.now ∥₁ },
    ghost stands: { ∥ Stands records.now position ∥₁ },
    ghost counted: { Counted (written_counts tallies) },
}
