// The calls of a rehearsal. Every rehearsal is `Rehearsed`, by the facts in its type, and so a tick is exactly one of the
// written run.
ghost use Rattle.std.specs.Prelude.{◌≡◌, IfOk, MatchResult};
ghost use Rattle.caption_box.specs.declared.types.Question.TheVariants.{Register};
ghost use Rattle.caption_box.specs.WrittenCalls.{written_outcome, written_ticks, written_rewinds, written_corrects, written_asks};
ghost use Rattle.caption_box.specs.Rehearsals.{written_scene_on, Rehearsed, WrittenStarted, WrittenUnstarted};

use super::Rehearsal;
use super::counting::WrittenTallies;
use super::walking::Position;
use crate::guards::{NAMED, check_register, check_tick, check_width, register};
use crate::seating::seat;
use crate::types::{Question, Ticked};
use reader::is_sheet;
use reader::types::{Placed, Refusal, Statement};
use stores::store::Store;

impl<'a> Rehearsal<'a> {
    // A rehearsal of the sheet of the records on the store, at its beginning.
    pub fn start<S: Store>(
        records: &'a [Placed<Statement>],
        store: &mut S,
        inputs: &[u32],
    ) -> Result<Rehearsal<'a>, Refusal>
        ensures top { S.Store.limit store.new ≡ S.Store.limit store.old }
        ensures same { IfOk result (λ s. s.records ≡ records.entry) }
        ensures exact { MatchResult result
            (λ s. WrittenStarted records.now (S.Store.limit store.old) (S.Store.numbers store.old) inputs.now s (written_scene_on S.Store s store.new))
            (λ e. WrittenUnstarted records.now (S.Store.limit store.old) (S.Store.numbers store.old) inputs.now e (S.Store.numbers store.new)) }
    {
        if !is_sheet(records) {
            return Err(Refusal::NoSheet);
        }
        let begun = Rehearsal {
            records,
            position: Position::default(),
            tallies: WrittenTallies::default(),
        };
        seat(NAMED, store, inputs).and(Ok(begun))
    }

    // Does up to k written steps; the answer says how many, and how the rehearsal then stands.
    #[tactic(auto, using(crate::proofs::Told::rehearsed))]
    pub fn tick<S: Store>(&mut self, store: &mut S, k: u32) -> Result<Ticked, Refusal>
        ensures top { S.Store.limit store.new ≡ S.Store.limit store.old }
        ensures same { self.new.records ≡ self.old.records }
        ensures kept { Rehearsed self.new }
        ensures exact { written_outcome result (written_scene_on S.Store self.new store.new) ≡ written_ticks (written_scene_on S.Store self.old store.old) k }
    {
        check_width(store, NAMED)?;
        check_tick(k, self.tallies.written)?;
        Ok(self.go(store, k))
    }

    // Puts the rehearsal to its beginning again.
    #[tactic(auto, using(crate::proofs::Told::rehearsed))]
    pub fn rewind<S: Store>(&mut self, store: &mut S, inputs: &[u32]) -> Result<(), Refusal>
        ensures same { self.new.records ≡ self.old.records }
        ensures kept { Rehearsed self.new }
        ensures exact { written_outcome result (written_scene_on S.Store self.new store.new) ≡ written_rewinds (written_scene_on S.Store self.old store.old) inputs.now }
    {
        seat(NAMED, store, inputs)?;
        self.position = Position::default();
        self.tallies = WrittenTallies::default();
        Ok(())
    }

    // Writes one of x0 to x31 by hand.
    #[tactic(auto, using(crate::proofs::Told::rehearsed))]
    pub fn correct<S: Store>(
        &mut self,
        store: &mut S,
        register: usize,
        value: u32,
    ) -> Result<(), Refusal>
        ensures same { self.new ≡ self.old }
        ensures kept { Rehearsed self.new }
        ensures exact { written_outcome result (written_scene_on S.Store self.new store.new) ≡ written_corrects (written_scene_on S.Store self.old store.old) register value }
    {
        check_width(store, NAMED)?;
        check_register(register)?;
        store.write(register, value)
    }

    // One of x0 to x31, or a tally; box steps are 0.
    pub fn ask<S: Store>(&self, store: &S, question: Question) -> Result<u128, Refusal>
        ensures { result ≡ written_asks (written_scene_on S.Store self.now store.now) question }
    {
        check_width(store, NAMED)?;
        match question {
            Question::Register(i) => register(store, i).map(u128::from),
            Question::Tally(tally) => Ok(self.tallies.get(tally)),
        }
    }

    // The line on the screen, x0.
    pub fn line<S: Store>(&self, store: &S) -> Result<u128, Refusal>
        ensures { result ≡ written_asks (written_scene_on S.Store self.now store.now) (Register 0) }
    {
        self.ask(store, Question::Register(0))
    }

    // Ends the rehearsal and gives its records back.
    pub fn put_away(self) -> &'a [Placed<Statement>]
        ensures { result ≡ self.entry.records }
    {
        self.records
    }
}
