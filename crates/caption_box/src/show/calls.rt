// The calls of a show. Each says what it answers, what show and store hold afterwards, and that it carries the claim about
// histories on (specs/Claim).
ghost use Rattle.std.specs.Prelude.{◌≡◌, ℕ, List, IfOk, MatchResult};
ghost use Rattle.reader.specs.declared.types.Placed.{Placed};
ghost use Rattle.reader.specs.declared.types.Statement.{Statement};
ghost use Rattle.reader.specs.Sheet.{Sheet};
ghost use Rattle.translator.specs.declared.types.Flat.{Flat};
ghost use Rattle.translator.specs.Loading.{Loaded};
ghost use Rattle.caption_box.specs.declared.types.Question.TheVariants.{Register};
ghost use Rattle.caption_box.specs.Calls.{outcome, ticks, rewinds, corrects, asks, Started, Unstarted};
ghost use Rattle.caption_box.specs.Shows.{code_setting, setting_on, box_on, scene_on};
ghost use Rattle.caption_box.specs.GotoRuns.{GotoTick};
ghost use Rattle.caption_box.specs.History.{Plays, History.started as started_with, Call.tick_call, Call.correct_call, Call.rewind_call, Call.ask_call, add_tick, add_correct, add_rewind, add_ask};
ghost use Rattle.caption_box.specs.Claim.{Follows, Carries, CarriesRefused, LineFollows};

use super::{RefusedStart, Show};
use crate::guards::{check_register, check_tick, check_width, register};
use crate::seating::seat;
use crate::tallies::Tallies;
use crate::types::{Question, Ticked};
use reader::types::Refusal;
use stores::store::Store;
use translator::draft::SealedCode;

impl<'c> Show<'c> {
    // A show of the code on the store, at its beginning. A refusal hands the code back.
    pub fn start<S: Store>(
        sealed: SealedCode<'c>,
        store: &mut S,
        inputs: &[u32],
    ) -> Result<Show<'c>, RefusedStart<'c>>
        ensures top { S.Store.limit store.new ≡ S.Store.limit store.old }
        ensures code { MatchResult result (λ s. s.sealed ≡ sealed.entry) (λ e. e.sealed ≡ sealed.entry) }
        ensures exact { MatchResult result
            (λ s. Started (code_setting sealed.entry (S.Store.limit store.old)) (S.Store.numbers store.old) inputs.now (scene_on S.Store s store.new))
            (λ e. Unstarted (code_setting sealed.entry (S.Store.limit store.old)) (S.Store.numbers store.old) inputs.now e.refusal (S.Store.numbers store.new)) }
        ensures follows { (p : Sheet) → Plays p (code_setting sealed.entry (S.Store.limit store.old))
            → IfOk result (λ s. Follows p (started_with inputs.now) (scene_on S.Store s store.new)) }
        ensures loaded { (text : List ℕ) (n f c : ℕ) (rs : List (Placed Statement)) (fs : List (Placed Flat)) (l : Loaded text n f c rs fs sealed.entry)
            → IfOk result (λ s. Follows l.sheet (started_with inputs.now) (scene_on S.Store s store.new)) }
    {
        match seat(sealed.registers(), store, inputs) {
            Ok(()) => Ok(Show {
                sealed,
                next: 0,
                tallies: Tallies::default(),
            }),
            Err(refusal) => Err(RefusedStart { refusal, sealed }),
        }
    }

    // A call with several returns has this private part, so that what follows from `exact` is shown once.
    fn tick_exactly<S: Store>(&mut self, store: &mut S, k: u32) -> Result<Ticked, Refusal>
        ensures code { self.new.sealed ≡ self.old.sealed }
        ensures exact { outcome result (scene_on S.Store self.new store.new) ≡ ticks (scene_on S.Store self.old store.old) k }
    {
        check_width(store, self.sealed.registers())?;
        check_tick(k, self.tallies.largest())?;
        Ok(self.go(store, k))
    }

    // Does up to k steps; the answer says how many, and how the show then stands.
    pub fn tick<S: Store>(&mut self, store: &mut S, k: u32) -> Result<Ticked, Refusal>
        ensures code { self.new.sealed ≡ self.old.sealed }
        ensures exact { outcome result (scene_on S.Store self.new store.new) ≡ ticks (scene_on S.Store self.old store.old) k }
        ensures published { IfOk result (λ t. GotoTick (setting_on S.Store self.old store.old) k (box_on S.Store self.old store.old) t (box_on S.Store self.new store.new)) }
        ensures follows { Carries (scene_on S.Store self.old store.old) (add_tick k result self.new.tallies.written) (scene_on S.Store self.new store.new) }
        ensures aside { CarriesRefused (tick_call k) result self.old self.new }
    {
        self.tick_exactly(store, k)
    }

    fn rewind_exactly<S: Store>(&mut self, store: &mut S, inputs: &[u32]) -> Result<(), Refusal>
        ensures code { self.new.sealed ≡ self.old.sealed }
        ensures exact { outcome result (scene_on S.Store self.new store.new) ≡ rewinds (scene_on S.Store self.old store.old) inputs.now }
    {
        seat(self.sealed.registers(), store, inputs)?;
        self.next = 0;
        self.tallies = Tallies::default();
        Ok(())
    }

    // Puts the show to its beginning again.
    pub fn rewind<S: Store>(&mut self, store: &mut S, inputs: &[u32]) -> Result<(), Refusal>
        ensures code { self.new.sealed ≡ self.old.sealed }
        ensures exact { outcome result (scene_on S.Store self.new store.new) ≡ rewinds (scene_on S.Store self.old store.old) inputs.now }
        ensures follows { Carries (scene_on S.Store self.old store.old) (add_rewind inputs.now result) (scene_on S.Store self.new store.new) }
        ensures aside { CarriesRefused (rewind_call inputs.now) result self.old self.new }
    {
        self.rewind_exactly(store, inputs)
    }

    fn correct_exactly<S: Store>(
        &mut self,
        store: &mut S,
        register: usize,
        value: u32,
    ) -> Result<(), Refusal>
        ensures code { self.new.sealed ≡ self.old.sealed }
        ensures exact { outcome result (scene_on S.Store self.new store.new) ≡ corrects (scene_on S.Store self.old store.old) register value }
    {
        check_width(store, self.sealed.registers())?;
        check_register(register)?;
        store.write(register, value)
    }

    // Writes one of x0 to x31 by hand.
    pub fn correct<S: Store>(
        &mut self,
        store: &mut S,
        register: usize,
        value: u32,
    ) -> Result<(), Refusal>
        ensures code { self.new.sealed ≡ self.old.sealed }
        ensures exact { outcome result (scene_on S.Store self.new store.new) ≡ corrects (scene_on S.Store self.old store.old) register value }
        ensures follows { Carries (scene_on S.Store self.old store.old) (add_correct register value result) (scene_on S.Store self.new store.new) }
        ensures aside { CarriesRefused (correct_call register value) result self.old self.new }
    {
        self.correct_exactly(store, register, value)
    }

    fn ask_exactly<S: Store>(&self, store: &S, question: Question) -> Result<u64, Refusal>
        ensures { result ≡ asks (scene_on S.Store self.now store.now) question }
    {
        check_width(store, self.sealed.registers())?;
        match question {
            Question::Register(i) => register(store, i).map(u64::from),
            Question::Tally(tally) => Ok(self.tallies.get(tally)),
        }
    }

    // One of x0 to x31, or a tally.
    pub fn ask<S: Store>(&self, store: &S, question: Question) -> Result<u64, Refusal>
        ensures exact { result ≡ asks (scene_on S.Store self.now store.now) question }
        ensures follows { Carries (scene_on S.Store self.now store.now) (add_ask question result) (scene_on S.Store self.now store.now) }
        ensures aside { CarriesRefused (ask_call question) result self.now self.now }
    {
        self.ask_exactly(store, question)
    }

    // The line on the screen, x0. For any history that led here it is the line of the written sheet, and all that is
    // claimed of a show holds: this is the call that a program makes to know it.
    pub fn line<S: Store>(&self, store: &S) -> Result<u64, Refusal>
        ensures exact { result ≡ asks (scene_on S.Store self.now store.now) (Register 0) }
        ensures follows { LineFollows (scene_on S.Store self.now store.now) result }
    {
        self.ask_exactly(store, Question::Register(0))
    }

    // Ends the show and hands its code back.
    pub fn put_away(self) -> SealedCode<'c>
        ensures { result ≡ self.entry.sealed }
    {
        let Show {
            sealed,
            next: _,
            tallies: _,
        } = self;
        sealed
    }
}
