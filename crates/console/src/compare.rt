// A show with a rehearsal beside it: after each call the rehearsal goes on to the show's written steps, and the two are
// compared. Each has a store of its own.
use crate::answer::{Comparison, Lines};
use crate::calls::Performance;
use crate::twins::Twins;
use caption_box::rehearsal::Rehearsal;
use caption_box::show::Show;
use caption_box::types::{Question, Tally, Ticked};
use reader::types::Refusal;
use stores::store::Store;

const WRITTEN: Question = Question::Tally(Tally::WrittenSteps);

// The show, on the first store, and the rehearsal, on the second.
#[derive(Drop)]
pub struct Pair<'c> {
    pub show: Show<'c>,
    pub rehearsal: Rehearsal<'c>,
}

// A call that the show refuses does not reach the rehearsal, and a question is the show's to answer.
impl Performance for Pair<'_> {
    fn tick<S: Store, T: Store>(
        &mut self,
        stores: &mut Twins<S, T>,
        k: u32,
    ) -> Result<Ticked, Refusal> {
        let ticked = self.show.tick(&mut stores.first, k)?;
        let behind = self.behind(stores)?;
        self.rehearsal.tick(&mut stores.second, behind)?;
        Ok(ticked)
    }

    fn correct<S: Store, T: Store>(
        &mut self,
        stores: &mut Twins<S, T>,
        register: usize,
        value: u32,
    ) -> Result<(), Refusal> {
        self.show.correct(&mut stores.first, register, value)?;
        self.rehearsal.correct(&mut stores.second, register, value)
    }

    fn rewind<S: Store, T: Store>(
        &mut self,
        stores: &mut Twins<S, T>,
        inputs: &[u32],
    ) -> Result<(), Refusal> {
        self.show.rewind(&mut stores.first, inputs)?;
        self.rehearsal.rewind(&mut stores.second, inputs)
    }

    fn ask<S: Store, T: Store>(
        &self,
        stores: &Twins<S, T>,
        question: Question,
    ) -> Result<u128, Refusal> {
        self.show.ask(&stores.first, question).map(u128::from)
    }

    fn lines<S: Store, T: Store>(&self, stores: &Twins<S, T>) -> Result<Lines, Refusal> {
        self.compare(stores).map(Lines::Both)
    }
}

impl Pair<'_> {
    // How many written steps the rehearsal is behind; after a tick of the show they are within one tick.
    fn behind<S: Store, T: Store>(&self, stores: &Twins<S, T>) -> Result<u32, Refusal> {
        let goal = u128::from(self.show.ask(&stores.first, WRITTEN)?);
        let done = self.rehearsal.ask(&stores.second, WRITTEN)?;
        Ok(u32::try_from(goal.saturating_sub(done)).unwrap_or(u32::MAX))
    }

    // Whether x0 to x31 and the written steps of both are the same.
    fn compare<S: Store, T: Store>(&self, stores: &Twins<S, T>) -> Result<Comparison, Refusal> {
        let mut agrees = self.is_same(stores, WRITTEN)?;
        for i in 0..32 {
            agrees &= self.is_same(stores, Question::Register(i))?;
        }
        Ok(Comparison {
            line: u128::from(self.show.line(&stores.first)?),
            sheet_line: self.rehearsal.line(&stores.second)?,
            written: self.rehearsal.ask(&stores.second, WRITTEN)?,
            agrees,
        })
    }

    // Whether both give the same answer to a question. Inlined, since `compare` knows which kind of question it asks; as a
    // call of its own it makes a short tick take half as long again.
    #[inline(always)]
    fn is_same<S: Store, T: Store>(
        &self,
        stores: &Twins<S, T>,
        question: Question,
    ) -> Result<bool, Refusal> {
        let shown = u128::from(self.show.ask(&stores.first, question)?);
        Ok(shown == self.rehearsal.ask(&stores.second, question)?)
    }
}
