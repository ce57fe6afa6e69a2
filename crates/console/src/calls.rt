// The calls to what runs.
use crate::answer::{Answer, Lines};
use crate::line::Call;
use crate::twins::Twins;
use caption_box::rehearsal::Rehearsal;
use caption_box::show::Show;
use caption_box::types::{Question, Ticked};
use reader::types::Refusal;
use stores::store::Store;

// What runs: a show, a rehearsal, or both beside each other. The calls of the box are methods of each type, with contracts
// of their own; here they only have one name.
pub trait Performance {
    fn tick<S: Store, T: Store>(
        &mut self,
        stores: &mut Twins<S, T>,
        k: u32,
    ) -> Result<Ticked, Refusal>;

    fn correct<S: Store, T: Store>(
        &mut self,
        stores: &mut Twins<S, T>,
        register: usize,
        value: u32,
    ) -> Result<(), Refusal>;

    fn rewind<S: Store, T: Store>(
        &mut self,
        stores: &mut Twins<S, T>,
        inputs: &[u32],
    ) -> Result<(), Refusal>;

    fn ask<S: Store, T: Store>(
        &self,
        stores: &Twins<S, T>,
        question: Question,
    ) -> Result<u128, Refusal>;

    fn lines<S: Store, T: Store>(&self, stores: &Twins<S, T>) -> Result<Lines, Refusal>;
}

impl Performance for Show<'_> {
    fn tick<S: Store, T: Store>(
        &mut self,
        stores: &mut Twins<S, T>,
        k: u32,
    ) -> Result<Ticked, Refusal> {
        Show::tick(self, &mut stores.first, k)
    }

    fn correct<S: Store, T: Store>(
        &mut self,
        stores: &mut Twins<S, T>,
        register: usize,
        value: u32,
    ) -> Result<(), Refusal> {
        Show::correct(self, &mut stores.first, register, value)
    }

    fn rewind<S: Store, T: Store>(
        &mut self,
        stores: &mut Twins<S, T>,
        inputs: &[u32],
    ) -> Result<(), Refusal> {
        Show::rewind(self, &mut stores.first, inputs)
    }

    fn ask<S: Store, T: Store>(
        &self,
        stores: &Twins<S, T>,
        question: Question,
    ) -> Result<u128, Refusal> {
        Show::ask(self, &stores.first, question).map(u128::from)
    }

    fn lines<S: Store, T: Store>(&self, stores: &Twins<S, T>) -> Result<Lines, Refusal> {
        let line = Show::line(self, &stores.first)?;
        Ok(Lines::One(u128::from(line)))
    }
}

impl Performance for Rehearsal<'_> {
    fn tick<S: Store, T: Store>(
        &mut self,
        stores: &mut Twins<S, T>,
        k: u32,
    ) -> Result<Ticked, Refusal> {
        Rehearsal::tick(self, &mut stores.first, k)
    }

    fn correct<S: Store, T: Store>(
        &mut self,
        stores: &mut Twins<S, T>,
        register: usize,
        value: u32,
    ) -> Result<(), Refusal> {
        Rehearsal::correct(self, &mut stores.first, register, value)
    }

    fn rewind<S: Store, T: Store>(
        &mut self,
        stores: &mut Twins<S, T>,
        inputs: &[u32],
    ) -> Result<(), Refusal> {
        Rehearsal::rewind(self, &mut stores.first, inputs)
    }

    fn ask<S: Store, T: Store>(
        &self,
        stores: &Twins<S, T>,
        question: Question,
    ) -> Result<u128, Refusal> {
        Rehearsal::ask(self, &stores.first, question)
    }

    fn lines<S: Store, T: Store>(&self, stores: &Twins<S, T>) -> Result<Lines, Refusal> {
        Rehearsal::line(self, &stores.first).map(Lines::One)
    }
}

// Makes a call, and answers it.
pub fn make_call<P: Performance, S: Store, T: Store>(
    run: &mut P,
    stores: &mut Twins<S, T>,
    call: &Call,
) -> Result<Answer, Refusal> {
    match call {
        Call::Tick(k) => {
            let ticked = run.tick(stores, *k)?;
            Ok(Answer::Ticked(ticked, run.lines(stores)?))
        }
        Call::Correct { register, value } => {
            run.correct(stores, *register, *value)?;
            done(run, stores)
        }
        Call::Rewind(inputs) => {
            run.rewind(stores, inputs.as_slice())?;
            done(run, stores)
        }
        Call::Ask(question) => run.ask(stores, *question).map(Answer::Number),
    }
}

// The answer to a call that gives nothing else.
pub fn done<P: Performance, S: Store, T: Store>(
    run: &P,
    stores: &Twins<S, T>,
) -> Result<Answer, Refusal> {
    run.lines(stores).map(Answer::Done)
}
