// The steps of a rehearsal.
ghost use Rattle.std.specs.Prelude.{◌≡◌, suc, ◌+◌, ◌<◌, ◌≤◌};
ghost use Rattle.reader.specs.Steps.{many_done};
ghost use Rattle.reader.specs.WrittenRun.{written_step, written_steps};
ghost use Rattle.caption_box.specs.Calls.{state_of};
ghost use Rattle.caption_box.specs.Rehearsals.{run_of, Stepped, Gone};

use super::Rehearsal;
use super::stepping::{fate, perform};
use super::walking::record_at;
use crate::types::{State, Ticked};
use stores::store::Store;

impl<'a> Rehearsal<'a> {
    // How the rehearsal stands on the store.
    fn look<S: Store>(&self, store: &S) -> State
        ensures { result ≡ state_of (written_step (S.Store.limit store.now) (run_of self.now (S.Store.numbers store.now))) }
    {
        fate(record_at(self.records, self.position.at), store)
    }

    // Does one written step if it can be done, and answers how the rehearsal stood before it.
    fn step<S: Store>(&mut self, store: &mut S) -> State
        requires { self.old.tallies.written < 1099511627776 }
        ensures same { self.new.records ≡ self.old.records }
        ensures top { S.Store.limit store.new ≡ S.Store.limit store.old }
        ensures most { self.new.tallies.written ≤ suc self.old.tallies.written }
        ensures exact { Stepped (S.Store.limit store.old) self.old (S.Store.numbers store.old) result self.new (S.Store.numbers store.new) }
    {
        let statement = record_at(self.records, self.position.at);
        let state = fate(statement, store);
        if state == State::Time {
            let found = perform(statement, store);
            self.tallies.raise(statement.kind, found);
            self.position.go_on(self.records, statement.kind, found);
        }
        state
    }

    // Written steps until k are done or the next cannot be done. The loop is that of a show: one over closures would lend
    // rehearsal and store to the step and to the look at once, and a trait's would have to state what it does for both. That
    // the tally stays small is asked in front of each step, since each adds to it.
    pub(super) fn go<S: Store>(&mut self, store: &mut S, k: u32) -> Ticked
        requires { self.old.tallies.written + k ≤ 1099511627776 }
        ensures same { self.new.records ≡ self.old.records }
        ensures top { S.Store.limit store.new ≡ S.Store.limit store.old }
        ensures exact { Gone (S.Store.limit store.old) k self.old (S.Store.numbers store.old) result self.new (S.Store.numbers store.new) }
    {
        for steps in 0..k {
            let state = self.step(store);
            if state != State::Time {
                return Ticked { steps, state };
            }
        }
        let state = self.look(store);
        Ticked { steps: k, state }
    }
}
