// The steps of a show.
ghost use Rattle.std.specs.Prelude.{◌≡◌, ◌+◌, ◌<◌, ◌≤◌};
ghost use Rattle.caption_box.specs.Tallies.{largest_of};
ghost use Rattle.caption_box.specs.Calls.{scene, step as step_of, state_of, onward, tick_box, tick_steps, tick_state};
ghost use Rattle.caption_box.specs.Shows.{setting_on, box_on, scene_on};

use super::Show;
use super::stepping::{fate, perform};
use crate::types::{State, Ticked};
use stores::store::Store;

impl<'c> Show<'c> {
    // How the show stands on the store. A step asks this too, and then needs the instruction.
    fn look<S: Store>(&self, store: &S) -> State
        ensures { result ≡ state_of (step_of (setting_on S.Store self.now store.now) (box_on S.Store self.now store.now)) }
    {
        match self.sealed.get(self.next) {
            Some(instruction) => fate(
                instruction.operation,
                self.sealed.registers(),
                self.sealed.len(),
                store,
            ),
            None => State::Unfit,
        }
    }

    // Does one step if it can be done, and answers how the show stood before it.
    fn step<S: Store>(&mut self, store: &mut S) -> State
        requires { largest_of self.old.tallies < 1099511627776 }
        ensures code { self.new.sealed ≡ self.old.sealed }
        ensures state { result ≡ state_of (step_of (setting_on S.Store self.old store.old) (box_on S.Store self.old store.old)) }
        ensures moved { scene_on S.Store self.new store.new ≡ scene (setting_on S.Store self.old store.old) (onward (step_of (setting_on S.Store self.old store.old) (box_on S.Store self.old store.old)) (box_on S.Store self.old store.old)) }
    {
        let Some(instruction) = self.sealed.get(self.next) else {
            return State::Unfit;
        };
        let state = fate(
            instruction.operation,
            self.sealed.registers(),
            self.sealed.len(),
            store,
        );
        if state == State::Time {
            let moved = perform(instruction.operation, self.next, store);
            self.next = moved.next;
            self.tallies.raise(instruction.role, moved.found);
        }
        state
    }

    // Steps until k are done or the next cannot be done; a rehearsal's loop is alike, and says why both stay.
    pub(super) fn go<S: Store>(&mut self, store: &mut S, k: u32) -> Ticked
        requires { largest_of self.old.tallies + k ≤ 1099511627776 }
        ensures code { self.new.sealed ≡ self.old.sealed }
        ensures moved { scene_on S.Store self.new store.new ≡ scene (setting_on S.Store self.old store.old) (tick_box (setting_on S.Store self.old store.old) k (box_on S.Store self.old store.old)) }
        ensures steps { result.steps ≡ tick_steps (setting_on S.Store self.old store.old) k (box_on S.Store self.old store.old) }
        ensures state { result.state ≡ tick_state (setting_on S.Store self.old store.old) k (box_on S.Store self.old store.old) }
    {
        for steps in 0..k {
            let state = self.step(store);
            if state != State::Time {
                return Ticked { steps, state };
            }
        }
        let state = self.look(store);
        Ticked { steps: k, state }
    }
}
