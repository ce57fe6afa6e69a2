ghost use Rattle.std.specs.Prelude.{◌≡◌, suc, ◌<◌};

use crate::types::Tally;
use translator::types::Role;

// The five tallies of a show: box steps, and what the written run counts too.
#[derive(Clone, Copy, Debug, Default, PartialEq, Eq)]
pub struct Tallies {
    steps: u64,
    written: u64,
    entered: u64,
    rounds: u64,
    whiles: u64,
}

impl Tallies {
    ghost use Rattle.caption_box.specs.Tallies.{counts_of, counted, largest_of, tally_of};

    // The largest tally, which is that of the box steps in every show that was started. A show may hold any tallies, so the
    // largest of all is what must not overflow.
    pub(crate) fn largest(&self) -> u64
        ensures { result ≡ largest_of self.now }
    {
        self.steps.max(
            self.written
                .max(self.entered)
                .max(self.rounds.max(self.whiles)),
        )
    }

    // The tally that is asked for.
    pub(crate) fn get(&self, tally: Tally) -> u64
        ensures { result ≡ tally_of self.now tally }
    {
        match tally {
            Tally::BoxSteps => self.steps,
            Tally::WrittenSteps => self.written,
            Tally::LoopsEntered => self.entered,
            Tally::LoopRounds => self.rounds,
            Tally::WhileRounds => self.whiles,
        }
    }

    // Counts a step of that role; `found` says that it is a test that found another number than 0.
    pub(crate) fn raise(&mut self, role: Role, found: bool)
        requires { largest_of self.old < 1099511627776 }
        ensures steps { self.new.steps ≡ suc self.old.steps }
        ensures counts { counts_of self.new ≡ counted role found (counts_of self.old) }
    {
        self.steps += 1;
        match role {
            Role::Written => {
                self.written += 1;
                if found {
                    self.whiles += 1;
                }
            }
            Role::Entry => {
                self.written += 1;
                self.entered += 1;
            }
            Role::Down => self.rounds += 1,
            Role::Test => {}
            Role::Jump | Role::Halt => {}
        }
    }
}
