ghost use Rattle.std.specs.Prelude.{◌≡◌, suc, ◌<◌, ◌≤◌};

use crate::types::Tally;
use reader::types::Kind;

// The four tallies of a rehearsal. LOOP rounds grow by whole register values, so they are wider than those of a show, and
// each step raises other tallies: one type for both would share no more than the names.
#[derive(Clone, Copy, Default)]
pub(super) struct WrittenTallies {
    pub(super) written: u64,
    entered: u64,
    rounds: u128,
    whiles: u64,
}

impl WrittenTallies {
    ghost use Rattle.caption_box.specs.WrittenSteps.{written_counts, written_counted, Counted};
    ghost use Rattle.caption_box.specs.Rehearsals.{written_tally};

    // The tally that is asked for.
    pub(super) fn get(&self, tally: Tally) -> u128
        ensures { result ≡ written_tally self.now tally }
    {
        match tally {
            Tally::BoxSteps => 0,
            Tally::WrittenSteps => u128::from(self.written),
            Tally::LoopsEntered => u128::from(self.entered),
            Tally::LoopRounds => self.rounds,
            Tally::WhileRounds => u128::from(self.whiles),
        }
    }

    // Counts the step of a statement of that kind, whose source held `found`.
    pub(super) fn raise(&mut self, kind: Kind, found: u32)
        requires { self.old.written < 1099511627776 }
        ensures most { self.new.written ≤ suc self.old.written }
        ensures counts { Counted (written_counts self.old) → written_counts self.new ≡ written_counted kind found (written_counts self.old) }
    {
        match kind {
            Kind::Zero => {}
            Kind::Plus | Kind::Minus => self.written += 1,
            Kind::Loop => {
                self.written += 1;
                self.entered = self.entered.saturating_add(1);
                self.rounds = self.rounds.saturating_add(u128::from(found));
            }
            Kind::While => {
                self.written += 1;
                if found > 0 {
                    self.whiles = self.whiles.saturating_add(1);
                }
            }
        }
    }
}
