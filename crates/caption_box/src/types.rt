// The plain data of the box.
ghost use Rattle.std.specs.Prelude.{◌≡◌, Some};

use std::fmt;

// How a run stands, by what comes next: it has ended; the next instruction cannot be obeyed; the next is a plus
// above the top; or there is more to do.
#[derive(Clone, Copy, Debug, PartialEq, Eq)]
pub enum State {
    Ended,
    Unfit,
    Over,
    Time,
}

impl State {
    ghost use Rattle.caption_box.specs.States.{state_word};

    // The word of the state.
    pub fn word(self) -> &'static str
        ensures { result.now ≡ state_word self }
    {
        match self {
            State::Ended => "ended",
            State::Unfit => "unfit",
            State::Over => "over",
            State::Time => "time",
        }
    }
}

impl fmt::Display for State {
    ghost use Rattle.caption_box.specs.States.{state_word};

    ghost output = { λ s. Some (state_word s) };

    fn fmt<W: fmt::Write>(&self, f: &mut fmt::Formatter<W>) -> fmt::Result {
        let word = self.word();
        write!(f, "{word}")
    }
}

// The answer of a tick: how many steps it did, and how the run then stands.
#[derive(Clone, Copy, Debug, PartialEq, Eq)]
pub struct Ticked {
    pub steps: u32,
    pub state: State,
}

// The tallies of a run. docs/SHOW.md says what raises each.
#[derive(Clone, Copy, Debug, PartialEq, Eq)]
pub enum Tally {
    BoxSteps,
    WrittenSteps,
    LoopsEntered,
    LoopRounds,
    WhileRounds,
}

// What can be asked of a run: a register, or a tally.
#[derive(Clone, Copy, Debug, PartialEq, Eq)]
pub enum Question {
    Register(usize),
    Tally(Tally),
}
