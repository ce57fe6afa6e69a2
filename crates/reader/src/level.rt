ghost use Rattle.std.specs.Prelude.{ℕ, ◌≤◌};

use crate::limits::LEVELS;

// How many LOOPs and WHILEs a statement stands in.
#[derive(Clone, Copy)]
pub struct Level {
    depth: usize,
    ghost shallow: { depth ≤ 8 },
}

impl Level {
    ghost use Rattle.std.specs.Prelude.{◌≡◌, ◌+◌, ◌<◌, MatchOption};

    // The level of a whole sheet.
    pub(crate) fn outermost() -> Level
        ensures { result.depth ≡ 0 }
    {
        Level { depth: 0 }
    }

    // The level inside a LOOP or WHILE of this one; none where that is too deep.
    pub(crate) fn inner(self) -> Option<Level>
        ensures { MatchOption result (self.depth ≡ 8) (λ l. (self.depth < 8) × (l.depth ≡ self.depth + 1)) }
    {
        if self.depth >= LEVELS {
            return None;
        }
        Some(Level {
            depth: self.depth + 1,
        })
    }
}
