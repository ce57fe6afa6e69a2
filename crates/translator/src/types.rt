// The plain data of the translator. Clauses stand inside impl blocks alone, so that specs/ can name every type.
use reader::types::{Placed, Refusal, Statement, ZERO_STATEMENT};

// Where an instruction or a flat statement comes from. docs/CODE.md has the letters.
#[derive(Clone, Copy, Debug, PartialEq, Eq)]
pub enum Role {
    Halt,
    Written,
    Entry,
    Test,
    Down,
    Jump,
}

// What an instruction does. A label counts from 1; a test that has none yet holds 0 there, as the format of
// instructions says.
#[derive(Clone, Copy, Debug, PartialEq, Eq)]
pub enum Operation {
    Halt,
    Plus {
        target: usize,
        source: usize,
        constant: u32,
    },
    Minus {
        target: usize,
        source: usize,
        constant: u32,
    },
    If {
        source: usize,
        label: usize,
    },
    Goto {
        label: usize,
    },
}

impl Operation {
    ghost use Rattle.std.specs.Prelude.{◌≡◌, ℕ, T};
    ghost use Rattle.translator.specs.JumpCode.{fits};
    ghost use Rattle.translator.specs.Drafts.{is_open};
    ghost use Rattle.translator.specs.Width.{named};

    // Whether it is a test without a label.
    pub(crate) fn is_open(self) -> bool
        ensures { result ≡ is_open self }
    {
        matches!(self, Operation::If { label: 0, .. })
    }

    // Whether it names registers below `registers` and labels inside a code of `len` instructions.
    pub fn fits(self, registers: usize, len: usize) -> bool
        ensures { result ≡ fits registers len self }
    {
        match self {
            Operation::Halt => true,
            Operation::Plus { target, source, .. } | Operation::Minus { target, source, .. } => {
                target < registers && source < registers
            }
            Operation::If { source, label } => source < registers && 1 <= label && label <= len,
            Operation::Goto { label } => 1 <= label && label <= len,
        }
    }

    // One above the highest register that it names; 0 where it names none.
    pub(crate) fn named_registers(self) -> usize
        requires { (len : ℕ) × T (fits 64 len self) }
        ensures { result ≡ named self }
    {
        match self {
            Operation::Halt | Operation::Goto { .. } => 0,
            Operation::Plus { target, source, .. } | Operation::Minus { target, source, .. } => {
                target.max(source) + 1
            }
            Operation::If { source, .. } => source + 1,
        }
    }
}

#[derive(Clone, Copy, Debug, PartialEq, Eq)]
pub struct Instruction {
    pub operation: Operation,
    pub role: Role,
}

impl Instruction {
    ghost use Rattle.translator.specs.Drafts.{TestOf};

    // The source and role, if it is a test without a label.
    pub(crate) fn as_open_test(self) -> Option<(usize, Role)>
        ensures { TestOf self result }
    {
        match self.operation {
            Operation::If { source, label: 0 } => Some((source, self.role)),
            _ => None,
        }
    }
}

// A flat statement: no LOOP, and an end that counts flat statements.
#[derive(Clone, Copy, Debug, PartialEq, Eq)]
pub struct Flat {
    pub statement: Statement,
    pub role: Role,
}

// What memory for flat statements holds where it holds none.
pub const ZERO_FLAT: Placed<Flat> = Placed {
    place: 0,
    item: Flat {
        statement: ZERO_STATEMENT,
        role: Role::Written,
    },
};

// The stages of a load.
#[derive(Clone, Copy, Debug, PartialEq, Eq)]
pub enum Stage {
    Read,
    Flatten,
    Lay,
    Seal,
}

// Why a load was refused: the stage that refused, and its refusal with a place.
#[derive(Clone, Copy, Debug, PartialEq, Eq)]
pub struct Fault {
    pub stage: Stage,
    pub cause: Placed<Refusal>,
}
