// An instruction on a line of its own.
ghost use Rattle.std.specs.Prelude.{◌≡◌, ◌++◌, Some, codes, decimal};
ghost use Rattle.shown.specs.Text.{role_letter, operation_text};

use std::fmt;
use translator::types::{Instruction, Operation, Role};

// An instruction with its label, shown as label, role letter and operation.
#[derive(Clone, Copy)]
pub struct Line {
    pub label: usize,
    pub instruction: Instruction,
}

impl fmt::Display for Line {
    ghost output = { λ l. Some (codes "M" ++ (decimal l.label ++ (codes " " ++ (role_letter l.instruction.role ++ (codes " " ++ operation_text l.instruction.operation))))) };

    fn fmt<W: fmt::Write>(&self, f: &mut fmt::Formatter<W>) -> fmt::Result {
        let label = self.label;
        let letter = letter(self.instruction.role);
        let operation = Shown(self.instruction.operation);
        write!(f, "M{label} {letter} {operation}")
    }
}

// An operation that is shown.
#[derive(Clone, Copy)]
struct Shown(Operation);

impl fmt::Display for Shown {
    ghost output = { λ s. Some (operation_text s.0) };

    fn fmt<W: fmt::Write>(&self, f: &mut fmt::Formatter<W>) -> fmt::Result {
        match self.0 {
            Operation::Halt => write!(f, "HALT"),
            Operation::Plus {
                target,
                source,
                constant,
            } => write!(f, "x{target} := x{source} + {constant}"),
            Operation::Minus {
                target,
                source,
                constant,
            } => write!(f, "x{target} := x{source} - {constant}"),
            Operation::If { source, label } => write!(f, "IF x{source} = 0 THEN GOTO M{label}"),
            Operation::Goto { label } => write!(f, "GOTO M{label}"),
        }
    }
}

// The letter of a role. It is a text already, so that a Display would only write it again.
fn letter(role: Role) -> &'static str
    ensures { result.now ≡ role_letter role }
{
    match role {
        Role::Halt => "h",
        Role::Written => "w",
        Role::Entry => "e",
        Role::Test => "t",
        Role::Down => "d",
        Role::Jump => "j",
    }
}
