// Code that is being laid.
ghost use Rattle.std.specs.Prelude.{suc, ◌^◌, ◌<◌, ◌≤◌, length};
ghost use Rattle.filing.specs.Tables.{memory};

mod sealing;

use crate::types::{Instruction, Operation, Role};
use filing::table::Table;
use reader::types::Refusal;

// Code that is still being laid. Memory for instructions is never so long that a label would not be a number. That a call
// leaves a draft the same memory is a clause of its own each time, since no type says what is left behind a `&mut`.
#[derive(Drop)]
pub struct Draft<'a> {
    table: Table<'a, Instruction>,
    ghost small: { length (memory table) < 2 ^ 60 },
}

// A test whose label is still 0: it has to be closed or struck.
pub struct OpenJump {
    at: usize,
}

// An open jump is never let go: only one at the largest index could be, and `test` gives none such.
impl Drop for OpenJump {
    fn drop(self)
        requires { 2 ^ 64 ≤ suc self.at }
    {
        let OpenJump { at: _ } = self;
    }
}

// Code that can be played, and N, the number of registers that it needs.
#[derive(Drop)]
pub struct SealedCode<'a> {
    table: Table<'a, Instruction>,
    registers: usize,
}

pub const HALT: Instruction = Instruction {
    operation: Operation::Halt,
    role: Role::Halt,
};

impl<'a> Draft<'a> {
    ghost use Rattle.std.specs.Prelude.{◌≡◌, ℕ, suc, ◌^◌, ◌<◌, IfOk, MatchResult};
    ghost use Rattle.reader.specs.declared.types.Refusal.TheVariants.{CodeFull};
    ghost use Rattle.translator.specs.declared.types.Operation.TheVariants.{If};
    ghost use Rattle.translator.specs.JumpCode.{instruction};
    ghost use Rattle.translator.specs.Drafts.{draft_memory, draft_lent, laid, laid_code, next_label, TestAt, Appended, Unchanged, Cleared, Full};

    // An empty draft over the memory, which stays as it is.
    pub fn new(memory: &'a mut [Instruction]) -> Self
        ensures empty { laid result ≡ 0 }
        ensures memory { draft_memory result ≡ memory.old }
        ensures lent { draft_lent result ≡ memory.entry.ghost_name }
    {
        Draft {
            table: Table::new(memory),
        }
    }

    // How many instructions are laid.
    pub fn len(&self) -> usize
        ensures { result ≡ laid self.now }
    {
        self.table.len()
    }

    // Lays an instruction behind the others.
    pub fn lay(&mut self, instruction: Instruction) -> Result<(), Refusal>
        ensures laid { MatchResult result
            (λ _. Appended instruction self.old self.new)
            (λ e. (e ≡ CodeFull) × Full self.old × Unchanged self.old self.new) }
        ensures lent { draft_lent self.new ≡ draft_lent self.old }
    {
        self.table.file(instruction).ok_or(Refusal::CodeFull)?;
        Ok(())
    }

    // Lays a test that has no label yet.
    pub fn test(&mut self, source: usize, role: Role) -> Result<OpenJump, Refusal>
        ensures laid { MatchResult result
            (λ j. (j.at ≡ laid self.old) × Appended (instruction role (If source 0)) self.old self.new)
            (λ e. (e ≡ CodeFull) × Full self.old × Unchanged self.old self.new) }
        ensures held { IfOk result (λ j. suc j.at < 2 ^ 64) }
        ensures lent { draft_lent self.new ≡ draft_lent self.old }
    {
        let test = Instruction {
            operation: Operation::If { source, label: 0 },
            role,
        };
        let at = self.table.file(test).ok_or(Refusal::CodeFull)?;
        Ok(OpenJump { at })
    }

    // The label of the instruction that will be laid next.
    pub(crate) fn next_label(&self) -> usize
        ensures { result ≡ next_label self.now }
    {
        self.len() + 1
    }

    // The source and role of the open test at an index.
    fn open_test(&self, at: usize) -> Option<(usize, Role)>
        ensures { TestAt (laid_code self.now) at result }
    {
        self.table.get(at)?.as_open_test()
    }

    // Makes each cell behind what is laid a zero instruction.
    pub(crate) fn clear_rest(&mut self)
        ensures cleared { Cleared self.old self.new }
        ensures lent { draft_lent self.new ≡ draft_lent self.old }
    {
        self.table.clear_rest(HALT);
    }

    // Gives the memory back, as it is.
    pub fn give_back(self) -> &'a mut [Instruction]
        ensures memory { result.now ≡ draft_memory self.entry }
        ensures lent { result.ghost_name ≡ draft_lent self.entry }
    {
        let Draft { table } = self;
        table.give_back()
    }
}

impl OpenJump {
    ghost use Rattle.std.specs.Prelude.{◌≡◌, MatchResult, slice_index_or};
    ghost use Rattle.reader.specs.declared.types.Refusal.TheVariants.{NotOpen};
    ghost use Rattle.translator.specs.JumpCode.{halt};
    ghost use Rattle.translator.specs.Drafts.{draft_memory, draft_lent, laid_code, next_label, OpenAt, aimed, Replaced, Unchanged};

    // Aims the test at the instruction that will be laid next.
    pub fn close(self, draft: &mut Draft) -> Result<(), Refusal>
        ensures closed { MatchResult result
            (λ _. OpenAt (laid_code draft.old) self.at
            × Replaced self.at (aimed (next_label draft.old) (slice_index_or (draft_memory draft.old) self.at halt)) draft.old draft.new)
            (λ e. (e ≡ NotOpen) × (OpenAt (laid_code draft.old) self.at → ⊥) × Unchanged draft.old draft.new) }
        ensures lent { draft_lent draft.new ≡ draft_lent draft.old }
    {
        let OpenJump { at } = self;
        let (source, role) = draft.open_test(at).ok_or(Refusal::NotOpen)?;
        let label = draft.next_label();
        draft.table.amend(
            at,
            Instruction {
                operation: Operation::If { source, label },
                role,
            },
        );
        Ok(())
    }

    // Makes the test a zero instruction.
    pub fn strike(self, draft: &mut Draft) -> Result<(), Refusal>
        ensures struck { MatchResult result
            (λ _. OpenAt (laid_code draft.old) self.at × Replaced self.at halt draft.old draft.new)
            (λ e. (e ≡ NotOpen) × (OpenAt (laid_code draft.old) self.at → ⊥) × Unchanged draft.old draft.new) }
        ensures lent { draft_lent draft.new ≡ draft_lent draft.old }
    {
        let OpenJump { at } = self;
        draft.open_test(at).ok_or(Refusal::NotOpen)?;
        draft.table.amend(at, HALT);
        Ok(())
    }
}
