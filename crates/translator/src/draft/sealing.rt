// Sealing a draft, and the code that is sealed.
ghost use Rattle.std.specs.Prelude.{◌≡◌, suc, length, MatchResult, None};
ghost use Rattle.translator.specs.JumpCode.{instruction_at, AllFit};
ghost use Rattle.translator.specs.Drafts.{laid_code};
ghost use Rattle.translator.specs.Seals.{sealed_memory, sealed_lent, sealed_code, sealed_width, AnyOpen, EndsInHalt, Sound, SealRefuses, SealSays, Tells, answer};
ghost use Rattle.translator.specs.Width.{width};

use super::{Draft, SealedCode};
use crate::types::{Instruction, Operation};
use reader::types::Refusal;

// Whether some test has no label yet.
fn some_open(code: &[Instruction]) -> bool
    ensures { Tells result (AnyOpen code.now) }
{
    code.iter()
        .any(|instruction| instruction.operation.is_open())
}

// Whether each instruction names registers up to x63 and labels inside the code.
fn all_fit(code: &[Instruction]) -> bool
    ensures { Tells result (AllFit 64 code.now) }
{
    let len = code.len();
    code.iter()
        .all(|instruction| instruction.operation.fits(64, len))
}

// Whether the last instruction is HALT.
fn ends_in_halt(code: &[Instruction]) -> bool
    ensures { Tells result (EndsInHalt code.now) }
{
    code.last()
        .is_some_and(|last| last.operation == Operation::Halt)
}

// N: one above the highest register named, and at least 32. A loop, since the closure of a chain would have to be
// callable at any instruction, and `named_registers` asks that it fits.
fn registers_named(code: &[Instruction]) -> usize
    requires { AllFit 64 code.now }
    ensures { result ≡ width code.now }
{
    let mut registers = 32;
    for instruction in code {
        registers = registers.max(instruction.operation.named_registers());
    }
    registers
}

impl<'a> Draft<'a> {
    // What a seal refuses.
    fn fault(&self) -> Result<(), Refusal>
        ensures { MatchResult result
            (λ _. SealSays (laid_code self.now) None)
            (λ e. SealRefuses (laid_code self.now) e) }
    {
        let code = self.table.as_slice();
        if some_open(code) {
            return Err(Refusal::JumpOpen);
        }
        if ends_in_halt(code) && all_fit(code) {
            Ok(())
        } else {
            Err(Refusal::BadDraft)
        }
    }

    // The sealed code of a draft that nothing is wrong with.
    fn into_sealed(self) -> SealedCode<'a>
        requires { (AnyOpen (laid_code self) → ⊥) × Sound (laid_code self) }
        ensures same { result.table ≡ self.entry.table }
        ensures width { sealed_width result ≡ width (laid_code self.entry) }
    {
        let Draft { table } = self;
        let registers = registers_named(table.as_slice());
        SealedCode { table, registers }
    }

    // Seals the draft; a refusal hands it back as it was.
    pub fn seal(self) -> Result<SealedCode<'a>, (Refusal, Draft<'a>)>
        ensures { MatchResult result
            (λ s. ((AnyOpen (laid_code self.entry) → ⊥) × Sound (laid_code self.entry)) × (s.table ≡ self.entry.table) × (sealed_width s ≡ width (laid_code self.entry)))
            (λ e. SealRefuses (laid_code self.entry) e.0 × (e.1 ≡ self.entry)) }
    {
        match self.fault() {
            Ok(()) => Ok(self.into_sealed()),
            Err(refusal) => Err((refusal, self)),
        }
    }
}

impl<'a> SealedCode<'a> {
    // The instructions.
    pub fn as_slice(&self) -> &[Instruction]
        ensures { result.now ≡ sealed_code self.now }
    {
        self.table.as_slice()
    }

    // How many instructions there are.
    pub fn len(&self) -> usize
        ensures { result ≡ length (sealed_code self.now) }
    {
        self.as_slice().len()
    }

    // N, the number of registers that the code needs.
    pub fn registers(&self) -> usize
        ensures { result ≡ sealed_width self.now }
    {
        self.registers
    }

    // The instruction at an index, which is its label less 1.
    pub fn get(&self, index: usize) -> Option<Instruction>
        ensures { result ≡ answer (instruction_at (sealed_code self.now) (suc index)) }
    {
        self.as_slice().get(index).copied()
    }

    // The instruction at a label.
    pub fn instruction(&self, label: usize) -> Option<Instruction>
        ensures { result ≡ answer (instruction_at (sealed_code self.now) label) }
    {
        self.get(label.checked_sub(1)?)
    }

    // Gives the memory back, as it is.
    pub fn give_back(self) -> &'a mut [Instruction]
        ensures memory { result.now ≡ sealed_memory self.entry }
        ensures lent { result.ghost_name ≡ sealed_lent self.entry }
    {
        let SealedCode {
            table,
            registers: _,
        } = self;
        table.give_back()
    }
}
