// From the text of a sheet to its sealed code.
ghost use Rattle.std.specs.Prelude.{◌≡◌, ℕ, length, replicate, MatchResult};
ghost use Rattle.reader.specs.Symbols.{placed};
ghost use Rattle.reader.specs.Records.{cleared};
ghost use Rattle.translator.specs.declared.types.Stage.TheVariants.{Read};
ghost use Rattle.translator.specs.Drafts.{draft_memory, draft_lent, laid};
ghost use Rattle.translator.specs.Seals.{sealed_lent};
ghost use Rattle.translator.specs.Loading.{fault, cleared_flats, cleared_code, Prepared, SheetLaid, Loaded, LoadRefuses};

use crate::draft::{Draft, HALT, SealedCode};
use crate::flatten::flatten;
use crate::lay::lay_code;
use crate::types::{Fault, Flat, Instruction, Stage, ZERO_FLAT};
use filing::table::Table;
use reader::read;
use reader::types::{Placed, Refusal, Statement, ZERO_RECORD};

// A refused load: why, and the memory for instructions, cleared.
#[derive(Drop)]
pub struct RefusedLoad<'a> {
    pub fault: Fault,
    pub code: &'a mut [Instruction],
}

// Puts `zero` into each cell.
fn clear<T: Copy>(memory: &mut [T], zero: T)
    ensures { memory.new ≡ replicate (length memory.old) zero }
{
    Table::new(memory).clear(zero);
}

// The fault of a stage that knows no place; 0 stands for it, as the published table has it.
fn unplaced(stage: Stage, item: Refusal) -> Fault
    ensures { result ≡ fault stage (placed 0 item) }
{
    Fault {
        stage,
        cause: Placed { place: 0, item },
    }
}

// Reads the text and flattens its sheet; answers how many flat statements there are. The memories stay apart, since the
// caller lends each by itself.
fn prepare(
    text: &[u8],
    records: &mut [Placed<Statement>],
    flats: &mut [Placed<Flat>],
) -> Result<usize, Fault>
    ensures { MatchResult result
        (λ n. Prepared text.now (length records.old) (length flats.old) n records.new flats.new)
        (λ e. ((c : ℕ) → LoadRefuses text.now (length records.old) (length flats.old) c e)
        × (e.stage ≡ Read → records.new ≡ cleared (length records.old))) }
{
    let statements = read(text, records).map_err(|cause| Fault {
        stage: Stage::Read,
        cause,
    })?;
    flatten(&records[..statements], flats).map_err(|item| unplaced(Stage::Flatten, item))
}

// Lays the code of the sheet that the text spells into an empty draft.
fn lay_sheet(
    text: &[u8],
    records: &mut [Placed<Statement>],
    flats: &mut [Placed<Flat>],
    draft: &mut Draft,
) -> Result<(), Fault>
    requires { laid draft.old ≡ 0 }
    ensures laid { MatchResult result
        (λ _. SheetLaid text.now (length records.old) (length flats.old) records.new flats.new draft.old draft.new)
        (λ e. LoadRefuses text.now (length records.old) (length flats.old) (length (draft_memory draft.old)) e
        × (e.stage ≡ Read → records.new ≡ cleared (length records.old))) }
    ensures room { length (draft_memory draft.new) ≡ length (draft_memory draft.old) }
    ensures lent { draft_lent draft.new ≡ draft_lent draft.old }
{
    let count = prepare(text, records, flats)?;
    lay_code(&flats[..count], draft).map_err(|item| unplaced(Stage::Lay, item))
}

// Refuses with a fault, and clears all three memories. A read that refuses has cleared the records already.
fn give_up<'a>(
    fault: Fault,
    records: &mut [Placed<Statement>],
    flats: &mut [Placed<Flat>],
    draft: Draft<'a>,
) -> RefusedLoad<'a>
    requires { fault.stage ≡ Read → records.old ≡ cleared (length records.old) }
    ensures fault { result.fault ≡ fault }
    ensures code { result.code.now ≡ cleared_code (length (draft_memory draft.entry)) }
    ensures lent { result.code.ghost_name ≡ draft_lent draft.entry }
    ensures records { records.new ≡ cleared (length records.old) }
    ensures flats { flats.new ≡ cleared_flats (length flats.old) }
{
    let code = draft.give_back();
    clear(code, HALT);
    clear(flats, ZERO_FLAT);
    if fault.stage != Stage::Read {
        clear(records, ZERO_RECORD);
    }
    RefusedLoad { fault, code }
}

// Reads the text of a sheet, flattens it, lays its code and seals it. The memory behind what is filled is cleared; a refusal clears all of it.
pub fn load<'a>(
    text: &[u8],
    records: &mut [Placed<Statement>],
    flats: &mut [Placed<Flat>],
    code: &'a mut [Instruction],
) -> Result<SealedCode<'a>, RefusedLoad<'a>>
    ensures { MatchResult result
        (λ s. Loaded text.now (length records.old) (length flats.old) (length code.old) records.new flats.new s
        × (sealed_lent s ≡ code.entry.ghost_name))
        (λ e. LoadRefuses text.now (length records.old) (length flats.old) (length code.old) e.fault
        × (records.new ≡ cleared (length records.old)) × (flats.new ≡ cleared_flats (length flats.old))
        × (e.code.now ≡ cleared_code (length code.old)) × (e.code.ghost_name ≡ code.entry.ghost_name)) }
{
    let mut draft = Draft::new(code);
    if let Err(fault) = lay_sheet(text, records, flats, &mut draft) {
        return Err(give_up(fault, records, flats, draft));
    }
    // No `map_err`: the check does not know what the memories hold after a closure that gives up.
    match draft.seal() {
        Ok(sealed) => Ok(sealed),
        Err((refusal, draft)) => Err(give_up(
            unplaced(Stage::Seal, refusal),
            records,
            flats,
            draft,
        )),
    }
}
