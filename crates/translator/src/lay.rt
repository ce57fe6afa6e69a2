// Lays the code of flat statements into a draft.
ghost use Rattle.std.specs.Prelude.{◌≡◌, ℕ, ◌<◌, length, MatchResult};
ghost use Rattle.reader.specs.declared.types.Refusal.TheVariants.{CodeFull};
ghost use Rattle.reader.specs.Sheet.{Sheet};
ghost use Rattle.translator.specs.Drafts.{draft_memory, draft_lent, laid};
ghost use Rattle.translator.specs.Translation.{FlatSheet, flat, compiled};
ghost use Rattle.translator.specs.Laying.{FlatSpan, CodeLaid, StatementLaid, RoundLaid, NoRoom, NoRoomForRound, Coded, assigned};

use crate::draft::{Draft, HALT};
use crate::types::{Flat, Instruction, Operation, Role};
use reader::types::{Kind, Placed, Refusal, Statement};

// The operation of an assignment.
fn assignment(statement: Statement) -> Operation
    ensures { result ≡ assigned statement.kind statement.target statement.source statement.constant }
{
    let Statement {
        kind,
        target,
        source,
        constant,
        ..
    } = statement;
    match kind {
        Kind::Plus => Operation::Plus {
            target,
            source,
            constant,
        },
        Kind::Minus => Operation::Minus {
            target,
            source,
            constant,
        },
        _ => Operation::Halt,
    }
}

// Lays the statement at an index, with its body, and answers the index behind it. Flat statements, bounds and draft stay
// apart, and the premise a clause, as in flattening: which part of which sheet it is differs with each call.
#[cycle(lay_flats_lay_round_lay_statement)]
fn lay_statement(flats: &[Placed<Flat>], at: usize, draft: &mut Draft) -> Result<usize, Refusal>
    requires { (b : ℕ) × (f : FlatSheet) × FlatSpan flats.now at b f × (at < b) }
    ensures laid { MatchResult result
        (λ n. (at < n) × ((b : ℕ) (f : FlatSheet) → FlatSpan flats.now at b f → at < b → StatementLaid flats.now b f draft.old n draft.new))
        (λ e. (e ≡ CodeFull) × ((b : ℕ) (f : FlatSheet) → FlatSpan flats.now at b f → at < b → NoRoom f draft.old)) }
    ensures room { length (draft_memory draft.new) ≡ length (draft_memory draft.old) }
    ensures lent { draft_lent draft.new ≡ draft_lent draft.old }
{
    let flat = flats[at].item;
    let statement = flat.statement;
    match statement.kind {
        Kind::While => {
            let label = draft.next_label();
            let jump = draft.test(statement.source, flat.role)?;
            match lay_round(flats, at + 1, statement.end, label, draft) {
                Ok(()) => jump.close(draft)?,
                // The open jump goes before the refusal does.
                Err(refusal) => {
                    let _ = jump.strike(draft);
                    return Err(refusal);
                }
            }
        }
        _ => draft.lay(Instruction {
            operation: assignment(statement),
            role: flat.role,
        })?,
    }
    Ok(statement.end)
}

// Lays the body of a WHILE, from one index up to another, and the jump back to its label.
#[cycle(lay_flats_lay_round_lay_statement)]
fn lay_round(
    flats: &[Placed<Flat>],
    from: usize,
    to: usize,
    label: usize,
    draft: &mut Draft,
) -> Result<(), Refusal>
    requires { (f : FlatSheet) × FlatSpan flats.now from to f }
    ensures laid { MatchResult result
        (λ _. ((f : FlatSheet) → FlatSpan flats.now from to f → RoundLaid f label draft.old draft.new))
        (λ e. (e ≡ CodeFull) × ((f : FlatSheet) → FlatSpan flats.now from to f → NoRoomForRound f draft.old)) }
    ensures room { length (draft_memory draft.new) ≡ length (draft_memory draft.old) }
    ensures lent { draft_lent draft.new ≡ draft_lent draft.old }
{
    lay_flats(flats, from, to, draft)?;
    draft.lay(Instruction {
        operation: Operation::Goto { label },
        role: Role::Jump,
    })
}

// Lays the statements from one index up to another.
#[cycle(lay_flats_lay_round_lay_statement)]
fn lay_flats(
    flats: &[Placed<Flat>],
    from: usize,
    to: usize,
    draft: &mut Draft,
) -> Result<(), Refusal>
    requires { (f : FlatSheet) × FlatSpan flats.now from to f }
    ensures laid { MatchResult result
        (λ _. ((f : FlatSheet) → FlatSpan flats.now from to f → CodeLaid f draft.old draft.new))
        (λ e. (e ≡ CodeFull) × ((f : FlatSheet) → FlatSpan flats.now from to f → NoRoom f draft.old)) }
    ensures room { length (draft_memory draft.new) ≡ length (draft_memory draft.old) }
    ensures lent { draft_lent draft.new ≡ draft_lent draft.old }
{
    let mut at = from;
    while at < to {
        at = lay_statement(flats, at, draft)?;
    }
    Ok(())
}

// Lays the code of a whole sheet, with HALT, into an empty draft, and clears the memory behind it.
pub(crate) fn lay_code(flats: &[Placed<Flat>], draft: &mut Draft) -> Result<(), Refusal>
    requires flats { (p : Sheet) × FlatSpan flats.now 0 (length flats.now) (flat p) }
    requires empty { laid draft.old ≡ 0 }
    ensures laid { MatchResult result
        (λ _. ((p : Sheet) → FlatSpan flats.now 0 (length flats.now) (flat p) → Coded p draft.old draft.new))
        (λ e. (e ≡ CodeFull) × ((p : Sheet) → FlatSpan flats.now 0 (length flats.now) (flat p) → length (draft_memory draft.old) < length (compiled p))) }
    ensures room { length (draft_memory draft.new) ≡ length (draft_memory draft.old) }
    ensures lent { draft_lent draft.new ≡ draft_lent draft.old }
{
    lay_flats(flats, 0, flats.len(), draft)?;
    draft.lay(HALT)?;
    draft.clear_rest();
    Ok(())
}
