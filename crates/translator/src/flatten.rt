// Turns the statement records of a sheet into flat statements.
ghost use Rattle.std.specs.Prelude.{◌≡◌, ℕ, suc, ◌+◌, ◌^◌, ◌<◌, ◌≤◌, List, length, MatchResult, slice_set};
ghost use Rattle.reader.specs.declared.types.Refusal.TheVariants.{FlatFull};
ghost use Rattle.reader.specs.declared.types.Kind.TheVariants as kinds;
ghost use Rattle.reader.specs.Sheet.{Sheet, loops};
ghost use Rattle.reader.specs.Symbols.{placed};
ghost use Rattle.reader.specs.Records.{statement_of};
ghost use Rattle.filing.specs.Tables.{memory, count, lent};
ghost use Rattle.translator.specs.Counters.{counters_end};
ghost use Rattle.translator.specs.Translation.{flat, flat_size};
ghost use Rattle.translator.specs.Flattening.{RecordSpan, flat_of, OneFiled, LoopOpened, FlatsFiled, StatementFlat, FlatsOver, Flattened};

use crate::types::{Flat, Role, ZERO_FLAT};
use filing::table::Table;
use reader::types::{Kind, Placed, Refusal, Statement};

// Files one flat statement and answers its index.
fn file(
    flats: &mut Table<Placed<Flat>>,
    place: usize,
    statement: Statement,
    role: Role,
) -> Result<usize, Refusal>
    ensures filed { MatchResult result
        (λ i. (i ≡ count flats.old) × OneFiled (placed place (flat_of statement role)) flats.old flats.new)
        (λ e. (e ≡ FlatFull) × (length (memory flats.old) ≤ count flats.old)) }
    ensures room { length (memory flats.new) ≡ length (memory flats.old) }
    ensures lent { lent flats.new ≡ lent flats.old }
{
    let item = Flat { statement, role };
    flats.file(Placed { place, item }).ok_or(Refusal::FlatFull)
}

// Files what a LOOP begins with, entry, test and countdown, and answers the index of the test, which has no end yet.
// `small`, `room` and `lent` stay clauses, here and below: where a struct held the table and such a fact, it was not proved
// what the memory holds once the struct is let go. So does the premise `sheet`: which part of which sheet the records are
// differs with each call.
fn open_loop(
    flats: &mut Table<Placed<Flat>>,
    place: usize,
    source: usize,
    counter: usize,
) -> Result<usize, Refusal>
    requires small { length (memory flats.old) < 2 ^ 60 }
    ensures opened { MatchResult result
        (λ i. LoopOpened place source counter flats.old i flats.new)
        (λ e. (e ≡ FlatFull) × (length (memory flats.old) < count flats.old + 3)) }
    ensures room { length (memory flats.new) ≡ length (memory flats.old) }
    ensures lent { lent flats.new ≡ lent flats.old }
{
    let index = flats.len();
    let entry = Statement {
        kind: Kind::Plus,
        target: counter,
        source,
        constant: 0,
        end: index + 1,
    };
    file(flats, place, entry, Role::Entry)?;
    let head = file(
        flats,
        place,
        Statement::block(Kind::While, counter, 0),
        Role::Test,
    )?;
    let down = Statement {
        kind: Kind::Minus,
        target: counter,
        source: counter,
        constant: 1,
        end: index + 3,
    };
    file(flats, place, down, Role::Down)?;
    Ok(head)
}

// Gives a WHILE, filed at an index, the end of all that is filed.
fn end_while(flats: &mut Table<Placed<Flat>>, head: usize, place: usize, source: usize, role: Role)
    requires { head < count flats.old }
    ensures count { count flats.new ≡ count flats.old }
    ensures memory { memory flats.new ≡ slice_set (memory flats.old) head (placed place (flat_of (statement_of kinds.While 0 source 0 (count flats.old)) role)) }
    ensures lent { lent flats.new ≡ lent flats.old }
{
    let statement = Statement::block(Kind::While, source, flats.len());
    let item = Flat { statement, role };
    flats.amend(head, Placed { place, item });
}

// Files the flat statements of the statement at an index, with its body, and answers the index behind it. `counter` is
// that of the next LOOP.
#[cycle(flatten_body_flatten_statement)]
fn flatten_statement(
    records: &[Placed<Statement>],
    at: usize,
    counter: &mut usize,
    flats: &mut Table<Placed<Flat>>,
) -> Result<usize, Refusal>
    requires sheet { (b : ℕ) × (p : Sheet) × (xs : List ℕ) × RecordSpan records.now at b p xs × (at < b) × (counters_end counter.old p ≤ 64) }
    requires small { length (memory flats.old) < 2 ^ 60 }
    ensures filed { MatchResult result
        (λ n. (at < n) × ((b : ℕ) (p : Sheet) (xs : List ℕ) → RecordSpan records.now at b p xs → at < b → StatementFlat records.now b p xs counter.old flats.old n counter.new flats.new))
        (λ e. (e ≡ FlatFull) × ((b : ℕ) (p : Sheet) (xs : List ℕ) → RecordSpan records.now at b p xs → at < b → FlatsOver p counter.old flats.old)) }
    ensures room { length (memory flats.new) ≡ length (memory flats.old) }
    ensures lent { lent flats.new ≡ lent flats.old }
{
    let found = records[at];
    let place = found.place;
    let item = found.item;
    match item.kind {
        Kind::Loop => {
            let own = *counter;
            let head = open_loop(flats, place, item.source, own)?;
            *counter = own + 1;
            flatten_body(records, at + 1, item.end, counter, flats)?;
            end_while(flats, head, place, own, Role::Test);
        }
        Kind::While => {
            let opened = Statement::block(Kind::While, item.source, 0);
            let head = file(flats, place, opened, Role::Written)?;
            flatten_body(records, at + 1, item.end, counter, flats)?;
            end_while(flats, head, place, item.source, Role::Written);
        }
        _ => {
            let end = flats.len() + 1;
            file(flats, place, Statement { end, ..item }, Role::Written)?;
        }
    }
    Ok(item.end)
}

// Files the flat statements of the records from one index up to another.
#[cycle(flatten_body_flatten_statement)]
fn flatten_body(
    records: &[Placed<Statement>],
    from: usize,
    to: usize,
    counter: &mut usize,
    flats: &mut Table<Placed<Flat>>,
) -> Result<(), Refusal>
    requires sheet { (p : Sheet) × (xs : List ℕ) × RecordSpan records.now from to p xs × (counters_end counter.old p ≤ 64) }
    requires small { length (memory flats.old) < 2 ^ 60 }
    ensures filed { MatchResult result
        (λ _. ((p : Sheet) (xs : List ℕ) → RecordSpan records.now from to p xs → FlatsFiled p xs counter.old flats.old counter.new flats.new))
        (λ e. (e ≡ FlatFull) × ((p : Sheet) (xs : List ℕ) → RecordSpan records.now from to p xs → FlatsOver p counter.old flats.old)) }
    ensures room { length (memory flats.new) ≡ length (memory flats.old) }
    ensures lent { lent flats.new ≡ lent flats.old }
{
    let mut at = from;
    while at < to {
        at = flatten_statement(records, at, counter, flats)?;
    }
    Ok(())
}

// Files the flat statements of a whole sheet, zero ones behind them, and answers how many there are.
fn file_sheet(
    records: &[Placed<Statement>],
    table: &mut Table<Placed<Flat>>,
) -> Result<usize, Refusal>
    requires sheet { (p : Sheet) × (xs : List ℕ) × RecordSpan records.now 0 (length records.now) p xs × (loops p ≤ 32) }
    requires empty { count table.old ≡ 0 }
    requires small { length (memory table.old) < 2 ^ 60 }
    ensures filed { MatchResult result
        (λ n. ((p : Sheet) (xs : List ℕ) → RecordSpan records.now 0 (length records.now) p xs → Flattened p xs (memory table.old) n (memory table.new)))
        (λ e. (e ≡ FlatFull) × ((p : Sheet) (xs : List ℕ) → RecordSpan records.now 0 (length records.now) p xs → length (memory table.old) < flat_size (flat p))) }
    ensures lent { lent table.new ≡ lent table.old }
{
    let mut counter = 32;
    flatten_body(records, 0, records.len(), &mut counter, table)?;
    table.clear_rest(ZERO_FLAT);
    Ok(table.len())
}

// Fills the memory with the flat statements of a sheet, zero ones behind them, and answers how many there are.
pub(crate) fn flatten(
    records: &[Placed<Statement>],
    memory: &mut [Placed<Flat>],
) -> Result<usize, Refusal>
    requires { (p : Sheet) × (xs : List ℕ) × RecordSpan records.now 0 (length records.now) p xs × (loops p ≤ 32) }
    ensures { MatchResult result
        (λ n. ((p : Sheet) (xs : List ℕ) → RecordSpan records.now 0 (length records.now) p xs → Flattened p xs memory.old n memory.new))
        (λ e. (e ≡ FlatFull) × ((p : Sheet) (xs : List ℕ) → RecordSpan records.now 0 (length records.now) p xs → length memory.old < flat_size (flat p))) }
{
    let mut table = Table::new(memory);
    file_sheet(records, &mut table)
}
