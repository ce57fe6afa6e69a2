ghost use Rattle.std.specs.Prelude.{◌≡◌, ℕ, ◌-◌, ◌<◌, ◌++◌, length, take, slice_set};
ghost use Rattle.reader.specs.Records.{cleared};

// Each call makes a table of its own: of a table that the parser holds, the check does not know what the lent memory is
// left with. The three are left as they are, for what they share is that one line.
use crate::types::{Placed, Statement, ZERO_RECORD};
use filing::table::Table;

// Files a record behind the first `filed`, if there is memory for it.
pub(super) fn file_record(
    records: &mut [Placed<Statement>],
    filed: usize,
    record: Placed<Statement>,
)
    ensures { records.new ≡ slice_set records.old filed «record» }
{
    let mut table = Table::over(records, filed);
    let _ = table.file(record);
}

// Puts a record in the place of the one at `index`, one of the first `filed`, if there is memory for it.
pub(super) fn amend_record(
    records: &mut [Placed<Statement>],
    filed: usize,
    index: usize,
    record: Placed<Statement>,
)
    requires { index < filed }
    ensures { records.new ≡ slice_set records.old index «record» }
{
    let mut table = Table::over(records, filed);
    let _ = table.amend(index, record);
}

// Clears the memory behind the first `filed` records.
pub(crate) fn clear_from(records: &mut [Placed<Statement>], filed: usize)
    ensures { records.new ≡ take filed records.old ++ cleared (length records.old - filed) }
{
    let mut table = Table::over(records, filed);
    table.clear_rest(ZERO_RECORD);
}
