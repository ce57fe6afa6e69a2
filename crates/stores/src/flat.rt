// A store that keeps each number in 32 bits of lent memory. docs/STORES.md has the rules.
ghost use Rattle.std.specs.Prelude.{◌≡◌, ℕ, ◌<◌, min, length, slice_index, slice_set};
ghost use Rattle.stores.specs.Stores.{Sound, write_of, written_of};
ghost use Rattle.stores.specs.declared.flat.TheConstants.{TOP};
ghost use Rattle.stores.specs.Flats.{flats, spare};
ghost use Rattle.stores.specs.Zeros.{zeros, cleared};

use crate::limits::counted;
use crate::store::Store;
use reader::types::Refusal;

// The largest number that a cell holds.
const TOP: u32 = u32::MAX;

// The numbers are the first cells; none is above the top.
// That a call leaves the same memory, and the rest of it as it was, is a clause of its own, since no type says what is
// left behind a `&mut`.
#[derive(Drop)]
pub struct FlatStore<'a> {
    cells: &'a mut [u32],
    ghost fits: { Sound (flats cells.now) TOP },
}

// Sets the cells that hold numbers to 0.
fn clear(cells: &mut [u32])
    ensures fits { Sound (flats cells.new) TOP }
    ensures zero { flats cells.new ≡ zeros (min 4096 (length cells.old)) }
    ensures memory { cells.new ≡ cleared (min 4096 (length cells.old)) cells.old }
{
    let n = counted(cells.len());
    cells[..n].fill(0);
}

impl<'a> FlatStore<'a> {
    // A store over these cells. All its numbers are 0.
    pub fn new(cells: &'a mut [u32]) -> FlatStore<'a>
        ensures zero { flats result.cells.now ≡ zeros (min 4096 (length cells.old)) }
        ensures memory { result.cells.now ≡ cleared (min 4096 (length cells.old)) cells.old }
        ensures lent { result.cells.ghost_name ≡ cells.entry.ghost_name }
    {
        clear(cells);
        FlatStore { cells }
    }

    // Lets the memory go again, as it is. Each store has its own `close`, since what it lets go is of its own type.
    pub fn close(self)
        ensures { self.exit.0.now ≡ self.entry.cells.now }
    {
        let FlatStore { cells: _ } = self;
    }

    // The numbers.
    fn numbers(&self) -> &[u32]
        ensures { result.now ≡ flats self.now.cells.now }
    {
        &self.cells[..counted(self.cells.len())]
    }

    // Puts v at i.
    fn put(&mut self, i: usize, v: u32)
        requires { i < length (flats self.old.cells.now) }
        ensures numbers { flats self.new.cells.now ≡ slice_set (flats self.old.cells.now) i v }
        ensures rest { spare self.new.cells.now ≡ spare self.old.cells.now }
        ensures lent { self.new.cells.ghost_name ≡ self.old.cells.ghost_name }
    {
        self.cells[i] = v;
    }
}

impl<'a> Store for FlatStore<'a> {
    ghost numbers = { λ s. flats s.cells.now };

    ghost limit = { λ _. TOP };

    fn count(&self) -> usize {
        self.numbers().len()
    }

    fn top(&self) -> u32 {
        TOP
    }

    fn read(&self, i: usize) -> Result<u32, Refusal> {
        self.numbers().get(i).copied().ok_or(Refusal::NoRegister)
    }

    // The clauses past those of every store say that the memory is the same, and that its other cells stay.
    fn write(&mut self, i: usize, v: u32) -> Result<(), Refusal>
        ensures answer { result ≡ write_of (flats self.old.cells.now) TOP i v }
        ensures written { flats self.new.cells.now ≡ written_of (flats self.old.cells.now) TOP i v }
        ensures rest { spare self.new.cells.now ≡ spare self.old.cells.now }
        ensures lent { self.new.cells.ghost_name ≡ self.old.cells.ghost_name }
    {
        if i >= self.count() {
            return Err(Refusal::NoRegister);
        }
        self.put(i, v);
        Ok(())
    }
}
