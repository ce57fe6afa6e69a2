// A store over part of another store. docs/STORES.md has the rules.
ghost use Rattle.std.specs.Prelude.{◌≡◌, ◌-◌, ◌≤◌, min, length, MatchResult};
ghost use Rattle.reader.specs.declared.types.Refusal.TheVariants.{NoRegister};
ghost use Rattle.stores.specs.Stores.{Sound, write_of, written_of};
ghost use Rattle.stores.specs.Windows.{seen, written_below, Stands};

use crate::store::Store;
use reader::types::Refusal;

// Number i is number base + i of the store below. What a call leaves below is a clause of its own, as in the other stores.
#[derive(Drop)]
pub struct Window<'a, S> {
    below: &'a mut S,
    base: usize,
    len: usize,
}

// How many of count numbers a window of len from base on shows.
fn shown(count: usize, base: usize, len: usize) -> usize
    ensures { result ≡ min len (count - base) }
{
    count.saturating_sub(base).min(len)
}

impl<'a, S: Store> Window<'a, S> {
    // A window on the store below, of len numbers from base on. It writes nothing.
    pub fn open(below: &'a mut S, base: usize, len: usize) -> Window<'a, S>
        ensures below { result.below.now ≡ below.old }
        ensures place { (result.base ≡ base) × (result.len ≡ len) }
        ensures lent { result.below.ghost_name ≡ below.entry.ghost_name }
    {
        Window { below, base, len }
    }

    // Lets the store below go again, as it is.
    pub fn close(self)
        ensures { self.exit.0.now ≡ self.entry.below.now }
    {
        let Window { below: _, .. } = self;
    }

    // Where number i of the window stands below.
    fn place(&self, i: usize) -> Result<usize, Refusal>
        ensures sound { Sound (seen (S.Store.numbers self.now.below.now) self.now.base self.now.len) (S.Store.limit self.now.below.now) }
        ensures place { MatchResult result
            (λ at. Stands (S.Store.numbers self.now.below.now) (S.Store.limit self.now.below.now) self.now.base self.now.len i at)
            (λ e. (e ≡ NoRegister) × (length (seen (S.Store.numbers self.now.below.now) self.now.base self.now.len) ≤ i)) }
    {
        if i < shown(self.below.count(), self.base, self.len) {
            Ok(self.base + i)
        } else {
            Err(Refusal::NoRegister)
        }
    }
}

impl<'a, S: Store> Store for Window<'a, S> {
    ghost numbers = { λ w. seen (S.Store.numbers w.below.now) w.base w.len };

    ghost limit = { λ w. S.Store.limit w.below.now };

    fn count(&self) -> usize {
        shown(self.below.count(), self.base, self.len)
    }

    fn top(&self) -> u32 {
        self.below.top()
    }

    fn read(&self, i: usize) -> Result<u32, Refusal> {
        let at = self.place(i)?;
        self.below.read(at)
    }

    // The clauses past those of every store say what the store below then holds, and that it is the same store.
    fn write(&mut self, i: usize, v: u32) -> Result<(), Refusal>
        ensures same { S.Store.limit self.new.below.now ≡ S.Store.limit self.old.below.now }
        ensures answer { result ≡ write_of (seen (S.Store.numbers self.old.below.now) self.old.base self.old.len) (S.Store.limit self.old.below.now) i v }
        ensures written { seen (S.Store.numbers self.new.below.now) self.new.base self.new.len ≡ written_of (seen (S.Store.numbers self.old.below.now) self.old.base self.old.len) (S.Store.limit self.old.below.now) i v }
        ensures below { S.Store.numbers self.new.below.now ≡ written_below (S.Store.numbers self.old.below.now) (S.Store.limit self.old.below.now) self.old.base self.old.len i v }
        ensures place { (self.new.base ≡ self.old.base) × (self.new.len ≡ self.old.len) }
        ensures lent { self.new.below.ghost_name ≡ self.old.below.ghost_name }
    {
        let at = self.place(i)?;
        self.below.write(at, v)
    }
}
