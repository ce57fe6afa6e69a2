// What the calls of shows and of rehearsals refuse alike. The calls themselves stay two: each names its width and the type of
// its tallies, and what else stands in them is which of these it asks, in the order of the table.
ghost use Rattle.std.specs.Prelude.{◌≡◌, ◌+◌, cond, length, Ok, Err, nat_lt};
ghost use Rattle.reader.specs.declared.types.Refusal.TheVariants.{NoRegister, SmallStore, LongTick, LongShow};
ghost use Rattle.stores.specs.Stores.{Sound, read_of};

use reader::types::Refusal;
use stores::store::Store;

// How many registers a sheet can name: x0 to x31.
pub(crate) const NAMED: usize = 32;

// The longest tick.
const LONGEST_TICK: u32 = 4_096;

// The most that a tick may raise a tally to: 2 ^ 40.
const LARGEST_TALLY: u64 = 1_099_511_627_776;

// Refuses a store with fewer than n numbers.
pub(crate) fn check_width<S: Store>(store: &S, n: usize) -> Result<(), Refusal>
    ensures sound { Sound (S.Store.numbers store.now) (S.Store.limit store.now) }
    ensures answer { result ≡ cond (nat_lt (length (S.Store.numbers store.now)) n) (Err SmallStore) (Ok tt) }
{
    if store.count() < n {
        Err(Refusal::SmallStore)
    } else {
        Ok(())
    }
}

// Refuses a tick of k that is too long, or that might raise the tally too far.
pub(crate) fn check_tick(k: u32, tally: u64) -> Result<(), Refusal>
    ensures { result ≡ cond (nat_lt 4096 k) (Err LongTick) (cond (nat_lt 1099511627776 (tally + k)) (Err LongShow) (Ok tt)) }
{
    if k > LONGEST_TICK {
        Err(Refusal::LongTick)
    } else if tally > LARGEST_TALLY - u64::from(k) {
        Err(Refusal::LongShow)
    } else {
        Ok(())
    }
}

// Refuses a register that no sheet can name.
pub(crate) fn check_register(i: usize) -> Result<(), Refusal>
    ensures { result ≡ cond (nat_lt 31 i) (Err NoRegister) (Ok tt) }
{
    if i >= NAMED {
        Err(Refusal::NoRegister)
    } else {
        Ok(())
    }
}

// The number of a register that a sheet can name.
pub(crate) fn register<S: Store>(store: &S, i: usize) -> Result<u32, Refusal>
    ensures { result ≡ cond (nat_lt 31 i) (Err NoRegister) (read_of (S.Store.numbers store.now) i) }
{
    check_register(i)?;
    store.read(i)
}
