// Reading and writing the numbers of any store.
ghost use Rattle.std.specs.Prelude.{◌≡◌, ◌+◌, ◌≤◌, cond, nat_le, slice_index, slice_set};
ghost use Rattle.stores.specs.Stores.{Sound};
ghost use Rattle.caption_box.specs.Left.{Leaves};
ghost use Rattle.caption_box.specs.declared.types.State.TheVariants.{Over, Time};

use crate::types::State;
use stores::store::Store;

// Number i, and 0 past the last.
pub(crate) fn get<S: Store>(store: &S, i: usize) -> u32
    ensures sound { Sound (S.Store.numbers store.now) (S.Store.limit store.now) }
    ensures got { result ≡ slice_index (S.Store.numbers store.now) i }
{
    store.read(i).unwrap_or(0)
}

// Puts v, which is not above the top, at i; past the last number nothing changes.
pub(crate) fn put<S: Store>(store: &mut S, i: usize, v: u32)
    requires { v ≤ S.Store.limit store.old }
    ensures { Leaves S.Store store.old (slice_set (S.Store.numbers store.old) i v) store.new }
{
    let _ = store.write(i, v);
}

// How a plus stands that adds the constant to number i.
pub(crate) fn plus_fate<S: Store>(store: &S, i: usize, constant: u32) -> State
    ensures { result ≡ cond (nat_le (slice_index (S.Store.numbers store.now) i + constant) (S.Store.limit store.now)) Time Over }
{
    let sum = u64::from(get(store, i)) + u64::from(constant);
    if sum <= u64::from(store.top()) {
        State::Time
    } else {
        State::Over
    }
}
