// The beginning of a run: inputs into the registers.
ghost use Rattle.std.specs.Prelude.{◌≡◌, ◌≤◌, true, ◌++◌, length, drop};
ghost use Rattle.stores.specs.Stores.{Sound};
ghost use Rattle.caption_box.specs.Left.{Leaves};
ghost use Rattle.caption_box.specs.Seats.{all_below, entered as entered_in, input_at};
ghost use Rattle.caption_box.specs.Calls.{seats, seated};

use crate::access::put;
use crate::guards::{NAMED, check_width};
use reader::types::Refusal;
use stores::store::Store;

// Whether no input is above the top.
fn all_fit(inputs: &[u32], top: u32) -> bool
    ensures { result ≡ all_below top inputs.now }
{
    inputs.iter().all(|v| *v <= top)
}

// The number that register i gets of the inputs.
fn input(inputs: &[u32], i: usize) -> u32
    ensures { result ≡ input_at inputs.now i }
{
    i.checked_sub(1)
        .and_then(|k| inputs.get(k))
        .copied()
        .unwrap_or(0)
}

// Puts the inputs into x1, x2 and on, and 0 into the other registers below n.
fn fill<S: Store>(n: usize, store: &mut S, inputs: &[u32])
    requires room { n ≤ length (S.Store.numbers store.old) }
    requires fit { all_below (S.Store.limit store.old) inputs.now ≡ true }
    ensures { Leaves S.Store store.old (entered_in n inputs.now ++ drop n (S.Store.numbers store.old)) store.new }
{
    for i in 0..n {
        put(store, i, input(inputs, i));
    }
}

// Puts a run that needs n registers to its beginning, unless the store or the inputs are refused.
pub(crate) fn seat<S: Store>(n: usize, store: &mut S, inputs: &[u32]) -> Result<(), Refusal>
    ensures sound { Sound (S.Store.numbers store.old) (S.Store.limit store.old) }
    ensures answer { result ≡ seats n (S.Store.limit store.old) (S.Store.numbers store.old) inputs.now }
    ensures left { Leaves S.Store store.old (seated n (S.Store.limit store.old) (S.Store.numbers store.old) inputs.now) store.new }
{
    check_width(store, n)?;
    if inputs.len() >= NAMED {
        return Err(Refusal::ManyInputs);
    }
    if !all_fit(inputs, store.top()) {
        return Err(Refusal::OverTop);
    }
    fill(n, store, inputs);
    Ok(())
}
