// One step of an operation over a store. A rehearsal's step is one of a statement, and has a module of its own.
ghost use Rattle.std.specs.Prelude.{◌≡◌, ℕ, suc, ◌^◌, ◌<◌, false};
ghost use Rattle.caption_box.specs.declared.types.State.TheVariants.{Time};
ghost use Rattle.caption_box.specs.Left.{Leaves};
ghost use Rattle.caption_box.specs.Stepping.{fate as fate_of, stored as stored_by, label_after, finds_more};

use crate::access::{get, plus_fate, put};
use crate::types::State;
use stores::store::Store;
use translator::types::Operation;

// How an operation of a code of that size stands that is next, where n registers may be named.
pub(super) fn fate<S: Store>(operation: Operation, n: usize, size: usize, store: &S) -> State
    ensures { result ≡ fate_of (S.Store.limit store.now) n size (S.Store.numbers store.now) operation }
{
    if !operation.fits(n, size) {
        return State::Unfit;
    }
    match operation {
        Operation::Halt => State::Ended,
        Operation::Plus {
            source,
            constant,
            ..
        } => plus_fate(store, source, constant),
        Operation::Minus { .. } | Operation::If { .. } | Operation::Goto { .. } => State::Time,
    }
}

// Where an operation leads, as an index, and whether it is a test that found another number than 0. The one does not tell
// the other: a jump may lead to the next instruction too.
#[derive(Clone, Copy)]
pub(super) struct Moved {
    pub(super) next: usize,
    pub(super) found: bool,
}

impl Moved {
    // To an index, by no such test.
    fn to(next: usize) -> Moved
        ensures next { result.next ≡ next }
        ensures found { result.found ≡ false }
    {
        Moved { next, found: false }
    }
}

// Does an operation that can be done; it stands at the index `at`.
pub(super) fn perform<S: Store>(operation: Operation, at: usize, store: &mut S) -> Moved
    requires room { suc at < 2 ^ 64 }
    requires time { (n size : ℕ) × (fate_of (S.Store.limit store.old) n size (S.Store.numbers store.old) operation ≡ Time) }
    ensures left { Leaves S.Store store.old (stored_by (S.Store.numbers store.old) operation) store.new }
    ensures next { suc result.next ≡ label_after (S.Store.numbers store.old) (suc at) operation }
    ensures found { result.found ≡ finds_more (S.Store.numbers store.old) operation }
{
    match operation {
        Operation::Halt => Moved::to(at),
        Operation::Plus {
            target,
            source,
            constant,
        } => {
            let v = get(store, source);
            put(store, target, v + constant);
            Moved::to(at + 1)
        }
        Operation::Minus {
            target,
            source,
            constant,
        } => {
            let v = get(store, source);
            put(store, target, v.saturating_sub(constant));
            Moved::to(at + 1)
        }
        Operation::If { source, label } => {
            if get(store, source) == 0 {
                Moved::to(label - 1)
            } else {
                Moved {
                    next: at + 1,
                    found: true,
                }
            }
        }
        Operation::Goto { label } => Moved::to(label - 1),
    }
}
