// One written step of a statement over a store.
ghost use Rattle.std.specs.Prelude.{◌≡◌};
ghost use Rattle.caption_box.specs.declared.types.State.TheVariants.{Time};
ghost use Rattle.caption_box.specs.Left.{Leaves};
ghost use Rattle.caption_box.specs.WrittenSteps.{found_in, written_fate, written_stored};

use crate::access::{get, plus_fate, put};
use crate::guards::NAMED;
use crate::types::State;
use reader::types::{Kind, Statement};
use stores::store::Store;

// How a statement stands that is next.
pub(super) fn fate<S: Store>(statement: Statement, store: &S) -> State
    ensures { result ≡ written_fate (S.Store.limit store.now) (S.Store.numbers store.now) statement }
{
    if statement.target >= NAMED || statement.source >= NAMED {
        return State::Unfit;
    }
    match statement.kind {
        Kind::Zero => State::Ended,
        Kind::Plus => plus_fate(store, statement.source, statement.constant),
        Kind::Minus | Kind::Loop | Kind::While => State::Time,
    }
}

// Does to the registers what a statement that can be done does, and tells what its source held.
pub(super) fn perform<S: Store>(statement: Statement, store: &mut S) -> u32
    requires { written_fate (S.Store.limit store.old) (S.Store.numbers store.old) statement ≡ Time }
    ensures left { Leaves S.Store store.old (written_stored statement.kind (S.Store.numbers store.old) statement) store.new }
    ensures found { result ≡ found_in (S.Store.numbers store.old) statement }
{
    let found = get(store, statement.source);
    match statement.kind {
        Kind::Plus => put(store, statement.target, found + statement.constant),
        Kind::Minus => put(
            store,
            statement.target,
            found.saturating_sub(statement.constant),
        ),
        Kind::Zero | Kind::Loop | Kind::While => {}
    }
    found
}
