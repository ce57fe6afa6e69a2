// What stays from line to line besides the store.
use crate::answer::{Answer, NotDone, Reply};
use crate::line::{Call, Order, RunKind};
use crate::run::Run;
use crate::twins::Twins;
use crate::view::View;
use reader::limits::STATEMENTS;
use reader::types::{Placed, Statement};
use stores::store::Store;
use stores::window::Window;

// The run, the part of the store that its calls are given (there is none before a store is made), and memory for the
// statements of the sheets to come.
#[derive(Drop)]
pub struct Desk<'c> {
    pub run: Run<'c>,
    pub view: Option<View>,
    pub records: &'c mut [Placed<Statement>],
}

impl<'c> Desk<'c> {
    // Loads a sheet, if the script had a whole one.
    pub fn load(self, sheet: Option<&[u8]>) -> (Desk<'c>, Reply) {
        let Some(text) = sheet else {
            return (self, Err(NotDone::Unfinished));
        };
        let Desk { run, view, records } = self;
        let room = room_for(text).min(records.len());
        let (front, records) = records.split_at_mut(room);
        let (run, reply) = run.load(text, front);
        (Desk { run, view, records }, reply)
    }

    // Does what a line says on the stores, and answers it.
    pub fn obey<S: Store>(self, stores: &mut Twins<S, S>, order: Order) -> (Desk<'c>, Reply) {
        let Desk {
            mut run,
            view,
            records,
        } = self;
        match order {
            Order::Window(upper) => {
                let (view, reply) = narrow(view, stores, upper);
                (Desk { run, view, records }, reply)
            }
            Order::Start(kind, inputs) => {
                let (run, reply) = start(run, view, kind, stores, inputs.as_slice());
                (Desk { run, view, records }, reply)
            }
            Order::Call(call) => {
                let reply = pass_on(&mut run, view, stores, &call);
                (Desk { run, view, records }, reply)
            }
        }
    }
}

// Records enough for each sheet of that text: a statement and what parts it from the next have nine bytes at least.
pub fn room_for(text: &[u8]) -> usize {
    (text.len() / 8 + 1).min(STATEMENTS)
}

// Puts a window over the one that there is.
fn narrow<S: Store>(
    view: Option<View>,
    stores: &mut Twins<S, S>,
    upper: View,
) -> (Option<View>, Reply) {
    let Some(view) = view else {
        return (None, Err(NotDone::NoStore));
    };
    let view = view.narrowed(upper);
    let Twins { first, second } = stores.windows(view);
    let answer = Answer::of_store(&first);
    close_both(first, second);
    (Some(view), Ok(answer))
}

fn start<'c, S: Store>(
    run: Run<'c>,
    view: Option<View>,
    kind: RunKind,
    stores: &mut Twins<S, S>,
    inputs: &[u32],
) -> (Run<'c>, Reply) {
    let Some(view) = view else {
        return (run, Err(NotDone::NoStore));
    };
    let mut windows = stores.windows(view);
    let started = run.start(kind, &mut windows, inputs);
    let Twins { first, second } = windows;
    close_both(first, second);
    started
}

fn pass_on<S: Store>(
    run: &mut Run<'_>,
    view: Option<View>,
    stores: &mut Twins<S, S>,
    call: &Call,
) -> Reply {
    let view = view.ok_or(NotDone::NoRun)?;
    let mut windows = stores.windows(view);
    let reply = run.call(&mut windows, call);
    let Twins { first, second } = windows;
    close_both(first, second);
    reply
}

// Lets both windows go. Each is a parameter of its own: the borrow checker does not cover yet that a parameter which holds
// both is taken apart.
fn close_both<S: Store, T: Store>(first: Window<'_, S>, second: Window<'_, T>) {
    first.close();
    second.close();
}
