// What the calls go to: a show, a rehearsal, or both beside each other.
ghost use Rattle.std.specs.Prelude.{◌≤◌, length};

use crate::answer::{Answer, Counts, NotDone, Reply};
use crate::calls::{done, make_call};
use crate::compare::Pair;
use crate::line::{Call, RunKind};
use crate::twins::Twins;
use caption_box::rehearsal::Rehearsal;
use caption_box::show::Show;
use reader::types::{Kind, Placed, Statement};
use stores::store::Store;
use survey::depth;
use translator::draft::SealedCode;
use translator::limits::FLATS;
use translator::load::{RefusedLoad, load};
use translator::types::{Instruction, ZERO_FLAT};

// The code of a sheet, and its statements.
#[derive(Drop)]
pub struct Loaded<'c> {
    sealed: SealedCode<'c>,
    records: &'c [Placed<Statement>],
}

// How far a run has come: there is only memory for code; a sheet is loaded; or a show, a rehearsal or both run it.
#[derive(Drop)]
pub enum Run<'c> {
    Bare(&'c mut [Instruction]),
    Loaded(Loaded<'c>),
    Showing(Show<'c>, &'c [Placed<Statement>]),
    Rehearsing(Rehearsal<'c>, SealedCode<'c>),
    Comparing(Pair<'c>),
}

impl<'c> Run<'c> {
    // Ends what runs. The sheet stays loaded.
    fn put_away(self) -> Run<'c> {
        match self {
            Run::Bare(memory) => Run::Bare(memory),
            Run::Loaded(loaded) => Run::Loaded(loaded),
            Run::Showing(show, records) => Run::Loaded(Loaded {
                sealed: show.put_away(),
                records,
            }),
            Run::Rehearsing(rehearsal, sealed) => Run::Loaded(Loaded {
                sealed,
                records: rehearsal.put_away(),
            }),
            Run::Comparing(pair) => Run::Loaded(Loaded {
                sealed: pair.show.put_away(),
                records: pair.rehearsal.put_away(),
            }),
        }
    }

    // The memory for code, with what it holds.
    fn into_memory(self) -> &'c mut [Instruction] {
        match self {
            Run::Bare(memory) => memory,
            Run::Loaded(loaded) => loaded.sealed.give_back(),
            Run::Showing(show, _) => show.put_away().give_back(),
            Run::Rehearsing(_, sealed) => sealed.give_back(),
            Run::Comparing(pair) => pair.show.put_away().give_back(),
        }
    }

    // Loads a sheet in the place of what there was.
    pub fn load(self, text: &[u8], records: &'c mut [Placed<Statement>]) -> (Run<'c>, Reply) {
        load_into(self.into_memory(), records, text)
    }

    // Starts a run in the place of the one that there is, if any.
    pub fn start<S: Store, T: Store>(
        self,
        kind: RunKind,
        stores: &mut Twins<S, T>,
        inputs: &[u32],
    ) -> (Run<'c>, Reply) {
        match self.put_away() {
            Run::Loaded(loaded) => match kind {
                RunKind::Show => loaded.start_show(stores, inputs),
                RunKind::Rehearsal => loaded.start_rehearsal(stores, inputs),
                RunKind::Both => loaded.start_both(stores, inputs),
            },
            bare => (bare, Err(NotDone::NoSheet)),
        }
    }

    // Passes a call on to what runs.
    pub fn call<S: Store, T: Store>(&mut self, stores: &mut Twins<S, T>, call: &Call) -> Reply {
        let answer = match self {
            Run::Bare(_) | Run::Loaded(_) => return Err(NotDone::NoRun),
            Run::Showing(show, _) => make_call(show, stores, call)?,
            Run::Rehearsing(rehearsal, _) => make_call(rehearsal, stores, call)?,
            Run::Comparing(pair) => make_call(pair, stores, call)?,
        };
        Ok(answer)
    }
}

impl<'c> Loaded<'c> {
    // The three begin alike. One function over what begins, with a closure that makes the run of it, was tried: the check
    // makes no proof of such a function.
    fn start_show<S: Store, T: Store>(
        self,
        stores: &mut Twins<S, T>,
        inputs: &[u32],
    ) -> (Run<'c>, Reply) {
        let Loaded { sealed, records } = self;
        match Show::start(sealed, &mut stores.first, inputs) {
            Ok(show) => {
                let reply = done(&show, stores).map_err(NotDone::Refused);
                (Run::Showing(show, records), reply)
            }
            Err(refused) => {
                let loaded = Loaded {
                    sealed: refused.sealed,
                    records,
                };
                (Run::Loaded(loaded), Err(NotDone::Refused(refused.refusal)))
            }
        }
    }

    fn start_rehearsal<S: Store, T: Store>(
        self,
        stores: &mut Twins<S, T>,
        inputs: &[u32],
    ) -> (Run<'c>, Reply) {
        let Loaded { sealed, records } = self;
        match Rehearsal::start(records, &mut stores.first, inputs) {
            Ok(rehearsal) => {
                let reply = done(&rehearsal, stores).map_err(NotDone::Refused);
                (Run::Rehearsing(rehearsal, sealed), reply)
            }
            Err(refusal) => (
                Run::Loaded(Loaded { sealed, records }),
                Err(NotDone::Refused(refusal)),
            ),
        }
    }

    // A show on the first store, and a rehearsal on the second.
    fn start_both<S: Store, T: Store>(
        self,
        stores: &mut Twins<S, T>,
        inputs: &[u32],
    ) -> (Run<'c>, Reply) {
        let (run, reply) = self.start_show(stores, inputs);
        let Run::Showing(show, records) = run else {
            return (run, reply);
        };
        match Rehearsal::start(records, &mut stores.second, inputs) {
            Ok(rehearsal) => {
                let pair = Pair { show, rehearsal };
                let reply = done(&pair, stores).map_err(NotDone::Refused);
                (Run::Comparing(pair), reply)
            }
            Err(refusal) => (Run::Showing(show, records), Err(NotDone::Refused(refusal))),
        }
    }
}

fn load_into<'c>(
    memory: &'c mut [Instruction],
    records: &'c mut [Placed<Statement>],
    text: &[u8],
) -> (Run<'c>, Reply) {
    let mut flats = [ZERO_FLAT; FLATS];
    match load(text, records, &mut flats, memory) {
        Ok(sealed) => {
            let records = sheet_of(records);
            let answer = Answer::Sheet(Counts {
                statements: records.len(),
                depth: depth(records),
                instructions: sealed.len(),
                registers: sealed.registers(),
            });
            (Run::Loaded(Loaded { sealed, records }), Ok(answer))
        }
        Err(RefusedLoad { fault, code }) => {
            (Run::Bare(code), Err(NotDone::RefusedAt(fault.cause)))
        }
    }
}

// The statements at the front of the memory.
fn sheet_of<'c>(records: &'c [Placed<Statement>]) -> &'c [Placed<Statement>] {
    &records[0..statements(records)]
}

// How many of the records are statements.
fn statements(records: &[Placed<Statement>]) -> usize
    ensures { result ≤ length records.now }
{
    records
        .iter()
        .filter(|record| record.item.kind != Kind::Zero)
        .count()
}
