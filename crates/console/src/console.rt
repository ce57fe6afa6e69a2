// The lines of a script, one after another.
ghost use Rattle.std.specs.Prelude.{IfOk};
ghost use Rattle.console.specs.Scripts.{Goes};

use crate::answer::{Answer, NotDone};
use crate::desk::Desk;
use crate::line::{Line, Make, parse};
use crate::run::Run;
use crate::script::Script;
use crate::twins::Twins;
use crate::view::View;
use reader::types::ZERO_RECORD;
use std::alloc::Global;
use std::io::Write;
use stores::decimal::DecimalStore;
use stores::flat::FlatStore;
use stores::limits::MOST;
use stores::store::Store;
use translator::draft::HALT;
use translator::limits::INSTRUCTIONS;

// Runs a script. The memory is enough for each sheet.
pub fn run_script<W: Write>(out: &mut W, heap: Global, text: &[u8]) -> anyhow::Result<()> {
    let mut code = [HALT; INSTRUCTIONS];
    // A sheet has six bytes before it, and a record for each eight of its own is enough (`room_for`).
    let mut records = vec![in heap; ZERO_RECORD; text.len() / 3 + 1]?;
    let mut none = [];
    let mut no_twin = [];
    let mut stores = Twins {
        first: FlatStore::new(&mut none),
        second: FlatStore::new(&mut no_twin),
    };
    let desk = Desk {
        run: Run::Bare(&mut code),
        view: None,
        records: records.as_mut_slice(),
    };
    let script = Script::new(text);
    let mut player = Player { out, heap, script };
    let (mut desk, mut next) = player.play(desk, &mut stores)?;
    while let Some(make) = next {
        (desk, next) = player.play_over(desk, make)?;
    }
    Ok(())
}

// A script that is played: where its answers go, memory for its lines, and what is still to come of it.
#[derive(Drop)]
struct Player<'p, 's, W> {
    out: &'p mut W,
    heap: Global,
    script: Script<'s>,
}

impl<'p, 's, W: Write> Player<'p, 's, W> {
    // Makes the stores, answers the line, and plays on them. That the script goes on (`Goes`) is a clause of all three, since
    // no type says what is left behind a `&mut`. The arms are alike, but no function can hand out stores over memory of its own.
    fn play_over<'c>(
        &mut self,
        desk: Desk<'c>,
        make: Make,
    ) -> anyhow::Result<(Desk<'c>, Option<Make>)>
        ensures { IfOk result (λ p. Goes self.old.script.rest.now p.1 self.new.script.rest.now) }
    {
        let view = Some(View::whole());
        let desk = Desk { view, ..desk };
        match make {
            Make::Flat(count) => {
                let mut cells = vec![in self.heap; 0u32; count.min(MOST)]?;
                let mut twin_cells = vec![in self.heap; 0u32; count.min(MOST)]?;
                let stores = Twins {
                    first: FlatStore::new(cells.as_mut_slice()),
                    second: FlatStore::new(twin_cells.as_mut_slice()),
                };
                self.play_on(desk, stores)
            }
            Make::Decimal(count) => {
                let mut bytes = vec![in self.heap; 0u8; 6 * count.min(MOST)]?;
                let mut twin_bytes = vec![in self.heap; 0u8; 6 * count.min(MOST)]?;
                let stores = Twins {
                    first: DecimalStore::new(bytes.as_mut_slice()),
                    second: DecimalStore::new(twin_bytes.as_mut_slice()),
                };
                self.play_on(desk, stores)
            }
        }
    }

    // Answers the line that made the stores, and plays on them.
    fn play_on<'c, S: Store + Drop>(
        &mut self,
        desk: Desk<'c>,
        mut stores: Twins<S, S>,
    ) -> anyhow::Result<(Desk<'c>, Option<Make>)>
        ensures { IfOk result (λ p. Goes self.old.script.rest.now p.1 self.new.script.rest.now) }
    {
        let answer = Answer::of_store(&stores.first);
        writeln!(self.out, "{answer}")?;
        self.play(desk, &mut stores)
    }

    // Answers the lines of the script up to one that makes a store, and hands out what that line makes. Its answer is still
    // to be written then.
    fn play<'c, S: Store>(
        &mut self,
        mut desk: Desk<'c>,
        stores: &mut Twins<S, S>,
    ) -> anyhow::Result<(Desk<'c>, Option<Make>)>
        ensures { IfOk result (λ p. Goes self.old.script.rest.now p.1 self.new.script.rest.now) }
    {
        while let Some(bytes) = self.script.next_line() {
            let text = String::from_utf8_lossy(self.heap, bytes)?;
            let line = text.as_str().trim();
            if line.is_empty() || line.starts_with('#') {
                continue;
            }
            write!(self.out, "{line} -> ")?;
            let (after, reply) = match parse(self.heap, line) {
                Ok(Line::Store(make)) => return Ok((desk, Some(make))),
                Ok(Line::Sheet) => desk.load(self.script.next_sheet()),
                Ok(Line::Order(order)) => desk.obey(stores, order),
                Err(bad) => (desk, Err(NotDone::Bad(bad))),
            };
            desk = after;
            match reply {
                Ok(answer) => writeln!(self.out, "{answer}")?,
                Err(cause) => writeln!(self.out, "{cause}")?,
            }
        }
        Ok((desk, None))
    }
}
