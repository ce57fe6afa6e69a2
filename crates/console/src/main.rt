// Runs a script of calls, and prints each call with its answer. docs/SHOW.md has the lines of a script.
#![tactic(auto)]

mod answer;
mod calls;
mod compare;
mod console;
mod desk;
mod line;
mod number;
mod run;
mod script;
mod twins;
mod view;

use anyhow::anyhow;
use console::run_script;
use std::io::{BufWriter, Read, Write};
use std::{env, fs};

fn main(rt: HostRuntime) -> anyhow::Result<()> {
    let text = script_text(&rt)?;
    let mut out = BufWriter::new(rt.alloc(), rt.stdout())?;
    run_script(&mut out, rt.alloc(), text.as_slice())?;
    out.flush()?;
    Ok(())
}

// The script: the file that the first argument names, or standard input where there is none.
fn script_text(rt: &HostRuntime) -> anyhow::Result<Vec<u8>> {
    let mut args = env::args(rt)?;
    let _program = args.next();
    match args.next() {
        Some(path) => {
            fs::read(rt, path.as_str()).map_err(|e| anyhow!("cannot read {path}: {e}"))
        }
        None => {
            let mut text = Vec::new(rt.alloc());
            rt.stdin().read_to_end(&mut text)?;
            Ok(text)
        }
    }
}
