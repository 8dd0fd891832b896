//! Generated scripts on the shard and on the plain program: what is written and the files must be the same. What is printed is how many scripts and
//! lines there were, how many scripts differed, and the first of these.
#![tactic(auto)]

mod chance;
mod running;
mod script;
mod words;

use running::is_same_on_both;
use script::{Script, script_of};
use std::alloc::{AllocError, Global};
use std::io;

/// How many scripts there are.
const SCRIPTS: u64 = 2000;

/// What the scripts came to.
#[derive(Drop)]
struct Tally {
    lines: u64,
    differed: u64,
    first: Option<Script>,
}

impl Tally {
    // A script that was run, and whether it came to the same on both machines.
    fn count(&mut self, script: Script, same: bool) {
        self.lines = self.lines.saturating_add(script.lines);
        if same {
            return;
        }
        self.differed = self.differed.saturating_add(1);
        if self.first.is_none() {
            self.first = Some(script);
        }
    }
}

// The script of a seed, on both machines.
fn try_seed(alloc: Global, seed: u64, tally: &mut Tally) -> Result<(), AllocError> {
    let script = script_of(alloc, seed)?;
    let same = is_same_on_both(alloc, &script)?;
    tally.count(script, same);
    Ok(())
}

// All of them.
fn try_all(alloc: Global) -> Result<Tally, AllocError> {
    let mut tally = Tally {
        lines: 0,
        differed: 0,
        first: None,
    };
    for seed in 0..SCRIPTS {
        try_seed(alloc, seed, &mut tally)?;
    }
    Ok(tally)
}

fn main(rt: HostRuntime) -> io::Result<()> {
    let tally = try_all(rt.alloc())?;
    let (lines, differed) = (tally.lines, tally.differed);
    println!(rt; "{SCRIPTS} scripts, {lines} lines, {differed} of the scripts differed")?;
    match &tally.first {
        None => Ok(()),
        Some(script) => {
            let (text, segments) = (script.text.as_str(), script.segments);
            println!(rt; "the first one, in {segments} segments:\n{text}")
        }
    }
}
