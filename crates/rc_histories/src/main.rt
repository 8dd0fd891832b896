//! Random histories of chains of versions: some thousands of lawful steps over the plain functions, and after each of them every definition
//! of continuity, tried at every position of a small partition. What is printed is how often each kind of step was taken, and what was found.
#![tactic(auto)]

mod chain;
mod chance;
mod checks;
mod cleaning;
mod evicting;
mod filling;
mod history;
mod source;
mod step;
mod tally;
mod universe;
mod updating;
mod views;
mod writing;

use checks::check_chain;
use history::History;
use rc_core::ChainKind;
use std::alloc::{AllocError, Global};
use std::io;
use step::Step;
use tally::Tally;
use views::{View, check_view};

/// How many histories are replayed.
const HISTORIES: u64 = 110;

/// How many steps of each are tried.
const STEPS: u32 = 90;

// One history more; what it did and found is added.
fn replay(alloc: Global, seed: u64, tally: &mut Tally) -> Result<(), AllocError> {
    let kind = if seed % 4 == 3 {
        ChainKind::Memtable
    } else {
        ChainKind::Cache
    };
    let mut history = History::new(alloc, kind, seed)?;
    replay_steps(alloc, &mut history, tally)
}

// The steps of a history, up to one that breaks a definition.
fn replay_steps(alloc: Global, history: &mut History, tally: &mut Tally) -> Result<(), AllocError> {
    for _ in 0..STEPS {
        if tally.broken.is_none() {
            replay_step(alloc, history, tally)?;
        }
    }
    Ok(())
}

// One step, if what chance takes is lawful now, and every definition after it.
fn replay_step(alloc: Global, history: &mut History, tally: &mut Tally) -> Result<(), AllocError> {
    let before = View::of(alloc, &history.universe, &history.chain)?;
    match history.take_step(alloc, tally) {
        Ok(Some(step)) => check_step(alloc, history, step, &before, tally),
        Ok(None) => Ok(()),
        Err(error) => Err(error),
    }
}

// Every definition after a step, and what was seen before it against what is seen now.
fn check_step(
    alloc: Global,
    history: &History,
    step: Step,
    before: &View,
    tally: &mut Tally,
) -> Result<(), AllocError> {
    tally.count(step.kind);
    let sources = history.sources.as_slice();
    check_chain(alloc, &history.universe, sources, &history.chain, tally);
    if tally.lacking {
        return Err(AllocError);
    }
    let now = View::of(alloc, &history.universe, &history.chain)?;
    check_view(history, step, before, &now, tally);
    Ok(())
}

// All histories, up to one that breaks a definition; the last one.
fn replay_all(alloc: Global, tally: &mut Tally) -> Result<u64, AllocError> {
    let mut last = 0;
    for seed in 0..HISTORIES {
        if tally.broken.is_none() {
            replay(alloc, seed, tally)?;
            last = seed;
        }
    }
    Ok(last)
}

// How often each kind of step was taken.
fn tell_steps(rt: &HostRuntime, tally: &Tally) -> io::Result<()> {
    for line in &tally.steps {
        let (kind, count) = *line;
        println!(rt; "{kind}: {count}")?;
    }
    Ok(())
}

// What was found, up to the last history.
fn tell_found(rt: &HostRuntime, tally: &Tally, last: u64) -> io::Result<()> {
    let (steps, checks) = (tally.total(), tally.checks);
    println!(rt; "{HISTORIES} histories, {steps} steps, {checks} checks")?;
    match tally.broken {
        None => println!(rt; "every definition held"),
        Some(what) => println!(rt; "broken in history {last}: {what}"),
    }
}

fn tell(rt: &HostRuntime, tally: &Tally, last: u64) -> io::Result<()> {
    tell_steps(rt, tally)?;
    tell_found(rt, tally, last)
}

fn main(rt: HostRuntime) -> io::Result<()> {
    let mut tally = Tally::new(rt.alloc())?;
    let last = replay_all(rt.alloc(), &mut tally)?;
    tell(&rt, &tally, last)
}
