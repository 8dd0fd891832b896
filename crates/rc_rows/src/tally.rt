//! How many runs there were, and those that came to something else.

use crate::case::Case;
use crate::plain::is_agreed;
use crate::running::{Outcome, is_wanted, run_case};
use crate::stores::{Runner, Stores};
use rc_outside::{MemStore, StoreCall};
use std::alloc::{AllocError, Global};
use std::fmt::Write;

/// How many runs there were, and those that came to something else.
#[derive(Drop)]
pub(crate) struct Tally {
    // The runs.
    runs: u64,
    // Those that came to something else.
    others: u64,
    // What is told of these.
    text: String,
}

impl Tally {
    /// No run yet.
    pub(crate) fn new(alloc: Global) -> Self {
        Tally {
            runs: 0,
            others: 0,
            text: String::new(alloc),
        }
    }

    /// What is told so far.
    pub(crate) fn told(&self) -> &str {
        self.text.as_str()
    }

    // One run came to something else.
    fn count_other(&mut self) {
        self.others = self.others.saturating_add(1);
    }

    /// The runs of a case: on each machine one over its store, or one over an empty store for each call that fails in turn.
    pub(crate) fn run(
        &mut self,
        alloc: Global,
        case: &Case,
        stores: &mut Stores,
    ) -> Result<(), AllocError> {
        if case.turns.is_empty() {
            return self.run_both(alloc, case, stores);
        }
        for turn in &case.turns {
            self.run_turns(alloc, case, turn.0, turn.1)?;
        }
        Ok(())
    }

    // Runs for each of the first so many calls of a kind, which fails.
    fn run_turns(
        &mut self,
        alloc: Global,
        case: &Case,
        call: StoreCall,
        count: u64,
    ) -> Result<(), AllocError> {
        for before in 0..count {
            let mut stores = Stores::new(alloc)?;
            stores.fail_nth(call, before.saturating_add(1))?;
            self.run_both(alloc, case, &mut stores)?;
        }
        Ok(())
    }

    // A run on the shard, and one on the plain program where it is to come to the same.
    fn run_both(
        &mut self,
        alloc: Global,
        case: &Case,
        stores: &mut Stores,
    ) -> Result<(), AllocError> {
        self.run_once(alloc, Runner::Shard, case, &mut stores.shard)?;
        if case.alone {
            return Ok(());
        }
        self.run_once(alloc, Runner::Plain, case, &mut stores.plain)
    }

    // One run.
    fn run_once(
        &mut self,
        alloc: Global,
        by: Runner,
        case: &Case,
        store: &mut MemStore,
    ) -> Result<(), AllocError> {
        self.runs = self.runs.saturating_add(1);
        let mut outcome = Outcome::new(alloc);
        run_case(alloc, by, case, store, &mut outcome)?;
        if is_wanted(case, &outcome, store) {
            return Ok(());
        }
        self.tell_run(by, case, &outcome)
    }

    // A run that came to something else.
    fn tell_run(&mut self, by: Runner, case: &Case, outcome: &Outcome) -> Result<(), AllocError> {
        self.count_other();
        let (name, machine, status) = (case.name.as_str(), by.name(), outcome.status);
        write!(self.text, "case {name}, on {machine}: status {status}")?;
        match str::from_utf8(outcome.text.as_slice()) {
            Ok(text) => write!(self.text, "\n{text}\n"),
            Err(_) => self.text.push_str(", and no text\n"),
        }
    }

    /// The runs of a seed, on each machine, beside a plain computation.
    pub(crate) fn compare(&mut self, alloc: Global, text: &str) -> Result<(), AllocError> {
        let Ok(seed) = text.parse::<u32>() else {
            return self.refuse(text);
        };
        self.compare_by(alloc, Runner::Shard, seed)?;
        self.compare_by(alloc, Runner::Plain, seed)
    }

    // The run of a seed on a machine.
    fn compare_by(&mut self, alloc: Global, by: Runner, seed: u32) -> Result<(), AllocError> {
        self.runs = self.runs.saturating_add(1);
        if is_agreed(alloc, by, seed)? {
            return Ok(());
        }
        self.count_other();
        let machine = by.name();
        write!(self.text, "seed {seed}, on {machine}\n")
    }

    /// A line that is none of a case.
    pub(crate) fn refuse(&mut self, line: &str) -> Result<(), AllocError> {
        self.count_other();
        write!(self.text, "no line of a case: {line}\n")
    }

    /// How many runs there were, and how many came to something else.
    pub(crate) fn tell_runs(&mut self) -> Result<(), AllocError> {
        let (runs, others) = (self.runs, self.others);
        write!(
            self.text,
            "{runs} runs, {others} of them came to something else"
        )
    }
}
