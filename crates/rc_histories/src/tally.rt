//! How often each kind of step was taken, and what was found.

use rc_position::Pos;
use std::alloc::{AllocError, Global};

/// The kinds of steps.
const KINDS: &[&str] = &[
    "open",
    "snapshot",
    "release",
    "detach",
    "fill of a gap",
    "fill of a row",
    "fill of the static row",
    "eviction of an entry",
    "eviction of an end dummy",
    "eviction of a static row",
    "eviction under update before the place",
    "eviction under update refused",
    "flush of another partition",
    "update begun",
    "update begun without room",
    "unit of an update",
    "unit with a tombstone over a gap of no position",
    "unit without room",
    "update ended",
    "unit of the cleaner: static row",
    "unit of the cleaner: entry",
    "unit of the cleaner: version dropped",
    "unit of the cleaner without room",
    "write of a row",
    "write of a range tombstone",
    "write of a static row",
    "write of a partition tombstone",
    "object freed",
];

/// How often each kind of step was taken, how many checks were made, and the first that failed.
#[derive(Drop)]
pub(crate) struct Tally {
    /// A number for each kind.
    pub(crate) steps: Vec<(&'static str, u64)>,
    /// The checks.
    pub(crate) checks: u64,
    /// What did not hold, first.
    pub(crate) broken: Option<&'static str>,
    /// Whether memory was wanted in a check, and there was none.
    pub(crate) lacking: bool,
}

impl Tally {
    /// Nothing yet.
    pub(crate) fn new(alloc: Global) -> Result<Self, AllocError> {
        let mut steps = Vec::new(alloc);
        for kind in KINDS {
            steps.push((*kind, 0))?;
        }
        Ok(Tally {
            steps,
            checks: 0,
            broken: None,
            lacking: false,
        })
    }

    /// One more step of a kind.
    pub(crate) fn count(&mut self, kind: &str) {
        for line in self.steps.iter_mut() {
            if line.0 == kind {
                line.1 = line.1.saturating_add(1);
            }
        }
    }

    /// All steps.
    pub(crate) fn total(&self) -> u64 {
        let mut total: u64 = 0;
        for line in &self.steps {
            total = total.saturating_add(line.1);
        }
        total
    }

    /// One more check.
    pub(crate) fn expect(&mut self, holds: bool, what: &'static str) {
        self.checks = self.checks.saturating_add(1);
        if !holds && self.broken.is_none() {
            self.broken = Some(what);
        }
    }

    /// There was no memory for a check.
    pub(crate) fn lack(&mut self) {
        self.lacking = true;
    }

    /// Something was done, where there was memory.
    pub(crate) fn note(&mut self, done: Result<(), AllocError>) {
        if done.is_err() {
            self.lacking = true;
        }
    }

    /// A position that was made, where there was memory.
    pub(crate) fn made(&mut self, made: Result<Pos, AllocError>) -> Option<Pos> {
        match made {
            Ok(made) => Some(made),
            Err(_) => {
                self.lacking = true;
                None
            }
        }
    }
}
