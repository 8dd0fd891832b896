//! How often each call was made, and what was found.

use std::alloc::{AllocError, Global};

/// The calls.
pub(crate) const KINDS: &[&str] = &[
    "new_chain",
    "add_version",
    "end_update",
    "detach",
    "relabel",
    "snapshot",
    "release",
    "list",
    "unlist, of an end dummy",
    "unlist, of the dummy at an update's place",
    "touch",
    "touch_key",
    "set_passed",
    "count",
    "take_dropped",
    "sweep",
    "free_one",
    "drop_version",
    "split",
    "split_like",
    "set_flags",
    "set_tombs",
    "drop_entry",
    "drop_static",
    "join_pt",
    "join_row",
    "join_static",
    "join_like, of an entry",
    "join_like, of a static row",
    "join_range",
    "set_static_flag",
    "ensure",
    "compact_one",
];

/// How often each call was made, how many facts were compared, and the first difference.
#[derive(Drop)]
pub(crate) struct Tally {
    /// A number for each call.
    pub(crate) calls: Vec<(&'static str, u64)>,
    /// The calls whose condition did not hold.
    pub(crate) skipped: u64,
    /// The facts.
    pub(crate) places: u64,
    /// Where both differ, first.
    pub(crate) differs: Option<&'static str>,
}

impl Tally {
    /// Nothing yet.
    pub(crate) fn new(alloc: Global) -> Result<Self, AllocError> {
        let mut calls = Vec::new(alloc);
        for kind in KINDS {
            calls.push((*kind, 0))?;
        }
        Ok(Tally {
            calls,
            skipped: 0,
            places: 0,
            differs: None,
        })
    }

    /// One more call of a kind.
    pub(crate) fn count(&mut self, kind: &str) {
        for line in self.calls.iter_mut() {
            if line.0 == kind {
                line.1 = line.1.saturating_add(1);
            }
        }
    }

    /// One more call that was made, or else one that could not be.
    pub(crate) fn made(&mut self, kind: &str, made: bool) {
        if made {
            self.count(kind);
        } else {
            self.skipped = self.skipped.saturating_add(1);
        }
    }

    /// All that were made.
    pub(crate) fn total(&self) -> u64 {
        let mut total: u64 = 0;
        for line in &self.calls {
            total = total.saturating_add(line.1);
        }
        total
    }

    /// One more fact.
    pub(crate) fn expect(&mut self, alike: bool, what: &'static str) {
        self.places = self.places.saturating_add(1);
        if !alike && self.differs.is_none() {
            self.differs = Some(what);
        }
    }
}
