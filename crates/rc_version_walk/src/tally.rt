//! How often each call was made, and what was found.

use std::alloc::{AllocError, Global};

/// The calls, and those in which nothing was done.
pub(crate) const KINDS: &[&str] = &[
    "new_version and free_version",
    "split",
    "split_like",
    "join_row",
    "join_range",
    "join_pt",
    "join_like, of an entry",
    "join_like, of a static row",
    "set_flags",
    "set_tombs",
    "set_static",
    "set_static_flag",
    "drop_static",
    "drop_entry",
    "nothing to do",
    "no room",
];

/// How often each call was made, how many places were compared, and the first difference.
#[derive(Drop)]
pub(crate) struct Tally {
    /// A number for each call.
    pub(crate) calls: Vec<(&'static str, u64)>,
    /// The places.
    pub(crate) places: u64,
    /// Where both differ, first.
    pub(crate) differs: Option<&'static str>,
    /// Whether memory was wanted at a place, and there was none.
    pub(crate) lacking: bool,
}

impl Tally {
    /// Nothing yet.
    pub(crate) fn new(alloc: Global) -> Result<Self, AllocError> {
        let mut calls = Vec::new(alloc);
        for kind in KINDS {
            calls.push((*kind, 0))?;
        }
        Ok(Tally {
            calls,
            places: 0,
            differs: None,
            lacking: false,
        })
    }

    /// One more call of a kind.
    pub(crate) fn count(&mut self, kind: &str) {
        for line in self.calls.iter_mut() {
            if line.0 == kind {
                line.1 = line.1.saturating_add(1);
            }
        }
    }

    /// All of them.
    pub(crate) fn total(&self) -> u64 {
        let mut total: u64 = 0;
        for line in &self.calls {
            total = total.saturating_add(line.1);
        }
        total
    }

    /// One more place.
    pub(crate) fn expect(&mut self, alike: bool, what: &'static str) {
        self.places = self.places.saturating_add(1);
        if !alike && self.differs.is_none() {
            self.differs = Some(what);
        }
    }

    /// Whether there was memory at each place.
    pub(crate) fn told(&self) -> Result<(), AllocError> {
        if self.lacking {
            Err(AllocError)
        } else {
            Ok(())
        }
    }
}
