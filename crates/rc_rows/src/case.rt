//! A case: a script, what the outside does while it runs, and what it must come to.

use rc_outside::StoreCall;
use std::alloc::{AllocError, Global};

/// What a store has under a number.
#[derive(Drop)]
pub(crate) enum Stored {
    /// No file.
    Nothing,
    /// Some file.
    Something,
    /// A file of these bytes.
    Bytes(Vec<u8>),
}

/// What a run must come to.
#[derive(Drop)]
pub(crate) struct Wanted {
    /// The status of the program.
    pub(crate) status: u64,
    /// What is written.
    pub(crate) text: Vec<u8>,
    /// How many lines tell a fault of the store, where these are not compared.
    pub(crate) faults: Option<u64>,
    /// Files of the store.
    pub(crate) files: Vec<(u32, Stored)>,
}

/// A script, what the outside does while it runs, and what it must come to.
#[derive(Drop)]
pub(crate) struct Case {
    /// What it is called.
    pub(crate) name: String,
    /// The words of the program.
    pub(crate) words: Vec<String>,
    /// Whether it is run on the shard alone, as the plain program must come to something else.
    pub(crate) alone: bool,
    /// The input.
    pub(crate) input: Vec<u8>,
    /// Whether the input is given a byte at a time.
    pub(crate) slow: bool,
    /// The calls of the input that fail.
    pub(crate) pulls: Vec<u64>,
    /// The calls of the output that fail.
    pub(crate) pushes: Vec<u64>,
    /// The most input that is taken, where it is not the usual.
    pub(crate) limit: Option<u64>,
    /// Calls of the store of which each of the first so many fails in a run of its own.
    pub(crate) turns: Vec<(StoreCall, u64)>,
    /// What it must come to.
    pub(crate) wanted: Wanted,
}

impl Wanted {
    // Nothing is written, and no file is asked for.
    fn new(alloc: Global) -> Self {
        Wanted {
            status: 0,
            text: Vec::new(alloc),
            faults: None,
            files: Vec::new(alloc),
        }
    }
}

impl Case {
    /// The case of no name, no words and no input, over which nothing fails.
    pub(crate) fn new(alloc: Global) -> Self {
        Case {
            name: String::new(alloc),
            words: Vec::new(alloc),
            alone: false,
            input: Vec::new(alloc),
            slow: false,
            pulls: Vec::new(alloc),
            pushes: Vec::new(alloc),
            limit: None,
            turns: Vec::new(alloc),
            wanted: Wanted::new(alloc),
        }
    }

    /// It is the case of a name, and has no line yet.
    pub(crate) fn begin(&mut self, alloc: Global, name: &str) -> Result<(), AllocError> {
        self.name.clear();
        self.name.push_str(name)?;
        self.clear(alloc)
    }

    /// It is the case that follows over the stores that are left, and has no line yet.
    pub(crate) fn go_on(&mut self, alloc: Global) -> Result<(), AllocError> {
        self.name.push_str(", again")?;
        self.clear(alloc)
    }

    // It has the words of most cases, and nothing else but its name.
    fn clear(&mut self, alloc: Global) -> Result<(), AllocError> {
        self.words.clear();
        self.alone = false;
        self.input.clear();
        self.slow = false;
        self.pulls.clear();
        self.pushes.clear();
        self.limit = None;
        self.turns.clear();
        self.wanted = Wanted::new(alloc);
        let run = String::from_str(alloc, "run")?;
        self.words.push(run)?;
        Ok(())
    }
}
