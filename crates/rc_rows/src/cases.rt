//! The cases as standard input lists them, line by line.

use crate::case::Case;
use crate::reading::{Named, push_named, take_line};
use crate::stores::Stores;
use crate::tally::Tally;
use std::alloc::{AllocError, Global};

/// The cases as they are listed, up to some line.
#[derive(Drop)]
pub(crate) struct Cases {
    // The bytes with names.
    names: Named,
    // Whether a case has begun.
    begun: bool,
    // The case whose lines are being read.
    case: Case,
    // The stores that it is run over.
    stores: Stores,
    // What the cases before it came to.
    tally: Tally,
}

impl Cases {
    /// No line yet.
    pub(crate) fn new(alloc: Global) -> Result<Self, AllocError> {
        let stores = Stores::new(alloc)?;
        Ok(Cases {
            names: Vec::new(alloc),
            begun: false,
            case: Case::new(alloc),
            stores,
            tally: Tally::new(alloc),
        })
    }

    /// The next line.
    pub(crate) fn take(&mut self, alloc: Global, line: &str) -> Result<(), AllocError> {
        if line.is_empty() || line.starts_with("#") {
            return Ok(());
        }
        let (kind, text) = line.split_once(' ').unwrap_or((line, ""));
        match kind {
            "bytes" => push_named(alloc, &mut self.names, text),
            "case" => self.begin(alloc, text),
            "again" => self.go_on(alloc),
            "seed" => self.tally.compare(alloc, text),
            _ => self.describe(alloc, line),
        }
    }

    /// No line follows: how many runs there were is told.
    pub(crate) fn end(&mut self, alloc: Global) -> Result<(), AllocError> {
        self.finish(alloc)?;
        self.tally.tell_runs()
    }

    /// What is told so far.
    pub(crate) fn told(&self) -> &str {
        self.tally.told()
    }

    // The case that ends here is run.
    fn finish(&mut self, alloc: Global) -> Result<(), AllocError> {
        if self.begun {
            return self.tally.run(alloc, &self.case, &mut self.stores);
        }
        Ok(())
    }

    // The first line of a case, over empty stores.
    fn begin(&mut self, alloc: Global, name: &str) -> Result<(), AllocError> {
        self.finish(alloc)?;
        self.stores = Stores::new(alloc)?;
        self.begun = true;
        self.case.begin(alloc, name)
    }

    // What follows is run over the stores that are left.
    fn go_on(&mut self, alloc: Global) -> Result<(), AllocError> {
        self.finish(alloc)?;
        self.case.go_on(alloc)
    }

    // A line of the case.
    fn describe(&mut self, alloc: Global, line: &str) -> Result<(), AllocError> {
        if self.begun && take_line(alloc, &self.names, &mut self.case, &mut self.stores, line)? {
            return Ok(());
        }
        self.tally.refuse(line)
    }
}
