// Files in memory.
ghost use Rattle.std.specs.Prelude.{◌≡◌, ◌++◌, ℕ, [], List, IfOk, OnOk, OnErr, Some, option_map};
ghost use Rattle.std.specs.FinMap as map;
ghost use Rattle.rc_outside.specs.Files.{AreNumbers};

use std::alloc::{AllocError, Global};
use std::collections::BTreeMap;
use std::marker::Model;

/// The bytes of one file. A contract sees them as a list.
#[derive(Drop)]
pub(crate) struct Contents {
    bytes: Vec<u8>,
}

impl Model for Contents {
    ghost Value = { List ℕ };

    ghost view = { λ c. c.bytes.items };
}

impl Contents {
    /// These bytes.
    pub(crate) fn new(bytes: Vec<u8>) -> Contents
        ensures { result ≡ bytes.items }
    {
        Contents { bytes }
    }

    /// The bytes, lent.
    pub(crate) fn as_slice(&self) -> &[u8]
        ensures { result.now ≡ self.now }
    {
        self.bytes.as_slice()
    }

    /// Appends the piece. `AllocError` when memory is refused: then the bytes are as they were.
    pub(crate) fn append(&mut self, piece: &[u8]) -> Result<(), AllocError>
        ensures ok { OnOk result (self.new ≡ self.old ++ piece.now) }
        ensures err { OnErr result (self.new ≡ self.old) }
    {
        self.bytes.extend_from_slice(piece)
    }
}

/// Files by number. A contract sees them as a finite map.
#[derive(Drop)]
pub(crate) struct Shelf {
    files: BTreeMap<u32, Contents>,
}

impl Model for Shelf {
    ghost use Rattle.std.specs.Coded.{coded_ℕ, coded_list};
    ghost use Rattle.std.specs.FinMap as map;
    ghost use Rattle.rc_outside.specs.Files.{Files};

    ghost Value = { Files };

    ghost coded = { map.code coded_ℕ (coded_list coded_ℕ) };

    ghost view = { λ s. map.from_entries s.files.entries };
}

impl Shelf {
    /// No files.
    pub(crate) fn new(alloc: Global) -> Shelf
        ensures { result ≡ map.empty }
    {
        Shelf {
            files: BTreeMap::new(alloc),
        }
    }

    /// The bytes of file `n`; none where it is not there.
    pub(crate) fn get(&self, n: u32) -> Option<&[u8]>
        ensures { option_map (λ bytes. bytes.now) result ≡ map.get self.now n }
    {
        match self.files.get(&n) {
            Some(contents) => Some(contents.as_slice()),
            None => None,
        }
    }

    /// File `n` has these bytes from now on, whether it was there or not. `AllocError` when memory is refused: then the
    /// files are as they were.
    pub(crate) fn put(&mut self, n: u32, contents: Contents) -> Result<(), AllocError>
        ensures ok { OnOk result (self.new ≡ map.insert self.old n contents) }
        ensures err { OnErr result (self.new ≡ self.old) }
    {
        self.files.insert(n, contents)?;
        Ok(())
    }

    /// The numbers of the files, ascending. `AllocError` when memory is refused.
    pub(crate) fn numbers(&self, alloc: Global) -> Result<Vec<u32>, AllocError>
        ensures { IfOk result (λ v. AreNumbers (Some self.now) v.items) }
    {
        self.files.keys().copied().collect(alloc)
    }
}
