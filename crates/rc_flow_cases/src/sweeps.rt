//! A file that is another one in each of many ways in turn, and what the readings of it came to.

use crate::files::{bytes_of, put_bytes};
use crate::watched::Folder;
use std::alloc::{AllocError, Global};
use std::fmt::Write;

/// In which ways a file is another one.
#[derive(Clone, Copy)]
pub(crate) enum Ways {
    /// It is cut to each number of its first bytes, but for all.
    Cuts,
    /// Each bit of it is the other one.
    Bits,
}

/// A file, and the ways in which it is another one.
#[derive(Drop)]
pub(crate) struct Sweep {
    number: u32,
    bytes: Vec<u8>,
    ways: Ways,
}

impl Sweep {
    /// The file as it is now; none where the folder does not give it.
    pub(crate) fn new(
        alloc: Global,
        folder: &mut Folder<'_>,
        number: u32,
        ways: Ways,
    ) -> Result<Option<Self>, AllocError> {
        match bytes_of(alloc, folder, number)? {
            Some(bytes) => Ok(Some(Sweep {
                number,
                bytes,
                ways,
            })),
            None => Ok(None),
        }
    }

    /// In how many ways it is another one.
    pub(crate) fn count(&self) -> usize {
        match self.ways {
            Ways::Cuts => self.bytes.len(),
            Ways::Bits => self.bytes.len().saturating_mul(8),
        }
    }

    // Its bytes in one of the ways.
    fn made(&self, alloc: Global, way: usize) -> Result<Vec<u8>, AllocError> {
        let mut made = Vec::from_slice(alloc, self.bytes.as_slice())?;
        match self.ways {
            Ways::Cuts => made.truncate(way),
            Ways::Bits => turn(made.as_mut_slice(), way),
        }
        Ok(made)
    }

    /// The file is as one of the ways has it; whether it was written.
    pub(crate) fn change(
        &self,
        alloc: Global,
        folder: &mut Folder<'_>,
        way: usize,
    ) -> Result<bool, AllocError> {
        let made = self.made(alloc, way)?;
        Ok(put_bytes(alloc, folder, self.number, made.as_slice()))
    }

    /// The file is as it was; whether it was written.
    pub(crate) fn restore(&self, alloc: Global, folder: &mut Folder<'_>) -> bool {
        put_bytes(alloc, folder, self.number, self.bytes.as_slice())
    }
}

// A bit is the other one.
fn turn(bytes: &mut [u8], bit: usize) {
    if let Some(byte) = bytes.get_mut(bit / 8) {
        *byte ^= 1u8 << (bit % 8);
    }
}

/// How many readings came to what.
#[derive(Clone, Copy)]
pub(crate) struct Sums {
    same: u32,
    others: u32,
    nothing: u32,
    damaged: u32,
    refused: u32,
}

impl Sums {
    /// No reading yet.
    pub(crate) fn new() -> Self {
        Sums {
            same: 0,
            others: 0,
            nothing: 0,
            damaged: 0,
            refused: 0,
        }
    }

    /// A reading that told this, where the file as it was told that.
    pub(crate) fn add(&mut self, told: &str, before: &str) {
        let sum = if told == before {
            &mut self.same
        } else if told.starts_with("? table") {
            &mut self.damaged
        } else if told.starts_with("?") {
            &mut self.refused
        } else if told.split_once("row ").is_some() {
            &mut self.others
        } else {
            &mut self.nothing
        };
        *sum = sum.saturating_add(1);
    }

    /// Tells them.
    pub(crate) fn tell(&self, text: &mut String) -> Result<(), AllocError> {
        tell_sum("the same rows ", self.same, text)?;
        tell_sum(", other rows ", self.others, text)?;
        tell_sum(", no row ", self.nothing, text)?;
        tell_sum(", damaged ", self.damaged, text)?;
        tell_sum(", the store failed ", self.refused, text)?;
        text.push_str("\n")
    }
}

// How many readings came to what.
fn tell_sum(what: &str, sum: u32, text: &mut String) -> Result<(), AllocError> {
    write!(text, "{what}{sum}")
}
