//! A file that is read in pieces, from its start to its end.

ghost use Rattle.std.specs.Prelude.{◌≡◌, ℕ, ◌+◌, ◌≤◌, [], List, Option, IfErr, IfOk, MatchResult, OnOk, length, min};
ghost use Rattle.rc_outside.specs.Files.{HoldsSameFiles, Files, IsFile, LiesInFile};
ghost use Rattle.rc_outside.specs.Faults.{RisesIfFault};
ghost use Rattle.rc_tfile.specs.Checking.{IsHostError, OnCheckFault};
ghost use Rattle.rc_tfile.specs.calls.Windows.{ReadAhead, IsItemAhead, IsOpen, IsAheadIn, looked_past, bytes_left, reads_left};

use crate::checking::CheckErr;
use rc_outside::Store;
use std::alloc::Global;
use std::marker::Model;

/// At least as many bytes as an item has.
const LARGEST: usize = 65_541;

/// How many bytes are read at once, where as many are left.
const PIECE: u64 = 65_541;

/// What was read of a file and is still to be looked at, and what is still to be read.
#[derive(Drop)]
pub(crate) struct Window {
    /// The file's number.
    number: u32,
    /// The file's length.
    size: u64,
    /// How many bytes were read.
    end: u64,
    /// The last of them.
    bytes: Vec<u8>,
    /// How many of these were looked at.
    at: usize,
}

impl Model for Window {
    ghost use Rattle.std.specs.Prelude.{ℕ, ◌≤◌, ◌+◌, drop, length};
    ghost use Rattle.rc_tfile.specs.calls.Windows.{ReadAhead};

    ghost Value = { ReadAhead };

    ghost view = { λ w. record { number = w.number; size = w.size; read = w.end; ahead = drop w.at w.bytes.items } };

    ghost invariant = { λ w. (w.at ≤ length w.bytes.items) × (length w.bytes.items ≤ w.at + w.end) × (w.end ≤ w.size) };
}

impl Window {
    /// The start of file `n`, of which nothing is read yet.
    pub(crate) fn open<W: Store>(alloc: Global, store: &mut W, n: u32) -> Result<Window, CheckErr>
        requires { IsFile (W.files store.old) n }
        ensures store { HoldsSameFiles W.files W.building store.old store.new }
        ensures faults { RisesIfFault OnCheckFault result (W.faults store.old) (W.faults store.new) }
        ensures asks { W.asks store.new ≡ W.asks store.old }
        ensures told { IfOk result (λ w. IsAheadIn (W.files store.new) [] w) }
        ensures open { IfOk result (λ w. IsOpen (W.files store.new) w) }
        ensures start { IfOk result (λ w. (w.number ≡ n) × (w.read ≡ 0)) }
        ensures cause { IfErr result IsHostError }
    {
        match store.size(n) {
            Ok(size) => Ok(Window {
                number: n,
                size,
                end: 0,
                bytes: Vec::new(alloc),
                at: 0,
            }),
            Err(_) => Err(CheckErr::Fault),
        }
    }

    /// The bytes that are read and not yet looked at.
    pub(crate) fn ahead(&self) -> &[u8]
        ensures value { result.now ≡ self.now.ahead }
        ensures within { (length self.now.ahead ≤ self.now.read) × (self.now.read ≤ self.now.size) }
    {
        &self.bytes[self.at..]
    }

    /// How many bytes of the file were looked at.
    pub(crate) fn offset(&self) -> u64
        ensures { result + length self.now.ahead ≡ self.now.read }
    {
        self.end - (self.bytes.len() - self.at) as u64
    }

    /// Goes past so many bytes, which were looked at.
    pub(crate) fn advance(&mut self, count: usize)
        requires { count ≤ length self.old.ahead }
        ensures value { self.new ≡ looked_past count self.old }
        ensures left { bytes_left self.new + count ≡ bytes_left self.old }
        ensures reads { reads_left self.new ≡ reads_left self.old }
        ensures open { (files : Option Files) → IsOpen files self.old → IsOpen files self.new }
    {
        self.at += count;
    }

    /// Reads on, where less is ahead than an item may have. Then an item, or all that is left, is ahead.
    pub(crate) fn refill<W: Store>(&mut self, alloc: Global, store: &mut W) -> Result<(), CheckErr>
        requires { IsOpen (W.files store.old) self.old }
        ensures store { HoldsSameFiles W.files W.building store.old store.new }
        ensures faults { RisesIfFault OnCheckFault result (W.faults store.old) (W.faults store.new) }
        ensures open { OnOk result (IsOpen (W.files store.new) self.new) }
        ensures full { OnOk result (IsItemAhead self.new) }
        ensures told { (front : List ℕ) → IsAheadIn (W.files store.old) front self.old → OnOk result (IsAheadIn (W.files store.new) front self.new) }
        ensures number { self.new.number ≡ self.old.number }
        ensures cause { IfErr result IsHostError }
        ensures left { OnOk result (bytes_left self.new ≡ bytes_left self.old) }
        ensures asks { W.asks store.new ≤ W.asks store.old + reads_left self.old }
        ensures spent { OnOk result (W.asks store.new + reads_left self.new ≤ W.asks store.old + reads_left self.old) }
        ensures once { W.asks store.new ≤ W.asks store.old + 1 }
    {
        if self.end == self.size {
            return Ok(());
        }
        if self.bytes.len() - self.at >= LARGEST {
            return Ok(());
        }
        let count = next_count(self.size - self.end);
        self.read(alloc, store, count)
    }

    // Reads so many bytes more, and lets go of those that were looked at.
    fn read<W: Store>(&mut self, alloc: Global, store: &mut W, count: usize) -> Result<(), CheckErr>
        requires lies { LiesInFile (W.files store.old) self.old.number self.old.read count }
        requires within { self.old.read + count ≤ self.old.size }
        ensures store { HoldsSameFiles W.files W.building store.old store.new }
        ensures faults { RisesIfFault OnCheckFault result (W.faults store.old) (W.faults store.new) }
        ensures told { (front : List ℕ) → IsAheadIn (W.files store.old) front self.old → OnOk result (IsAheadIn (W.files store.new) front self.new) }
        ensures grown { OnOk result ((self.new.read ≡ self.old.read + count) × (length self.new.ahead ≡ length self.old.ahead + count)) }
        ensures number { self.new.number ≡ self.old.number }
        ensures size { self.new.size ≡ self.old.size }
        ensures cause { IfErr result IsHostError }
        ensures asks { W.asks store.new ≤ W.asks store.old + 1 }
    {
        let mut piece = zeros(alloc, count)?;
        let mut kept = copied(alloc, &self.bytes[self.at..])?;
        if let Err(_) = store.read_at(self.number, self.end, piece.as_mut_slice()) {
            return Err(CheckErr::Fault);
        }
        if let Err(_) = kept.extend_from_slice(piece.as_slice()) {
            return Err(CheckErr::NoMemory);
        }
        self.bytes = kept;
        self.at = 0;
        self.end += count as u64;
        Ok(())
    }
}

// How many bytes are read next, where so many are left.
fn next_count(left: u64) -> usize
    ensures { result ≡ min left 65541 }
{
    if left < PIECE {
        left as usize
    } else {
        PIECE as usize
    }
}

// So many zeros.
fn zeros(alloc: Global, count: usize) -> Result<Vec<u8>, CheckErr>
    ensures { MatchResult result (λ bytes. length bytes.items ≡ count) (λ e. e ≡ CheckErr.NoMemory) }
{
    match vec![in alloc; 0u8; count] {
        Ok(bytes) => Ok(bytes),
        Err(_) => Err(CheckErr::NoMemory),
    }
}

// These bytes, in memory of their own.
fn copied(alloc: Global, bytes: &[u8]) -> Result<Vec<u8>, CheckErr>
    ensures { MatchResult result (λ copy. copy.items ≡ bytes.now) (λ e. e ≡ CheckErr.NoMemory) }
{
    match Vec::from_slice(alloc, bytes) {
        Ok(bytes) => Ok(bytes),
        Err(_) => Err(CheckErr::NoMemory),
    }
}
