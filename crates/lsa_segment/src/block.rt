//! A block of places for bytes, each unset until it is written. It goes back to its allocator when it is dropped.
ghost use Rattle.std.specs.Prelude.{◌≡◌, ℕ, ◌+◌, ◌^◌, ◌<◌, ◌≤◌, ◌⊎◌, Some, None, length, map, take, drop, replicate, IfOk};
ghost use Rattle.circular_buffer.specs.Places.{IsRun, somes};
ghost use Rattle.lsa_segment.specs.calls.Places.{written_places};

use crate::raw::{Owned, Right, Start, allocate, deallocate};
use std::alloc::{AllocError, Global};
use std::marker::Model;

pub(crate) struct Block {
    alloc: Global,
    start: Start,
    bytes: Owned,
    right: Right<Global>,
    size: usize,
}

impl Model for Block {
    ghost use Rattle.std.specs.Prelude.{◌≡◌, ℕ, List, Option, length};

    ghost Value = { List (Option ℕ) };

    ghost view = { λ b. b.bytes.bytes };

    ghost invariant = { λ b. (length b.bytes.bytes ≡ b.size) × (b.bytes.at ≡ b.start.at) × (b.right.at ≡ b.start.at) × (b.right.len ≡ b.size) × (b.right.alloc ≡ b.alloc) };
}

impl Drop for Block {
    fn drop(self) {
        let Block {
            alloc,
            start,
            bytes,
            right,
            size,
        } = self;
        deallocate(&alloc, start, size, bytes, right);
    }
}

impl Block {
    // A block of which no place is set.
    pub(crate) fn new(alloc: Global, size: usize) -> Result<Self, AllocError>
        requires { size < 2 ^ 63 }
        ensures { IfOk result (λ b. b ≡ replicate size None) }
    {
        match allocate(&alloc, size) {
            Ok((start, bytes, right)) => Ok(Block {
                alloc,
                start,
                bytes,
                right,
                size,
            }),
            Err(error) => Err(error),
        }
    }

    // The bytes of the `len` places from `from` on, which are set.
    pub(crate) fn lend(&self, from: usize, len: usize) -> &[u8]
        requires { IsRun self.now from len }
        ensures { take len (drop from self.now) ≡ map Some result.now }
    {
        self.bytes.slice(self.start, from, len)
    }

    // Sets as many places from `from` on to these bytes, whatever stood there.
    pub(crate) fn write(&mut self, from: usize, source: &[u8])
        requires { from + length source.now ≤ length self.old }
        ensures { self.new ≡ written_places self.old from source.now }
    {
        put(&mut self.bytes, self.start, from, source);
    }

    // Sets as many places from `to` on to the bytes of the `len` places from `from` on, which are set and are none of those.
    pub(crate) fn copy(&mut self, from: usize, len: usize, to: usize)
        requires set { IsRun self.old from len }
        requires inside { to + len ≤ length self.old }
        requires apart { (from + len ≤ to) ⊎ (to + len ≤ from) }
        ensures { self.new ≡ written_places self.old to (somes (take len (drop from self.old))) }
    {
        copy_over(&mut self.bytes, self.start, from, len, to);
    }
}

fn put(bytes: &mut Owned, start: Start, from: usize, source: &[u8])
    requires start { start.at ≡ bytes.old.at }
    requires inside { from + length source.now ≤ length bytes.old.bytes }
    requires small { length bytes.old.bytes < 2 ^ 64 }
    ensures start { bytes.new.at ≡ bytes.old.at }
    ensures after { bytes.new.bytes ≡ written_places bytes.old.bytes from source.now }
{
    for index in 0..source.len() {
        bytes.write(start, from + index, source[index]);
    }
}

fn copy_over(bytes: &mut Owned, start: Start, from: usize, len: usize, to: usize)
    requires start { start.at ≡ bytes.old.at }
    requires set { IsRun bytes.old.bytes from len }
    requires inside { to + len ≤ length bytes.old.bytes }
    requires apart { (from + len ≤ to) ⊎ (to + len ≤ from) }
    requires small { length bytes.old.bytes < 2 ^ 64 }
    ensures start { bytes.new.at ≡ bytes.old.at }
    ensures after { bytes.new.bytes ≡ written_places bytes.old.bytes to (somes (take len (drop from bytes.old.bytes))) }
{
    for index in 0..len {
        let byte = bytes.slice(start, from + index, 1)[0];
        bytes.write(start, to + index, byte);
    }
}
