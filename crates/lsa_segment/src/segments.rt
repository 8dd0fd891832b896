//! Segments: the used bytes of equal parts of one block.
ghost use Rattle.std.specs.Prelude.{◌≡◌, ◌≢◌, ℕ, ◌+◌, ◌^◌, ◌<◌, ◌≤◌, [], ◌++◌, length, replicate, slice_index_or, slice_set, IfOk};
ghost use Rattle.lsa_segment.specs.Bytes.{part, overwritten};

use crate::block::Block;
use std::alloc::{AllocError, Global};
use std::marker::Model;

/// Segments of `S` bytes each, `S` at most 2 ^ 27, seen as the lists of those that are used. All lie in one block, and no byte is written
/// before it is used.
#[derive(Drop)]
pub struct Segments<const S: usize> {
    block: Block,
    used: Vec<usize>,
}

impl<const S: usize> Model for Segments<S> {
    ghost use Rattle.std.specs.Prelude.{ℕ, List};
    ghost use Rattle.lsa_segment.specs.Places.{used_bytes, AreLaid};

    ghost Value = { List (List ℕ) };

    ghost view = { λ s. used_bytes S s.used.items s.block };

    ghost invariant = { λ s. AreLaid S s.used.items s.block };
}

impl<const S: usize> Segments<S> {
    /// So many segments, at most 4096, all empty.
    pub fn new(alloc: Global, count: u32) -> Result<Self, AllocError>
        requires few { count ≤ 4096 }
        requires small { S ≤ 2 ^ 27 }
        ensures { IfOk result (λ s. s ≡ replicate count []) }
    {
        Ok(Segments {
            block: Block::new(alloc, count as usize * S)?,
            used: zeros(alloc, count)?,
        })
    }

    /// How many segments there are.
    pub fn count(&self) -> usize
        ensures { result ≡ length self.now }
    {
        self.used.len()
    }

    /// How many bytes of segment `n` are not used.
    pub fn room(&self, n: usize) -> usize
        requires { n < length self.now }
        ensures { result + length (slice_index_or self.now n []) ≡ S }
    {
        S - self.used[n]
    }

    /// Appends the bytes to segment `n`, where there is room for them, and gives the offset at which they begin.
    pub fn push(&mut self, n: usize, bytes: &[u8]) -> usize
        requires segment { n < length self.old }
        requires fits { length (slice_index_or self.old n []) + length bytes.now ≤ S }
        ensures offset { result ≡ length (slice_index_or self.old n []) }
        ensures after { self.new ≡ slice_set self.old n (slice_index_or self.old n [] ++ bytes.now) }
    {
        let offset = self.used[n];
        self.block.write(n * S + offset, bytes);
        self.used[n] = offset + bytes.len();
        offset
    }

    /// The `len` used bytes of segment `n` from `offset` on.
    pub fn lend(&self, n: usize, offset: usize, len: usize) -> &[u8]
        requires segment { n < length self.now }
        requires inside { offset + len ≤ length (slice_index_or self.now n []) }
        ensures { result.now ≡ part offset len (slice_index_or self.now n []) }
    {
        self.block.lend(n * S + offset, len)
    }

    /// Writes the bytes over used ones of segment `n`, from `offset` on.
    pub fn write(&mut self, n: usize, offset: usize, bytes: &[u8])
        requires segment { n < length self.old }
        requires inside { offset + length bytes.now ≤ length (slice_index_or self.old n []) }
        ensures { self.new ≡ slice_set self.old n (overwritten (slice_index_or self.old n []) offset bytes.now) }
    {
        self.block.write(n * S + offset, bytes);
    }

    /// Appends `len` used bytes of segment `from`, from `offset` on, to another one, which has room for them, and gives the offset at
    /// which they begin there.
    pub fn copy_into(&mut self, from: usize, offset: usize, len: usize, to: usize) -> usize
        requires from { from < length self.old }
        requires to { to < length self.old }
        requires differ { from ≢ to }
        requires inside { offset + len ≤ length (slice_index_or self.old from []) }
        requires fits { length (slice_index_or self.old to []) + len ≤ S }
        ensures offset { result ≡ length (slice_index_or self.old to []) }
        ensures after { self.new ≡ slice_set self.old to (slice_index_or self.old to [] ++ part offset len (slice_index_or self.old from [])) }
    {
        let end = self.used[to];
        self.block.copy(from * S + offset, len, to * S + end);
        self.used[to] = end + len;
        end
    }

    /// Forgets all bytes of segment `n`: none is used.
    pub fn clear(&mut self, n: usize)
        requires { n < length self.old }
        ensures { self.new ≡ slice_set self.old n [] }
    {
        self.used[n] = 0;
    }
}

fn zeros(alloc: Global, count: u32) -> Result<Vec<usize>, AllocError>
    ensures { IfOk result (λ v. v.items ≡ replicate count 0) }
{
    let mut used = Vec::with_capacity(alloc, count as usize)?;
    for made in 0..count {
        used.push(0)?;
    }
    Ok(used)
}
