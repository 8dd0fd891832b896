//! Writes that stand in no table.

ghost use Rattle.std.specs.Prelude.{◌≡◌, [], ◌∷◌, ◌++◌, ◌==◌, length, All, IfOk, OnOk, OnErr};
ghost use Rattle.rc_mutation.specs.Fragments.{IsParts};
ghost use Rattle.rc_mutation.specs.Source.{IsJoinOf, changes_to};
ghost use Rattle.rc_plain.specs.calls.Index.{IsIndexOf, IsPartitionOf};

use crate::index::{add_number, numbers_at};
use crate::joining::joined;
use rc_mutation::{Mutation, Partition, Write};
use rc_position::PartKey;
use std::alloc::{AllocError, Global};
use std::collections::BTreeMap;
use std::marker::Model;

/// Writes in their order, with the numbers of each partition's writes beside them. A contract sees the list of writes.
#[derive(Drop)]
pub(crate) struct Memtable {
    writes: Vec<Write>,
    index: BTreeMap<PartKey, Vec<usize>>,
}

impl Model for Memtable {
    ghost use Rattle.std.specs.Prelude.{List};
    ghost use Rattle.rc_mutation.specs.declared.mutations.Write.{Write};
    ghost use Rattle.rc_plain.specs.calls.Index.{IsIndexOf};

    ghost Value = { List Write };

    ghost view = { λ t. t.writes.items };

    ghost invariant = { λ t. IsIndexOf t.writes.items t.index };
}

impl Memtable {
    /// No writes.
    pub(crate) fn new(alloc: Global) -> Self
        ensures { result ≡ [] }
    {
        Memtable {
            writes: Vec::new(alloc),
            index: BTreeMap::new(alloc),
        }
    }

    /// Whether there are no writes.
    pub(crate) fn is_empty(&self) -> bool
        ensures { result ≡ (length self.now == 0) }
    {
        self.writes.is_empty()
    }

    /// Puts a write behind the others. Want of memory leaves the writes as they were.
    pub(crate) fn put(&mut self, alloc: Global, write: Write) -> Result<(), AllocError>
        ensures ok { OnOk result (self.new ≡ self.old ++ write ∷ []) }
        ensures err { OnErr result (self.new ≡ self.old) }
    {
        let number = self.writes.len();
        self.writes.push(write)?;
        match add_number(alloc, &mut self.index, &self.writes[number].key, number) {
            Ok(()) => Ok(()),
            Err(error) => {
                self.writes.pop();
                Err(error)
            }
        }
    }

    /// What the writes to the partition of a key join to.
    pub(crate) fn said(&self, alloc: Global, key: &PartKey) -> Result<Mutation, AllocError>
        ensures { IfOk result (λ change. IsJoinOf change (changes_to key.now self.now)) }
    {
        said_of(alloc, self.writes.as_slice(), &self.index, key)
    }

    /// The partitions of the writes, by ascending key.
    pub(crate) fn parts(&self, alloc: Global) -> Result<Vec<Partition>, AllocError>
        ensures { IfOk result (λ parts. IsParts parts.items self.now) }
    {
        parts_of(alloc, self.writes.as_slice(), &self.index)
    }
}

// What the writes to the partition of a key join to.
fn said_of(
    alloc: Global,
    writes: &[Write],
    index: &BTreeMap<PartKey, Vec<usize>>,
    key: &PartKey,
) -> Result<Mutation, AllocError>
    requires { IsIndexOf writes.now index.now }
    ensures { IfOk result (λ change. IsJoinOf change (changes_to key.now writes.now)) }
{
    joined(alloc, writes, numbers_at(index, key))
}

// The partition of a key.
fn part_of(
    alloc: Global,
    writes: &[Write],
    index: &BTreeMap<PartKey, Vec<usize>>,
    key: &PartKey,
) -> Result<Partition, AllocError>
    requires { IsIndexOf writes.now index.now }
    ensures key { IfOk result (λ part. part.key ≡ key.now) }
    ensures change { IfOk result (λ part. IsPartitionOf part writes.now) }
{
    let change = said_of(alloc, writes, index, key)?;
    change.holds_together();
    let key = key.copy(alloc)?;
    Ok(Partition { key, change })
}

// The partitions of writes, by ascending key.
fn parts_of(
    alloc: Global,
    writes: &[Write],
    index: &BTreeMap<PartKey, Vec<usize>>,
) -> Result<Vec<Partition>, AllocError>
    requires { IsIndexOf writes.now index.now }
    ensures { IfOk result (λ parts. IsParts parts.items writes.now) }
{
    let mut parts = Vec::new(alloc);
    for key in index.keys() {
        let part = part_of(alloc, writes, index, key)?;
        parts.push(part)?;
    }
    Ok(parts)
}
