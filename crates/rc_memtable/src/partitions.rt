//! The partitions of a memtable: what each chain says, with its key.
ghost use Rattle.std.specs.Prelude.{◌≡◌, ℕ, List as Sequence, [], ◌∷◌, Some, IfOk};
ghost use Rattle.rc_schema.specs.SchemaValue.{SchemaValue};
ghost use Rattle.rc_mutation.specs.declared.mutations.Mutation.{Mutation as Change};
ghost use Rattle.rc_mutation.specs.declared.mutations.Write.{Write as Written};
ghost use Rattle.rc_mutation.specs.Fragments.{IsParts};
ghost use Rattle.rc_mutation.specs.Source.{IsMutation, SameSource};
ghost use Rattle.rc_memory.specs.Memory.{KeptChain, chain_at};
ghost use Rattle.rc_memtable.specs.Changes.{KeepsChanges};
ghost use Rattle.rc_memtable.specs.Partitions.{AreAsBefore};
ghost use Rattle.rc_memtable.specs.Writes.{HasWrites};

use crate::reading::read_mutation;
use rc_chain::Chains;
use rc_mutation::{Mutation, Partition};
use rc_position::PartKey;
use std::alloc::{AllocError, Global};
use std::collections::BTreeMap;

// What a memtable's chain says, read by a snapshot that is taken back. The only error is want of memory.
fn read_chain<const S: usize>(
    alloc: Global,
    chains: &mut Chains<S>,
    id: u64,
) -> Result<Mutation, AllocError>
    requires { (schema : SchemaValue) × (changes : Sequence Change) × (k : KeptChain) × (chain_at chains.old id ≡ Some k) × KeepsChanges schema k.chain changes }
    ensures said { (schema : SchemaValue) (changes : Sequence Change) (k : KeptChain) → chain_at chains.old id ≡ Some k → KeepsChanges schema k.chain changes → IfOk result (λ m. SameSource (m ∷ []) changes) }
    ensures stands { (schema : SchemaValue) (keys : Sequence (Sequence ℕ × ℕ)) (writes : Sequence Written) → HasWrites schema keys chains.old writes → HasWrites schema keys chains.new writes }
    ensures left { AreAsBefore chains.old chains.new }
{
    chains.known();
    let snap = chains.snapshot(id)?;
    let read = read_mutation(alloc, chains, &snap);
    chains.release(snap);
    read
}

// The partition of a key, whose chain has this number. The only error is want of memory.
fn partition_of<const S: usize>(
    alloc: Global,
    chains: &mut Chains<S>,
    key: &PartKey,
    id: u64,
) -> Result<Partition, AllocError>
    requires { (schema : SchemaValue) × (changes : Sequence Change) × (k : KeptChain) × (chain_at chains.old id ≡ Some k) × KeepsChanges schema k.chain changes }
    ensures key { IfOk result (λ p. p.key ≡ key.now) }
    ensures said { (schema : SchemaValue) (changes : Sequence Change) (k : KeptChain) → chain_at chains.old id ≡ Some k → KeepsChanges schema k.chain changes → IfOk result (λ p. IsMutation p.change × SameSource (p.change ∷ []) changes) }
    ensures stands { (schema : SchemaValue) (keys : Sequence (Sequence ℕ × ℕ)) (writes : Sequence Written) → HasWrites schema keys chains.old writes → HasWrites schema keys chains.new writes }
    ensures left { AreAsBefore chains.old chains.new }
{
    let change = read_chain(alloc, chains, id)?;
    change.holds_together();
    let key = key.copy(alloc)?;
    Ok(Partition { key, change })
}

/// The partitions of the chains of these keys, by ascending key. The only error is want of memory.
pub(crate) fn partitions_of<const S: usize>(
    alloc: Global,
    numbers: &BTreeMap<PartKey, u64>,
    chains: &mut Chains<S>,
) -> Result<Vec<Partition>, AllocError>
    requires { (schema : SchemaValue) × (writes : Sequence Written) × HasWrites schema numbers.now.entries chains.old writes }
    ensures parts { (schema : SchemaValue) (writes : Sequence Written) → HasWrites schema numbers.now.entries chains.old writes → IfOk result (λ parts. IsParts parts.items writes) }
    ensures stands { (schema : SchemaValue) (keys : Sequence (Sequence ℕ × ℕ)) (writes : Sequence Written) → HasWrites schema keys chains.old writes → HasWrites schema keys chains.new writes }
    ensures left { AreAsBefore chains.old chains.new }
{
    let mut parts = Vec::new(alloc);
    for (key, id) in numbers {
        let part = partition_of(alloc, chains, key, *id)?;
        parts.push(part)?;
    }
    Ok(parts)
}
