//! Entries that are opened, and then detached or forgotten: tests of `rc_entries`.
ghost use Rattle.std.specs.Prelude.{◌≡◌, ◌≤◌, IfOk, IsSomeAnd, None};
ghost use Rattle.lsa_pool.specs.Room.{spare_of};
ghost use Rattle.rc_registry.specs.Registry.{AreFree};
ghost use Rattle.rc_memory.specs.Memory.{chain_at};
ghost use Rattle.rc_populate.specs.Filling.{IsEntryOpened};
ghost use Rattle.rc_entries.specs.Found.{entry_number};
ghost use Rattle.rc_entries.specs.Entries.{AreEntries};

use crate::values::nothing;
use rc_chain::Chains;
use rc_entries::Entries;
use rc_position::PartKey;
use std::alloc::{AllocError, Global};
use std::test::Fail;

// Opens an entry for a key, of which nothing stands at the head.
fn open_bare(
    alloc: Global,
    entries: &mut Entries,
    chains: &mut Chains<4096>,
    key: &PartKey,
) -> Result<u64, AllocError>
    requires entries { AreEntries entries.old chains.old }
    requires absent { entry_number entries.old key.now ≡ None }
    requires spare { 152 ≤ spare_of 4096 chains.old.region.usages }
    ensures { IfOk result (λ id. IsEntryOpened id None None 7 chains.old chains.new) }
{
    let head = nothing(alloc);
    entries.open(alloc, chains, key, 7, &head)
}

// A chain that nobody pins goes, whose only object is its end dummy.
fn drop_bare(chains: &mut Chains<4096>, id: u64)
    requires { IsSomeAnd (chain_at chains.old id) (λ k. AreFree k.chain.pins) }
{
    chains.detach(id);
    chains.free_one(id);
}

// Whether an entry is the only one, and found as this chain.
fn is_only(entries: &Entries, key: &PartKey, id: u64) -> bool {
    entries.find(key) == Some(id) && entries.len() == 1
}

// Whether an entry that is opened is found until it is detached, and its chain stays.
fn is_found_until_detached(
    alloc: Global,
    chains: &mut Chains<4096>,
    entries: &mut Entries,
    key: &PartKey,
) -> Result<bool, AllocError>
    requires entries { AreEntries entries.old chains.old }
    requires absent { entry_number entries.old key.now ≡ None }
    requires spare { 152 ≤ spare_of 4096 chains.old.region.usages }
{
    let id = open_bare(alloc, entries, chains, key)?;
    let found = is_only(entries, key, id);
    entries.detach(chains, key);
    Ok(found && entries.find(key).is_none() && chains.is_there(id))
}

// Whether an entry whose chain goes is found until it is forgotten.
fn is_found_until_forgotten(
    alloc: Global,
    chains: &mut Chains<4096>,
    entries: &mut Entries,
    key: &PartKey,
) -> Result<bool, AllocError>
    requires entries { AreEntries entries.old chains.old }
    requires absent { entry_number entries.old key.now ≡ None }
    requires spare { 152 ≤ spare_of 4096 chains.old.region.usages }
{
    let id = open_bare(alloc, entries, chains, key)?;
    drop_bare(chains, id);
    let found = entries.find(key) == Some(id) && !chains.is_there(id);
    entries.forget_dropped(chains);
    Ok(found && entries.find(key).is_none())
}

// An entry that is detached is found no more, and its chain stays.
#[test]
fn a_detached_entry_is_not_found(rt: HostRuntime) -> Result<(), Fail> {
    let key = PartKey::from_slice(rt.alloc(), b"p")?;
    let mut chains = Chains::<4096>::open(rt.alloc(), 4)?;
    let mut entries = Entries::new(rt.alloc());
    assert!(rt; is_found_until_detached(rt.alloc(), &mut chains, &mut entries, &key)?);
    Ok(())
}

// The entry of a chain that is gone is found until it is forgotten.
#[test]
fn a_dropped_chain_is_forgotten(rt: HostRuntime) -> Result<(), Fail> {
    let key = PartKey::from_slice(rt.alloc(), b"p")?;
    let mut chains = Chains::<4096>::open(rt.alloc(), 4)?;
    let mut entries = Entries::new(rt.alloc());
    assert!(rt; is_found_until_forgotten(rt.alloc(), &mut chains, &mut entries, &key)?);
    Ok(())
}
