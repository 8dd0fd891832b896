//! The numbers of chains by partition key.
ghost use Rattle.std.specs.Prelude.{◌≡◌, ◌+◌, ◌/◌, ◌≤◌, ℕ, List as Sequence, Some, None, IfOk, IsSome, OnErr, OnOk, cond};
ghost use Rattle.std.specs.BTreeMap.{is_at};
ghost use Rattle.std.specs.Map.{remove_entry};
ghost use Rattle.std.specs.Ordering.{eq_by_cmp};
ghost use Rattle.lsa_pool.specs.Room.{spare_of};
ghost use Rattle.rc_position.specs.Position.{bytes_cmp};
ghost use Rattle.rc_core.specs.declared.entries.ChainKind.TheVariants.{Memtable};
ghost use Rattle.rc_chain.specs.Lives.{IsChainMade, IsSameButSlots};
ghost use Rattle.rc_memtable.specs.Writes.{chain_of};

use rc_chain::{ChainKind, Chains};
use rc_position::PartKey;
use std::alloc::{AllocError, Global};
use std::collections::BTreeMap;

/// The number of the chain of a key. None where it has none.
pub(crate) fn number_of(numbers: &BTreeMap<PartKey, u64>, key: &PartKey) -> Option<u64>
    ensures { result ≡ chain_of numbers.now.entries key.now }
{
    numbers.get(key).copied()
}

// Gives a key that has a number another one.
fn set_number(numbers: &mut BTreeMap<PartKey, u64>, key: &PartKey, id: u64)
    requires { IsSome (chain_of numbers.old.entries key.now) }
    ensures { (q : Sequence ℕ) → chain_of numbers.new.entries q ≡ cond (eq_by_cmp bytes_cmp key.now q) (Some id) (chain_of numbers.old.entries q) }
{
    if let Some(number) = numbers.get_mut(key) {
        *number = id;
    }
}

// A place for a key that has no number. The only error is want of memory, which changes nothing.
fn add_place(
    numbers: &mut BTreeMap<PartKey, u64>,
    alloc: Global,
    key: &PartKey,
) -> Result<(), AllocError>
    requires absent { chain_of numbers.old.entries key.now ≡ None }
    ensures ok { OnOk result ((q : Sequence ℕ) → chain_of numbers.new.entries q ≡ cond (eq_by_cmp bytes_cmp key.now q) (Some 0) (chain_of numbers.old.entries q)) }
    ensures back { OnOk result (remove_entry (is_at (bytes_cmp key.now)) numbers.new.entries ≡ numbers.old.entries) }
    ensures same { OnErr result (numbers.new.entries ≡ numbers.old.entries) }
{
    let copy = key.copy(alloc)?;
    numbers.insert(copy, 0)?;
    Ok(())
}

// Takes the place of a key out.
fn drop_place(numbers: &mut BTreeMap<PartKey, u64>, key: &PartKey)
    ensures { numbers.new.entries ≡ remove_entry (is_at (bytes_cmp key.now)) numbers.old.entries }
{
    numbers.remove(key);
}

/// Makes a chain for a key that has none, and gives its number. The only error is want of memory, after which numbers and chains are as they were.
pub(crate) fn add_chain<const S: usize>(
    numbers: &mut BTreeMap<PartKey, u64>,
    alloc: Global,
    chains: &mut Chains<S>,
    key: &PartKey,
) -> Result<u64, AllocError>
    requires absent { chain_of numbers.old.entries key.now ≡ None }
    requires fits { 88 ≤ S / 8 }
    requires spare { 152 ≤ spare_of S chains.old.region.usages }
    ensures numbers { IfOk result (λ id. (q : Sequence ℕ) → chain_of numbers.new.entries q ≡ cond (eq_by_cmp bytes_cmp key.now q) (Some id) (chain_of numbers.old.entries q)) }
    ensures made { IfOk result (λ id. IsChainMade id Memtable None 0 chains.old.recency chains.old chains.new) }
    ensures spare { IfOk result (λ id. spare_of S chains.old.region.usages ≤ spare_of S chains.new.region.usages + 152) }
    ensures same { OnErr result (numbers.new.entries ≡ numbers.old.entries) }
    ensures err { OnErr result (IsSameButSlots chains.old chains.new) }
{
    add_place(numbers, alloc, key)?;
    match chains.new_chain(ChainKind::Memtable, 0, None) {
        Ok(id) => {
            set_number(numbers, key, id);
            Ok(id)
        }
        Err(error) => {
            drop_place(numbers, key);
            Err(error)
        }
    }
}
