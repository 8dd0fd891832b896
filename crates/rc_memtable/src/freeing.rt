//! How a memtable's chains are let go.
ghost use Rattle.std.specs.Prelude.{◌≡◌, ◌↔◌, [], true, false, Some, IsTrue, IsSomeAnd, map};
ghost use Rattle.rc_core.specs.declared.entries.ChainKind.{ChainKind as Kind};
ghost use Rattle.rc_registry.specs.Registry.{AreFree};
ghost use Rattle.rc_memory.specs.Memory.{KeptChain, HasChain, HasPin, chain_at, on_chain, with_chains, without_snapshot};
ghost use Rattle.rc_memtable.specs.LetGo.{AreLetGo, IsFreedUnpinned, IsGone, IsLetGo};
ghost use Rattle.rc_memtable.specs.calls.Writing.{AreMemtables};

use rc_chain::{Chains, Snap};
use rc_position::PartKey;
use rc_units::laws::chaining::a_freed_object_leaves_less;
use std::collections::BTreeMap;

// Whether nobody pins a chain.
fn is_unpinned<const S: usize>(chains: &Chains<S>, id: u64) -> bool
    requires { HasChain chains.now id }
    ensures { (k : KeptChain) → chain_at chains.now id ≡ Some k → IsTrue result ↔ AreFree k.chain.pins }
{
    chains.known();
    for number in 0..chains.versions(id) {
        if chains.is_pinned(id, number) {
            return false;
        }
    }
    true
}

// Frees a chain that is no longer found by its key and that nobody pins, object by object.
fn free_chain<const S: usize>(chains: &mut Chains<S>, id: u64)
    requires { IsSomeAnd (chain_at chains.old id) (λ k. (k.chain.kind ≡ Kind.Memtable) × (k.chain.attached ≡ false) × AreFree k.chain.pins) }
    ensures { IsGone id chains.old chains.new }
{
    a_freed_object_leaves_less();
    chains.known();
    while chains.is_there(id) {
        chains.known();
        chains.free_one(id);
    }
    chains.known();
}

/// Frees a memtable's chain that is no longer found by its key, where nobody pins it: it is gone then, and its number is to be told. Else nothing is changed.
pub fn free_if_unpinned<const S: usize>(chains: &mut Chains<S>, id: u64)
    requires { IsSomeAnd (chain_at chains.old id) (λ k. (k.chain.kind ≡ Kind.Memtable) × (k.chain.attached ≡ false)) }
    ensures { IsFreedUnpinned id chains.old chains.new }
{
    if is_unpinned(chains, id) {
        free_chain(chains, id);
    }
}

/// Takes a snapshot of a memtable's chain back. Other snapshots keep their numbers. A chain that is no longer found by its key goes with its last snapshot.
pub fn release<const S: usize>(chains: &mut Chains<S>, s: Snap)
    requires pin { HasPin chains.old s.chain s.pin }
    requires memtable { IsSomeAnd (chain_at chains.old s.chain) (λ k. k.chain.kind ≡ Kind.Memtable) }
    ensures found { (k : KeptChain) → chain_at chains.old s.chain ≡ Some k → k.chain.attached ≡ true → chains.new ≡ with_chains (on_chain s.chain (without_snapshot s.pin) chains.old.chains) chains.old }
    ensures freed { (k : KeptChain) → chain_at chains.old s.chain ≡ Some k → k.chain.attached ≡ false → IsFreedUnpinned s.chain (with_chains (on_chain s.chain (without_snapshot s.pin) chains.old.chains) chains.old) chains.new }
{
    let id = s.chain;
    chains.release(s);
    if !chains.is_attached(id) {
        free_if_unpinned(chains, id);
    }
}

// A chain is no longer found by its key, and where nobody pins it it is gone.
fn let_go<const S: usize>(chains: &mut Chains<S>, id: u64)
    requires { IsSomeAnd (chain_at chains.old id) (λ k. k.chain.kind ≡ Kind.Memtable) }
    ensures { IsLetGo id chains.old chains.new }
{
    chains.known();
    chains.detach(id);
    chains.known();
    free_if_unpinned(chains, id);
}

/// Lets the chains of all keys go, by ascending key: none is found by its key any more, and those that nobody pins are freed.
pub(crate) fn let_all_go<const S: usize>(
    numbers: &mut BTreeMap<PartKey, u64>,
    chains: &mut Chains<S>,
)
    requires { AreMemtables numbers.old.entries chains.old }
    ensures none { numbers.new.entries ≡ [] }
    ensures gone { AreLetGo (map (λ e. e.1) numbers.old.entries) chains.old chains.new }
{
    while let Some((_key, id)) = numbers.pop_first() {
        let_go(chains, id);
    }
}
