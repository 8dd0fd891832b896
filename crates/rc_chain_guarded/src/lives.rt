//! The calls on chains as a whole. Each tests what it needs, and answers whether it was made.

ghost use Rattle.std.specs.Prelude.{◌≡◌, ◌<◌, ◌≤◌, ℕ, suc, true, false, None, Some, IfSome, length};
ghost use Rattle.lsa_pool.specs.Room.{spare_of};
ghost use Rattle.rc_core.specs.declared.entries.ChainKind.{ChainKind as Kind};
ghost use Rattle.rc_registry.specs.Registry.{AreFree};
ghost use Rattle.rc_memory.specs.Memory.{KeptChain, HasChain, chain_at};
ghost use Rattle.rc_memory.specs.Changes.{CanDrop};
ghost use Rattle.rc_chain_guarded.specs.Guarded.{IsTracked};
ghost use Rattle.rc_chain_guarded.specs.calls.Inner.{IsBegun};

use crate::homes::{SEGMENT, has_room};
use crate::known::{Known, Numbered};
use rc_cell::Tomb;
use rc_chain::{ChainKind, Chains};
use std::alloc::AllocError;

/// `new_chain`: the number of the chain.
pub fn new_chain(
    chains: &mut Chains<SEGMENT>,
    known: &mut Known,
    kind: ChainKind,
    phase: u64,
    pt: Option<Tomb>,
) -> Result<Option<u64>, AllocError>
    requires { IsTracked chains.old known.old }
    ensures { IsTracked chains.new known.new }
{
    if !has_room(chains, known) {
        return Ok(None);
    }
    known.forget_full();
    match chains.new_chain(kind, phase, pt) {
        Ok(id) => Ok(Some(id)),
        Err(error) => Err(error),
    }
}

/// Whether a version may be put over those of a chain.
pub(crate) fn may_add(chains: &Chains<SEGMENT>, id: u64) -> bool
    ensures there { result ≡ true → HasChain chains.now id }
    ensures settled { result ≡ true → (k : KeptChain) → chain_at chains.now id ≡ Some k → k.chain.updating ≡ false }
    ensures found { result ≡ true → (k : KeptChain) → chain_at chains.now id ≡ Some k → k.chain.kind ≡ Kind.Cache → k.chain.attached ≡ true }
{
    if !chains.is_there(id) {
        return false;
    }
    if chains.is_updating(id) {
        return false;
    }
    match chains.kind(id) {
        ChainKind::Memtable => true,
        ChainKind::Cache => chains.is_attached(id),
    }
}

/// Whether a chain is one of a cache.
pub(crate) fn is_cache_chain(chains: &Chains<SEGMENT>, id: u64) -> bool
    requires { HasChain chains.now id }
    ensures { result ≡ true → (k : KeptChain) → chain_at chains.now id ≡ Some k → k.chain.kind ≡ Kind.Cache }
{
    match chains.kind(id) {
        ChainKind::Memtable => false,
        ChainKind::Cache => true,
    }
}

/// `add_version`. Of a version that is bare it is known on, or else it is this one.
pub fn add_version(
    chains: &mut Chains<SEGMENT>,
    known: &mut Known,
    id: u64,
    phase: u64,
    stays: bool,
) -> bool
    requires { IsTracked chains.old known.old }
    ensures { IsTracked chains.new known.new }
{
    if !has_room(chains, known) {
        return false;
    }
    if !may_add(chains, id) {
        return false;
    }
    let version = chains.versions(id);
    chains.add_version(id, phase);
    known.begin(id, version, stays);
    true
}

/// `add_version` of a cache chain: the number of the version.
pub(crate) fn begin_update(
    chains: &mut Chains<SEGMENT>,
    known: &mut Known,
    id: u64,
    phase: u64,
) -> Option<u64>
    requires known { IsTracked chains.old known.old }
    ensures known { IsTracked chains.new known.new }
    ensures full { IfSome result (λ j. known.new.full ≡ None) }
    ensures bare { IfSome result (λ j. known.new.bare ≡ None) }
    ensures room { IfSome result (λ j. 30000 ≤ spare_of 131072 chains.new.region.usages) }
    ensures fresh { IfSome result (λ j. IsBegun id j phase chains.new) }
{
    if !has_room(chains, known) {
        return None;
    }
    if !may_add(chains, id) {
        return None;
    }
    if !is_cache_chain(chains, id) {
        return None;
    }
    known.forget();
    let number = chains.versions(id);
    chains.add_version(id, phase);
    Some(number)
}

/// `end_update`, also where no update stands in the chain.
pub fn end_update(chains: &mut Chains<SEGMENT>, known: &mut Known, id: u64) -> bool
    requires { IsTracked chains.old known.old }
    ensures { IsTracked chains.new known.new }
{
    if !chains.is_there(id) {
        return false;
    }
    known.forget_full();
    chains.end_update(id);
    true
}

/// `detach`.
pub fn detach(chains: &mut Chains<SEGMENT>, known: &mut Known, id: u64) -> bool
    requires { IsTracked chains.old known.old }
    ensures { IsTracked chains.new known.new }
{
    if !chains.is_there(id) {
        return false;
    }
    known.forget_full();
    chains.detach(id);
    true
}

/// `set_passed`.
pub fn set_passed(chains: &mut Chains<SEGMENT>, _known: &Known, id: u64, passed: bool) -> bool
    requires { IsTracked chains.old _known.now }
    ensures { IsTracked chains.new _known.now }
{
    if !chains.is_there(id) {
        return false;
    }
    chains.set_passed(id, passed);
    true
}

/// `relabel`.
pub fn relabel(chains: &mut Chains<SEGMENT>, known: &mut Known, to: u64)
    requires { IsTracked chains.old known.old }
    ensures { IsTracked chains.new known.new }
{
    known.forget();
    chains.relabel(to);
}

/// `count`.
pub fn count(chains: &mut Chains<SEGMENT>, _known: &Known, evicted: u64, skipped: u64, shrunk: u64)
    requires { IsTracked chains.old _known.now }
    ensures { IsTracked chains.new _known.now }
{
    chains.count(evicted, skipped, shrunk);
}

/// `take_dropped`.
pub fn take_dropped(chains: &mut Chains<SEGMENT>, _known: &Known) -> Option<u64>
    requires { IsTracked chains.old _known.now }
    ensures { IsTracked chains.new _known.now }
{
    chains.take_dropped()
}

/// `sweep`.
pub fn sweep(chains: &mut Chains<SEGMENT>, known: &mut Known, id: u64) -> bool
    requires { IsTracked chains.old known.old }
    ensures { IsTracked chains.new known.new }
{
    if !chains.is_there(id) {
        return false;
    }
    known.forget_chain(id);
    chains.sweep(id);
    true
}

// Whether nobody pins a chain.
fn is_free(chains: &Chains<SEGMENT>, id: u64) -> bool
    requires { HasChain chains.now id }
    ensures { result ≡ true → (k : KeptChain) → chain_at chains.now id ≡ Some k → AreFree k.chain.pins }
{
    chains.known();
    for number in 0..chains.versions(id) {
        if chains.is_pinned(id, number) {
            return false;
        }
    }
    true
}

/// `free_one`.
pub fn free_one(chains: &mut Chains<SEGMENT>, known: &mut Known, id: u64) -> bool
    requires { IsTracked chains.old known.old }
    ensures { IsTracked chains.new known.new }
{
    if !chains.is_there(id) {
        return false;
    }
    if chains.is_attached(id) {
        return false;
    }
    if !is_free(chains, id) {
        return false;
    }
    chains.known();
    known.forget_chain(id);
    chains.free_one(id);
    true
}

// Whether a bare version may be dropped.
fn may_drop(chains: &Chains<SEGMENT>, id: u64, number: u64) -> bool
    requires { HasChain chains.now id }
    ensures free { result ≡ true → (k : KeptChain) → chain_at chains.now id ≡ Some k → CanDrop k.chain number }
    ensures older { result ≡ true → (k : KeptChain) → chain_at chains.now id ≡ Some k → suc number < length k.chain.versions }
{
    let versions = chains.versions(id);
    if number >= versions.saturating_sub(1) {
        return false;
    }
    if chains.is_pinned(id, number) {
        return false;
    }
    if !chains.is_updating(id) {
        return true;
    }
    if versions <= 2 {
        return false;
    }
    true
}

/// `drop_version`, of the version that is known as bare: which one.
pub fn drop_version(chains: &mut Chains<SEGMENT>, known: &mut Known) -> Option<Numbered>
    requires { IsTracked chains.old known.old }
    ensures { IsTracked chains.new known.new }
{
    match known.bare {
        Some(bare) => {
            if !may_drop(chains, bare.chain, bare.version) {
                return None;
            }
            known.forget();
            chains.drop_version(bare.chain, bare.version);
            Some(bare)
        }
        None => None,
    }
}
