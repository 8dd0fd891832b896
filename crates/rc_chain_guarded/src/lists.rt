//! The calls on the recency list.

ghost use Rattle.std.specs.Prelude.{◌≡◌, true, false, Some};
ghost use Rattle.rc_core.specs.declared.entries.ChainKind.{ChainKind as Kind};
ghost use Rattle.rc_rowcode.specs.Spelling.{KeyFits};
ghost use Rattle.rc_memory.specs.Memory.{KeptChain, HasChain, chain_at};
ghost use Rattle.rc_chain_guarded.specs.Guarded.{IsTracked};

use crate::homes::{SEGMENT, object_at};
use crate::known::{Known, Numbered};
use crate::lives::{begin_update, is_cache_chain};
use rc_chain::Chains;
use rc_plain_chains::{end_position, is_end};
use rc_position::Pos;
use std::alloc::Global;

// Whether the end dummies of a chain may be in the list: it is a cache chain in which no update stands.
fn may_list(chains: &Chains<SEGMENT>, id: u64) -> bool
    requires { HasChain chains.now id }
    ensures cached { result ≡ true → (k : KeptChain) → chain_at chains.now id ≡ Some k → k.chain.kind ≡ Kind.Cache }
    ensures settled { result ≡ true → (k : KeptChain) → chain_at chains.now id ≡ Some k → k.chain.updating ≡ false }
{
    if chains.is_updating(id) {
        return false;
    }
    is_cache_chain(chains, id)
}

/// `list`, of the end dummy of a version, where it is out of the list.
pub fn list_end(
    alloc: Global,
    chains: &mut Chains<SEGMENT>,
    known: &mut Known,
    at: Numbered,
) -> bool
    requires { IsTracked chains.old known.old }
    ensures { IsTracked chains.new known.new }
{
    match object_at(chains, known, at, &end_position(alloc)) {
        Some(end) => {
            chains.known();
            if !may_list(chains, at.chain) {
                return false;
            }
            if chains.is_listed(end) {
                return false;
            }
            chains.list(end);
            true
        }
        None => false,
    }
}

/// `unlist`, of the end dummy of a version, where it is in the list.
pub fn unlist_end(
    alloc: Global,
    chains: &mut Chains<SEGMENT>,
    known: &mut Known,
    at: Numbered,
) -> bool
    requires { IsTracked chains.old known.old }
    ensures { IsTracked chains.new known.new }
{
    match object_at(chains, known, at, &end_position(alloc)) {
        Some(end) => {
            if !chains.is_listed(end) {
                return false;
            }
            chains.unlist(end);
            true
        }
        None => false,
    }
}

/// `touch`, of the entry of a version that a split gives, where it is in the list.
pub fn touch(chains: &mut Chains<SEGMENT>, known: &mut Known, at: Numbered, x: &Pos) -> Option<bool>
    requires known { IsTracked chains.old known.old }
    requires limits { KeyFits x.now.prefix }
    ensures { IsTracked chains.new known.new }
{
    match object_at(chains, known, at, x) {
        Some(e) => {
            if !chains.is_listed(e) {
                return Some(false);
            }
            chains.touch(e);
            Some(true)
        }
        None => None,
    }
}

/// `unlist`, of the dummy at an update's place: the update begins, and the first dummy is made in its version.
pub fn unlist_last(
    alloc: Global,
    chains: &mut Chains<SEGMENT>,
    known: &mut Known,
    id: u64,
    phase: u64,
    x: &Pos,
) -> bool
    requires known { IsTracked chains.old known.old }
    requires limits { KeyFits x.now.prefix }
    ensures { IsTracked chains.new known.new }
{
    if is_end(alloc, x) {
        return false;
    }
    match begin_update(chains, known, id, phase) {
        Some(number) => {
            let e = chains.split(id, number, x);
            chains.known();
            chains.unlist(e);
            true
        }
        None => false,
    }
}
