//! The calls on one version.

ghost use Rattle.rc_rowcode.specs.Spelling.{KeyFits};
ghost use Rattle.rc_chain_guarded.specs.Guarded.{IsTracked};

use crate::homes::{SEGMENT, has_version, object_at};
use crate::known::{Known, Numbered};
use rc_cell::Tomb;
use rc_chain::Chains;
use rc_core::Flag;
use rc_plain_chains::is_end;
use rc_position::Pos;
use std::alloc::Global;

/// `split`.
pub fn split(chains: &mut Chains<SEGMENT>, known: &mut Known, at: Numbered, x: &Pos) -> bool
    requires known { IsTracked chains.old known.old }
    requires limits { KeyFits x.now.prefix }
    ensures { IsTracked chains.new known.new }
{
    object_at(chains, known, at, x).is_some()
}

/// `set_flags`, of the entry that a split gives.
pub fn set_flags(
    chains: &mut Chains<SEGMENT>,
    known: &mut Known,
    at: Numbered,
    x: &Pos,
    on: Flag,
    gap: Flag,
) -> bool
    requires known { IsTracked chains.old known.old }
    requires limits { KeyFits x.now.prefix }
    ensures { IsTracked chains.new known.new }
{
    match object_at(chains, known, at, x) {
        Some(e) => {
            chains.set_flags(e, on, gap);
            true
        }
        None => false,
    }
}

/// `set_tombs`, of such an entry.
pub fn set_tombs(
    chains: &mut Chains<SEGMENT>,
    known: &mut Known,
    at: Numbered,
    x: &Pos,
    on: Option<Tomb>,
    gap: Option<Tomb>,
) -> bool
    requires known { IsTracked chains.old known.old }
    requires limits { KeyFits x.now.prefix }
    ensures { IsTracked chains.new known.new }
{
    match object_at(chains, known, at, x) {
        Some(e) => {
            chains.set_tombs(e, on, gap);
            true
        }
        None => false,
    }
}

/// `drop_entry`, of such an entry, which is not the end dummy.
pub fn drop_entry(
    alloc: Global,
    chains: &mut Chains<SEGMENT>,
    known: &mut Known,
    at: Numbered,
    x: &Pos,
) -> bool
    requires known { IsTracked chains.old known.old }
    requires limits { KeyFits x.now.prefix }
    ensures { IsTracked chains.new known.new }
{
    if is_end(alloc, x) {
        return false;
    }
    match object_at(chains, known, at, x) {
        Some(e) => {
            known.forget_full();
            chains.drop_entry(at.chain, at.version, e);
            true
        }
        None => false,
    }
}

/// `drop_static`.
pub fn drop_static(chains: &mut Chains<SEGMENT>, known: &mut Known, at: Numbered) -> bool
    requires { IsTracked chains.old known.old }
    ensures { IsTracked chains.new known.new }
{
    if !has_version(chains, at.chain, at.version) {
        return false;
    }
    known.forget_bare(at.chain, at.version);
    chains.drop_static(at.chain, at.version);
    true
}

/// `join_pt`.
pub fn join_pt(chains: &mut Chains<SEGMENT>, known: &mut Known, at: Numbered, tomb: Tomb) -> bool
    requires { IsTracked chains.old known.old }
    ensures { IsTracked chains.new known.new }
{
    if !has_version(chains, at.chain, at.version) {
        return false;
    }
    known.forget_bare(at.chain, at.version);
    chains.join_pt(at.chain, at.version, tomb);
    true
}

/// `set_static_flag`.
pub fn set_static_flag(
    chains: &mut Chains<SEGMENT>,
    known: &mut Known,
    at: Numbered,
    flag: Flag,
) -> bool
    requires { IsTracked chains.old known.old }
    ensures { IsTracked chains.new known.new }
{
    if !has_version(chains, at.chain, at.version) {
        return false;
    }
    known.forget_bare(at.chain, at.version);
    chains.set_static_flag(at.chain, at.version, flag);
    true
}
