//! Calls that take an object of another version.

ghost use Rattle.std.specs.Prelude.{◌≡◌, ◌≤◌, ◌∷◌, List as Sequence, true, None, IfSome};
ghost use Rattle.lsa_pool.specs.Room.{spare_of};
ghost use Rattle.rc_cell.specs.declared.rows.Row.{Row as Joined};
ghost use Rattle.rc_rowcode.specs.Spelling.{KeyFits, RowFits};
ghost use Rattle.rc_memory.specs.Memory.{Member, IsMemberObject};
ghost use Rattle.rc_memory.specs.Changes.{member_at};
ghost use Rattle.rc_chain_guarded.specs.Guarded.{IsTracked};
ghost use Rattle.rc_chain_guarded.specs.calls.Inner.{IsLone};

use crate::homes::{SEGMENT, has_version, may_make, object_at};
use crate::known::{Known, Numbered};
use crate::lives::begin_update;
use crate::rows::join_row;
use lsa_region::Ref;
use rc_cell::Row;
use rc_chain::Chains;
use rc_core::Flag;
use rc_position::{Key, Pos};
use rc_rowcode::row_in_range;

/// `split_like`, with the entry that a split of another version gives.
pub fn split_like(
    chains: &mut Chains<SEGMENT>,
    known: &mut Known,
    to: Numbered,
    from: Numbered,
    x: &Pos,
) -> bool
    requires known { IsTracked chains.old known.old }
    requires limits { KeyFits x.now.prefix }
    ensures { IsTracked chains.new known.new }
{
    if !may_make(chains, known, to.chain, to.version) {
        return false;
    }
    match object_at(chains, known, from, x) {
        Some(e) => {
            if !may_make(chains, known, to.chain, to.version) {
                return false;
            }
            known.forget_bare(to.chain, to.version);
            chains.known();
            let _made = chains.split_like(to.chain, to.version, e);
            true
        }
        None => false,
    }
}

/// `join_like`, with the entry that `join_row` of another version gives.
pub fn join_like(
    chains: &mut Chains<SEGMENT>,
    known: &mut Known,
    to: Numbered,
    from: Numbered,
    key: &Key,
    row: &Row,
) -> bool
    requires known { IsTracked chains.old known.old }
    requires key { KeyFits key.now }
    requires row { RowFits row.now }
    ensures { IsTracked chains.new known.new }
{
    if !may_make(chains, known, to.chain, to.version) {
        return false;
    }
    match join_row(chains, known, from, key, row) {
        Some(e) => {
            if !may_make(chains, known, to.chain, to.version) {
                return false;
            }
            known.forget_bare(to.chain, to.version);
            chains.known();
            let _made = chains.join_like(to.chain, to.version, e);
            true
        }
        None => false,
    }
}

// Turns the list until the first object is one of a version, of which the static row alone is in the list: this object, and how many turns it took.
fn first_of(chains: &mut Chains<SEGMENT>, _row: &Row, id: u64, number: u64) -> Option<(Ref, u64)>
    requires { IsLone id number _row.now chains.old }
    ensures chains { chains.new.chains ≡ chains.old.chains }
    ensures usages { chains.new.region.usages ≡ chains.old.region.usages }
    ensures first { IfSome result (λ p. IsMemberObject chains.new p.0 (member_at id number None)) }
{
    for turns in 0..chains.region().objects() {
        match chains.front() {
            Some(r) => {
                if is_home(chains, r, id, number) {
                    return Some((r, turns));
                }
                chains.touch(r);
            }
            None => return None,
        }
    }
    None
}

// Whether the first object of the list is one of a version.
fn is_home(chains: &Chains<SEGMENT>, r: Ref, id: u64, number: u64) -> bool
    requires { (w : Member) × (rest : Sequence Member) × (chains.now.recency ≡ w ∷ rest) × IsMemberObject chains.now r w }
    ensures { (row : Joined) → result ≡ true → IsLone id number row chains.now → IsMemberObject chains.now r (member_at id number None) }
{
    chains.known();
    let (chain, version) = chains.home(r);
    if chain != id {
        return false;
    }
    if version != number {
        return false;
    }
    true
}

// Puts a version over those of a cache chain, and joins a row to its static row: the number of the version.
fn begin_static(
    chains: &mut Chains<SEGMENT>,
    known: &mut Known,
    id: u64,
    phase: u64,
    row: &Row,
    flag: Flag,
) -> Option<u64>
    requires known { IsTracked chains.old known.old }
    requires row { RowFits row.now }
    ensures known { IsTracked chains.new known.new }
    ensures full { IfSome result (λ j. known.new.full ≡ None) }
    ensures bare { IfSome result (λ j. known.new.bare ≡ None) }
    ensures room { IfSome result (λ j. 20000 ≤ spare_of 131072 chains.new.region.usages) }
    ensures lone { IfSome result (λ j. IsLone id j row.now chains.new) }
{
    row_in_range(row);
    match begin_update(chains, known, id, phase) {
        Some(number) => {
            chains.join_static(id, number, row, flag);
            Some(number)
        }
        None => None,
    }
}

// Joins the row of such a version to another one.
fn join_first(
    chains: &mut Chains<SEGMENT>,
    known: &mut Known,
    to: Numbered,
    id: u64,
    number: u64,
    row: &Row,
) -> Option<u64>
    requires known { IsTracked chains.old known.old }
    requires full { known.old.full ≡ None }
    requires bare { known.old.bare ≡ None }
    requires row { RowFits row.now }
    requires room { 20000 ≤ spare_of 131072 chains.old.region.usages }
    requires lone { IsLone id number row.now chains.old }
    ensures { IsTracked chains.new known.new }
{
    row_in_range(row);
    match first_of(chains, row, id, number) {
        Some(found) => {
            chains.known();
            if !has_version(chains, to.chain, to.version) {
                return None;
            }
            let _made = chains.join_like(to.chain, to.version, found.0);
            Some(found.1)
        }
        None => None,
    }
}

/// `join_like`, with the static row of a version that is put over those of a cache chain, and to which the row is joined: how many objects stood before this row in the list.
pub fn join_static_like(
    chains: &mut Chains<SEGMENT>,
    known: &mut Known,
    to: Numbered,
    id: u64,
    phase: u64,
    row: &Row,
    flag: Flag,
) -> Option<u64>
    requires known { IsTracked chains.old known.old }
    requires row { RowFits row.now }
    ensures { IsTracked chains.new known.new }
{
    if !has_version(chains, to.chain, to.version) {
        return None;
    }
    match begin_static(chains, known, id, phase, row, flag) {
        Some(number) => join_first(chains, known, to, id, number, row),
        None => None,
    }
}
