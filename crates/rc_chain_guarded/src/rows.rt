//! Rows and range tombstones that are joined to a version.

ghost use Rattle.std.specs.Prelude.{◌≡◌, ◌≤◌, Some, IfSome};
ghost use Rattle.rc_cell.specs.declared.rows.Row.{Row as Joined};
ghost use Rattle.rc_cell.specs.Winner.{IsRow};
ghost use Rattle.rc_core.specs.Version.{On, finding_in};
ghost use Rattle.lsa_pool.specs.Room.{spare_of};
ghost use Rattle.rc_position.specs.Position.{IsBefore, row_pos};
ghost use Rattle.rc_rowcode.specs.Spelling.{KeyFits, RowFits};
ghost use Rattle.rc_memory.specs.Memory.{IsMemberObject};
ghost use Rattle.rc_memory.specs.Changes.{OfVersion, member_at};
ghost use Rattle.rc_chain_guarded.specs.Guarded.{IsTracked};

use crate::homes::{SEGMENT, has_room, has_version, may_join, may_make};
use crate::known::{Known, Numbered};
use lsa_region::Ref;
use rc_cell::{Row, Tomb};
use rc_chain::Chains;
use rc_core::Flag;
use rc_position::{Key, Pos};
use rc_rowcode::row_in_range;

/// `join_row`: the entry.
pub fn join_row(
    chains: &mut Chains<SEGMENT>,
    known: &mut Known,
    at: Numbered,
    key: &Key,
    row: &Row,
) -> Option<Ref>
    requires known { IsTracked chains.old known.old }
    requires key { KeyFits key.now }
    requires row { RowFits row.now }
    ensures known { IsTracked chains.new known.new }
    ensures row { IfSome result (λ r. (joined : Joined) × RowFits joined × IsRow joined × OfVersion chains.new at.chain at.version (λ k v. (finding_in (On (row_pos key.now)) v.entries).row ≡ Some joined)) }
    ensures room { IfSome result (λ r. 30000 ≤ spare_of 131072 chains.new.region.usages) }
    ensures here { IfSome result (λ r. IsMemberObject chains.new r (member_at at.chain at.version (Some (row_pos key.now)))) }
{
    if !has_room(chains, known) {
        return None;
    }
    if !may_make(chains, known, at.chain, at.version) {
        return None;
    }
    known.forget_bare(at.chain, at.version);
    chains.known();
    row_in_range(row);
    Some(chains.join_row(at.chain, at.version, key, row))
}

/// `join_range`.
pub fn join_range(
    chains: &mut Chains<SEGMENT>,
    known: &mut Known,
    at: Numbered,
    from: &Pos,
    to: &Pos,
    tomb: Tomb,
) -> bool
    requires known { IsTracked chains.old known.old }
    requires from { KeyFits from.now.prefix }
    requires to { KeyFits to.now.prefix }
    requires ascend { IsBefore from.now to.now }
    ensures { IsTracked chains.new known.new }
{
    if !has_room(chains, known) {
        return false;
    }
    if !may_join(chains, known, at.chain, at.version) {
        return false;
    }
    known.forget_bare(at.chain, at.version);
    chains.known();
    chains.join_range(at.chain, at.version, from, to, tomb);
    true
}

/// `join_static`.
pub fn join_static(
    chains: &mut Chains<SEGMENT>,
    known: &mut Known,
    at: Numbered,
    row: &Row,
    flag: Flag,
) -> bool
    requires known { IsTracked chains.old known.old }
    requires row { RowFits row.now }
    ensures { IsTracked chains.new known.new }
{
    if !has_room(chains, known) {
        return false;
    }
    if !has_version(chains, at.chain, at.version) {
        return false;
    }
    known.forget_bare(at.chain, at.version);
    row_in_range(row);
    chains.join_static(at.chain, at.version, row, flag);
    true
}
