//! Where a call finds what it is about: a version, room, an entry by its position, and what an object says of its place.

ghost use Rattle.std.specs.Prelude.{◌≡◌, ◌≤◌, true, Some, IfSome, IsSome};
ghost use Rattle.lsa_pool.specs.Room.{spare_of};
ghost use Rattle.lsa_region.specs.Region.{body};
ghost use Rattle.rc_rowcode.specs.Spelling.{KeyFits};
ghost use Rattle.rc_memory.specs.Memory.{HasVersion, IsMemberObject};
ghost use Rattle.rc_memory.specs.Changes.{LastIsListed, member_at};
ghost use Rattle.rc_chain_guarded.specs.Guarded.{IsTracked};
ghost use Rattle.rc_chain_guarded.specs.calls.Inner.{IsKnownBeside, IsLastListed};

use crate::known::{Known, Numbered};
use lsa_kinds::Kind;
use lsa_move::Ensured;
use lsa_region::{Ref, Region};
use rc_chain::Chains;
use rc_position::Pos;
use rc_rowcode::read_pos;
use std::alloc::{AllocError, Global};

/// The size of a segment. An eighth of it is more than any object takes.
pub const SEGMENT: usize = 131_072;

/// More than all that a call makes takes.
pub(crate) const ROOM: usize = 40_000;

/// Whether a chain has a version of a number.
pub fn has_version(chains: &Chains<SEGMENT>, id: u64, number: u64) -> bool
    ensures { result ≡ true → HasVersion chains.now id number }
{
    if !chains.is_there(id) {
        return false;
    }
    number < chains.versions(id)
}

/// Whether an entry may be made in a version: it is there, and where an update stands in it each of its entries is in the recency list.
pub(crate) fn may_make(chains: &Chains<SEGMENT>, known: &Known, id: u64, number: u64) -> bool
    requires { IsTracked chains.now known.now }
    ensures there { result ≡ true → HasVersion chains.now id number }
    ensures last { result ≡ true → IsLastListed id number chains.now }
{
    chains.known();
    if !has_version(chains, id, number) {
        return false;
    }
    if !chains.is_updating(id) {
        return true;
    }
    if number < chains.versions(id).saturating_sub(1) {
        return true;
    }
    is_full(known, id)
}

// Whether each entry of the version of a chain that is under update is in the recency list.
fn is_full(known: &Known, id: u64) -> bool
    ensures { result ≡ true → known.now.full ≡ Some id }
{
    match known.full {
        Some(full) => full == id,
        None => false,
    }
}

/// Whether a range tombstone may be joined in a chain: where an update stands in it, each entry there is in the recency list.
pub(crate) fn may_join(chains: &Chains<SEGMENT>, known: &Known, id: u64, number: u64) -> bool
    requires { IsTracked chains.now known.now }
    ensures there { result ≡ true → HasVersion chains.now id number }
    ensures last { result ≡ true → LastIsListed id chains.now }
{
    chains.known();
    if !has_version(chains, id, number) {
        return false;
    }
    if !chains.is_updating(id) {
        return true;
    }
    is_full(known, id)
}

/// Makes room for what a call makes, by moves where it must; false where there is none.
pub fn has_room(chains: &mut Chains<SEGMENT>, _known: &Known) -> bool
    requires { IsTracked chains.old _known.now }
    ensures known { IsTracked chains.new _known.now }
    ensures room { result ≡ true → 40000 ≤ spare_of 131072 chains.new.region.usages }
{
    match chains.ensure(ROOM) {
        Ensured::Ready => true,
        Ensured::Full => false,
    }
}

/// Empties a segment, so that its objects move; false where none is sparse.
pub fn empty_one(chains: &mut Chains<SEGMENT>, _known: &Known) -> bool
    requires { IsTracked chains.old _known.now }
    ensures { IsTracked chains.new _known.now }
{
    chains.compact_one()
}

/// The entry of a version at a position, where a split makes one if there is none; none where no entry may be made.
pub(crate) fn object_at(
    chains: &mut Chains<SEGMENT>,
    known: &mut Known,
    at: Numbered,
    x: &Pos,
) -> Option<Ref>
    requires known { IsTracked chains.old known.old }
    requires limits { KeyFits x.now.prefix }
    ensures known { IsTracked chains.new known.new }
    ensures here { IfSome result (λ r. IsMemberObject chains.new r (member_at at.chain at.version (Some x.now))) }
    ensures there { IfSome result (λ r. HasVersion chains.new at.chain at.version) }
    ensures beside { IfSome result (λ r. IsKnownBeside at.chain at.version known.new known.new) }
    ensures room { IfSome result (λ r. 30000 ≤ spare_of 131072 chains.new.region.usages) }
{
    if !has_room(chains, known) {
        return None;
    }
    if !may_make(chains, known, at.chain, at.version) {
        return None;
    }
    known.forget_bare(at.chain, at.version);
    chains.known();
    Some(chains.split(at.chain, at.version, x))
}

/// The position in the code of an entry; none of a static row.
pub(crate) fn position_of(
    alloc: Global,
    region: &Region<SEGMENT>,
    r: Ref,
) -> Result<Option<Pos>, AllocError>
    requires { IsSome (body region.now r) }
{
    match region.kind(r) {
        Kind::RowEntry | Kind::Dummy => position_in(alloc, region.bytes(r)),
        Kind::Version | Kind::Static => Ok(None),
    }
}

// The position whose code stands behind the fixed bytes of an entry.
fn position_in(alloc: Global, bytes: &[u8]) -> Result<Option<Pos>, AllocError> {
    match bytes.get(32..) {
        Some(code) => match read_pos(alloc, code)? {
            Some((x, _size)) => Ok(Some(x)),
            None => Ok(None),
        },
        None => Ok(None),
    }
}
