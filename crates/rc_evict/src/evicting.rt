//! One eviction.
ghost use Rattle.std.specs.Prelude.{◌≡◌, ◌⊎◌, ◌+◌, ◌*◌, ◌/◌, ◌≤◌, ◌∷◌, ℕ, List as Sequence, [], IfNone, IfSome, Some};
ghost use Rattle.lsa_pool.specs.Room.{spare_of};
ghost use Rattle.lsa_region.specs.Region.{live_bytes};
ghost use Rattle.lsa_store.specs.declared.place.Ref.{Ref as Name};
ghost use Rattle.rc_rowcode.specs.Spelling.{pos_code};
ghost use Rattle.rc_core.specs.Version.{end_position};
ghost use Rattle.rc_memory.specs.Changes.{IsVersionChanged, Nowhere, OfVersion};
ghost use Rattle.rc_memory.specs.Memory.{Member, IsMemberObject, raised_by};
ghost use Rattle.rc_evict.specs.Crowding.{versions_of};
ghost use Rattle.rc_evict.specs.Evictions.{IsFrontLost, IsOneEvicted, IsSort, evicted_at, eviction_counted};

use lsa_kinds::Kind;
use lsa_region::Ref;
use rc_chain::Chains;
use rc_core::Flag;
use rc_object::{marks, position_code};

/// What was evicted.
#[derive(Clone, Copy, Debug, PartialEq, Eq)]
pub enum Evicted {
    /// An entry with a row.
    Row,
    /// An entry without a row, but for the last one of its version.
    Dummy,
    /// A static row.
    Static,
    /// The end dummy of a version, which stays there.
    EndDummy,
}

/// Evicts the least recently used object, as ScyllaDB's row cache does. A row entry or an inner dummy is taken out, and the gap before the next entry is Unknown and without a tombstone; a static row is taken out, and its flag is Unknown; an end dummy leaves the recency list and stays in its version, and the gap before it is Unknown and without a tombstone. None exactly where the list is empty, and then nothing is changed. A cache chain that nobody pins, that is not under update and of which nothing is listed any more is dropped with it. Each eviction is counted; the count stays at 2^64 - 1. No more is live; what is live is less by an object at most, of an eighth of a segment, and by 152 bytes for each version of a chain that was dropped.
pub fn evict_one<const S: usize>(chains: &mut Chains<S>) -> Option<Evicted>
    ensures some { IfSome result (λ sort. IsOneEvicted sort chains.old chains.new) }
    ensures none { IfNone result ((chains.old.recency ≡ []) × (chains.new ≡ chains.old)) }
    ensures live { live_bytes chains.old.region + 152 * versions_of chains.new ≤ live_bytes chains.new.region + S / 8 + 152 * versions_of chains.old }
    ensures versions { versions_of chains.new ≤ versions_of chains.old }
    ensures less { live_bytes chains.new.region ≤ live_bytes chains.old.region }
    ensures counted { chains.old.counts.evicted ≤ chains.new.counts.evicted }
    ensures shrunk { chains.new.counts.shrunk ≡ chains.old.counts.shrunk }
    ensures spare { spare_of S chains.new.region.usages ≡ spare_of S chains.old.region.usages }
{
    chains.known();
    match chains.front() {
        None => None,
        Some(r) => Some(evict(chains, r)),
    }
}

// Evicts the object at the front of the recency list.
fn evict<const S: usize>(chains: &mut Chains<S>, r: Ref) -> Evicted
    requires { (w : Member) × (rest : Sequence Member) × (chains.old.recency ≡ w ∷ rest) × IsMemberObject chains.old r w }
    ensures one { IsOneEvicted result chains.old chains.new }
    ensures live { live_bytes chains.old.region + 152 * versions_of chains.new ≤ live_bytes chains.new.region + S / 8 + 152 * versions_of chains.old }
    ensures versions { versions_of chains.new ≤ versions_of chains.old }
    ensures less { live_bytes chains.new.region ≤ live_bytes chains.old.region }
    ensures counted { chains.old.counts.evicted ≤ chains.new.counts.evicted }
    ensures shrunk { chains.new.counts.shrunk ≡ chains.old.counts.shrunk }
    ensures spare { spare_of S chains.new.region.usages ≡ spare_of S chains.old.region.usages }
{
    chains.known();
    let (id, _number) = chains.home(r);
    let sort = lose(chains, r);
    count_one(chains);
    chains.known();
    chains.sweep(id);
    chains.known();
    sort
}

// One more eviction is counted.
fn count_one<const S: usize>(chains: &mut Chains<S>)
    ensures counted { chains.new ≡ eviction_counted chains.old }
    ensures more { chains.old.counts.evicted ≤ chains.new.counts.evicted }
{
    let counts = chains.counts();
    in_range(counts.evicted);
    in_range(counts.skipped);
    in_range(counts.shrunk);
    chains.count(1, 0, 0);
}

// A count raised by nothing is as it was, and raised by one it is no less.
fn in_range(_count: u64)
    ensures same { raised_by 0 _count ≡ _count }
    ensures more { _count ≤ raised_by 1 _count }
{}

// Takes the object at the front of the recency list out of it and out of its version, in which an end dummy stays, and tells of which sort it is.
fn lose<const S: usize>(chains: &mut Chains<S>, r: Ref) -> Evicted
    requires { (w : Member) × (rest : Sequence Member) × (chains.old.recency ≡ w ∷ rest) × IsMemberObject chains.old r w }
    ensures lost { (w : Member) × IsMemberObject chains.old r w × IsFrontLost result w chains.old chains.new }
    ensures spare { spare_of S chains.new.region.usages ≡ spare_of S chains.old.region.usages }
{
    chains.known();
    let (id, number) = chains.home(r);
    let sort = sort_of(chains, r);
    match sort {
        Evicted::Row | Evicted::Dummy => chains.drop_entry(id, number, r),
        Evicted::Static => chains.drop_static(id, number),
        Evicted::EndDummy => lose_end(chains, r),
    }
    sort
}

// Takes the end dummy of a version, which is at the front of the recency list, out of it: the gap before it is Unknown then, and without a tombstone.
fn lose_end<const S: usize>(chains: &mut Chains<S>, end: Ref)
    requires { (w : Member) × (rest : Sequence Member) × (chains.old.recency ≡ w ∷ rest) × IsMemberObject chains.old end w × (w.position ≡ Some end_position) }
    ensures lost { (w : Member) (rest : Sequence Member) → chains.old.recency ≡ w ∷ rest → IsMemberObject chains.old end w → (chains.new.recency ≡ rest) × IsVersionChanged w.chain w.version (evicted_at w.position) Nowhere chains.old chains.new }
    ensures spare { spare_of S chains.new.region.usages ≡ spare_of S chains.old.region.usages }
{
    chains.known();
    let (at, _gap) = marks(chains.region(), end);
    chains.set_flags(end, at.flag, Flag::Unknown);
    chains.set_tombs(end, at.tomb, None);
    chains.unlist(end);
}

// Of which sort an object at a place is.
fn sort_of<const S: usize>(chains: &Chains<S>, r: Ref) -> Evicted
    requires { (w : Member) × IsMemberObject chains.now r w }
    ensures { (w : Member) → IsMemberObject chains.now r w → OfVersion chains.now w.chain w.version (λ k v. IsSort result w.position v) }
{
    chains.known();
    let region = chains.region();
    match region.kind(r) {
        Kind::RowEntry => Evicted::Row,
        Kind::Static | Kind::Version => Evicted::Static,
        Kind::Dummy => dummy_sort(position_code(region, r)),
    }
}

// Of which sort the dummy is whose position has this code.
fn dummy_sort(code: &[u8]) -> Evicted
    ensures end { result ≡ Evicted.EndDummy → code.now ≡ pos_code end_position }
    ensures inner { result ≡ Evicted.Dummy → code.now ≡ pos_code end_position → ⊥ }
    ensures only { (result ≡ Evicted.EndDummy) ⊎ (result ≡ Evicted.Dummy) }
{
    match code {
        [2, 0] => Evicted::EndDummy,
        _ => Evicted::Dummy,
    }
}
