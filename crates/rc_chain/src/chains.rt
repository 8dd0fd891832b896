//! All chains of a shard.
ghost use Rattle.std.specs.Prelude.{◌≡◌, ◌↔◌, ◌∷◌, ◌++◌, ◌+◌, ◌-◌, ◌*◌, ◌/◌, ◌%◌, ◌^◌, ◌<◌, ◌≤◌, ℕ, List as Sequence, [], true, false, Some, None, IfNone, IfOk, IfSome, IsSomeAnd, IsTrue, OnErr, length, is_some, cond, sum_by, Contains, IsSome, ◌⊎◌};
ghost use Rattle.lsa_pool.specs.Room.{free_count, spare_of};
ghost use Rattle.lsa_region.specs.Region.{body, live_bytes, objects, HasLayout, IsWell, Renamed, SameObjects};
ghost use Rattle.lsa_store.specs.declared.place.Ref.{Ref as Name};
ghost use Rattle.rc_core.specs.Chains.{IsPinned, at_place};
ghost use Rattle.rc_position.specs.declared.positions.Pos.{Pos as Position};
ghost use Rattle.rc_position.specs.Position.{Head};
ghost use Rattle.rc_memory.specs.Kept.{HasMemory, IsMemory, IsSoundChain, present};
ghost use Rattle.rc_memory.specs.Room.{ChainsFit, chain_bytes, chain_objects};
ghost use Rattle.rc_registry.specs.Registry.{AreOnce, IsAfter, IsNumberIn};
ghost use Rattle.rc_memory.specs.Memory.{KeptChain, Member, HasChain, HasVersion, IsMemberObject, IsNextChain, IsVersionAt, IsEmpty, IsSnapshotTaken, IsTold, IsUntouched, IsVersionObject, HasPin, chain_at, counts_raised, listed_as, mark_passed, on_chain, snapshot_number, under_new_names, with_chains, without_snapshot};
ghost use Rattle.lsa_move.specs.Room.{Compactions, IsCompacted, Tight};
ghost use Rattle.lsa_store.specs.Stock.{sparse_of};
ghost use Rattle.rc_core.specs.Steps.{MayPopulate, pin_at};
ghost use Rattle.rc_core.specs.Version.{Version, IsVersion};
ghost use Rattle.rc_memory.specs.Recency.{IsRecency, MayBeListed, MustBeListed};
ghost use Rattle.rc_memory.specs.Changes.{Nowhere, OfVersion, StandStill};
ghost use Rattle.rc_memory.specs.laws.One.{memory-prop};
ghost use Rattle.rc_version.specs.Versions.{IsVersionOf};
ghost use Rattle.rc_recency.specs.laws.Held.{IsStandingAs};
ghost use Rattle.rc_chain.specs.Held.{IsHeldAt};
ghost use Rattle.rc_chain.specs.Marked.{HasMarksAt};

use lsa_list::List;
use lsa_move::{Ensured, compact_one, ensure};
use lsa_region::{End, Ref, Region};
use rc_core::{ChainKind, Mark};
use rc_memory::{Counts, count, home, version};
use rc_object::{head_of, marks};
use rc_registry::Registry;
use rc_rowcode::Scratch;
use std::alloc::{AllocError, Global};
use std::marker::Model;

mod changes;
mod lives;
mod reads;
mod sweeps;

/// All chains of versions of a shard, with their snapshots, and the recency list through their entries and static rows. They stand in one region, in which objects may move in any call that takes `&mut self`.
#[derive(Drop)]
pub struct Chains<const S: usize> {
    alloc: Global,
    region: Region<S>,
    recency: List,
    registry: Registry,
    counts: Counts,
    scratch: Scratch,
    other: Scratch,
    ghost memory: { HasMemory S recency region registry counts } by { memory-prop S recency region registry counts },
}

impl<const S: usize> Model for Chains<S> {
    ghost use Rattle.std.specs.Prelude.{◌≡◌, ◌≤◌, ◌^◌};
    ghost use Rattle.rc_memory.specs.Kept.{IsMemory};
    ghost use Rattle.rc_memory.specs.Memory.{Memory};

    ghost Value = { Memory };

    ghost view = { λ c. c.memory.0 };

    ghost invariant = { λ c. (m : Memory) × IsMemory S c.recency c.region c.registry c.counts m × (c.scratch.size ≡ S) × (c.other.size ≡ S) × (S ≤ 2 ^ 27) };
}

/// A snapshot of a chain: it sees the version that it pins, with all older ones, until it is given to `release`.
pub struct Snap {
    /// The number of the chain.
    pub chain: u64,
    /// The number of the snapshot in its chain.
    pub pin: u64,
    /// The phase of the version that it pins.
    pub phase: u64,
}

impl<const S: usize> Chains<S> {
    /// No chain, in a region of so many segments, all of them taken now.
    pub fn open(alloc: Global, segments: u32) -> Result<Self, AllocError>
        requires few { segments ≤ 4096 }
        requires some { 4 ≤ segments }
        requires small { S ≤ 2 ^ 27 }
        requires even { S % 64 ≡ 0 }
        ensures empty { IfOk result IsEmpty }
        ensures spare { IfOk result (λ m. spare_of S m.region.usages ≡ (segments - 2) * (7 * S / 8) + (S - S / 8)) }
        ensures free { IfOk result (λ m. free_count m.region.usages + 1 ≡ segments) }
        ensures budget { IfOk result (λ m. length m.region.usages ≡ segments) }
        ensures live { IfOk result (λ m. live_bytes m.region ≡ 0) }
        ensures numbers { IfOk result (λ m. (m.region.epoch ≡ 0) × (m.region.moved ≡ 0) × (m.region.compacted ≡ 0)) }
    {
        let mut region = Region::open(alloc, segments)?;
        let front = region.add_root(alloc)?;
        let back = region.add_root(alloc)?;
        region.link(End::Slot(front), End::Slot(back));
        let scratch = Scratch::new(alloc, S)?;
        let other = Scratch::new(alloc, S)?;
        Ok(Chains {
            alloc,
            region,
            recency: List { front, back },
            registry: Registry::new(alloc),
            counts: Counts {
                evicted: 0,
                skipped: 0,
                shrunk: 0,
            },
            scratch,
            other,
        })
    }

    /// What all chains keep: each is sound, the recency list has what it must and nothing else, and what may be joined fits; what stands at a place holds what its version has there; each object of the region is a version of a chain or stands at a place of one, so that what is live, and how many objects there are, is the sum over the chains. It does nothing.
    pub fn known(&self)
        ensures sound { (id : ℕ) → IfSome (chain_at self.now id) (λ k. IsSoundChain k.chain) }
        ensures rule { IsRecency self.now }
        ensures fit { ChainsFit S self.now }
        ensures versions { (id j : ℕ) → OfVersion self.now id j (λ k v. IsVersion v) }
        ensures live { live_bytes self.now.region ≡ sum_by chain_bytes (present self.now.chains) }
        ensures objects { objects self.now.region ≡ sum_by chain_objects (present self.now.chains) }
        ensures each { (r : Name) → IsSome (body self.now.region r) → ((id : ℕ) × (j : ℕ) × IsVersionObject self.now id j r) ⊎ ((w : Member) × IsMemberObject self.now r w) }
        ensures held { (r : Name) (w : Member) → IsMemberObject self.now r w → IsHeldAt self.now r w }
        ensures place { (r : Name) (w x : Member) → IsMemberObject self.now r w → IsMemberObject self.now r x → w ≡ x }
        ensures told { (id : ℕ) → IsNumberIn self.now.dropped id → chain_at self.now id ≡ None }
        ensures once { AreOnce self.now.dropped }
        ensures well { IsWell self.now.region }
        ensures layout { HasLayout self.now.region }
    {
        self.region.known();
        self.registry.known();
    }

    /// The object of each version of a chain is that version in the region, with the objects of its entries in their order: so these can be walked. It does nothing.
    pub fn versions_stand(&self)
        ensures { (id j : ℕ) (n : Name) → IsVersionObject self.now id j n → OfVersion self.now id j (λ k v. (refs : Sequence Name) × IsVersionOf self.now.region n refs v) }
    {
        let _ = &self.region;
    }

    /// The objects of a version's entries, in whose order it stands in the region, are those that stand at its places, whatever the recency list is: so each object that a walk comes to has a place. It does nothing.
    pub fn places_stand(&self)
        ensures { (id j : ℕ) (n : Name) → IsVersionObject self.now id j n → OfVersion self.now id j (λ k v. (s : IsStandingAs self.now.standing id j v n) × IsVersionOf self.now.region n s.entries v) }
    {
        let _ = &self.region;
    }

    /// Raises the counts by so many evictions, by how often no room was found, and by how many bytes the chains became smaller. Each stays at 2^64 - 1.
    pub fn count(&mut self, evicted: u64, skipped: u64, shrunk: u64)
        ensures { self.new ≡ counts_raised evicted skipped shrunk self.old }
    {
        self.counts = Counts {
            evicted: self.counts.evicted.saturating_add(evicted),
            skipped: self.counts.skipped.saturating_add(skipped),
            shrunk: self.counts.shrunk.saturating_add(shrunk),
        };
    }

    /// The region in which the chains stand.
    pub fn region(&self) -> &Region<S>
        ensures { result.now ≡ self.now.region }
    {
        &self.region
    }

    /// How often an object was evicted, how often no room was found, and by how many bytes the chains became smaller.
    pub fn counts(&self) -> Counts
        ensures { result ≡ self.now.counts }
    {
        self.counts
    }

    /// What stands below the oldest version of a chain.
    pub fn kind(&self, id: u64) -> ChainKind
        requires { HasChain self.now id }
        ensures { (k : KeptChain) → chain_at self.now id ≡ Some k → result ≡ k.chain.kind }
    {
        self.registry.get(id).kind
    }

    /// Whether a chain is found by its key.
    pub fn is_attached(&self, id: u64) -> bool
        requires { HasChain self.now id }
        ensures { (k : KeptChain) → chain_at self.now id ≡ Some k → result ≡ k.chain.attached }
    {
        self.registry.get(id).attached
    }

    /// Whether an update stands in the newest version of a chain.
    pub fn is_updating(&self, id: u64) -> bool
        requires { HasChain self.now id }
        ensures { (k : KeptChain) → chain_at self.now id ≡ Some k → result ≡ k.chain.updating }
    {
        self.registry.get(id).updating
    }

    /// Whether a chain has the cleaner's mark that it was left unmerged.
    pub fn is_passed(&self, id: u64) -> bool
        requires { HasChain self.now id }
        ensures { (k : KeptChain) → chain_at self.now id ≡ Some k → result ≡ k.passed }
    {
        self.registry.get(id).passed
    }

    /// Whether a snapshot pins the version of a number, counted from the oldest.
    pub fn is_pinned(&self, id: u64, number: u64) -> bool
        requires { HasChain self.now id }
        ensures { (k : KeptChain) → chain_at self.now id ≡ Some k → IsTrue result ↔ IsPinned k.chain.pins number }
    {
        self.registry.is_pinned(id, number)
    }

    /// How many versions a chain has.
    pub fn versions(&self, id: u64) -> u64
        requires { HasChain self.now id }
        ensures { (k : KeptChain) → chain_at self.now id ≡ Some k → result ≡ length k.chain.versions }
    {
        count(&self.region, self.registry.get(id).root)
    }

    /// Whether a chain of this number is there.
    pub fn is_there(&self, id: u64) -> bool
        ensures { result ≡ is_some (chain_at self.now id) }
    {
        self.registry.is_there(id)
    }

    /// The least number of a chain after another number, or of all where that is None. None where there is no such chain.
    pub fn next_chain(&self, after: Option<u64>) -> Option<u64>
        ensures next { IfSome result (IsNextChain self.now after) }
        ensures none { IfNone result ((n : ℕ) → IsAfter after n → chain_at self.now n ≡ None) }
    {
        self.registry.next(after)
    }

    /// The object of a version of a chain, by its number, the oldest being 0. It is that until objects move or the version goes.
    pub fn version(&self, id: u64, number: u64) -> Ref
        requires { HasVersion self.now id number }
        ensures { IsVersionObject self.now id number result }
    {
        version(&self.region, self.registry.get(id).root, number)
    }

    /// The phase of a version of a chain.
    pub fn phase(&self, id: u64, number: u64) -> u64
        requires { HasVersion self.now id number }
        ensures { (k : KeptChain) (v : Version) → chain_at self.now id ≡ Some k → IsVersionAt k.chain.versions number v → result ≡ v.phase }
    {
        let n = self.version(id, number);
        head_of(&self.region, n).phase
    }

    /// The least recently used object of all. None where the list is empty.
    pub fn front(&self) -> Option<Ref>
        ensures some { IfSome result (λ r. (w : Member) × (rest : Sequence Member) × (self.now.recency ≡ w ∷ rest) × IsMemberObject self.now r w) }
        ensures none { IfNone result (self.now.recency ≡ []) }
    {
        self.recency.front(&self.region)
    }

    /// The chain of an entry or a static row, and the number of its version, the oldest being 0.
    pub fn home(&self, r: Ref) -> (u64, u64)
        requires { (w : Member) × IsMemberObject self.now r w }
        ensures { (w : Member) → IsMemberObject self.now r w → result ≡ (w.chain, w.version) }
    {
        let (root, number) = home(&self.region, r);
        (self.registry.owner(root), number)
    }

    /// The marks of an entry of a chain: at its position, and over the gap before it.
    pub fn marks(&self, e: Ref) -> (Mark, Mark)
        requires { (w : Member) × (x : Position) × (w.position ≡ Some x) × IsMemberObject self.now e w }
        ensures { (w : Member) (x : Position) → w.position ≡ Some x → IsMemberObject self.now e w → OfVersion self.now w.chain w.version (λ k v. HasMarksAt x result.0 result.1 v) }
    {
        marks(&self.region, e)
    }

    /// Empties sparse segments until `need` bytes are spare, 7S/8 at most, or none is sparse. All chains stay, under new names of their objects.
    pub fn ensure(&mut self, need: usize) -> Ensured
        requires few { need ≤ 7 * S / 8 }
        ensures ready { result ≡ Ensured.Ready → need ≤ spare_of S self.new.region.usages }
        ensures full { result ≡ Ensured.Full → spare_of S self.new.region.usages < need }
        ensures tight { result ≡ Ensured.Full → Tight S self.new.region.usages }
        ensures idle { need ≤ spare_of S self.old.region.usages → self.new ≡ self.old }
        ensures rounds { (rounds : ℕ) × Compactions S need rounds self.old.region self.new.region × (rounds ≤ need / (S / 8) + 1) }
        ensures compacted { self.new.region.compacted ≤ self.old.region.compacted + (need / (S / 8) + 1) }
        ensures moved { self.old.region.moved ≤ self.new.region.moved }
        ensures renamed { (names : Sequence (Name × Name)) × Renamed self.old.region self.new.region names × (self.new ≡ under_new_names names self.new.region self.old) }
        ensures untouched { IsUntouched self.old self.new }
    {
        ensure(&mut self.region, need)
    }

    /// Empties the closed segment with least live bytes, where one is sparse; false exactly where none is. All chains stay, under new names of their objects.
    pub fn compact_one(&mut self) -> bool
        ensures tells { result ≡ is_some (sparse_of S self.old.region.usages) }
        ensures same { result ≡ false → self.new ≡ self.old }
        ensures compacted { IfSome (sparse_of S self.old.region.usages) (IsCompacted S self.old.region self.new.region) }
        ensures renamed { (names : Sequence (Name × Name)) × Renamed self.old.region self.new.region names × (self.new ≡ under_new_names names self.new.region self.old) }
        ensures untouched { IsUntouched self.old self.new }
    {
        compact_one(&mut self.region)
    }

    /// Whether an object is in the recency list.
    pub fn is_listed(&self, r: Ref) -> bool
        requires { (w : Member) × IsMemberObject self.now r w }
        ensures { (w : Member) → IsMemberObject self.now r w → IsTrue result ↔ Contains self.now.recency w }
    {
        self.region.known();
        self.region.link_of(End::Obj(r, 0)).is_some()
    }

    /// Puts an entry or a static row of a cache chain, which is not in the recency list and may be in it, at its back.
    pub fn list(&mut self, r: Ref)
        requires { (w : Member) × IsMemberObject self.old r w × (Contains self.old.recency w → ⊥) × IsSomeAnd (chain_at self.old w.chain) (λ k. MayBeListed k.chain w.version w.position) }
        ensures listed { (w : Member) → IsMemberObject self.old r w → self.new ≡ listed_as (self.old.recency ++ (w ∷ [])) self.new.region self.old }
        ensures objects { SameObjects self.old.region self.new.region }
        ensures still { StandStill Nowhere self.old self.new }
    {
        self.recency.push_back(&mut self.region, r);
    }

    /// Takes an object out of the recency list that need not be in it: an end dummy, or the dummy at an update's place.
    pub fn unlist(&mut self, r: Ref)
        requires { (w : Member) × (front : Sequence Member) × (back : Sequence Member) × (self.old.recency ≡ front ++ (w ∷ back)) × IsMemberObject self.old r w × (IsSomeAnd (chain_at self.old w.chain) (λ k. MustBeListed k.chain w.version w.position) → ⊥) }
        ensures unlisted { (w : Member) (front back : Sequence Member) → self.old.recency ≡ front ++ (w ∷ back) → IsMemberObject self.old r w → self.new ≡ listed_as (front ++ back) self.new.region self.old }
        ensures objects { SameObjects self.old.region self.new.region }
        ensures still { StandStill Nowhere self.old self.new }
    {
        self.recency.remove(&mut self.region, r);
    }

    /// Makes an object of the recency list the most recent one.
    pub fn touch(&mut self, r: Ref)
        requires { (w : Member) × (front : Sequence Member) × (back : Sequence Member) × (self.old.recency ≡ front ++ (w ∷ back)) × IsMemberObject self.old r w }
        ensures touched { (w : Member) (front back : Sequence Member) → self.old.recency ≡ front ++ (w ∷ back) → IsMemberObject self.old r w → self.new ≡ listed_as ((front ++ back) ++ (w ∷ [])) self.new.region self.old }
        ensures objects { SameObjects self.old.region self.new.region }
        ensures still { StandStill Nowhere self.old self.new }
    {
        self.recency.touch(&mut self.region, r);
    }

    /// Sets or clears the cleaner's mark that it left a chain unmerged.
    pub fn set_passed(&mut self, id: u64, passed: bool)
        requires { HasChain self.old id }
        ensures { self.new ≡ with_chains (on_chain id (mark_passed passed) self.old.chains) self.old }
    {
        self.registry.set_passed(id, passed);
    }

    /// Takes a snapshot back. Other snapshots keep their numbers.
    pub fn release(&mut self, s: Snap)
        requires { HasPin self.old s.chain s.pin }
        ensures { self.new ≡ with_chains (on_chain s.chain (without_snapshot s.pin) self.old.chains) self.old }
    {
        let Snap {
            chain,
            pin,
            phase: _,
        } = s;
        self.registry.unpin(chain, pin);
    }

    /// Tells the number of a chain that was dropped, each once, in the order in which they went. None where each was told.
    pub fn take_dropped(&mut self) -> Option<u64>
        ensures { IsTold self.old self.new result }
    {
        self.registry.take_dropped()
    }

    /// The number of the version at which a snapshot stands, the oldest being 0.
    pub fn pinned_at(&self, s: &Snap) -> u64
        requires { HasPin self.now s.now.chain s.now.pin }
        ensures { (k : KeptChain) → chain_at self.now s.now.chain ≡ Some k → pin_at k.chain.pins s.now.pin ≡ Some result }
    {
        match self.registry.pin_at(s.chain, s.pin) {
            Some(number) => number,
            None => unreachable!(),
        }
    }

    /// Whether a snapshot populates the cache: it pins the newest version of a chain that is found by its key and is not under update.
    pub fn may_fill(&self, s: &Snap) -> bool
        requires { HasPin self.now s.now.chain s.now.pin }
        ensures { (k : KeptChain) (j : ℕ) → chain_at self.now s.now.chain ≡ Some k → pin_at k.chain.pins s.now.pin ≡ Some j → IsTrue result ↔ MayPopulate (at_place Head k.chain) j }
    {
        let _ = &self.region;
        let id = s.chain;
        let newest = self.versions(id) - 1;
        let pinned = self.pinned_at(s);
        fills(pinned, newest, self.is_attached(id), self.is_updating(id))
    }

    // The number of the version that a snapshot pins.
    fn snapshot_number(&self, id: u64) -> u64
        requires { HasChain self.now id }
        ensures value { (k : KeptChain) → chain_at self.now id ≡ Some k → result ≡ snapshot_number k.chain }
        ensures there { HasVersion self.now id result }
    {
        let _ = &self.region;
        pinned_number(self.versions(id), self.is_updating(id))
    }

    /// A snapshot of a chain, which is found by its key: it pins the newest version, or the one below it while an update stands in the newest. The only error is want of memory, which changes nothing.
    pub fn snapshot(&mut self, id: u64) -> Result<Snap, AllocError>
        requires { IsSomeAnd (chain_at self.old id) (λ k. k.chain.attached ≡ true) }
        ensures taken { IfOk result (λ s. (s.chain ≡ id) × IsSnapshotTaken self.old self.new id s.pin s.phase) }
        ensures err { OnErr result (self.new ≡ self.old) }
    {
        let number = self.snapshot_number(id);
        let phase = self.phase(id, number);
        let pin = self.registry.pin(id, number)?;
        Ok(Snap {
            chain: id,
            pin,
            phase,
        })
    }
}

// The number of the version that a snapshot pins, of so many.
fn pinned_number(versions: u64, updating: bool) -> u64
    requires some { 0 < versions }
    requires below { updating ≡ true → 2 ≤ versions }
    ensures { result ≡ cond updating (versions - 2) (versions - 1) }
{
    if updating { versions - 2 } else { versions - 1 }
}

// Whether a snapshot of this version fills, where this one is the newest.
fn fills(pinned: u64, newest: u64, attached: bool, updating: bool) -> bool
    ensures { IsTrue result ↔ (pinned ≡ newest) × (attached ≡ true) × (updating ≡ false) }
{
    if updating {
        return false;
    }
    attached && pinned == newest
}
