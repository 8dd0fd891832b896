//! Chains that come to be, change as a whole, and go.
ghost use Rattle.std.specs.Prelude.{◌≡◌, ◌∷◌, ◌++◌, ◌+◌, ◌/◌, ◌<◌, ◌≤◌, ℕ, suc, List as Sequence, [], true, false, Option, Some, None, IfNone, IfOk, IfSome, IsSomeAnd, IsTrue, OnErr, length, Contains};
ghost use Rattle.lsa_pool.specs.Room.{spare_of};
ghost use Rattle.lsa_store.specs.declared.place.Ref.{Ref as Name};
ghost use Rattle.rc_core.specs.Chains.{IsPinned};
ghost use Rattle.rc_core.specs.Version.{Version, end_position};
ghost use Rattle.rc_memory.specs.Memory.{KeptChain, Member, HasChain, HasVersion, IsMemberObject, IsVersionAt, chain_at, listed_as, on_chain, on_shown, shown_detached, shown_updating, with_chains};
ghost use Rattle.rc_memory.specs.Recency.{IsLastInner, MustBeListed};
ghost use Rattle.rc_memory.specs.Changes.{CanDrop, IsWithout, LastIsListed, Nowhere, NothingListed, OfVersion, StandStill, member_at};
ghost use Rattle.rc_chain.specs.Lives.{IsEndAlone, IsChainChanged, IsChainDropped, IsChainMade, IsEndListed, IsLastUnlisted, IsSameButSlots, IsVersionDropped, flag_of_new, with_end_listed, with_version_over};
ghost use Rattle.rc_version.specs.Versions.{IsVersionOf};
ghost use Rattle.lsa_region.specs.Region.{SameObjects};
ghost use Rattle.lsa_tree.specs.Entries.{IsEntryAtPosition};
ghost use Rattle.lsa_tree.specs.Search.{last_entry};
ghost use Rattle.rc_core.specs.declared.entries.ChainKind.{ChainKind as Kind};
ghost use Rattle.rc_position.specs.declared.positions.Pos.{Pos as Position};
ghost use Rattle.std.specs.Option.{option_to_list};

use super::Chains;
use lsa_region::{End, Ref, Region};
use lsa_tree::Tree;
use rc_cell::Tomb;
use rc_core::{ChainKind, Flag};
use rc_memory::{add_version, drop_version};
use rc_position::{Key, Pos, Weight};
use rc_version::entry_at;
use std::alloc::{AllocError, Global};

impl<const S: usize> Chains<S> {
    // A chain of one version, which is found by its key; its end dummy is out of the recency list.
    fn make_chain(
        &mut self,
        kind: ChainKind,
        phase: u64,
        pt: Option<Tomb>,
    ) -> Result<u64, AllocError>
        requires fits { 88 ≤ S / 8 }
        requires spare { 152 ≤ spare_of S self.old.region.usages }
        ensures made { IfOk result (λ id. IsChainMade id kind pt phase self.old.recency self.old self.new) }
        ensures spare { IfOk result (λ id. spare_of S self.old.region.usages ≤ spare_of S self.new.region.usages + 152) }
        ensures err { OnErr result (IsSameButSlots self.old self.new) }
    {
        self.region.known();
        let root = self.region.add_root(self.alloc)?;
        match self.registry.insert(root, kind) {
            Ok(id) => {
                add_version(&mut self.region, root, flag_of_new(kind), pt, phase);
                Ok(id)
            }
            Err(error) => {
                self.region.drop_root(root);
                Err(error)
            }
        }
    }

    // An update stands in a chain no longer: the last entry before the end of its newest version is in the recency list.
    fn settle(&mut self, id: u64)
        requires there { HasChain self.old id }
        requires listed { LastIsListed id self.old }
        ensures { self.new ≡ with_chains (on_chain id (on_shown (shown_updating false)) self.old.chains) self.old }
    {
        self.registry.set_updating(id, false);
    }

    // A chain in which no update stands is no longer found by its key.
    fn unfind(&mut self, id: u64)
        requires there { HasChain self.old id }
        requires settled { (k : KeptChain) → chain_at self.old id ≡ Some k → k.chain.updating ≡ false }
        ensures { self.new ≡ with_chains (on_chain id (on_shown shown_detached) self.old.chains) self.old }
    {
        self.registry.detach(id);
    }

    /// Puts a version over those of a chain, which says nothing: its end dummy alone, all flags Inherit. A cache chain, which must be found by its key, is under update then, and the new version's end dummy out of the recency list. It takes 152 bytes.
    pub fn add_version(&mut self, id: u64, phase: u64)
        requires there { HasChain self.old id }
        requires settled { (k : KeptChain) → chain_at self.old id ≡ Some k → k.chain.updating ≡ false }
        requires found { (k : KeptChain) → chain_at self.old id ≡ Some k → k.chain.kind ≡ Kind.Cache → k.chain.attached ≡ true }
        requires fits { 88 ≤ S / 8 }
        requires spare { 152 ≤ spare_of S self.old.region.usages }
        ensures added { IsChainChanged id (on_shown (with_version_over phase)) self.old.recency self.old self.new }
        ensures spare { spare_of S self.old.region.usages ≤ spare_of S self.new.region.usages + 152 }
    {
        let root = self.registry.get(id).root;
        add_version(&mut self.region, root, Flag::Inherit, None, phase);
        match self.registry.get(id).kind {
            ChainKind::Cache => self.registry.set_updating(id, true),
            ChainKind::Memtable => {}
        }
    }

    // A version of a chain goes, of which its end dummy alone is left, out of the recency list.
    pub(super) fn drop_bare(&mut self, id: u64, number: u64)
        requires bare { IsSomeAnd (chain_at self.old id) (λ k. (v : Version) × IsVersionAt k.chain.versions number v × IsEndAlone v) }
        requires unlisted { NothingListed id number self.old }
        requires free { (k : KeptChain) → chain_at self.old id ≡ Some k → CanDrop k.chain number }
        ensures dropped { IsVersionDropped id number self.old self.new }
        ensures spare { spare_of S self.new.region.usages ≡ spare_of S self.old.region.usages }
    {
        let root = self.registry.get(id).root;
        let n = self.version(id, number);
        drop_version(&mut self.region, root, n);
        self.registry.renumber(id, number);
    }

    // A chain goes, of which the end dummy of one version alone is left, out of the recency list, and which nobody pins. Its number is to be told.
    pub(super) fn close(&mut self, id: u64)
        requires bare { IsSomeAnd (chain_at self.old id) (λ k. (v : Version) × (k.chain.versions ≡ v ∷ []) × IsEndAlone v) }
        requires unlisted { NothingListed id 0 self.old }
        requires unpinned { (k : KeptChain) (j : ℕ) → chain_at self.old id ≡ Some k → IsPinned k.chain.pins j → ⊥ }
        ensures dropped { IsChainDropped id self.old.recency self.old self.new }
        ensures spare { spare_of S self.new.region.usages ≡ spare_of S self.old.region.usages }
    {
        let root = self.registry.get(id).root;
        let n = self.version(id, 0);
        drop_version(&mut self.region, root, n);
        self.region.drop_root(root);
        self.registry.remove(id);
    }

    // The end dummy of a version of a chain.
    pub(super) fn end_of(&self, id: u64, number: u64) -> Ref
        requires { HasVersion self.now id number }
        ensures { IsMemberObject self.now result (member_at id number (Some end_position)) }
    {
        let v = self.version(id, number);
        end_entry(&self.region, self.alloc, v)
    }

    // The last entry before the end dummy of a version; None where there is none.
    pub(super) fn last_inner(&self, id: u64, number: u64) -> Option<Ref>
        requires { HasVersion self.now id number }
        ensures some { IfSome result (λ r. (x : Position) × IsMemberObject self.now r (member_at id number (Some x)) × OfVersion self.now id number (λ k v. IsLastInner v (Some x))) }
        ensures none { IfNone result (OfVersion self.now id number (λ k v. (at : Option Position) → IsLastInner v at → ⊥)) }
    {
        let v = self.version(id, number);
        let end = end_entry(&self.region, self.alloc, v);
        entry_before(&self.region, v, end)
    }

    // Puts the last entry before the end of the version under update at the back of the recency list, where it is out of it.
    fn list_last(&mut self, id: u64, number: u64)
        requires { IsSomeAnd (chain_at self.old id) (λ k. (k.chain.updating ≡ true) × (suc number ≡ length k.chain.versions)) }
        ensures listed { OfVersion self.old id number (λ k v. (last : Option Member) × IsLastUnlisted id number v self.old.recency last × (self.new ≡ listed_as (self.old.recency ++ option_to_list last) self.new.region self.old)) }
        ensures there { OfVersion self.old id number (λ k v. (at : Option Position) → IsLastInner v at → Contains self.new.recency (member_at id number at)) }
        ensures objects { SameObjects self.old.region self.new.region }
        ensures still { StandStill Nowhere self.old self.new }
    {
        self.known();
        match self.last_inner(id, number) {
            None => {}
            Some(r) => {
                if !self.is_listed(r) {
                    self.list(r);
                }
            }
        }
    }

    /// A new chain of a kind, found by its key and pinned by nobody: one version of a phase and a partition tombstone, of its end dummy alone, whose flags are all Unknown in a cache chain and Inherit in a memtable's. In a cache chain the end dummy goes to the back of the recency list. Its number is no other chain's, and none that is still to be told. It takes 152 bytes. The only error is want of memory, after which all chains are as they were.
    pub fn new_chain(
        &mut self,
        kind: ChainKind,
        phase: u64,
        pt: Option<Tomb>,
    ) -> Result<u64, AllocError>
        requires fits { 88 ≤ S / 8 }
        requires spare { 152 ≤ spare_of S self.old.region.usages }
        ensures made { IfOk result (λ id. IsChainMade id kind pt phase (with_end_listed kind id 0 self.old.recency) self.old self.new) }
        ensures spare { IfOk result (λ id. spare_of S self.old.region.usages ≤ spare_of S self.new.region.usages + 152) }
        ensures err { OnErr result (IsSameButSlots self.old self.new) }
    {
        self.known();
        let id = self.make_chain(kind, phase, pt)?;
        match kind {
            ChainKind::Memtable => {}
            ChainKind::Cache => {
                let end = self.end_of(id, 0);
                self.list(end);
            }
        }
        Ok(id)
    }

    /// An update has ended: none stands in the chain any more. The entry at its place, where that is out of the recency list, and then the end dummy of the newest version go to the list's back. Where no update stood in the chain nothing is changed.
    pub fn end_update(&mut self, id: u64)
        requires { HasChain self.old id }
        ensures ended { (k : KeptChain) → chain_at self.old id ≡ Some k → (list : Sequence Member) × IsEndListed id k.chain self.old.recency list × IsChainChanged id (on_shown (shown_updating false)) list self.old self.new }
        ensures spare { spare_of S self.new.region.usages ≡ spare_of S self.old.region.usages }
    {
        self.known();
        if self.is_updating(id) {
            let newest = self.versions(id) - 1;
            self.list_last(id, newest);
            self.known();
            self.settle(id);
            let end = self.end_of(id, newest);
            self.list(end);
        }
    }

    /// A chain is no longer found by its key, nor under update: as `end_update` says, where an update stood in it.
    pub fn detach(&mut self, id: u64)
        requires { HasChain self.old id }
        ensures detached { (k : KeptChain) → chain_at self.old id ≡ Some k → (list : Sequence Member) × IsEndListed id k.chain self.old.recency list × IsChainChanged id (on_shown shown_detached) list self.old self.new }
        ensures spare { spare_of S self.new.region.usages ≡ spare_of S self.old.region.usages }
    {
        self.end_update(id);
        self.unfind(id);
    }

    // An object leaves the recency list, where it is in it; it need not be in it.
    pub(super) fn take(&mut self, r: Ref)
        requires { (w : Member) × IsMemberObject self.old r w × (IsSomeAnd (chain_at self.old w.chain) (λ k. MustBeListed k.chain w.version w.position) → ⊥) }
        ensures taken { (w : Member) → IsMemberObject self.old r w → (list : Sequence Member) × IsWithout w self.old.recency list × (self.new ≡ listed_as list self.new.region self.old) }
        ensures objects { SameObjects self.old.region self.new.region }
        ensures still { StandStill Nowhere self.old self.new }
    {
        if self.is_listed(r) {
            self.unlist(r);
        }
    }

    /// Drops a version of a chain, of which its end dummy alone is left: newer versions have numbers less by one, and the snapshots of these, and the places of their objects, with them. It is not the newest one, nobody pins it, and where an update stands in the chain two others are left.
    pub fn drop_version(&mut self, id: u64, number: u64)
        requires bare { IsSomeAnd (chain_at self.old id) (λ k. (v : Version) × IsVersionAt k.chain.versions number v × IsEndAlone v) }
        requires free { (k : KeptChain) → chain_at self.old id ≡ Some k → CanDrop k.chain number }
        requires older { (k : KeptChain) → chain_at self.old id ≡ Some k → suc number < length k.chain.versions }
        ensures dropped { IsVersionDropped id number self.old self.new }
        ensures spare { spare_of S self.new.region.usages ≡ spare_of S self.old.region.usages }
    {
        self.known();
        let end = self.end_of(id, number);
        self.take(end);
        self.drop_bare(id, number);
    }
}

// The flag of all that the version of a new chain says.
fn flag_of_new(kind: ChainKind) -> Flag
    ensures { result ≡ Rattle.rc_chain.specs.Lives.flag_of_new kind }
{
    match kind {
        ChainKind::Memtable => Flag::Inherit,
        ChainKind::Cache => Flag::Unknown,
    }
}

// The end dummy of a version, its last entry.
fn end_entry<const S: usize>(region: &Region<S>, alloc: Global, v: Ref) -> Ref
    requires { (refs : Sequence Name) × (c : Version) × IsVersionOf region.now v refs c }
    ensures { (refs : Sequence Name) (c : Version) → IsVersionOf region.now v refs c → (front : Sequence Name) × (refs ≡ front ++ (result ∷ [])) × IsEntryAtPosition region.now result end_position }
{
    let end = Pos {
        prefix: Key::empty(alloc),
        weight: Weight::After,
    };
    match entry_at(region, v, &end) {
        Some(r) => r,
        None => unreachable!(),
    }
}

// The entry before one of a version; None where that is its first.
fn entry_before<const S: usize>(region: &Region<S>, v: Ref, r: Ref) -> Option<Ref>
    requires { (front : Sequence Name) × (back : Sequence Name) × (c : Version) × IsVersionOf region.now v (front ++ (r ∷ back)) c }
    ensures { (front back : Sequence Name) (c : Version) → IsVersionOf region.now v (front ++ (r ∷ back)) c → result ≡ last_entry front }
{
    let tree = Tree {
        top: End::Obj(v, 2),
    };
    tree.prev(region, r)
}
