//! What is done to many objects of a chain, or to many chains.
ghost use Rattle.std.specs.Prelude.{◌≡◌, ◌⊎◌, ◌∷◌, ◌++◌, ◌+◌, ◌<◌, ℕ, List as Sequence, [], true, false, Option, Some, None, IsSomeAnd, IsSome, IsTrue, is_some, ◌↔◌, length, Contains};
ghost use Rattle.lsa_pool.specs.Room.{spare_of};
ghost use Rattle.lsa_region.specs.Region.{SameObjects};
ghost use Rattle.rc_position.specs.declared.positions.Pos.{Pos as Position};
ghost use Rattle.rc_position.specs.Position.{row_pos};
ghost use Rattle.rc_core.specs.declared.entries.ChainKind.{ChainKind as Kind};
ghost use Rattle.rc_core.specs.Steps.{pin_at};
ghost use Rattle.rc_core.specs.Version.{Version, end_position};
ghost use Rattle.rc_memory.specs.Recency.{HasObject, IsLastInner};
ghost use Rattle.rc_registry.specs.Registry.{AreFree};
ghost use Rattle.rc_memory.specs.Memory.{KeptChain, Member, HasChain, HasPin, HasVersion, IsMemberObject, IsVersionAt, chain_at, listed_as};
ghost use Rattle.rc_memory.specs.Changes.{Nowhere, NothingListed, OfVersion, StandStill, member_at};
ghost use Rattle.rc_recency.specs.calls.Holding.{IsFoundAt};
ghost use Rattle.rc_chain.specs.Lives.{IsAtUpTo, IsEndAlone, IsChainChanged, IsChainDropped, IsEntryFreed, IsIdle, IsLastDropped, IsOneFreed, IsRelabelled, IsStaticFreed, IsTouched, IsVersionDropped, relabelled_chain};

use super::{Chains, Snap};
use lsa_region::Ref;
use rc_core::{ChainKind, Flag};
use rc_object::marks;
use rc_position::Key;
use rc_version::{entry_at_key, static_row};

impl<const S: usize> Chains<S> {
    // Gives the newest version of a chain another phase, where the chain is found by its key.
    fn relabel_one(&mut self, id: u64, to: u64)
        requires { HasChain self.old id }
        ensures relabelled { IsChainChanged id (relabelled_chain to) self.old.recency self.old self.new }
        ensures spare { spare_of S self.new.region.usages ≡ spare_of S self.old.region.usages }
    {
        if self.is_attached(id) {
            self.known();
            let newest = self.versions(id) - 1;
            self.set_phase(id, newest, to);
        }
    }

    /// Gives the newest version of each chain that is found by its key another phase. A caller sees to it that the tables of both phases say the same of each such key.
    pub fn relabel(&mut self, to: u64)
        ensures relabelled { IsRelabelled to self.old self.new }
        ensures spare { spare_of S self.new.region.usages ≡ spare_of S self.old.region.usages }
    {
        let mut after = None;
        while let Some(id) = self.next_chain(after) {
            self.relabel_one(id, to);
            after = Some(id);
        }
    }

    // Whether a version has an object beside its end dummy.
    fn has_more(&self, id: u64, number: u64) -> bool
        requires { HasVersion self.now id number }
        ensures bare { result ≡ false → OfVersion self.now id number (λ k v. IsEndAlone v) }
        ensures more { IsTrue result → OfVersion self.now id number (λ k v. (at : Option Position) × HasObject v at × (at ≡ Some end_position → ⊥)) }
    {
        self.known();
        if self.last_inner(id, number).is_some() {
            return true;
        }
        self.has_static(id, number)
    }

    // Whether a version has a static row.
    fn has_static(&self, id: u64, number: u64) -> bool
        requires { HasVersion self.now id number }
        ensures { OfVersion self.now id number (λ k v. result ≡ is_some v.statics) }
    {
        let v = self.version(id, number);
        static_row(&self.region, v).is_some()
    }

    // Whether an object of a version of a cache chain, in which no update stands, is in the recency list. Where none is, its end dummy alone is left of it.
    fn has_listed(&self, id: u64, number: u64) -> bool
        requires { IsSomeAnd (chain_at self.now id) (λ k. (k.chain.kind ≡ Kind.Cache) × (k.chain.updating ≡ false) × (number < length k.chain.versions)) }
        ensures none { result ≡ false → NothingListed id number self.now }
        ensures bare { result ≡ false → OfVersion self.now id number (λ k v. IsEndAlone v) }
        ensures some { IsTrue result → (at : Option Position) × Contains self.now.recency (member_at id number at) }
    {
        self.known();
        if self.has_more(id, number) {
            return true;
        }
        let end = self.end_of(id, number);
        self.is_listed(end)
    }

    // Whether a chain is to be dropped.
    fn is_idle(&self, id: u64) -> bool
        requires { HasChain self.now id }
        ensures { (k : KeptChain) → chain_at self.now id ≡ Some k → IsTrue result ↔ IsIdle self.now id k.chain }
    {
        self.known();
        match self.kind(id) {
            ChainKind::Memtable => return false,
            ChainKind::Cache => {}
        }
        if self.is_updating(id) {
            return false;
        }
        if !self.registry.is_free(id) {
            return false;
        }
        for number in 0..self.versions(id) {
            if self.has_listed(id, number) {
                return false;
            }
        }
        true
    }

    /// Drops a chain where it is to be dropped: a cache chain that nobody pins, in which no update stands, and of which no object is in the recency list. Its number is to be told then. Else nothing is changed.
    pub fn sweep(&mut self, id: u64)
        requires { HasChain self.old id }
        ensures dropped { (k : KeptChain) → chain_at self.old id ≡ Some k → IsIdle self.old id k.chain → IsChainDropped id self.old.recency self.old self.new }
        ensures kept { (k : KeptChain) → chain_at self.old id ≡ Some k → (IsIdle self.old id k.chain → ⊥) → self.new ≡ self.old }
        ensures spare { spare_of S self.new.region.usages ≡ spare_of S self.old.region.usages }
    {
        if self.is_idle(id) {
            self.drop_idle(id);
        }
    }

    // Drops a chain of which nothing is listed: its versions, the oldest first, and then the chain.
    fn drop_idle(&mut self, id: u64)
        requires { IsSomeAnd (chain_at self.old id) (λ k. IsIdle self.old id k.chain) }
        ensures dropped { IsChainDropped id self.old.recency self.old self.new }
        ensures spare { spare_of S self.new.region.usages ≡ spare_of S self.old.region.usages }
    {
        self.known();
        while self.versions(id) > 1 {
            self.drop_bare(id, 0);
        }
        self.close(id);
    }

    // The entry of a version at a key. Where there is none, none is in the recency list.
    fn keyed_entry(&self, id: u64, number: u64, key: &Key) -> Option<Ref>
        requires { HasVersion self.now id number }
        ensures { IsFoundAt self.now (member_at id number (Some (row_pos key.now))) result }
    {
        let v = self.version(id, number);
        entry_at_key(&self.region, v, key)
    }

    // Makes the entry of a version at a key the most recent object, where it is in the recency list.
    fn touch_one(&mut self, id: u64, number: u64, key: &Key)
        requires { HasVersion self.old id number }
        ensures touched { (front back : Sequence Member) → self.old.recency ≡ front ++ (member_at id number (Some (row_pos key.now)) ∷ back) → self.new ≡ listed_as ((front ++ back) ++ (member_at id number (Some (row_pos key.now)) ∷ [])) self.new.region self.old }
        ensures unlisted { (Contains self.old.recency (member_at id number (Some (row_pos key.now))) → ⊥) → self.new ≡ self.old }
        ensures objects { SameObjects self.old.region self.new.region }
        ensures still { StandStill Nowhere self.old self.new }
    {
        if let Some(e) = self.keyed_entry(id, number, key) {
            if self.is_listed(e) {
                self.touch(e);
            }
        }
    }

    /// Makes the entries at a key the most recent objects, in the version that a snapshot pins and in all below it, where they are in the recency list. Nothing else is changed.
    pub fn touch_key(&mut self, s: &Snap, key: &Key)
        requires { HasPin self.old s.now.chain s.now.pin }
        ensures touched { (k : KeptChain) (j : ℕ) → chain_at self.old s.now.chain ≡ Some k → pin_at k.chain.pins s.now.pin ≡ Some j → (list : Sequence Member) × IsTouched (IsAtUpTo s.now.chain j (row_pos key.now)) self.old.recency list × (self.new ≡ listed_as list self.new.region self.old) }
        ensures objects { SameObjects self.old.region self.new.region }
        ensures still { StandStill Nowhere self.old self.new }
    {
        self.known();
        let last = self.pinned_at(s);
        for number in 0..last {
            self.touch_one(s.chain, number, key);
        }
        self.touch_one(s.chain, last, key);
    }

    // Frees the last entry before the end of the oldest version of a chain.
    fn free_entry(&mut self, id: u64, e: Ref)
        requires { (x : Position) × IsMemberObject self.old e (member_at id 0 (Some x)) × OfVersion self.old id 0 (λ k v. IsLastInner v (Some x)) }
        ensures freed { IsEntryFreed id self.old self.new }
        ensures spare { spare_of S self.new.region.usages ≡ spare_of S self.old.region.usages }
    {
        self.known();
        let kind = self.kind(id);
        let end = self.end_of(id, 0);
        let (at, _) = marks(&self.region, end);
        self.drop_entry(id, 0, e);
        match kind {
            ChainKind::Memtable => self.set_flags(end, at.flag, Flag::Inherit),
            ChainKind::Cache => {}
        }
    }

    // Frees the static row of the oldest version of a chain.
    fn free_statics(&mut self, id: u64)
        requires version { HasVersion self.old id 0 }
        requires there { OfVersion self.old id 0 (λ k v. IsSome v.statics) }
        requires alone { OfVersion self.old id 0 (λ k v. (at : Option Position) → IsLastInner v at → ⊥) }
        ensures freed { IsStaticFreed id self.old self.new }
        ensures spare { spare_of S self.new.region.usages ≡ spare_of S self.old.region.usages }
    {
        let kind = self.kind(id);
        self.drop_static(id, 0);
        match kind {
            ChainKind::Memtable => self.set_static_flag(id, 0, Flag::Inherit),
            ChainKind::Cache => {}
        }
    }

    // Frees the oldest version of a chain that nobody pins, of which its end dummy alone is left; with the last version the chain goes.
    fn free_version(&mut self, id: u64)
        requires bare { IsSomeAnd (chain_at self.old id) (λ k. (v : Version) × IsVersionAt k.chain.versions 0 v × IsEndAlone v) }
        requires free { (k : KeptChain) → chain_at self.old id ≡ Some k → (k.chain.updating ≡ false) × AreFree k.chain.pins }
        ensures freed { IsVersionDropped id 0 self.old self.new ⊎ IsLastDropped id self.old self.new }
        ensures spare { spare_of S self.new.region.usages ≡ spare_of S self.old.region.usages }
    {
        self.known();
        if self.versions(id) > 1 {
            self.drop_version(id, 0);
        } else {
            let end = self.end_of(id, 0);
            self.take(end);
            self.close(id);
        }
    }

    /// Frees one object of a chain that is not found by its key and that nobody pins: the last entry before the end of its oldest version; where its end dummy alone is left of the entries, the static row; where there is none, the version with the end dummy, and with its last version the chain, whose number is to be told then. What a cache chain said there is Unknown, and a memtable's chain says nothing there.
    pub fn free_one(&mut self, id: u64)
        requires { IsSomeAnd (chain_at self.old id) (λ k. (k.chain.attached ≡ false) × AreFree k.chain.pins) }
        ensures freed { IsOneFreed id self.old self.new }
        ensures spare { spare_of S self.new.region.usages ≡ spare_of S self.old.region.usages }
    {
        self.known();
        match self.last_inner(id, 0) {
            Some(e) => self.free_entry(id, e),
            None => {
                if self.has_static(id, 0) {
                    self.free_statics(id);
                } else {
                    self.free_version(id);
                }
            }
        }
    }
}
