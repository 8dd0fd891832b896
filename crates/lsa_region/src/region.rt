//! The region: objects whose links are halves of pairs, and root slots.
ghost use Rattle.std.specs.Prelude.{◌≡◌, ◌≢◌, ℕ, ◌+◌, ◌-◌, ◌*◌, ◌/◌, ◌%◌, ◌^◌, ◌<◌, ◌≤◌, [], true, false, length, replicate, slice_index_or, Option, Some, None, IsSome, IsSomeAnd, IfOk, OnErr, List, min, count_by, is_some};
ghost use Rattle.lsa_store.specs.declared.place.Ref.{Ref as Name};
ghost use Rattle.lsa_region.specs.declared.end.Root.{Root as Slot};
ghost use Rattle.lsa_store.specs.Account.{IsSound};
ghost use Rattle.lsa_store.specs.Room.{active_of, free_count, live_sum, spare_of};
ghost use Rattle.lsa_kinds.specs.Fields.{spelled_number, IsPut};
ghost use Rattle.lsa_store.specs.Bytes.{overwritten};
ghost use Rattle.lsa_store.specs.Objects.{cells_of, rounded_size};
ghost use Rattle.lsa_store.specs.Stock.{sparse_of};
ghost use Rattle.lsa_region.specs.Paired.{IsTied, IsParted, IsExchanged};

use crate::end::{End, Root};
use crate::links::{exchange, named, part, tie};
use crate::mover;
use crate::slots::Slots;
use lsa_kinds::{Kind, spell};
use lsa_store::{Ref, Store};
use std::alloc::{AllocError, Global};
use std::marker::Model;

/// A region of segments of `S` bytes each, `S` a multiple of 64 and at most 2 ^ 27.
#[derive(Drop)]
pub struct Region<const S: usize> {
    store: Store<S>,
    roots: Slots,
    epoch: u64,
    moved: u64,
    compacted: u64,
}

impl<const S: usize> Model for Region<S> {
    ghost use Rattle.lsa_region.specs.Region.{View, IsRegion};

    ghost Value = { View };

    ghost view = { λ r. record { cells = r.store.cells; roots = r.roots; usages = r.store.usages; epoch = r.epoch; moved = r.moved; compacted = r.compacted } };

    ghost invariant = { λ r. IsRegion (record { cells = r.store.cells; roots = r.roots; usages = r.store.usages; epoch = r.epoch; moved = r.moved; compacted = r.compacted }) };
}

impl<const S: usize> Region<S> {
    ghost use Rattle.lsa_region.specs.Region.{View, body, link_of, IsEnd, IsWell, HasLayout, SameObjects, SameButRoots, IsRootAdded, IsRootDropped, IsAdded, IsFreed, IsWritten, IsSummed, IsEmptied, Risen, objects, live_bytes, slots_of, objects_in};

    /// A region of so many segments, 4 to 4096, all of them taken now. It has no object and no root slot.
    pub fn open(alloc: Global, segments: u32) -> Result<Self, AllocError>
        requires few { segments ≤ 4096 }
        requires some { 4 ≤ segments }
        requires small { S ≤ 2 ^ 27 }
        requires even { S % 64 ≡ 0 }
        ensures bodies { IfOk result (λ r. (x : Ref) → body r x ≡ None) }
        ensures roots { IfOk result (λ r. r.roots ≡ []) }
        ensures unset { IfOk result (λ r. (e : End) → link_of r e ≡ None) }
        ensures well { IfOk result IsWell }
        ensures spare { IfOk result (λ r. spare_of S r.usages ≡ (segments - 2) * (7 * S / 8) + (S - S / 8)) }
        ensures free { IfOk result (λ r. free_count r.usages + 1 ≡ segments) }
        ensures budget { IfOk result (λ r. length r.usages ≡ segments) }
        ensures live { IfOk result (λ r. live_bytes r ≡ 0) }
        ensures counts { IfOk result (λ r. (r.epoch ≡ 0) × (r.moved ≡ 0) × (r.compacted ≡ 0)) }
    {
        Ok(over(Store::open(alloc, segments)?, Slots::new(alloc)))
    }

    /// Shows what every region keeps: ends are paired, and what is named is there; how objects lie; what is live is what they take; the
    /// number of a root slot fits 32 bits; segments have a multiple of 64 bytes; no more of a segment is used than it has, and no more
    /// live than used; one segment is active, and no other; there are 4 to 4096 segments. It does nothing.
    pub fn known(&self)
        ensures well { IsWell self.now }
        ensures layout { HasLayout self.now }
        ensures summed { IsSummed self.now }
        ensures slots { (slots_of self.now).bound ≤ 2 ^ 32 }
        ensures numbers { (s : Slot) → IsEnd self.now (End.Slot s) → s.number < (slots_of self.now).bound }
        ensures even { S % 64 ≡ 0 }
        ensures sound { IsSound S self.now.usages }
        ensures active { IsSome (active_of self.now.usages) }
        ensures some { 4 ≤ length self.now.usages }
        ensures few { length self.now.usages ≤ 4096 }
    {
        self.store.known();
        self.roots.known();
    }

    /// What an end names, if it is set.
    pub fn link_of(&self, a: End) -> Option<End>
        requires { IsEnd self.now a }
        ensures { result ≡ link_of self.now a }
    {
        named(&self.store, &self.roots, a)
    }

    /// Pairs two ends, both there and unset, that differ.
    pub fn link(&mut self, a: End, b: End)
        requires first { IsEnd self.old a }
        requires second { IsEnd self.old b }
        requires first_unset { link_of self.old a ≡ None }
        requires second_unset { link_of self.old b ≡ None }
        requires differ { a ≢ b }
        ensures tied { IsTied (link_of self.old) (link_of self.new) a b }
        ensures objects { SameObjects self.old self.new }
        ensures well { IsWell self.new }
    {
        tie(&mut self.store, &mut self.roots, a, b);
    }

    /// Parts an end that is set from its mate, and gives the mate.
    pub fn unlink(&mut self, a: End) -> End
        requires there { IsEnd self.old a }
        requires set { IsSome (link_of self.old a) }
        ensures mate { link_of self.old a ≡ Some result }
        ensures parted { IsParted (link_of self.old) (link_of self.new) a result }
        ensures objects { SameObjects self.old self.new }
        ensures well { IsWell self.new }
    {
        match named(&self.store, &self.roots, a) {
            Some(b) => {
                part(&mut self.store, &mut self.roots, a, b);
                b
            }
            None => unreachable!(),
        }
    }

    /// Lets two ends, both there, that differ, change places: each names what the other one named. Two ends that name each other stay so.
    pub fn exchange(&mut self, a: End, b: End)
        requires first { IsEnd self.old a }
        requires second { IsEnd self.old b }
        requires differ { a ≢ b }
        ensures exchanged { IsExchanged (link_of self.old) (link_of self.new) a b }
        ensures objects { SameObjects self.old self.new }
        ensures well { IsWell self.new }
    {
        exchange(&mut self.store, &mut self.roots, a, b);
    }

    /// The kind of a live object.
    pub fn kind(&self, r: Ref) -> Kind
        requires { IsSome (body self.now r) }
        ensures { IsSomeAnd (body self.now r) (λ b. b.0 ≡ result) }
    {
        self.store.kind(r)
    }

    /// The bytes of a live object that follow its links.
    pub fn bytes(&self, r: Ref) -> &[u8]
        requires { IsSome (body self.now r) }
        ensures { IsSomeAnd (body self.now r) (λ b. b.1 ≡ result.now) }
    {
        self.store.bytes(r)
    }

    /// Writes over bytes of a live object that follow its links, from `offset` on.
    pub fn write(&mut self, r: Ref, offset: usize, bytes: &[u8])
        requires { IsSomeAnd (body self.old r) (λ b. offset + length bytes.now ≤ length b.1) }
        ensures written { IsWritten self.old self.new r (λ b. overwritten b offset bytes.now) }
        ensures count { objects self.new ≡ objects self.old }
        ensures well { IsWell self.new }
    {
        self.store.known();
        self.store.write(r, offset, bytes);
    }

    /// Writes a number into a field of a live object, which begins at `field.0` behind the object's links and takes `field.1` bytes, 8 at most.
    pub fn write_field(&mut self, r: Ref, field: (usize, usize), value: u64)
        requires inside { IsSomeAnd (body self.old r) (λ b. field.0 + field.1 ≤ length b.1) }
        requires width { field.1 ≤ 8 }
        requires fits { value < 256 ^ field.1 }
        ensures written { IsWritten self.old self.new r (λ b. overwritten b field.0 (spelled_number field.1 value)) }
        ensures put { IsSomeAnd (body self.old r) (λ b. IsPut b.1 (overwritten b.1 field.0 (spelled_number field.1 value)) field.0 field.1 value) }
        ensures count { objects self.new ≡ objects self.old }
        ensures well { IsWell self.new }
    {
        let bytes = spell(value);
        self.write(r, field.0, &bytes.as_slice()[..field.1]);
    }

    /// Makes an object of this kind with these bytes behind its links, all of which are unset. It fits an eighth of a segment
    /// and what is spare, which falls by its rounded size at most.
    pub fn alloc_obj(&mut self, kind: Kind, bytes: &[u8]) -> Ref
        requires fits { rounded_size kind (length bytes.now) ≤ S / 8 }
        requires spare { rounded_size kind (length bytes.now) ≤ spare_of S self.old.usages }
        ensures added { IsAdded self.old self.new result kind bytes.now }
        ensures count { objects self.new ≡ objects self.old + 1 }
        ensures well { IsWell self.new }
        ensures spare { spare_of S self.old.usages ≤ spare_of S self.new.usages + rounded_size kind (length bytes.now) }
        ensures live { live_bytes self.new ≡ live_bytes self.old + rounded_size kind (length bytes.now) }
        ensures budget { length self.new.usages ≡ length self.old.usages }
        ensures epoch { Risen self.old.epoch self.new.epoch }
        ensures moved { self.new.moved ≡ self.old.moved }
        ensures compacted { self.new.compacted ≡ self.old.compacted }
    {
        let r = self.store.add(kind, bytes);
        self.epoch = self.epoch.saturating_add(1);
        r
    }

    /// Frees a live object of which no link is set.
    pub fn free_obj(&mut self, r: Ref)
        requires live { IsSome (body self.old r) }
        requires unset { (field : ℕ) → link_of self.old (End.Obj r field) ≡ None }
        ensures freed { IsFreed self.old self.new r }
        ensures count { objects self.new + 1 ≡ objects self.old }
        ensures well { IsWell self.new }
        ensures spare { spare_of S self.new.usages ≡ spare_of S self.old.usages }
        ensures live { IsSomeAnd (body self.old r) (λ b. live_bytes self.new + rounded_size b.0 (length b.1) ≡ live_bytes self.old) }
        ensures free { free_count self.new.usages ≡ free_count self.old.usages }
        ensures budget { length self.new.usages ≡ length self.old.usages }
        ensures epoch { Risen self.old.epoch self.new.epoch }
        ensures moved { self.new.moved ≡ self.old.moved }
        ensures compacted { self.new.compacted ≡ self.old.compacted }
    {
        self.store.kill(r);
        self.epoch = self.epoch.saturating_add(1);
    }

    /// How many bytes may surely still be taken, whatever the sizes of the objects.
    pub fn spare(&self) -> usize
        ensures { result ≡ spare_of S self.now.usages }
    {
        self.store.pool().spare()
    }

    /// Makes a root slot that names nothing: a dropped one, where there is one. Fewer than 2 ^ 32 are there. Want of memory changes nothing.
    pub fn add_root(&mut self, _alloc: Global) -> Result<Root, AllocError>
        requires { (slots_of self.old).there < 2 ^ 32 }
        ensures added { IfOk result (IsRootAdded self.old self.new) }
        ensures same { SameButRoots self.old self.new }
        ensures err { OnErr result (self.new ≡ self.old) }
        ensures well { IsWell self.new }
    {
        match self.roots.make() {
            Ok(number) => Ok(Root { number }),
            Err(error) => Err(error),
        }
    }

    /// Drops a root slot that names nothing.
    pub fn drop_root(&mut self, r: Root)
        requires there { IsEnd self.old (End.Slot r) }
        requires unset { link_of self.old (End.Slot r) ≡ None }
        ensures dropped { IsRootDropped self.old self.new r }
        ensures same { SameButRoots self.old self.new }
        ensures well { IsWell self.new }
    {
        self.roots.remove(r.number);
    }

    /// What a root slot names.
    pub fn root(&self, r: Root) -> Option<End>
        requires { IsEnd self.now (End.Slot r) }
        ensures { result ≡ link_of self.now (End.Slot r) }
    {
        named(&self.store, &self.roots, End::Slot(r))
    }

    /// How many bytes of objects are live.
    pub fn live(&self) -> usize
        ensures { result ≡ live_bytes self.now }
    {
        self.store.pool().live()
    }

    /// The closed segment with least live bytes, of several the one with the least number; None exactly where no closed segment
    /// is sparse.
    pub fn sparse(&self) -> Option<u32>
        ensures { result ≡ sparse_of S self.now.usages }
    {
        self.store.sparse()
    }

    /// Moves the objects of segment `n`, which `sparse` answers, elsewhere, and frees it. Any reference may have a new name
    /// afterwards. What is spare rises by an eighth of a segment at least.
    pub fn evacuate(&mut self, n: u32)
        requires { sparse_of S self.old.usages ≡ Some n }
        ensures emptied { (names : List (Name × Name)) × IsEmptied self.old self.new n names }
        ensures spare { spare_of S self.old.usages + S / 8 ≤ spare_of S self.new.usages }
        ensures moved { self.new.moved ≡ min (self.old.moved + objects_in self.old n) (2 ^ 64 - 1) }
        ensures compacted { Risen self.old.compacted self.new.compacted }
        ensures epoch { Risen self.old.epoch self.new.epoch }
        ensures well { IsWell self.new }
    {
        let epoch = self.epoch.saturating_add(1);
        let moved = mover::evacuate(&mut self.store, &mut self.roots, n);
        self.epoch = epoch;
        self.moved = self.moved.saturating_add(moved as u64);
        self.compacted = self.compacted.saturating_add(1);
    }

    /// How many segments are free.
    pub fn free(&self) -> u32
        ensures { result ≡ free_count self.now.usages }
    {
        self.store.pool().free()
    }

    /// How many objects are live.
    pub fn objects(&self) -> u64
        ensures { result ≡ objects self.now }
    {
        self.store.count() as u64
    }

    /// It rises in each call that adds, moves or frees an object, or stands at its greatest value.
    pub fn epoch(&self) -> u64
        ensures { result ≡ self.now.epoch }
    {
        self.epoch
    }

    /// How many segments were emptied.
    pub fn compacted(&self) -> u64
        ensures { result ≡ self.now.compacted }
    {
        self.compacted
    }

    /// How many objects were moved.
    pub fn moved(&self) -> u64
        ensures { result ≡ self.now.moved }
    {
        self.moved
    }
}

ghost use Rattle.lsa_region.specs.Region.{body, link_of, IsEnd, IsWell};

// A region over a store in which nothing stands.
fn over<const S: usize>(store: Store<S>, roots: Slots) -> Region<S>
    requires cells { (n : ℕ) → cells_of store.cells n ≡ [] }
    requires roots { roots ≡ [] }
    requires reserve { 0 < free_count store.usages }
    ensures cells { result.cells ≡ store.entry.cells }
    ensures bodies { (x : Name) → body result x ≡ None }
    ensures roots { result.roots ≡ [] }
    ensures unset { (e : End) → link_of result e ≡ None }
    ensures well { IsWell result }
    ensures usages { result.usages ≡ store.entry.usages }
    ensures counts { (result.epoch ≡ 0) × (result.moved ≡ 0) × (result.compacted ≡ 0) }
{
    Region {
        store,
        roots,
        epoch: 0,
        moved: 0,
        compacted: 0,
    }
}
