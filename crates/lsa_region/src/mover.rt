//! Objects that move: each is made again elsewhere, its links go there one by one, and it is freed.
ghost use Rattle.std.specs.Prelude.{◌≡◌, ◌≢◌, ℕ, ◌+◌, ◌<◌, ◌≤◌, ◌/◌, length, Some, None, IsSome, IsSomeAnd};
ghost use Rattle.lsa_kinds.specs.Kinds.{links_of};
ghost use Rattle.lsa_store.specs.State.TheVariants.{Closed};
ghost use Rattle.lsa_store.specs.Room.{nothing, usage_of, free_count, live_sum, spare_of};
ghost use Rattle.lsa_store.specs.Cells.{extent};
ghost use Rattle.lsa_store.specs.declared.place.Ref.{Ref as Name};
ghost use Rattle.lsa_store.specs.Objects.{cells_of, cell_in, body_in, live_count};
ghost use Rattle.lsa_store.specs.Stock.{stock_of, sparse_of};
ghost use Rattle.lsa_region.specs.Ends.{named_in, slots_in, IsEndIn};
ghost use Rattle.lsa_region.specs.calls.Ends.{IsSameShape};
ghost use Rattle.lsa_region.specs.Paired.{IsExchanged};
ghost use Rattle.lsa_region.specs.Region.{body, IsWell, objects_in};
ghost use Rattle.lsa_region.specs.calls.Moves.{view_in, IsCarrying, IsRenamedBy, IsMovedTo, IsSweeping};

use crate::end::End;
use crate::links::exchange;
use crate::slots::Slots;
use lsa_kinds::links;
use lsa_store::{Ref, Store};

/// Moves the objects of the sparse segment elsewhere, frees it, and gives how many they were.
pub(crate) fn evacuate<const S: usize>(store: &mut Store<S>, roots: &mut Slots, n: u32) -> usize
    requires well { IsWell (view_in store.old roots.old) }
    requires sparse { sparse_of S store.old.usages ≡ Some n }
    requires reserve { 0 < free_count store.old.usages }
    ensures renamed { (there : Name → Name) × (back : Name → Name) × IsRenamedBy (view_in store.old roots.old) (view_in store.new roots.new) there back × ((x : Name) → IsSome (body_in store.old.cells x) → x.segment ≢ n → there x ≡ x) }
    ensures gone { (x : Name) → IsSome (body_in store.new.cells x) → x.segment ≢ n }
    ensures well { IsWell (view_in store.new roots.new) }
    ensures count { result ≡ live_count (cells_of store.old.cells n) }
    ensures emptied { usage_of store.new.usages n ≡ nothing }
    ensures spare { spare_of S store.old.usages + S / 8 ≤ spare_of S store.new.usages }
    ensures reserve { 0 < free_count store.new.usages }
    ensures live { live_sum store.new.usages ≡ live_sum store.old.usages }
    ensures budget { length store.new.usages ≡ length store.old.usages }
{
    store.known();
    let moved = sweep(store, roots, n);
    store.known();
    store.release(n);
    moved
}

// Moves the objects of a closed segment elsewhere, and gives how many they were.
fn sweep<const S: usize>(store: &mut Store<S>, roots: &mut Slots, n: u32) -> usize
    requires well { IsWell (view_in store.old roots.old) }
    requires closed { (usage_of store.old.usages n).state ≡ Closed }
    requires stock { (usage_of store.old.usages n).live ≤ stock_of S store.old.usages }
    ensures swept { (there : Name → Name) × (back : Name → Name) × IsSweeping S (view_in store.old roots.old) (view_in store.new roots.new) n (extent (cells_of store.old.cells n)) result there back }
    ensures well { IsWell (view_in store.new roots.new) }
{
    store.known();
    let end = store.end(n);
    let mut moved = 0;
    let mut offset = 0;
    while offset < end {
        let r = Ref {
            segment: n,
            offset: offset as u32,
        };
        let size = store.size_at(r);
        match store.kind_at(r) {
            Some(_) => {
                store.known();
                move_object(store, roots, r);
                moved += 1;
            }
            None => {}
        }
        offset += size;
    }
    moved
}

// Lets the links of an object change places with those of another one, of the same kind.
fn carry_links<const S: usize>(store: &mut Store<S>, roots: &mut Slots, r: Ref, q: Ref)
    requires object { IsSome (body_in store.old.cells r) }
    requires alike { body_in store.old.cells q ≡ body_in store.old.cells r }
    requires differ { q ≢ r }
    requires well { IsWell (view_in store.old roots.old) }
    ensures carried { IsSomeAnd (body_in store.old.cells r) (λ b. IsCarrying (view_in store.old roots.old) (view_in store.new roots.new) r q (links_of b.0)) }
    ensures well { IsWell (view_in store.new roots.new) }
{
    let fields = links(store.kind(r));
    for field in 0..fields {
        carry_link(store, roots, r, q, field as u8);
    }
}

// Lets one link of an object change places with that of another one. Two that are not set have no places to change.
fn carry_link<const S: usize>(store: &mut Store<S>, roots: &mut Slots, r: Ref, q: Ref, field: u8)
    requires first { IsEndIn store.old.cells roots.old (End.Obj r field) }
    requires second { IsEndIn store.old.cells roots.old (End.Obj q field) }
    requires differ { q ≢ r }
    requires well { IsWell (view_in store.old roots.old) }
    ensures exchanged { IsExchanged (named_in store.old.cells roots.old) (named_in store.new.cells roots.new) (End.Obj r field) (End.Obj q field) }
    ensures ends { (e : End) → IsEndIn store.old.cells roots.old e → IsEndIn store.new.cells roots.new e }
    ensures back { (e : End) → IsEndIn store.new.cells roots.new e → IsEndIn store.old.cells roots.old e }
    ensures shape { IsSameShape store.old.cells store.new.cells }
    ensures usages { store.new.usages ≡ store.old.usages }
    ensures slots { slots_in roots.new ≡ slots_in roots.old }
{
    if store.word(r, field as usize) == 0 && store.word(q, field as usize) == 0 {
        return;
    }
    exchange(store, roots, End::Obj(r, field), End::Obj(q, field));
}

// Moves an object of a closed segment elsewhere.
fn move_object<const S: usize>(store: &mut Store<S>, roots: &mut Slots, r: Ref)
    requires object { IsSome (body_in store.old.cells r) }
    requires closed { (usage_of store.old.usages r.segment).state ≡ Closed }
    requires stock { 0 < stock_of S store.old.usages }
    requires well { IsWell (view_in store.old roots.old) }
    ensures moved { (q : Name) × IsMovedTo S (view_in store.old roots.old) (view_in store.new roots.new) r q }
    ensures well { IsWell (view_in store.new roots.new) }
{
    store.known();
    let q = store.copy(r);
    carry_links(store, roots, r, q);
    store.kill(r);
}
