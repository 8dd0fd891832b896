//! A segment that is filled, emptied and given back: a test of `lsa_store`.
ghost use Rattle.std.specs.Prelude.{◌≡◌, ◌<◌, true, IsSomeAnd};
ghost use Rattle.lsa_kinds.specs.Kinds.{links_of};
ghost use Rattle.lsa_pool.specs.Room.{usage_of};
ghost use Rattle.lsa_pool.specs.declared.State.TheVariants.{Closed};
ghost use Rattle.lsa_store.specs.Objects.{body_in};
ghost use Rattle.lsa_store.specs.Stock.{stock_of};

use lsa_kinds::{Kind, links};
use lsa_pool::State;
use lsa_store::{Ref, Store};
use std::test::Fail;

// How many bytes may surely be taken; none where there is no reserve.
fn spare(store: &Store<4096>) -> usize
    ensures { 0 < result → 0 < stock_of 4096 store.now.usages }
{
    if store.pool().free() == 0 {
        return 0;
    }
    store.pool().spare()
}

// Makes an object, where there is surely room for it.
fn add(store: &mut Store<4096>, kind: Kind, bytes: &[u8]) -> Option<Ref> {
    if bytes.len() > 400 || spare(store) < 512 {
        return None;
    }
    Some(store.add(kind, bytes))
}

// Whether a link of an object is there.
fn has_link(store: &Store<4096>, r: Ref, field: usize) -> bool
    ensures { result ≡ true → IsSomeAnd (body_in store.now.cells r) (λ b. field < links_of b.0) }
{
    if !store.has(r) {
        return false;
    }
    field < links(store.kind(r))
}

// Whether the bytes of an object begin so, and its first link is 0.
fn starts(store: &Store<4096>, r: Ref, bytes: &[u8]) -> bool {
    has_link(store, r, 0) && store.bytes(r).starts_with(bytes) && store.word(r, 0) == 0
}

// Writes a number into the first link of an object, and three bytes over its own.
fn mark(store: &mut Store<4096>, r: Ref, value: u64) {
    if has_link(store, r, 0) {
        store.set_word(r, 0, value);
    }
    if store.has(r) && store.bytes(r).len() > 5 {
        store.write(r, 2, &[7, 8, 9]);
    }
}

fn kill(store: &mut Store<4096>, r: Ref) -> bool {
    let there = store.has(r);
    if there {
        store.kill(r);
    }
    there
}

// Moves an object out of a closed segment, and gives its place.
fn carry(store: &mut Store<4096>, r: Ref) -> Option<Ref> {
    if !store.has(r) || !is_closed(store, r.segment) || spare(store) == 0 {
        return None;
    }
    let moved = store.copy(r);
    kill(store, r);
    Some(moved)
}

fn is_closed(store: &Store<4096>, n: u32) -> bool
    ensures { result ≡ true → (usage_of store.now.usages n).state ≡ Closed }
{
    store.known();
    n < 4 && store.pool().usage(n).state == State::Closed
}

// Gives a segment back, if nothing is live there.
fn give(store: &mut Store<4096>, n: u32) -> bool {
    let empty = is_closed(store, n) && store.pool().usage(n).live == 0;
    if empty {
        store.release(n);
    }
    empty
}

// Ten objects of 400 bytes fill a segment; nine of them go, the other one is carried out, and the segment is given back.
#[test]
fn a_segment_is_emptied(rt: HostRuntime) -> Result<(), Fail> {
    let mut store = Store::<4096>::open(rt.alloc(), 4)?;
    let mut places = Vec::new(rt.alloc());
    for made in 0..11u8 {
        if let Some(r) = add(&mut store, Kind::Static, &[made; 368]) {
            places.push(r)?;
        }
    }
    assert_eq!(rt; (store.count(), store.pool().live()), (11, 4400));
    let kept = Ref {
        segment: 0,
        offset: 1200,
    };
    mark(&mut store, kept, 5);
    for r in places.iter().take(10) {
        if *r != kept {
            assert!(rt; kill(&mut store, *r));
            assert!(rt; !store.has(*r));
        }
    }
    assert_eq!(rt; (store.sparse(), store.count()), (Some(0), 2));
    let moved = carry(&mut store, kept);
    assert_eq!(rt;
        moved,
        Some(Ref {
            segment: 1,
            offset: 400
        })
    );
    assert!(rt; give(&mut store, 0));
    assert_eq!(rt; (store.end(0), store.end(1), store.count()), (0, 800, 2));
    let there = Ref {
        segment: 1,
        offset: 400,
    };
    assert!(rt; starts(&store, there, &[3, 3, 7, 8, 9, 3]));
    Ok(())
}
