//! A region full of chains of one version each, in which room is made: tests of `rc_evict`.
use rc_chain::{ChainKind, Chains};
use rc_evict::{Room, make_room};
use std::alloc::{AllocError, Global};
use std::test::Fail;

// Makes a chain of a kind, of 152 bytes in two objects, where there is room for it.
fn make_one(chains: &mut Chains<4096>, kind: ChainKind) -> Result<(), AllocError> {
    if chains.region().spare() >= 152 {
        let _id = chains.new_chain(kind, 1, None)?;
    }
    Ok(())
}

// Makes so many of them, as long as there is room.
fn fill(chains: &mut Chains<4096>, kind: ChainKind, count: u64) -> Result<(), AllocError> {
    for _ in 0..count {
        make_one(chains, kind)?;
    }
    Ok(())
}

// Whether room is at hand beside one chain, and nothing is evicted for it.
fn is_at_hand(chains: &mut Chains<4096>) -> bool {
    make_room(chains, 3584) == Room::Room
        && chains.region().live() == 152
        && chains.counts().evicted == 0
}

// Whether, where no chain fits any more, this comes of a wish for room: room where objects are evicted, and else none.
fn comes_of_it(chains: &mut Chains<4096>, answer: Room) -> bool {
    let is_full = chains.region().spare() < 152;
    let made = make_room(chains, 3584);
    let is_room = answer == Room::Room;
    is_full
        && made == answer
        && (chains.region().spare() >= 3584) == is_room
        && (chains.counts().evicted > 0) == is_room
}

// Whether room is at hand beside one chain of a kind, and this comes of a wish for it where no chain fits any more.
fn gives(chains: &mut Chains<4096>, kind: ChainKind, answer: Room) -> Result<bool, AllocError> {
    fill(chains, kind, 1)?;
    let at_hand = is_at_hand(chains);
    fill(chains, kind, 100)?;
    Ok(at_hand && comes_of_it(chains, answer))
}

// The same in a new region.
fn gives_anew(alloc: Global, kind: ChainKind, answer: Room) -> Result<bool, AllocError> {
    let mut chains = Chains::<4096>::open(alloc, 4)?;
    gives(&mut chains, kind, answer)
}

// Room is at hand at first, and nothing is evicted for it. Once no chain fits any more, caches give it, and memtables do not.
#[test]
fn room_by_evictions(rt: HostRuntime) -> Result<(), Fail> {
    assert!(rt; gives_anew(rt.alloc(), ChainKind::Cache, Room::Room)?);
    assert!(rt; gives_anew(rt.alloc(), ChainKind::Memtable, Room::NoRoom)?);
    Ok(())
}
