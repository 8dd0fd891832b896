//! The works: a region is filled, asked for room while it is full, its segments are emptied, and root slots come and go.
ghost use Rattle.std.specs.Prelude.{◌≡◌, ◌↔◌, ℕ, ◌+◌, ◌*◌, ◌-◌, ◌^◌, ◌<◌, ◌≤◌, true, false, Some, None, IsSome, IfSome, IfOk, cond, min, max};
ghost use Rattle.lsa_pool.specs.Room.{spare_of};
ghost use Rattle.lsa_store.specs.Stock.{sparse_of};
ghost use Rattle.lsa_region.specs.declared.end.Root.{Root as Slot};
ghost use Rattle.lsa_store.specs.declared.place.Ref.{Ref as Name};
ghost use Rattle.lsa_region.specs.Region.{body, link_of, live_bytes, objects, IsEnd, IsWell, Renamed, slots_of};
ghost use Rattle.lsa_bench.specs.Works.{named_object, length_of, IsStep, StepsDone};
ghost use Rattle.lsa_move.specs.Room.{Tight, IsCompacted, Compactions};

use lsa_kinds::Kind;
use lsa_move::{Ensured, compact_one, ensure};
use lsa_region::{End, Ref, Region, Root};
use std::alloc::{AllocError, Global};

pub static DUMMY: [u8; 34] = [7; 34];

/// Makes a dummy of 88 bytes, and frees it at once if it is to go; false where there is no room.
pub fn make(region: &mut Region<4096>, goes: bool) -> bool
    ensures tells { result ≡ true ↔ (88 ≤ spare_of 4096 region.old.usages) }
    ensures none { result ≡ false → region.new ≡ region.old }
    ensures objects { result ≡ true → objects region.new ≡ objects region.old + cond goes 0 1 }
    ensures live { result ≡ true → live_bytes region.new ≡ live_bytes region.old + cond goes 0 88 }
    ensures epoch { result ≡ true → region.new.epoch ≡ min (region.old.epoch + cond goes 2 1) (2 ^ 64 - 1) }
    ensures slots { (s : Slot) → IsEnd region.old (End.Slot s) → IsEnd region.new (End.Slot s) }
{
    if region.spare() < 88 {
        return false;
    }
    let dummy = region.alloc_obj(Kind::Dummy, &DUMMY);
    if goes {
        region.free_obj(dummy);
    }
    true
}

/// Makes dummies until there is no room, and gives how many.
pub fn fill(region: &mut Region<4096>) -> u64
    ensures full { spare_of 4096 region.new.usages < 88 }
    ensures objects { objects region.new ≡ objects region.old + result }
    ensures live { live_bytes region.new ≡ live_bytes region.old + 88 * result }
{
    for made in 0..u64::MAX {
        if !make(region, false) {
            return made;
        }
    }
    let _live = region.live();
    u64::MAX
}

// Asks once for the most room that may be asked for: 1 where there is none, and else 0.
fn ask_once(region: &mut Region<4096>) -> u64
    ensures one { 0 < result → result ≡ 1 }
    ensures full { 0 < result → spare_of 4096 region.new.usages < 3584 }
    ensures tight { 0 < result → Tight 4096 region.new.usages }
    ensures ready { result ≡ 0 → 3584 ≤ spare_of 4096 region.new.usages }
    ensures idle { 3584 ≤ spare_of 4096 region.old.usages → region.new ≡ region.old }
    ensures rounds { (rounds : ℕ) × Compactions 4096 3584 rounds region.old region.new }
{
    match ensure(region, 3584) {
        Ensured::Full => 1,
        Ensured::Ready => 0,
    }
}

/// Asks for room so many times, and gives how often there was none: each time, or never. Segments are emptied, the sparsest first, and
/// nothing else is done.
pub fn ask(region: &mut Region<4096>, times: u64) -> u64
    ensures never { 3584 ≤ spare_of 4096 region.new.usages → result ≡ 0 }
    ensures always { spare_of 4096 region.new.usages < 3584 → result ≡ times }
    ensures rounds { (rounds : ℕ) × Compactions 4096 3584 rounds region.old region.new }
{
    let mut full: u64 = 0;
    for asked in 0..times {
        full = full.saturating_add(ask_once(region));
    }
    full
}

/// Makes so many root slots, all of which stay.
pub fn keep_slots(region: &mut Region<4096>, alloc: Global, count: u32) -> Result<(), AllocError>
    requires { (slots_of region.old).there + count < 2 ^ 32 }
    ensures { IfOk result (λ _. (slots_of region.new).there ≡ (slots_of region.old).there + count) }
{
    for made in 0..count {
        region.add_root(alloc)?;
    }
    Ok(())
}

/// Makes a root slot and drops it, so many times. However often that is, there is one number more at most: the dropped slot is used again.
pub fn change_slots(region: &mut Region<4096>, alloc: Global, times: u32) -> Result<(), AllocError>
    requires { (slots_of region.old).there < 2 ^ 32 }
    ensures there { IfOk result (λ _. (slots_of region.new).there ≡ (slots_of region.old).there) }
    ensures again { IfOk result (λ _. 0 < times → (slots_of region.new).bound ≡ max (slots_of region.old).bound ((slots_of region.old).there + 1)) }
{
    for changed in 0..times {
        let slot = region.add_root(alloc)?;
        region.drop_root(slot);
    }
    Ok(())
}

// The object of which a slot names a link.
fn held(region: &Region<4096>, slot: Root) -> Option<Ref>
    requires { IsEnd region.now (End.Slot slot) }
    ensures held { result ≡ named_object (link_of region.now (End.Slot slot)) }
    ensures live { IfSome result (λ r. IsSome (body region.now r)) }
{
    region.known();
    match region.root(slot) {
        Some(End::Obj(r, _field)) => Some(r),
        Some(End::Slot(_)) => None,
        None => None,
    }
}

// How many bytes of its own the object has.
fn size_of(region: &Region<4096>, object: Option<Ref>) -> usize
    requires { IfSome object (λ r. IsSome (body region.now r)) }
    ensures { result ≡ length_of region.now object }
{
    match object {
        Some(r) => region.bytes(r).len(),
        None => 0,
    }
}

/// Empties the sparsest segment, and tells that the object that the slot names is as long as before. Any reference may have another
/// name after the move, so it is asked of the slot again.
pub fn stays_over_a_move(region: &mut Region<4096>, slot: Root) -> bool
    requires { IsEnd region.old (End.Slot slot) }
    ensures stays { result ≡ true }
    ensures emptied { IfSome (sparse_of 4096 region.old.usages) (IsCompacted 4096 region.old region.new) }
    ensures same { sparse_of 4096 region.old.usages ≡ None → region.new ≡ region.old }
    ensures there { IsEnd region.new (End.Slot slot) }
{
    region.known();
    let before = held(region, slot);
    let size = size_of(region, before);
    compact_one(region);
    let after = held(region, slot);
    size == size_of(region, after)
}

// Makes a dummy, or empties a segment where there is no room; false where none is sparse, and then nothing is changed.
fn make_or_move(region: &mut Region<4096>, slot: Root, goes: bool) -> bool
    requires { IsEnd region.old (End.Slot slot) }
    ensures step { result ≡ true → IsStep goes region.old region.new }
    ensures same { result ≡ false → region.new ≡ region.old }
    ensures there { IsEnd region.new (End.Slot slot) }
    ensures full { result ≡ false → spare_of 4096 region.new.usages < 88 }
    ensures tight { result ≡ false → sparse_of 4096 region.new.usages ≡ None }
{
    if make(region, goes) {
        return true;
    }
    match region.sparse() {
        Some(_) => stays_over_a_move(region, slot),
        None => false,
    }
}

/// Makes dummies, of which every other one goes again, and empties segments whenever there is no room, until none is sparse. Gives how
/// many steps that took.
pub fn move_all(region: &mut Region<4096>, slot: Root) -> u64
    requires { IsEnd region.old (End.Slot slot) }
    ensures steps { StepsDone result region.old region.new }
    ensures there { IsEnd region.new (End.Slot slot) }
    ensures full { result < 2 ^ 64 - 1 → spare_of 4096 region.new.usages < 88 }
    ensures tight { result < 2 ^ 64 - 1 → sparse_of 4096 region.new.usages ≡ None }
{
    for made in 0..u64::MAX {
        if !make_or_move(region, slot, made % 2 == 0) {
            return made;
        }
    }
    u64::MAX
}

/// A root slot that names a link of a new object; None only where there is no room for that.
pub fn hold(region: &mut Region<4096>, alloc: Global) -> Result<Option<Root>, AllocError>
    requires { (slots_of region.old).there < 2 ^ 32 }
    ensures full { IfOk result (λ s. s ≡ None → spare_of 4096 region.old.usages < 88) }
    ensures there { IfOk result (λ s. IfSome s (λ slot. IsEnd region.new (End.Slot slot))) }
    ensures names { IfOk result (λ s. IfSome s (λ slot. (object : Name) × (body region.old object ≡ None) × (link_of region.new (End.Slot slot) ≡ Some (End.Obj object 0)))) }
{
    if region.spare() < 88 {
        return Ok(None);
    }
    let slot = region.add_root(alloc)?;
    let object = region.alloc_obj(Kind::Dummy, &DUMMY);
    region.link(End::Slot(slot), End::Obj(object, 0));
    Ok(Some(slot))
}
