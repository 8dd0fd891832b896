//! Tests of `lsa_region`, and random calls against a plain model of it.
ghost use Rattle.std.specs.Prelude.{◌≡◌, ◌≢◌, ℕ, ◌≤◌, [], ◌∷◌, ◌++◌, true, false, None, IsSome, IfSome, IfOk};
ghost use Rattle.lsa_pool.specs.Room.{spare_of};
ghost use Rattle.lsa_store.specs.declared.place.Ref.{Ref as Name};
ghost use Rattle.lsa_region.specs.Ends.{same_ref, same_end};
ghost use Rattle.lsa_region.specs.Region.{body, link_of, slots_of, IsEnd, IsRootAdded};
ghost use Rattle.lsa_tests.specs.Seated.{IsSeated, AllStaySeated, AreSlotsKept, AreSlots, HasSlots, AreSeatedOnce};

use lsa_kinds::{Kind, links};
use lsa_region::{End, Ref, Region, Root};
use std::alloc::{AllocError, Global};
use std::process::Abort;
use std::test::Fail;

const DUMMY: [u8; 34] = [7; 34];

// Whether the two are the same end.
fn same(a: End, b: End) -> bool
    ensures { result ≡ same_end a b }
{
    match (a, b) {
        (End::Obj(r, field), End::Obj(s, other)) => same_object(r, s) && field == other,
        (End::Slot(r), End::Slot(s)) => r.number == s.number,
        _ => false,
    }
}

// Whether the two name the same object.
fn same_object(r: Ref, s: Ref) -> bool
    ensures { result ≡ same_ref r s }
{
    r.segment == s.segment && r.offset == s.offset
}

// Whether the end of an object that is there, or of a slot that is, is there.
fn is_end(region: &Region<4096>, end: End) -> bool
    requires { IsSeated region.now end }
    ensures yes { result ≡ true → IsEnd region.now end }
    ensures no { result ≡ false → IsEnd region.now end → ⊥ }
{
    match end {
        End::Obj(r, field) => has_link(region, r, field),
        End::Slot(_) => true,
    }
}

// Whether an object has a link of this field number.
fn has_link(region: &Region<4096>, r: Ref, field: u8) -> bool
    requires { IsSome (body region.now r) }
    ensures yes { result ≡ true → IsEnd region.now (End.Obj r field) }
    ensures no { result ≡ false → IsEnd region.now (End.Obj r field) → ⊥ }
{
    (field as usize) < links(region.kind(r))
}

// Whether the end is not there or names nothing.
fn is_unset(region: &Region<4096>, end: End) -> bool
    requires { IsSeated region.now end }
    ensures { result ≡ true → link_of region.now end ≡ None }
{
    region.known();
    if !is_end(region, end) {
        return true;
    }
    match region.link_of(end) {
        Some(_) => false,
        None => true,
    }
}

// Whether no link of an object is set.
fn is_loose(region: &Region<4096>, r: Ref) -> bool
    requires { IsSome (body region.now r) }
    ensures { result ≡ true → (field : ℕ) → link_of region.now (End.Obj r field) ≡ None }
{
    region.known();
    for field in 0..5 {
        if !is_unset(region, End::Obj(r, field)) {
            return false;
        }
    }
    true
}

// Frees an object; false where a link of it is set.
fn free(region: &mut Region<4096>, r: Ref) -> bool
    requires { IsSome (body region.old r) }
    ensures others { (q : Name) → q ≢ r → IsSome (body region.old q) → IsSome (body region.new q) }
    ensures slots { AreSlotsKept region.old region.new }
{
    if !is_loose(region, r) {
        return false;
    }
    region.free_obj(r);
    true
}

// Makes so many dummies, each where there is room for it; false where there is none.
fn make_dummies(
    region: &mut Region<4096>,
    dummies: &mut Vec<Ref>,
    count: u64,
) -> Result<bool, AllocError>
    requires { AreSeatedOnce region.old dummies.old.items }
    ensures { IfOk result (λ _. AreSeatedOnce region.new dummies.new.items) }
{
    for _ in 0..count {
        if region.spare() < 88 {
            return Ok(false);
        }
        dummies.push(make_dummy(region, dummies.as_slice()))?;
    }
    Ok(true)
}

// Makes a dummy, which is none of those.
fn make_dummy(region: &mut Region<4096>, _dummies: &[Ref]) -> Ref
    requires room { 88 ≤ spare_of 4096 region.old.usages }
    requires once { AreSeatedOnce region.old _dummies.now }
    ensures { AreSeatedOnce region.new (_dummies.now ++ (result ∷ [])) }
{
    region.alloc_obj(Kind::Dummy, &DUMMY)
}

// Frees the first of some dummies; false where a link of it is set.
fn free_front(region: &mut Region<4096>, dummy: Ref, _rest: &[Ref]) -> bool
    requires { AreSeatedOnce region.old (dummy ∷ _rest.now) }
    ensures { AreSeatedOnce region.new _rest.now }
{
    free(region, dummy)
}

// Frees the first so many dummies; false where a link of one is set, or there are fewer.
fn free_first(region: &mut Region<4096>, dummies: &[Ref], count: u64) -> bool
    requires { AreSeatedOnce region.old dummies.now }
{
    let mut left = dummies;
    for _ in 0..count {
        let [dummy, rest @ ..] = left else {
            return false;
        };
        if !free_front(region, *dummy, rest) {
            return false;
        }
        left = rest;
    }
    true
}

// Makes so many dummies, and shows what is spare then.
fn fill_up(
    rt: &impl Abort,
    region: &mut Region<4096>,
    dummies: &mut Vec<Ref>,
    count: u64,
    spare: usize,
) -> Result<(), AllocError>
    requires { AreSeatedOnce region.old dummies.old.items }
    ensures { IfOk result (λ _. AreSeatedOnce region.new dummies.new.items) }
{
    assert!(rt; make_dummies(region, dummies, count)?);
    assert_eq!(rt; region.spare(), spare);
    Ok(())
}

// No dummies.
fn no_dummies(_region: &Region<4096>, alloc: Global) -> Vec<Ref>
    ensures { AreSeatedOnce _region.now result.items }
{
    Vec::new(alloc)
}

// 93 dummies, of which 46 fill a segment.
fn fill(rt: &impl Abort, region: &mut Region<4096>, alloc: Global) -> Result<Vec<Ref>, AllocError>
    ensures { IfOk result (λ v. AreSeatedOnce region.new v.items) }
{
    let mut dummies = no_dummies(region, alloc);
    fill_up(rt, region, &mut dummies, 1, 10664)?;
    fill_up(rt, region, &mut dummies, 45, 7168)?;
    fill_up(rt, region, &mut dummies, 1, 7080)?;
    fill_up(rt, region, &mut dummies, 46, 3496)?;
    Ok(dummies)
}

// 46 dummies of 88 bytes fill a segment of 4096 bytes; the first 45 go, and the other one is moved.
#[test]
fn room_of_ninety_three_dummies(rt: HostRuntime) -> Result<(), Fail> {
    let mut region = Region::<4096>::open(rt.alloc(), 4)?;
    is_empty(&rt, &region);
    let dummies = fill(&rt, &mut region, rt.alloc())?;
    is_filled(&rt, &region);
    assert!(rt; free_first(&mut region, dummies.as_slice(), 45));
    is_emptied(&rt, &mut region);
    Ok(())
}

// The region has nothing but room.
fn is_empty(rt: &impl Abort, region: &Region<4096>) {
    assert_eq!(rt;
        (region.spare(), region.free(), region.epoch()),
        (10752, 3, 0)
    );
}

// The region has all of the dummies.
fn is_filled(rt: &impl Abort, region: &Region<4096>) {
    assert_eq!(rt;
        (region.free(), region.objects(), region.live()),
        (1, 93, 8184)
    );
    assert_eq!(rt; region.sparse(), None);
}

// Of the dummies of the first segment one is left, which is moved.
fn is_emptied(rt: &impl Abort, region: &mut Region<4096>) {
    assert_eq!(rt; (region.live(), region.spare()), (4224, 3496));
    assert_eq!(rt; empty_sparse(region), Some(0));
    assert_eq!(rt;
        (region.moved(), region.compacted(), region.free()),
        (1, 1, 2)
    );
    assert_eq!(rt;
        (region.spare(), region.live(), region.epoch()),
        (6992, 4224, 139)
    );
    assert_eq!(rt; region.sparse(), None);
}

// Empties the sparse segment, if there is one, and tells which.
fn empty_sparse(region: &mut Region<4096>) -> Option<u32>
    ensures { AreSlotsKept region.old region.new }
{
    let sparse = region.sparse();
    if let Some(n) = sparse {
        region.evacuate(n);
    }
    sparse
}

// Two objects are made and read.
#[test]
fn two_objects(rt: HostRuntime) -> Result<(), Fail> {
    let mut region = Region::<4096>::open(rt.alloc(), 4)?;
    for bytes in [[1, 2, 3], [4, 5, 6]] {
        assert!(rt; region.spare() >= 200);
        let object = region.alloc_obj(Kind::Static, &bytes);
        assert_eq!(rt; region.kind(object), Kind::Static);
        assert_eq!(rt; region.bytes(object), bytes.as_slice());
    }
    assert_eq!(rt; (region.objects(), region.live()), (2, 80));
    Ok(())
}

// Links of one object: two pairs, of which two ends change places.
#[test]
fn ends_change_places(rt: HostRuntime) -> Result<(), Fail> {
    let mut region = Region::<4096>::open(rt.alloc(), 4)?;
    assert!(rt; region.spare() >= 200);
    let r = region.alloc_obj(Kind::RowEntry, &DUMMY);
    assert!(rt; pairs_trade(&mut region, r));
    Ok(())
}

// Ties 0 to 1 and 2 to 3, and lets 1 and 2 change places; whether then 0 names 2, and nothing once that is parted.
fn pairs_trade(region: &mut Region<4096>, r: Ref) -> bool
    requires { IsSome (body region.old r) }
{
    tie_links(region, r, 0, 1)
        && tie_links(region, r, 2, 3)
        && !tie_links(region, r, 0, 0)
        && trade_links(region, r, 1, 2)
        && is_mate(untie_link(region, r, 0), End::Obj(r, 2))
        && is_unset(region, End::Obj(r, 0))
}

// Links two links of an object, where they can be.
fn tie_links(region: &mut Region<4096>, r: Ref, first: u8, second: u8) -> bool
    requires { IsSome (body region.old r) }
    ensures { IsSome (body region.new r) }
{
    tie(region, End::Obj(r, first), End::Obj(r, second))
}

// Lets two links of an object change places, where they can.
fn trade_links(region: &mut Region<4096>, r: Ref, first: u8, second: u8) -> bool
    requires { IsSome (body region.old r) }
    ensures { IsSome (body region.new r) }
{
    trade(region, End::Obj(r, first), End::Obj(r, second))
}

// Parts a link of an object that is set, and gives its mate.
fn untie_link(region: &mut Region<4096>, r: Ref, field: u8) -> Option<End>
    requires { IsSome (body region.old r) }
    ensures { IsSome (body region.new r) }
{
    untie(region, End::Obj(r, field))
}

fn is_mate(named: Option<End>, end: End) -> bool {
    match named {
        Some(mate) => same(mate, end),
        None => false,
    }
}

// What an end names.
fn mate(region: &Region<4096>, end: End) -> Option<End>
    requires { IsSeated region.now end }
{
    if is_end(region, end) {
        region.link_of(end)
    } else {
        None
    }
}

// Links two ends, where they can be.
fn tie(region: &mut Region<4096>, first: End, second: End) -> bool
    requires first { IsSeated region.old first }
    requires second { IsSeated region.old second }
    ensures { AllStaySeated region.old region.new }
{
    if !is_end(region, first) || !is_end(region, second) || same(first, second) {
        return false;
    }
    if let Some(_) = region.link_of(first) {
        return false;
    }
    if let Some(_) = region.link_of(second) {
        return false;
    }
    region.link(first, second);
    true
}

// Parts an end that is set, and gives its mate.
fn untie(region: &mut Region<4096>, end: End) -> Option<End>
    requires { IsSeated region.old end }
    ensures { AllStaySeated region.old region.new }
{
    if !is_end(region, end) {
        return None;
    }
    match region.link_of(end) {
        Some(_) => Some(region.unlink(end)),
        None => None,
    }
}

// Lets two ends change places, where they can.
fn trade(region: &mut Region<4096>, first: End, second: End) -> bool
    requires first { IsSeated region.old first }
    requires second { IsSeated region.old second }
    ensures { AllStaySeated region.old region.new }
{
    if !is_end(region, first) || !is_end(region, second) || same(first, second) {
        return false;
    }
    region.exchange(first, second);
    true
}

static COUNTING: [u8; 64] = [
    0, 1, 2, 3, 4, 5, 6, 7, 8, 9, 10, 11, 12, 13, 14, 15, 16, 17, 18, 19, 20, 21, 22, 23, 24, 25,
    26, 27, 28, 29, 30, 31, 32, 33, 34, 35, 36, 37, 38, 39, 40, 41, 42, 43, 44, 45, 46, 47, 48, 49,
    50, 51, 52, 53, 54, 55, 56, 57, 58, 59, 60, 61, 62, 63,
];

// 8 to 47 bytes that tell the number.
fn sample(number: usize) -> &'static [u8] {
    let from = number % 16;
    &COUNTING[from..from + 8 + number % 40]
}

// The plain map: of each of 100 seats the number of the bytes of the object there, and which link each of their 400 links names. A seat's
// object is found by the root slot of the seat, which names its last link: no reference is kept from one call to the next.
#[derive(Drop)]
struct Plain {
    objects: Vec<Option<usize>>,
    mates: Vec<Option<usize>>,
}

// The slot of a seat.
fn slot_of(_region: &Region<4096>, slots: &[Root], seat: usize) -> Option<Root>
    requires { AreSlots _region.now slots.now }
    ensures { IfSome result (λ s. IsEnd _region.now (End.Slot s)) }
{
    if seat < slots.len() {
        Some(slots[seat])
    } else {
        None
    }
}

// The object whose link a slot names.
fn object_at(region: &Region<4096>, slot: Root) -> Option<Ref>
    requires { IsEnd region.now (End.Slot slot) }
    ensures { IfSome result (λ r. IsSome (body region.now r)) }
{
    region.known();
    match region.root(slot) {
        Some(End::Obj(r, _field)) => Some(r),
        Some(End::Slot(_)) => None,
        None => None,
    }
}

// The object at a seat.
fn seated(region: &Region<4096>, slots: &[Root], seat: usize) -> Option<Ref>
    requires { AreSlots region.now slots.now }
    ensures { IfSome result (λ r. IsSome (body region.now r)) }
{
    match slot_of(region, slots, seat) {
        Some(slot) => object_at(region, slot),
        None => None,
    }
}

// A link by its number among the 400.
fn end_at(region: &Region<4096>, slots: &[Root], link: usize) -> Option<End>
    requires { AreSlots region.now slots.now }
    ensures { IfSome result (IsSeated region.now) }
{
    match seated(region, slots, link / 4) {
        Some(r) => Some(End::Obj(r, (link % 4) as u8)),
        None => None,
    }
}

fn set_mate(plain: &mut Plain, link: usize, mate: Option<usize>) {
    if let Some(place) = plain.mates.get_mut(link) {
        *place = mate;
    }
}

fn set_object(plain: &mut Plain, seat: usize, object: Option<usize>) {
    if let Some(place) = plain.objects.get_mut(seat) {
        *place = object;
    }
}

fn number_at(plain: &Plain, seat: usize) -> Option<usize> {
    match plain.objects.get(seat) {
        Some(object) => *object,
        None => None,
    }
}

fn mate_at(plain: &Plain, link: usize) -> Option<usize> {
    match plain.mates.get(link) {
        Some(mate) => *mate,
        None => None,
    }
}

// Makes a row entry that the slot names, where there is room.
fn make(region: &mut Region<4096>, slot: Root, bytes: &[u8]) -> bool
    requires { IsEnd region.old (End.Slot slot) }
    ensures { AreSlotsKept region.old region.new }
{
    if bytes.len() > 64 || region.spare() < 120 {
        return false;
    }
    let object = region.alloc_obj(Kind::RowEntry, bytes);
    tie(region, End::Slot(slot), End::Obj(object, 4))
}

// Whether none of the first four links of an object is set.
fn is_apart(region: &Region<4096>, object: Ref) -> bool
    requires { IsSome (body region.now object) }
{
    for field in 0..4 {
        if !is_unset(region, End::Obj(object, field)) {
            return false;
        }
    }
    true
}

// Frees the object that the slot names, where no other of its links is set.
fn let_go(region: &mut Region<4096>, slot: Root) -> bool
    requires { IsEnd region.old (End.Slot slot) }
    ensures { AreSlotsKept region.old region.new }
{
    let Some(object) = object_at(region, slot) else {
        return false;
    };
    if !is_apart(region, object) {
        return false;
    }
    untie(region, End::Slot(slot));
    free(region, object)
}

// One call of the region, and the same of the plain map; false where their answers differ.
fn step(
    region: &mut Region<4096>,
    slots: &[Root],
    plain: &mut Plain,
    what: usize,
    first: usize,
    second: usize,
) -> bool
    requires { AreSlots region.old slots.now }
    ensures { AreSlotsKept region.old region.new }
{
    match what {
        0..=2 => alloc_at(region, slots, plain, first / 4, second),
        3 | 4 => free_at(region, slots, plain, first / 4),
        5 => link_at(region, slots, plain, first, second),
        6 => unlink_at(region, slots, plain, first),
        _ => {
            empty_sparse(region);
            true
        }
    }
}

fn alloc_at(
    region: &mut Region<4096>,
    slots: &[Root],
    plain: &mut Plain,
    seat: usize,
    number: usize,
) -> bool
    requires { AreSlots region.old slots.now }
    ensures { AreSlotsKept region.old region.new }
{
    if let Some(_) = number_at(plain, seat) {
        return true;
    }
    let Some(slot) = slot_of(region, slots, seat) else {
        return true;
    };
    if make(region, slot, sample(number)) {
        set_object(plain, seat, Some(number));
    }
    true
}

fn free_at(region: &mut Region<4096>, slots: &[Root], plain: &mut Plain, seat: usize) -> bool
    requires { AreSlots region.old slots.now }
    ensures { AreSlotsKept region.old region.new }
{
    if let None = number_at(plain, seat) {
        return true;
    }
    let Some(slot) = slot_of(region, slots, seat) else {
        return true;
    };
    let loose = is_loose_at(plain, seat);
    let gone = let_go(region, slot);
    if gone {
        set_object(plain, seat, None);
    }
    gone == loose
}

fn is_loose_at(plain: &Plain, seat: usize) -> bool {
    for field in 0..4 {
        if let Some(_) = mate_at(plain, 4 * (seat % 100) + field) {
            return false;
        }
    }
    true
}

fn link_at(
    region: &mut Region<4096>,
    slots: &[Root],
    plain: &mut Plain,
    first: usize,
    second: usize,
) -> bool
    requires { AreSlots region.old slots.now }
    ensures { AreSlotsKept region.old region.new }
{
    let Some(a) = end_at(region, slots, first) else {
        return true;
    };
    let Some(b) = end_at(region, slots, second) else {
        return true;
    };
    let tied = tie(region, a, b);
    tied == linked(plain, first, second)
}

// Links two links of the plain map, where both are unset and differ, and tells whether.
fn linked(plain: &mut Plain, first: usize, second: usize) -> bool {
    let unset = mate_at(plain, first) == None && mate_at(plain, second) == None && first != second;
    if unset {
        set_mate(plain, first, Some(second));
        set_mate(plain, second, Some(first));
    }
    unset
}

fn unlink_at(region: &mut Region<4096>, slots: &[Root], plain: &mut Plain, link: usize) -> bool
    requires { AreSlots region.old slots.now }
    ensures { AreSlotsKept region.old region.new }
{
    let Some(a) = end_at(region, slots, link) else {
        return true;
    };
    let parted = untie(region, a);
    let mate = unlinked(plain, link);
    names_same(region, slots, parted, mate)
}

// Parts a link of the plain map that is set, and gives its mate.
fn unlinked(plain: &mut Plain, link: usize) -> Option<usize> {
    let mate = mate_at(plain, link);
    if let Some(other) = mate {
        set_mate(plain, link, None);
        set_mate(plain, other, None);
    }
    mate
}

// Whether what is named is the link with the number.
fn names_same(
    region: &Region<4096>,
    slots: &[Root],
    named: Option<End>,
    link: Option<usize>,
) -> bool
    requires { AreSlots region.now slots.now }
{
    match (named, link) {
        (Some(end), Some(number)) => match end_at(region, slots, number) {
            Some(mate) => same(end, mate),
            None => false,
        },
        (None, None) => true,
        _ => false,
    }
}

// Whether the region has the objects and the links of the plain map, and no others.
fn agrees(region: &Region<4096>, slots: &[Root], plain: &Plain) -> bool
    requires { AreSlots region.now slots.now }
{
    let mut count: u64 = 0;
    for seat in 0..100 {
        if let Some(number) = number_at(plain, seat) {
            if !seat_agrees(region, slots, plain, seat, number) {
                return false;
            }
            count = count.saturating_add(1);
        }
    }
    count == region.objects()
}

fn seat_agrees(
    region: &Region<4096>,
    slots: &[Root],
    plain: &Plain,
    seat: usize,
    number: usize,
) -> bool
    requires { AreSlots region.now slots.now }
{
    let Some(object) = seated(region, slots, seat) else {
        return false;
    };
    if *region.bytes(object) != *sample(number) {
        return false;
    }
    for field in 0..4u8 {
        let named = mate(region, End::Obj(object, field));
        let link = mate_at(plain, 4 * (seat % 100) + field as usize);
        if !names_same(region, slots, named, link) {
            return false;
        }
    }
    true
}

// Makes a root slot beside so many; not where there are too many.
fn new_slot(region: &mut Region<4096>, alloc: Global, count: usize) -> Result<Root, AllocError>
    requires { (slots_of region.old).there ≡ count }
    ensures { IfOk result (IsRootAdded region.old region.new) }
{
    if count >= 1000 {
        return Err(AllocError);
    }
    region.add_root(alloc)
}

// Makes a root slot beside those.
fn make_slot(region: &mut Region<4096>, alloc: Global, slots: &[Root]) -> Result<Root, AllocError>
    requires { HasSlots region.old slots.now }
    ensures { IfOk result (λ s. HasSlots region.new (slots.now ++ (s ∷ []))) }
{
    let slot = new_slot(region, alloc, slots.len())?;
    Ok(slot)
}

// No slots.
fn no_slots(_region: &Region<4096>, alloc: Global) -> Vec<Root>
    requires { (slots_of _region.now).there ≡ 0 }
    ensures { HasSlots _region.now result.items }
{
    Vec::new(alloc)
}

// Makes so many root slots, where there is none.
fn make_slots(region: &mut Region<4096>, alloc: Global, count: u32) -> Result<Vec<Root>, AllocError>
    requires { (slots_of region.old).there ≡ 0 }
    ensures { IfOk result (λ v. AreSlots region.new v.items) }
{
    let mut slots = no_slots(region, alloc);
    for _ in 0..count {
        slots.push(make_slot(region, alloc, slots.as_slice())?)?;
    }
    Ok(slots)
}

// A map of seats where nobody sits.
fn empty_map(alloc: Global) -> Result<Plain, AllocError> {
    let objects = Vec::from_elem(alloc, None, 100)?;
    let mates = Vec::from_elem(alloc, None, 400)?;
    Ok(Plain { objects, mates })
}

// 10,000 calls of the region and of the plain map; whether they agreed, and many objects were moved.
fn walk(region: &mut Region<4096>, slots: &[Root], plain: &mut Plain) -> bool
    requires { AreSlots region.old slots.now }
{
    let mut state: u64 = 1;
    for call in 0..10_000 {
        state = state
            .wrapping_mul(6_364_136_223_846_793_005)
            .wrapping_add(1_442_695_040_888_963_407);
        let dice = (state >> 33) as usize;
        let (what, first, second) = (dice % 8, dice / 8 % 400, dice / 4000 % 400);
        if !step(region, slots, plain, what, first, second) {
            return false;
        }
        if call % 50 == 0 && !agrees(region, slots, plain) {
            return false;
        }
    }
    agrees(region, slots, plain) && region.compacted() > 20 && region.moved() > 1000
}

// A walk of a region in which nothing is.
fn walk_anew(region: &mut Region<4096>, alloc: Global) -> Result<bool, AllocError>
    requires { (slots_of region.old).there ≡ 0 }
{
    let slots = make_slots(region, alloc, 100)?;
    let mut plain = empty_map(alloc)?;
    Ok(walk(region, slots.as_slice(), &mut plain))
}

#[test]
fn walk_of_ten_thousand_calls(rt: HostRuntime) -> Result<(), Fail> {
    let mut region = Region::<4096>::open(rt.alloc(), 4)?;
    assert!(rt; walk_anew(&mut region, rt.alloc())?);
    Ok(())
}

#[test]
fn walk_over_sixty_four_segments(rt: HostRuntime) -> Result<(), Fail> {
    let mut region = Region::<4096>::open(rt.alloc(), 64)?;
    assert!(rt; walk_anew(&mut region, rt.alloc())?);
    Ok(())
}
