//! Three entries in order, a recency list and two versions in one region, moved, changed and taken apart: a test of `lsa_rooms`.
ghost use Rattle.std.specs.Prelude.{◌≡◌, ◌≢◌, ℕ, ◌≤◌, List as Sequence, [], ◌∷◌, ◌++◌, true, Option, Some, None};
ghost use Rattle.lsa_pool.specs.Room.{spare_of};
ghost use Rattle.lsa_store.specs.declared.place.Ref.{Ref as Name};
ghost use Rattle.lsa_region.specs.declared.end.Root.{Root as Place};
ghost use Rattle.lsa_region.specs.Region.{link_of, IsEnd};
ghost use Rattle.lsa_list.specs.declared.recency.List.{List as Slots};
ghost use Rattle.lsa_list.specs.Recency.{kind_of};
ghost use Rattle.lsa_rooms.specs.Room.{StandsInRegion};
ghost use Rattle.lsa_tree_tests.specs.Furnished.{IsTopped, IsRoom, IsFirst, IsChained};

use lsa_kinds::Kind;
use lsa_list::List;
use lsa_move::compact_one;
use lsa_region::{End, Ref, Region, Root};
use lsa_rooms::{add_version, drop_version, first_entry, insert, newest, replace, take};
use std::test::Fail;

const VERSION: [u8; 24] = [1; 24];

const DUMMY: [u8; 34] = [7; 34];

// The bytes of the entry with this number.
fn spelled(number: u8) -> [u8; 34] {
    let mut bytes = DUMMY;
    bytes[0] = number;
    bytes
}

// Lets two slots that are unset name each other: nothing stands there yet.
fn begin(region: &mut Region<4096>, _chain: Root, list: List)
    requires first { IsEnd region.old (End.Slot list.front) }
    requires second { IsEnd region.old (End.Slot list.back) }
    requires differ { list.front ≢ list.back }
    requires front { _chain ≢ list.front }
    requires back { _chain ≢ list.back }
    requires unset { (e : End) → link_of region.old e ≡ None }
    ensures stands { (top : Name) → StandsInRegion _chain list region.new [] top [] [] }
    ensures chain { IsEnd region.old (End.Slot _chain) → IsEnd region.new (End.Slot _chain) }
{
    region.link(End::Slot(list.front), End::Slot(list.back));
}

// Makes a version, the newest one, where there is room.
fn make_version(region: &mut Region<4096>, chain: Root) -> Option<Ref>
    requires { IsEnd region.old (End.Slot chain) }
    ensures made { (r : Name) → result ≡ Some r → (slots : Slots) (versions : Sequence Name) (top : Name) (entries listed : Sequence Name) → StandsInRegion chain slots region.old versions top entries listed → StandsInRegion chain slots region.new (r ∷ versions) top entries listed }
    ensures chain { IsEnd region.new (End.Slot chain) }
{
    region.known();
    if region.spare() < 64 {
        return None;
    }
    let r = region.alloc_obj(Kind::Version, &VERSION);
    add_version(region, chain, r);
    Some(r)
}

// Makes two versions in a region where nothing is named; false where there is no room.
fn furnish(region: &mut Region<4096>, chain: Root, list: List) -> bool
    requires first { IsEnd region.old (End.Slot list.front) }
    requires second { IsEnd region.old (End.Slot list.back) }
    requires third { IsEnd region.old (End.Slot chain) }
    requires differ { list.front ≢ list.back }
    requires front { chain ≢ list.front }
    requires back { chain ≢ list.back }
    requires unset { (e : End) → link_of region.old e ≡ None }
    ensures { result ≡ true → IsRoom chain list region.new }
{
    begin(region, chain, list);
    let Some(_older) = make_version(region, chain) else {
        return false;
    };
    let Some(_newer) = make_version(region, chain) else {
        return false;
    };
    true
}

// The newest version.
fn top_of(region: &Region<4096>, chain: Root, _list: List) -> Option<Ref>
    requires { IsRoom chain _list region.now }
    ensures { (top : Name) → result ≡ Some top → IsTopped chain _list region.now top }
{
    region.known();
    newest(region, chain)
}

// The first entry, if there is one.
fn first_of(region: &Region<4096>, _chain: Root, _list: List, top: Ref) -> Option<Ref>
    requires { IsTopped _chain _list region.now top }
    ensures { (first : Name) → result ≡ Some first → IsFirst _chain _list region.now top first }
{
    first_entry(region, top)
}

// Makes an entry with this number, the first one and the most recent one.
fn add_entry(region: &mut Region<4096>, _chain: Root, list: List, top: Ref, number: u8)
    requires room { 88 ≤ spare_of 4096 region.old.usages }
    requires stands { IsTopped _chain list region.old top }
    ensures { IsTopped _chain list region.new top }
{
    region.known();
    let bytes = spelled(number);
    let r = region.alloc_obj(Kind::Dummy, &bytes);
    list.push_back(region, r);
    insert(region, top, End::Obj(top, 2), r);
}

// Makes an entry where there is room.
fn new_entry(region: &mut Region<4096>, chain: Root, list: List, number: u8) -> bool
    requires { IsRoom chain list region.old }
    ensures { IsRoom chain list region.new }
{
    if region.spare() < 88 {
        return false;
    }
    match top_of(region, chain, list) {
        Some(top) => {
            add_entry(region, chain, list, top, number);
            true
        }
        None => false,
    }
}

// Makes an object and frees it.
fn pass(region: &mut Region<4096>, _chain: Root, _list: List)
    requires { IsRoom _chain _list region.old }
    ensures { IsRoom _chain _list region.new }
{
    region.known();
    if region.spare() < 88 {
        return;
    }
    let r = region.alloc_obj(Kind::Dummy, &DUMMY);
    region.free_obj(r);
}

// Uses up a segment or more with objects that are gone.
fn waste(region: &mut Region<4096>, chain: Root, list: List)
    requires { IsRoom chain list region.old }
    ensures { IsRoom chain list region.new }
{
    for _ in 0..46 {
        pass(region, chain, list);
    }
}

// Empties a segment: objects have new names.
fn empty_one(region: &mut Region<4096>, _chain: Root, _list: List) -> bool
    requires { IsRoom _chain _list region.old }
    ensures { IsRoom _chain _list region.new }
{
    region.known();
    compact_one(region)
}

// Whether an end is unset.
fn is_unset(region: &Region<4096>, end: End) -> bool
    requires { IsEnd region.now end }
    ensures { result ≡ true → link_of region.now end ≡ None }
{
    match region.link_of(end) {
        Some(_) => false,
        None => true,
    }
}

// Frees an entry that is in no list, unless it has a parent.
fn free_entry(region: &mut Region<4096>, r: Ref)
    requires dummy { kind_of region.old r ≡ Some Kind.Dummy }
    requires less { link_of region.old (End.Obj r 0) ≡ None }
    requires more { link_of region.old (End.Obj r 1) ≡ None }
    requires left { link_of region.old (End.Obj r 3) ≡ None }
    requires right { link_of region.old (End.Obj r 4) ≡ None }
    ensures { (chain : Place) (slots : Slots) (versions : Sequence Name) (top : Name) (entries listed : Sequence Name) → StandsInRegion chain slots region.old versions top entries listed → StandsInRegion chain slots region.new versions top entries listed }
{
    region.known();
    if !is_unset(region, End::Obj(r, 2)) {
        return;
    }
    region.free_obj(r);
}

// Frees a version that is in no chain, unless it has entries or a static row.
fn free_version(region: &mut Region<4096>, r: Ref)
    requires version { kind_of region.old r ≡ Some Kind.Version }
    requires older { link_of region.old (End.Obj r 0) ≡ None }
    requires newer { link_of region.old (End.Obj r 1) ≡ None }
    ensures { (chain : Place) (slots : Slots) (versions : Sequence Name) (top : Name) (entries listed : Sequence Name) → StandsInRegion chain slots region.old versions top entries listed → StandsInRegion chain slots region.new versions top entries listed }
{
    region.known();
    if !is_unset(region, End::Obj(r, 2)) {
        return;
    }
    if !is_unset(region, End::Obj(r, 3)) {
        return;
    }
    region.free_obj(r);
}

// Makes the first entry the most recent one.
fn touch_first(region: &mut Region<4096>, _chain: Root, list: List, _top: Ref, r: Ref)
    requires { IsFirst _chain list region.old _top r }
    ensures { IsFirst _chain list region.new _top r }
{
    list.touch(region, r);
}

// Writes another number into the first entry.
fn write_first(region: &mut Region<4096>, _chain: Root, _list: List, _top: Ref, r: Ref, number: u8)
    requires { IsFirst _chain _list region.old _top r }
    ensures { IsFirst _chain _list region.new _top r }
{
    region.known();
    if region.bytes(r).len() < 34 {
        return;
    }
    let bytes = spelled(number);
    region.write(r, 0, &bytes);
}

// Puts another entry into the place of the first one, and frees that.
fn replace_first(region: &mut Region<4096>, _chain: Root, list: List, top: Ref, r: Ref, number: u8)
    requires room { 88 ≤ spare_of 4096 region.old.usages }
    requires stands { IsFirst _chain list region.old top r }
    ensures { IsTopped _chain list region.new top }
{
    region.known();
    let bytes = spelled(number);
    let q = region.alloc_obj(Kind::Dummy, &bytes);
    list.push_back(region, q);
    replace(region, top, r, q);
    list.remove(region, r);
    free_entry(region, r);
}

// Takes the first entry out of both lists, and frees it.
fn take_first(region: &mut Region<4096>, _chain: Root, list: List, top: Ref, r: Ref)
    requires { IsFirst _chain list region.old top r }
    ensures { IsTopped _chain list region.new top }
{
    region.known();
    take(region, top, r);
    list.remove(region, r);
    free_entry(region, r);
}

// Takes the first entry of a version away; false where there is none.
fn take_under(region: &mut Region<4096>, chain: Root, list: List, top: Ref) -> bool
    requires { IsTopped chain list region.old top }
    ensures { IsTopped chain list region.new top }
{
    match first_of(region, chain, list, top) {
        Some(r) => {
            take_first(region, chain, list, top, r);
            true
        }
        None => false,
    }
}

// Takes the first entry away; false where there is none.
fn take_one(region: &mut Region<4096>, chain: Root, list: List) -> bool
    requires { IsRoom chain list region.old }
    ensures { IsRoom chain list region.new }
{
    match top_of(region, chain, list) {
        Some(top) => take_under(region, chain, list, top),
        None => false,
    }
}

// Puts another entry into the place of the first one of a version; false where there is none, or no room.
fn replace_under(region: &mut Region<4096>, chain: Root, list: List, top: Ref, number: u8) -> bool
    requires { IsTopped chain list region.old top }
    ensures { IsTopped chain list region.new top }
{
    if region.spare() < 88 {
        return false;
    }
    match first_of(region, chain, list, top) {
        Some(r) => {
            replace_first(region, chain, list, top, r, number);
            true
        }
        None => false,
    }
}

// Puts another entry into the place of the first one; false where there is none, or no room.
fn replace_one(region: &mut Region<4096>, chain: Root, list: List, number: u8) -> bool
    requires { IsRoom chain list region.old }
    ensures { IsRoom chain list region.new }
{
    match top_of(region, chain, list) {
        Some(top) => replace_under(region, chain, list, top, number),
        None => false,
    }
}

// Writes another number into the first entry of a version, and makes it the most recent one.
fn use_under(region: &mut Region<4096>, chain: Root, list: List, top: Ref, number: u8) -> bool
    requires { IsTopped chain list region.old top }
    ensures { IsRoom chain list region.new }
{
    match first_of(region, chain, list, top) {
        Some(r) => {
            write_first(region, chain, list, top, r, number);
            touch_first(region, chain, list, top, r);
            true
        }
        None => false,
    }
}

// Writes another number into the first entry, and makes it the most recent one.
fn use_one(region: &mut Region<4096>, chain: Root, list: List, number: u8) -> bool
    requires { IsRoom chain list region.old }
    ensures { IsRoom chain list region.new }
{
    match top_of(region, chain, list) {
        Some(top) => use_under(region, chain, list, top, number),
        None => false,
    }
}

// Takes the newest version away.
fn drop_newest(region: &mut Region<4096>, chain: Root, _list: List)
    requires { (newer : Name) × (versions : Sequence Name) × IsChained chain _list region.old (newer ∷ versions) }
    ensures { (newer : Name) (versions : Sequence Name) → IsChained chain _list region.old (newer ∷ versions) → IsChained chain _list region.new versions }
{
    region.known();
    match newest(region, chain) {
        Some(r) => {
            drop_version(region, chain, r);
            free_version(region, r);
        }
        None => unreachable!(),
    }
}

// Takes both versions away.
fn strip(region: &mut Region<4096>, chain: Root, list: List)
    requires { IsRoom chain list region.old }
    ensures { IsChained chain list region.new [] }
{
    drop_newest(region, chain, list);
    drop_newest(region, chain, list);
}

// The number of the first entry.
fn number_of(region: &Region<4096>, _chain: Root, _list: List, _top: Ref, r: Ref) -> u8
    requires { IsFirst _chain _list region.now _top r }
{
    match region.bytes(r) {
        [number, ..] => *number,
        [] => 0,
    }
}

// The number of the first entry of a version; 0 where there is none.
fn number_under(region: &Region<4096>, chain: Root, list: List, top: Ref) -> u8
    requires { IsTopped chain list region.now top }
{
    match first_of(region, chain, list, top) {
        Some(r) => number_of(region, chain, list, top, r),
        None => 0,
    }
}

// The number of the first entry; 0 where there is none.
fn first_number(region: &Region<4096>, chain: Root, list: List) -> u8
    requires { IsRoom chain list region.now }
{
    match top_of(region, chain, list) {
        Some(top) => number_under(region, chain, list, top),
        None => 0,
    }
}

// Makes the entries 1, 2 and 3; false where there is no room.
fn enter_three(region: &mut Region<4096>, chain: Root, list: List) -> bool
    requires { IsRoom chain list region.old }
    ensures { IsRoom chain list region.new }
{
    let third = new_entry(region, chain, list, 3);
    let second = new_entry(region, chain, list, 2);
    let first = new_entry(region, chain, list, 1);
    first && second && third
}

// Takes three entries away; their numbers in order.
fn take_three(region: &mut Region<4096>, chain: Root, list: List) -> [u8; 3]
    requires { IsRoom chain list region.old }
    ensures { IsRoom chain list region.new }
{
    let first = first_number(region, chain, list);
    let _ = take_one(region, chain, list);
    let second = first_number(region, chain, list);
    let _ = take_one(region, chain, list);
    let third = first_number(region, chain, list);
    let _ = take_one(region, chain, list);
    [first, second, third]
}

// Entries 1, 2 and 3 stand in order; the first becomes 4, and 5 takes its place.
#[test]
fn three_entries_beside_a_list_and_two_versions(rt: HostRuntime) -> Result<(), Fail> {
    let mut region = Region::<4096>::open(rt.alloc(), 4)?;
    let chain = region.add_root(rt.alloc())?;
    let front = region.add_root(rt.alloc())?;
    let back = region.add_root(rt.alloc())?;
    let list = List { front, back };
    assert!(rt;
        chain.number != front.number && chain.number != back.number && front.number != back.number
    );
    assert!(rt; furnish(&mut region, chain, list));
    assert!(rt; enter_three(&mut region, chain, list));
    waste(&mut region, chain, list);
    assert!(rt; empty_one(&mut region, chain, list));
    assert_eq!(rt; (region.moved(), region.objects()), (5, 5));
    assert_eq!(rt; first_number(&region, chain, list), 1);
    assert!(rt; use_one(&mut region, chain, list, 4));
    assert_eq!(rt; first_number(&region, chain, list), 4);
    assert!(rt; replace_one(&mut region, chain, list, 5));
    assert_eq!(rt; region.objects(), 5);
    assert_eq!(rt; take_three(&mut region, chain, list), [5, 2, 3]);
    assert!(rt; !take_one(&mut region, chain, list));
    strip(&mut region, chain, list);
    assert_eq!(rt; (region.objects(), region.live()), (0, 0));
    Ok(())
}
