//! Entries put in, taken out, exchanged, found and moved, beside a plain vector of their numbers: tests of `lsa_tree`.
ghost use Rattle.std.specs.Prelude.{◌≡◌, ℕ, ◌+◌, ◌≤◌, List as Sequence, length, ◌∷◌, ◌++◌, true, Some, None, IfOk};
ghost use Rattle.rc_position.specs.declared.positions.Pos.{Pos as Position};
ghost use Rattle.lsa_kinds.specs.Fields.{number_at};
ghost use Rattle.lsa_pool.specs.Room.{spare_of};
ghost use Rattle.lsa_store.specs.declared.place.Ref.{Ref as Name};
ghost use Rattle.lsa_region.specs.Region.{link_of, IsEnd};
ghost use Rattle.lsa_tree.specs.Entries.{IsEntryAtPosition};
ghost use Rattle.lsa_tree.specs.Search.{IsFound};
ghost use Rattle.lsa_tree.specs.Tree.{IsTree, IsLoose};
ghost use Rattle.lsa_tree_tests.specs.Walking.{HoldsTree, IsHome, IsTreeEntry};

use lsa_kinds::Kind;
use lsa_kinds::layout::entry::PositionSize;
use lsa_move::{Ensured, ensure};
use lsa_region::{End, Ref, Region, Root};
use lsa_tree::{Place, Tree};
use rc_position::{Comp, Key, Pos, Steps, Weight};
use rc_rowcode::read_pos;
use std::alloc::{AllocError, Global};
use std::marker::{Brand, Model};
use std::sync::ledger::{Blank, Ledger};
use std::test::Fail;

// The bytes of a dummy at the row of the key of one number: 32 fixed ones, of which those at 28 tell the length 11; then the weight 1, one component, its
// kind 0, and the number in 8 bytes.
fn spelled(number: u16) -> [u8; 43]
    ensures { number_at 1 1 result ≡ 0 }
{
    [
        0,
        0,
        0,
        0,
        0,
        0,
        0,
        0,
        0,
        0,
        0,
        0,
        0,
        0,
        0,
        0,
        0,
        0,
        0,
        0,
        0,
        0,
        0,
        0,
        0,
        0,
        0,
        0,
        11,
        0,
        0,
        0,
        1,
        1,
        0,
        (number % 256) as u8,
        (number / 256) as u8,
        0,
        0,
        0,
        0,
        0,
        0,
    ]
}

// The number in the bytes of an entry.
fn number_in(bytes: &[u8]) -> Option<u16> {
    match bytes.get(35..37) {
        Some([low, high]) => Some(u16::from(*low) + 256 * u16::from(*high)),
        Some(_) => None,
        None => None,
    }
}

// Whether an object is an entry at some position, as its bytes are read.
fn is_entry(alloc: Global, region: &Region<4096>, r: Ref) -> Result<bool, AllocError>
    requires { IsLoose region.now r }
    ensures { IfOk result (λ stands. stands ≡ true → (x : Position) × IsEntryAtPosition region.now r x) }
{
    let bytes = region.bytes(r);
    if bytes.len() < 32 {
        return Ok(false);
    }
    let size = PositionSize::get(bytes) as usize;
    if bytes.len() - 32 < size {
        return Ok(false);
    }
    let Some((_x, read)) = read_pos(alloc, &bytes[32..32 + size])? else {
        return Ok(false);
    };
    Ok(read == size)
}

// The tree of the version that the slot names.
fn tree_of(region: &Region<4096>, slot: Root) -> Tree
    requires { IsHome slot region.now }
    ensures { (refs : Sequence Name) × HoldsTree slot region.now result refs }
{
    region.known();
    match region.root(slot) {
        Some(End::Obj(r, _)) => Tree {
            top: End::Obj(r, 2),
        },
        Some(End::Slot(_)) => unreachable!(),
        None => unreachable!(),
    }
}

// Makes an entry with this number, which is in no tree.
fn make(region: &mut Region<4096>, _slot: Root, number: u16) -> Ref
    requires room { 96 ≤ spare_of 4096 region.old.usages }
    requires home { IsHome _slot region.old }
    ensures home { IsHome _slot region.new }
    ensures loose { IsLoose region.new result }
{
    let bytes = spelled(number);
    region.alloc_obj(Kind::Dummy, &bytes)
}

// Whether an end names nothing.
fn is_unset(region: &Region<4096>, end: End) -> bool
    requires { IsEnd region.now end }
    ensures { result ≡ true → link_of region.now end ≡ None }
{
    match region.link_of(end) {
        Some(_) => false,
        None => true,
    }
}

// Whether no link of a loose entry is set.
fn is_free(region: &Region<4096>, r: Ref) -> bool
    requires { IsLoose region.now r }
    ensures { result ≡ true → (field : ℕ) → link_of region.now (End.Obj r field) ≡ None }
{
    region.known();
    let less = is_unset(region, End::Obj(r, 0));
    let more = is_unset(region, End::Obj(r, 1));
    less && more
}

// Frees a loose entry, where no link of it is set.
fn free(region: &mut Region<4096>, _slot: Root, r: Ref)
    requires home { IsHome _slot region.old }
    requires loose { IsLoose region.old r }
    ensures { IsHome _slot region.new }
{
    region.known();
    if !is_free(region, r) {
        return;
    }
    region.free_obj(r);
}

// The entry at this place, if there is one.
fn nth(tree: Tree, region: &Region<4096>, place: usize) -> Option<Ref>
    requires { (refs : Sequence Name) × IsTree tree region.now refs }
    ensures { IsTreeEntry tree region.now result }
{
    let mut found = tree.first(region);
    for _step in 0..place {
        found = behind(tree, region, found);
    }
    found
}

// The entry behind one, if there is one.
fn behind(tree: Tree, region: &Region<4096>, found: Option<Ref>) -> Option<Ref>
    requires { IsTreeEntry tree region.now found }
    ensures { IsTreeEntry tree region.now result }
{
    match found {
        Some(r) => tree.next(region, r),
        None => None,
    }
}

// Takes an entry out and frees it.
fn discard(region: &mut Region<4096>, slot: Root, tree: Tree, r: Ref)
    requires { (front : Sequence Name) × (back : Sequence Name) × HoldsTree slot region.old tree (front ++ (r ∷ back)) }
    ensures { IsHome slot region.new }
{
    tree.remove(region, r);
    free(region, slot, r);
}

// Takes the entry with this number out, if there is one.
fn take(alloc: Global, region: &mut Region<4096>, slot: Root, number: u16) -> Result<(), AllocError>
    requires { IsHome slot region.old }
    ensures { IsHome slot region.new }
{
    let key = Key::from_slice(alloc, &[Comp::Int(i64::from(number))])?;
    let tree = tree_of(region, slot);
    match tree.locate_key(region, &key) {
        Place::Here(r) => discard(region, slot, tree, r),
        Place::Before(_) => {}
        Place::Last => {}
    }
    Ok(())
}

// Puts a loose entry into the place of one at its position, and frees that one.
fn exchange(region: &mut Region<4096>, slot: Root, tree: Tree, old: Ref, new: Ref)
    requires held { (front : Sequence Name) × (back : Sequence Name) × HoldsTree slot region.old tree (front ++ (old ∷ back)) }
    requires loose { IsLoose region.old new }
    requires alike { (x : Position) × IsEntryAtPosition region.old old x × IsEntryAtPosition region.old new x }
    ensures { IsHome slot region.new }
{
    tree.replace(region, old, new);
    free(region, slot, old);
}

// Puts a loose entry in, or into the place of the one at its position; false where it is none.
fn put(alloc: Global, region: &mut Region<4096>, slot: Root, r: Ref) -> Result<bool, AllocError>
    requires home { IsHome slot region.old }
    requires loose { IsLoose region.old r }
    ensures { IsHome slot region.new }
{
    if !is_entry(alloc, region, r)? {
        return Ok(false);
    }
    let tree = tree_of(region, slot);
    match tree.find_like(region, r) {
        Place::Here(old) => {
            exchange(region, slot, tree, old, r);
            Ok(true)
        }
        Place::Before(_) => {
            tree.insert(region, r);
            Ok(true)
        }
        Place::Last => {
            tree.insert(region, r);
            Ok(true)
        }
    }
}

// Makes room for an entry, by moves where it must; false where there is none.
fn has_room(region: &mut Region<4096>, _slot: Root) -> bool
    requires { IsHome _slot region.old }
    ensures home { IsHome _slot region.new }
    ensures room { result ≡ true → 96 ≤ spare_of 4096 region.new.usages }
{
    region.known();
    match ensure(region, 96) {
        Ensured::Ready => true,
        Ensured::Full => false,
    }
}

// The number that an entry carries, if there is one.
fn number_of(tree: Tree, region: &Region<4096>, found: Option<Ref>) -> Option<u16>
    requires { IsTreeEntry tree region.now found }
{
    match found {
        Some(r) => number_in(region.bytes(r)),
        None => None,
    }
}

// Whether the entries carry these numbers, in this order.
fn leads_through(tree: Tree, region: &Region<4096>, numbers: &[u16]) -> bool
    requires { (refs : Sequence Name) × IsTree tree region.now refs }
{
    let mut found = tree.first(region);
    for number in numbers.iter() {
        if number_of(tree, region, found) != Some(*number) {
            return false;
        }
        found = behind(tree, region, found);
    }
    found == None
}

// The entry before one, if there is one.
fn ahead(tree: Tree, region: &Region<4096>, found: Option<Ref>) -> Option<Ref>
    requires { IsTreeEntry tree region.now found }
    ensures { IsTreeEntry tree region.now result }
{
    match found {
        Some(r) => tree.prev(region, r),
        None => None,
    }
}

// Whether the entries back from the last of so many carry these numbers, in the opposite order.
fn leads_back(tree: Tree, region: &Region<4096>, numbers: &[u16]) -> bool
    requires { (refs : Sequence Name) × IsTree tree region.now refs }
{
    if numbers.len() == 0 {
        return true;
    }
    let mut found = nth(tree, region, numbers.len() - 1);
    for number in numbers.iter().rev() {
        if number_of(tree, region, found) != Some(*number) {
            return false;
        }
        found = ahead(tree, region, found);
    }
    found == None
}

// Whether the entry is at the position, and the number of that one, or of the next one.
fn told(_tree: Tree, region: &Region<4096>, place: Place) -> (bool, Option<u16>)
    requires { (refs : Sequence Name) × (x : Position) × IsTree _tree region.now refs × IsFound region.now refs x place }
{
    match place {
        Place::Here(r) => (true, number_in(region.bytes(r))),
        Place::Before(r) => (false, number_in(region.bytes(r))),
        Place::Last => (false, None),
    }
}

// The same by a vector of ascending numbers.
fn expected(numbers: &[u16], number: u16) -> (bool, Option<u16>) {
    for other in numbers.iter() {
        if *other >= number {
            return (*other == number, Some(*other));
        }
    }
    (false, None)
}

// Whether a search for the row of the key of this number finds what the vector has.
fn finds(
    alloc: Global,
    tree: Tree,
    region: &Region<4096>,
    numbers: &[u16],
    number: u16,
) -> Result<bool, AllocError>
    requires { (refs : Sequence Name) × IsTree tree region.now refs }
{
    let key = Key::from_slice(alloc, &[Comp::Int(i64::from(number))])?;
    let by_key = told(tree, region, tree.locate_key(region, &key));
    let x = Pos {
        prefix: key,
        weight: Weight::At,
    };
    let by_position = told(tree, region, tree.locate(region, &x));
    let wanted = expected(numbers, number);
    Ok(by_key == wanted && by_position == wanted)
}

// Among 1001 entries a search compares 20 times at most.
fn compared<L: Ledger>(region: &Region<4096>, tree: Tree, x: &Pos, steps: &mut Steps<L>) -> Place
    requires { (refs : Sequence Name) × IsTree tree region.now refs × (length refs ≡ 1001) }
    ensures { steps.new ≤ steps.old + 20 }
{
    tree.find(region, x, steps)
}

// How many links lead up from an entry to the top of its tree, 64 at most.
fn links_up(tree: Tree, region: &Region<4096>, found: Option<Ref>) -> usize
    requires { IsTreeEntry tree region.now found }
{
    match found {
        Some(r) => links_from(tree, region, r),
        None => 0,
    }
}

// How many links lead up from one of the entries to the top, 64 at most.
fn links_from(_tree: Tree, region: &Region<4096>, r: Ref) -> usize
    requires { (front : Sequence Name) × (back : Sequence Name) × IsTree _tree region.now (front ++ (r ∷ back)) }
{
    region.known();
    let mut at = End::Obj(r, 2);
    for links in 1..64 {
        match region.link_of(at) {
            Some(End::Obj(q, field)) => {
                if field == 2 {
                    return links;
                }
                at = End::Obj(q, 2);
            }
            Some(End::Slot(_)) => return 64,
            None => return 64,
        }
    }
    64
}

// The most links that lead up from any entry.
fn most_links(region: &Region<4096>, slot: Root) -> usize
    requires { IsHome slot region.now }
{
    let tree = tree_of(region, slot);
    let mut most = 0;
    let mut found = tree.first(region);
    for _step in 0..region.objects() {
        let links = links_up(tree, region, found);
        if links > most {
            most = links;
        }
        found = behind(tree, region, found);
    }
    most
}

// Entries that carry their numbers, and a plain vector of these numbers, ascending.
#[derive(Drop)]
struct Beside {
    region: Region<4096>,
    slot: Root,
    plain: Vec<u16>,
}

impl Model for Beside {
    ghost use Rattle.lsa_region.specs.Region.{View};
    ghost use Rattle.lsa_tree_tests.specs.Walking.{IsHome};

    ghost Value = { View };

    ghost view = { λ b. b.region };

    ghost invariant = { λ b. IsHome b.slot b.region };
}

// Where a number belongs among ascending ones.
fn place_in(numbers: &[u16], number: u16) -> usize
    ensures { result ≤ length numbers.now }
{
    match numbers.iter().position(|other| *other >= number) {
        Some(at) => at,
        None => numbers.len(),
    }
}

impl Beside {
    // Puts an entry with this number in, or exchanges the one that is there; false where that fails.
    fn add(&mut self, alloc: Global, number: u16) -> Result<bool, AllocError> {
        if !has_room(&mut self.region, self.slot) {
            return Ok(false);
        }
        let place = place_in(self.plain.as_slice(), number);
        if !self.plain.contains(&number) {
            self.plain.insert(place, number)?;
        }
        let r = make(&mut self.region, self.slot, number);
        put(alloc, &mut self.region, self.slot, r)
    }

    // Takes the entry at this place of the vector out, if there is one.
    fn remove(&mut self, alloc: Global, place: usize) -> Result<(), AllocError> {
        if place >= self.plain.len() {
            return Ok(());
        }
        let number = self.plain.remove(place);
        take(alloc, &mut self.region, self.slot, number)
    }

    // The most links that lead up from any entry.
    fn most_links(&self) -> usize {
        most_links(&self.region, self.slot)
    }

    // Whether the entries carry the numbers of the vector, and this number is found as it is there; there is no object but the version and the entries.
    fn agrees(&self, alloc: Global, number: u16) -> Result<bool, AllocError> {
        let tree = tree_of(&self.region, self.slot);
        let numbers = self.plain.as_slice();
        let lead = leads_through(tree, &self.region, numbers)
            && leads_back(tree, &self.region, numbers);
        Ok(
            lead && self.region.objects() == self.plain.len() as u64 + 1
                && finds(alloc, tree, &self.region, numbers, number)?,
        )
    }
}

// A version without entries, which a slot names.
fn empty(mut region: Region<4096>, slot: Root, plain: Vec<u16>) -> Beside
    requires there { IsEnd region (End.Slot slot) }
    requires unset { link_of region (End.Slot slot) ≡ None }
    requires room { 64 ≤ spare_of 4096 region.usages }
{
    region.known();
    let version = region.alloc_obj(Kind::Version, &[0; 24]);
    region.link(End::Slot(slot), End::Obj(version, 1));
    Beside {
        region,
        slot,
        plain,
    }
}

// What is found at a position, with counting.
fn counted<L: Ledger>(
    alloc: Global,
    beside: &Beside,
    blank: Blank,
    number: u16,
) -> Result<(bool, Option<u16>), AllocError>
    requires name { blank.name ≡ L.name }
    requires parts { blank.parts ≡ L.parts }
    requires one { blank.parts ≡ 1 }
{
    let mut steps = Steps::<L>::new(blank);
    let x = Pos {
        prefix: Key::from_slice(alloc, &[Comp::Int(i64::from(number))])?,
        weight: Weight::After,
    };
    let tree = tree_of(&beside.region, beside.slot);
    Ok(told(
        tree,
        &beside.region,
        tree.find(&beside.region, &x, &mut steps),
    ))
}

// Three entries, put in out of order, of which one is exchanged and one taken out.
#[test]
fn three_entries(rt: HostRuntime) -> Result<(), Fail> {
    let mut region = Region::<4096>::open(rt.alloc(), 4)?;
    let slot = region.add_root(rt.alloc())?;
    let mut beside = empty(region, slot, Vec::new(rt.alloc()));
    for number in [200, 7, 90, 7] {
        assert!(rt; beside.add(rt.alloc(), number)?);
    }
    assert_eq!(rt; beside.plain.as_slice(), [7, 90, 200].as_slice());
    assert!(rt; beside.agrees(rt.alloc(), 91)?);
    let found = counted::<Brand>(rt.alloc(), &beside, Blank::new(1), 90)?;
    assert_eq!(rt; found, (false, Some(200)));
    beside.remove(rt.alloc(), 0)?;
    assert!(rt; beside.agrees(rt.alloc(), 7)?);
    assert_eq!(rt; beside.region.live(), 64 + 2 * 96);
    Ok(())
}

// A thousand and one entries, put in in order: 20 links lead up from any of them at most, though each goes behind all others.
#[test]
fn a_thousand_and_one_entries(rt: HostRuntime) -> Result<(), Fail> {
    let mut region = Region::<4096>::open(rt.alloc(), 40)?;
    let slot = region.add_root(rt.alloc())?;
    let mut beside = empty(region, slot, Vec::new(rt.alloc()));
    for number in 0..1001 {
        assert!(rt; beside.add(rt.alloc(), number)?);
    }
    assert!(rt; beside.agrees(rt.alloc(), 500)?);
    let links = beside.most_links();
    assert!(rt; links >= 10 && links <= 20, "{links}");
    Ok(())
}

// One call of the tree, and the same of the vector; false where they differ.
fn step(beside: &mut Beside, alloc: Global, what: usize, number: u16) -> Result<bool, AllocError> {
    match what % 5 {
        0 | 1 => beside.remove(alloc, number as usize / 2)?,
        _ => {
            if !beside.add(alloc, number)? {
                return Ok(false);
            }
        }
    }
    Ok(what % 100 != 0 || beside.agrees(alloc, number)?)
}

// A hundred thousand calls over some two hundred entries, in segments that hold hardly more.
#[test]
fn a_hundred_thousand_calls(rt: HostRuntime) -> Result<(), Fail> {
    let mut region = Region::<4096>::open(rt.alloc(), 12)?;
    let slot = region.add_root(rt.alloc())?;
    let mut beside = empty(region, slot, Vec::new(rt.alloc()));
    let mut state: u64 = 1;
    for call in 0..100_000 {
        state = state
            .wrapping_mul(6_364_136_223_846_793_005)
            .wrapping_add(1_442_695_040_888_963_407);
        let dice = (state >> 33) as usize;
        assert!(rt;
            step(
                &mut beside,
                rt.alloc(),
                dice % 1000,
                (dice / 1000 % 512) as u16
            )?,
            "at {call}"
        );
    }
    assert!(rt; beside.plain.len() > 150);
    assert!(rt; beside.region.compacted() > 1000 && beside.region.moved() > 10_000);
    assert!(rt; beside.most_links() <= 16);
    Ok(())
}
