//! A list of a thousand objects beside a plain vector of their numbers, while segments are emptied: a test of `lsa_list`.
ghost use Rattle.std.specs.Prelude.{◌≡◌, ◌≢◌, ℕ, List as Sequence, ◌∷◌, ◌++◌, true, None, IsSome};
ghost use Rattle.lsa_region.specs.Ref.{Ref as Name};
ghost use Rattle.lsa_region.specs.Region.{body, link_of, IsEnd};
ghost use Rattle.lsa_list.specs.Recency.{IsList};
ghost use Rattle.lsa_tests.specs.Listed.{IsOneOf};

use lsa_kinds::{Kind, links};
use lsa_list::List;
use lsa_move::{Ensured, ensure};
use lsa_region::{End, Ref, Region, Root};
use std::alloc::AllocError;
use std::marker::Model;
use std::test::Fail;

const DUMMY: [u8; 34] = [7; 34];

// A recency list of objects that carry their numbers, and a plain vector of these numbers.
#[derive(Drop)]
struct Beside {
    region: Region<4096>,
    list: List,
    plain: Vec<usize>,
}

impl Model for Beside {
    ghost use Rattle.std.specs.Prelude.{List as Sequence};
    ghost use Rattle.lsa_region.specs.Ref.{Ref as Name};
    ghost use Rattle.lsa_region.specs.Region.{View};
    ghost use Rattle.lsa_list.specs.Recency.{IsList};

    ghost Value = { View };

    ghost view = { λ b. b.region };

    ghost invariant = { λ b. (refs : Sequence Name) × IsList b.list b.region refs };
}

impl Beside {
    // Makes room for an object with this number, and puts it at the back; false where there is no room. References may have new names.
    fn add(&mut self, number: usize) -> Result<bool, AllocError> {
        self.region.known();
        if let Ensured::Full = ensure(&mut self.region, 88) {
            return Ok(false);
        }
        let bytes = spelled(number);
        let r = self.region.alloc_obj(Kind::Dummy, &bytes);
        self.list.push_back(&mut self.region, r);
        self.plain.push(number)?;
        Ok(true)
    }

    // Touches the object at this place, if there is one.
    fn touch(&mut self, place: usize) -> Result<(), AllocError> {
        if place >= self.plain.len() {
            return Ok(());
        }
        touch_at(self.list, &mut self.region, place);
        let number = self.plain.remove(place);
        self.plain.push(number)?;
        Ok(())
    }

    // Removes the object at this place, if there is one, and frees it.
    fn remove(&mut self, place: usize) {
        if place >= self.plain.len() {
            return;
        }
        let _number = self.plain.remove(place);
        remove_at(self.list, &mut self.region, place);
    }

    // Whether the list leads through the objects with the numbers of the vector, and there are no others.
    fn agrees(&self) -> bool {
        self.region.objects() == self.plain.len() as u64
            && leads_through(self.list, &self.region, self.plain.as_slice())
    }
}

// The bytes of the object with this number.
fn spelled(number: usize) -> [u8; 34] {
    let mut bytes = DUMMY;
    bytes[0] = (number % 256) as u8;
    bytes[1] = (number / 256 % 256) as u8;
    bytes
}

// The object that is next more recent, if there is one.
fn after(list: List, region: &Region<4096>, found: Option<Ref>) -> Option<Ref>
    requires { IsOneOf list region.now found }
    ensures { IsOneOf list region.now result }
{
    match found {
        Some(r) => list.next(region, r),
        None => None,
    }
}

// The object at this place of the list, if there is one.
fn nth(list: List, region: &Region<4096>, place: usize) -> Option<Ref>
    requires { (refs : Sequence Name) × IsList list region.now refs }
    ensures { IsOneOf list region.now result }
{
    let mut found = list.front(region);
    for _step in 0..place {
        found = after(list, region, found);
    }
    found
}

// Touches the object at this place of the list, if there is one.
fn touch_at(list: List, region: &mut Region<4096>, place: usize)
    requires { (refs : Sequence Name) × IsList list region.old refs }
    ensures { (refs : Sequence Name) × IsList list region.new refs }
{
    match nth(list, region, place) {
        Some(r) => list.touch(region, r),
        None => {}
    }
}

// Removes the object at this place of the list, if there is one, and frees it.
fn remove_at(list: List, region: &mut Region<4096>, place: usize)
    requires { (refs : Sequence Name) × IsList list region.old refs }
    ensures { (refs : Sequence Name) × IsList list region.new refs }
{
    match nth(list, region, place) {
        Some(r) => discard(list, region, r),
        None => {}
    }
}

// Removes an object of the list, and frees it where no other link of it is set.
fn discard(list: List, region: &mut Region<4096>, r: Ref)
    requires { (xs : Sequence Name) × (ys : Sequence Name) × IsList list region.old (xs ++ (r ∷ ys)) }
    ensures { (refs : Sequence Name) × IsList list region.new refs }
{
    list.remove(region, r);
    if !is_loose(region, r) {
        return;
    }
    region.free_obj(r);
}

// The number that an object of the list carries.
fn number_of(list: List, region: &Region<4096>, found: Option<Ref>) -> Option<usize>
    requires { IsOneOf list region.now found }
{
    match found {
        Some(r) => Some(number_in(region.bytes(r))),
        None => None,
    }
}

fn number_in(bytes: &[u8]) -> usize {
    match bytes {
        [low, high, ..] => *low as usize + 256 * *high as usize,
        _ => 0,
    }
}

// Whether the objects of the list carry these numbers, in this order.
fn leads_through(list: List, region: &Region<4096>, numbers: &[usize]) -> bool
    requires { (refs : Sequence Name) × IsList list region.now refs }
{
    let mut found = list.front(region);
    for number in numbers.iter() {
        if number_of(list, region, found) != Some(*number) {
            return false;
        }
        found = after(list, region, found);
    }
    found == None
}

// Whether a link of an object names nothing, or is not there.
fn is_unset(region: &Region<4096>, r: Ref, field: u8) -> bool
    requires { IsSome (body region.now r) }
    ensures { result ≡ true → link_of region.now (End.Obj r field) ≡ None }
{
    region.known();
    if field as usize >= links(region.kind(r)) {
        return true;
    }
    match region.link_of(End::Obj(r, field)) {
        Some(_) => false,
        None => true,
    }
}

// Whether no link of an object is set.
fn is_loose(region: &Region<4096>, r: Ref) -> bool
    requires { IsSome (body region.now r) }
    ensures { result ≡ true → (field : ℕ) → link_of region.now (End.Obj r field) ≡ None }
{
    region.known();
    for field in 0..5 {
        if !is_unset(region, r, field) {
            return false;
        }
    }
    true
}

// The empty list between two root slots that name nothing.
fn empty(mut region: Region<4096>, front: Root, back: Root, plain: Vec<usize>) -> Beside
    requires first { IsEnd region (End.Slot front) }
    requires second { IsEnd region (End.Slot back) }
    requires first_unset { link_of region (End.Slot front) ≡ None }
    requires second_unset { link_of region (End.Slot back) ≡ None }
    requires differ { front ≢ back }
{
    region.link(End::Slot(front), End::Slot(back));
    let list = List { front, back };
    Beside {
        region,
        list,
        plain,
    }
}

// One call of the list, and the same of the vector; false where both differ after a segment was emptied.
fn step(beside: &mut Beside, call: usize, place: usize) -> Result<bool, AllocError> {
    let compacted = beside.region.compacted();
    match call % 3 {
        0 => beside.touch(place)?,
        1 => beside.remove(place),
        _ => {
            let _added = beside.add(1000 + call % 10_000)?;
        }
    }
    Ok(beside.region.compacted() == compacted || beside.agrees())
}

// A thousand objects, touched, removed and added in turn, in segments that hold hardly more.
#[test]
fn a_thousand_objects(rt: HostRuntime) -> Result<(), Fail> {
    let mut region = Region::<4096>::open(rt.alloc(), 25)?;
    let front = region.add_root(rt.alloc())?;
    let back = region.add_root(rt.alloc())?;
    assert!(rt; front.number != back.number);
    let mut beside = empty(region, front, back, Vec::new(rt.alloc()));
    for number in 0..1000 {
        assert!(rt; beside.add(number)?);
    }
    assert!(rt; beside.agrees());
    let mut state: u64 = 1;
    for call in 0..3000 {
        state = state
            .wrapping_mul(6_364_136_223_846_793_005)
            .wrapping_add(1_442_695_040_888_963_407);
        assert!(rt;
            step(&mut beside, call, (state >> 33) as usize % 1000)?,
            "at {call}"
        );
    }
    assert!(rt; beside.agrees());
    assert!(rt; beside.region.compacted() > 20 && beside.region.moved() > 500);
    Ok(())
}
