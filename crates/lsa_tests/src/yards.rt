//! Objects side by side, changed, freed and copied: tests of `lsa_yard`.
ghost use Rattle.std.specs.Prelude.{◌≡◌, ◌<◌, [], length, true, slice_index_or, IsSomeAnd};
ghost use Rattle.lsa_kinds.specs.Kinds.{links_of};
ghost use Rattle.lsa_yard.specs.Cells.{body_at};

use lsa_kinds::{Kind, links};
use lsa_yard::Yards;
use std::process::Abort;
use std::test::Fail;

// Puts an object, where there is surely room for it.
fn put(yards: &mut Yards<512>, n: usize, kind: Kind, bytes: &[u8]) -> Option<usize> {
    if n >= yards.count() || bytes.len() > 40 || yards.room(n) < 96 {
        return None;
    }
    Some(yards.push(n, kind, bytes))
}

// Whether a link of an object is there.
fn has_link(yards: &Yards<512>, n: usize, offset: usize, field: usize) -> bool
    ensures { result ≡ true → IsSomeAnd (body_at (slice_index_or yards.now n []) offset) (λ b. field < links_of b.0) }
{
    if !yards.has(n, offset) {
        return false;
    }
    match yards.kind(n, offset) {
        Some(kind) => field < links(kind),
        None => false,
    }
}

// The number in a link, if it is there.
fn link_at(yards: &Yards<512>, n: usize, offset: usize, field: usize) -> Option<u64> {
    if has_link(yards, n, offset, field) {
        Some(yards.link(n, offset, field))
    } else {
        None
    }
}

fn set(yards: &mut Yards<512>, n: usize, offset: usize, field: usize, value: u64) -> bool {
    let there = has_link(yards, n, offset, field);
    if there {
        yards.set_link(n, offset, field, value);
    }
    there
}

// How many bytes a cell takes, if one begins there.
fn size_at(yards: &Yards<512>, n: usize, offset: usize) -> usize {
    if yards.has(n, offset) {
        yards.size(n, offset)
    } else {
        0
    }
}

// The bytes of an object; none where there is no object.
fn bytes_at(yards: &Yards<512>, n: usize, offset: usize) -> &[u8]
    ensures { 0 < length result.now → IsSomeAnd (body_at (slice_index_or yards.now n []) offset) (λ b. b.1 ≡ result.now) }
{
    if has_link(yards, n, offset, 0) {
        yards.bytes(n, offset)
    } else {
        &[]
    }
}

fn write(yards: &mut Yards<512>, n: usize, offset: usize, from: usize, bytes: &[u8]) -> bool {
    let len = bytes_at(yards, n, offset).len();
    let there = from < len && bytes.len() <= len - from;
    if there {
        yards.write(n, offset, from, bytes);
    }
    there
}

fn kill(yards: &mut Yards<512>, n: usize, offset: usize) -> bool {
    let there = has_link(yards, n, offset, 0);
    if there {
        yards.kill(n, offset);
    }
    there
}

// Copies an object to another segment, where there is surely room for it.
fn copy(yards: &mut Yards<512>, from: usize, offset: usize, to: usize) -> Option<usize> {
    let len = bytes_at(yards, from, offset).len();
    if len == 0 || len > 40 || from == to || to >= yards.count() || yards.room(to) < 96 {
        return None;
    }
    Some(yards.copy(from, offset, to))
}

// The kind of an object; None where there is no object.
fn kind_at(yards: &Yards<512>, n: usize, offset: usize) -> Option<Kind> {
    if yards.has(n, offset) {
        yards.kind(n, offset)
    } else {
        None
    }
}

// Three objects side by side, of which the one in the middle is freed: each is found by its header.
#[test]
fn three_objects(rt: HostRuntime) -> Result<(), Fail> {
    let mut yards = Yards::<512>::new(rt.alloc(), 2)?;
    are_put(&rt, &mut yards);
    is_linked(&rt, &mut yards);
    is_written(&rt, &mut yards);
    is_freed(&rt, &mut yards);
    assert!(rt; !yards.has(1, 8) && !yards.has(1, 184) && !yards.has(0, 0) && !yards.has(2, 0));
    Ok(())
}

// The three objects are put.
fn are_put(rt: &impl Abort, yards: &mut Yards<512>) {
    assert_eq!(rt; put(yards, 1, Kind::Static, &[1, 2, 3]), Some(0));
    assert_eq!(rt; put(yards, 1, Kind::Version, &[7; 24]), Some(40));
    assert_eq!(rt; put(yards, 1, Kind::Dummy, &[9; 32]), Some(104));
    assert_eq!(rt; kind_at(yards, 1, 0), Some(Kind::Static));
    assert_eq!(rt; bytes_at(yards, 1, 0), [1, 2, 3].as_slice());
}

// A link of the one in the middle is set, and no other.
fn is_linked(rt: &impl Abort, yards: &mut Yards<512>) {
    assert!(rt; set(yards, 1, 40, 3, 0x0102_0304_0506_0708));
    assert_eq!(rt; link_at(yards, 1, 40, 3), Some(0x0102_0304_0506_0708));
    assert_eq!(rt; link_at(yards, 1, 40, 2), Some(0));
    assert_eq!(rt; link_at(yards, 1, 40, 4), None);
    assert_eq!(rt; bytes_at(yards, 1, 40), [7; 24].as_slice());
}

// A byte of the first one is written, and no other.
fn is_written(rt: &impl Abort, yards: &mut Yards<512>) {
    assert!(rt; write(yards, 1, 0, 1, &[8]));
    assert_eq!(rt; bytes_at(yards, 1, 0), [1, 8, 3].as_slice());
}

// The one in the middle is freed, and leaves a gap of its size.
fn is_freed(rt: &impl Abort, yards: &mut Yards<512>) {
    assert!(rt; kill(yards, 1, 40));
    assert_eq!(rt; kind_at(yards, 1, 40), None);
    assert_eq!(rt; link_at(yards, 1, 40, 3), None);
    assert_eq!(rt;
        (
            size_at(yards, 1, 0),
            size_at(yards, 1, 40),
            size_at(yards, 1, 104)
        ),
        (40, 64, 80)
    );
    assert_eq!(rt; bytes_at(yards, 1, 104), [9; 32].as_slice());
}

// An object is copied to another segment, which is then cleared.
#[test]
fn an_object_is_copied(rt: HostRuntime) -> Result<(), Fail> {
    let mut yards = Yards::<512>::new(rt.alloc(), 2)?;
    assert_eq!(rt; put(&mut yards, 0, Kind::Version, &[7; 24]), Some(0));
    assert_eq!(rt; put(&mut yards, 1, Kind::Static, &[1, 2, 3]), Some(0));
    assert!(rt; set(&mut yards, 1, 0, 2, 5));
    is_copied(&rt, &mut yards);
    is_cleared(&rt, &mut yards);
    assert!(rt; !yards.has(0, 0) && yards.has(1, 0));
    Ok(())
}

// The copy has the kind and the bytes of the object, and none of its links.
fn is_copied(rt: &impl Abort, yards: &mut Yards<512>) {
    assert_eq!(rt; copy(yards, 1, 0, 0), Some(64));
    assert_eq!(rt; bytes_at(yards, 0, 64), [1, 2, 3].as_slice());
    assert_eq!(rt;
        (link_at(yards, 0, 64, 2), link_at(yards, 1, 0, 2)),
        (Some(0), Some(5))
    );
    assert_eq!(rt; kind_at(yards, 0, 64), Some(Kind::Static));
}

// Two objects stand in the first segment, and none once it is cleared.
fn is_cleared(rt: &impl Abort, yards: &mut Yards<512>) {
    if yards.count() == 2 {
        assert_eq!(rt; yards.room(0), 408);
        yards.clear(0);
        assert_eq!(rt; yards.room(0), 512);
    }
}
