//! How many bytes entries take, and what is spare beside them: tests of `rc_object`, whose numbers were worked out by hand.
ghost use Rattle.std.specs.Prelude.{◌≡◌, None, IfSome};
ghost use Rattle.rc_rowcode.specs.Spelling.{KeyFits, row_code as code_of, IsCode, IsCodedRow};
ghost use Rattle.lsa_store.specs.declared.place.Ref.{Ref as Name};
ghost use Rattle.lsa_region.specs.Region.{body};
ghost use Rattle.rc_chain_tests.specs.Alone.{IsAlone};

use crate::objects::{coded, key_of, plain};
use lsa_kinds::round_up;
use lsa_move::{Ensured, compact_one, ensure};
use lsa_region::{Ref, Region};
use rc_core::Flag;
use rc_object::{make_end, make_row};
use rc_position::Key;
use rc_rowcode::{Scratch, key_size};
use std::alloc::{AllocError, Global};
use std::test::Fail;

// The code of the largest key: four texts of 64 bytes.
fn largest_key(alloc: Global) -> Result<Vec<u8>, AllocError> {
    let mut code = Vec::from_slice(alloc, &[4])?;
    for _ in 0..4 {
        code.extend_from_slice(&[1, 64])?;
        code.extend_from_slice(&[97; 64])?;
    }
    Ok(code)
}

// The code of the largest row: the marker 10, the tombstone (11, 12) and 32 live cells of 256 bytes, written at 13.
fn largest_row(alloc: Global) -> Result<Vec<u8>, AllocError> {
    let front = [
        1u8, 10, 0, 0, 0, 0, 0, 0, 0, 1, 11, 0, 0, 0, 0, 0, 0, 0, 12, 0, 0, 0, 32,
    ];
    let mut code = Vec::from_slice(alloc, &front)?;
    for column in 0..32u8 {
        code.extend_from_slice(&[column, 0, 13, 0, 0, 0, 0, 0, 0, 0, 0, 1])?;
        code.extend_from_slice(&[98; 256])?;
    }
    Ok(code)
}

// How many bytes are live beside an entry at a key with the row of this code; none where there is no room.
fn live_beside(
    region: &mut Region<131072>,
    key: &Key,
    code: &[u8],
    sc: &mut Scratch,
) -> Option<usize>
    requires limits { KeyFits key.now }
    requires code { IsCode code_of IsCodedRow code.now }
    requires size { sc.old.size ≡ 10000 }
{
    if code.len() > 8599 {
        return None;
    }
    let position = 1 + key_size(key);
    let size = round_up(80 + position + code.len());
    if size > 16384 || size > region.spare() {
        return None;
    }
    make_row(
        region,
        key,
        code,
        plain(Flag::Known),
        plain(Flag::Known),
        sc,
    );
    Some(region.live())
}

// The same in a new region.
fn live_in_a_region(alloc: Global, key: &Key, code: &[u8]) -> Result<Option<usize>, AllocError>
    requires limits { KeyFits key.now }
    requires code { IsCode code_of IsCodedRow code.now }
{
    let mut sc = Scratch::new(alloc, 10000)?;
    let mut region = Region::<131072>::open(alloc, 4)?;
    Ok(live_beside(&mut region, key, code, &mut sc))
}

// The same of a row of this code.
fn live_beside_row(alloc: Global, key: &Key, code: &[u8]) -> Result<Option<usize>, AllocError>
    requires { KeyFits key.now }
{
    match coded(alloc, code)? {
        Some(row) => live_in_a_region(alloc, key, row.bytes()),
        None => Ok(None),
    }
}

// The same at the key of this code.
fn live_at_key(alloc: Global, at: &[u8], code: &[u8]) -> Result<Option<usize>, AllocError> {
    match key_of(alloc, at)? {
        Some(key) => live_beside_row(alloc, &key, code),
        None => Ok(None),
    }
}

#[test]
fn the_largest_entry(rt: HostRuntime) -> Result<(), Fail> {
    let key = largest_key(rt.alloc())?;
    let row = largest_row(rt.alloc())?;
    assert!(rt; live_at_key(rt.alloc(), key.as_slice(), row.as_slice())? == Some(8952));
    Ok(())
}

// Makes an end dummy of 88 bytes, where there is room.
fn made(region: &mut Region<4096>) -> Option<Ref>
    ensures alone { IfSome result (IsAlone region.new) }
    ensures fresh { IfSome result (λ e. body region.old e ≡ None) }
    ensures kept { (r : Name) → IsAlone region.old r → IsAlone region.new r }
{
    if region.spare() < 88 {
        return None;
    }
    Some(make_end(region, plain(Flag::Known)))
}

// Makes so many end dummies: what is spare then.
fn spare_behind(region: &mut Region<4096>, count: u64) -> usize
    ensures { (r : Name) → IsAlone region.old r → IsAlone region.new r }
{
    for _ in 0..count {
        made(region);
    }
    region.spare()
}

// Makes 48 end dummies: what is spare behind the first, the second and the last one.
fn spare_at_the_end(region: &mut Region<4096>) -> [usize; 3]
    ensures { (r : Name) → IsAlone region.old r → IsAlone region.new r }
{
    let first = spare_behind(region, 1);
    let second = spare_behind(region, 1);
    [first, second, spare_behind(region, 46)]
}

// Makes so many end dummies, and 48 more, and frees those that it made first: what was spare behind the very first one, and what it was at the end.
fn spare_with(region: &mut Region<4096>, count: u64) -> (usize, [usize; 3])
    ensures { (r : Name) → IsAlone region.old r → IsAlone region.new r }
{
    if count == 0 {
        return (region.spare(), spare_at_the_end(region));
    }
    match made(region) {
        Some(e) => {
            let first = region.spare();
            let (_, last) = spare_with(region, count - 1);
            region.free_obj(e);
            (first, last)
        }
        None => (0, [0; 3]),
    }
}

// Whether 45 end dummies that are freed and 48 behind them leave this.
fn is_filled(region: &mut Region<4096>) -> bool {
    spare_with(region, 45) == (10664, [7168, 7080, 3496])
        && region.free() == 1
        && region.live() == 4224
}

// Whether one object is moved then, and no more.
fn is_moved(region: &mut Region<4096>) -> bool {
    compact_one(region)
        && region.moved() == 1
        && region.free() == 2
        && region.spare() == 6992
        && !compact_one(region)
        && ensure(region, 3584) == Ensured::Ready
}

// 46 end dummies fill a segment of 4096 bytes. Of the first 46 only the last one stays, and it is moved.
#[test]
fn room_by_one_compaction(rt: HostRuntime) -> Result<(), Fail> {
    let mut region = Region::<4096>::open(rt.alloc(), 4)?;
    assert!(rt; region.spare() == 10752 && region.free() == 3);
    assert!(rt; is_filled(&mut region));
    assert!(rt; is_moved(&mut region));
    Ok(())
}
