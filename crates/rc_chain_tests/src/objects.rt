//! Heads, entries and static rows that are made, changed and read back: tests of `rc_object`.
ghost use Rattle.std.specs.Prelude.{◌≡◌, ◌≤◌, IsSome, Some, IfOk, IfSome};
ghost use Rattle.lsa_pool.specs.Room.{spare_of};
ghost use Rattle.lsa_region.specs.Region.{body};
ghost use Rattle.rc_cell.specs.declared.rows.Row.{Row as RowValue};
ghost use Rattle.rc_rowcode.specs.Spelling.{KeyFits, row_code as code_of, IsCode, IsCodedRow};
ghost use Rattle.rc_core.specs.declared.entries.Entry.{Entry};
ghost use Rattle.rc_object.specs.declared.heads.Head.{Head as HeadValue};
ghost use Rattle.rc_object.specs.Objects.{HoldsEntry, HoldsHead, HoldsStatic};
ghost use Rattle.rc_chain_tests.specs.Rows.{IsRowEntry, IsStatic};

use lsa_kinds::round_up;
use lsa_region::{Ref, Region};
use rc_cell::Tomb;
use rc_core::{Flag, Mark};
use rc_object::{
    Head, head_of, make_dummy, make_dummy_like, make_end, make_head, make_joined, make_joined_like,
    make_joined_static, make_row, make_row_like, make_static, make_static_like, marks,
    position_code, row_code, set_head, set_marks,
};
use rc_position::{Key, Pos};
use rc_rowcode::{
    Scratch, dummy_size, join_size, key_size, pos_size, read_key, read_pos, read_row, row_size,
};
use std::alloc::{AllocError, Global};
use std::test::Fail;

// Whether both flags are the same.
fn is_flag(flag: Flag, other: Flag) -> bool {
    match other {
        Flag::Known => matches!(flag, Flag::Known),
        Flag::Unknown => matches!(flag, Flag::Unknown),
        Flag::Inherit => matches!(flag, Flag::Inherit),
    }
}

// Whether both marks say the same.
fn is_mark(mark: Mark, other: Mark) -> bool {
    is_flag(mark.flag, other.flag) && mark.tomb == other.tomb
}

// Whether an entry has these marks.
fn has_marks(region: &Region<4096>, e: Ref, at: Mark, gap: Mark) -> bool
    requires { (x : Entry) × HoldsEntry region.now e x }
{
    let (own, before) = marks(region, e);
    is_mark(own, at) && is_mark(before, gap)
}

// Whether a version has this head.
fn has_head(region: &Region<4096>, v: Ref, head: Head) -> bool
    requires { (h : HeadValue) × HoldsHead region.now v h }
{
    let own = head_of(region, v);
    is_flag(own.static_flag, head.static_flag)
        && own.partition_tombstone == head.partition_tombstone
        && own.phase == head.phase
}

/// Whether so many objects of so many bytes are live.
pub fn takes(region: &Region<4096>, objects: u64, live: usize) -> bool {
    region.objects() == objects && region.live() == live
}

// Whether a head that is made is read back and has the bytes of the format, and another one that is set is read back.
fn are_heads_read(region: &mut Region<4096>) -> bool
    requires { 64 ≤ spare_of 4096 region.old.usages }
{
    let first = Head {
        partition_tombstone: Some(Tomb { ts: -2, dt: 7 }),
        static_flag: Flag::Inherit,
        phase: 9,
    };
    let v = make_head(region, first);
    let bytes = [
        5u8, 0, 0, 0, 7, 0, 0, 0, 254, 255, 255, 255, 255, 255, 255, 255, 9, 0, 0, 0, 0, 0, 0, 0,
    ];
    let made = has_head(region, v, first) && region.bytes(v) == bytes.as_slice();
    let second = Head {
        partition_tombstone: None,
        static_flag: Flag::Unknown,
        phase: 10,
    };
    set_head(region, v, second);
    made && has_head(region, v, second)
}

#[test]
fn heads(rt: HostRuntime) -> Result<(), Fail> {
    let mut region = Region::<4096>::open(rt.alloc(), 4)?;
    assert!(rt; region.spare() >= 64);
    assert!(rt; are_heads_read(&mut region));
    assert_eq!(rt; region.live(), 64);
    Ok(())
}

// Whether an end dummy has these marks and these bytes.
fn is_end(region: &Region<4096>, e: Ref, at: Mark, gap: Mark, bytes: &[u8]) -> bool
    requires entry { (x : Entry) × HoldsEntry region.now e x }
    requires live { IsSome (body region.now e) }
{
    has_marks(region, e, at, gap)
        && position_code(region, e) == [2u8, 0].as_slice()
        && region.bytes(e) == bytes
}

// The bytes of an end dummy with the flag Inherit and the tombstone (3, 4).
const INHERITING: [u8; 34] = [
    58, 0, 0, 0, 4, 0, 0, 0, 3, 0, 0, 0, 0, 0, 0, 0, 3, 0, 0, 0, 0, 0, 0, 0, 4, 0, 0, 0, 2, 0, 0,
    0, 2, 0,
];

// The bytes of one that is Known, and Unknown with the tombstone (-1, 5) over the gap before it.
const KNOWN_AT_THE_END: [u8; 34] = [
    36, 0, 0, 0, 0, 0, 0, 0, 0, 0, 0, 0, 0, 0, 0, 0, 255, 255, 255, 255, 255, 255, 255, 255, 5, 0,
    0, 0, 2, 0, 0, 0, 2, 0,
];

// Whether an end dummy that gets other marks has the bytes of the format before and after.
fn are_marks_set(region: &mut Region<4096>) -> bool
    requires { 88 ≤ spare_of 4096 region.old.usages }
{
    let mark = Mark {
        flag: Flag::Inherit,
        tomb: Some(Tomb { ts: 3, dt: 4 }),
    };
    let e = make_end(region, mark);
    let made = is_end(region, e, mark, mark, &INHERITING);
    let gap = Mark {
        flag: Flag::Unknown,
        tomb: Some(Tomb { ts: -1, dt: 5 }),
    };
    set_marks(region, e, plain(Flag::Known), gap);
    made && is_end(region, e, plain(Flag::Known), gap, &KNOWN_AT_THE_END)
}

#[test]
fn marks_of_an_end_dummy(rt: HostRuntime) -> Result<(), Fail> {
    let mut region = Region::<4096>::open(rt.alloc(), 4)?;
    assert!(rt; region.spare() >= 88);
    assert!(rt; are_marks_set(&mut region));
    assert_eq!(rt; region.live(), 88);
    Ok(())
}

// Whether a dummy at a position and one like it are made, which have each a mark of their own and positions of eleven bytes.
fn are_dummies_made(region: &mut Region<4096>, x: &Pos, sc: &mut Scratch) -> bool
    requires limits { KeyFits x.now.prefix }
    requires size { sc.old.size ≡ 1000 }
{
    let _size = pos_size(x);
    if dummy_size(x) > region.spare() {
        return false;
    }
    let first = plain(Flag::Inherit);
    let e = make_dummy(region, x, first, sc);
    let made = has_marks(region, e, first, first);
    if dummy_size(x) > region.spare() {
        return false;
    }
    let second = Mark {
        flag: Flag::Known,
        tomb: Some(Tomb { ts: 1, dt: 2 }),
    };
    let other = make_dummy_like(region, e, second, sc);
    made && has_marks(region, other, second, second) && position_code(region, other).len() == 11
}

// The same at the position of this code.
fn are_dummies_made_at(
    alloc: Global,
    region: &mut Region<4096>,
    code: &[u8],
) -> Result<bool, AllocError> {
    let mut sc = Scratch::new(alloc, 1000)?;
    match read_pos(alloc, code)? {
        Some((x, _)) => Ok(are_dummies_made(region, &x, &mut sc)),
        None => Ok(false),
    }
}

#[test]
fn dummies(rt: HostRuntime) -> Result<(), Fail> {
    let mut region = Region::<4096>::open(rt.alloc(), 4)?;
    let code = [2u8, 1, 0, 5, 0, 0, 0, 0, 0, 0, 0];
    assert!(rt; are_dummies_made_at(rt.alloc(), &mut region, &code)?);
    assert!(rt; takes(&region, 2, 192));
    Ok(())
}

/// A mark without a tombstone.
pub fn plain(flag: Flag) -> Mark {
    Mark { flag, tomb: None }
}

/// The key of a code; none where the bytes are no key's code.
pub fn key_of(alloc: Global, code: &[u8]) -> Result<Option<Key>, AllocError>
    ensures { IfOk result (λ found. IfSome found (λ key. KeyFits key)) }
{
    match read_key(alloc, code)? {
        Some((key, _)) => Ok(Some(key)),
        None => Ok(None),
    }
}

/// The code of the key of the number 5.
pub const FIVE: [u8; 10] = [1, 0, 5, 0, 0, 0, 0, 0, 0, 0];

/// The code of a row, put into scratch space; none where the bytes are no row's code.
pub fn coded(alloc: Global, code: &[u8]) -> Result<Option<Scratch>, AllocError>
    ensures { IfOk result (λ found. IfSome found (λ scratch. IsCode code_of IsCodedRow scratch.bytes)) }
{
    let Some((row, _)) = read_row(alloc, code)? else {
        return Ok(None);
    };
    let mut scratch = Scratch::new(alloc, row_size(&row))?;
    scratch.put_row(&row);
    Ok(Some(scratch))
}

// An entry at a key with the row of this code; none where there is no room.
fn row_made(region: &mut Region<4096>, key: &Key, code: &[u8], sc: &mut Scratch) -> Option<Ref>
    requires limits { KeyFits key.now }
    requires code { IsCode code_of IsCodedRow code.now }
    requires size { sc.old.size ≡ 1000 }
    ensures made { IfSome result (IsRowEntry region.new) }
    ensures size { sc.new.size ≡ sc.old.size }
{
    if code.len() > 400 {
        return None;
    }
    let position = 1 + key_size(key);
    let size = round_up(80 + position + code.len());
    if size > 512 || size > region.spare() {
        return None;
    }
    let at = plain(Flag::Known);
    let gap = plain(Flag::Inherit);
    Some(make_row(region, key, code, at, gap, sc))
}

// The entry with the row of this code joined; none where there is no room.
fn row_joined(region: &mut Region<4096>, e: Ref, code: &[u8], sc: &mut Scratch) -> Option<Ref>
    requires entry { IsRowEntry region.old e }
    requires code { IsCode code_of IsCodedRow code.now }
    requires size { sc.old.size ≡ 1000 }
    ensures made { IfSome result (IsRowEntry region.new) }
    ensures size { sc.new.size ≡ sc.old.size }
{
    let position = position_code(region, e).len();
    let row = join_size(code_in(region, e), code);
    if position > 300 || row > 400 {
        return None;
    }
    let size = round_up(80 + position + row);
    if size > 512 || size > region.spare() {
        return None;
    }
    Some(make_joined(region, e, code, sc))
}

// The entry with its own row joined once more; none where there is no room.
fn row_joined_again(region: &mut Region<4096>, e: Ref, sc: &mut Scratch) -> Option<Ref>
    requires entry { IsRowEntry region.old e }
    requires size { sc.old.size ≡ 1000 }
    ensures made { IfSome result (IsRowEntry region.new) }
    ensures size { sc.new.size ≡ sc.old.size }
{
    let position = position_code(region, e).len();
    let row = join_size(code_in(region, e), code_in(region, e));
    if position > 300 || row > 400 {
        return None;
    }
    let size = round_up(80 + position + row);
    if size > 512 || size > region.spare() {
        return None;
    }
    Some(make_joined_like(region, e, e, sc))
}

// An entry at the same position with the same row and other marks; none where there is no room.
fn row_like(region: &mut Region<4096>, e: Ref, sc: &mut Scratch) -> Option<Ref>
    requires entry { IsRowEntry region.old e }
    requires size { sc.old.size ≡ 1000 }
    ensures made { IfSome result (IsRowEntry region.new) }
    ensures size { sc.new.size ≡ sc.old.size }
{
    let position = position_code(region, e).len();
    let row = code_in(region, e).len();
    if position > 300 || row > 400 {
        return None;
    }
    let size = round_up(80 + position + row);
    if size > 512 || size > region.spare() {
        return None;
    }
    let at = plain(Flag::Unknown);
    let gap = plain(Flag::Known);
    Some(make_row_like(region, e, at, gap, sc))
}

// A row with the marker 10.
const INSERTED: [u8; 11] = [1, 10, 0, 0, 0, 0, 0, 0, 0, 0, 0];

// No marker and no tombstone, a dead cell (4, 5) in column 31.
const DEAD: [u8; 17] = [0, 0, 1, 31, 1, 4, 0, 0, 0, 0, 0, 0, 0, 5, 0, 0, 0];

// Both joined.
const JOINED: [u8; 25] = [
    1, 10, 0, 0, 0, 0, 0, 0, 0, 0, 1, 31, 1, 4, 0, 0, 0, 0, 0, 0, 0, 5, 0, 0, 0,
];

// Whether a row entry has these flags, no tombstones and a row of this code.
fn is_row(region: &Region<4096>, e: Ref, at: Flag, gap: Flag, code: &[u8]) -> bool
    requires { IsRowEntry region.now e }
{
    has_marks(region, e, plain(at), plain(gap)) && code_in(region, e) == code
}

// Whether entries are so that are made one from the other: at a key, with another row joined, with other marks, and with its own row joined once more. None where there is no room.
fn are_rows_made(
    region: &mut Region<4096>,
    key: &Key,
    row: &[u8],
    cell: &[u8],
    sc: &mut Scratch,
) -> Option<bool>
    requires limits { KeyFits key.now }
    requires row { IsCode code_of IsCodedRow row.now }
    requires cell { IsCode code_of IsCodedRow cell.now }
    requires size { sc.old.size ≡ 1000 }
{
    let e = row_made(region, key, row, sc)?;
    let first = is_row(region, e, Flag::Known, Flag::Inherit, &INSERTED);
    let e = row_joined(region, e, cell, sc)?;
    let second = is_row(region, e, Flag::Known, Flag::Inherit, &JOINED);
    let e = row_like(region, e, sc)?;
    let third = is_row(region, e, Flag::Unknown, Flag::Known, &JOINED);
    let e = row_joined_again(region, e, sc)?;
    let fourth = is_row(region, e, Flag::Unknown, Flag::Known, &JOINED);
    Some(first && second && third && fourth)
}

// The same with the cell as what is joined.
fn are_rows_made_with(
    alloc: Global,
    region: &mut Region<4096>,
    key: &Key,
    row: &[u8],
) -> Result<Option<bool>, AllocError>
    requires limits { KeyFits key.now }
    requires row { IsCode code_of IsCodedRow row.now }
{
    let mut sc = Scratch::new(alloc, 1000)?;
    match coded(alloc, &DEAD)? {
        Some(cell) => Ok(are_rows_made(region, key, row, cell.bytes(), &mut sc)),
        None => Ok(None),
    }
}

// The same with the marker as the first row.
fn are_rows_made_at(
    alloc: Global,
    region: &mut Region<4096>,
    key: &Key,
) -> Result<Option<bool>, AllocError>
    requires { KeyFits key.now }
{
    match coded(alloc, &INSERTED)? {
        Some(row) => are_rows_made_with(alloc, region, key, row.bytes()),
        None => Ok(None),
    }
}

// The same at the key of the number 5.
fn are_rows_made_at_five(
    alloc: Global,
    region: &mut Region<4096>,
) -> Result<Option<bool>, AllocError> {
    match key_of(alloc, &FIVE)? {
        Some(key) => are_rows_made_at(alloc, region, &key),
        None => Ok(None),
    }
}

#[test]
fn rows(rt: HostRuntime) -> Result<(), Fail> {
    let mut region = Region::<4096>::open(rt.alloc(), 4)?;
    assert!(rt; are_rows_made_at_five(rt.alloc(), &mut region)? == Some(true));
    assert!(rt; takes(&region, 4, 464));
    Ok(())
}

// The code of its row.
fn code_in(region: &Region<4096>, e: Ref) -> &[u8]
    requires { IsRowEntry region.now e }
    ensures { (x : Entry) (row : RowValue) → HoldsEntry region.now e x → x.row ≡ Some row → result.now ≡ code_of row }
{
    row_code(region, e)
}

// A static row of this code; none where there is no room.
fn static_made(region: &mut Region<4096>, code: &[u8]) -> Option<Ref>
    requires { IsCode code_of IsCodedRow code.now }
    ensures { IfSome result (IsStatic region.new) }
{
    if code.len() > 400 {
        return None;
    }
    let size = round_up(32 + code.len());
    if size > 512 || size > region.spare() {
        return None;
    }
    Some(make_static(region, code))
}

// A static row with the row of another one; none where there is no room.
fn static_like(region: &mut Region<4096>, s: Ref, sc: &mut Scratch) -> Option<Ref>
    requires entry { IsStatic region.old s }
    requires size { sc.old.size ≡ 1000 }
    ensures made { IfSome result (IsStatic region.new) }
    ensures size { sc.new.size ≡ sc.old.size }
{
    let row = static_code(region, s).len();
    if row > 400 {
        return None;
    }
    let size = round_up(32 + row);
    if size > 512 || size > region.spare() {
        return None;
    }
    Some(make_static_like(region, s, sc))
}

// A static row with its own row joined once more; none where there is no room.
fn static_joined(region: &mut Region<4096>, s: Ref, sc: &mut Scratch) -> Option<Ref>
    requires entry { IsStatic region.old s }
    requires size { sc.old.size ≡ 1000 }
    ensures made { IfSome result (IsStatic region.new) }
    ensures size { sc.new.size ≡ sc.old.size }
{
    let row = join_size(static_code(region, s), static_code(region, s));
    if row > 400 {
        return None;
    }
    let size = round_up(32 + row);
    if size > 512 || size > region.spare() {
        return None;
    }
    Some(make_joined_static(region, s, s, sc))
}

// The code of its row.
fn static_code(region: &Region<4096>, s: Ref) -> &[u8]
    requires { IsStatic region.now s }
    ensures { (row : RowValue) → HoldsStatic region.now s row → result.now ≡ code_of row }
{
    row_code(region, s)
}

// Whether the codes of a static row, one like it, and one with its own row joined once more have so many bytes. None where there is no room.
fn are_statics_made(
    region: &mut Region<4096>,
    code: &[u8],
    sc: &mut Scratch,
    len: usize,
) -> Option<bool>
    requires code { IsCode code_of IsCodedRow code.now }
    requires size { sc.old.size ≡ 1000 }
{
    let s = static_made(region, code)?;
    let first = static_code(region, s).len() == len;
    let s = static_like(region, s, sc)?;
    let second = static_code(region, s).len() == len;
    let s = static_joined(region, s, sc)?;
    Some(first && second && static_code(region, s).len() == len)
}

// The same of the cell.
fn are_statics_made_with(
    alloc: Global,
    region: &mut Region<4096>,
) -> Result<Option<bool>, AllocError> {
    let mut sc = Scratch::new(alloc, 1000)?;
    match coded(alloc, &DEAD)? {
        Some(cell) => Ok(are_statics_made(region, cell.bytes(), &mut sc, 17)),
        None => Ok(None),
    }
}

#[test]
fn statics(rt: HostRuntime) -> Result<(), Fail> {
    let mut region = Region::<4096>::open(rt.alloc(), 4)?;
    assert!(rt; are_statics_made_with(rt.alloc(), &mut region)? == Some(true));
    assert!(rt; takes(&region, 3, 168));
    Ok(())
}
