//! The calls, each on the version that the first of two slots names. They answer whether there was room, and something to do.

ghost use Rattle.std.specs.Prelude.{◌≡◌, ◌≤◌, [], ◌∷◌, true, Some};
ghost use Rattle.lsa_pool.specs.Room.{spare_of};
ghost use Rattle.lsa_store.specs.declared.place.Ref.{Ref as Name};
ghost use Rattle.rc_cell.specs.declared.rows.Row.{Row};
ghost use Rattle.rc_rowcode.specs.Spelling.{KeyFits};
ghost use Rattle.rc_position.specs.Position.{IsBefore};
ghost use Rattle.rc_core.specs.declared.entries.Entry.{Entry};
ghost use Rattle.rc_object.specs.Objects.{HoldsEntry, IsRowCode};
ghost use Rattle.rc_core.specs.Version.{Version};
ghost use Rattle.rc_version.specs.Versions.{IsVersionOf};
ghost use Rattle.rc_version_walk.specs.Walking.{IsHalf, IsSomeEntry, IsInnerOf, IsPair, IsPairOf, IsSomeVersion};

use crate::homes::{SEGMENT, entry_from, has_room, settle, statics_of, tree_of, version_in};
use lsa_kinds::Kind;
use lsa_region::{End, Ref, Region, Root};
use rc_cell::Tomb;
use rc_core::Flag;
use rc_position::{Key, Pos};
use rc_rowcode::Scratch;
use rc_rowcode::laws::joined_row_has_a_code;

/// `split`.
pub(crate) fn split(
    region: &mut Region<SEGMENT>,
    this: Root,
    other: Root,
    x: &Pos,
    sc: &mut Scratch,
) -> bool
    requires limits { KeyFits x.now.prefix }
    requires pair { IsPair this other region.old }
    requires space { sc.old.size ≡ 16384 }
    ensures pair { IsPair this other region.new }
    ensures space { sc.new.size ≡ 16384 }
{
    if !has_room(region, this, other) {
        return false;
    }
    let v = version_in(region, this, other);
    let _e = rc_version::split(region, v, x, sc);
    true
}

/// `split_like`, with the entry of the other version at a position, or else its next one.
pub(crate) fn split_like(
    region: &mut Region<SEGMENT>,
    this: Root,
    other: Root,
    x: &Pos,
    sc: &mut Scratch,
) -> bool
    requires pair { IsPair this other region.old }
    requires space { sc.old.size ≡ 16384 }
    ensures pair { IsPair this other region.new }
    ensures space { sc.new.size ≡ 16384 }
{
    if !has_room(region, this, other) {
        return false;
    }
    let v = version_in(region, this, other);
    let w = version_in(region, other, this);
    match entry_from(region, w, x) {
        Some(e) => {
            let _e = rc_version::split_like(region, v, e, sc);
            true
        }
        None => false,
    }
}

/// `join_row`.
pub(crate) fn join_row(
    region: &mut Region<SEGMENT>,
    this: Root,
    other: Root,
    key: &Key,
    code: &[u8],
    sc: &mut Scratch,
) -> bool
    requires limits { KeyFits key.now }
    requires code { (row : Row) × IsRowCode code.now row }
    requires pair { IsPair this other region.old }
    requires space { sc.old.size ≡ 16384 }
    ensures pair { IsPair this other region.new }
    ensures space { sc.new.size ≡ 16384 }
{
    if !has_room(region, this, other) {
        return false;
    }
    let v = version_in(region, this, other);
    joined_row_has_a_code();
    let _e = rc_version::join_row(region, v, key, code, sc);
    true
}

/// `join_pt`.
pub(crate) fn join_pt(region: &mut Region<SEGMENT>, this: Root, other: Root, tomb: Tomb)
    requires { IsPair this other region.old }
    ensures { IsPair this other region.new }
{
    let v = version_in(region, this, other);
    rc_version::join_pt(region, v, tomb);
}

/// `set_flags`, of the entry at a position, or else the next one.
pub(crate) fn set_flags(
    region: &mut Region<SEGMENT>,
    this: Root,
    other: Root,
    x: &Pos,
    at: Flag,
    gap: Flag,
) -> bool
    requires { IsPair this other region.old }
    ensures { IsPair this other region.new }
{
    let v = version_in(region, this, other);
    match entry_from(region, v, x) {
        Some(e) => {
            rc_version::set_flags(region, e, at, gap);
            true
        }
        None => false,
    }
}

/// `set_tombs`, of such an entry.
pub(crate) fn set_tombs(
    region: &mut Region<SEGMENT>,
    this: Root,
    other: Root,
    x: &Pos,
    at: Option<Tomb>,
    gap: Option<Tomb>,
) -> bool
    requires { IsPair this other region.old }
    ensures { IsPair this other region.new }
{
    let v = version_in(region, this, other);
    match entry_from(region, v, x) {
        Some(e) => {
            rc_version::set_tombs(region, e, at, gap);
            true
        }
        None => false,
    }
}

/// `set_static`.
pub(crate) fn set_static(
    region: &mut Region<SEGMENT>,
    this: Root,
    other: Root,
    code: &[u8],
    flag: Flag,
) -> bool
    requires code { (row : Row) × IsRowCode code.now row }
    requires pair { IsPair this other region.old }
    ensures { IsPair this other region.new }
{
    if !has_room(region, this, other) {
        return false;
    }
    let v = version_in(region, this, other);
    rc_version::set_static(region, v, code, flag);
    true
}

/// `set_static_flag`.
pub(crate) fn set_static_flag(region: &mut Region<SEGMENT>, this: Root, other: Root, flag: Flag)
    requires { IsPair this other region.old }
    ensures { IsPair this other region.new }
{
    let v = version_in(region, this, other);
    rc_version::set_static_flag(region, v, flag);
}

/// `drop_static`.
pub(crate) fn drop_static(region: &mut Region<SEGMENT>, this: Root, other: Root)
    requires { IsPair this other region.old }
    ensures { IsPair this other region.new }
{
    let v = version_in(region, this, other);
    rc_version::drop_static(region, v);
}

// The entry at a position, or else the next one, where it is not the end dummy.
fn inner_entry_from(region: &Region<SEGMENT>, v: Ref, x: &Pos) -> Option<Ref>
    requires { IsSomeVersion region.now v }
    ensures { IsInnerOf region.now v result }
{
    let tree = tree_of(v);
    match entry_from(region, v, x) {
        Some(e) => match tree.next(region, e) {
            Some(_next) => Some(e),
            None => None,
        },
        None => None,
    }
}

/// `drop_entry`, of the entry at a position, or else the next one; the end dummy stays.
pub(crate) fn drop_entry(region: &mut Region<SEGMENT>, this: Root, other: Root, x: &Pos) -> bool
    requires { IsPair this other region.old }
    ensures { IsPair this other region.new }
{
    let v = version_in(region, this, other);
    match inner_entry_from(region, v, x) {
        Some(e) => {
            rc_version::drop_entry(region, v, e);
            true
        }
        None => false,
    }
}

// Whether an object is an entry with a row.
fn has_row(region: &Region<SEGMENT>, e: Ref) -> bool
    requires { IsSomeEntry region.now e }
    ensures { result ≡ true → (y : Entry) × (row : Row) × HoldsEntry region.now e y × (y.row ≡ Some row) }
{
    match region.kind(e) {
        Kind::RowEntry => true,
        Kind::Version | Kind::Dummy | Kind::Static => false,
    }
}

// Joins the row of an entry of another version, which is not the end dummy.
fn join_entry(
    region: &mut Region<SEGMENT>,
    this: Root,
    other: Root,
    v: Ref,
    w: Ref,
    e: Ref,
    sc: &mut Scratch,
) -> bool
    requires version { (m : Name) × IsPairOf this other region.old v m }
    requires room { 17904 ≤ spare_of 131072 region.old.usages }
    requires entry { IsInnerOf region.old w (Some e) }
    requires space { sc.old.size ≡ 16384 }
    ensures pair { IsPair this other region.new }
    ensures space { sc.new.size ≡ 16384 }
{
    if !has_row(region, e) {
        return false;
    }
    joined_row_has_a_code();
    let _e = rc_version::join_like(region, v, e, sc);
    true
}

/// `join_like`, with the entry of the other version at a position, or else its next one, where that has a row.
pub(crate) fn join_like(
    region: &mut Region<SEGMENT>,
    this: Root,
    other: Root,
    x: &Pos,
    sc: &mut Scratch,
) -> bool
    requires pair { IsPair this other region.old }
    requires space { sc.old.size ≡ 16384 }
    ensures pair { IsPair this other region.new }
    ensures space { sc.new.size ≡ 16384 }
{
    if !has_room(region, this, other) {
        return false;
    }
    let v = version_in(region, this, other);
    let w = version_in(region, other, this);
    match inner_entry_from(region, w, x) {
        Some(e) => join_entry(region, this, other, v, w, e, sc),
        None => false,
    }
}

/// `join_like`, with the static row of the other version, where it has one.
pub(crate) fn join_static_like(
    region: &mut Region<SEGMENT>,
    this: Root,
    other: Root,
    sc: &mut Scratch,
) -> bool
    requires pair { IsPair this other region.old }
    requires space { sc.old.size ≡ 16384 }
    ensures pair { IsPair this other region.new }
    ensures space { sc.new.size ≡ 16384 }
{
    if !has_room(region, this, other) {
        return false;
    }
    let v = version_in(region, this, other);
    let w = version_in(region, other, this);
    match statics_of(region, w) {
        Some(s) => {
            joined_row_has_a_code();
            let _s = rc_version::join_like(region, v, s, sc);
            true
        }
        None => false,
    }
}

/// `join_range`.
pub(crate) fn join_range(
    region: &mut Region<SEGMENT>,
    this: Root,
    other: Root,
    from: &Pos,
    to: &Pos,
    tomb: Tomb,
    sc: &mut Scratch,
) -> bool
    requires from { KeyFits from.now.prefix }
    requires to { KeyFits to.now.prefix }
    requires ascend { IsBefore from.now to.now }
    requires pair { IsPair this other region.old }
    requires space { sc.old.size ≡ 16384 }
    ensures pair { IsPair this other region.new }
    ensures space { sc.new.size ≡ 16384 }
{
    if !has_room(region, this, other) {
        return false;
    }
    let v = version_in(region, this, other);
    rc_version::join_range(region, v, from, to, tomb, sc);
    true
}

// Whether a version has no entry but its end dummy.
fn is_bare(region: &Region<SEGMENT>, v: Ref) -> bool
    requires { IsSomeVersion region.now v }
    ensures { result ≡ true → (end : Name) × (c : Version) × IsVersionOf region.now v (end ∷ []) c }
{
    let tree = tree_of(v);
    match tree.first(region) {
        Some(end) => match tree.next(region, end) {
            Some(_next) => false,
            None => true,
        },
        None => false,
    }
}

// Drops the static row of such a version, and frees it.
fn release(region: &mut Region<SEGMENT>, this: Root, _other: Root, v: Ref)
    requires pair { (m : Name) × IsPairOf this _other region.old v m }
    requires bare { (end : Name) × (c : Version) × IsVersionOf region.old v (end ∷ []) c }
    ensures half { IsHalf this _other region.new }
    ensures spare { spare_of 131072 region.new.usages ≡ spare_of 131072 region.old.usages }
{
    rc_version::drop_static(region, v);
    region.known();
    let _end = region.unlink(End::Slot(this));
    rc_version::free_version(region, v);
}

/// `free_version`, of a version that has no entry but its end dummy, once its static row is dropped; then `new_version`.
pub(crate) fn renew(
    region: &mut Region<SEGMENT>,
    this: Root,
    other: Root,
    flag: Flag,
    pt: Option<Tomb>,
    phase: u64,
) -> bool
    requires { IsPair this other region.old }
    ensures { IsPair this other region.new }
{
    if !has_room(region, this, other) {
        return false;
    }
    let v = version_in(region, this, other);
    if !is_bare(region, v) {
        return false;
    }
    release(region, this, other, v);
    settle(region, this, other, flag, pt, phase);
    true
}
