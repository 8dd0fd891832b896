//! What a version in the region says at each place, beside what the plain one says.

ghost use Rattle.std.specs.Prelude.{IfSome};
ghost use Rattle.rc_version_walk.specs.Walking.{IsSomeEntry, IsPair, IsSomeVersion};

use crate::homes::{SEGMENT, statics_of, tree_of, version_in};
use crate::tally::Tally;
use lsa_kinds::Kind;
use lsa_region::{Ref, Region, Root};
use lsa_tree::Place;
use rc_cell::Row;
use rc_core::{Flag, Mark, PlainVersion, Seen, Side, seen_at, statics_at};
use rc_object::{head_of, marks, row_code};
use rc_position::Pos;
use rc_rowcode::read_row;
use std::alloc::{AllocError, Global};
use std::slice::from_ref;

// The row that bytes spell; an empty one where they spell none.
fn row_in(alloc: Global, code: &[u8]) -> Result<Row, AllocError> {
    match read_row(alloc, code) {
        Ok(Some((row, _size))) => Ok(row),
        Ok(None) => Ok(Row::empty(alloc)),
        Err(error) => Err(error),
    }
}

// The row of an entry; an empty one of a dummy.
fn row_of(alloc: Global, region: &Region<SEGMENT>, e: Ref) -> Result<Row, AllocError>
    requires { IsSomeEntry region.now e }
{
    match region.kind(e) {
        Kind::RowEntry => row_in(alloc, row_code(region, e)),
        Kind::Version | Kind::Dummy | Kind::Static => Ok(Row::empty(alloc)),
    }
}

// What an entry says over the gap before it; nothing where there is none.
fn said_before(region: &Region<SEGMENT>, found: Option<Ref>) -> Mark
    requires { IfSome found (λ e. IsSomeEntry region.now e) }
{
    match found {
        Some(e) => marks(region, e).1,
        None => Mark {
            flag: Flag::Inherit,
            tomb: None,
        },
    }
}

// The entry of a version at a position, where there is one, and the next one behind it.
fn around(region: &Region<SEGMENT>, v: Ref, x: &Pos) -> (Option<Ref>, Option<Ref>)
    requires { IsSomeVersion region.now v }
    ensures at { IfSome result.0 (λ e. IsSomeEntry region.now e) }
    ensures behind { IfSome result.1 (λ e. IsSomeEntry region.now e) }
{
    let tree = tree_of(v);
    match tree.locate(region, x) {
        Place::Here(e) => (Some(e), tree.next(region, e)),
        Place::Before(next) => (None, Some(next)),
        Place::Last => (None, None),
    }
}

// The static row of a version; an empty one where it has none.
fn static_row(alloc: Global, region: &Region<SEGMENT>, v: Ref) -> Result<Row, AllocError>
    requires { IsSomeVersion region.now v }
{
    match statics_of(region, v) {
        Some(s) => row_in(alloc, row_code(region, s)),
        None => Ok(Row::empty(alloc)),
    }
}

// Whether two flags are the same.
fn is_same_flag(flag: Flag, other: Flag) -> bool {
    match (flag, other) {
        (Flag::Known, Flag::Known)
        | (Flag::Unknown, Flag::Unknown)
        | (Flag::Inherit, Flag::Inherit) => true,
        _ => false,
    }
}

// Whether two rows are the same.
fn is_same_row(row: &Row, other: &Row) -> bool {
    row.marker == other.marker
        && row.tomb == other.tomb
        && row.cells.as_slice() == other.cells.as_slice()
}

// Whether a mark and a row say what is seen.
fn is_seen(mark: Mark, row: &Row, seen: &Seen) -> bool {
    is_same_flag(mark.flag, seen.flag) && mark.tomb == seen.tomb && is_same_row(row, &seen.row)
}

// At a place, where a mark and a row say this.
fn ask_place(
    mark: Mark,
    row: &Result<Row, AllocError>,
    plain: &Result<Seen, AllocError>,
    place: &'static str,
    tally: &mut Tally,
) {
    match (row, plain) {
        (Ok(row), Ok(plain)) => tally.expect(is_seen(mark, row, plain), place),
        _ => tally.lacking = true,
    }
}

// At a position or behind it, where a mark and a row say this.
fn ask_side(
    alloc: Global,
    mark: Mark,
    row: &Result<Row, AllocError>,
    plain: &PlainVersion,
    x: &Pos,
    side: Side,
    tally: &mut Tally,
) {
    let place = match side {
        Side::On => "at a position",
        Side::Behind => "behind a position",
    };
    ask_place(
        mark,
        row,
        &seen_at(alloc, from_ref(plain), x, side),
        place,
        tally,
    );
}

// At the position of an entry.
fn ask_entry(
    alloc: Global,
    region: &Region<SEGMENT>,
    e: Ref,
    plain: &PlainVersion,
    x: &Pos,
    tally: &mut Tally,
)
    requires { IsSomeEntry region.now e }
{
    let (at, _gap) = marks(region, e);
    ask_side(
        alloc,
        at,
        &row_of(alloc, region, e),
        plain,
        x,
        Side::On,
        tally,
    );
}

// At a position and behind it, beside no row where no entry stands.
fn ask_at(
    alloc: Global,
    region: &Region<SEGMENT>,
    v: Ref,
    none: &Result<Row, AllocError>,
    plain: &PlainVersion,
    x: &Pos,
    tally: &mut Tally,
)
    requires { IsSomeVersion region.now v }
{
    let (here, next) = around(region, v, x);
    let behind = said_before(region, next);
    ask_side(alloc, behind, none, plain, x, Side::Behind, tally);
    match here {
        Some(e) => ask_entry(alloc, region, e, plain, x, tally),
        None => ask_side(alloc, behind, none, plain, x, Side::On, tally),
    }
}

// At the static row, where a flag and a row say this.
fn ask_static(
    alloc: Global,
    flag: Flag,
    row: &Result<Row, AllocError>,
    plain: &PlainVersion,
    tally: &mut Tally,
) {
    let mark = Mark { flag, tomb: None };
    let wanted = statics_at(alloc, from_ref(plain));
    ask_place(mark, row, &wanted, "at the static row", tally);
}

// At the head and the static row.
fn ask_head(
    alloc: Global,
    region: &Region<SEGMENT>,
    v: Ref,
    plain: &PlainVersion,
    tally: &mut Tally,
)
    requires { IsSomeVersion region.now v }
{
    let head = head_of(region, v);
    let same = head.partition_tombstone == plain.pt && head.phase == plain.phase;
    tally.expect(same, "at the head");
    ask_static(
        alloc,
        head.static_flag,
        &static_row(alloc, region, v),
        plain,
        tally,
    );
}

/// Asks the version that the first of two slots names and the plain one at each of these positions, behind it, and at the head and the static row.
pub(crate) fn ask(
    alloc: Global,
    region: &Region<SEGMENT>,
    this: Root,
    other: Root,
    plain: &PlainVersion,
    positions: &[Pos],
    tally: &mut Tally,
)
    requires { IsPair this other region.now }
{
    let v = version_in(region, this, other);
    ask_head(alloc, region, v, plain, tally);
    let none = Ok(Row::empty(alloc));
    for x in positions {
        ask_at(alloc, region, v, &none, plain, x, tally);
    }
}
