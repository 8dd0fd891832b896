//! What one version in a region says of a place: its flag and tombstone there, and the object that holds its row there.
ghost use Rattle.std.specs.Prelude.{◌≡◌, List, ◌∷◌, ◌++◌, IfOk, None, Some, Option as Maybe};
ghost use Rattle.rc_cell.specs.declared.rows.Row.{Row as RowValue};
ghost use Rattle.rc_position.specs.declared.positions.Pos.{Pos as Position};
ghost use Rattle.lsa_store.specs.declared.place.Ref.{Ref as Name};
ghost use Rattle.lsa_tree.specs.Entries.{IsEntryAtPosition};
ghost use Rattle.rc_core.specs.declared.entries.Entry.{Entry};
ghost use Rattle.rc_core.specs.Change.{mark};
ghost use Rattle.rc_core.specs.Slow.{spot_at};
ghost use Rattle.rc_core.specs.Version.{Behind, Version, finding_in, finding_of};
ghost use Rattle.rc_object.specs.Objects.{HoldsEntry};
ghost use Rattle.rc_partition.specs.Versions.{IsVersionOf};
ghost use Rattle.rc_reading.specs.calls.Reading.{IsFindingRead, IsRowRead, finding_at};

use lsa_kinds::Kind;
use lsa_region::{End, Ref, Region};
use lsa_tree::{Place, Tree};
use rc_cell::Row;
use rc_core::{Flag, Mark, Side};
use rc_object::{head_of, marks, row_code};
use rc_partition::static_row;
use rc_position::Pos;
use rc_rowcode::read_row;
use std::alloc::{AllocError, Global};

/// A place that is asked for in each version.
#[derive(Clone, Copy)]
pub(crate) enum Asked<'a> {
    /// The static row.
    Static,
    /// A position, or the gap right behind it.
    Clustered(&'a Pos, Side),
}

// What an entry says at its own position.
fn at_entry<const S: usize>(region: &Region<S>, e: Ref) -> (Mark, Option<Ref>)
    requires { (y : Entry) × HoldsEntry region.now e y }
    ensures { (y : Entry) → HoldsEntry region.now e y → IsFindingRead region.now result (finding_of y.at y.row) }
{
    let (at, _gap) = marks(region, e);
    match region.kind(e) {
        Kind::RowEntry => (at, Some(e)),
        Kind::Dummy | Kind::Static | Kind::Version => (at, None),
    }
}

// What is said over the gap before an entry.
fn before_entry<const S: usize>(region: &Region<S>, e: Ref) -> (Mark, Option<Ref>)
    requires { (y : Entry) × HoldsEntry region.now e y }
    ensures { (y : Entry) → HoldsEntry region.now e y → IsFindingRead region.now result (finding_of y.gap None) }
{
    (marks(region, e).1, None)
}

// What a version says over the gap behind one of its entries; behind the last one it says nothing.
fn behind_entry<const S: usize>(region: &Region<S>, v: Ref, e: Ref) -> (Mark, Option<Ref>)
    requires { (front : List Name) × (back : List Name) × (c : Version) × IsVersionOf region.now v (front ++ (e ∷ back)) c }
    ensures { (front back : List Name) (c : Version) (x : Position) → IsVersionOf region.now v (front ++ (e ∷ back)) c → IsEntryAtPosition region.now e x → IsFindingRead region.now result (finding_in (Behind x) c.entries) }
{
    let tree = Tree {
        top: End::Obj(v, 2),
    };
    match tree.next(region, e) {
        Some(next) => before_entry(region, next),
        None => (
            Mark {
                flag: Flag::Inherit,
                tomb: None,
            },
            None,
        ),
    }
}

// What a version says of a position, or of the gap right behind it. It searches once.
fn clustered<const S: usize>(region: &Region<S>, v: Ref, x: &Pos, side: Side) -> (Mark, Option<Ref>)
    requires { (refs : List Name) × (c : Version) × IsVersionOf region.now v refs c }
    ensures { (refs : List Name) (c : Version) → IsVersionOf region.now v refs c → IsFindingRead region.now result (finding_in (spot_at side x.now) c.entries) }
{
    let tree = Tree {
        top: End::Obj(v, 2),
    };
    match (tree.locate(region, x), side) {
        (Place::Here(e), Side::On) => at_entry(region, e),
        (Place::Here(e), Side::Behind) => behind_entry(region, v, e),
        (Place::Before(next), _) => before_entry(region, next),
        (Place::Last, _) => unreachable!(),
    }
}

// What a version says of its static row.
fn statics<const S: usize>(region: &Region<S>, v: Ref) -> (Mark, Option<Ref>)
    requires { (refs : List Name) × (c : Version) × IsVersionOf region.now v refs c }
    ensures { (refs : List Name) (c : Version) → IsVersionOf region.now v refs c → IsFindingRead region.now result (finding_of (mark c.static_flag None) c.statics) }
{
    let flag = head_of(region, v).static_flag;
    (Mark { flag, tomb: None }, static_row(region, v))
}

/// What a version says of the place that is asked for.
pub(crate) fn said<const S: usize>(
    region: &Region<S>,
    v: Ref,
    asked: Asked<'_>,
) -> (Mark, Option<Ref>)
    requires { (refs : List Name) × (c : Version) × IsVersionOf region.now v refs c }
    ensures { (refs : List Name) (c : Version) → IsVersionOf region.now v refs c → IsFindingRead region.now result (finding_at asked.entry c) }
{
    match asked {
        Asked::Static => statics(region, v),
        Asked::Clustered(x, side) => clustered(region, v, x, side),
    }
}

/// The row that an object holds; None where none is named. The only error is want of memory.
pub(crate) fn row_of<const S: usize>(
    alloc: Global,
    region: &Region<S>,
    holder: Option<Ref>,
) -> Result<Option<Row>, AllocError>
    requires { (row : Maybe RowValue) × IsRowRead region.now holder row }
    ensures { (row : Maybe RowValue) → IsRowRead region.now holder row → IfOk result (λ found. found ≡ row) }
{
    let Some(r) = holder else {
        return Ok(None);
    };
    match read_row(alloc, row_code(region, r))? {
        Some((row, _size)) => Ok(Some(row)),
        None => unreachable!(),
    }
}
