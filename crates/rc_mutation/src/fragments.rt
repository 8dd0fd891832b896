//! The fragments as which a partition is read.

ghost use Rattle.std.specs.Prelude.{◌≡◌, [], ◌∷◌, ◌++◌, map, IfOk, OnOk, IsTrue};
ghost use Rattle.std.specs.FinMap.{is_sorted};
ghost use Rattle.std.specs.Ordering.{is_lt};
ghost use Rattle.rc_position.specs.Position.{pos_cmp, row_pos};
ghost use Rattle.rc_mutation.specs.Fragments.{begins_at, changes_of, fragments, in_order, is_written, piece_changes, place_order, placed_change, placed_row, static_fragment};

use crate::mutations::Mutation;
use rc_cell::{Row, Tomb};
use rc_position::{Key, Pos};
use rc_ranges::Piece;
use std::alloc::{AllocError, Global};
use std::marker::Model;

/// One fragment of a partition. A partition is read as its start, its static row if that is not empty, its rows and changes
/// of tombstone by position, and its end.
#[derive(Drop)]
pub enum Frag {
    /// The start, with the partition tombstone.
    Start(Option<Tomb>),
    /// The static row.
    Static(Row),
    /// The row of a clustering key.
    Row(Key, Row),
    /// The range tombstone in force from this position on, none where none is.
    Change(Pos, Option<Tomb>),
    /// The end.
    End,
}

impl Frag {
    /// An equal fragment of its own memory. The only error is want of memory.
    pub fn copy(&self, alloc: Global) -> Result<Self, AllocError>
        ensures { IfOk result (λ frag. frag ≡ self.now) }
    {
        match self {
            Frag::Start(tomb) => Ok(Frag::Start(*tomb)),
            Frag::Static(row) => Ok(Frag::Static(row.copy(alloc)?)),
            Frag::Row(key, row) => {
                let key = key.copy(alloc)?;
                let row = row.copy(alloc)?;
                Ok(Frag::Row(key, row))
            }
            Frag::Change(from, tomb) => Ok(Frag::Change(from.copy(alloc)?, *tomb)),
            Frag::End => Ok(Frag::End),
        }
    }
}

/// Fragments, in order. A contract sees the list of them.
#[derive(Drop)]
pub struct FragList {
    items: Vec<Frag>,
}

impl Model for FragList {
    ghost use Rattle.std.specs.Prelude.{List};
    ghost use Rattle.rc_mutation.specs.declared.fragments.Frag.{Frag};

    ghost Value = { List Frag };

    ghost view = { λ l. l.items.items };
}

impl FragList {
    /// No fragments.
    pub fn empty(alloc: Global) -> Self
        ensures { result ≡ [] }
    {
        FragList {
            items: Vec::new(alloc),
        }
    }

    /// These fragments, which are copied. The only error is want of memory.
    pub fn from_slice(alloc: Global, items: &[Frag]) -> Result<Self, AllocError>
        ensures { IfOk result (λ list. list ≡ items.now) }
    {
        let mut copies = Vec::with_capacity(alloc, items.len())?;
        for frag in items {
            copies.push(frag.copy(alloc)?)?;
        }
        Ok(FragList { items: copies })
    }

    // These fragments.
    pub(crate) fn of(items: Vec<Frag>) -> Self
        ensures { result ≡ items.items }
    {
        FragList { items }
    }

    /// The fragments in order.
    pub fn as_slice(&self) -> &[Frag]
        ensures { result.now ≡ self.now }
    {
        self.items.as_slice()
    }

    /// Equal fragments of their own memory. The only error is want of memory.
    pub fn copy(&self, alloc: Global) -> Result<Self, AllocError>
        ensures { IfOk result (λ list. list ≡ self.now) }
    {
        FragList::from_slice(alloc, self.as_slice())
    }
}

impl Mutation {
    /// The canonical fragments: the start; the static row, if something was written of it; rows and changes by position,
    /// where a change names the tombstone in force from its position on and stands before a row at that position; and the
    /// end. The only error is want of memory.
    pub fn fragments(&self, alloc: Global) -> Result<FragList, AllocError>
        ensures { IfOk result (λ list. list ≡ fragments self.now) }
    {
        let mut made = Vec::new(alloc);
        made.push(Frag::Start(self.pt))?;
        push_statics(alloc, &mut made, self.statics.as_row())?;
        let changes = changes(alloc, self.ranges.as_slice())?;
        append_in_order(alloc, &mut made, self.rows.as_slice(), &changes)?;
        made.push(Frag::End)?;
        Ok(FragList::of(made))
    }
}

// The static row, if something was written of it.
fn push_statics(alloc: Global, made: &mut Vec<Frag>, statics: &Row) -> Result<(), AllocError>
    ensures { OnOk result (made.new.items ≡ made.old.items ++ static_fragment statics.now) }
{
    if was_written(statics) {
        let row = statics.copy(alloc)?;
        made.push(Frag::Static(row))?;
    }
    Ok(())
}

// Whether something was written of the row.
fn was_written(row: &Row) -> bool
    ensures { result ≡ is_written row.now }
{
    row.marker.is_some() || row.tomb.is_some() || !row.cells.as_slice().is_empty()
}

// The changes of the tombstone in force, by position.
fn changes(alloc: Global, pieces: &[Piece]) -> Result<Vec<(Pos, Option<Tomb>)>, AllocError>
    ensures { IfOk result (λ made. made.items ≡ changes_of pieces.now) }
{
    let mut made = Vec::new(alloc);
    let mut left = pieces;
    while let [first, rest @ ..] = left {
        push_piece(alloc, &mut made, first, rest)?;
        left = rest;
    }
    Ok(made)
}

// The changes at a piece, behind which the next ones stand.
fn push_piece(
    alloc: Global,
    made: &mut Vec<(Pos, Option<Tomb>)>,
    piece: &Piece,
    next: &[Piece],
) -> Result<(), AllocError>
    ensures { OnOk result (made.new.items ≡ made.old.items ++ piece_changes piece.now next.now) }
{
    made.push((piece.from.copy(alloc)?, Some(piece.tomb)))?;
    if !first_begins_at(&piece.to, next) {
        made.push((piece.to.copy(alloc)?, None))?;
    }
    Ok(())
}

// Whether the first piece begins at the position.
fn first_begins_at(x: &Pos, pieces: &[Piece]) -> bool
    ensures { result ≡ begins_at x.now pieces.now }
{
    match pieces {
        [] => false,
        [first, _rest @ ..] => first.from == *x,
    }
}

// Appends rows and changes, each by ascending position, in the order of their positions.
fn append_in_order(
    alloc: Global,
    made: &mut Vec<Frag>,
    rows: &[(Key, Row)],
    changes: &[(Pos, Option<Tomb>)],
) -> Result<(), AllocError>
    requires rows { IsTrue (is_sorted place_order (map placed_row rows.now)) }
    requires changes { IsTrue (is_sorted place_order (map placed_change changes.now)) }
    ensures { OnOk result (made.new.items ≡ made.old.items ++ in_order (map placed_row rows.now ++ map placed_change changes.now)) }
{
    let mut rows = rows;
    let mut changes = changes;
    while let ([row, rest @ ..], [change, later @ ..]) = (rows, changes) {
        if stands_before(&row.0, &change.0) {
            push_row(alloc, made, row)?;
            rows = rest;
        } else {
            push_change(alloc, made, change)?;
            changes = later;
        }
    }
    append_rows(alloc, made, rows)?;
    append_changes(alloc, made, changes)
}

// Whether the row of the key stands before the position.
fn stands_before(key: &Key, x: &Pos) -> bool
    ensures { result ≡ is_lt (pos_cmp (row_pos key.now) x.now) }
{
    key.compare_with_pos(x).is_lt()
}

fn push_row(alloc: Global, made: &mut Vec<Frag>, row: &(Key, Row)) -> Result<(), AllocError>
    ensures { OnOk result (made.new.items ≡ made.old.items ++ Frag.Row row.now.0 row.now.1 ∷ []) }
{
    let key = row.0.copy(alloc)?;
    let row = row.1.copy(alloc)?;
    Ok(made.push(Frag::Row(key, row))?)
}

fn push_change(
    alloc: Global,
    made: &mut Vec<Frag>,
    change: &(Pos, Option<Tomb>),
) -> Result<(), AllocError>
    ensures { OnOk result (made.new.items ≡ made.old.items ++ Frag.Change change.now.0 change.now.1 ∷ []) }
{
    let from = change.0.copy(alloc)?;
    Ok(made.push(Frag::Change(from, change.1))?)
}

fn append_rows(alloc: Global, made: &mut Vec<Frag>, rows: &[(Key, Row)]) -> Result<(), AllocError>
    ensures { OnOk result (made.new.items ≡ made.old.items ++ map (λ e. Frag.Row e.0 e.1) rows.now) }
{
    for row in rows {
        push_row(alloc, made, row)?;
    }
    Ok(())
}

fn append_changes(
    alloc: Global,
    made: &mut Vec<Frag>,
    changes: &[(Pos, Option<Tomb>)],
) -> Result<(), AllocError>
    ensures { OnOk result (made.new.items ≡ made.old.items ++ map (λ c. Frag.Change c.0 c.1) changes.now) }
{
    for change in changes {
        push_change(alloc, made, change)?;
    }
    Ok(())
}

/// What stands at the head of a partition: its tombstone and its static row.
#[derive(Drop)]
pub struct Head {
    /// The partition tombstone.
    pub pt: Option<Tomb>,
    /// The static row.
    pub statics: Row,
}

impl Head {
    /// An equal head of its own memory. The only error is want of memory.
    pub fn copy(&self, alloc: Global) -> Result<Self, AllocError>
        ensures { IfOk result (λ head. head ≡ self.now) }
    {
        let statics = self.statics.copy(alloc)?;
        Ok(Head {
            pt: self.pt,
            statics,
        })
    }
}

/// The head of a partition, and whether its static row is known.
#[derive(Drop)]
pub struct HeadAt {
    /// The head.
    pub head: Head,
    /// Whether the static row is known.
    pub known: bool,
}

impl HeadAt {
    /// An equal value of its own memory. The only error is want of memory.
    pub fn copy(&self, alloc: Global) -> Result<Self, AllocError>
        ensures { IfOk result (λ at. at ≡ self.now) }
    {
        let head = self.head.copy(alloc)?;
        Ok(HeadAt {
            head,
            known: self.known,
        })
    }
}
