ghost use Rattle.std.specs.Prelude.{◌≡◌, [], ◌∷◌, ◌++◌, ◌&&◌, IfOk, OnOk, IsTrue};
ghost use Rattle.std.specs.List.{list_any};
ghost use Rattle.rc_cell.specs.Columns.{ascending};
ghost use Rattle.rc_cell.specs.Orders.{timestamp_of, is_live_cell};
ghost use Rattle.rc_cell.specs.Deletion.{survives, surviving_cells};
ghost use Rattle.rc_cell.specs.Winner.{winner, winners};

use crate::writes::{Cell, Tomb, is_above};
use std::alloc::{AllocError, Global};
use std::cmp::Ordering;
use std::marker::Model;

/// The cells of a row: pairs of a column's number and its cell, by strictly ascending column.
#[derive(Drop)]
pub struct Cells {
    items: Vec<(u8, Cell)>,
}

impl Model for Cells {
    ghost use Rattle.std.specs.Prelude.{ℕ, List, IsTrue};
    ghost use Rattle.rc_cell.specs.declared.writes.Cell.{Cell};
    ghost use Rattle.rc_cell.specs.Columns.{ascending};

    ghost Value = { List (ℕ × Cell) };

    ghost view = { λ c. c.items.items };

    ghost invariant = { λ c. IsTrue (ascending c.items.items) };
}

impl Cells {
    /// No cells.
    pub fn empty(alloc: Global) -> Self
        ensures { result ≡ [] }
    {
        Cells {
            items: Vec::new(alloc),
        }
    }

    /// The cells of these pairs, whose columns strictly ascend, or want of memory.
    pub fn from_slice(alloc: Global, items: &[(u8, Cell)]) -> Result<Self, AllocError>
        requires { IsTrue (ascending items.now) }
        ensures { IfOk result (λ cells. cells ≡ items.now) }
    {
        let items = copied(alloc, items)?;
        Ok(Cells { items })
    }

    /// The cells of these pairs, whose columns strictly ascend, in the memory that holds them.
    pub fn from_vec(items: Vec<(u8, Cell)>) -> Self
        requires { IsTrue (ascending items.items) }
        ensures { result ≡ items.items }
    {
        Cells { items }
    }

    /// The pairs by strictly ascending column.
    pub fn as_slice(&self) -> &[(u8, Cell)]
        ensures value { result.now ≡ self.now }
        ensures ascending { IsTrue (ascending self.now) }
    {
        self.items.as_slice()
    }

    /// Equal cells of their own memory, or want of memory.
    pub fn copy(&self, alloc: Global) -> Result<Self, AllocError>
        ensures { IfOk result (λ cells. cells ≡ self.now) }
    {
        Cells::from_slice(alloc, self.as_slice())
    }

    // The winner of each column among these cells and the others.
    pub(crate) fn joined(&self, alloc: Global, other: &Cells) -> Result<Cells, AllocError>
        ensures ok { IfOk result (λ cells. cells ≡ winners (self.now ++ other.now)) }
        ensures ours { IsTrue (ascending self.now) }
        ensures theirs { IsTrue (ascending other.now) }
    {
        let items = merged(alloc, self.as_slice(), other.as_slice())?;
        Ok(Cells { items })
    }

    // The cells that survive the tombstone.
    pub(crate) fn surviving(&self, alloc: Global, tomb: Option<Tomb>) -> Result<Cells, AllocError>
        ensures { IfOk result (λ cells. cells ≡ surviving_cells tomb self.now) }
    {
        let items = surviving_of(alloc, self.as_slice(), tomb)?;
        Ok(Cells { items })
    }

    // Whether a live cell survives the tombstone.
    pub(crate) fn has_live(&self, tomb: Option<Tomb>) -> bool
        ensures { result ≡ list_any (λ e. survives tomb (timestamp_of e.1) && is_live_cell e.1) self.now }
    {
        self.items
            .iter()
            .any(|item| is_above(tomb, item.1.ts()) && item.1.is_live())
    }
}

// The pairs whose cells survive the tombstone, each in its own memory.
fn surviving_of(
    alloc: Global,
    items: &[(u8, Cell)],
    tomb: Option<Tomb>,
) -> Result<Vec<(u8, Cell)>, AllocError>
    ensures { IfOk result (λ made. made.items ≡ surviving_cells tomb items.now) }
{
    let mut made = Vec::new(alloc);
    for item in items {
        if is_above(tomb, item.1.ts()) {
            made.push((item.0, item.1.copy(alloc)?))?;
        }
    }
    Ok(made)
}

// The winner of each column among ours and theirs, by ascending column, each in its own memory.
fn merged(
    alloc: Global,
    ours: &[(u8, Cell)],
    theirs: &[(u8, Cell)],
) -> Result<Vec<(u8, Cell)>, AllocError>
    requires ours_ascend { IsTrue (ascending ours.now) }
    requires theirs_ascend { IsTrue (ascending theirs.now) }
    ensures { IfOk result (λ made. made.items ≡ winners (ours.now ++ theirs.now)) }
{
    let mut made = Vec::new(alloc);
    let mut ours = ours;
    let mut theirs = theirs;
    while let ([our_first, our_rest @ ..], [their_first, their_rest @ ..]) = (ours, theirs) {
        match our_first.0.cmp(&their_first.0) {
            Ordering::Less => {
                made.push((our_first.0, our_first.1.copy(alloc)?))?;
                ours = our_rest;
            }
            Ordering::Equal => {
                let cell = winning(&our_first.1, &their_first.1);
                made.push((our_first.0, cell.copy(alloc)?))?;
                ours = our_rest;
                theirs = their_rest;
            }
            Ordering::Greater => {
                made.push((their_first.0, their_first.1.copy(alloc)?))?;
                theirs = their_rest;
            }
        }
    }
    append_copies(alloc, &mut made, ours)?;
    append_copies(alloc, &mut made, theirs)?;
    Ok(made)
}

// The winner of two cells of one column.
fn winning<'a>(ours: &'a Cell, theirs: &'a Cell) -> &'a Cell
    ensures { Some result.now ≡ winner (ours.now ∷ theirs.now ∷ []) }
{
    if ours < theirs { theirs } else { ours }
}

// The pairs in their order, each in its own memory.
fn copied(alloc: Global, items: &[(u8, Cell)]) -> Result<Vec<(u8, Cell)>, AllocError>
    ensures { IfOk result (λ made. made.items ≡ items.now) }
{
    let mut made = Vec::new(alloc);
    append_copies(alloc, &mut made, items)?;
    Ok(made)
}

// Appends the pairs in their order, each in its own memory.
fn append_copies(
    alloc: Global,
    made: &mut Vec<(u8, Cell)>,
    items: &[(u8, Cell)],
) -> Result<(), AllocError>
    ensures { OnOk result (made.new.items ≡ made.old.items ++ items.now) }
{
    for item in items {
        let cell = item.1.copy(alloc)?;
        made.push((item.0, cell))?;
    }
    Ok(())
}
