//! What holds of each tombstone, key, position and row: its numbers are within their widths, so that it has a code. Each
//! function here does nothing; it is there for proofs to cite.

ghost use Rattle.std.specs.Prelude.{IfSome, FitsSigned};
ghost use Rattle.std.specs.Int.{w64};
ghost use Rattle.std.specs.List.{AllByRecursion};
ghost use Rattle.rc_rowcode.specs.Spelling.{CompFits, CellFits, EntryFits, KeyFits, RowFits, IsTomb, IsComp, IsKey, IsPos, IsCell, IsEntry, IsCodedRow};

use rc_cell::{Cell, Row, Tomb};
use rc_position::{Comp, Key, Pos};

/// Both numbers of a tombstone are within their widths.
pub fn tomb_in_range(tomb: Option<Tomb>)
    ensures { IfSome tomb IsTomb }
{
    if let Some(tomb) = tomb {
        let _numbers = (tomb.ts, tomb.dt);
    }
}

// The timestamp of a marker.
fn marker_in_range(marker: Option<i64>)
    ensures { IfSome marker (λ ts. FitsSigned w64 ts) }
{
    if let Some(ts) = marker {
        let _number = ts;
    }
}

// The number of a component.
fn comp_in_range(comp: &Comp)
    requires { CompFits comp.now }
    ensures { IsComp comp.now }
{
    match comp {
        Comp::Int(number) => {
            let _number = *number;
        }
        Comp::Text(_) => {}
    }
}

// Each of some components.
fn comps_in_range(comps: &[Comp])
    requires { AllByRecursion CompFits comps.now }
    ensures { AllByRecursion IsComp comps.now }
{
    let mut left = comps;
    while let [comp, rest @ ..] = left {
        comp_in_range(comp);
        left = rest;
    }
}

/// Each component of a key within the limits is one that has a code.
pub fn key_in_range(key: &Key)
    requires { KeyFits key.now }
    ensures { IsKey key.now }
{
    comps_in_range(key.as_slice());
}

// The numbers of a cell.
fn cell_in_range(cell: &Cell)
    requires { CellFits cell.now }
    ensures { IsCell cell.now }
{
    match cell {
        Cell::Live { ts, .. } => {
            let _number = *ts;
        }
        Cell::Dead { ts, dt } => {
            let _numbers = (*ts, *dt);
        }
    }
}

// Each of some cells.
fn cells_in_range(cells: &[(u8, Cell)])
    requires { AllByRecursion EntryFits cells.now }
    ensures { AllByRecursion IsEntry cells.now }
{
    let mut left = cells;
    while let [cell, rest @ ..] = left {
        cell_in_range(&cell.1);
        left = rest;
    }
}

/// The prefix of a position within the limits is one that has a code.
pub fn pos_in_range(x: &Pos)
    requires { KeyFits x.now.prefix }
    ensures { IsPos x.now }
{
    key_in_range(&x.prefix);
}

/// A row within the limits is one that has a code.
pub fn row_in_range(row: &Row)
    requires { RowFits row.now }
    ensures { IsCodedRow row.now }
{
    marker_in_range(row.marker);
    tomb_in_range(row.tomb);
    cells_in_range(row.cells.as_slice());
}
