//! The plain versions: what each call does, by the plain functions of the core.

use rc_cell::{Row, Tomb};
use rc_core::{Entry, Flag, Mark, PlainVersion};
use rc_mutation::greater_tomb;
use rc_position::{Key, Pos, Weight};
use rc_units::{raise_entries, split_entries};
use std::alloc::{AllocError, Global};
use std::mem::swap;

/// Two plain versions, the first and the second one.
#[derive(Drop)]
pub(crate) struct PlainPair {
    /// The one on which calls are made.
    pub(crate) first: PlainVersion,
    /// The other one.
    pub(crate) second: PlainVersion,
}

impl PlainPair {
    /// Two versions without entries.
    pub(crate) fn bare(alloc: Global) -> Self {
        PlainPair {
            first: bare_version(alloc, Flag::Known, None, 0),
            second: bare_version(alloc, Flag::Inherit, None, 1),
        }
    }

    /// They get an end dummy each.
    pub(crate) fn start(&mut self, alloc: Global) -> Result<(), AllocError> {
        push_end(alloc, &mut self.first)?;
        push_end(alloc, &mut self.second)
    }

    /// The second one is the first one from now on.
    pub(crate) fn turn(&mut self) {
        swap(&mut self.first, &mut self.second);
    }

    /// `split`.
    pub(crate) fn split(&mut self, alloc: Global, x: &Pos) -> Result<(), AllocError> {
        split(alloc, &mut self.first, x)
    }

    /// `split_like`.
    pub(crate) fn split_like(&mut self, alloc: Global, x: &Pos) -> Result<(), AllocError> {
        match entry_from(self.second.entries.as_slice(), x) {
            Some(entry) => split(alloc, &mut self.first, &entry.position),
            None => Ok(()),
        }
    }

    /// `join_row`.
    pub(crate) fn join_row(&mut self, alloc: Global, x: &Pos, row: &Row) -> Result<(), AllocError> {
        join_row(alloc, &mut self.first, x, row)
    }

    /// `join_range`.
    pub(crate) fn join_range(
        &mut self,
        alloc: Global,
        from: &Pos,
        to: &Pos,
        tomb: Tomb,
    ) -> Result<(), AllocError> {
        let made = raise_entries(alloc, Some(tomb), from, to, self.first.entries.as_slice());
        put_entries(&mut self.first, made)
    }

    /// `join_like`, with an entry of the second version.
    pub(crate) fn join_like(&mut self, alloc: Global, x: &Pos) -> Result<(), AllocError> {
        match entry_from(self.second.entries.as_slice(), x) {
            Some(entry) => join_entry(alloc, &mut self.first, entry),
            None => Ok(()),
        }
    }

    /// `join_like`, with its static row.
    pub(crate) fn join_static_like(&mut self, alloc: Global) -> Result<(), AllocError> {
        match &self.second.statics {
            Some(row) => join_statics(alloc, &mut self.first, row),
            None => Ok(()),
        }
    }

    /// `join_pt`.
    pub(crate) fn join_pt(&mut self, tomb: Tomb) {
        self.first.pt = greater_tomb(self.first.pt, Some(tomb));
    }

    /// `set_static`.
    pub(crate) fn set_static(
        &mut self,
        alloc: Global,
        row: &Row,
        flag: Flag,
    ) -> Result<(), AllocError> {
        self.first.static_flag = flag;
        self.first.statics = Some(row.copy(alloc)?);
        Ok(())
    }

    /// `drop_static`.
    pub(crate) fn drop_static(&mut self) {
        self.first.statics = None;
        self.first.static_flag = Flag::Unknown;
    }

    /// `free_version`, and `new_version`.
    pub(crate) fn renew(
        &mut self,
        alloc: Global,
        flag: Flag,
        pt: Option<Tomb>,
        phase: u64,
    ) -> Result<(), AllocError> {
        self.first = bare_version(alloc, flag, pt, phase);
        push_end(alloc, &mut self.first)
    }
}

// The entries of a version are these from now on; without memory they stay.
fn put_entries(
    version: &mut PlainVersion,
    made: Result<Vec<Entry>, AllocError>,
) -> Result<(), AllocError> {
    version.entries = made?;
    Ok(())
}

// A dummy at a position, where no entry stands there.
fn split(alloc: Global, version: &mut PlainVersion, x: &Pos) -> Result<(), AllocError> {
    let made = split_entries(alloc, x, version.entries.as_slice());
    put_entries(version, made)
}

// A row at a position.
fn join_row(
    alloc: Global,
    version: &mut PlainVersion,
    x: &Pos,
    row: &Row,
) -> Result<(), AllocError> {
    let made = rc_units::join_row(alloc, x, row, version.entries.as_slice());
    put_entries(version, made)
}

// The row of an entry, where it has one.
fn join_entry(alloc: Global, version: &mut PlainVersion, entry: &Entry) -> Result<(), AllocError> {
    match &entry.row {
        Some(row) => join_row(alloc, version, &entry.position, row),
        None => Ok(()),
    }
}

// The end dummy of a version.
fn end_dummy(alloc: Global, flag: Flag) -> Entry {
    let mark = Mark { flag, tomb: None };
    Entry {
        position: Pos {
            prefix: Key::empty(alloc),
            weight: Weight::After,
        },
        row: None,
        at: mark,
        gap: mark,
    }
}

// A version without entries.
fn bare_version(alloc: Global, flag: Flag, pt: Option<Tomb>, phase: u64) -> PlainVersion {
    PlainVersion {
        pt,
        statics: None,
        static_flag: flag,
        entries: Vec::new(alloc),
        phase,
    }
}

// Its end dummy, with the flag of its static row.
fn push_end(alloc: Global, version: &mut PlainVersion) -> Result<(), AllocError> {
    version.entries.push(end_dummy(alloc, version.static_flag))?;
    Ok(())
}

// The entry at a position, or else the next one behind it.
fn entry_from<'a>(entries: &'a [Entry], x: &Pos) -> Option<&'a Entry> {
    for entry in entries {
        if *x <= entry.position {
            return Some(entry);
        }
    }
    None
}

/// Other flags at the entry at a position, or else the next one.
pub(crate) fn set_flags(entries: &mut [Entry], x: &Pos, at: Flag, gap: Flag) {
    for entry in entries.iter_mut() {
        if *x <= entry.position {
            entry.at.flag = at;
            entry.gap.flag = gap;
            return;
        }
    }
}

/// Other tombstones there.
pub(crate) fn set_tombs(entries: &mut [Entry], x: &Pos, at: Option<Tomb>, gap: Option<Tomb>) {
    for entry in entries.iter_mut() {
        if *x <= entry.position {
            entry.at.tomb = at;
            entry.gap.tomb = gap;
            return;
        }
    }
}

/// The entry at a position, or else the next one, taken out; what the gaps beside it said is lost. The end dummy stays.
pub(crate) fn drop_entry(entries: &mut Vec<Entry>, x: &Pos) {
    if let Some(index) = index_from(entries.as_slice(), x)
        && index < entries.len().saturating_sub(1)
    {
        rc_core::drop_entry(entries, index);
    }
}

// The number of the entry at a position, or else of the next one behind it.
fn index_from(entries: &[Entry], x: &Pos) -> Option<usize> {
    for (index, entry) in entries.iter().enumerate() {
        if *x <= entry.position {
            return Some(index);
        }
    }
    None
}

// A static row joined to one, where there is one.
fn join_statics(alloc: Global, version: &mut PlainVersion, row: &Row) -> Result<(), AllocError> {
    match &mut version.statics {
        Some(old) => old.join(alloc, row),
        None => {
            version.statics = Some(row.copy(alloc)?);
            Ok(())
        }
    }
}

/// Before every row.
pub(crate) fn start_position(alloc: Global) -> Pos {
    Pos {
        prefix: Key::empty(alloc),
        weight: Weight::Before,
    }
}
