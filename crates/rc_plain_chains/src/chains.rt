//! A plain chain: what each call does to it, by the plain functions of the core.

ghost use Rattle.std.specs.Prelude.{◌≡◌, ◌↔◌, Some, Contains, IfSome, IsTrue};
ghost use Rattle.rc_core.specs.declared.entries.ChainKind.{ChainKind as Kind};

use crate::places::{Recency, end_position};
use rc_cell::{Row, Tomb};
use rc_core::{ChainKind, Entry, Flag, Mark, PlainVersion, release_pin};
use rc_mutation::greater_tomb;
use rc_position::Pos;
use rc_units::{join_row, raise_entries, split_entries};
use std::alloc::{AllocError, Global};

/// A chain of plain versions, the oldest first.
#[derive(Drop)]
pub struct PlainChain {
    /// Its number.
    pub id: u64,
    /// What stands below the oldest version.
    pub kind: ChainKind,
    /// The versions.
    pub versions: Vec<PlainVersion>,
    /// Whether it is found by its key.
    pub attached: bool,
    /// Whether an update stands in the newest version.
    pub updating: bool,
    /// Whether it has the cleaner's mark.
    pub passed: bool,
    /// By the number of a snapshot that of the version that it pins; none where the number is free.
    pub pins: Vec<Option<usize>>,
}

/// Whether a chain is one of a cache.
pub fn is_cache(kind: ChainKind) -> bool
    ensures { IsTrue result ↔ (kind ≡ Kind.Cache) }
{
    match kind {
        ChainKind::Cache => true,
        ChainKind::Memtable => false,
    }
}

// The flags of a new chain's version.
fn flag_of(kind: ChainKind) -> Flag {
    match kind {
        ChainKind::Cache => Flag::Unknown,
        ChainKind::Memtable => Flag::Inherit,
    }
}

// The end dummy alone.
fn end_alone(alloc: Global, flag: Flag) -> Result<Vec<Entry>, AllocError> {
    let mark = Mark { flag, tomb: None };
    let mut entries = Vec::new(alloc);
    entries.push(Entry {
        position: end_position(alloc),
        row: None,
        at: mark,
        gap: mark,
    })?;
    Ok(entries)
}

// A version of its end dummy alone.
fn version_of(
    alloc: Global,
    flag: Flag,
    pt: Option<Tomb>,
    phase: u64,
) -> Result<PlainVersion, AllocError> {
    Ok(PlainVersion {
        pt,
        statics: None,
        static_flag: flag,
        entries: end_alone(alloc, flag)?,
        phase,
    })
}

// One version more.
fn push_version(
    alloc: Global,
    versions: &mut Vec<PlainVersion>,
    flag: Flag,
    pt: Option<Tomb>,
    phase: u64,
) -> Result<(), AllocError> {
    versions.push(version_of(alloc, flag, pt, phase)?)?;
    Ok(())
}

// The entry at a position.
fn entry_at<'a>(entries: &'a [Entry], x: &Pos) -> Option<&'a Entry> {
    for entry in entries {
        if *x == entry.position {
            return Some(entry);
        }
    }
    None
}

// The number of the entry at a position.
fn index_at(entries: &[Entry], x: &Pos) -> Option<usize> {
    for (index, entry) in entries.iter().enumerate() {
        if *x == entry.position {
            return Some(index);
        }
    }
    None
}

// The position of the last entry before the end dummy.
fn last_inner(entries: &[Entry]) -> Option<&Pos> {
    match entries {
        [.., inner, _end] => Some(&inner.position),
        _ => None,
    }
}

// An entry at a position, where there is none.
fn split_version(alloc: Global, version: &mut PlainVersion, x: &Pos) -> Result<(), AllocError> {
    version.entries = split_entries(alloc, x, version.entries.as_slice())?;
    Ok(())
}

// A row joined to what a version has at a position.
fn join_entry(
    alloc: Global,
    version: &mut PlainVersion,
    x: &Pos,
    row: &Row,
) -> Result<(), AllocError> {
    version.entries = join_row(alloc, x, row, version.entries.as_slice())?;
    Ok(())
}

// A range tombstone joined to a version, in which entries stand at both ends.
fn raise_version(
    alloc: Global,
    version: &mut PlainVersion,
    from: &Pos,
    to: &Pos,
    tomb: Tomb,
) -> Result<(), AllocError> {
    version.entries = raise_entries(alloc, Some(tomb), from, to, version.entries.as_slice())?;
    Ok(())
}

// A row joined to the static row of a version.
fn join_statics(alloc: Global, version: &mut PlainVersion, row: &Row) -> Result<(), AllocError> {
    match &mut version.statics {
        Some(old) => old.join(alloc, row),
        None => {
            version.statics = Some(row.copy(alloc)?);
            Ok(())
        }
    }
}

// An entry of a version gets other flags.
fn flag_entries(version: &mut PlainVersion, x: &Pos, at: Flag, gap: Flag) {
    for entry in version.entries.iter_mut() {
        if *x == entry.position {
            entry.at.flag = at;
            entry.gap.flag = gap;
        }
    }
}

// An entry of a version gets other tombstones.
fn mark_entries(version: &mut PlainVersion, x: &Pos, at: Option<Tomb>, gap: Option<Tomb>) {
    for entry in version.entries.iter_mut() {
        if *x == entry.position {
            entry.at.tomb = at;
            entry.gap.tomb = gap;
        }
    }
}

// An entry of a version goes, where it is not the end dummy.
fn drop_inner(version: &mut PlainVersion, x: &Pos) {
    if let Some(index) = index_at(version.entries.as_slice(), x)
        && index < version.entries.len().saturating_sub(1)
    {
        rc_core::drop_entry(&mut version.entries, index);
    }
}

// The first number of a snapshot that is free; a new one where none is.
fn free_number(pins: &[Option<usize>]) -> usize {
    for (number, pin) in pins.iter().enumerate() {
        if pin.is_none() {
            return number;
        }
    }
    pins.len()
}

// A snapshot pins a version, at a number that is free or a new one.
fn set_pin(pins: &mut Vec<Option<usize>>, pin: usize, number: usize) -> Result<(), AllocError> {
    if let Some(free) = pins.get_mut(pin) {
        *free = Some(number);
        return Ok(());
    }
    pins.push(Some(number))?;
    Ok(())
}

impl PlainChain {
    /// A new chain, of one version of its end dummy alone.
    pub(crate) fn new(
        alloc: Global,
        id: u64,
        kind: ChainKind,
        phase: u64,
        pt: Option<Tomb>,
    ) -> Result<Self, AllocError> {
        let mut versions = Vec::new(alloc);
        push_version(alloc, &mut versions, flag_of(kind), pt, phase)?;
        Ok(PlainChain {
            id,
            kind,
            versions,
            attached: true,
            updating: false,
            passed: false,
            pins: Vec::new(alloc),
        })
    }

    // The number of its newest version.
    fn newest(&self) -> usize {
        self.versions.len().saturating_sub(1)
    }

    /// Whether a snapshot pins a version.
    pub fn is_pinned(&self, number: usize) -> bool
        ensures { IsTrue result ↔ Contains self.now.pins.items (Some number) }
    {
        self.pins.iter().any(|pin| *pin == Some(number))
    }

    // Whether no snapshot is there.
    fn is_free(&self) -> bool {
        for pin in &self.pins {
            if pin.is_some() {
                return false;
            }
        }
        true
    }

    /// `add_version`.
    pub(crate) fn add_version(&mut self, alloc: Global, phase: u64) -> Result<(), AllocError> {
        push_version(alloc, &mut self.versions, Flag::Inherit, None, phase)?;
        self.updating = is_cache(self.kind);
        Ok(())
    }

    /// `end_update`.
    pub(crate) fn end_update(
        &mut self,
        alloc: Global,
        recency: &mut Recency,
    ) -> Result<(), AllocError> {
        if !self.updating {
            return Ok(());
        }
        self.list_last(alloc, recency)?;
        self.updating = false;
        recency.push_end(alloc, self.id, self.newest())
    }

    // The last entry before the end of the newest version goes into the list, where it is not there.
    fn list_last(&self, alloc: Global, recency: &mut Recency) -> Result<(), AllocError> {
        if let Some(version) = self.versions.last()
            && let Some(x) = last_inner(version.entries.as_slice())
            && !recency.has(self.id, self.newest(), x)
        {
            return recency.push(alloc, self.id, self.newest(), x);
        }
        Ok(())
    }

    /// `detach`.
    pub(crate) fn detach(
        &mut self,
        alloc: Global,
        recency: &mut Recency,
    ) -> Result<(), AllocError> {
        self.end_update(alloc, recency)?;
        self.attached = false;
        Ok(())
    }

    /// `relabel`, of this chain.
    pub(crate) fn relabel(&mut self, to: u64) {
        if self.attached
            && let Some(version) = self.versions.last_mut()
        {
            version.phase = to;
        }
    }

    /// `snapshot`: the number of the snapshot.
    pub(crate) fn snapshot(&mut self) -> Result<usize, AllocError> {
        let number = if self.updating {
            self.newest().saturating_sub(1)
        } else {
            self.newest()
        };
        let pin = free_number(self.pins.as_slice());
        set_pin(&mut self.pins, pin, number)?;
        Ok(pin)
    }

    /// `release`.
    pub(crate) fn release(&mut self, pin: usize) {
        if pin < self.pins.len() {
            release_pin(&mut self.pins, pin);
        }
    }

    /// The number of the version that a snapshot pins.
    pub fn pinned_at(&self, pin: usize) -> Option<usize>
        ensures { IfSome result (λ number. Contains self.now.pins.items (Some number)) }
    {
        match self.pins.get(pin) {
            Some(Some(number)) => Some(*number),
            _ => None,
        }
    }

    /// The phase of the version that a snapshot pins.
    pub(crate) fn phase_of(&self, pin: usize) -> Option<u64> {
        let number = self.pinned_at(pin)?;
        match self.versions.get(number) {
            Some(version) => Some(version.phase),
            None => None,
        }
    }

    /// Whether the chain may be swept, where nothing of it is in the list.
    pub(crate) fn is_idle(&self) -> bool {
        is_cache(self.kind) && !self.updating && self.is_free()
    }

    /// `touch_key`.
    pub(crate) fn touch_key(
        &self,
        recency: &mut Recency,
        pin: usize,
        x: &Pos,
    ) -> Result<(), AllocError> {
        if let Some(last) = self.pinned_at(pin) {
            for number in 0..self.versions.len() {
                if number <= last {
                    recency.touch(self.id, number, x)?;
                }
            }
        }
        Ok(())
    }

    /// `drop_version`.
    pub(crate) fn drop_version(&mut self, alloc: Global, recency: &mut Recency, number: usize) {
        recency.take(self.id, number, &end_position(alloc));
        recency.renumber(self.id, number);
        if number < self.versions.len() {
            let _dropped = self.versions.remove(number);
        }
        self.renumber(number);
    }

    // Snapshots of newer versions have numbers less by one.
    fn renumber(&mut self, number: usize) {
        for pin in self.pins.iter_mut() {
            if let Some(pinned) = pin
                && *pinned > number
            {
                *pinned -= 1;
            }
        }
    }

    // Whether no entry of a version stands at a position.
    fn is_gap(&self, number: usize, x: &Pos) -> bool {
        match self.versions.get(number) {
            Some(version) => entry_at(version.entries.as_slice(), x).is_none(),
            None => false,
        }
    }

    /// `split`.
    pub(crate) fn split(
        &mut self,
        alloc: Global,
        recency: &mut Recency,
        number: usize,
        x: &Pos,
    ) -> Result<(), AllocError> {
        if !self.is_gap(number, x) {
            return Ok(());
        }
        if let Some(version) = self.versions.get_mut(number) {
            split_version(alloc, version, x)?;
        }
        if !is_cache(self.kind) {
            return Ok(());
        }
        recency.push(alloc, self.id, number, x)
    }

    /// `join_row`.
    pub(crate) fn join_row(
        &mut self,
        alloc: Global,
        recency: &mut Recency,
        number: usize,
        x: &Pos,
        row: &Row,
    ) -> Result<(), AllocError> {
        if let Some(version) = self.versions.get_mut(number) {
            join_entry(alloc, version, x, row)?;
        }
        if !is_cache(self.kind) {
            return Ok(());
        }
        recency.renew(alloc, self.id, number, x)
    }

    /// `join_range`.
    pub(crate) fn join_range(
        &mut self,
        alloc: Global,
        recency: &mut Recency,
        number: usize,
        from: &Pos,
        to: &Pos,
        tomb: Tomb,
    ) -> Result<(), AllocError> {
        self.split(alloc, recency, number, from)?;
        self.split(alloc, recency, number, to)?;
        match self.versions.get_mut(number) {
            Some(version) => raise_version(alloc, version, from, to, tomb),
            None => Ok(()),
        }
    }

    /// `join_static`; the flag stays where none is given.
    pub(crate) fn join_static(
        &mut self,
        alloc: Global,
        recency: &mut Recency,
        number: usize,
        row: &Row,
        flag: Option<Flag>,
    ) -> Result<(), AllocError> {
        if let Some(version) = self.versions.get_mut(number) {
            join_statics(alloc, version, row)?;
        }
        if let Some(flag) = flag {
            self.set_static_flag(number, flag);
        }
        if !is_cache(self.kind) {
            return Ok(());
        }
        recency.renew_static(self.id, number)
    }

    /// `join_pt`.
    pub(crate) fn join_pt(&mut self, number: usize, tomb: Tomb) {
        if let Some(version) = self.versions.get_mut(number) {
            version.pt = greater_tomb(version.pt, Some(tomb));
        }
    }

    /// `set_static_flag`.
    pub(crate) fn set_static_flag(&mut self, number: usize, flag: Flag) {
        if let Some(version) = self.versions.get_mut(number) {
            version.static_flag = flag;
        }
    }

    /// `set_flags`.
    pub(crate) fn set_flags(&mut self, number: usize, x: &Pos, at: Flag, gap: Flag) {
        if let Some(version) = self.versions.get_mut(number) {
            flag_entries(version, x, at, gap);
        }
    }

    /// `set_tombs`.
    pub(crate) fn set_tombs(
        &mut self,
        number: usize,
        x: &Pos,
        at: Option<Tomb>,
        gap: Option<Tomb>,
    ) {
        if let Some(version) = self.versions.get_mut(number) {
            mark_entries(version, x, at, gap);
        }
    }

    /// `drop_entry`.
    pub(crate) fn drop_entry(&mut self, recency: &mut Recency, number: usize, x: &Pos) {
        recency.take(self.id, number, x);
        if let Some(version) = self.versions.get_mut(number) {
            drop_inner(version, x);
        }
    }

    /// `drop_static`.
    pub(crate) fn drop_static(&mut self, recency: &mut Recency, number: usize) {
        recency.take_static(self.id, number);
        if let Some(version) = self.versions.get_mut(number) {
            version.statics = None;
            version.static_flag = Flag::Unknown;
        }
    }

    /// `free_one`; true where the chain goes.
    pub(crate) fn free_one(
        &mut self,
        alloc: Global,
        recency: &mut Recency,
    ) -> Result<bool, AllocError> {
        match self.oldest_inner(alloc)? {
            Some(x) => Ok(self.free_entry(recency, x)),
            None => Ok(self.free_rest(alloc, recency)),
        }
    }

    // The position of the last entry before the end of the oldest version.
    fn oldest_inner(&self, alloc: Global) -> Result<Option<Pos>, AllocError> {
        if let Some(version) = self.versions.first()
            && let Some(x) = last_inner(version.entries.as_slice())
        {
            return Ok(Some(x.copy(alloc)?));
        }
        Ok(None)
    }

    // This entry goes.
    fn free_entry(&mut self, recency: &mut Recency, x: Pos) -> bool {
        self.drop_entry(recency, 0, &x);
        if !is_cache(self.kind)
            && let Some(version) = self.versions.first_mut()
            && let Some(end) = version.entries.last_mut()
        {
            end.gap.flag = Flag::Inherit;
        }
        false
    }

    // Where no entry is left before the end of the oldest version, its static row goes, or this version.
    fn free_rest(&mut self, alloc: Global, recency: &mut Recency) -> bool {
        if !self.has_oldest_static() {
            return self.free_version(alloc, recency);
        }
        self.drop_static(recency, 0);
        if !is_cache(self.kind) {
            self.set_static_flag(0, Flag::Inherit);
        }
        false
    }

    // Whether the oldest version has a static row.
    fn has_oldest_static(&self) -> bool {
        match self.versions.first() {
            Some(version) => version.statics.is_some(),
            None => false,
        }
    }

    // The oldest version goes, or the chain with its last one.
    fn free_version(&mut self, alloc: Global, recency: &mut Recency) -> bool {
        if self.versions.len() > 1 {
            self.drop_version(alloc, recency, 0);
            return false;
        }
        recency.take(self.id, 0, &end_position(alloc));
        true
    }
}
