//! All plain chains, with the recency list and what is to be told.

ghost use Rattle.std.specs.Prelude.{◌≡◌, []};
ghost use Rattle.rc_plain_chains.specs.Plain.{CountsNothing, ListsNothing, TellsNothing};

use crate::chains::{PlainChain, is_cache};
use crate::places::{Recency, end_position};
use rc_cell::{Row, Tomb};
use rc_core::{ChainKind, Entry, Flag};
use rc_position::Pos;
use std::alloc::{AllocError, Global};

/// What a shard keeps, as plain values.
#[derive(Drop)]
pub struct PlainMemory {
    /// The chains.
    pub chains: Vec<PlainChain>,
    /// The recency list.
    pub recency: Recency,
    /// The numbers of dropped chains, the first one first.
    pub dropped: Vec<u64>,
    /// The counts: evicted, skipped, shrunk.
    pub counts: (u64, u64, u64),
}

// The chain of a number, to be changed.
fn with_id(chains: &mut [PlainChain], id: u64) -> Option<&mut PlainChain> {
    for chain in chains.iter_mut() {
        if chain.id == id {
            return Some(chain);
        }
    }
    None
}

// The chain of a number.
fn chain_of(chains: &[PlainChain], id: u64) -> Option<&PlainChain> {
    for chain in chains {
        if chain.id == id {
            return Some(chain);
        }
    }
    None
}

// The row of an entry at a position, where one stands there and has one.
fn row_of<'a>(entries: &'a [Entry], x: &Pos) -> Option<&'a Row> {
    for entry in entries {
        if *x == entry.position {
            return entry.row.as_ref();
        }
    }
    None
}

// The index of the chain of a number.
fn index_of(chains: &[PlainChain], id: u64) -> Option<usize> {
    for (index, chain) in chains.iter().enumerate() {
        if chain.id == id {
            return Some(index);
        }
    }
    None
}

// A snapshot of a chain: its number, and the phase of the version that it pins.
fn take_snapshot(chain: &mut PlainChain) -> Result<Option<(u64, u64)>, AllocError> {
    let pin = chain.snapshot()?;
    match chain.phase_of(pin) {
        Some(phase) => Ok(Some((pin as u64, phase))),
        None => Ok(None),
    }
}

impl PlainMemory {
    /// No chain.
    pub fn new(alloc: Global) -> Self
        ensures chains { result.chains.items ≡ [] }
        ensures recency { result.recency.places.items ≡ [] }
        ensures dropped { result.dropped.items ≡ [] }
    {
        PlainMemory {
            chains: Vec::new(alloc),
            recency: Recency::new(alloc),
            dropped: Vec::new(alloc),
            counts: (0, 0, 0),
        }
    }

    /// How many versions a chain has.
    pub fn versions(&self, id: u64) -> usize {
        match chain_of(self.chains.as_slice(), id) {
            Some(chain) => chain.versions.len(),
            None => 0,
        }
    }

    /// A chain that is not found by its key, the first one.
    pub fn detached(&self) -> Option<u64> {
        for chain in &self.chains {
            if !chain.attached {
                return Some(chain.id);
            }
        }
        None
    }

    /// Whether a chain of a number is there, or was and is to be told.
    pub fn has_number(&self, id: u64) -> bool {
        chain_of(self.chains.as_slice(), id).is_some() || self.dropped.contains(&id)
    }

    /// `new_chain`, of this number: a chain of one version of its end dummy alone.
    pub fn new_chain(
        &mut self,
        alloc: Global,
        id: u64,
        kind: ChainKind,
        phase: u64,
        pt: Option<Tomb>,
    ) -> Result<(), AllocError>
        ensures { TellsNothing self.old self.new }
    {
        if is_cache(kind) {
            self.recency.push_end(alloc, id, 0)?;
        }
        self.chains
            .push(PlainChain::new(alloc, id, kind, phase, pt)?)?;
        Ok(())
    }

    /// `add_version`: a version of its end dummy alone is put over those of a chain.
    pub fn add_version(&mut self, alloc: Global, id: u64, phase: u64) -> Result<(), AllocError>
        ensures { TellsNothing self.old self.new }
    {
        match with_id(self.chains.as_mut_slice(), id) {
            Some(chain) => chain.add_version(alloc, phase),
            None => Ok(()),
        }
    }

    /// `end_update`: what is out of the recency list goes to its back.
    pub fn end_update(&mut self, alloc: Global, id: u64) -> Result<(), AllocError>
        ensures { TellsNothing self.old self.new }
    {
        match with_id(self.chains.as_mut_slice(), id) {
            Some(chain) => chain.end_update(alloc, &mut self.recency),
            None => Ok(()),
        }
    }

    /// `detach`: as `end_update`, and the chain is no longer found by its key.
    pub fn detach(&mut self, alloc: Global, id: u64) -> Result<(), AllocError>
        ensures { TellsNothing self.old self.new }
    {
        match with_id(self.chains.as_mut_slice(), id) {
            Some(chain) => chain.detach(alloc, &mut self.recency),
            None => Ok(()),
        }
    }

    /// `relabel`: another phase for the newest version of each chain that is found by its key.
    pub fn relabel(&mut self, to: u64)
        ensures told { TellsNothing self.old self.new }
        ensures listed { ListsNothing self.old self.new }
    {
        for chain in self.chains.iter_mut() {
            chain.relabel(to);
        }
    }

    /// `snapshot`: its number, and the phase of the version that it pins.
    pub fn snapshot(&mut self, id: u64) -> Result<Option<(u64, u64)>, AllocError>
        ensures { TellsNothing self.old self.new }
    {
        match with_id(self.chains.as_mut_slice(), id) {
            Some(chain) => take_snapshot(chain),
            None => Ok(None),
        }
    }

    /// `release`: the number of a snapshot is free.
    pub fn release(&mut self, id: u64, pin: u64)
        ensures told { TellsNothing self.old self.new }
        ensures listed { ListsNothing self.old self.new }
    {
        if let Some(chain) = with_id(self.chains.as_mut_slice(), id) {
            chain.release(pin as usize);
        }
    }

    /// `set_passed`: the mark of the cleaner.
    pub fn set_passed(&mut self, id: u64, passed: bool)
        ensures told { TellsNothing self.old self.new }
        ensures listed { ListsNothing self.old self.new }
    {
        if let Some(chain) = with_id(self.chains.as_mut_slice(), id) {
            chain.passed = passed;
        }
    }

    /// `count`: each count grows, up to 2^64 - 1.
    pub fn count(&mut self, evicted: u64, skipped: u64, shrunk: u64)
        ensures chains { self.new.chains ≡ self.old.chains }
        ensures listed { ListsNothing self.old self.new }
        ensures told { self.new.dropped ≡ self.old.dropped }
    {
        let counts = self.counts;
        self.counts = (
            counts.0.saturating_add(evicted),
            counts.1.saturating_add(skipped),
            counts.2.saturating_add(shrunk),
        );
    }

    /// `take_dropped`: the first number that is to be told, which is told.
    pub fn take_dropped(&mut self) -> Option<u64>
        ensures chains { self.new.chains ≡ self.old.chains }
        ensures listed { ListsNothing self.old self.new }
        ensures counted { CountsNothing self.old self.new }
    {
        if self.dropped.is_empty() {
            return None;
        }
        Some(self.dropped.remove(0))
    }

    /// `sweep`: a cache chain that nobody pins, in which no update stands, and of which nothing is in the list, goes.
    pub fn sweep(&mut self, id: u64) -> Result<(), AllocError>
        ensures { CountsNothing self.old self.new }
    {
        if self.recency.has_any(id) || !self.is_idle(id) {
            return Ok(());
        }
        self.close(id)
    }

    // Whether a chain may be swept, where nothing of it is in the list.
    fn is_idle(&self, id: u64) -> bool {
        match chain_of(self.chains.as_slice(), id) {
            Some(chain) => chain.is_idle(),
            None => false,
        }
    }

    // A chain goes, and is to be told.
    fn close(&mut self, id: u64) -> Result<(), AllocError>
        ensures { CountsNothing self.old self.new }
    {
        if let Some(index) = index_of(self.chains.as_slice(), id)
            && index < self.chains.len()
        {
            let _closed = self.chains.remove(index);
        }
        self.dropped.push(id)?;
        Ok(())
    }

    /// `free_one`: an object of a chain goes, and with the last one the chain.
    pub fn free_one(&mut self, alloc: Global, id: u64) -> Result<(), AllocError>
        ensures { CountsNothing self.old self.new }
    {
        if !self.free_object(alloc, id)? {
            return Ok(());
        }
        self.close(id)
    }

    // An object of a chain goes; true where the chain goes with it.
    fn free_object(&mut self, alloc: Global, id: u64) -> Result<bool, AllocError>
        ensures { CountsNothing self.old self.new }
    {
        match with_id(self.chains.as_mut_slice(), id) {
            Some(chain) => chain.free_one(alloc, &mut self.recency),
            None => Ok(false),
        }
    }

    /// `drop_version`: newer versions have numbers less by one then, also in snapshots and places.
    pub fn drop_version(&mut self, alloc: Global, id: u64, number: usize)
        ensures { TellsNothing self.old self.new }
    {
        if let Some(chain) = with_id(self.chains.as_mut_slice(), id) {
            chain.drop_version(alloc, &mut self.recency, number);
        }
    }

    /// `list`, of the end dummy of a version; false where it is in the list.
    pub fn list_end(&mut self, alloc: Global, id: u64, number: usize) -> Result<bool, AllocError>
        ensures { TellsNothing self.old self.new }
    {
        let off = !self.recency.has(id, number, &end_position(alloc));
        self.recency.push_end(alloc, id, number)?;
        Ok(off)
    }

    /// `unlist`, of the end dummy of a version; false where it is out of the list.
    pub fn unlist_end(&mut self, alloc: Global, id: u64, number: usize) -> bool
        ensures { TellsNothing self.old self.new }
    {
        self.recency.take(id, number, &end_position(alloc))
    }

    /// `unlist`, of the entry of a version; false where it is out of the list.
    pub fn unlist(&mut self, id: u64, number: usize, x: &Pos) -> bool
        ensures { TellsNothing self.old self.new }
    {
        self.recency.take(id, number, x)
    }

    /// `touch`, of an entry; false where it is out of the list.
    pub fn touch(&mut self, id: u64, number: usize, x: &Pos) -> Result<bool, AllocError>
        ensures { TellsNothing self.old self.new }
    {
        self.recency.touch(id, number, x)
    }

    /// `touch_key`: the entries at a position, of the versions that a snapshot sees, go to the back of the list, where they are in it.
    pub fn touch_key(&mut self, id: u64, pin: u64, x: &Pos) -> Result<(), AllocError>
        ensures { TellsNothing self.old self.new }
    {
        match with_id(self.chains.as_mut_slice(), id) {
            Some(chain) => chain.touch_key(&mut self.recency, pin as usize, x),
            None => Ok(()),
        }
    }

    /// Turns the list until the static row of a version is first: how many turns it took.
    pub fn turn_to_static(&mut self, id: u64, number: usize) -> Result<u64, AllocError>
        ensures { TellsNothing self.old self.new }
    {
        self.recency.turn_to(id, number)
    }

    /// `split`: a dummy at a position, where no entry stands there.
    pub fn split(
        &mut self,
        alloc: Global,
        id: u64,
        number: usize,
        x: &Pos,
    ) -> Result<(), AllocError>
        ensures { TellsNothing self.old self.new }
    {
        match with_id(self.chains.as_mut_slice(), id) {
            Some(chain) => chain.split(alloc, &mut self.recency, number, x),
            None => Ok(()),
        }
    }

    /// `set_flags`, of the entry at a position.
    pub fn set_flags(&mut self, id: u64, number: usize, x: &Pos, at: Flag, gap: Flag)
        ensures told { TellsNothing self.old self.new }
        ensures listed { ListsNothing self.old self.new }
    {
        if let Some(chain) = with_id(self.chains.as_mut_slice(), id) {
            chain.set_flags(number, x, at, gap);
        }
    }

    /// `set_tombs`, of the entry at a position.
    pub fn set_tombs(
        &mut self,
        id: u64,
        number: usize,
        x: &Pos,
        at: Option<Tomb>,
        gap: Option<Tomb>,
    )
        ensures told { TellsNothing self.old self.new }
        ensures listed { ListsNothing self.old self.new }
    {
        if let Some(chain) = with_id(self.chains.as_mut_slice(), id) {
            chain.set_tombs(number, x, at, gap);
        }
    }

    /// `drop_entry`, of the entry at a position, where it is not the end dummy.
    pub fn drop_entry(&mut self, id: u64, number: usize, x: &Pos)
        ensures { TellsNothing self.old self.new }
    {
        if let Some(chain) = with_id(self.chains.as_mut_slice(), id) {
            chain.drop_entry(&mut self.recency, number, x);
        }
    }

    /// `drop_static`: the flag is Unknown then.
    pub fn drop_static(&mut self, id: u64, number: usize)
        ensures { TellsNothing self.old self.new }
    {
        if let Some(chain) = with_id(self.chains.as_mut_slice(), id) {
            chain.drop_static(&mut self.recency, number);
        }
    }

    /// `join_pt`: the greater partition tombstone stands.
    pub fn join_pt(&mut self, id: u64, number: usize, tomb: Tomb)
        ensures told { TellsNothing self.old self.new }
        ensures listed { ListsNothing self.old self.new }
    {
        if let Some(chain) = with_id(self.chains.as_mut_slice(), id) {
            chain.join_pt(number, tomb);
        }
    }

    /// `set_static_flag`, also where there is no static row.
    pub fn set_static_flag(&mut self, id: u64, number: usize, flag: Flag)
        ensures told { TellsNothing self.old self.new }
        ensures listed { ListsNothing self.old self.new }
    {
        if let Some(chain) = with_id(self.chains.as_mut_slice(), id) {
            chain.set_static_flag(number, flag);
        }
    }

    /// `join_row`, at a position: an entry is made where there is none.
    pub fn join_row(
        &mut self,
        alloc: Global,
        id: u64,
        number: usize,
        x: &Pos,
        row: &Row,
    ) -> Result<(), AllocError>
        ensures { TellsNothing self.old self.new }
    {
        match with_id(self.chains.as_mut_slice(), id) {
            Some(chain) => chain.join_row(alloc, &mut self.recency, number, x, row),
            None => Ok(()),
        }
    }

    /// `join_static`; the flag stays where none is given.
    pub fn join_static(
        &mut self,
        alloc: Global,
        id: u64,
        number: usize,
        row: &Row,
        flag: Option<Flag>,
    ) -> Result<(), AllocError>
        ensures { TellsNothing self.old self.new }
    {
        match with_id(self.chains.as_mut_slice(), id) {
            Some(chain) => chain.join_static(alloc, &mut self.recency, number, row, flag),
            None => Ok(()),
        }
    }

    /// `join_range`: both ends are split, and what is between them raised.
    pub fn join_range(
        &mut self,
        alloc: Global,
        id: u64,
        number: usize,
        from: &Pos,
        to: &Pos,
        tomb: Tomb,
    ) -> Result<(), AllocError>
        ensures { TellsNothing self.old self.new }
    {
        match with_id(self.chains.as_mut_slice(), id) {
            Some(chain) => chain.join_range(alloc, &mut self.recency, number, from, to, tomb),
            None => Ok(()),
        }
    }

    /// The row of a version at a position, where an entry stands there and has one.
    pub fn row_at(
        &self,
        alloc: Global,
        id: u64,
        number: usize,
        x: &Pos,
    ) -> Result<Option<Row>, AllocError> {
        if let Some(chain) = chain_of(self.chains.as_slice(), id)
            && let Some(version) = chain.versions.get(number)
            && let Some(row) = row_of(version.entries.as_slice(), x)
        {
            return Ok(Some(row.copy(alloc)?));
        }
        Ok(None)
    }
}
