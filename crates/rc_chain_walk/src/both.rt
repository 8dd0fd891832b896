//! The chains in a region and the plain ones beside them: each call is made on both.

ghost use Rattle.rc_rowcode.specs.Spelling.{KeyFits, RowFits};

use crate::asking::{ask_chains, ask_sums};
use crate::plain_calls::{
    drop_entry, join_like, list_end, set_flags, set_tombs, split_both, take_snapshot, touch,
    turn_to_static, unlist_last,
};
use crate::tally::Tally;
use crate::turning::turn_round;
use rc_cell::{Row, Tomb};
use rc_chain::{ChainKind, Chains};
use rc_chain_guarded::{
    Held, Known, Numbered, SEGMENT, changes, empty_one, has_room, likes, lists, lives, rows, snaps,
};
use rc_core::Flag;
use rc_plain_chains::PlainMemory;
use rc_position::Pos;
use std::alloc::{AllocError, Global};
use std::cmp::Ordering;
use std::marker::Model;

/// How much was moved.
#[derive(Clone, Copy)]
pub(crate) struct Moves {
    /// The objects.
    pub(crate) objects: u64,
    /// The segments that they were moved out of.
    pub(crate) segments: u64,
}

/// Up to how many snapshots are held.
const MOST_SNAPSHOTS: usize = 6;

/// The chains in a region, and the plain ones.
#[derive(Drop)]
pub(crate) struct Both {
    chains: Chains<SEGMENT>,
    known: Known,
    plain: PlainMemory,
    touched: u64,
}

impl Model for Both {
    ghost use Rattle.rc_memory.specs.Memory.{Memory};
    ghost use Rattle.rc_chain_guarded.specs.Guarded.{IsTracked};

    ghost Value = { Memory };

    ghost view = { λ b. b.chains };

    ghost invariant = { λ b. IsTracked b.chains b.known };
}

/// No chain, in a region of six segments.
pub(crate) fn begin(alloc: Global) -> Result<Both, AllocError> {
    Ok(Both {
        chains: Chains::open(alloc, 6)?,
        known: Known::new(alloc),
        plain: PlainMemory::new(alloc),
        touched: 0,
    })
}

impl Both {
    /// How much was moved.
    pub(crate) fn moves(&self) -> Moves {
        let region = self.chains.region();
        Moves {
            objects: region.moved(),
            segments: region.compacted(),
        }
    }

    /// The plain chains.
    pub(crate) fn plain(&self) -> &PlainMemory {
        &self.plain
    }

    /// How many snapshots are held.
    pub(crate) fn snapshots(&self) -> usize {
        self.known.held.len()
    }

    /// The version that is known as bare.
    pub(crate) fn bare(&self) -> Option<Numbered> {
        self.known.bare
    }

    /// The chain that the next call is of, or the last one was.
    pub(crate) fn touched(&self) -> u64 {
        self.touched
    }

    /// The next call is of a chain.
    pub(crate) fn turn_to(&mut self, id: u64) {
        self.touched = id;
    }

    /// Asks for what was touched, or for all.
    pub(crate) fn ask(
        &mut self,
        alloc: Global,
        all: bool,
        positions: &[Pos],
        tally: &mut Tally,
    ) -> Result<(), AllocError> {
        let touched = if all { None } else { Some(self.touched) };
        ask_sums(&self.chains, &self.plain, tally);
        ask_chains(
            alloc,
            &self.chains,
            &self.known,
            &self.plain,
            touched,
            positions,
            tally,
        )?;
        if !all {
            return Ok(());
        }
        turn_round(
            alloc,
            &mut self.chains,
            &self.known,
            &self.plain.recency,
            tally,
        )
    }

    // ---- chains as a whole

    /// A chain that is not found by its key is freed bit by bit, once its snapshots are taken back.
    pub(crate) fn fade(
        &mut self,
        alloc: Global,
        id: u64,
        tally: &mut Tally,
    ) -> Result<(), AllocError> {
        self.touched = id;
        match held_of(self.known.held.as_slice(), id) {
            Some(index) => Ok(self.release(index, tally)),
            None => self.free_one(alloc, id, tally),
        }
    }

    /// `new_chain`.
    pub(crate) fn new_chain(
        &mut self,
        alloc: Global,
        kind: ChainKind,
        phase: u64,
        pt: Option<Tomb>,
        tally: &mut Tally,
    ) -> Result<(), AllocError> {
        let made = lives::new_chain(&mut self.chains, &mut self.known, kind, phase, pt)?;
        tally.made("new_chain", made.is_some());
        match made {
            Some(id) => {
                self.touched = id;
                tally.expect(!self.plain.has_number(id), "the number of a new chain");
                self.plain.new_chain(alloc, id, kind, phase, pt)
            }
            None => Ok(()),
        }
    }

    /// `add_version`.
    pub(crate) fn add_version(
        &mut self,
        alloc: Global,
        id: u64,
        phase: u64,
        stays: bool,
        tally: &mut Tally,
    ) -> Result<(), AllocError> {
        let made = lives::add_version(&mut self.chains, &mut self.known, id, phase, stays);
        tally.made("add_version", made);
        if !made {
            return Ok(());
        }
        self.plain.add_version(alloc, id, phase)
    }

    /// `end_update`.
    pub(crate) fn end_update(
        &mut self,
        alloc: Global,
        id: u64,
        tally: &mut Tally,
    ) -> Result<(), AllocError> {
        let made = lives::end_update(&mut self.chains, &mut self.known, id);
        tally.made("end_update", made);
        if !made {
            return Ok(());
        }
        self.plain.end_update(alloc, id)
    }

    /// `detach`.
    pub(crate) fn detach(
        &mut self,
        alloc: Global,
        id: u64,
        tally: &mut Tally,
    ) -> Result<(), AllocError> {
        let made = lives::detach(&mut self.chains, &mut self.known, id);
        tally.made("detach", made);
        if !made {
            return Ok(());
        }
        self.plain.detach(alloc, id)
    }

    /// `sweep`.
    pub(crate) fn sweep(&mut self, id: u64, tally: &mut Tally) -> Result<(), AllocError> {
        let made = lives::sweep(&mut self.chains, &mut self.known, id);
        tally.made("sweep", made);
        if !made {
            return Ok(());
        }
        self.plain.sweep(id)
    }

    /// `free_one`.
    pub(crate) fn free_one(
        &mut self,
        alloc: Global,
        id: u64,
        tally: &mut Tally,
    ) -> Result<(), AllocError> {
        let made = lives::free_one(&mut self.chains, &mut self.known, id);
        tally.made("free_one", made);
        if !made {
            return Ok(());
        }
        self.plain.free_one(alloc, id)
    }

    /// `drop_version`, of the bare one.
    pub(crate) fn drop_version(&mut self, alloc: Global, tally: &mut Tally) {
        let dropped = lives::drop_version(&mut self.chains, &mut self.known);
        tally.made("drop_version", dropped.is_some());
        if let Some(bare) = dropped {
            self.touched = bare.chain;
            self.plain
                .drop_version(alloc, bare.chain, bare.version as usize);
        }
    }

    // ---- snapshots, marks of chains, and counts

    /// `snapshot`.
    pub(crate) fn snapshot(&mut self, id: u64, tally: &mut Tally) -> Result<(), AllocError> {
        if self.known.held.len() >= MOST_SNAPSHOTS {
            return Ok(());
        }
        let taken = snaps::snapshot(&mut self.chains, &mut self.known, id)?;
        tally.made("snapshot", taken.is_some());
        match taken {
            Some(held) => take_snapshot(&mut self.plain, id, held, tally),
            None => Ok(()),
        }
    }

    /// `release`, of the snapshot at an index.
    pub(crate) fn release(&mut self, index: usize, tally: &mut Tally) {
        let released = snaps::release(&mut self.chains, &mut self.known, index);
        tally.made("release", released.is_some());
        if let Some(held) = released {
            self.touched = held.chain;
            self.plain.release(held.chain, held.pin);
        }
    }

    /// `touch_key`, by the snapshot at an index, of the key of a row's position.
    pub(crate) fn touch_key(
        &mut self,
        index: usize,
        x: &Pos,
        tally: &mut Tally,
    ) -> Result<(), AllocError> {
        let touched = snaps::touch_key(&mut self.chains, &self.known, index, &x.prefix);
        tally.made("touch_key", touched.is_some());
        match touched {
            Some(held) => {
                self.touched = held.chain;
                self.plain.touch_key(held.chain, held.pin, x)
            }
            None => Ok(()),
        }
    }

    /// `relabel`.
    pub(crate) fn relabel(&mut self, to: u64, tally: &mut Tally) {
        lives::relabel(&mut self.chains, &mut self.known, to);
        tally.count("relabel");
        self.plain.relabel(to);
    }

    /// `set_passed`.
    pub(crate) fn set_passed(&mut self, id: u64, passed: bool, tally: &mut Tally) {
        let made = lives::set_passed(&mut self.chains, &self.known, id, passed);
        tally.made("set_passed", made);
        if made {
            self.plain.set_passed(id, passed);
        }
    }

    /// `count`.
    pub(crate) fn count(&mut self, evicted: u64, skipped: u64, shrunk: u64, tally: &mut Tally) {
        lives::count(&mut self.chains, &self.known, evicted, skipped, shrunk);
        tally.count("count");
        self.plain.count(evicted, skipped, shrunk);
    }

    /// `take_dropped`.
    pub(crate) fn take_dropped(&mut self, tally: &mut Tally) {
        let told = lives::take_dropped(&mut self.chains, &self.known);
        tally.count("take_dropped");
        tally.expect(
            told == self.plain.take_dropped(),
            "the number of a dropped chain",
        );
    }

    // ---- the list, and moves

    /// `ensure`.
    pub(crate) fn ensure(&mut self, tally: &mut Tally) {
        tally.made("ensure", has_room(&mut self.chains, &self.known));
    }

    /// `compact_one`.
    pub(crate) fn compact_one(&mut self, tally: &mut Tally) {
        tally.made("compact_one", empty_one(&mut self.chains, &self.known));
    }

    /// `list`, of an end dummy.
    pub(crate) fn list_end(
        &mut self,
        alloc: Global,
        at: Numbered,
        tally: &mut Tally,
    ) -> Result<(), AllocError> {
        let made = lists::list_end(alloc, &mut self.chains, &mut self.known, at);
        tally.made("list", made);
        if !made {
            return Ok(());
        }
        list_end(alloc, &mut self.plain, at, tally)
    }

    /// `unlist`, of an end dummy.
    pub(crate) fn unlist_end(&mut self, alloc: Global, at: Numbered, tally: &mut Tally) {
        let made = lists::unlist_end(alloc, &mut self.chains, &mut self.known, at);
        tally.made("unlist, of an end dummy", made);
        if made {
            let listed = self.plain.unlist_end(alloc, at.chain, at.version as usize);
            tally.expect(listed, "is_listed");
        }
    }

    /// `unlist`, of the dummy at an update's place.
    pub(crate) fn unlist_last(
        &mut self,
        alloc: Global,
        id: u64,
        phase: u64,
        x: &Pos,
        tally: &mut Tally,
    ) -> Result<(), AllocError>
        requires { KeyFits x.now.prefix }
    {
        let made = lists::unlist_last(alloc, &mut self.chains, &mut self.known, id, phase, x);
        tally.made("unlist, of the dummy at an update's place", made);
        if !made {
            return Ok(());
        }
        unlist_last(alloc, &mut self.plain, id, phase, x, tally)
    }

    /// `touch`.
    pub(crate) fn touch(
        &mut self,
        alloc: Global,
        at: Numbered,
        x: &Pos,
        tally: &mut Tally,
    ) -> Result<(), AllocError>
        requires { KeyFits x.now.prefix }
    {
        let touched = lists::touch(&mut self.chains, &mut self.known, at, x);
        tally.made("touch", touched == Some(true));
        match touched {
            Some(listed) => touch(alloc, &mut self.plain, at, x, listed, tally),
            None => Ok(()),
        }
    }

    // ---- marks of one version

    /// `split`.
    pub(crate) fn split(
        &mut self,
        alloc: Global,
        at: Numbered,
        x: &Pos,
        tally: &mut Tally,
    ) -> Result<(), AllocError>
        requires { KeyFits x.now.prefix }
    {
        let made = changes::split(&mut self.chains, &mut self.known, at, x);
        tally.made("split", made);
        if !made {
            return Ok(());
        }
        self.plain.split(alloc, at.chain, at.version as usize, x)
    }

    /// `set_flags`.
    pub(crate) fn set_flags(
        &mut self,
        alloc: Global,
        at: Numbered,
        x: &Pos,
        on: Flag,
        gap: Flag,
        tally: &mut Tally,
    ) -> Result<(), AllocError>
        requires { KeyFits x.now.prefix }
    {
        let made = changes::set_flags(&mut self.chains, &mut self.known, at, x, on, gap);
        tally.made("set_flags", made);
        if !made {
            return Ok(());
        }
        set_flags(alloc, &mut self.plain, at, x, on, gap)
    }

    /// `set_tombs`.
    pub(crate) fn set_tombs(
        &mut self,
        alloc: Global,
        at: Numbered,
        x: &Pos,
        on: Option<Tomb>,
        gap: Option<Tomb>,
        tally: &mut Tally,
    ) -> Result<(), AllocError>
        requires { KeyFits x.now.prefix }
    {
        let made = changes::set_tombs(&mut self.chains, &mut self.known, at, x, on, gap);
        tally.made("set_tombs", made);
        if !made {
            return Ok(());
        }
        set_tombs(alloc, &mut self.plain, at, x, on, gap)
    }

    /// `drop_entry`.
    pub(crate) fn drop_entry(
        &mut self,
        alloc: Global,
        at: Numbered,
        x: &Pos,
        tally: &mut Tally,
    ) -> Result<(), AllocError>
        requires { KeyFits x.now.prefix }
    {
        let made = changes::drop_entry(alloc, &mut self.chains, &mut self.known, at, x);
        tally.made("drop_entry", made);
        if !made {
            return Ok(());
        }
        drop_entry(alloc, &mut self.plain, at, x)
    }

    /// `drop_static`.
    pub(crate) fn drop_static(&mut self, at: Numbered, tally: &mut Tally) {
        let made = changes::drop_static(&mut self.chains, &mut self.known, at);
        tally.made("drop_static", made);
        if made {
            self.plain.drop_static(at.chain, at.version as usize);
        }
    }

    /// `join_pt`.
    pub(crate) fn join_pt(&mut self, at: Numbered, tomb: Tomb, tally: &mut Tally) {
        let made = changes::join_pt(&mut self.chains, &mut self.known, at, tomb);
        tally.made("join_pt", made);
        if made {
            self.plain.join_pt(at.chain, at.version as usize, tomb);
        }
    }

    /// `set_static_flag`.
    pub(crate) fn set_static_flag(&mut self, at: Numbered, flag: Flag, tally: &mut Tally) {
        let made = changes::set_static_flag(&mut self.chains, &mut self.known, at, flag);
        tally.made("set_static_flag", made);
        if made {
            self.plain
                .set_static_flag(at.chain, at.version as usize, flag);
        }
    }

    // ---- rows and ranges

    /// `join_row`, at the key of a row's position.
    pub(crate) fn join_row(
        &mut self,
        alloc: Global,
        at: Numbered,
        x: &Pos,
        row: &Row,
        tally: &mut Tally,
    ) -> Result<(), AllocError>
        requires place { KeyFits x.now.prefix }
        requires row { RowFits row.now }
    {
        let made = rows::join_row(&mut self.chains, &mut self.known, at, &x.prefix, row);
        tally.made("join_row", made.is_some());
        if made.is_none() {
            return Ok(());
        }
        self.plain
            .join_row(alloc, at.chain, at.version as usize, x, row)
    }

    /// `join_static`.
    pub(crate) fn join_static(
        &mut self,
        alloc: Global,
        at: Numbered,
        row: &Row,
        flag: Flag,
        tally: &mut Tally,
    ) -> Result<(), AllocError>
        requires { RowFits row.now }
    {
        let made = rows::join_static(&mut self.chains, &mut self.known, at, row, flag);
        tally.made("join_static", made);
        if !made {
            return Ok(());
        }
        self.plain
            .join_static(alloc, at.chain, at.version as usize, row, Some(flag))
    }

    /// `join_range`, where the one position is before the other.
    pub(crate) fn join_range(
        &mut self,
        alloc: Global,
        at: Numbered,
        from: &Pos,
        to: &Pos,
        tomb: Tomb,
        tally: &mut Tally,
    ) -> Result<(), AllocError>
        requires from { KeyFits from.now.prefix }
        requires to { KeyFits to.now.prefix }
    {
        match from.cmp(to) {
            Ordering::Less => {}
            Ordering::Equal | Ordering::Greater => return Ok(()),
        }
        let made = rows::join_range(&mut self.chains, &mut self.known, at, from, to, tomb);
        tally.made("join_range", made);
        if !made {
            return Ok(());
        }
        self.plain
            .join_range(alloc, at.chain, at.version as usize, from, to, tomb)
    }

    /// `join_like`, of the entry at a row's position.
    pub(crate) fn join_like(
        &mut self,
        alloc: Global,
        to: Numbered,
        from: Numbered,
        x: &Pos,
        row: &Row,
        tally: &mut Tally,
    ) -> Result<(), AllocError>
        requires place { KeyFits x.now.prefix }
        requires row { RowFits row.now }
    {
        let made = likes::join_like(&mut self.chains, &mut self.known, to, from, &x.prefix, row);
        tally.made("join_like, of an entry", made);
        if !made {
            return Ok(());
        }
        join_like(alloc, &mut self.plain, to, from, x, row)
    }

    /// `join_like`, of a static row.
    pub(crate) fn join_static_like(
        &mut self,
        alloc: Global,
        to: Numbered,
        id: u64,
        phase: u64,
        row: &Row,
        flag: Flag,
        tally: &mut Tally,
    ) -> Result<(), AllocError>
        requires { RowFits row.now }
    {
        let (chains, known) = (&mut self.chains, &mut self.known);
        let turns = likes::join_static_like(chains, known, to, id, phase, row, flag);
        tally.made("join_like, of a static row", turns.is_some());
        match turns {
            Some(turns) => {
                turn_to_static(alloc, &mut self.plain, id, phase, row, flag, turns, tally)?;
                self.plain
                    .join_static(alloc, to.chain, to.version as usize, row, None)
            }
            None => Ok(()),
        }
    }

    /// `split_like`.
    pub(crate) fn split_like(
        &mut self,
        alloc: Global,
        to: Numbered,
        from: Numbered,
        x: &Pos,
        tally: &mut Tally,
    ) -> Result<(), AllocError>
        requires { KeyFits x.now.prefix }
    {
        let made = likes::split_like(&mut self.chains, &mut self.known, to, from, x);
        tally.made("split_like", made);
        if !made {
            return Ok(());
        }
        split_both(alloc, &mut self.plain, to, from, x)
    }
}

// The index of the first snapshot of a chain.
fn held_of(all: &[Held], id: u64) -> Option<usize> {
    for (index, held) in all.iter().enumerate() {
        if held.chain == id {
            return Some(index);
        }
    }
    None
}
