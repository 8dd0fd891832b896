//! The walk: which call comes next, and of what, by chance.

ghost use Rattle.rc_rowcode.specs.Spelling.{KeyFits};

use crate::both::{Both, begin as begin_both};
use crate::chance::Chance;
use crate::space::{some_flag, some_place, some_position, some_row, some_tomb, some_tomb_or_none};
use crate::tally::Tally;
use rc_chain::ChainKind;
use rc_chain_guarded::Numbered;
use rc_position::Pos;
use std::alloc::{AllocError, Global};
use std::cmp::Ordering;

/// Up to how many chains are there.
const MOST_CHAINS: usize = 3;

/// Up to how many versions one has.
const MOST_VERSIONS: usize = 6;

/// The chains, and the chance that says what is done to them.
#[derive(Drop)]
pub(crate) struct Walk {
    /// The chains in the region, and the plain ones.
    pub(crate) both: Both,
    chance: Chance,
}

/// No chain.
pub(crate) fn begin(alloc: Global, seed: u64) -> Result<Walk, AllocError> {
    Ok(Walk {
        both: begin_both(alloc)?,
        chance: Chance::new(seed),
    })
}

impl Walk {
    /// One call more; then both are asked for what was touched, and now and then for all, at these positions.
    pub(crate) fn step(
        &mut self,
        alloc: Global,
        positions: &[Pos],
        tally: &mut Tally,
    ) -> Result<(), AllocError> {
        self.call(alloc, tally)?;
        let all = self.chance.below(16) == 0;
        self.both.ask(alloc, all, positions, tally)
    }

    // One call more: now and then one that frees a chain that is not found by its key.
    fn call(&mut self, alloc: Global, tally: &mut Tally) -> Result<(), AllocError> {
        match self.both.plain().detached() {
            Some(id) if self.chance.happens(25) => self.both.fade(alloc, id, tally),
            _ => self.go_on(alloc, tally),
        }
    }

    // Some call, or one that brings a bare version nearer to being dropped.
    fn go_on(&mut self, alloc: Global, tally: &mut Tally) -> Result<(), AllocError> {
        match self.both.bare() {
            Some(bare) if self.chance.happens(40) => self.ripen(alloc, bare, tally),
            _ => self.some_call(alloc, tally),
        }
    }

    // A version is put over a bare one and pinned, and the bare one is dropped.
    fn ripen(
        &mut self,
        alloc: Global,
        bare: Numbered,
        tally: &mut Tally,
    ) -> Result<(), AllocError> {
        let id = bare.chain;
        self.both.turn_to(id);
        if (self.versions(id) as u64) < bare.version.saturating_add(2) {
            self.both.end_update(alloc, id, tally)?;
            return self.add_version(alloc, id, true, tally);
        }
        if self.chance.happens(50) {
            self.both.snapshot(id, tally)
        } else {
            Ok(self.both.drop_version(alloc, tally))
        }
    }

    // Some call.
    fn some_call(&mut self, alloc: Global, tally: &mut Tally) -> Result<(), AllocError> {
        let lot = self.chance.below(100);
        match lot {
            0..16 => self.on_chains(alloc, lot, tally),
            16..31 => self.on_uses(alloc, lot, tally),
            31..50 => self.on_lists(alloc, lot, tally),
            50..72 => self.on_marks(alloc, lot, tally),
            _ => self.on_rows(alloc, lot, tally),
        }
    }

    // ---- chances

    // How many versions a chain has.
    fn versions(&self, id: u64) -> usize {
        self.both.plain().versions(id)
    }

    // Some chain; a number of no chain where none is there.
    fn some_chain(&mut self) -> u64 {
        let index = self.chance.index(self.both.plain().chains.len());
        let id = match self.both.plain().chains.get(index) {
            Some(chain) => chain.id,
            None => u64::MAX,
        };
        self.both.turn_to(id);
        id
    }

    // Some version, the newest one more often than others.
    fn some_version(&mut self) -> Numbered {
        let chain = self.some_chain();
        let versions = self.versions(chain);
        let version = if self.chance.happens(40) {
            versions.saturating_sub(1)
        } else {
            self.chance.index(versions)
        };
        Numbered {
            chain,
            version: version as u64,
        }
    }

    // Some phase.
    fn some_phase(&mut self) -> u64 {
        u64::from(self.chance.below(1000))
    }

    // The index of some snapshot.
    fn some_snapshot(&mut self) -> usize {
        self.chance.index(self.both.snapshots())
    }

    // ---- chains as a whole

    fn on_chains(&mut self, alloc: Global, lot: u32, tally: &mut Tally) -> Result<(), AllocError> {
        match lot {
            0..2 => self.new_chain(alloc, tally),
            2 => self.short_life(alloc, tally),
            3..8 => {
                let (id, stays) = (self.some_chain(), self.both.bare().is_some());
                self.add_version(alloc, id, stays, tally)
            }
            8..11 => {
                let id = self.some_chain();
                self.both.end_update(alloc, id, tally)
            }
            11 => self.on_end(alloc, tally),
            12 => {
                let id = self.some_chain();
                self.both.free_one(alloc, id, tally)
            }
            _ => Ok(self.both.drop_version(alloc, tally)),
        }
    }

    // A chain is detached, or swept.
    fn on_end(&mut self, alloc: Global, tally: &mut Tally) -> Result<(), AllocError> {
        let id = self.some_chain();
        if self.chance.happens(30) {
            self.both.detach(alloc, id, tally)
        } else {
            self.both.sweep(id, tally)
        }
    }

    // A new chain, of which the end dummies leave the list, so that it may be swept.
    fn short_life(&mut self, alloc: Global, tally: &mut Tally) -> Result<(), AllocError> {
        self.new_chain(alloc, tally)?;
        let chain = self.both.touched();
        for version in 0..self.versions(chain) {
            let version = version as u64;
            self.both
                .unlist_end(alloc, Numbered { chain, version }, tally);
        }
        self.both.sweep(chain, tally)
    }

    fn new_chain(&mut self, alloc: Global, tally: &mut Tally) -> Result<(), AllocError> {
        if self.both.plain().chains.len() >= MOST_CHAINS {
            return Ok(());
        }
        let kind = if self.chance.happens(65) {
            ChainKind::Cache
        } else {
            ChainKind::Memtable
        };
        let phase = self.some_phase();
        let pt = some_tomb_or_none(&mut self.chance);
        self.both.new_chain(alloc, kind, phase, pt, tally)
    }

    fn add_version(
        &mut self,
        alloc: Global,
        id: u64,
        stays: bool,
        tally: &mut Tally,
    ) -> Result<(), AllocError> {
        if self.versions(id) >= MOST_VERSIONS {
            return Ok(());
        }
        let phase = self.some_phase();
        self.both.add_version(alloc, id, phase, stays, tally)
    }

    // ---- snapshots, marks of chains, and counts

    fn on_uses(&mut self, alloc: Global, lot: u32, tally: &mut Tally) -> Result<(), AllocError> {
        match lot {
            16..19 => {
                let id = self.some_chain();
                self.both.snapshot(id, tally)
            }
            19..21 => {
                let index = self.some_snapshot();
                Ok(self.both.release(index, tally))
            }
            21..26 => self.touch_key(alloc, tally),
            26 => {
                let to = self.some_phase();
                Ok(self.both.relabel(to, tally))
            }
            27 => Ok(self.set_passed(tally)),
            28..30 => Ok(self.count(tally)),
            _ => Ok(self.both.take_dropped(tally)),
        }
    }

    fn touch_key(&mut self, alloc: Global, tally: &mut Tally) -> Result<(), AllocError> {
        let index = self.some_snapshot();
        let x = some_place(alloc, &mut self.chance)?;
        self.both.touch_key(index, &x, tally)
    }

    fn set_passed(&mut self, tally: &mut Tally) {
        let id = self.some_chain();
        let passed = self.chance.happens(50);
        self.both.set_passed(id, passed, tally);
    }

    fn count(&mut self, tally: &mut Tally) {
        let evicted = u64::from(self.chance.below(9));
        let skipped = u64::from(self.chance.below(9));
        let shrunk = if self.chance.happens(1) {
            u64::MAX
        } else {
            self.some_phase()
        };
        self.both.count(evicted, skipped, shrunk, tally);
    }

    // ---- the list, and moves

    fn on_lists(&mut self, alloc: Global, lot: u32, tally: &mut Tally) -> Result<(), AllocError> {
        match lot {
            31..35 => {
                let at = self.some_version();
                self.both.list_end(alloc, at, tally)
            }
            35..39 => {
                let at = self.some_version();
                Ok(self.both.unlist_end(alloc, at, tally))
            }
            39..41 => self.unlist_last(alloc, tally),
            41..46 => self.touch(alloc, tally),
            46 => Ok(self.both.ensure(tally)),
            _ => Ok(self.both.compact_one(tally)),
        }
    }

    fn unlist_last(&mut self, alloc: Global, tally: &mut Tally) -> Result<(), AllocError> {
        let id = self.some_chain();
        if self.versions(id) >= MOST_VERSIONS {
            return Ok(());
        }
        let phase = self.some_phase();
        let x = some_position(alloc, &mut self.chance)?;
        self.both.unlist_last(alloc, id, phase, &x, tally)
    }

    fn touch(&mut self, alloc: Global, tally: &mut Tally) -> Result<(), AllocError> {
        let at = self.some_version();
        let x = some_position(alloc, &mut self.chance)?;
        self.both.touch(alloc, at, &x, tally)
    }

    // ---- marks of one version

    fn on_marks(&mut self, alloc: Global, lot: u32, tally: &mut Tally) -> Result<(), AllocError> {
        let at = self.some_version();
        match lot {
            50..54 => self.split(alloc, at, tally),
            54..59 => self.set_flags(alloc, at, tally),
            59..62 => self.set_tombs(alloc, at, tally),
            62..66 => self.drop_entry(alloc, at, tally),
            66 => Ok(self.both.drop_static(at, tally)),
            67..69 => {
                let tomb = some_tomb(&mut self.chance);
                Ok(self.both.join_pt(at, tomb, tally))
            }
            _ => {
                let flag = some_flag(&mut self.chance);
                Ok(self.both.set_static_flag(at, flag, tally))
            }
        }
    }

    fn split(&mut self, alloc: Global, at: Numbered, tally: &mut Tally) -> Result<(), AllocError> {
        let x = some_position(alloc, &mut self.chance)?;
        self.both.split(alloc, at, &x, tally)
    }

    fn set_flags(
        &mut self,
        alloc: Global,
        at: Numbered,
        tally: &mut Tally,
    ) -> Result<(), AllocError> {
        let x = some_position(alloc, &mut self.chance)?;
        let (on, gap) = (some_flag(&mut self.chance), some_flag(&mut self.chance));
        self.both.set_flags(alloc, at, &x, on, gap, tally)
    }

    fn set_tombs(
        &mut self,
        alloc: Global,
        at: Numbered,
        tally: &mut Tally,
    ) -> Result<(), AllocError> {
        let x = some_position(alloc, &mut self.chance)?;
        let on = some_tomb_or_none(&mut self.chance);
        let gap = some_tomb_or_none(&mut self.chance);
        self.both.set_tombs(alloc, at, &x, on, gap, tally)
    }

    fn drop_entry(
        &mut self,
        alloc: Global,
        at: Numbered,
        tally: &mut Tally,
    ) -> Result<(), AllocError> {
        let x = some_position(alloc, &mut self.chance)?;
        self.both.drop_entry(alloc, at, &x, tally)
    }

    // ---- rows and ranges

    fn on_rows(&mut self, alloc: Global, lot: u32, tally: &mut Tally) -> Result<(), AllocError> {
        match lot {
            72..81 => self.join_row(alloc, tally),
            81..86 => self.join_static(alloc, tally),
            86..90 => self.join_range(alloc, tally),
            90..94 => self.join_like(alloc, tally),
            94..96 => self.join_static_like(alloc, tally),
            _ => self.split_like(alloc, tally),
        }
    }

    fn join_row(&mut self, alloc: Global, tally: &mut Tally) -> Result<(), AllocError> {
        let to = self.some_version();
        let x = some_place(alloc, &mut self.chance)?;
        self.join_some_row(alloc, to, &x, tally)
    }

    fn join_some_row(
        &mut self,
        alloc: Global,
        to: Numbered,
        x: &Pos,
        tally: &mut Tally,
    ) -> Result<(), AllocError>
        requires { KeyFits x.now.prefix }
    {
        let row = some_row(alloc, &mut self.chance)?;
        self.both.join_row(alloc, to, x, &row, tally)
    }

    fn join_static(&mut self, alloc: Global, tally: &mut Tally) -> Result<(), AllocError> {
        let to = self.some_version();
        let row = some_row(alloc, &mut self.chance)?;
        let flag = some_flag(&mut self.chance);
        self.both.join_static(alloc, to, &row, flag, tally)
    }

    fn join_range(&mut self, alloc: Global, tally: &mut Tally) -> Result<(), AllocError> {
        let from = some_position(alloc, &mut self.chance)?;
        self.join_range_from(alloc, &from, tally)
    }

    fn join_range_from(
        &mut self,
        alloc: Global,
        from: &Pos,
        tally: &mut Tally,
    ) -> Result<(), AllocError>
        requires { KeyFits from.now.prefix }
    {
        let to = some_position(alloc, &mut self.chance)?;
        match from.cmp(&to) {
            Ordering::Less => self.join_between(alloc, from, &to, tally),
            Ordering::Equal => Ok(()),
            Ordering::Greater => self.join_between(alloc, &to, from, tally),
        }
    }

    fn join_between(
        &mut self,
        alloc: Global,
        from: &Pos,
        to: &Pos,
        tally: &mut Tally,
    ) -> Result<(), AllocError>
        requires from { KeyFits from.now.prefix }
        requires to { KeyFits to.now.prefix }
    {
        let at = self.some_version();
        let tomb = some_tomb(&mut self.chance);
        self.both.join_range(alloc, at, from, to, tomb, tally)
    }

    fn join_like(&mut self, alloc: Global, tally: &mut Tally) -> Result<(), AllocError> {
        let from = self.some_version();
        let to = self.some_version();
        let x = some_place(alloc, &mut self.chance)?;
        self.join_some_row_like(alloc, to, from, &x, tally)
    }

    fn join_some_row_like(
        &mut self,
        alloc: Global,
        to: Numbered,
        from: Numbered,
        x: &Pos,
        tally: &mut Tally,
    ) -> Result<(), AllocError>
        requires { KeyFits x.now.prefix }
    {
        let row = some_row(alloc, &mut self.chance)?;
        self.both.join_like(alloc, to, from, x, &row, tally)
    }

    fn join_static_like(&mut self, alloc: Global, tally: &mut Tally) -> Result<(), AllocError> {
        let to = self.some_version();
        let id = self.some_chain();
        if self.versions(id) >= MOST_VERSIONS {
            return Ok(());
        }
        let phase = self.some_phase();
        let row = some_row(alloc, &mut self.chance)?;
        let flag = some_flag(&mut self.chance);
        self.both
            .join_static_like(alloc, to, id, phase, &row, flag, tally)
    }

    fn split_like(&mut self, alloc: Global, tally: &mut Tally) -> Result<(), AllocError> {
        let from = self.some_version();
        let to = self.some_version();
        let x = some_position(alloc, &mut self.chance)?;
        self.both.split_like(alloc, to, from, &x, tally)
    }
}
