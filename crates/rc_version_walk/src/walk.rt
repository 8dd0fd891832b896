//! The walk: which call comes next, and of what, by chance.

ghost use Rattle.rc_rowcode.specs.Spelling.{KeyFits};

use crate::both::{Both, begin as begin_both};
use crate::chance::Chance;
use crate::space::{some_flag, some_place, some_position, some_row, some_tomb, some_tomb_or_none};
use crate::tally::Tally;
use rc_position::Pos;
use std::alloc::{AllocError, Global};
use std::cmp::Ordering;

/// Two versions, and the chance that says what is done to them.
#[derive(Drop)]
pub(crate) struct Walk {
    /// The versions.
    pub(crate) both: Both,
    chance: Chance,
}

/// Versions of an end dummy each, the plain ones once they are started.
pub(crate) fn begin(alloc: Global, seed: u64) -> Result<Walk, AllocError> {
    Ok(Walk {
        both: begin_both(alloc)?,
        chance: Chance::new(seed),
    })
}

impl Walk {
    /// One call more, on one version or the other; then both are asked.
    pub(crate) fn step(
        &mut self,
        alloc: Global,
        positions: &[Pos],
        tally: &mut Tally,
    ) -> Result<(), AllocError> {
        self.some_turn();
        let kind = self.some_call(alloc)?;
        tally.count(kind);
        self.some_move();
        self.both.ask(alloc, positions, tally);
        tally.told()
    }

    // The next call is on the other version, or on the same.
    fn some_turn(&mut self) {
        if self.chance.happens(50) {
            self.both.turn();
        }
    }

    // A segment is emptied, or none.
    fn some_move(&mut self) {
        if self.chance.below(10) == 0 {
            self.both.move_some();
        }
    }

    // Some call; which one.
    fn some_call(&mut self, alloc: Global) -> Result<&'static str, AllocError> {
        match self.chance.below(100) {
            0 => self.renew(alloc),
            1..7 => self.split(alloc),
            7..12 => self.split_like(alloc),
            12..18 => self.join_range(alloc),
            18..26 => self.join_like(alloc),
            26..29 => self.both.join_static_like(alloc),
            29..52 => self.join_row(alloc),
            52..56 => Ok(self.join_pt()),
            56..64 => self.set_flags(alloc),
            64..72 => self.set_tombs(alloc),
            72..78 => self.set_static(alloc),
            78..82 => Ok(self.set_static_flag()),
            82..86 => Ok(self.both.drop_static()),
            _ => self.drop_entry(alloc),
        }
    }

    fn split(&mut self, alloc: Global) -> Result<&'static str, AllocError> {
        let x = some_position(alloc, &mut self.chance)?;
        self.both.split(alloc, &x)
    }

    fn split_like(&mut self, alloc: Global) -> Result<&'static str, AllocError> {
        let x = some_position(alloc, &mut self.chance)?;
        self.both.split_like(alloc, &x)
    }

    fn join_row(&mut self, alloc: Global) -> Result<&'static str, AllocError> {
        let x = some_place(alloc, &mut self.chance)?;
        self.join_row_at(alloc, &x)
    }

    fn join_row_at(&mut self, alloc: Global, x: &Pos) -> Result<&'static str, AllocError>
        requires { KeyFits x.now.prefix }
    {
        let row = some_row(alloc, &mut self.chance)?;
        self.both.join_row(alloc, x, &row)
    }

    fn join_range(&mut self, alloc: Global) -> Result<&'static str, AllocError> {
        let from = some_position(alloc, &mut self.chance)?;
        self.join_range_from(alloc, &from)
    }

    fn join_range_from(&mut self, alloc: Global, from: &Pos) -> Result<&'static str, AllocError>
        requires { KeyFits from.now.prefix }
    {
        let to = some_position(alloc, &mut self.chance)?;
        self.join_range_between(alloc, from, &to)
    }

    // The tombstone of a range between two positions, of which either may be before the other.
    fn join_range_between(
        &mut self,
        alloc: Global,
        from: &Pos,
        to: &Pos,
    ) -> Result<&'static str, AllocError>
        requires from { KeyFits from.now.prefix }
        requires to { KeyFits to.now.prefix }
    {
        let tomb = some_tomb(&mut self.chance);
        match from.cmp(to) {
            Ordering::Less => self.both.join_range(alloc, from, to, tomb),
            Ordering::Equal => Ok("nothing to do"),
            Ordering::Greater => self.both.join_range(alloc, to, from, tomb),
        }
    }

    fn join_like(&mut self, alloc: Global) -> Result<&'static str, AllocError> {
        let x = some_position(alloc, &mut self.chance)?;
        self.both.join_like(alloc, &x)
    }

    fn join_pt(&mut self) -> &'static str {
        let tomb = some_tomb(&mut self.chance);
        self.both.join_pt(tomb)
    }

    fn set_flags(&mut self, alloc: Global) -> Result<&'static str, AllocError> {
        let x = some_position(alloc, &mut self.chance)?;
        let (at, gap) = (some_flag(&mut self.chance), some_flag(&mut self.chance));
        Ok(self.both.set_flags(&x, at, gap))
    }

    fn set_tombs(&mut self, alloc: Global) -> Result<&'static str, AllocError> {
        let x = some_position(alloc, &mut self.chance)?;
        let at = some_tomb_or_none(&mut self.chance);
        let gap = some_tomb_or_none(&mut self.chance);
        Ok(self.both.set_tombs(&x, at, gap))
    }

    fn set_static(&mut self, alloc: Global) -> Result<&'static str, AllocError> {
        let row = some_row(alloc, &mut self.chance)?;
        let flag = some_flag(&mut self.chance);
        self.both.set_static(alloc, &row, flag)
    }

    fn set_static_flag(&mut self) -> &'static str {
        let flag = some_flag(&mut self.chance);
        self.both.set_static_flag(flag)
    }

    fn drop_entry(&mut self, alloc: Global) -> Result<&'static str, AllocError> {
        let x = some_position(alloc, &mut self.chance)?;
        if !self.both.drop_entry(&x) {
            return Ok("nothing to do");
        }
        Ok("drop_entry")
    }

    // A new version in the place of one.
    fn renew(&mut self, alloc: Global) -> Result<&'static str, AllocError> {
        let flag = some_flag(&mut self.chance);
        let pt = some_tomb_or_none(&mut self.chance);
        let phase = u64::from(self.chance.below(1000));
        self.both.renew(alloc, flag, pt, phase)
    }
}
