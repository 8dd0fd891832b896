//! Two versions in a region, each named by a slot, and the scratch space of the calls on them. Each call is made on the first of both.

ghost use Rattle.std.specs.Prelude.{◌≡◌};
ghost use Rattle.rc_cell.specs.declared.rows.Row.{Row};
ghost use Rattle.rc_object.specs.Objects.{IsRowCode};
ghost use Rattle.rc_position.specs.Position.{IsBefore};
ghost use Rattle.rc_rowcode.specs.Spelling.{KeyFits};
ghost use Rattle.rc_version_walk.specs.Walking.{IsPair};

use crate::asking::ask;
use crate::calls;
use crate::homes::{SEGMENT, SPACE, empty_one, settle, settle_first};
use crate::plain::PlainPair;
use crate::tally::Tally;
use lsa_region::{Region, Root};
use rc_cell::Tomb;
use rc_core::Flag;
use rc_position::{Key, Pos};
use rc_rowcode::Scratch;
use std::alloc::{AllocError, Global};
use std::marker::Model;

/// How much was moved.
#[derive(Clone, Copy)]
pub(crate) struct Moves {
    /// The objects.
    pub(crate) objects: u64,
    /// The segments that they were moved out of.
    pub(crate) segments: u64,
}

/// Two versions, the first and the second one.
#[derive(Drop)]
pub(crate) struct Pair {
    region: Region<SEGMENT>,
    first: Root,
    second: Root,
    space: Scratch,
}

impl Model for Pair {
    ghost use Rattle.lsa_region.specs.Region.{View};
    ghost use Rattle.rc_version_walk.specs.Walking.{IsPairWithSpace};

    ghost Value = { View };

    ghost view = { λ p. p.region };

    ghost invariant = { λ p. IsPairWithSpace p.first p.second p.region p.space.size };
}

// With a scratch space.
fn with_space(
    alloc: Global,
    region: Region<SEGMENT>,
    first: Root,
    second: Root,
) -> Result<Pair, AllocError>
    requires { IsPair first second region }
{
    let space = Scratch::new(alloc, SPACE)?;
    Ok(Pair {
        region,
        first,
        second,
        space,
    })
}

impl Pair {
    /// Two versions of an end dummy each, in a region of four segments.
    pub(crate) fn open(alloc: Global) -> Result<Self, AllocError> {
        let mut region = Region::<SEGMENT>::open(alloc, 4)?;
        let this = region.add_root(alloc)?;
        let other = region.add_root(alloc)?;
        settle_first(&mut region, this, other, Flag::Inherit);
        settle(&mut region, this, other, Flag::Known, None, 0);
        with_space(alloc, region, this, other)
    }

    /// How much was moved.
    pub(crate) fn moves(&self) -> Moves {
        Moves {
            objects: self.region.moved(),
            segments: self.region.compacted(),
        }
    }

    /// The second one is the first one from now on.
    pub(crate) fn turn(&mut self) {
        let first = self.first;
        self.first = self.second;
        self.second = first;
    }

    /// Empties a segment, where one is sparse.
    pub(crate) fn move_some(&mut self) {
        let _emptied = empty_one(&mut self.region, self.first, self.second);
    }

    /// Asks both versions what they say, beside the plain ones.
    pub(crate) fn ask(
        &self,
        alloc: Global,
        plain: &PlainPair,
        positions: &[Pos],
        tally: &mut Tally,
    ) {
        ask(
            alloc,
            &self.region,
            self.first,
            self.second,
            &plain.first,
            positions,
            tally,
        );
        ask(
            alloc,
            &self.region,
            self.second,
            self.first,
            &plain.second,
            positions,
            tally,
        );
    }

    /// `split`.
    pub(crate) fn split(&mut self, x: &Pos) -> bool
        requires { KeyFits x.now.prefix }
    {
        calls::split(
            &mut self.region,
            self.first,
            self.second,
            x,
            &mut self.space,
        )
    }

    /// `split_like`.
    pub(crate) fn split_like(&mut self, x: &Pos) -> bool {
        calls::split_like(
            &mut self.region,
            self.first,
            self.second,
            x,
            &mut self.space,
        )
    }

    /// `join_row`.
    pub(crate) fn join_row(&mut self, key: &Key, code: &[u8]) -> bool
        requires limits { KeyFits key.now }
        requires code { (row : Row) × IsRowCode code.now row }
    {
        calls::join_row(
            &mut self.region,
            self.first,
            self.second,
            key,
            code,
            &mut self.space,
        )
    }

    /// `join_range`.
    pub(crate) fn join_range(&mut self, from: &Pos, to: &Pos, tomb: Tomb) -> bool
        requires from { KeyFits from.now.prefix }
        requires to { KeyFits to.now.prefix }
        requires ascend { IsBefore from.now to.now }
    {
        calls::join_range(
            &mut self.region,
            self.first,
            self.second,
            from,
            to,
            tomb,
            &mut self.space,
        )
    }

    /// `join_like`, with an entry of the second version.
    pub(crate) fn join_like(&mut self, x: &Pos) -> bool {
        calls::join_like(
            &mut self.region,
            self.first,
            self.second,
            x,
            &mut self.space,
        )
    }

    /// `join_like`, with its static row.
    pub(crate) fn join_static_like(&mut self) -> bool {
        calls::join_static_like(&mut self.region, self.first, self.second, &mut self.space)
    }

    /// `join_pt`.
    pub(crate) fn join_pt(&mut self, tomb: Tomb) {
        calls::join_pt(&mut self.region, self.first, self.second, tomb);
    }

    /// `set_flags`.
    pub(crate) fn set_flags(&mut self, x: &Pos, at: Flag, gap: Flag) -> bool {
        calls::set_flags(&mut self.region, self.first, self.second, x, at, gap)
    }

    /// `set_tombs`.
    pub(crate) fn set_tombs(&mut self, x: &Pos, at: Option<Tomb>, gap: Option<Tomb>) -> bool {
        calls::set_tombs(&mut self.region, self.first, self.second, x, at, gap)
    }

    /// `set_static`.
    pub(crate) fn set_static(&mut self, code: &[u8], flag: Flag) -> bool
        requires { (row : Row) × IsRowCode code.now row }
    {
        calls::set_static(&mut self.region, self.first, self.second, code, flag)
    }

    /// `set_static_flag`.
    pub(crate) fn set_static_flag(&mut self, flag: Flag) {
        calls::set_static_flag(&mut self.region, self.first, self.second, flag);
    }

    /// `drop_static`.
    pub(crate) fn drop_static(&mut self) {
        calls::drop_static(&mut self.region, self.first, self.second);
    }

    /// `drop_entry`.
    pub(crate) fn drop_entry(&mut self, x: &Pos) -> bool {
        calls::drop_entry(&mut self.region, self.first, self.second, x)
    }

    /// `free_version`, and `new_version`.
    pub(crate) fn renew(&mut self, flag: Flag, pt: Option<Tomb>, phase: u64) -> bool {
        calls::renew(&mut self.region, self.first, self.second, flag, pt, phase)
    }
}
