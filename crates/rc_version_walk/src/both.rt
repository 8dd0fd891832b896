//! The two versions in the region and the plain ones beside them: each call is made on both. What is answered is which call was made.

ghost use Rattle.std.specs.Prelude.{IfOk};
ghost use Rattle.rc_object.specs.Objects.{IsRowCode};
ghost use Rattle.rc_rowcode.specs.Spelling.{KeyFits, RowFits};

use crate::pair::{Moves, Pair};
use crate::plain;
use crate::plain::PlainPair;
use crate::space::POSITIONS;
use crate::tally::Tally;
use rc_cell::{Row, Tomb};
use rc_core::Flag;
use rc_position::Pos;
use rc_rowcode::write_row;
use std::alloc::{AllocError, Global};
use std::cmp::Ordering;

/// Two versions in the region, and the plain ones.
#[derive(Drop)]
pub(crate) struct Both {
    pair: Pair,
    plain: PlainPair,
}

/// Versions of an end dummy each in the region, and plain ones that have none yet.
pub(crate) fn begin(alloc: Global) -> Result<Both, AllocError> {
    Ok(Both {
        pair: Pair::open(alloc)?,
        plain: PlainPair::bare(alloc),
    })
}

// Which call was made, where there was memory for the plain one.
fn told(kind: &'static str, made: Result<(), AllocError>) -> Result<&'static str, AllocError> {
    match made {
        Ok(()) => Ok(kind),
        Err(error) => Err(error),
    }
}

// The code of a row.
fn code_of(alloc: Global, row: &Row) -> Result<Vec<u8>, AllocError>
    requires { RowFits row.now }
    ensures { IfOk result (λ code. IsRowCode code.items row.now) }
{
    let mut code = Vec::new(alloc);
    write_row(alloc, row, &mut code)?;
    Ok(code)
}

impl Both {
    /// The plain versions get an end dummy each.
    pub(crate) fn start(&mut self, alloc: Global) -> Result<(), AllocError> {
        self.plain.start(alloc)
    }

    /// How much was moved.
    pub(crate) fn moves(&self) -> Moves {
        self.pair.moves()
    }

    /// Asks what all of them say.
    pub(crate) fn ask(&self, alloc: Global, positions: &[Pos], tally: &mut Tally) {
        self.pair.ask(alloc, &self.plain, positions, tally);
    }

    /// The second version is the first one from now on.
    pub(crate) fn turn(&mut self) {
        self.pair.turn();
        self.plain.turn();
    }

    /// Empties a segment, where one is sparse.
    pub(crate) fn move_some(&mut self) {
        self.pair.move_some();
    }

    /// `split`.
    pub(crate) fn split(&mut self, alloc: Global, x: &Pos) -> Result<&'static str, AllocError>
        requires { KeyFits x.now.prefix }
    {
        if !self.pair.split(x) {
            return Ok("no room");
        }
        told("split", self.plain.split(alloc, x))
    }

    /// `split_like`.
    pub(crate) fn split_like(
        &mut self,
        alloc: Global,
        x: &Pos,
    ) -> Result<&'static str, AllocError> {
        if !self.pair.split_like(x) {
            return Ok("no room");
        }
        told("split_like", self.plain.split_like(alloc, x))
    }

    /// `join_row`, at the key of a row's position.
    pub(crate) fn join_row(
        &mut self,
        alloc: Global,
        x: &Pos,
        row: &Row,
    ) -> Result<&'static str, AllocError>
        requires place { KeyFits x.now.prefix }
        requires row { RowFits row.now }
    {
        match self.put_row(alloc, x, row) {
            Ok(true) => told("join_row", self.plain.join_row(alloc, x, row)),
            Ok(false) => Ok("no room"),
            Err(error) => Err(error),
        }
    }

    // In the region.
    fn put_row(&mut self, alloc: Global, x: &Pos, row: &Row) -> Result<bool, AllocError>
        requires place { KeyFits x.now.prefix }
        requires row { RowFits row.now }
    {
        let code = code_of(alloc, row)?;
        Ok(self.pair.join_row(&x.prefix, code.as_slice()))
    }

    /// `join_range`, where the one position is before the other.
    pub(crate) fn join_range(
        &mut self,
        alloc: Global,
        from: &Pos,
        to: &Pos,
        tomb: Tomb,
    ) -> Result<&'static str, AllocError>
        requires from { KeyFits from.now.prefix }
        requires to { KeyFits to.now.prefix }
    {
        if !self.put_range(from, to, tomb) {
            return Ok("no room");
        }
        told("join_range", self.plain.join_range(alloc, from, to, tomb))
    }

    // In the region.
    fn put_range(&mut self, from: &Pos, to: &Pos, tomb: Tomb) -> bool
        requires from { KeyFits from.now.prefix }
        requires to { KeyFits to.now.prefix }
    {
        match from.cmp(to) {
            Ordering::Less => self.pair.join_range(from, to, tomb),
            Ordering::Equal | Ordering::Greater => false,
        }
    }

    /// `join_like`, with an entry of the second version.
    pub(crate) fn join_like(&mut self, alloc: Global, x: &Pos) -> Result<&'static str, AllocError> {
        if !self.pair.join_like(x) {
            return Ok("nothing to do");
        }
        told("join_like, of an entry", self.plain.join_like(alloc, x))
    }

    /// `join_like`, with its static row.
    pub(crate) fn join_static_like(&mut self, alloc: Global) -> Result<&'static str, AllocError> {
        if !self.pair.join_static_like() {
            return Ok("nothing to do");
        }
        told(
            "join_like, of a static row",
            self.plain.join_static_like(alloc),
        )
    }

    /// `join_pt`.
    pub(crate) fn join_pt(&mut self, tomb: Tomb) -> &'static str {
        self.pair.join_pt(tomb);
        self.plain.join_pt(tomb);
        "join_pt"
    }

    /// `set_flags`.
    pub(crate) fn set_flags(&mut self, x: &Pos, at: Flag, gap: Flag) -> &'static str {
        if !self.pair.set_flags(x, at, gap) {
            return "nothing to do";
        }
        plain::set_flags(self.plain.first.entries.as_mut_slice(), x, at, gap);
        "set_flags"
    }

    /// `set_tombs`.
    pub(crate) fn set_tombs(
        &mut self,
        x: &Pos,
        at: Option<Tomb>,
        gap: Option<Tomb>,
    ) -> &'static str {
        if !self.pair.set_tombs(x, at, gap) {
            return "nothing to do";
        }
        plain::set_tombs(self.plain.first.entries.as_mut_slice(), x, at, gap);
        "set_tombs"
    }

    /// `set_static`.
    pub(crate) fn set_static(
        &mut self,
        alloc: Global,
        row: &Row,
        flag: Flag,
    ) -> Result<&'static str, AllocError>
        requires { RowFits row.now }
    {
        match self.put_static(alloc, row, flag) {
            Ok(true) => told("set_static", self.plain.set_static(alloc, row, flag)),
            Ok(false) => Ok("no room"),
            Err(error) => Err(error),
        }
    }

    // In the region.
    fn put_static(&mut self, alloc: Global, row: &Row, flag: Flag) -> Result<bool, AllocError>
        requires { RowFits row.now }
    {
        let code = code_of(alloc, row)?;
        Ok(self.pair.set_static(code.as_slice(), flag))
    }

    /// `set_static_flag`.
    pub(crate) fn set_static_flag(&mut self, flag: Flag) -> &'static str {
        self.pair.set_static_flag(flag);
        self.plain.first.static_flag = flag;
        "set_static_flag"
    }

    /// `drop_static`.
    pub(crate) fn drop_static(&mut self) -> &'static str {
        self.pair.drop_static();
        self.plain.drop_static();
        "drop_static"
    }

    /// `drop_entry`: the entry at a position, or else the next one, is taken out; false where that is the end dummy.
    pub(crate) fn drop_entry(&mut self, x: &Pos) -> bool {
        let drops = self.pair.drop_entry(x);
        if drops {
            plain::drop_entry(&mut self.plain.first.entries, x);
        }
        drops
    }

    /// All entries but the end dummy are taken out, and the version is freed and made anew.
    pub(crate) fn renew(
        &mut self,
        alloc: Global,
        flag: Flag,
        pt: Option<Tomb>,
        phase: u64,
    ) -> Result<&'static str, AllocError> {
        self.drop_entries(alloc);
        if !self.pair.renew(flag, pt, phase) {
            return Ok("no room");
        }
        told(
            "new_version and free_version",
            self.plain.renew(alloc, flag, pt, phase),
        )
    }

    // As many entries are taken out as may stand before the end dummy, where they are there.
    fn drop_entries(&mut self, alloc: Global) {
        let start = plain::start_position(alloc);
        for _ in 0..POSITIONS {
            self.drop_entry(&start);
        }
    }
}
