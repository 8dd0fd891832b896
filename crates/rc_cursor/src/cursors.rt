//! The place.
ghost use Rattle.std.specs.Prelude.{◌≡◌, IfOk, OnErr, OnOk};
ghost use Rattle.rc_core.specs.Parts.{IsFirstPart};
ghost use Rattle.rc_chain.specs.Memory.{HasPin};
ghost use Rattle.rc_stream.specs.Places.{Reaches};
ghost use Rattle.rc_stream.specs.Snapshot.{IsPartFrom, place_behind};
ghost use Rattle.rc_cursor.specs.Snapshots.{IsReadable, Knows, kind_seen, versions_seen};
ghost use Rattle.rc_cursor.specs.calls.Snapshots.{place_past};

use crate::laws::a_first_part_is_what_is_seen;
use rc_chain::{Chains, Snap};
use rc_core::Part;
use rc_position::{Pos, Weight};
use std::alloc::{AllocError, Global};

/// A place in a snapshot, which is read from there on.
#[derive(Debug, Drop)]
pub struct Cursor {
    /// Where the next part begins.
    pub last: Pos,
}

impl Cursor {
    /// A cursor at this place.
    pub fn new(at: Pos) -> Cursor
        ensures { result.last ≡ at }
    {
        Cursor { last: at }
    }

    /// The first part of what a snapshot sees from the place on, up to a bound that is not before it, whatever moved or changed since the place was reached. The place is then behind a row, or at the end of a gap; after a part that is not known, at the bound and after an error it is as before. The only error is want of memory.
    pub fn next_part<const S: usize>(
        &mut self,
        alloc: Global,
        chains: &Chains<S>,
        s: &Snap,
        upto: &Pos,
    ) -> Result<Part, AllocError>
        requires pin { HasPin chains.now s.now.chain s.now.pin }
        requires ahead { Reaches self.old.last upto.now }
        ensures first { IfOk result (IsFirstPart (kind_seen chains.now s.now) (versions_seen chains.now s.now) self.old.last upto.now) }
        ensures part { IsReadable chains.now s.now → IfOk result (IsPartFrom (Knows chains.now s.now) self.old.last upto.now) }
        ensures place { self.new.last ≡ place_behind result self.old.last }
    {
        a_first_part_is_what_is_seen();
        let part = chains.first_part(s, &self.last, upto)?;
        self.go_past(alloc, &part)?;
        Ok(part)
    }

    /// Goes on to a place that is not before its own. The only error is want of memory: then the place is as before.
    pub fn pass(&mut self, alloc: Global, to: &Pos) -> Result<(), AllocError>
        requires { Reaches self.old.last to.now }
        ensures ok { OnOk result (self.new.last ≡ to.now) }
        ensures err { OnErr result (self.new.last ≡ self.old.last) }
    {
        self.last = to.copy(alloc)?;
        Ok(())
    }

    // Goes on past a part that begins at the place: a row at the place's key, a gap. At what is not known, and at the bound, it stays.
    fn go_past(&mut self, alloc: Global, part: &Part) -> Result<(), AllocError>
        ensures ok { OnOk result (self.new.last ≡ place_past part.now self.old.last) }
        ensures err { OnErr result (self.new.last ≡ self.old.last) }
    {
        match part {
            Part::Row { .. } => self.last.weight = Weight::After,
            Part::Gap { to, .. } => self.last = to.copy(alloc)?,
            Part::Missing { .. } | Part::End => {}
        }
        Ok(())
    }
}
