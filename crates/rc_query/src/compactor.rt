//! Lines made of the fragments of one partition.

ghost use Rattle.std.specs.Prelude.{◌≡◌, [], ◌∷◌, IfOk, OnOk, OnErr};
ghost use Rattle.rc_query.specs.Answer.{static_line};
ghost use Rattle.rc_query.specs.Compacting.{fragment_line};
ghost use Rattle.rc_mutation.specs.Fragments.{tomb_after};

use crate::answers::{line_of_row, line_of_statics};
use crate::lines::OutLine;
use rc_cell::Tomb;
use rc_mutation::{Frag, Head, greater_tomb};
use std::alloc::{AllocError, Global};
use std::marker::Model;

/// Makes the lines of one partition out of its head and its fragments, put in one after another. A contract sees the head
/// and the range tombstone in force.
#[derive(Drop)]
pub struct Compactor {
    head: Head,
    tomb: Option<Tomb>,
}

impl Model for Compactor {
    ghost use Rattle.std.specs.Prelude.{Option};
    ghost use Rattle.rc_cell.specs.declared.writes.Tomb.{Tomb};
    ghost use Rattle.rc_mutation.specs.declared.fragments.Head.{Head};

    ghost Value = { Head × Option Tomb };

    ghost view = { λ c. (c.head, c.tomb) };
}

impl Compactor {
    /// A compactor under this head, with no range tombstone in force. The only error is want of memory.
    pub fn new(alloc: Global, head: &Head) -> Result<Self, AllocError>
        ensures { IfOk result (λ compactor. compactor ≡ (head.now, None)) }
    {
        let head = head.copy(alloc)?;
        Ok(Compactor { head, tomb: None })
    }

    /// The static line, none exactly where no static cell is live above the partition tombstone. The only error is want of
    /// memory.
    pub fn first(&self, alloc: Global) -> Result<Option<OutLine>, AllocError>
        ensures { IfOk result (λ line. line ≡ static_line self.now.0.pt (self.now.0.statics ∷ [])) }
    {
        line_of_statics(alloc, self.head.pt, &self.head.statics)
    }

    /// Takes in one more fragment, and gives the line of a row: none exactly where the fragment is no row, or the row has
    /// neither a live value nor a marker above its cover. A change is in force from then on. The only error is want of
    /// memory, which leaves the compactor as it was.
    pub fn put(&mut self, alloc: Global, frag: &Frag) -> Result<Option<OutLine>, AllocError>
        ensures line { IfOk result (λ line. line ≡ fragment_line self.old.0.pt self.old.1 frag.now) }
        ensures state { OnOk result (self.new ≡ (self.old.0, tomb_after self.old.1 frag.now)) }
        ensures err { OnErr result (self.new ≡ self.old) }
    {
        match frag {
            Frag::Row(key, row) => {
                let outer = greater_tomb(self.head.pt, self.tomb);
                line_of_row(alloc, outer, key, row)
            }
            Frag::Change(_, tomb) => {
                self.tomb = *tomb;
                Ok(None)
            }
            _ => Ok(None),
        }
    }
}
