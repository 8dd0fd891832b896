//! One piece of range tombstones.

ghost use Rattle.std.specs.Prelude.{◌≡◌, IfOk};

use rc_cell::Tomb;
use rc_position::Pos;
use std::alloc::{AllocError, Global};

/// A tombstone over the positions from `from` on and before `to`.
#[derive(Drop)]
pub struct Piece {
    /// The first position that it covers.
    pub from: Pos,
    /// The first position behind it.
    pub to: Pos,
    /// The tombstone.
    pub tomb: Tomb,
}

impl Piece {
    /// An equal piece. The only error is want of memory.
    pub fn copy(&self, alloc: Global) -> Result<Self, AllocError>
        ensures { IfOk result (λ p. p ≡ self.now) }
    {
        Piece::new(alloc, &self.from, &self.to, self.tomb)
    }

    // The piece between copies of two positions.
    pub(crate) fn new(alloc: Global, from: &Pos, to: &Pos, tomb: Tomb) -> Result<Self, AllocError>
        ensures { IfOk result (λ p. p ≡ record { from = from.now; to = to.now; tomb = tomb }) }
    {
        Ok(Piece {
            from: from.copy(alloc)?,
            to: to.copy(alloc)?,
            tomb,
        })
    }
}
