//! Slices of a partition.

ghost use Rattle.std.specs.Prelude.{◌≡◌, IfOk};
ghost use Rattle.rc_position.specs.Position.{covers};

use crate::positions::Pos;
use std::alloc::{AllocError, Global};

/// The positions of a partition from `from` on and before `to`.
#[derive(Debug, Drop)]
pub struct Slice {
    /// The first position that is in it.
    pub from: Pos,
    /// The first position behind it.
    pub to: Pos,
}

impl Slice {
    /// Whether it has the position: `from <= x` and `x < to`.
    pub fn has(&self, x: &Pos) -> bool
        ensures { result ≡ covers self.now.from self.now.to x.now }
    {
        self.from <= *x && *x < self.to
    }

    /// An equal slice. The only error is want of memory.
    pub fn copy(&self, alloc: Global) -> Result<Self, AllocError>
        ensures { IfOk result (λ s. s ≡ self.now) }
    {
        Ok(Slice {
            from: self.from.copy(alloc)?,
            to: self.to.copy(alloc)?,
        })
    }
}
