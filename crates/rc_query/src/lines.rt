//! The lines that a reader is given.

ghost use Rattle.std.specs.Prelude.{◌≡◌, [], ◌++◌, IfOk, take};

use crate::shown::Shown;
use rc_position::Key;
use std::alloc::{AllocError, Global};
use std::marker::Model;

/// One line of a reader's answer.
#[derive(Drop)]
pub enum OutLine {
    /// The static row, with its live values.
    Static(Shown),
    /// The row of a clustering key, with its live values, none where the row lives by its marker alone.
    Row(Key, Shown),
}

impl OutLine {
    /// An equal line of its own memory. The only error is want of memory.
    pub fn copy(&self, alloc: Global) -> Result<Self, AllocError>
        ensures { IfOk result (λ line. line ≡ self.now) }
    {
        match self {
            OutLine::Static(shown) => Ok(OutLine::Static(shown.copy(alloc)?)),
            OutLine::Row(key, shown) => {
                let key = key.copy(alloc)?;
                let shown = shown.copy(alloc)?;
                Ok(OutLine::Row(key, shown))
            }
        }
    }
}

/// The lines that a reader is given, in order. A contract sees the list of the lines.
#[derive(Drop)]
pub struct Lines {
    items: Vec<OutLine>,
}

impl Model for Lines {
    ghost use Rattle.std.specs.Prelude.{List};
    ghost use Rattle.rc_query.specs.declared.lines.OutLine.{OutLine};

    ghost Value = { List OutLine };

    ghost view = { λ l. l.items.items };
}

impl Lines {
    /// No lines.
    pub fn empty(alloc: Global) -> Self
        ensures { result ≡ [] }
    {
        Lines {
            items: Vec::new(alloc),
        }
    }

    /// These lines, which are copied. The only error is want of memory.
    pub fn from_slice(alloc: Global, items: &[OutLine]) -> Result<Self, AllocError>
        ensures { IfOk result (λ lines. lines ≡ items.now) }
    {
        let mut copies = Vec::with_capacity(alloc, items.len())?;
        for line in items {
            copies.push(line.copy(alloc)?)?;
        }
        Ok(Lines { items: copies })
    }

    // These lines.
    pub(crate) fn of(items: Vec<OutLine>) -> Self
        ensures { result ≡ items.items }
    {
        Lines { items }
    }

    /// The lines in order.
    pub fn as_slice(&self) -> &[OutLine]
        ensures { result.now ≡ self.now }
    {
        self.items.as_slice()
    }

    /// Equal lines of their own memory. The only error is want of memory.
    pub fn copy(&self, alloc: Global) -> Result<Self, AllocError>
        ensures { IfOk result (λ lines. lines ≡ self.now) }
    {
        Lines::from_slice(alloc, self.as_slice())
    }
}
