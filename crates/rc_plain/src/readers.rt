//! Open readers: what each has not given yet.

ghost use Rattle.std.specs.Prelude.{◌≡◌, ℕ, ◌<◌, ◌==◌, List, length, take, drop, nat_lt, IfOk, OnErr, position};

use rc_query::{Lines, OutLine};
use std::alloc::{AllocError, Global};
use std::marker::Model;

/// The lines of a reader's answer, of which some are given. A contract sees those that are left.
#[derive(Drop)]
pub(crate) struct Rest {
    lines: Lines,
    given: usize,
}

impl Model for Rest {
    ghost use Rattle.std.specs.Prelude.{List, ℕ, ◌≤◌, drop, length};
    ghost use Rattle.rc_query.specs.declared.lines.OutLine.{OutLine};

    ghost Value = { List OutLine };

    ghost view = { λ r. drop r.given r.lines };

    ghost invariant = { λ r. r.given ≤ length r.lines };
}

impl Rest {
    /// All of an answer's lines.
    pub(crate) fn new(lines: Lines) -> Self
        ensures { result ≡ lines }
    {
        Rest { lines, given: 0 }
    }

    /// Gives the first lines that are left, at most `count`, and whether there are more behind them. Want of memory gives none.
    pub(crate) fn give(&mut self, alloc: Global, count: u32) -> Result<(Lines, bool), AllocError>
        ensures given { IfOk result (λ gave. gave.0 ≡ take count self.old) }
        ensures more { IfOk result (λ gave. gave.1 ≡ nat_lt count (length self.old)) }
        ensures left { IfOk result (λ gave. self.new ≡ drop count self.old) }
        ensures err { OnErr result (self.new ≡ self.old) }
    {
        let lines = self.lines.as_slice();
        let left = lines.len() - self.given;
        let more = (count as usize) < left;
        let giving = if more { count as usize } else { left };
        let end = self.given + giving;
        let gave = Lines::from_slice(alloc, &lines[self.given..end])?;
        self.given = end;
        Ok((gave, more))
    }
}

/// The place of the reader with an id.
pub(crate) fn place_of(readers: &[(u32, Rest)], id: u32) -> Option<usize>
    ensures { result ≡ position (λ reader. reader.0 == id) readers.now }
{
    readers.iter().position(|reader| reader.0 == id)
}
