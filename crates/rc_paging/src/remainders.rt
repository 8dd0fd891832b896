// What is left of a slice behind the lines that were given of it.
ghost use Rattle.std.specs.Prelude.{◌≡◌, IfOk, OnOk, OnErr, option_copied};
ghost use Rattle.rc_position.specs.Position.{row_pos};
ghost use Rattle.rc_paging.specs.Remainders.{given_before};
ghost use Rattle.rc_paging.specs.calls.Remainders.{after_lines, last_of};

use rc_opened::begins_static;
use rc_position::{Key, Pos, Slice, Weight};
use rc_query::OutLine;
use std::alloc::{AllocError, Global};

/// What is left of a slice behind the lines that were given of it: it begins at the row of the last one, so that a later reading finds its place there.
#[derive(Debug, Drop)]
pub struct Remainder {
    /// The slice, from the last row on of which the line was given.
    pub slice: Slice,
    /// Whether the static line was given.
    pub static_given: bool,
    /// Whether a row line was given, which is the first in the slice.
    pub row_given: bool,
}

impl Remainder {
    // How many lines at the front of its answer were given before.
    pub(crate) fn given_before(&self) -> u32
        ensures { result ≡ given_before self.now }
    {
        match (self.static_given, self.row_given) {
            (false, false) => 0,
            (true, true) => 2,
            (false, true) | (true, false) => 1,
        }
    }

    // Goes on behind lines that were given. The only error is want of memory: then it is as it was.
    pub(crate) fn go_behind(&mut self, alloc: Global, lines: &[OutLine]) -> Result<(), AllocError>
        ensures ok { OnOk result (self.new ≡ after_lines lines.now self.old) }
        ensures err { OnErr result (self.new ≡ self.old) }
    {
        match last_line(lines) {
            None => Ok(()),
            Some(OutLine::Static(_)) => {
                self.static_given = true;
                Ok(())
            }
            Some(OutLine::Row(key, _)) => {
                self.slice.from = row_place(alloc, key)?;
                self.static_given = self.static_given || begins_static(lines);
                self.row_given = true;
                Ok(())
            }
        }
    }
}

// The position of a key's row. The only error is want of memory.
fn row_place(alloc: Global, key: &Key) -> Result<Pos, AllocError>
    ensures { IfOk result (λ x. x ≡ row_pos key.now) }
{
    Ok(Pos {
        prefix: key.copy(alloc)?,
        weight: Weight::At,
    })
}

// The last line, if there is one.
fn last_line(lines: &[OutLine]) -> Option<&OutLine>
    ensures { option_copied result ≡ last_of lines.now }
{
    lines.last()
}
