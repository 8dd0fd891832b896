//! What stands between marks.

ghost use Rattle.std.specs.Prelude.{◌≡◌, ◌==◌, IfOk, map};
ghost use Rattle.std.specs.List.{slice_split};
ghost use Rattle.rc_spelling.specs.Words.{words};

use std::alloc::{AllocError, Global};

/// What stands between the bytes that are the mark, in order.
pub(crate) fn cut<'a>(alloc: Global, mark: u8, line: &'a [u8]) -> Result<Vec<&'a [u8]>, AllocError>
    ensures { IfOk result (λ found. map (λ piece. piece.now) found.items ≡ slice_split (λ byte. byte == mark) line.now) }
{
    line.split(|byte| *byte == mark).collect(alloc)
}

/// What stands between the spaces of a line, in order; one empty word of an empty line. The only error is want of memory.
pub fn words<'a>(alloc: Global, line: &'a [u8]) -> Result<Vec<&'a [u8]>, AllocError>
    ensures { IfOk result (λ found. map (λ word. word.now) found.items ≡ words line.now) }
{
    cut(alloc, b' ', line)
}
