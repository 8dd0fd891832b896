//! The bounds of ranges.

ghost use Rattle.std.specs.Prelude.{◌≡◌, IfOk};
ghost use Rattle.std.specs.Option.{option_copied};
ghost use Rattle.rc_lines.specs.Parts.{pieces_of, without_front, without_back};
ghost use Rattle.rc_lines.specs.calls.ShapeParts.{no_bound, bound_at, marked_bound, from_of, to_of, range_start, range_end};
ghost use Rattle.rc_spelling.specs.Words.{is_word};

use crate::parts::{before, behind, is_word};
use crate::shapes::{Bound, Pieces};
use rc_spelling::read_components;
use std::alloc::{AllocError, Global};

/// No bound.
pub(crate) fn no_bound(alloc: Global) -> Bound
    ensures { result ≡ no_bound }
{
    Bound {
        pieces: Pieces::empty(alloc),
        inclusive: true,
    }
}

/// How many components of a word are kept: one more than a schema may have.
const MOST_PIECES: usize = 5;

/// The first components that a word spells.
#[tactic(auto, unfolding(crate::specs::Parts::pieces_of))]
pub(crate) fn pieces(alloc: Global, word: &[u8]) -> Result<Option<Pieces>, AllocError>
    ensures { IfOk result (λ found. found ≡ pieces_of word.now) }
{
    let Some(items) = read_components(alloc, word, MOST_PIECES)? else {
        return Ok(None);
    };
    Ok(Some(Pieces::of(items)))
}

/// The bound at the prefix that a word spells.
#[tactic(auto, unfolding(crate::specs::calls::ShapeParts::bound_at))]
fn bound(alloc: Global, inclusive: bool, ck: &[u8]) -> Result<Option<Bound>, AllocError>
    ensures { IfOk result (λ found. found ≡ bound_at inclusive ck.now) }
{
    let Some(pieces) = pieces(alloc, ck)? else {
        return Ok(None);
    };
    Ok(Some(Bound { pieces, inclusive }))
}

/// The bound at what stands at one of two marks.
fn marked(
    alloc: Global,
    inclusive: Option<&[u8]>,
    exclusive: Option<&[u8]>,
) -> Result<Option<Bound>, AllocError>
    ensures { IfOk result (λ found. found ≡ marked_bound (option_copied inclusive.entry) (option_copied exclusive.entry)) }
{
    if let Some(ck) = inclusive {
        return bound(alloc, true, ck);
    }
    let Some(ck) = exclusive else {
        return Ok(None);
    };
    bound(alloc, false, ck)
}

/// The bound of FROM.
#[tactic(auto, unfolding(crate::specs::calls::ShapeParts::from_of))]
fn from(alloc: Global, word: &[u8]) -> Result<Option<Bound>, AllocError>
    ensures { IfOk result (λ found. found ≡ from_of word.now) }
{
    if is_word(word, b"-") {
        return Ok(Some(no_bound(alloc)));
    }
    marked(alloc, behind(b"[", word), behind(b"(", word))
}

/// The bound of TO.
#[tactic(auto, unfolding(crate::specs::calls::ShapeParts::to_of))]
fn to(alloc: Global, word: &[u8]) -> Result<Option<Bound>, AllocError>
    ensures { IfOk result (λ found. found ≡ to_of word.now) }
{
    if is_word(word, b"-") {
        return Ok(Some(no_bound(alloc)));
    }
    marked(alloc, before(b"]", word), before(b")", word))
}

/// The bound of `from=FROM`.
#[tactic(auto, unfolding(crate::specs::calls::ShapeParts::range_start))]
pub(crate) fn begins_at(alloc: Global, word: &[u8]) -> Result<Option<Bound>, AllocError>
    ensures { IfOk result (λ found. found ≡ range_start word.now) }
{
    match behind(b"from=", word) {
        Some(bound) => from(alloc, bound),
        None => Ok(None),
    }
}

/// The bound of `to=TO`.
#[tactic(auto, unfolding(crate::specs::calls::ShapeParts::range_end))]
pub(crate) fn ends_at(alloc: Global, word: &[u8]) -> Result<Option<Bound>, AllocError>
    ensures { IfOk result (λ found. found ≡ range_end word.now) }
{
    match behind(b"to=", word) {
        Some(bound) => to(alloc, bound),
        None => Ok(None),
    }
}
