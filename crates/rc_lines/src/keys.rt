//! Keys and ranges of keys under a schema.

ghost use Rattle.std.specs.Prelude.{◌≡◌, IfOk, IsTrue, false, length, map, true};
ghost use Rattle.std.specs.Option.{option_map, IfSome};
ghost use Rattle.rc_position.specs.Position.{IsBefore};
ghost use Rattle.rc_schema.specs.Checks.{are_of_kinds, fits_kinds};
ghost use Rattle.rc_lines.specs.UnderSchema.{component_of, prefix_of, slice_between};
ghost use Rattle.rc_lines.specs.calls.ShapeMeaning.{key_under, slice_under};

use crate::shapes::{Bound, Pieces};
use rc_position::{Comp, Key, Pos, Slice, Text, end_pos, start_pos};
use rc_schema::{CkKind, Schema};
use rc_spelling::signed;
use std::alloc::{AllocError, Global};

/// The component of a kind whose bytes these are.
fn component(alloc: Global, kind: CkKind, piece: &[u8]) -> Result<Option<Comp>, AllocError>
    ensures { IfOk result (λ found. found ≡ component_of kind piece.now) }
{
    match kind {
        CkKind::Int => Ok(signed(piece).map(|number| Comp::Int(number))),
        CkKind::Text => Ok(Some(Comp::Text(Text::from_slice(alloc, piece)?))),
    }
}

/// The components of kinds whose bytes these are, no more than there are kinds.
fn components(
    alloc: Global,
    pieces: &[Vec<u8>],
    kinds: &[CkKind],
) -> Result<Option<Vec<Comp>>, AllocError>
    ensures { IfOk result (λ found. option_map (λ made. made.items) found ≡ prefix_of (map (λ bytes. bytes.items) pieces.now) kinds.now) }
{
    let mut made = Vec::with_capacity(alloc, kinds.len())?;
    let mut left = pieces;
    let mut kinds_left = kinds;
    loop {
        match (left, kinds_left) {
            ([], _) => return Ok(Some(made)),
            ([_piece, _rest @ ..], []) => return Ok(None),
            ([piece, rest @ ..], [kind, more @ ..]) => {
                let Some(component) = component(alloc, *kind, piece.as_slice())? else {
                    return Ok(None);
                };
                made.push(component)?;
                left = rest;
                kinds_left = more;
            }
        }
    }
}

/// The prefix of a key whose components' bytes these are.
#[tactic(auto, using(crate::specs::laws::Fitting::prefix_fits, crate::specs::laws::Fitting::prefix_is_as_long))]
fn prefix(alloc: Global, pieces: &Pieces, kinds: &[CkKind]) -> Result<Option<Key>, AllocError>
    ensures value { IfOk result (λ found. found ≡ prefix_of pieces.now kinds.now) }
    ensures fits { IfOk result (λ found. IfSome found (λ key. IsTrue (are_of_kinds key kinds.now))) }
    ensures long { IfOk result (λ found. IfSome found (λ key. length key ≡ length pieces.now)) }
{
    let Some(components) = components(alloc, pieces.as_slice(), kinds)? else {
        return Ok(None);
    };
    Ok(Some(Key::from_vec(components)))
}

/// The full key whose components' bytes these are.
pub(crate) fn full_key(
    alloc: Global,
    pieces: &Pieces,
    schema: &Schema,
) -> Result<Option<Key>, AllocError>
    ensures value { IfOk result (λ found. found ≡ key_under pieces.now schema.now.ck) }
    ensures fits { IfOk result (λ found. IfSome found (λ key. IsTrue (fits_kinds true schema.now.ck key))) }
{
    if pieces.as_slice().len() != schema.ck().len() {
        return Ok(None);
    }
    prefix(alloc, pieces, schema.ck())
}

/// The positions between two of which the first is below the second.
#[tactic(auto, unfolding(crate::specs::UnderSchema::slice_between))]
fn between(from: Pos, to: Pos) -> Option<Slice>
    ensures value { result ≡ slice_between from to }
    ensures begins { IfSome result (λ slice. slice.from ≡ from) }
    ensures ends { IfSome result (λ slice. slice.to ≡ to) }
    ensures ascends { IfSome result (λ slice. IsBefore slice.from slice.to) }
{
    if from < to {
        Some(Slice { from, to })
    } else {
        None
    }
}

/// The positions between two bounds.
#[tactic(auto, using(crate::specs::laws::Fitting::start_fits, crate::specs::laws::Fitting::end_fits), unfolding(crate::specs::calls::ShapeMeaning::slice_under))]
pub(crate) fn slice(
    alloc: Global,
    from: &Bound,
    to: &Bound,
    schema: &Schema,
) -> Result<Option<Slice>, AllocError>
    ensures value { IfOk result (λ found. found ≡ slice_under from.now to.now schema.now.ck) }
    ensures first { IfOk result (λ found. IfSome found (λ slice. IsTrue (fits_kinds false schema.now.ck slice.from.prefix))) }
    ensures last { IfOk result (λ found. IfSome found (λ slice. IsTrue (fits_kinds false schema.now.ck slice.to.prefix))) }
    ensures ascends { IfOk result (λ found. IfSome found (λ slice. IsBefore slice.from slice.to)) }
{
    let Some(first) = prefix(alloc, &from.pieces, schema.ck())? else {
        return Ok(None);
    };
    let Some(last) = prefix(alloc, &to.pieces, schema.ck())? else {
        return Ok(None);
    };
    let begin = start_pos(alloc, &first, from.inclusive)?;
    let end = end_pos(alloc, &last, to.inclusive)?;
    let Some(slice) = between(begin, end) else {
        return Ok(None);
    };
    Ok(Some(slice))
}
