//! What bytes and which components a word spells.

ghost use Rattle.std.specs.Prelude.{◌≡◌, IfOk, IsTrue, codes, map, take};
ghost use Rattle.std.specs.Char.{digit_value, is_ascii_hexdigit};
ghost use Rattle.std.specs.Option.{is_some, option_map};
ghost use Rattle.rc_spelling.specs.Spelling.{stands_alone, escaped_byte, bytes_spelled, component_spelled, components_spelled};
ghost use Rattle.rc_spelling.specs.Words.{is_word, each_of};
ghost use Rattle.rc_spelling.specs.calls.Fronts.{first_alone, first_escaped, first_spelled};

use crate::cutting::cut;
use std::alloc::{AllocError, Global};

/// Whether a byte may stand for itself.
fn stands_alone(byte: u8) -> bool
    ensures { result ≡ stands_alone byte }
{
    match byte {
        0..=b' ' | 0x7f => false,
        b'%' | b',' | b'\'' | b'(' | b')' | b'[' | b']' => false,
        _ => true,
    }
}

/// The number that a hexadecimal digit stands for.
fn digit(byte: u8) -> u8
    requires { IsTrue (is_ascii_hexdigit byte) }
    ensures { result ≡ digit_value byte }
{
    match byte {
        b'0'..=b'9' => byte - b'0',
        b'A'..=b'F' => byte - b'A' + 10,
        _ => byte - b'a' + 10,
    }
}

/// The byte that two hexadecimal digits stand for.
fn escaped(high: u8, low: u8) -> Option<u8>
    ensures { result ≡ escaped_byte high low }
{
    if high.is_ascii_hexdigit() && low.is_ascii_hexdigit() {
        Some(digit(high) * 16 + digit(low))
    } else {
        None
    }
}

/// A byte that stands for itself, and what is behind it.
fn first_alone(byte: u8, rest: &[u8]) -> Option<(u8, &[u8])>
    ensures { option_map (λ x. (x.0, x.1.now)) result ≡ first_alone byte rest.now }
{
    if stands_alone(byte) {
        Some((byte, rest))
    } else {
        None
    }
}

/// The byte that two digits stand for, and what is behind them.
fn first_escaped(high: u8, low: u8, rest: &[u8]) -> Option<(u8, &[u8])>
    ensures { option_map (λ x. (x.0, x.1.now)) result ≡ first_escaped high low rest.now }
{
    let byte = escaped(high, low)?;
    Some((byte, rest))
}

/// The first byte that a word spells, and what is behind its spelling.
fn first_byte(word: &[u8]) -> Option<(u8, &[u8])>
    ensures { option_map (λ x. (x.0, x.1.now)) result ≡ first_spelled word.now }
{
    match word {
        [] => None,
        [b'%', high, low, rest @ ..] => first_escaped(*high, *low, rest),
        [byte, rest @ ..] => first_alone(*byte, rest),
    }
}

/// The bytes that a word spells, none of the empty word; `None` where it is no spelling. The only error is want of
/// memory.
pub fn read_bytes(alloc: Global, word: &[u8]) -> Result<Option<Vec<u8>>, AllocError>
    ensures { IfOk result (λ found. option_map (λ bytes. bytes.items) found ≡ bytes_spelled word.now) }
{
    let mut bytes = Vec::with_capacity(alloc, word.len())?;
    let mut left = word;
    while let Some((byte, rest)) = first_byte(left) {
        bytes.push(byte)?;
        left = rest;
    }
    if left.is_empty() {
        Ok(Some(bytes))
    } else {
        Ok(None)
    }
}

/// Whether a word spells bytes.
fn spells(word: &[u8]) -> bool
    ensures { result ≡ is_some (bytes_spelled word.now) }
{
    let mut left = word;
    while let Some((_byte, rest)) = first_byte(left) {
        left = rest;
    }
    left.is_empty()
}

/// Whether a piece is two quotes.
fn is_empty_text(piece: &[u8]) -> bool
    ensures { result ≡ is_word piece.now (codes "''") }
{
    piece == b"''".as_slice()
}

/// Whether a piece is a component.
fn is_component(piece: &[u8]) -> bool
    ensures { result ≡ is_some (component_spelled piece.now) }
{
    match piece {
        [] => false,
        [_first, _rest @ ..] => is_empty_text(piece) || spells(piece),
    }
}

/// The bytes of a component.
fn read_component(alloc: Global, piece: &[u8]) -> Result<Option<Vec<u8>>, AllocError>
    ensures { IfOk result (λ found. option_map (λ bytes. bytes.items) found ≡ component_spelled piece.now) }
{
    match piece {
        [] => Ok(None),
        [_first, _rest @ ..] => {
            if is_empty_text(piece) {
                return Ok(Some(Vec::new(alloc)));
            }
            read_bytes(alloc, piece)
        }
    }
}

/// Whether all pieces are components.
#[tactic(auto, using(crate::proofs::Pieces::component_ahead, crate::proofs::Pieces::none_ahead))]
fn are_components(pieces: &[&[u8]]) -> bool
    ensures { result ≡ is_some (each_of component_spelled (map (λ piece. piece.now) pieces.now)) }
{
    let mut left = pieces;
    while let [piece, rest @ ..] = left {
        if !is_component(piece) {
            return false;
        }
        left = rest;
    }
    true
}

/// The bytes of each piece, where all of them are components.
fn read_pieces(alloc: Global, pieces: &[&[u8]]) -> Result<Option<Vec<Vec<u8>>>, AllocError>
    ensures { IfOk result (λ found. option_map (λ made. map (λ bytes. bytes.items) made.items) found ≡ each_of component_spelled (map (λ piece. piece.now) pieces.now)) }
{
    let mut components = Vec::with_capacity(alloc, pieces.len())?;
    for piece in pieces {
        let Some(component) = read_component(alloc, piece)? else {
            return Ok(None);
        };
        components.push(component)?;
    }
    Ok(Some(components))
}

/// The bytes of the first pieces, at most so many, where all of them are components.
fn read_first(
    alloc: Global,
    pieces: &[&[u8]],
    most: usize,
) -> Result<Option<Vec<Vec<u8>>>, AllocError>
    ensures { IfOk result (λ found. option_map (λ made. map (λ bytes. bytes.items) made.items) found ≡ option_map (take most) (each_of component_spelled (map (λ piece. piece.now) pieces.now))) }
{
    if pieces.len() <= most {
        return read_pieces(alloc, pieces);
    }
    let (first, more) = pieces.split_at(most);
    if !are_components(more) {
        return Ok(None);
    }
    read_pieces(alloc, first)
}

/// The bytes of the first components that a word spells, at most so many, with commas between them; `None` where the
/// word spells none. Those behind them are looked at and take no memory. The only error is want of memory.
#[tactic(auto, unfolding(crate::specs::Spelling::components_spelled))]
pub fn read_components(
    alloc: Global,
    word: &[u8],
    most: usize,
) -> Result<Option<Vec<Vec<u8>>>, AllocError>
    ensures { IfOk result (λ found. option_map (λ made. map (λ bytes. bytes.items) made.items) found ≡ option_map (take most) (components_spelled word.now)) }
{
    let pieces = cut(alloc, b',', word)?;
    read_first(alloc, pieces.as_slice(), most)
}
