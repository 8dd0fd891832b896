//! What a line says before a schema is known, by its words.

ghost use Rattle.std.specs.Prelude.{◌≡◌, IfOk, map};
ghost use Rattle.rc_lines.specs.calls.Shapes.{bare_of, begin_of, command_of_number, command_of_two_words, read_of, step_of, command_of_three_words, plain_of, open_shape, open_of, write_of, shape_of};

use crate::bounds::{begins_at, ends_at, no_bound};
use crate::changes::change;
use crate::commands::Command;
use crate::parts::{is_word, key};
use crate::shapes::{Bound, Shape};
use rc_spelling::count;
use std::alloc::{AllocError, Global};

/// The command of one word.
#[tactic(auto, unfolding(crate::specs::calls::Shapes::bare_of))]
fn bare(verb: &[u8]) -> Option<Command>
    ensures { result ≡ bare_of verb.now }
{
    if is_word(verb, b"flush") {
        return Some(Command::Flush);
    }
    if is_word(verb, b"stats") {
        return Some(Command::Stats);
    }
    None
}

/// The command of a word and a number.
#[tactic(auto, unfolding(crate::specs::calls::Shapes::command_of_number))]
fn told(verb: &[u8], count: u32) -> Option<Command>
    ensures { result ≡ command_of_number verb.now count }
{
    if is_word(verb, b"close") {
        return Some(Command::Close { id: count });
    }
    if is_word(verb, b"evict") {
        return Some(Command::Evict { count });
    }
    if is_word(verb, b"compact") {
        return Some(Command::Compact { count });
    }
    if is_word(verb, b"clean") {
        return Some(Command::Clean { count });
    }
    None
}

/// `flush begin`, by the word behind the first.
fn begin(word: &[u8]) -> Option<Command>
    ensures { result ≡ begin_of word.now }
{
    if is_word(word, b"begin") {
        Some(Command::FlushBegin)
    } else {
        None
    }
}

/// The command of two words.
#[tactic(auto, unfolding(crate::specs::calls::Shapes::command_of_two_words))]
fn numbered(verb: &[u8], word: &[u8]) -> Option<Command>
    ensures { result ≡ command_of_two_words verb.now word.now }
{
    if is_word(verb, b"flush") {
        return begin(word);
    }
    told(verb, count(word, u32::MAX)?)
}

/// `read ID COUNT`.
#[tactic(auto, unfolding(crate::specs::calls::Shapes::read_of))]
fn read(id: &[u8], lines: &[u8]) -> Option<Command>
    ensures { result ≡ read_of id.now lines.now }
{
    let id = count(id, u32::MAX)?;
    let count = count(lines, u32::MAX)?;
    Some(Command::Read { id, count })
}

/// `flush step COUNT`, by the words behind the first.
#[tactic(auto, unfolding(crate::specs::calls::Shapes::step_of))]
fn step(word: &[u8], units: &[u8]) -> Option<Command>
    ensures { result ≡ step_of word.now units.now }
{
    if !is_word(word, b"step") {
        return None;
    }
    let count = count(units, u32::MAX)?;
    Some(Command::FlushStep { count })
}

/// The command of three words.
#[tactic(auto, unfolding(crate::specs::calls::Shapes::command_of_three_words))]
fn counted(verb: &[u8], one: &[u8], other: &[u8]) -> Option<Command>
    ensures { result ≡ command_of_three_words verb.now one.now other.now }
{
    if is_word(verb, b"read") {
        return read(one, other);
    }
    if is_word(verb, b"flush") {
        return step(one, other);
    }
    None
}

/// The command of a line that means the same under each schema.
fn plain(verb: &[u8], words: &[&[u8]]) -> Option<Command>
    ensures { result ≡ plain_of verb.now (map (λ word. word.now) words.now) }
{
    match words {
        [] => bare(verb),
        [one] => numbered(verb, one),
        [one, other] => counted(verb, one, other),
        [_one, _other, _more, _rest @ ..] => None,
    }
}

/// `open ID KEY` between two bounds.
#[tactic(auto, unfolding(crate::specs::calls::Shapes::open_shape))]
fn opened(
    alloc: Global,
    id: &[u8],
    word: &[u8],
    from: Option<Bound>,
    to: Option<Bound>,
) -> Result<Option<Shape>, AllocError>
    ensures { IfOk result (λ found. found ≡ open_shape id.now word.now from to) }
{
    let Some(id) = count(id, u32::MAX) else {
        return Ok(None);
    };
    let Some(key) = key(alloc, word)? else {
        return Ok(None);
    };
    let Some(from) = from else {
        return Ok(None);
    };
    let Some(to) = to else {
        return Ok(None);
    };
    Ok(Some(Shape::Open { id, key, from, to }))
}

/// The words behind `open`: ID, KEY, and two bounds or none.
fn open(alloc: Global, words: &[&[u8]]) -> Result<Option<Shape>, AllocError>
    ensures { IfOk result (λ found. found ≡ open_of (map (λ word. word.now) words.now)) }
{
    match words {
        [] => Ok(None),
        [_id] => Ok(None),
        [id, key] => opened(alloc, id, key, Some(no_bound(alloc)), Some(no_bound(alloc))),
        [_id, _key, _from] => Ok(None),
        [id, key, from, to] => {
            let from = begins_at(alloc, from)?;
            let to = ends_at(alloc, to)?;
            opened(alloc, id, key, from, to)
        }
        [_id, _key, _from, _to, _more, _rest @ ..] => Ok(None),
    }
}

/// A write.
fn write(alloc: Global, verb: &[u8], words: &[&[u8]]) -> Result<Option<Shape>, AllocError>
    ensures { IfOk result (λ found. found ≡ write_of verb.now (map (λ word. word.now) words.now)) }
{
    match words {
        [] => Ok(None),
        [word, rest @ ..] => {
            let Some(key) = key(alloc, word)? else {
                return Ok(None);
            };
            let Some(change) = change(alloc, verb, rest)? else {
                return Ok(None);
            };
            Ok(Some(Shape::Written { key, change }))
        }
    }
}

/// What a line says, by its words.
pub(crate) fn shape(alloc: Global, words: &[&[u8]]) -> Result<Option<Shape>, AllocError>
    ensures { IfOk result (λ found. found ≡ shape_of (map (λ word. word.now) words.now)) }
{
    match words {
        [] => Ok(None),
        [verb, rest @ ..] => {
            if let Some(command) = plain(verb, rest) {
                return Ok(Some(Shape::Plain(command)));
            }
            if is_word(verb, b"open") {
                return open(alloc, rest);
            }
            write(alloc, verb, rest)
        }
    }
}
