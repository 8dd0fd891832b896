//! The columns that a line's words speak of.

ghost use Rattle.std.specs.Prelude.{◌≡◌, ◌==◌, ◌<◌, IfOk, map, length};
ghost use Rattle.std.specs.List.{position};
ghost use Rattle.std.specs.BTreeSet.{IsFromIterResult};
ghost use Rattle.std.specs.Cmp.Lexicographic.{slice_cmp};
ghost use Rattle.std.specs.Option.{option_map, IfSome};
ghost use Rattle.std.specs.Ordering.{nat_cmp};
ghost use Rattle.rc_schema.specs.SchemaValue.{are_distinct_by};
ghost use Rattle.rc_spelling.specs.Words.{is_word};
ghost use Rattle.rc_lines.specs.calls.ShapeParts.{are_distinct, live_of, set_of, split_set, cell_said, each_cell_of, named_cells, some_cells_of};
ghost use Rattle.rc_lines.specs.Parts.{named_cell};

use crate::shapes::{Named, Stamp};
use rc_cell::{Cell, Value};
use rc_position::Text;
use rc_schema::is_name;
use rc_spelling::read_bytes;
use std::alloc::{AllocError, Global};
use std::collections::BTreeSet;

/// The live cell of a spelling.
#[tactic(auto, unfolding(crate::specs::calls::ShapeParts::live_of))]
fn live(alloc: Global, ts: i64, value: &[u8]) -> Result<Option<Cell>, AllocError>
    ensures { IfOk result (λ found. found ≡ live_of ts value.now) }
{
    let Some(bytes) = read_bytes(alloc, value)? else {
        return Ok(None);
    };
    let value = Value::from_vec(bytes);
    Ok(Some(Cell::Live { ts, value }))
}

/// A name with its cell.
#[tactic(auto, unfolding(crate::specs::Parts::named_cell))]
fn named(alloc: Global, name: &[u8], cell: Option<Cell>) -> Result<Option<(Text, Cell)>, AllocError>
    ensures { IfOk result (λ found. found ≡ named_cell name.now cell) }
{
    if !is_name(name) {
        return Ok(None);
    }
    let Some(cell) = cell else {
        return Ok(None);
    };
    let name = Text::from_slice(alloc, name)?;
    Ok(Some((name, cell)))
}

/// The place of the first `=` of a word.
fn place_of_equals(word: &[u8]) -> Option<usize>
    ensures value { result ≡ position (λ byte. byte == 61) word.now }
    ensures within { IfSome result (λ at. at < length word.now) }
{
    word.iter().position(|byte| *byte == b'=')
}

/// What stands before and behind the first `=` of a word.
#[tactic(auto, unfolding(crate::specs::calls::ShapeParts::split_set))]
fn split_set(word: &[u8]) -> Option<(&[u8], &[u8])>
    ensures { option_map (λ parts. (parts.0.now, parts.1.now)) result ≡ split_set word.now }
{
    match place_of_equals(word) {
        Some(at) => Some((&word[..at], &word[at + 1..])),
        None => None,
    }
}

/// The name and the live cell of `NAME=VALUE`.
#[tactic(auto, unfolding(crate::specs::calls::ShapeParts::set_of))]
fn set(alloc: Global, ts: i64, word: &[u8]) -> Result<Option<(Text, Cell)>, AllocError>
    ensures { IfOk result (λ found. found ≡ set_of ts word.now) }
{
    let Some((name, value)) = split_set(word) else {
        return Ok(None);
    };
    let cell = live(alloc, ts, value)?;
    named(alloc, name, cell)
}

/// What a word says of a column.
fn cell(alloc: Global, stamp: Stamp, word: &[u8]) -> Result<Option<(Text, Cell)>, AllocError>
    ensures { IfOk result (λ found. found ≡ cell_said stamp word.now) }
{
    match stamp {
        Stamp::Alive(ts) => set(alloc, ts, word),
        Stamp::Gone(tomb) => {
            let dead = Cell::Dead {
                ts: tomb.ts,
                dt: tomb.dt,
            };
            named(alloc, word, Some(dead))
        }
    }
}

/// What each word says of a column.
fn each_cell(
    alloc: Global,
    stamp: Stamp,
    words: &[&[u8]],
) -> Result<Option<Vec<(Text, Cell)>>, AllocError>
    ensures { IfOk result (λ found. option_map (λ made. made.items) found ≡ each_cell_of stamp (map (λ word. word.now) words.now)) }
{
    let mut made = Vec::with_capacity(alloc, words.len())?;
    let mut left = words;
    loop {
        match left {
            [] => return Ok(Some(made)),
            [word, rest @ ..] => {
                let Some(item) = cell(alloc, stamp, word)? else {
                    return Ok(None);
                };
                made.push(item)?;
                left = rest;
            }
        }
    }
}

/// The names, as they stand there.
fn names(alloc: Global, cells: &[(Text, Cell)]) -> Result<Vec<&[u8]>, AllocError>
    ensures { IfOk result (λ found. map (λ name. name.now) found.items ≡ map (λ e. e.0) cells.now) }
{
    let mut found = Vec::with_capacity(alloc, cells.len())?;
    for cell in cells {
        found.push(cell.0.as_slice())?;
    }
    Ok(found)
}

/// The set of texts.
fn text_set<'a>(alloc: Global, texts: &[&'a [u8]]) -> Result<BTreeSet<&'a [u8]>, AllocError>
    ensures { IfOk result (IsFromIterResult (λ x y. slice_cmp nat_cmp x.now y.now) texts.now) }
{
    texts.iter().copied().collect(alloc)
}

/// Whether no text stands there twice. The work is that of a sort.
#[tactic(auto, using(crate::proofs::Distinct::distinct_tested))]
fn are_all_distinct(alloc: Global, texts: &[&[u8]]) -> Result<bool, AllocError>
    ensures { IfOk result (λ b. b ≡ are_distinct_by is_word (map (λ text. text.now) texts.now)) }
{
    let set = text_set(alloc, texts)?;
    Ok(set.len() == texts.len())
}

/// Whether no name stands there twice.
fn are_distinct(alloc: Global, cells: &[(Text, Cell)]) -> Result<bool, AllocError>
    ensures { IfOk result (λ b. b ≡ are_distinct cells.now) }
{
    let found = names(alloc, cells)?;
    are_all_distinct(alloc, found.as_slice())
}

/// The columns that words speak of, where none is named twice.
#[tactic(auto, unfolding(crate::specs::calls::ShapeParts::named_cells))]
pub(crate) fn cells(
    alloc: Global,
    stamp: Stamp,
    words: &[&[u8]],
) -> Result<Option<Named>, AllocError>
    ensures { IfOk result (λ found. found ≡ named_cells stamp (map (λ word. word.now) words.now)) }
{
    let Some(items) = each_cell(alloc, stamp, words)? else {
        return Ok(None);
    };
    if !are_distinct(alloc, items.as_slice())? {
        return Ok(None);
    }
    Ok(Some(Named::of(items)))
}

/// The same of at least one word.
pub(crate) fn some_cells(
    alloc: Global,
    stamp: Stamp,
    words: &[&[u8]],
) -> Result<Option<Named>, AllocError>
    ensures { IfOk result (λ found. found ≡ some_cells_of stamp (map (λ word. word.now) words.now)) }
{
    match words {
        [] => Ok(None),
        [_first, _rest @ ..] => cells(alloc, stamp, words),
    }
}
