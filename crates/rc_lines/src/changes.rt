//! What a line writes, by its words.

ghost use Rattle.std.specs.Prelude.{◌≡◌, IfOk, map};
ghost use Rattle.rc_lines.specs.calls.Shapes.{row_change, range_deleted, insert_of, update_of, unset_of, delete_of, delrange_of, delpart_of, static_change, unstatic_of, cell_change_of, deletion_of, change_of};

use crate::bounds::{begins_at, ends_at, pieces};
use crate::cells::{cells, some_cells};
use crate::parts::{is_word, stamp, tomb};
use crate::shapes::{Change, Named, Stamp};
use rc_cell::Tomb;
use std::alloc::{AllocError, Global};

/// What is written to the row of CK.
#[tactic(auto, unfolding(crate::specs::calls::Shapes::row_change))]
fn row(
    alloc: Global,
    ck: &[u8],
    marker: Option<i64>,
    tomb: Option<Tomb>,
    cells: Option<Named>,
) -> Result<Option<Change>, AllocError>
    ensures { IfOk result (λ found. found ≡ row_change ck.now marker tomb cells) }
{
    let Some(ck) = pieces(alloc, ck)? else {
        return Ok(None);
    };
    let Some(cells) = cells else {
        return Ok(None);
    };
    Ok(Some(Change::OfRow {
        ck,
        marker,
        tomb,
        cells,
    }))
}

/// A range tombstone.
#[tactic(auto, unfolding(crate::specs::calls::Shapes::range_deleted))]
fn range_deleted(
    alloc: Global,
    from: &[u8],
    to: &[u8],
    when: &[u8],
    since: &[u8],
) -> Result<Option<Change>, AllocError>
    ensures { IfOk result (λ found. found ≡ range_deleted from.now to.now when.now since.now) }
{
    let Some(from) = begins_at(alloc, from)? else {
        return Ok(None);
    };
    let Some(to) = ends_at(alloc, to)? else {
        return Ok(None);
    };
    let Some(tomb) = tomb(when, since) else {
        return Ok(None);
    };
    Ok(Some(Change::OfRange { from, to, tomb }))
}

/// The words behind `insert KEY`: CK, a timestamp, and any number of `NAME=VALUE`. They write a marker and live cells.
#[tactic(auto, unfolding(crate::specs::calls::Shapes::insert_change))]
fn insert(alloc: Global, words: &[&[u8]]) -> Result<Option<Change>, AllocError>
    ensures { IfOk result (λ found. found ≡ insert_of (map (λ word. word.now) words.now)) }
{
    match words {
        [] => Ok(None),
        [_ck] => Ok(None),
        [ck, when, sets @ ..] => {
            let Some(ts) = stamp(when) else {
                return Ok(None);
            };
            let cells = cells(alloc, Stamp::Alive(ts), sets)?;
            row(alloc, ck, Some(ts), None, cells)
        }
    }
}

/// The words behind `update KEY`: CK, a timestamp, and at least one `NAME=VALUE`. They write live cells.
#[tactic(auto, unfolding(crate::specs::calls::Shapes::update_change))]
fn update(alloc: Global, words: &[&[u8]]) -> Result<Option<Change>, AllocError>
    ensures { IfOk result (λ found. found ≡ update_of (map (λ word. word.now) words.now)) }
{
    match words {
        [] => Ok(None),
        [_ck] => Ok(None),
        [ck, when, sets @ ..] => {
            let Some(ts) = stamp(when) else {
                return Ok(None);
            };
            let cells = some_cells(alloc, Stamp::Alive(ts), sets)?;
            row(alloc, ck, None, None, cells)
        }
    }
}

/// The words behind `unset KEY`: CK, a tombstone's two words, and at least one NAME. They write dead cells.
#[tactic(auto, unfolding(crate::specs::calls::Shapes::unset_change))]
fn unset(alloc: Global, words: &[&[u8]]) -> Result<Option<Change>, AllocError>
    ensures { IfOk result (λ found. found ≡ unset_of (map (λ word. word.now) words.now)) }
{
    match words {
        [] => Ok(None),
        [_ck] => Ok(None),
        [_ck, _when] => Ok(None),
        [ck, when, since, names @ ..] => {
            let Some(tomb) = tomb(when, since) else {
                return Ok(None);
            };
            let cells = some_cells(alloc, Stamp::Gone(tomb), names)?;
            row(alloc, ck, None, None, cells)
        }
    }
}

/// The words behind `delete KEY`: CK and a tombstone's two words. They write a row tombstone.
#[tactic(auto, unfolding(crate::specs::calls::Shapes::delete_change))]
fn delete(alloc: Global, words: &[&[u8]]) -> Result<Option<Change>, AllocError>
    ensures { IfOk result (λ found. found ≡ delete_of (map (λ word. word.now) words.now)) }
{
    match words {
        [] => Ok(None),
        [_ck] => Ok(None),
        [_ck, _when] => Ok(None),
        [ck, when, since] => {
            let Some(tomb) = tomb(when, since) else {
                return Ok(None);
            };
            row(alloc, ck, None, Some(tomb), Some(Named::empty(alloc)))
        }
        [_ck, _when, _since, _more, _rest @ ..] => Ok(None),
    }
}

/// The words behind `delrange KEY`: two bounds and a tombstone's two words.
fn delrange(alloc: Global, words: &[&[u8]]) -> Result<Option<Change>, AllocError>
    ensures { IfOk result (λ found. found ≡ delrange_of (map (λ word. word.now) words.now)) }
{
    match words {
        [] => Ok(None),
        [_from] => Ok(None),
        [_from, _to] => Ok(None),
        [_from, _to, _when] => Ok(None),
        [from, to, when, since] => range_deleted(alloc, from, to, when, since),
        [_from, _to, _when, _since, _more, _rest @ ..] => Ok(None),
    }
}

/// The words behind `delpart KEY`: a tombstone's two words. They write a partition tombstone.
#[tactic(auto, unfolding(crate::specs::calls::Shapes::partition_deleted))]
fn delpart(words: &[&[u8]]) -> Option<Change>
    ensures { result ≡ delpart_of (map (λ word. word.now) words.now) }
{
    match words {
        [] => None,
        [_when] => None,
        [when, since] => {
            let tomb = tomb(when, since)?;
            Some(Change::OfPartition(tomb))
        }
        [_when, _since, _more, _rest @ ..] => None,
    }
}

/// The words behind `static KEY`: a timestamp, and at least one `NAME=VALUE`. They write live static cells.
#[tactic(auto, unfolding(crate::specs::calls::Shapes::static_set))]
fn set_static(alloc: Global, words: &[&[u8]]) -> Result<Option<Change>, AllocError>
    ensures { IfOk result (λ found. found ≡ static_change (map (λ word. word.now) words.now)) }
{
    match words {
        [] => Ok(None),
        [when, sets @ ..] => {
            let Some(ts) = stamp(when) else {
                return Ok(None);
            };
            let Some(cells) = some_cells(alloc, Stamp::Alive(ts), sets)? else {
                return Ok(None);
            };
            Ok(Some(Change::OfStatic(cells)))
        }
    }
}

/// The words behind `unstatic KEY`: a tombstone's two words, and at least one NAME. They write dead static cells.
#[tactic(auto, unfolding(crate::specs::calls::Shapes::static_removed))]
fn unset_static(alloc: Global, words: &[&[u8]]) -> Result<Option<Change>, AllocError>
    ensures { IfOk result (λ found. found ≡ unstatic_of (map (λ word. word.now) words.now)) }
{
    match words {
        [] => Ok(None),
        [_when] => Ok(None),
        [when, since, names @ ..] => {
            let Some(tomb) = tomb(when, since) else {
                return Ok(None);
            };
            let Some(cells) = some_cells(alloc, Stamp::Gone(tomb), names)? else {
                return Ok(None);
            };
            Ok(Some(Change::OfStatic(cells)))
        }
    }
}

/// What a line writes by cells, by its first word and those behind KEY.
#[tactic(auto, unfolding(crate::specs::calls::Shapes::cell_change_of))]
fn cell_change(alloc: Global, verb: &[u8], words: &[&[u8]]) -> Result<Option<Change>, AllocError>
    ensures { IfOk result (λ found. found ≡ cell_change_of verb.now (map (λ word. word.now) words.now)) }
{
    if is_word(verb, b"insert") {
        return insert(alloc, words);
    }
    if is_word(verb, b"update") {
        return update(alloc, words);
    }
    if is_word(verb, b"unset") {
        return unset(alloc, words);
    }
    if is_word(verb, b"static") {
        return set_static(alloc, words);
    }
    if is_word(verb, b"unstatic") {
        return unset_static(alloc, words);
    }
    Ok(None)
}

/// What a line writes by a tombstone, by its first word and those behind KEY.
#[tactic(auto, unfolding(crate::specs::calls::Shapes::deletion_of))]
fn deletion(alloc: Global, verb: &[u8], words: &[&[u8]]) -> Result<Option<Change>, AllocError>
    ensures { IfOk result (λ found. found ≡ deletion_of verb.now (map (λ word. word.now) words.now)) }
{
    if is_word(verb, b"delete") {
        return delete(alloc, words);
    }
    if is_word(verb, b"delrange") {
        return delrange(alloc, words);
    }
    if is_word(verb, b"delpart") {
        return Ok(delpart(words));
    }
    Ok(None)
}

/// What a line writes, by its first word and those behind KEY.
pub(crate) fn change(
    alloc: Global,
    verb: &[u8],
    words: &[&[u8]],
) -> Result<Option<Change>, AllocError>
    ensures { IfOk result (λ found. found ≡ change_of verb.now (map (λ word. word.now) words.now)) }
{
    if let Some(change) = cell_change(alloc, verb, words)? {
        return Ok(Some(change));
    }
    deletion(alloc, verb, words)
}
