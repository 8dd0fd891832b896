//! The words of a schema's text, and what they list.

ghost use Rattle.std.specs.Prelude.{◌≡◌, IfOk, IsTrue, map, ◌==◌, codes};
ghost use Rattle.std.specs.List.{list_all, slice_split};
ghost use Rattle.rc_schema.specs.SchemaText.{names_of};
ghost use Rattle.rc_schema.specs.calls.Tests.{is_kind, kind_named};
ghost use Rattle.rc_spelling.specs.Words.{words};

use crate::kinds::CkKind;
use crate::names::is_text;
use std::alloc::{AllocError, Global};

/// What stands between the spaces, in order.
pub(crate) fn words<'a>(alloc: Global, text: &'a [u8]) -> Result<Vec<&'a [u8]>, AllocError>
    ensures { IfOk result (λ found. map (λ word. word.now) found.items ≡ words text.now) }
{
    text.split(|byte| *byte == b' ').collect(alloc)
}

/// What stands between the commas, in order.
pub(crate) fn items<'a>(alloc: Global, word: &'a [u8]) -> Result<Vec<&'a [u8]>, AllocError>
    ensures { IfOk result (λ found. map (λ item. item.now) found.items ≡ slice_split (λ byte. byte == 44) word.now) }
{
    word.split(|byte| *byte == b',').collect(alloc)
}

/// The names of a list of names, `-` for none.
pub(crate) fn names<'a>(alloc: Global, word: &'a [u8]) -> Result<Vec<&'a [u8]>, AllocError>
    ensures { IfOk result (λ found. map (λ name. name.now) found.items ≡ names_of word.now) }
{
    if is_text(word, b"-") {
        return Ok(Vec::new(alloc));
    }
    items(alloc, word)
}

/// Whether a word is a kind.
fn is_kind(word: &[u8]) -> bool
    ensures { result ≡ is_kind word.now }
{
    is_text(word, b"int") || is_text(word, b"text")
}

/// Whether each word is a kind.
pub(crate) fn are_kinds(words: &[&[u8]]) -> bool
    ensures { result ≡ list_all (λ word. is_kind word.now) words.now }
{
    words.iter().all(|word| is_kind(word))
}

/// The kind that a word names.
fn kind(word: &[u8]) -> CkKind
    ensures { result ≡ kind_named word.now }
{
    if is_text(word, b"int") {
        CkKind::Int
    } else {
        CkKind::Text
    }
}

/// The kinds that words name.
pub(crate) fn kinds(alloc: Global, words: &[&[u8]]) -> Result<Vec<CkKind>, AllocError>
    ensures { IfOk result (λ made. made.items ≡ map (λ word. kind_named word.now) words.now) }
{
    words.iter().map(|word| kind(word)).collect(alloc)
}
