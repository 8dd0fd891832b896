//! The parts of a line's words.

ghost use Rattle.std.specs.Prelude.{◌≡◌, IfOk};
ghost use Rattle.std.specs.Option.{option_copied};
ghost use Rattle.rc_lines.specs.Parts.{without_front, without_back, stamp_of, time_of, key_of};
ghost use Rattle.rc_lines.specs.calls.ShapeParts.{tomb_of};
ghost use Rattle.rc_spelling.specs.Words.{is_word};

use rc_cell::Tomb;
use rc_position::Text;
use rc_spelling::{number, read_bytes, signed};
use std::alloc::{AllocError, Global};

/// Whether two words are the same bytes.
pub(crate) fn is_word(word: &[u8], text: &[u8]) -> bool
    ensures { result ≡ is_word word.now text.now }
{
    word == text
}

/// What stands behind a text with which the word begins.
#[tactic(auto, unfolding(crate::specs::Parts::without_front))]
pub(crate) fn behind<'a>(text: &[u8], word: &'a [u8]) -> Option<&'a [u8]>
    ensures { option_copied result ≡ without_front text.now word.now }
{
    word.strip_prefix(text)
}

/// What stands before a text with which the word ends.
#[tactic(auto, unfolding(crate::specs::Parts::without_back))]
pub(crate) fn before<'a>(text: &[u8], word: &'a [u8]) -> Option<&'a [u8]>
    ensures { option_copied result ≡ without_back text.now word.now }
{
    word.strip_suffix(text)
}

/// The timestamp of `ts=TS`.
#[tactic(auto, unfolding(crate::specs::Parts::stamp_of))]
pub(crate) fn stamp(word: &[u8]) -> Option<i64>
    ensures { result ≡ stamp_of word.now }
{
    signed(behind(b"ts=", word)?)
}

/// The deletion time of `dt=DT`.
#[tactic(auto, unfolding(crate::specs::Parts::time_of))]
fn time(word: &[u8]) -> Option<u32>
    ensures { result ≡ time_of word.now }
{
    let time = number(behind(b"dt=", word)?, u64::from(u32::MAX))?;
    Some(time as u32)
}

/// The tombstone of `ts=TS dt=DT`.
#[tactic(auto, unfolding(crate::specs::calls::ShapeParts::tomb_of))]
pub(crate) fn tomb(when: &[u8], since: &[u8]) -> Option<Tomb>
    ensures { result ≡ tomb_of when.now since.now }
{
    let ts = stamp(when)?;
    let dt = time(since)?;
    Some(Tomb { ts, dt })
}

/// The partition key that a word spells.
pub(crate) fn key(alloc: Global, word: &[u8]) -> Result<Option<Text>, AllocError>
    ensures { IfOk result (λ found. found ≡ key_of word.now) }
{
    match word {
        [] => Ok(None),
        [_first, _rest @ ..] => {
            let Some(bytes) = read_bytes(alloc, word)? else {
                return Ok(None);
            };
            Ok(Some(Text::from_vec(bytes)))
        }
    }
}
