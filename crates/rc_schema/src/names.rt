//! The names of columns.

ghost use Rattle.std.specs.Prelude.{◌≡◌, ◌++◌, IfOk, map};
ghost use Rattle.std.specs.List.{list_all, list_any};
ghost use Rattle.rc_schema.specs.SchemaValue.{is_name, are_distinct_by, is_name_byte, are_names};
ghost use Rattle.rc_spelling.specs.Words.{is_word};

use std::alloc::{AllocError, Global};

/// Whether two texts are the same bytes.
pub(crate) fn is_text(text: &[u8], other: &[u8]) -> bool
    ensures { result ≡ is_word text.now other.now }
{
    text == other
}

/// Whether a byte may stand behind the first of a name.
fn is_name_byte(byte: u8) -> bool
    ensures { result ≡ is_name_byte byte }
{
    byte.is_ascii_lowercase() || byte.is_ascii_digit() || byte == b'_'
}

/// Whether each byte may stand behind the first of a name.
fn are_name_bytes(bytes: &[u8]) -> bool
    ensures { result ≡ list_all is_name_byte bytes.now }
{
    bytes.iter().all(|byte| is_name_byte(*byte))
}

/// Whether a text has the form of a column's name.
pub fn is_name(text: &[u8]) -> bool
    ensures { result ≡ is_name text.now }
{
    match text {
        [] => false,
        [first, rest @ ..] => {
            first.is_ascii_lowercase() && rest.len() <= 31 && are_name_bytes(rest)
        }
    }
}

/// Whether the name stands among others.
fn is_among(name: &[u8], others: &[&[u8]]) -> bool
    ensures { result ≡ list_any (λ other. is_word name.now other.now) others.now }
{
    others.iter().any(|other| is_text(name, other))
}

/// Whether no name stands there twice.
fn are_distinct(names: &[&[u8]]) -> bool
    ensures { result ≡ are_distinct_by (λ x y. is_word x.now y.now) names.now }
{
    let mut rest = names;
    loop {
        match rest {
            [] => return true,
            [name, others @ ..] => {
                if is_among(name, others) {
                    return false;
                }
                rest = others;
            }
        }
    }
}

/// Whether each text is a name.
fn are_all_names(texts: &[&[u8]]) -> bool
    ensures { result ≡ list_all (λ text. is_name text.now) texts.now }
{
    texts.iter().all(|text| is_name(text))
}

/// Whether the texts are names, all distinct.
#[tactic(auto, using(crate::proofs::Seen::names_seen))]
fn are_distinct_names(texts: &[&[u8]]) -> bool
    ensures { result ≡ are_names (map (λ text. text.now) texts.now) }
{
    if !are_all_names(texts) {
        return false;
    }
    are_distinct(texts)
}

/// Whether the texts of both lists are names, all distinct.
#[tactic(auto, using(crate::proofs::Seen::seen_append))]
pub(crate) fn are_names<'a>(
    alloc: Global,
    texts: &[&'a [u8]],
    others: &[&'a [u8]],
) -> Result<bool, AllocError>
    ensures { IfOk result (λ b. b ≡ are_names (map (λ text. text.now) texts.now ++ map (λ text. text.now) others.now)) }
{
    let mut all = Vec::from_slice(alloc, texts)?;
    all.extend_from_slice(others)?;
    Ok(are_distinct_names(all.as_slice()))
}
