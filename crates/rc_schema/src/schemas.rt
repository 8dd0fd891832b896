//! Schemas.

ghost use Rattle.std.specs.Prelude.{◌≡◌, ◌↔◌, ◌++◌, ◌&&◌, IfOk, IsTrue, OnOk, Some, None, map, nat_le, length, ◌≤◌, ◌<◌, IfSome};
ghost use Rattle.std.specs.List.{list_all, join_with_byte};
ghost use Rattle.rc_schema.specs.SchemaValue.{SchemaValue, is_schema, are_few};
ghost use Rattle.rc_schema.specs.calls.Tests.{lists_named, are_listed, schema_of_marked_words};
ghost use Rattle.rc_schema.specs.SchemaText.{schema_text, kind_text, names_text, schema_listed, schema_of_words, schema_of, ReadsSchema};
ghost use Rattle.rc_rowcode.specs.Spelling.{KeyFits, RowFits};
ghost use Rattle.rc_schema.specs.Checks.{column_of, checked_prefix, checked_cells, column_count};
ghost use Rattle.rc_schema.specs.Largest.{component_size, components_size, largest_entry, largest_static};

use crate::checks::{SchemaErr, are_known, are_short, fits_kinds, have_short_values};
use crate::kinds::CkKind;
use crate::names::{are_names, is_text};
use crate::printing::{print_kinds, print_names};
use crate::words::{are_kinds, items, kinds, names, words};
use lsa_kinds::round_up;
use rc_cell::Row;
use rc_position::{Key, Text};
use std::alloc::{AllocError, Global};
use std::marker::Model;
use thiserror::Error;

/// Why a text gives no schema.
#[derive(Debug, Drop, Error)]
pub enum SchemaTextErr {
    /// The text is not in the form, or passes a limit.
    #[error("not a schema")]
    Malformed,
    /// Memory ran out.
    #[error("out of memory")]
    NoMemory,
}

/// A schema: the kinds of 1 to 4 clustering components, and the names of at most 8 static and 32 regular columns, all
/// distinct. A contract sees three lists.
#[derive(Drop)]
pub struct Schema {
    ck: Vec<CkKind>,
    statics: Vec<Text>,
    cols: Vec<Text>,
}

impl Model for Schema {
    ghost use Rattle.std.specs.Prelude.{IsTrue};
    ghost use Rattle.rc_schema.specs.SchemaValue.{SchemaValue, is_schema};

    ghost Value = { SchemaValue };

    ghost view = { λ s. record { ck = s.ck.items; statics = s.statics.items; cols = s.cols.items } };

    ghost invariant = { λ s. IsTrue (is_schema (record { ck = s.ck.items; statics = s.statics.items; cols = s.cols.items })) };
}

/// These texts, which are copied.
fn texts(alloc: Global, names: &[&[u8]]) -> Result<Vec<Text>, AllocError>
    ensures { IfOk result (λ made. made.items ≡ map (λ name. name.now) names.now) }
{
    let mut made = Vec::with_capacity(alloc, names.len())?;
    for name in names {
        made.push(Text::from_slice(alloc, name)?)?;
    }
    Ok(made)
}

/// Equal texts.
fn copies(alloc: Global, texts: &[Text]) -> Result<Vec<Text>, AllocError>
    ensures { IfOk result (λ made. made.items ≡ texts.now) }
{
    let mut made = Vec::with_capacity(alloc, texts.len())?;
    for text in texts {
        made.push(text.copy(alloc)?)?;
    }
    Ok(made)
}

/// Whether there are 1 to 4 components, at most 8 static and 32 regular columns.
fn are_few(ck: usize, statics: usize, cols: usize) -> bool
    ensures { result ≡ are_few ck statics cols }
{
    1 <= ck && ck <= 4 && statics <= 8 && cols <= 32
}

/// Whether words list kinds and names within the limits.
#[tactic(auto, using(crate::proofs::Listed::listed_seen))]
fn are_listed<'a>(
    alloc: Global,
    ck: &[&[u8]],
    statics: &[&'a [u8]],
    cols: &[&'a [u8]],
) -> Result<bool, AllocError>
    ensures { IfOk result (λ b. b ≡ are_listed (map (λ word. word.now) ck.now) (map (λ name. name.now) statics.now) (map (λ name. name.now) cols.now)) }
{
    if !are_kinds(ck) {
        return Ok(false);
    }
    if !are_few(ck.len(), statics.len(), cols.len()) {
        return Ok(false);
    }
    let named = are_names(alloc, statics, cols)?;
    Ok(named)
}

/// The schema of words within the limits.
#[tactic(auto, using(crate::proofs::Seen::map_seen))]
fn made(
    alloc: Global,
    ck: &[&[u8]],
    statics: &[&[u8]],
    cols: &[&[u8]],
) -> Result<Schema, AllocError>
    requires { IsTrue (is_schema (lists_named (map (λ word. word.now) ck.now) (map (λ name. name.now) statics.now) (map (λ name. name.now) cols.now))) }
    ensures { IfOk result (λ schema. schema ≡ lists_named (map (λ word. word.now) ck.now) (map (λ name. name.now) statics.now) (map (λ name. name.now) cols.now)) }
{
    let ck = kinds(alloc, ck)?;
    let statics = texts(alloc, statics)?;
    let cols = texts(alloc, cols)?;
    Ok(Schema { ck, statics, cols })
}

/// The schema of KINDS, NAMES and NAMES.
#[tactic(auto, using(crate::specs::laws::SchemaTexts::listed_tested))]
fn listed(
    alloc: Global,
    ck: &[u8],
    statics: &[u8],
    cols: &[u8],
) -> Result<Option<Schema>, AllocError>
    ensures { IfOk result (λ found. found ≡ schema_listed ck.now statics.now cols.now) }
{
    let ck = items(alloc, ck)?;
    let statics = names(alloc, statics)?;
    let cols = names(alloc, cols)?;
    if !are_listed(alloc, ck.as_slice(), statics.as_slice(), cols.as_slice())? {
        return Ok(None);
    }
    let schema = made(alloc, ck.as_slice(), statics.as_slice(), cols.as_slice())?;
    Ok(Some(schema))
}

/// The schema of three words.
fn marked(
    alloc: Global,
    ck: &[u8],
    statics: &[u8],
    cols: &[u8],
) -> Result<Option<Schema>, AllocError>
    ensures { IfOk result (λ found. found ≡ schema_of_marked_words ck.now statics.now cols.now) }
{
    if !ck.starts_with(b"ck=") {
        return Ok(None);
    }
    if !statics.starts_with(b"static=") {
        return Ok(None);
    }
    if !cols.starts_with(b"cols=") {
        return Ok(None);
    }
    listed(alloc, &ck[3..], &statics[7..], &cols[5..])
}

/// The schema of words.
fn worded(alloc: Global, words: &[&[u8]]) -> Result<Option<Schema>, AllocError>
    ensures { IfOk result (λ found. found ≡ schema_of_words (map (λ word. word.now) words.now)) }
{
    match words {
        [] => Ok(None),
        [_ck] => Ok(None),
        [_ck, _statics] => Ok(None),
        [ck, statics, cols] => marked(alloc, ck, statics, cols),
        [_ck, _statics, _cols, _more, _rest @ ..] => Ok(None),
    }
}

/// The schema of a text, where it has one.
fn found(alloc: Global, text: &[u8]) -> Result<Option<Schema>, AllocError>
    ensures { IfOk result (λ found. found ≡ schema_of text.now) }
{
    let parts = words(alloc, text)?;
    worded(alloc, parts.as_slice())
}

impl Schema {
    /// The schema of its text, `ck=KINDS static=NAMES cols=NAMES`. Malformed exactly where the text is not in that form
    /// or passes a limit; else the only error is want of memory.
    pub fn read(alloc: Global, text: &[u8]) -> Result<Self, SchemaTextErr>
        ensures { ReadsSchema result (schema_of text.now) }
    {
        match found(alloc, text) {
            Ok(Some(schema)) => Ok(schema),
            Ok(None) => Err(SchemaTextErr::Malformed),
            Err(_) => Err(SchemaTextErr::NoMemory),
        }
    }

    /// Its text, `ck=KINDS static=NAMES cols=NAMES`. The only error is want of memory.
    #[tactic(auto, unfolding(crate::specs::SchemaText::schema_text))]
    pub fn text(&self, alloc: Global) -> Result<Text, AllocError>
        ensures { IfOk result (λ text. text ≡ schema_text self.now) }
    {
        let mut text = Vec::from_slice(alloc, b"ck=")?;
        print_kinds(self.ck.as_slice(), &mut text)?;
        text.extend_from_slice(b" static=")?;
        print_names(self.statics.as_slice(), &mut text)?;
        text.extend_from_slice(b" cols=")?;
        print_names(self.cols.as_slice(), &mut text)?;
        Ok(Text::from_vec(text))
    }

    /// An equal schema. The only error is want of memory.
    pub fn copy(&self, alloc: Global) -> Result<Self, AllocError>
        ensures { IfOk result (λ schema. schema ≡ self.now) }
    {
        Ok(Schema {
            ck: Vec::from_slice(alloc, self.ck.as_slice())?,
            statics: copies(alloc, self.statics.as_slice())?,
            cols: copies(alloc, self.cols.as_slice())?,
        })
    }

    /// Whether another schema is the same.
    pub fn is_same(&self, other: &Schema) -> bool
        ensures { IsTrue result ↔ (self.now ≡ other.now) }
    {
        if !are_same_kinds(self.ck.as_slice(), other.ck.as_slice()) {
            return false;
        }
        if !are_same_names(self.statics.as_slice(), other.statics.as_slice()) {
            return false;
        }
        are_same_names(self.cols.as_slice(), other.cols.as_slice())
    }

    /// The kinds of its clustering components.
    pub fn ck(&self) -> &[CkKind]
        ensures value { result.now ≡ self.now.ck }
        ensures limits { IsTrue (is_schema self.now) }
    {
        self.ck.as_slice()
    }

    /// The names of its static columns, in its order.
    pub fn statics(&self) -> &[Text]
        ensures value { result.now ≡ self.now.statics }
        ensures limits { IsTrue (is_schema self.now) }
    {
        self.statics.as_slice()
    }

    /// The names of its regular columns, in its order.
    pub fn cols(&self) -> &[Text]
        ensures value { result.now ≡ self.now.cols }
        ensures limits { IsTrue (is_schema self.now) }
    {
        self.cols.as_slice()
    }

    /// The number of a regular column by its name. None exactly where no regular column has it.
    pub fn col(&self, name: &[u8]) -> Option<u8>
        ensures value { result ≡ column_of name.now self.now.cols }
        ensures within { IfSome result (λ column. column < length self.now.cols) }
    {
        column_of(self.cols.as_slice(), name)
    }

    /// The number of a static column by its name. None exactly where no static column has it.
    pub fn static_col(&self, name: &[u8]) -> Option<u8>
        ensures value { result ≡ column_of name.now self.now.statics }
        ensures within { IfSome result (λ column. column < length self.now.statics) }
    {
        column_of(self.statics.as_slice(), name)
    }

    /// The bytes of the largest entry of a row that fits the schema.
    pub fn largest_entry(&self) -> usize
        ensures value { result ≡ largest_entry self.now }
        ensures small { result ≤ 8952 }
    {
        let position = 2 + components_size(self.ck.as_slice());
        round_up(80 + position + 9 + 13 + 1 + 268 * self.cols.len())
    }

    /// The bytes of the largest static row that fits the schema.
    pub fn largest_static(&self) -> usize
        ensures value { result ≡ largest_static self.now }
        ensures small { result ≤ 2184 }
    {
        round_up(32 + 1 + 1 + 1 + 268 * self.statics.len())
    }

    /// Whether a clustering key, or where it need not be full a prefix of one, fits the schema. Refused as a wrong key
    /// exactly where a count or a kind of components differs, and else as too long exactly where a text component has
    /// more than 64 bytes.
    #[tactic(auto, unfolding(crate::specs::Checks::checked_prefix))]
    pub fn check_prefix(&self, key: &Key, full: bool) -> Result<(), SchemaErr>
        ensures value { result ≡ checked_prefix full self.now key.now }
        ensures limits { OnOk result (KeyFits key.now) }
    {
        if !fits_kinds(full, self.ck.as_slice(), key.as_slice()) {
            return Err(SchemaErr::WrongKey);
        }
        if !are_short(key.as_slice()) {
            return Err(SchemaErr::TooLong);
        }
        Ok(())
    }

    /// Whether the cells of a row, of the static row or of a clustered one, fit the schema. Refused for an unknown column
    /// exactly where a column's number is not in the schema, and else as too long exactly where a value has more than
    /// 256 bytes.
    #[tactic(auto, unfolding(crate::specs::Checks::checked_cells))]
    pub fn check_row(&self, row: &Row, is_static: bool) -> Result<(), SchemaErr>
        ensures value { result ≡ checked_cells is_static self.now row.now.cells }
        ensures limits { OnOk result (RowFits row.now) }
    {
        let columns = if is_static {
            self.statics.len()
        } else {
            self.cols.len()
        };
        if !are_known(row.cells.as_slice(), columns) {
            return Err(SchemaErr::UnknownColumn);
        }
        if !have_short_values(row.cells.as_slice()) {
            return Err(SchemaErr::TooLong);
        }
        Ok(())
    }
}

/// The number of a name among names, of which there are few.
fn column_of(names: &[Text], name: &[u8]) -> Option<u8>
    requires { length names.now ≤ 32 }
    ensures value { result ≡ column_of name.now names.now }
    ensures within { IfSome result (λ column. column < length names.now) }
{
    let at = place_of(names, name)?;
    Some(at as u8)
}

/// The place of a name among names.
fn place_of(names: &[Text], name: &[u8]) -> Option<usize>
    ensures value { result ≡ column_of name.now names.now }
    ensures within { IfSome result (λ at. at < length names.now) }
{
    names
        .iter()
        .position(|other| is_text(other.as_slice(), name))
}

/// The length of the longest code of a component of a kind.
fn component_size(kind: CkKind) -> usize
    ensures value { result ≡ component_size kind }
    ensures small { result ≤ 66 }
{
    match kind {
        CkKind::Int => 9,
        CkKind::Text => 66,
    }
}

/// The length of the longest codes of components of some kinds, together.
fn components_size(kinds: &[CkKind]) -> usize
    requires { length kinds.now ≤ 4 }
    ensures value { result ≡ components_size kinds.now }
    ensures small { result ≤ 264 }
{
    let mut left = kinds;
    let mut total = 0;
    while let [kind, rest @ ..] = left {
        total += component_size(*kind);
        left = rest;
    }
    total
}

/// Whether two lists of kinds are the same.
fn are_same_kinds(kinds: &[CkKind], others: &[CkKind]) -> bool
    ensures { IsTrue result ↔ (kinds.now ≡ others.now) }
{
    kinds == others
}

/// Whether two lists of names are the same.
fn are_same_names(names: &[Text], others: &[Text]) -> bool
    ensures { IsTrue result ↔ (names.now ≡ others.now) }
{
    names == others
}
