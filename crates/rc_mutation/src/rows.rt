//! The rows of a partition, by clustering key.

ghost use Rattle.std.specs.Prelude.{◌≡◌, ◌≢◌, [], ◌∷◌, ◌++◌, All, IfErr, IfOk, IsTrue, OnErr, OnOk};
ghost use Rattle.std.specs.FinMap.{is_sorted};
ghost use Rattle.rc_cell.specs.Columns.{ascending};
ghost use Rattle.rc_cell.specs.Winner.{empty_row, joined_row};
ghost use Rattle.rc_position.specs.Position.{key_cmp};
ghost use Rattle.rc_mutation.specs.calls.Place.{IsAt, IsGapFor};
ghost use Rattle.rc_mutation.specs.Rows.{IsRows, joined_rows};

use rc_cell::Row;
use rc_position::Key;
use std::alloc::{AllocError, Global};
use std::cmp::Ordering;
use std::marker::Model;

/// The rows that writes speak of: pairs of a clustering key and its row, by strictly ascending key. Something was written
/// of each row.
#[derive(Drop)]
pub struct Rows {
    items: Vec<(Key, Row)>,
}

impl Model for Rows {
    ghost use Rattle.std.specs.Prelude.{List};
    ghost use Rattle.rc_cell.specs.declared.rows.Row.{Row};
    ghost use Rattle.rc_position.specs.declared.comps.Comp.{Comp};
    ghost use Rattle.rc_mutation.specs.Rows.{IsRows};

    ghost Value = { List (List Comp × Row) };

    ghost view = { λ r. r.items.items };

    ghost invariant = { λ r. IsRows r.items.items };
}

impl Rows {
    /// No rows.
    pub fn empty(alloc: Global) -> Self
        ensures { result ≡ [] }
    {
        Rows {
            items: Vec::new(alloc),
        }
    }

    /// The rows of these pairs, whose keys strictly ascend and of each of which something was written. The only error is
    /// want of memory.
    pub fn from_slice(alloc: Global, items: &[(Key, Row)]) -> Result<Self, AllocError>
        requires ascend { IsTrue (is_sorted key_cmp items.now) }
        requires written { All (λ e. e.1 ≢ empty_row) items.now }
        ensures { IfOk result (λ rows. rows ≡ items.now) }
    {
        let items = copied(alloc, items)?;
        Ok(Rows { items })
    }

    /// The row of one key, of which something was written, in the memory that holds both. The only error is want of
    /// memory.
    pub fn of_one(alloc: Global, key: Key, row: Row) -> Result<Self, AllocError>
        requires { row ≢ empty_row }
        ensures { IfOk result (λ rows. rows ≡ (key, row) ∷ []) }
    {
        let _cells = row.cells.as_slice();
        let mut items = Vec::new(alloc);
        items.push((key, row))?;
        Ok(Rows { items })
    }

    /// The pairs by strictly ascending key.
    pub fn as_slice(&self) -> &[(Key, Row)]
        ensures value { result.now ≡ self.now }
        ensures rows { IsRows self.now }
    {
        self.items.as_slice()
    }

    /// Equal rows of their own memory. The only error is want of memory.
    pub fn copy(&self, alloc: Global) -> Result<Self, AllocError>
        ensures { IfOk result (λ rows. rows ≡ self.now) }
    {
        Rows::from_slice(alloc, self.as_slice())
    }

    /// Joins what one more write says of the row at a key, of which something was written. The only error is want of
    /// memory, which leaves the rows as they were.
    pub fn join_row(&mut self, alloc: Global, key: &Key, row: &Row) -> Result<(), AllocError>
        requires { row.now ≢ empty_row }
        ensures ok { OnOk result (self.new ≡ joined_rows (self.old ++ (key.now, row.now) ∷ [])) }
        ensures err { OnErr result (self.new ≡ self.old) }
    {
        join_into(alloc, &mut self.items, key, row)
    }

    /// Joins what other writes say of rows. The work is linear in the rows of both. The only error is want of memory,
    /// which leaves the rows as they were.
    pub fn join(&mut self, alloc: Global, other: &Rows) -> Result<(), AllocError>
        ensures ok { OnOk result (self.new ≡ joined_rows (self.old ++ other.now)) }
        ensures err { OnErr result (self.new ≡ self.old) }
    {
        self.items = merged(alloc, self.items.as_slice(), other.items.as_slice())?;
        Ok(())
    }

    // What these rows and others join to. The work is linear in the rows of both.
    pub(crate) fn joined(&self, alloc: Global, other: &Rows) -> Result<Rows, AllocError>
        ensures { IfOk result (λ rows. rows ≡ joined_rows (self.now ++ other.now)) }
    {
        let items = merged(alloc, self.items.as_slice(), other.items.as_slice())?;
        Ok(Rows { items })
    }
}

// Joins one more row to the rows, at its key's place.
fn join_into(
    alloc: Global,
    items: &mut Vec<(Key, Row)>,
    key: &Key,
    row: &Row,
) -> Result<(), AllocError>
    requires rows { IsRows items.old.items }
    requires written { row.now ≢ empty_row }
    ensures ok { OnOk result (items.new.items ≡ joined_rows (items.old.items ++ (key.now, row.now) ∷ [])) }
    ensures rows { IsRows items.new.items }
    ensures err { OnErr result (items.new.items ≡ items.old.items) }
{
    let _cells = row.cells.as_slice();
    match place_of(items.as_slice(), key) {
        Ok(at) => items[at].1.join(alloc, row),
        Err(at) => {
            let key = key.copy(alloc)?;
            let row = row.copy(alloc)?;
            Ok(items.insert(at, (key, row))?)
        }
    }
}

// Where the key is among rows by ascending key, or where it would go.
fn place_of(items: &[(Key, Row)], key: &Key) -> Result<usize, usize>
    requires { IsTrue (is_sorted key_cmp items.now) }
    ensures found { IfOk result (IsAt items.now key.now) }
    ensures absent { IfErr result (IsGapFor items.now key.now) }
{
    items.binary_search_by(|item| item.0.cmp(key))
}

// The rows of both by ascending key, those of one key as one, each in its own memory.
fn merged(
    alloc: Global,
    ours: &[(Key, Row)],
    theirs: &[(Key, Row)],
) -> Result<Vec<(Key, Row)>, AllocError>
    requires ours { IsRows ours.now }
    requires theirs { IsRows theirs.now }
    ensures value { IfOk result (λ made. made.items ≡ joined_rows (ours.now ++ theirs.now)) }
    ensures rows { IfOk result (λ made. IsRows made.items) }
{
    let mut made = Vec::new(alloc);
    append_merged(alloc, &mut made, ours, theirs)?;
    Ok(made)
}

// Appends the rows of both by ascending key, those of one key as one.
fn append_merged(
    alloc: Global,
    made: &mut Vec<(Key, Row)>,
    ours: &[(Key, Row)],
    theirs: &[(Key, Row)],
) -> Result<(), AllocError>
    requires ours { IsRows ours.now }
    requires theirs { IsRows theirs.now }
    ensures { OnOk result (made.new.items ≡ made.old.items ++ joined_rows (ours.now ++ theirs.now)) }
{
    let mut ours = ours;
    let mut theirs = theirs;
    while let ([our_first, our_rest @ ..], [their_first, their_rest @ ..]) = (ours, theirs) {
        match our_first.0.cmp(&their_first.0) {
            Ordering::Less => {
                append_copy(alloc, made, our_first)?;
                ours = our_rest;
            }
            Ordering::Equal => {
                append_joined(alloc, made, our_first, their_first)?;
                ours = our_rest;
                theirs = their_rest;
            }
            Ordering::Greater => {
                append_copy(alloc, made, their_first)?;
                theirs = their_rest;
            }
        }
    }
    append_copies(alloc, made, ours)?;
    append_copies(alloc, made, theirs)
}

// Appends the row that two rows of one key join to.
fn append_joined(
    alloc: Global,
    made: &mut Vec<(Key, Row)>,
    ours: &(Key, Row),
    theirs: &(Key, Row),
) -> Result<(), AllocError>
    ensures { OnOk result (made.new.items ≡ made.old.items ++ (ours.now.0, joined_row (ours.now.1 ∷ theirs.now.1 ∷ [])) ∷ []) }
{
    let key = ours.0.copy(alloc)?;
    let mut row = ours.1.copy(alloc)?;
    row.join(alloc, &theirs.1)?;
    Ok(made.push((key, row))?)
}

// Appends an equal pair, whose cells ascend by column as those of every row do.
fn append_copy(
    alloc: Global,
    made: &mut Vec<(Key, Row)>,
    item: &(Key, Row),
) -> Result<(), AllocError>
    ensures value { OnOk result (made.new.items ≡ made.old.items ++ item.now ∷ []) }
    ensures by_column { IsTrue (ascending item.now.1.cells) }
{
    let _cells = item.1.cells.as_slice();
    let key = item.0.copy(alloc)?;
    let row = item.1.copy(alloc)?;
    Ok(made.push((key, row))?)
}

// Appends the pairs in their order, each in its own memory.
fn append_copies(
    alloc: Global,
    made: &mut Vec<(Key, Row)>,
    items: &[(Key, Row)],
) -> Result<(), AllocError>
    ensures { OnOk result (made.new.items ≡ made.old.items ++ items.now) }
{
    for item in items {
        append_copy(alloc, made, item)?;
    }
    Ok(())
}

// The pairs in their order, each in its own memory.
fn copied(alloc: Global, items: &[(Key, Row)]) -> Result<Vec<(Key, Row)>, AllocError>
    ensures value { IfOk result (λ made. made.items ≡ items.now) }
    ensures by_column { OnOk result (All (λ e. IsTrue (ascending e.1.cells)) items.now) }
{
    let mut made = Vec::with_capacity(alloc, items.len())?;
    for item in items {
        append_copy(alloc, &mut made, item)?;
    }
    Ok(made)
}
