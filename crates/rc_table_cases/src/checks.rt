//! Bytes that are checked as a file.

ghost use Rattle.rc_outside.specs.Files.{IsFile};

use crate::stores::Failing;
use crate::telling::{tell_asked, tell_info, tell_refusal, tell_schema};
use rc_outside::{MemStore, Store};
use rc_schema::Schema;
use rc_tfile::{TableInfo, check_table, read_schema};
use std::alloc::{AllocError, Global};

/// What is asked of a file.
#[derive(Clone, Copy, Debug)]
pub(crate) enum Question {
    /// Whether it is a table.
    Table,
    /// What the schema of its head is.
    Head,
}

// A call of a store fails, where one is to.
fn fail(store: &mut MemStore, failing: Option<Failing>) -> Result<(), AllocError> {
    match failing {
        Some(failing) => store.fail_nth(failing.call, failing.nth),
        None => Ok(()),
    }
}

// A store in which file 1 has these bytes.
fn holding(alloc: Global, bytes: Vec<u8>) -> Result<MemStore, AllocError> {
    let mut store = MemStore::new(alloc)?;
    store.put_file(1, bytes)?;
    Ok(store)
}

// Tells the copy of what is known of a table.
fn tell_copy(alloc: Global, info: &TableInfo, text: &mut String) -> Result<(), AllocError> {
    let same = info.copy(alloc)?;
    tell_info(&same, text)
}

// Tells whether file 1 is a table of the schema.
fn tell_check<W: Store>(
    alloc: Global,
    store: &mut W,
    schema: &Schema,
    text: &mut String,
) -> Result<(), AllocError>
    requires { IsFile (W.files store.old) 1 }
{
    match check_table(alloc, store, 1, schema) {
        Ok(info) => {
            tell_copy(alloc, &info, text)?;
            tell_asked(store.asks(), text)
        }
        Err(refusal) => tell_refusal(&refusal, text),
    }
}

// Tells the schema of the head of file 1.
fn tell_head<W: Store>(alloc: Global, store: &mut W, text: &mut String) -> Result<(), AllocError>
    requires { IsFile (W.files store.old) 1 }
{
    match read_schema(alloc, store, 1) {
        Ok(schema) => {
            tell_schema(alloc, &schema, text)?;
            tell_asked(store.asks(), text)
        }
        Err(refusal) => tell_refusal(&refusal, text),
    }
}

// Tells what is asked of file 1 of a store.
fn tell_asked_of(
    alloc: Global,
    store: &mut MemStore,
    schema: &Schema,
    question: Question,
    text: &mut String,
) -> Result<(), AllocError> {
    if store.file(1).is_none() {
        return text.push_str("no file\n");
    }
    match question {
        Question::Table => tell_check(alloc, store, schema, text),
        Question::Head => tell_head(alloc, store, text),
    }
}

/// Tells what is asked of a file of these bytes.
pub(crate) fn tell(
    alloc: Global,
    bytes: Vec<u8>,
    schema: &Schema,
    question: Question,
    failing: Option<Failing>,
    text: &mut String,
) -> Result<(), AllocError> {
    let mut store = holding(alloc, bytes)?;
    fail(&mut store, failing)?;
    tell_asked_of(alloc, &mut store, schema, question, text)
}
