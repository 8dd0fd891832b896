//! A partition read through a stream.

ghost use Rattle.rc_tables.specs.Streams.{MayBeCalledOver};

use crate::files::change_file;
use crate::telling::{tell_counts, tell_refusal};
use crate::walking::{read_head, read_rest};
use crate::watched::Folder;
use crate::words::Reading;
use rc_flows::read_through;
use rc_outside::Store;
use rc_schema::Schema;
use rc_stream::laws::a_new_merge_stands_for_both;
use rc_stream::{Frags, ListFrags, Merge, StreamErr};
use rc_tables::TableFrags;
use std::alloc::{AllocError, Global};
use std::rc::Rc;

/// The files of tables of a schema.
#[derive(Drop)]
pub(crate) struct Files {
    /// The schema.
    pub(crate) schema: Rc<Schema>,
    /// What is done to a file behind the first call of a reading, as a line says; nothing where it is empty.
    pub(crate) between: String,
}

// Changes a file, where one is to be changed.
fn change_between(
    alloc: Global,
    folder: &mut Folder<'_>,
    files: &Files,
    text: &mut String,
) -> Result<(), AllocError> {
    let line = files.between.as_str();
    if line.is_empty() || change_file(alloc, folder, files.schema.as_ref(), line)? {
        return Ok(());
    }
    text.push_str("? not changed\n")
}

// Tells what a stream gives behind its first call, which is made again where it was refused.
fn read_on<W: Store, S: Frags<(), W>>(
    alloc: Global,
    answered: bool,
    stream: &mut S,
    store: &mut W,
    reading: &Reading,
    text: &mut String,
) -> Result<(), AllocError>
    requires ready { S.ready stream.old tt store.old }
    requires ahead { S.ahead stream.old reading.now.from }
{
    if answered || read_head(alloc, stream, store, text)? {
        return read_rest(alloc, stream, store, &reading.from, &reading.upto, text);
    }
    Ok(())
}

/// Tells what the tables give alone.
pub(crate) fn read_alone(
    alloc: Global,
    folder: &mut Folder<'_>,
    files: &Files,
    tables: &mut TableFrags,
    reading: &Reading,
    text: &mut String,
) -> Result<(), AllocError> {
    let answered = read_head(alloc, tables, folder, text)?;
    change_between(alloc, folder, files, text)?;
    read_on(alloc, answered, tables, folder, reading, text)
}

/// Tells what a list and the tables give as one stream.
pub(crate) fn read_merged(
    alloc: Global,
    folder: &mut Folder<'_>,
    files: &Files,
    list: ListFrags,
    tables: TableFrags,
    reading: &Reading,
    text: &mut String,
) -> Result<(), AllocError> {
    a_new_merge_stands_for_both::<(), Folder<'_>, ListFrags, TableFrags>();
    let mut stream = Merge::new(list, tables);
    let answered = read_head(alloc, &mut stream, folder, text)?;
    change_between(alloc, folder, files, text)?;
    read_on(alloc, answered, &mut stream, folder, reading, text)
}

// For how many ranges two lists and the tables as one stream ask, at the head and in all.
fn counts<W: Store>(
    alloc: Global,
    store: &mut W,
    one: ListFrags,
    two: ListFrags,
    tables: TableFrags,
    reading: &Reading,
) -> Result<(u64, u64), StreamErr>
    requires { MayBeCalledOver (W.files store.old) tables }
{
    let before = store.asks();
    match read_through(alloc, store, one, two, tables, &reading.from, &reading.upto) {
        Ok((at_head, in_all)) => Ok((
            at_head.saturating_sub(before),
            in_all.saturating_sub(before),
        )),
        Err(error) => Err(error),
    }
}

/// Tells for how many ranges two lists and the tables as one stream ask, at the head and in all.
pub(crate) fn read_counts(
    alloc: Global,
    folder: &mut Folder<'_>,
    one: ListFrags,
    two: ListFrags,
    tables: TableFrags,
    reading: &Reading,
    text: &mut String,
) -> Result<(), AllocError> {
    match counts(alloc, folder, one, two, tables, reading) {
        Ok((at_head, in_all)) => tell_counts(at_head, in_all, text),
        Err(error) => tell_refusal(&error, text),
    }
}
