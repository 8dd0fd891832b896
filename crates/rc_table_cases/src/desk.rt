//! The cases as standard input lists them, line by line.

use crate::checks::{Question, tell};
use crate::stores::{Failing, failing_of, tell_calls};
use crate::tables::{part_of, written};
use crate::telling::tell_bytes;
use crate::{ends, stores};
use rc_mutation::Partition;
use rc_outside::SureStore;
use rc_schema::Schema;
use std::alloc::{AllocError, Global};
use std::fmt::Write;

/// The schema of the tables.
const SCHEMA: &[u8] = b"ck=int static=s cols=a,b";

/// A file, and what is printed so far.
#[derive(Drop)]
pub(crate) struct Desk {
    schema: Schema,
    file: Vec<u8>,
    // The call that fails while the next question is answered, or the next table written.
    failing: Option<Failing>,
    // A store that never fails.
    store: SureStore,
    text: String,
}

// The schema of a text.
fn schema_of(alloc: Global, text: &[u8]) -> Result<Schema, AllocError> {
    match Schema::read(alloc, text) {
        Ok(schema) => Ok(schema),
        Err(_) => Err(AllocError),
    }
}

// Two numbers with a space between them.
fn two_numbers(text: &str) -> Option<(i64, i64)> {
    let (first, last) = text.split_once(' ')?;
    let first = first.parse::<i64>().ok()?;
    let last = last.parse::<i64>().ok()?;
    Some((first, last))
}

// Raises the byte at an offset by one; whether there is one.
fn raise(bytes: &mut [u8], offset: usize) -> bool {
    match bytes.get_mut(offset) {
        Some(byte) => {
            *byte = byte.wrapping_add(1);
            true
        }
        None => false,
    }
}

impl Desk {
    /// An empty file.
    pub(crate) fn new(alloc: Global) -> Result<Self, AllocError> {
        Ok(Desk {
            schema: schema_of(alloc, SCHEMA)?,
            file: Vec::new(alloc),
            failing: None,
            store: SureStore::new(alloc)?,
            text: String::new(alloc),
        })
    }

    /// What is printed.
    pub(crate) fn told(&self) -> &str {
        self.text.as_str()
    }

    /// The next line. One that is no case is told.
    pub(crate) fn take(&mut self, alloc: Global, line: &str) -> Result<(), AllocError> {
        if line.is_empty() || line.starts_with("#") {
            return Ok(());
        }
        let (kind, text) = line.split_once(' ').unwrap_or((line, ""));
        if self.serve(alloc, kind, text)? {
            return Ok(());
        }
        self.text.push_str("? not done: ")?;
        self.text.push_str(line)?;
        self.text.push_str("\n")
    }

    // Does what a line says; whether it could be done.
    fn serve(&mut self, alloc: Global, kind: &str, text: &str) -> Result<bool, AllocError> {
        match kind {
            "file" => self.begin(alloc, text),
            "more" => self.add(alloc, text),
            "rows" => self.write_rows(alloc, text),
            "none" => self.write(alloc, &[]),
            "bytes" => self.show(alloc),
            "failing" => self.keep_failing(text),
            "check" => self.ask(alloc, Question::Table),
            "head" => self.ask(alloc, Question::Head),
            "cut" => self.ask_cut(alloc, text, Question::Table),
            "cuthead" => self.ask_cut(alloc, text, Question::Head),
            "byte" => self.ask_changed(alloc, text),
            "behind" => self.ask_other(alloc, text),
            "under" => self.ask_under(alloc, text),
            "pull" => self.pull(alloc, text),
            "push" => ends::push(alloc, text, &mut self.text),
            "call" => self.call(alloc, text),
            "store" => stores::serve(alloc, &mut self.store, text, &mut self.text),
            _ => Ok(false),
        }
    }

    // What pulls of a source give.
    fn pull(&mut self, alloc: Global, text: &str) -> Result<bool, AllocError> {
        match text.split_once(' ') {
            Some((room, fails)) => ends::pull(alloc, room, fails, &mut self.text),
            None => Ok(false),
        }
    }

    // What calls of a store answer.
    fn call(&mut self, alloc: Global, text: &str) -> Result<bool, AllocError> {
        match failing_of(text) {
            Some(failing) => {
                tell_calls(alloc, failing, &mut self.text)?;
                Ok(true)
            }
            None => Ok(false),
        }
    }

    // A file begins with these bytes.
    fn begin(&mut self, alloc: Global, text: &str) -> Result<bool, AllocError> {
        self.file = Vec::new(alloc);
        self.add(alloc, text)
    }

    // These bytes stand behind the others.
    fn add(&mut self, alloc: Global, text: &str) -> Result<bool, AllocError> {
        let Ok(bytes) = hex::decode(alloc, text.as_bytes()) else {
            return Ok(false);
        };
        self.file.extend_from_slice(bytes.as_slice())?;
        Ok(true)
    }

    // The file is the table of the partition of rows from one number up to before another one.
    fn write_rows(&mut self, alloc: Global, text: &str) -> Result<bool, AllocError> {
        match two_numbers(text) {
            Some((first, last)) => self.write(alloc, &[part_of(alloc, first, last)?]),
            None => Ok(false),
        }
    }

    // The file is the table of these partitions; or the store failed, and there is none.
    fn write(&mut self, alloc: Global, parts: &[Partition]) -> Result<bool, AllocError> {
        let failing = self.failing.take();
        match written(alloc, parts, &self.schema, failing, &mut self.text)? {
            Some(bytes) => {
                self.file = bytes;
                self.tell_size()?;
            }
            None => self.text.push_str("no file\n")?,
        }
        Ok(true)
    }

    // Tells how many bytes the file has.
    fn tell_size(&mut self) -> Result<(), AllocError> {
        let count = self.file.len();
        write!(self.text, "{count} bytes\n")
    }

    // The bytes of the file.
    fn show(&mut self, alloc: Global) -> Result<bool, AllocError> {
        tell_bytes(alloc, self.file.as_slice(), &mut self.text)?;
        Ok(true)
    }

    // A call fails while the next question is answered, or the next table written.
    fn keep_failing(&mut self, text: &str) -> Result<bool, AllocError> {
        self.failing = failing_of(text);
        Ok(self.failing.is_some())
    }

    // The answer to a question of these bytes.
    fn ask_of(
        &mut self,
        alloc: Global,
        bytes: Vec<u8>,
        question: Question,
    ) -> Result<bool, AllocError> {
        let failing = self.failing.take();
        tell(
            alloc,
            bytes,
            &self.schema,
            question,
            failing,
            &mut self.text,
        )?;
        Ok(true)
    }

    // The answer to a question of the file.
    fn ask(&mut self, alloc: Global, question: Question) -> Result<bool, AllocError> {
        let bytes = Vec::from_slice(alloc, self.file.as_slice())?;
        self.ask_of(alloc, bytes, question)
    }

    // The answer to a question of so many of its first bytes.
    fn ask_cut(
        &mut self,
        alloc: Global,
        text: &str,
        question: Question,
    ) -> Result<bool, AllocError> {
        let Ok(count) = text.parse::<usize>() else {
            return Ok(false);
        };
        let mut bytes = Vec::from_slice(alloc, self.file.as_slice())?;
        bytes.truncate(count);
        self.ask_of(alloc, bytes, question)
    }

    // Whether it is a table with the byte at an offset raised by one.
    fn ask_changed(&mut self, alloc: Global, text: &str) -> Result<bool, AllocError> {
        let mut bytes = Vec::from_slice(alloc, self.file.as_slice())?;
        match text.parse::<usize>() {
            Ok(offset) if raise(bytes.as_mut_slice(), offset) => {
                self.ask_of(alloc, bytes, Question::Table)
            }
            _ => Ok(false),
        }
    }

    // Whether so many of its first bytes with others behind them are a table.
    fn ask_other(&mut self, alloc: Global, text: &str) -> Result<bool, AllocError> {
        match self.with_others(alloc, text)? {
            Some(bytes) => self.ask_of(alloc, bytes, Question::Table),
            None => Ok(false),
        }
    }

    // So many of its first bytes with others behind them; none where the words do not say which.
    fn with_others(&self, alloc: Global, text: &str) -> Result<Option<Vec<u8>>, AllocError> {
        let Some((count, others)) = text.split_once(' ') else {
            return Ok(None);
        };
        let Ok(count) = count.parse::<usize>() else {
            return Ok(None);
        };
        let Ok(others) = hex::decode(alloc, others.as_bytes()) else {
            return Ok(None);
        };
        Ok(Some(self.joined(alloc, count, others.as_slice())?))
    }

    // So many of its first bytes with these behind them.
    fn joined(&self, alloc: Global, count: usize, others: &[u8]) -> Result<Vec<u8>, AllocError> {
        let mut bytes = Vec::from_slice(alloc, self.file.as_slice())?;
        bytes.truncate(count);
        bytes.extend_from_slice(others)?;
        Ok(bytes)
    }

    // Whether it is a table of another schema.
    fn ask_under(&mut self, alloc: Global, text: &str) -> Result<bool, AllocError> {
        let other = schema_of(alloc, text.as_bytes())?;
        let bytes = Vec::from_slice(alloc, self.file.as_slice())?;
        tell(alloc, bytes, &other, Question::Table, None, &mut self.text)?;
        Ok(true)
    }
}
