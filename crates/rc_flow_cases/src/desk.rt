//! The cases as standard input lists them, line by line.

use crate::files::{change_file, number_and_rest};
use crate::readings::{Files, read_alone, read_counts, read_merged};
use crate::sweeps::{Sums, Sweep, Ways};
use crate::telling::tell_asked;
use crate::watched::Folder;
use crate::words::{Reading, join_items, reading_of};
use rc_mutation::Mutation;
use rc_schema::Schema;
use rc_stream::ListFrags;
use rc_tables::{TableFrags, TableSet};
use rc_tfile::check_table;
use std::alloc::{AllocError, Global};
use std::rc::Rc;

/// The schema of every table.
const SCHEMA: &[u8] = b"ck=int static=s cols=a,b";

/// The tables of a case.
#[derive(Drop)]
pub(crate) struct Desk {
    // Their schema, and what is done to a file behind the first call of the next reading.
    files: Files,
    // Those that were written and checked.
    tables: TableSet,
}

// The schema of every table.
fn schema_of(alloc: Global) -> Result<Rc<Schema>, AllocError> {
    match Schema::read(alloc, SCHEMA) {
        Ok(schema) => Ok(Rc::new(alloc, schema)?),
        Err(_) => Err(AllocError),
    }
}

fn files_of(alloc: Global) -> Result<Files, AllocError> {
    let schema = schema_of(alloc)?;
    Ok(Files {
        schema,
        between: String::new(alloc),
    })
}

impl Desk {
    /// No table yet.
    pub(crate) fn new(alloc: Global) -> Result<Self, AllocError> {
        let tables = TableSet::empty(alloc)?;
        Ok(Desk {
            files: files_of(alloc)?,
            tables,
        })
    }

    /// The next line, and what it tells. One that is none of a case is told.
    pub(crate) fn take(
        &mut self,
        alloc: Global,
        folder: &mut Folder<'_>,
        line: &str,
        text: &mut String,
    ) -> Result<(), AllocError> {
        if line.is_empty() || line.starts_with("#") || self.serve(alloc, folder, line, text)? {
            return Ok(());
        }
        text.push_str("? not done: ")?;
        text.push_str(line)?;
        text.push_str("\n")
    }

    // Does what a line says; whether it could be done.
    fn serve(
        &mut self,
        alloc: Global,
        folder: &mut Folder<'_>,
        line: &str,
        text: &mut String,
    ) -> Result<bool, AllocError> {
        let (kind, words) = line.split_once(' ').unwrap_or((line, ""));
        match kind {
            "case" => self.begin(alloc, words, text),
            "table" => self.add_table(alloc, folder, line),
            "behind" => self.keep_change(words),
            "read" => self.read(alloc, folder, words, text),
            "cuts" => self.sweep(alloc, folder, Ways::Cuts, words, text),
            "bits" => self.sweep(alloc, folder, Ways::Bits, words, text),
            _ => change_file(alloc, folder, self.files.schema.as_ref(), line),
        }
    }

    // The first line of a case.
    fn begin(&mut self, alloc: Global, name: &str, text: &mut String) -> Result<bool, AllocError> {
        self.tables = TableSet::empty(alloc)?;
        self.files.between.clear();
        text.push_str("case ")?;
        text.push_str(name)?;
        text.push_str("\n")?;
        Ok(true)
    }

    // A table is written, checked, and put behind the others.
    fn add_table(
        &mut self,
        alloc: Global,
        folder: &mut Folder<'_>,
        line: &str,
    ) -> Result<bool, AllocError> {
        if !change_file(alloc, folder, self.files.schema.as_ref(), line)? {
            return Ok(false);
        }
        let (_kind, words) = line.split_once(' ').unwrap_or((line, ""));
        match number_and_rest(words) {
            Some((number, _)) => self.add_checked(alloc, folder, number),
            None => Ok(false),
        }
    }

    // The table of a number is checked, and put behind the others; whether it is one.
    fn add_checked(
        &mut self,
        alloc: Global,
        folder: &mut Folder<'_>,
        number: u32,
    ) -> Result<bool, AllocError> {
        match check_table(alloc, folder, number, self.files.schema.as_ref()) {
            Ok(info) => {
                self.tables = self.tables.with(alloc, info)?;
                Ok(true)
            }
            Err(_) => Ok(false),
        }
    }

    // A file is changed behind the first call of the next reading.
    fn keep_change(&mut self, line: &str) -> Result<bool, AllocError> {
        self.files.between.clear();
        self.files.between.push_str(line)?;
        Ok(true)
    }

    // A stream of the tables.
    fn tables_at(&self, alloc: Global, reading: &Reading) -> Result<TableFrags, AllocError> {
        let key = reading.key.copy(alloc)?;
        let set = self.tables.share()?;
        Ok(TableFrags::lazy(set, self.files.schema.clone()?, key))
    }

    // A partition is read, with as many lists as are named; whether the line says how.
    fn read(
        &mut self,
        alloc: Global,
        folder: &mut Folder<'_>,
        words: &str,
        text: &mut String,
    ) -> Result<bool, AllocError> {
        let words = words.split(' ').collect::<Vec<&str>>(alloc)?;
        let read = self.read_words(alloc, folder, words.as_slice(), text)?;
        self.files.between.clear();
        Ok(read)
    }

    // The same of a line's words.
    fn read_words(
        &self,
        alloc: Global,
        folder: &mut Folder<'_>,
        words: &[&str],
        text: &mut String,
    ) -> Result<bool, AllocError> {
        let [key, first, last, lists @ ..] = words else {
            return Ok(false);
        };
        match reading_of(alloc, key, (first, last))? {
            Some(reading) => self.read_asked(alloc, folder, &reading, lists, text),
            None => Ok(false),
        }
    }

    // The same of a reading and some lists, and which ranges it asked for.
    fn read_asked(
        &self,
        alloc: Global,
        folder: &mut Folder<'_>,
        reading: &Reading,
        lists: &[&str],
        text: &mut String,
    ) -> Result<bool, AllocError> {
        folder.forget(alloc);
        let read = self.read_lists(alloc, folder, reading, lists, text)?;
        tell_asked(folder.asked(), text)?;
        Ok(read)
    }

    // A partition is read from the tables alone, or from one list or two and the tables; whether it could be.
    fn read_lists(
        &self,
        alloc: Global,
        folder: &mut Folder<'_>,
        reading: &Reading,
        lists: &[&str],
        text: &mut String,
    ) -> Result<bool, AllocError> {
        match lists {
            [] => {
                self.read_tables(alloc, folder, reading, text)?;
                Ok(true)
            }
            [one] => self.read_one(alloc, folder, reading, one, text),
            [one, two] => self.read_two(alloc, folder, reading, (one, two), text),
            _ => Ok(false),
        }
    }

    // A partition is read from the tables alone.
    fn read_tables(
        &self,
        alloc: Global,
        folder: &mut Folder<'_>,
        reading: &Reading,
        text: &mut String,
    ) -> Result<(), AllocError> {
        let mut tables = self.tables_at(alloc, reading)?;
        read_alone(alloc, folder, &self.files, &mut tables, reading, text)
    }

    // A partition is read from one list and the tables; whether the items are those of a list.
    fn read_one(
        &self,
        alloc: Global,
        folder: &mut Folder<'_>,
        reading: &Reading,
        items: &str,
        text: &mut String,
    ) -> Result<bool, AllocError> {
        let mut change = Mutation::empty(alloc);
        if join_items(alloc, &mut change, items)? {
            self.read_change(alloc, folder, reading, &change, text)?;
            return Ok(true);
        }
        Ok(false)
    }

    // The same of what a list says.
    fn read_change(
        &self,
        alloc: Global,
        folder: &mut Folder<'_>,
        reading: &Reading,
        change: &Mutation,
        text: &mut String,
    ) -> Result<(), AllocError> {
        let list = list_of(alloc, change)?;
        self.read_list(alloc, folder, reading, list, text)
    }

    fn read_list(
        &self,
        alloc: Global,
        folder: &mut Folder<'_>,
        reading: &Reading,
        list: ListFrags,
        text: &mut String,
    ) -> Result<(), AllocError> {
        let tables = self.tables_at(alloc, reading)?;
        read_merged(alloc, folder, &self.files, list, tables, reading, text)
    }

    // A partition is read from two lists and the tables; whether the items are those of lists.
    fn read_two(
        &self,
        alloc: Global,
        folder: &mut Folder<'_>,
        reading: &Reading,
        items: (&str, &str),
        text: &mut String,
    ) -> Result<bool, AllocError> {
        let mut one = Mutation::empty(alloc);
        let mut two = Mutation::empty(alloc);
        if join_both(alloc, &mut one, &mut two, items)? {
            self.read_both(alloc, folder, reading, &one, &two, text)?;
            return Ok(true);
        }
        Ok(false)
    }

    fn read_both(
        &self,
        alloc: Global,
        folder: &mut Folder<'_>,
        reading: &Reading,
        one: &Mutation,
        two: &Mutation,
        text: &mut String,
    ) -> Result<(), AllocError> {
        let one = list_of(alloc, one)?;
        let two = list_of(alloc, two)?;
        self.count_asked(alloc, folder, reading, (one, two), text)
    }

    fn count_asked(
        &self,
        alloc: Global,
        folder: &mut Folder<'_>,
        reading: &Reading,
        (one, two): (ListFrags, ListFrags),
        text: &mut String,
    ) -> Result<(), AllocError> {
        let tables = self.tables_at(alloc, reading)?;
        read_counts(alloc, folder, one, two, tables, reading, text)
    }

    // A file is another one in each of some ways in turn, and is read each time; whether each was.
    fn sweep(
        &self,
        alloc: Global,
        folder: &mut Folder<'_>,
        ways: Ways,
        words: &str,
        text: &mut String,
    ) -> Result<bool, AllocError> {
        let Some((number, words)) = number_and_rest(words) else {
            return Ok(false);
        };
        match Sweep::new(alloc, folder, number, ways)? {
            Some(sweep) => self.sweep_words(alloc, folder, &sweep, words, text),
            None => Ok(false),
        }
    }

    // The same of a file's ways, and of the words behind its number.
    fn sweep_words(
        &self,
        alloc: Global,
        folder: &mut Folder<'_>,
        sweep: &Sweep,
        words: &str,
        text: &mut String,
    ) -> Result<bool, AllocError> {
        let words = words.split(' ').collect::<Vec<&str>>(alloc)?;
        let mut sums = Sums::new();
        if self.swept(alloc, folder, sweep, words.as_slice(), &mut sums)? {
            sums.tell(text)?;
            return Ok(sweep.restore(alloc, folder));
        }
        Ok(false)
    }

    // Adds what these readings come to; whether the words say which.
    fn swept(
        &self,
        alloc: Global,
        folder: &mut Folder<'_>,
        sweep: &Sweep,
        words: &[&str],
        sums: &mut Sums,
    ) -> Result<bool, AllocError> {
        let [key, first, last] = words else {
            return Ok(false);
        };
        match reading_of(alloc, key, (first, last))? {
            Some(reading) => self.sweep_reading(alloc, folder, sweep, &reading, sums),
            None => Ok(false),
        }
    }

    // Adds what a reading comes to, in each way that the file is another one; whether it was each.
    fn sweep_reading(
        &self,
        alloc: Global,
        folder: &mut Folder<'_>,
        sweep: &Sweep,
        reading: &Reading,
        sums: &mut Sums,
    ) -> Result<bool, AllocError> {
        let mut before = String::new(alloc);
        self.read_tables(alloc, folder, reading, &mut before)?;
        for way in 0..sweep.count() {
            if !sweep.change(alloc, folder, way)? {
                return Ok(false);
            }
            self.add_way(alloc, folder, reading, before.as_str(), sums)?;
        }
        Ok(true)
    }

    // Adds one reading more, where the file as it was told that.
    fn add_way(
        &self,
        alloc: Global,
        folder: &mut Folder<'_>,
        reading: &Reading,
        before: &str,
        sums: &mut Sums,
    ) -> Result<(), AllocError> {
        folder.forget(alloc);
        let mut told = String::new(alloc);
        self.read_tables(alloc, folder, reading, &mut told)?;
        sums.add(told.as_str(), before);
        Ok(())
    }
}

// The list of what a mutation says.
fn list_of(alloc: Global, change: &Mutation) -> Result<ListFrags, AllocError> {
    let frags = change.fragments(alloc)?;
    Ok(ListFrags::new(frags))
}

// Joins the items of two texts; whether each is one.
fn join_both(
    alloc: Global,
    one: &mut Mutation,
    two: &mut Mutation,
    items: (&str, &str),
) -> Result<bool, AllocError> {
    Ok(join_items(alloc, one, items.0)? && join_items(alloc, two, items.1)?)
}
