//! The words of lines, as chance takes them: few keys, positions, timestamps and values, so that writes meet.

use crate::chance::Chance;
use std::alloc::AllocError;
use std::fmt::Write;

/// The schemas: rows by a number, by a word and a number, and by a number without a static column.
const SCHEMAS: [&str; 3] = [
    "schema ck=int static=s cols=a,b,c",
    "schema ck=text,int static=s cols=a,b,c",
    "schema ck=int static=- cols=a,b,c",
];

/// The keys of partitions.
const KEYS: [&str; 5] = ["p", "p", "q", "r", "k%20"];

/// The first components of keys of two.
const WORDS: [&str; 4] = ["x", "x", "y", "''"];

/// The columns.
const COLUMNS: [&str; 3] = ["a", "b", "c"];

/// Values, short and long.
const VALUES: [&str; 9] = [
    "",
    "5",
    "12",
    "%00",
    "ffffffffffffffffffffffffffffffffffffffffffffffffffffffffffffffffffffffffffffffffffffffffffffffffffffffffffffffffffffffffffffffffffffffffffffffffffffffffffffffff",
    "gggggggggggggggggggggggggggggggggggggggggggggggggggggggggggggggggggggggggggggggggggggggggggggggggggggggggggggggggggggggggggggggggggggggggggggggggggggggggggggggggggggggggggggggggggggggggggggggggggggggggggggggggggggggggggggggggggggggggggggggggggggggggggggggg",
    "hhhhhhhhhhhhhhhhhhhhhhhhhhhhhhhhhhhhhhhhhhhhhhhhhhhhhhhhhhhhhhhhhhhhhhhhhhhhhhhhhhhhhhhhhhhhhhhhhhhhhhhhhhhhhhhhhhhhhhhhhhhhhhhhhhhhhhhhhhhhhhhhhhhhhhhhhhhhhhhhhhhhhhhhhhhhhhhhhhhhhhhhhhhhhhhhhhhhhhhhhhhhhhhhhhhhhhhhhhhhhhhhhhhhhhhhhhhhhhhhhhhhhhhhhhhhhhhh",
    "kkkkkkkkkkkkkkkkkkkkkkkkkkkkkkkkkkkkkkkkkkkkkkkkkkkkkkkkkkkkkkkkkkkkkkkkkkkkkkkkkkkkkkkkkkkkkkkkkkkkkkkkkkkkkkkkkkkkkkkkkkkkkkkkkkkkkkkkkkkkkkkkkkkkkkkkkkkkkkkkkkkkkkkkkkkkkkkkkkkkkkkkkkkkkkkkkkkkkkkkkkkkkkkkkkkkkkkkkkkkkkkkkkkkkkkkkkkkkkkkkkkkkkkkkkkkkkkk",
    "mmmmmmmmmmmmmmmmmmmmmmmmmmmmmmmmmmmmmmmmmmmmmmmmmmmmmmmmmmmmmmmmmmmmmmmmmmmmmmmmmmmmmmmmmmmmmmmmmmmmmmmmmmmmmmmmmmmmmmmmmmmmmmmmmmmmmmmmmmmmmmmmmmmmmmmmmmmmmmmmmmmmmmmmmmmmmmmmmmmmmmmmmmmmmmmmmmmmmmmmmmmmmmmmmmmmmmmmmmmmmmmmmmmmmmmmmmmmmmmmmmmmmmmmmmmmmmmm",
];

/// What a line of a script goes by.
#[derive(Clone, Copy)]
pub(crate) struct Form {
    /// The number of the schema.
    pub(crate) schema: u32,
    /// How many rows a partition has.
    pub(crate) rows: u32,
    /// Whether there are lines that compact; where there are none, writes make room.
    pub(crate) compacts: bool,
    /// The least timestamp, which rises along a script: so rows come again behind what deletes them.
    pub(crate) moment: u32,
}

impl Form {
    /// The form of the line of this number.
    pub(crate) fn at(self, number: u32) -> Form {
        Form {
            schema: self.schema,
            rows: self.rows,
            compacts: self.compacts,
            moment: number / 8,
        }
    }

    /// One of so many timestamps.
    pub(crate) fn append_ts(
        self,
        chance: &mut Chance,
        count: u32,
        line: &mut String,
    ) -> Result<(), AllocError> {
        let ts = i64::from(self.moment)
            .wrapping_add(i64::from(chance.below(count)))
            .wrapping_sub(4);
        write!(line, " ts={ts}")
    }

    /// The schema line.
    pub(crate) fn schema_line(self) -> &'static str {
        match SCHEMAS.get(self.schema as usize) {
            Some(line) => line,
            None => "",
        }
    }

    // The first component of a clustering key, where there are two.
    fn append_word(self, chance: &mut Chance, line: &mut String) -> Result<(), AllocError> {
        if self.schema == 1 {
            let word = chance.pick(&WORDS);
            write!(line, "{word},")?;
        }
        Ok(())
    }

    /// A clustering key.
    pub(crate) fn append_row(
        self,
        chance: &mut Chance,
        line: &mut String,
    ) -> Result<(), AllocError> {
        line.push_str(" ")?;
        self.append_word(chance, line)?;
        let number = chance.below(self.rows);
        write!(line, "{number}")
    }

    /// Both bounds of a range of rows, or of all below or above one.
    pub(crate) fn append_bounds(
        self,
        chance: &mut Chance,
        line: &mut String,
    ) -> Result<(), AllocError> {
        let from = chance.below(self.rows);
        let to = from.saturating_add(chance.below(4));
        let word = chance.pick(&WORDS);
        line.push_str(" from=")?;
        self.append_from(chance, word, from, line)?;
        line.push_str(" to=")?;
        self.append_to(chance, word, to, line)
    }

    // A bound that a range begins at.
    fn append_from(
        self,
        chance: &mut Chance,
        word: &str,
        number: u32,
        line: &mut String,
    ) -> Result<(), AllocError> {
        match chance.below(7) {
            0 => line.push_str("-"),
            1 | 2 | 3 => {
                line.push_str("[")?;
                self.append_bound(word, number, line)
            }
            _ => {
                line.push_str("(")?;
                self.append_bound(word, number, line)
            }
        }
    }

    // A bound that a range ends at.
    fn append_to(
        self,
        chance: &mut Chance,
        word: &str,
        number: u32,
        line: &mut String,
    ) -> Result<(), AllocError> {
        match chance.below(7) {
            0 => line.push_str("-"),
            1 | 2 | 3 => {
                self.append_bound(word, number, line)?;
                line.push_str("]")
            }
            _ => {
                self.append_bound(word, number, line)?;
                line.push_str(")")
            }
        }
    }

    // The components of a bound; where there are two, that of each third number is the first one alone.
    fn append_bound(self, word: &str, number: u32, line: &mut String) -> Result<(), AllocError> {
        if self.schema != 1 {
            return write!(line, "{number}");
        }
        if number % 3 == 0 {
            return line.push_str(word);
        }
        write!(line, "{word},{number}")
    }
}

/// A partition key.
pub(crate) fn append_key(chance: &mut Chance, line: &mut String) -> Result<(), AllocError> {
    let key = chance.pick(&KEYS);
    write!(line, " {key}")
}

/// A deletion time.
pub(crate) fn append_dt(chance: &mut Chance, line: &mut String) -> Result<(), AllocError> {
    let dt = chance.below(3);
    write!(line, " dt={dt}")
}

// Whether a set of columns, by bits, has one of this number.
fn has(set: u32, number: usize) -> bool {
    match number {
        0 => set & 1 != 0,
        1 => set & 2 != 0,
        _ => set & 4 != 0,
    }
}

/// Cells of a set of columns.
pub(crate) fn append_cells(
    chance: &mut Chance,
    set: u32,
    line: &mut String,
) -> Result<(), AllocError> {
    for (number, column) in COLUMNS.iter().enumerate() {
        if has(set, number) {
            append_cell(chance, column, line)?;
        }
    }
    Ok(())
}

/// A cell.
pub(crate) fn append_cell(
    chance: &mut Chance,
    column: &str,
    line: &mut String,
) -> Result<(), AllocError> {
    let value = chance.pick(&VALUES);
    write!(line, " {column}={value}")
}

/// The names of a set of columns.
pub(crate) fn append_names(set: u32, line: &mut String) -> Result<(), AllocError> {
    for (number, column) in COLUMNS.iter().enumerate() {
        if has(set, number) {
            write!(line, " {column}")?;
        }
    }
    Ok(())
}
