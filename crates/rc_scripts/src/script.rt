//! The script of a seed.

use crate::chance::Chance;
use crate::words::{Form, append_cell, append_cells, append_dt, append_key, append_names};
use std::alloc::{AllocError, Global};
use std::fmt::Write;

/// A script, and the budget that it is run with.
#[derive(Drop)]
pub(crate) struct Script {
    /// Its lines, each with its end.
    pub(crate) text: String,
    /// How many there are.
    pub(crate) lines: u64,
    /// How many segments of memory it is run with.
    pub(crate) segments: u32,
}

// How many lines stand behind the schema line: few in most scripts, and many in each sixteenth, so that segments are filled and emptied again; more of
// them where it is writes that make room.
fn count_of(seed: u64, compacts: bool, chance: &mut Chance) -> u32 {
    if !compacts {
        return 6000;
    }
    if seed % 16 == 0 {
        return 3000;
    }
    chance.below(280)
}

// How many segments a script is run with: the fewest where writes make room.
fn segments_of(compacts: bool, chance: &mut Chance) -> u32 {
    if !compacts {
        return 8;
    }
    chance.below(25).saturating_add(8)
}

/// The script of a seed.
pub(crate) fn script_of(alloc: Global, seed: u64) -> Result<Script, AllocError> {
    let mut chance = Chance::new(seed);
    let compacts = seed % 32 != 0;
    let segments = segments_of(compacts, &mut chance);
    let form = Form {
        schema: chance.below(3),
        rows: chance.below(12).saturating_add(2),
        compacts,
        moment: 0,
    };
    let count = count_of(seed, compacts, &mut chance);
    let mut text = String::new(alloc);
    append_lines(form, count, &mut chance, &mut text)?;
    let lines = u64::from(count).saturating_add(1);
    Ok(Script {
        text,
        lines,
        segments,
    })
}

// The schema line, and so many others.
fn append_lines(
    form: Form,
    count: u32,
    chance: &mut Chance,
    text: &mut String,
) -> Result<(), AllocError> {
    text.push_str(form.schema_line())?;
    text.push_str("\n")?;
    for number in 0..count {
        append_line(form.at(number), chance, text)?;
        text.push_str("\n")?;
    }
    Ok(())
}

// A line of any kind: most are writes and reads.
fn append_line(form: Form, chance: &mut Chance, text: &mut String) -> Result<(), AllocError> {
    match chance.below(100) {
        0..=59 => append_write(form, chance, text),
        60..=68 => append_open(form, chance, text),
        69..=84 => append_read(chance, text),
        85..=89 => append_close(chance, text),
        90 => text.push_str("flush"),
        91..=95 => append_compact(form, chance, text),
        96..=97 => append_evict(chance, text),
        98 => text.push_str("# a comment"),
        _ => text.push_str(form.schema_line()),
    }
}

// A write.
fn append_write(form: Form, chance: &mut Chance, text: &mut String) -> Result<(), AllocError> {
    match chance.below(40) {
        0..=9 => append_insert(form, chance, text),
        10..=23 => append_update(form, chance, text),
        24..=28 => append_unset(form, chance, text),
        29..=31 => append_delete(form, chance, text),
        32..=34 => append_delrange(form, chance, text),
        35 => append_delpart(form, chance, text),
        36..=38 => append_static(form, chance, text),
        _ => append_unstatic(form, chance, text),
    }
}

// A write of a marker, with some cells.
fn append_insert(form: Form, chance: &mut Chance, text: &mut String) -> Result<(), AllocError> {
    text.push_str("insert")?;
    append_key(chance, text)?;
    form.append_row(chance, text)?;
    form.append_ts(chance, 10, text)?;
    let set = chance.below(8);
    append_cells(chance, set, text)
}

// A set of columns of which there is one at least.
fn some_columns(chance: &mut Chance) -> u32 {
    chance.below(7).saturating_add(1)
}

// A write of live cells.
fn append_update(form: Form, chance: &mut Chance, text: &mut String) -> Result<(), AllocError> {
    text.push_str("update")?;
    append_key(chance, text)?;
    form.append_row(chance, text)?;
    form.append_ts(chance, 10, text)?;
    let set = some_columns(chance);
    append_cells(chance, set, text)
}

// A write of dead cells.
fn append_unset(form: Form, chance: &mut Chance, text: &mut String) -> Result<(), AllocError> {
    text.push_str("unset")?;
    append_key(chance, text)?;
    form.append_row(chance, text)?;
    form.append_ts(chance, 10, text)?;
    append_dt(chance, text)?;
    append_names(some_columns(chance), text)
}

// A write of a row tombstone.
fn append_delete(form: Form, chance: &mut Chance, text: &mut String) -> Result<(), AllocError> {
    text.push_str("delete")?;
    append_key(chance, text)?;
    form.append_row(chance, text)?;
    form.append_ts(chance, 10, text)?;
    append_dt(chance, text)
}

// A write of a range tombstone.
fn append_delrange(form: Form, chance: &mut Chance, text: &mut String) -> Result<(), AllocError> {
    text.push_str("delrange")?;
    append_key(chance, text)?;
    form.append_bounds(chance, text)?;
    form.append_ts(chance, 6, text)?;
    append_dt(chance, text)
}

// A write of a partition tombstone.
fn append_delpart(form: Form, chance: &mut Chance, text: &mut String) -> Result<(), AllocError> {
    text.push_str("delpart")?;
    append_key(chance, text)?;
    form.append_ts(chance, 6, text)?;
    append_dt(chance, text)
}

// A write of a live static cell.
fn append_static(form: Form, chance: &mut Chance, text: &mut String) -> Result<(), AllocError> {
    text.push_str("static")?;
    append_key(chance, text)?;
    form.append_ts(chance, 10, text)?;
    append_cell(chance, "s", text)
}

// A write of a dead static cell.
fn append_unstatic(form: Form, chance: &mut Chance, text: &mut String) -> Result<(), AllocError> {
    text.push_str("unstatic")?;
    append_key(chance, text)?;
    form.append_ts(chance, 10, text)?;
    append_dt(chance, text)?;
    text.push_str(" s")
}

// The id of a reader.
fn append_id(chance: &mut Chance, text: &mut String) -> Result<(), AllocError> {
    let id = chance.below(6).saturating_add(1);
    write!(text, " {id}")
}

// The opening of a reader, of a partition or of a slice of it.
fn append_open(form: Form, chance: &mut Chance, text: &mut String) -> Result<(), AllocError> {
    text.push_str("open")?;
    append_id(chance, text)?;
    append_key(chance, text)?;
    if chance.below(2) == 0 {
        return Ok(());
    }
    form.append_bounds(chance, text)
}

// A few lines of a reader.
fn append_read(chance: &mut Chance, text: &mut String) -> Result<(), AllocError> {
    text.push_str("read")?;
    append_id(chance, text)?;
    let count = chance.below(4).saturating_add(1);
    write!(text, " {count}")
}

// The closing of a reader.
fn append_close(chance: &mut Chance, text: &mut String) -> Result<(), AllocError> {
    text.push_str("close")?;
    append_id(chance, text)
}

// An eviction of a few objects.
fn append_evict(chance: &mut Chance, text: &mut String) -> Result<(), AllocError> {
    let count = chance.below(9).saturating_add(1);
    write!(text, "evict {count}")
}

// A compaction of at most so many segments, or a comment.
fn append_compact(form: Form, chance: &mut Chance, text: &mut String) -> Result<(), AllocError> {
    if !form.compacts {
        return text.push_str("# compact");
    }
    let count = chance.below(9).saturating_add(1);
    write!(text, "compact {count}")
}
