// The names in the folder, and which of them are those of tables.
ghost use Rattle.std.specs.Prelude.{◌≡◌, ◌↔◌, ◌++◌, ℕ, Contains, IfOk, MatchResult, OnOk, OnErr, string_bytes, slice_index};
ghost use Rattle.std.specs.List.Sorted.{IsStrictlyIncreasing};
ghost use Rattle.rc_outside.specs.calls.TableNames.{ReadsTableName, TakesTableName, table_name};
ghost use Rattle.rc_outside.specs.calls.TableNames.{ReadsNumber, in_folder, draft_name};

use std::alloc::{AllocError, Global};

/// The folder of the tables, under the working directory.
pub(crate) const FOLDER: &str = "tables";

/// The path of table `n`.
pub(crate) fn table_path(alloc: Global, n: u32) -> Result<String, AllocError>
    ensures { IfOk result (λ path. string_bytes path ≡ in_folder (table_name n)) }
{
    format!(in alloc; "{FOLDER}/{n}.tbl")
}

/// The path of the file in which table `n` is built.
pub(crate) fn draft_path(alloc: Global, n: u32) -> Result<String, AllocError>
    ensures { IfOk result (λ path. string_bytes path ≡ in_folder (draft_name n)) }
{
    format!(in alloc; "{FOLDER}/{n}.tmp")
}

/// Puts the number of a name in the folder behind the others, where it is that of a table.
pub(crate) fn take_name(numbers: &mut Vec<u32>, name: &str) -> Result<(), AllocError>
    ensures { OnOk result (TakesTableName name.now numbers.old.items numbers.new.items) }
{
    if let Some(n) = table_number(name) {
        numbers.push(n)?;
    }
    Ok(())
}

/// The numbers in ascending order, each once.
pub(crate) fn in_order(numbers: Vec<u32>) -> Vec<u32>
    ensures ascending { IsStrictlyIncreasing result.items }
    ensures same { (n : ℕ) → Contains result.items n ↔ Contains numbers.items n }
{
    let mut numbers = numbers;
    numbers.sort_unstable();
    numbers.dedup();
    numbers
}

/// The number of the table that has this name in the folder; none for other names.
fn table_number(name: &str) -> Option<u32>
    ensures { ReadsTableName name.now result }
{
    let digits = name.strip_suffix(".tbl")?;
    read_number(digits)
}

/// The number that a text is in decimal, from 1 on: without a sign, and without a zero before it. None for other texts.
fn read_number(text: &str) -> Option<u32>
    ensures { ReadsNumber text.now result }
{
    let first = first_byte(text);
    if first == b'0' || first == b'+' {
        return None;
    }
    text.parse().ok()
}

/// The first byte of a text; 0 where it is empty.
fn first_byte(text: &str) -> u8
    ensures { result ≡ slice_index text.now 0 }
{
    text.as_bytes().first().copied().unwrap_or(0)
}
