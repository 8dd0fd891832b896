//! The tables of a folder, checked one after another when it is opened.

ghost use Rattle.std.specs.Prelude.{◌≡◌, ◌≤◌, ◌+◌, ◌++◌, ℕ, [], ◌∷◌, IfErr, IfOk, IfSome, List, OnOk};
ghost use Rattle.std.specs.FinMap.{values};
ghost use Rattle.rc_outside.specs.Files.{HoldsSameFiles, AreNumbers, IsFile};
ghost use Rattle.rc_tfile.specs.declared.info.TableInfo.{TableInfo};
ghost use Rattle.rc_tfile.specs.Checking.{IsContent, AsksFew};
ghost use Rattle.rc_machine.specs.State.{Table};
ghost use Rattle.rc_machine.specs.Tables.{AreListed, AreTables};
ghost use Rattle.rc_machine.specs.Serving.{checks_of};
ghost use Rattle.rc_outside.specs.Faults.{RisesIfFault};
ghost use Rattle.rc_folder.specs.Opening.{IsOpeningRefused, OnOpenFault};
ghost use Rattle.rc_folder.specs.calls.Opening.{IsBadFile, IsChecked};

use rc_outside::{Store, StoreErr};
use rc_schema::Schema;
use rc_tables::TableSet;
use rc_tfile::{CheckErr, TableInfo, check_table};
use std::alloc::Global;
use thiserror::Error;

/// Why a folder was not opened.
#[derive(Debug, Drop, Error)]
pub enum OpenErr {
    /// The store failed.
    #[error("the store failed")]
    Fault,
    /// A file is no table.
    #[error("table {table} is damaged at {offset}")]
    Damaged {
        /// The file's number: no file of a lower number is bad.
        table: u32,
        /// Where the first item begins that does not fit or is not whole, in bytes from the file's start.
        offset: u64,
    },
    /// A file has a well-formed head of another schema.
    #[error("table {table} is of another schema")]
    OtherSchema {
        /// The file's number: no file of a lower number is bad.
        table: u32,
    },
    /// Memory ran out.
    #[error("out of memory")]
    NoMemory,
}

// What is known of file `n`, which is a table of the schema.
fn checked<W: Store>(
    alloc: Global,
    store: &mut W,
    n: u32,
    schema: &Schema,
) -> Result<TableInfo, OpenErr>
    requires { IsFile (W.files store.old) n }
    ensures table { IfOk result (IsChecked (W.files store.old) schema.now n) }
    ensures bad { IfErr result (IsBadFile (W.files store.old) schema.now n) }
    ensures faults { RisesIfFault OnOpenFault result (W.faults store.old) (W.faults store.new) }
    ensures store { HoldsSameFiles W.files W.building store.old store.new }
    ensures asks { (bytes : List ℕ) → IsContent (W.files store.old) n bytes → AsksFew (W.asks store.old) (W.asks store.new) bytes }
{
    match check_table(alloc, store, n, schema) {
        Ok(info) => Ok(TableInfo {
            number: n,
            parts: info.parts,
        }),
        Err(CheckErr::Fault) => Err(OpenErr::Fault),
        Err(CheckErr::Damaged { offset }) => Err(OpenErr::Damaged { table: n, offset }),
        Err(CheckErr::OtherSchema) => Err(OpenErr::OtherSchema { table: n }),
        Err(CheckErr::NoMemory) => Err(OpenErr::NoMemory),
    }
}

// Puts what is known of file `n`, which is a table of the schema, behind the others.
fn add_checked<W: Store>(
    alloc: Global,
    store: &mut W,
    n: u32,
    schema: &Schema,
    tables: &mut TableSet,
) -> Result<(), OpenErr>
    requires { IsFile (W.files store.old) n }
    ensures added { OnOk result ((info : TableInfo) × IsChecked (W.files store.old) schema.now n info × (tables.new ≡ tables.old ++ info ∷ [])) }
    ensures bad { IfErr result (IsBadFile (W.files store.old) schema.now n) }
    ensures faults { RisesIfFault OnOpenFault result (W.faults store.old) (W.faults store.new) }
    ensures store { HoldsSameFiles W.files W.building store.old store.new }
    ensures asks { (bytes : List ℕ) → IsContent (W.files store.old) n bytes → AsksFew (W.asks store.old) (W.asks store.new) bytes }
{
    match checked(alloc, store, n, schema) {
        Ok(info) => match tables.with(alloc, info) {
            Ok(more) => {
                *tables = more;
                Ok(())
            }
            Err(_) => Err(OpenErr::NoMemory),
        },
        Err(error) => Err(error),
    }
}

// What is known of each of the files with these numbers, which are all of the folder's, put behind no tables.
fn check_each<W: Store>(
    alloc: Global,
    store: &mut W,
    numbers: &[u32],
    schema: &Schema,
    none: TableSet,
) -> Result<TableSet, OpenErr>
    requires all { AreNumbers (W.files store.old) numbers.now }
    requires none { none ≡ [] }
    ensures tables { IfOk result (λ infos. (tables : List Table) × AreTables (W.files store.old) schema.now tables × AreListed (W.files store.old) schema.now tables infos) }
    ensures refused { IfErr result (IsOpeningRefused (W.files store.old) schema.now) }
    ensures faults { RisesIfFault OnOpenFault result (W.faults store.old) (W.faults store.new) }
    ensures store { HoldsSameFiles W.files W.building store.old store.new }
    ensures asks { IfSome (W.files store.old) (λ told. W.asks store.new ≤ W.asks store.old + checks_of (values told)) }
{
    let mut tables = none;
    for n in numbers {
        match add_checked(alloc, store, *n, schema, &mut tables) {
            Ok(()) => {}
            Err(error) => return Err(error),
        }
    }
    Ok(tables)
}

/// What is known of each table of the folder, by ascending number. The first file that is no table of the schema is named;
/// `OpenErr::Fault` comes when the store fails, and only then; `OpenErr::NoMemory` when memory is refused.
pub(crate) fn check_tables<W: Store>(
    alloc: Global,
    store: &mut W,
    schema: &Schema,
) -> Result<TableSet, OpenErr>
    ensures tables { IfOk result (λ infos. (tables : List Table) × AreTables (W.files store.old) schema.now tables × AreListed (W.files store.old) schema.now tables infos) }
    ensures refused { IfErr result (IsOpeningRefused (W.files store.old) schema.now) }
    ensures faults { RisesIfFault OnOpenFault result (W.faults store.old) (W.faults store.new) }
    ensures store { HoldsSameFiles W.files W.building store.old store.new }
    ensures asks { IfSome (W.files store.old) (λ told. W.asks store.new ≤ W.asks store.old + checks_of (values told)) }
{
    match store.numbers(alloc) {
        Ok(numbers) => match TableSet::empty(alloc) {
            Ok(none) => check_each(alloc, store, numbers.as_slice(), schema, none),
            Err(_) => Err(OpenErr::NoMemory),
        },
        Err(StoreErr::Fault) => Err(OpenErr::Fault),
        Err(StoreErr::NoMemory) => Err(OpenErr::NoMemory),
    }
}
