//! Files read: the schema in the head of one.

ghost use Rattle.std.specs.Prelude.{◌≡◌, ◌≢◌, ◌≤◌, ◌+◌, ℕ, List, [], length, Some, Err, IfOk, OnOk};
ghost use Rattle.rc_outside.specs.Files.{HoldsSameFiles, IsFile};
ghost use Rattle.rc_items.specs.Items.{item_code, HeadItem, IsItem};
ghost use Rattle.rc_items.specs.Reading.{Starts};
ghost use Rattle.rc_tfile.specs.calls.Windows.{IsOpen, IsAheadIn, reads_left};
ghost use Rattle.rc_outside.specs.Faults.{RisesIfFault};
ghost use Rattle.rc_tfile.specs.Checking.{IsContent, ChecksHead, AsksFew, OnCheckFault};
ghost use Rattle.rc_tfile.specs.calls.Checking.{ChecksSized};

use crate::window::Window;
use rc_items::read_head;
use rc_outside::Store;
use rc_schema::Schema;
use std::alloc::Global;
use thiserror::Error;

/// Why a file is not taken as a table.
#[derive(Debug, Drop, Error)]
pub enum CheckErr {
    /// The store failed.
    #[error("the store failed")]
    Fault,
    /// The file is no table.
    #[error("damaged at {offset}")]
    Damaged {
        /// Where the first item begins that does not fit or is not whole, in bytes from the file's start.
        offset: u64,
    },
    /// The file has a well-formed head of another schema.
    #[error("of another schema")]
    OtherSchema,
    /// Memory ran out.
    #[error("out of memory")]
    NoMemory,
}

/// The head of the file and its length, read into the window. `CheckErr::Damaged` exactly where the file begins with no head.
pub(crate) fn head_of<W: Store>(
    alloc: Global,
    store: &mut W,
    file: &mut Window,
) -> Result<(Schema, usize), CheckErr>
    requires open { IsOpen (W.files store.old) file.old }
    requires start { IsAheadIn (W.files store.old) [] file.old }
    ensures store { HoldsSameFiles W.files W.building store.old store.new }
    ensures faults { RisesIfFault OnCheckFault result (W.faults store.old) (W.faults store.new) }
    ensures open { OnOk result (IsOpen (W.files store.new) file.new) }
    ensures told { OnOk result (IsAheadIn (W.files store.new) [] file.new) }
    ensures number { file.new.number ≡ file.old.number }
    ensures asks { W.asks store.new ≤ W.asks store.old + reads_left file.old }
    ensures spent { OnOk result (W.asks store.new + reads_left file.new ≤ W.asks store.old + reads_left file.old) }
    ensures once { W.asks store.new ≤ W.asks store.old + 1 }
    ensures never { result ≢ Err CheckErr.OtherSchema }
    ensures ahead { IfOk result (λ found. Starts (λ z. item_code (HeadItem z)) (λ z. IsItem (HeadItem z)) file.new.ahead (Some found)) }
    ensures within { IfOk result (λ found. found.1 ≤ length file.new.ahead) }
    ensures head { (content : List ℕ) → IsContent (W.files store.new) file.new.number content → ChecksSized content result }
{
    file.refill(alloc, store)?;
    match read_head(alloc, file.ahead()) {
        Ok(Some(found)) => Ok(found),
        Ok(None) => Err(CheckErr::Damaged { offset: 0 }),
        Err(_) => Err(CheckErr::NoMemory),
    }
}

/// The schema of the head of file `n`, which is there. `CheckErr::Damaged` exactly where the file begins with no head of any
/// schema; `CheckErr::Fault` when the store fails, and only then. It never answers `CheckErr::OtherSchema`.
pub fn read_schema<W: Store>(alloc: Global, store: &mut W, n: u32) -> Result<Schema, CheckErr>
    requires { IsFile (W.files store.old) n }
    ensures schema { (bytes : List ℕ) → IsContent (W.files store.old) n bytes → ChecksHead bytes result }
    ensures never { result ≢ Err CheckErr.OtherSchema }
    ensures store { HoldsSameFiles W.files W.building store.old store.new }
    ensures faults { RisesIfFault OnCheckFault result (W.faults store.old) (W.faults store.new) }
    ensures asks { (bytes : List ℕ) → IsContent (W.files store.old) n bytes → AsksFew (W.asks store.old) (W.asks store.new) bytes }
{
    match Window::open(alloc, store, n) {
        Ok(mut file) => match head_of(alloc, store, &mut file) {
            Ok((schema, _size)) => Ok(schema),
            Err(err) => Err(err),
        },
        Err(err) => Err(err),
    }
}
