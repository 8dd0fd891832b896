//! A partition read from one table.

ghost use Rattle.std.specs.Prelude.{◌≡◌, ◌≤◌, ◌+◌, ◌∷◌, IfErr, IfOk};
ghost use Rattle.rc_outside.specs.Files.{HoldsSameFiles};
ghost use Rattle.rc_mutation.specs.declared.mutations.Partition.{Partition};
ghost use Rattle.rc_stream.specs.Causes.{Caused};
ghost use Rattle.rc_stream.specs.Showing.{IsNamed};
ghost use Rattle.rc_tables.specs.Located.{Contradicts, SaysOf, WhereTold};
ghost use Rattle.rc_tables.specs.calls.Located.{IsLocatedOf};

use crate::decoding::decode;
use crate::locating::{locate, read_range};
use rc_mutation::Mutation;
use rc_outside::Store;
use rc_schema::Schema;
use rc_stream::StreamErr;
use rc_tfile::PartRef;
use std::alloc::Global;

/// What file `n`, a table of the schema whose directory begins at `dir`, says of the first of these partitions. At most two ranges are asked for.
/// `StreamErr::Fault` when the store fails, `StreamErr::Damaged` where the file is not the table that lists the partitions so,
/// `StreamErr::NoMemory` when memory is refused.
pub(crate) fn read_partition<W: Store>(
    alloc: Global,
    store: &mut W,
    n: u32,
    dir: u64,
    here: &PartRef,
    later: &[PartRef],
    schema: &Schema,
) -> Result<Mutation, StreamErr>
    requires { WhereTold (W.files store.old) ((p : Partition) × IsLocatedOf (W.files store.old) schema.now n dir (here.now ∷ later.now) p) }
    ensures change { (p : Partition) → IsLocatedOf (W.files store.old) schema.now n dir (here.now ∷ later.now) p → IfOk result (λ m. m ≡ p.change) }
    ensures fits { IfOk result (SaysOf schema.now) }
    ensures damaged { IfErr result (IsNamed (Contradicts schema.now n dir here.now later.now)) }
    ensures cause { Caused result (W.files store.old) (W.faults store.old) (W.faults store.new) }
    ensures store { HoldsSameFiles W.files W.building store.old store.new }
    ensures asks { W.asks store.new ≤ W.asks store.old + 2 }
{
    let span = locate(alloc, store, n, dir, here, later)?;
    let count = (span.to - span.from) as usize;
    let bytes = read_range(alloc, store, n, span.from, count)?;
    match decode(alloc, bytes.as_slice(), &here.key, schema) {
        Ok(Some(change)) => Ok(change),
        Ok(None) => Err(StreamErr::Damaged {
            file: n,
            offset: span.from,
        }),
        Err(_) => Err(StreamErr::NoMemory),
    }
}
