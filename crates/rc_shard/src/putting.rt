//! A write is put behind the later ones.
ghost use Rattle.std.specs.Prelude.{◌≡◌, List as Sequence, IfOk, OnErr, OnOk, true, false};
ghost use Rattle.rc_writes.specs.Allowed.{ChangeFits};
ghost use Rattle.rc_writes.specs.Single.{IsSingle};
ghost use Rattle.rc_mutation.specs.declared.mutations.Write.{Write as Written};
ghost use Rattle.rc_lookup.specs.Writes.{AreSmall};
ghost use Rattle.rc_lookup.specs.Memtables.{HaveWrites, IsFullFor};
ghost use Rattle.rc_shard.specs.Losing.{LosesForWrite};
ghost use Rattle.rc_shard.specs.calls.Caching.{IsFull};
ghost use Rattle.rc_shard.specs.calls.Storing.{KeepsUnstored, TakesWrite};

use crate::leaving::{what_calls_leave_of_the_cache, what_is_live_is_of_memtables};
use rc_lookup::Unstored;
use rc_lookup::footprint::a_write_evicts_where_memory_is_crowded;
use rc_lookup::unstored_laws::what_a_call_leaves_of_the_room;
use rc_mutation::Write;
use rc_schema::Schema;
use std::alloc::{AllocError, Global};

// Puts a write to one place, which fits the schema, behind the later ones, once there is room for it; false where there is none, nor can it be made. The only error is want of memory. Since what is live is what all chains take, also once room was made, memtables take more by at most the write's weight.
pub(crate) fn put_in(
    alloc: Global,
    unstored: &mut Unstored<131_072>,
    schema: &Schema,
    w: &Write,
) -> Result<bool, AllocError>
    requires small { AreSmall 131072 schema.now }
    requires single { IsSingle w.now.change }
    requires fits { ChangeFits schema.now w.now.change }
    requires kept { (writes : Sequence Written) × (later : Sequence Written) × HaveWrites schema.now unstored.old writes later }
    ensures put { IfOk result (λ done. done ≡ true → TakesWrite schema.now w.now unstored.old unstored.new) }
    ensures kept { IfOk result (λ done. done ≡ false → KeepsUnstored schema.now unstored.old unstored.new) }
    ensures none { IfOk result (λ done. done ≡ false → IsFullFor 131072 schema.now w.now unstored.new) }
    ensures full { IfOk result (λ done. done ≡ false → IsFull unstored.new.chains) }
    ensures skips { OnOk result (unstored.new.chains.counts.skipped ≡ unstored.old.chains.counts.skipped) }
    ensures crowds { OnOk result (LosesForWrite unstored.old.chains unstored.new.chains) }
    ensures err { OnErr result (KeepsUnstored schema.now unstored.old unstored.new) }
{
    a_write_evicts_where_memory_is_crowded();
    what_a_call_leaves_of_the_room();
    what_calls_leave_of_the_cache();
    what_is_live_is_of_memtables();
    unstored.chains.known();
    let done = unstored.put(alloc, schema, w)?;
    unstored.chains.known();
    Ok(done)
}
