//! Sparse segments are emptied where that is told.
ghost use Rattle.rc_schema.specs.SchemaValue.{SchemaValue};
ghost use Rattle.rc_shard.specs.Compacting.{AreSparseEmptied};
ghost use Rattle.rc_shard.specs.calls.Storing.{KeepsUnstored};

use crate::leaving::what_calls_leave_of_the_cache;
use rc_lookup::Unstored;
use rc_lookup::unstored_laws::what_a_call_leaves_of_the_room;

// Empties the sparsest segments, one after another: so many, or until none is sparse.
pub(crate) fn compact(unstored: &mut Unstored<131_072>, count: u32)
    ensures kept { (schema : SchemaValue) → KeepsUnstored schema unstored.old unstored.new }
    ensures emptied { AreSparseEmptied count unstored.old.chains unstored.new.chains }
{
    what_a_call_leaves_of_the_room();
    what_calls_leave_of_the_cache();
    let mut left = count;
    while left > 0 {
        if !unstored.compact_one() {
            return;
        }
        left -= 1;
    }
}
