//! The row cache gives up what it is told to.
ghost use Rattle.rc_shard.specs.Evicting.{AreFirstEvicted};
ghost use Rattle.rc_shard.specs.calls.Storing.{KeepsUnstored};
ghost use Rattle.rc_schema.specs.SchemaValue.{SchemaValue};

use crate::leaving::what_calls_leave_of_the_cache;
use rc_lookup::Unstored;
use rc_lookup::evict_laws::evictions_follow_one_another;

// Evicts the least recently used objects of the row cache, one after another: so many, or all where these are fewer.
pub(crate) fn evict(unstored: &mut Unstored<131_072>, count: u32)
    ensures kept { (schema : SchemaValue) → KeepsUnstored schema unstored.old unstored.new }
    ensures evicted { AreFirstEvicted count unstored.old.chains unstored.new.chains }
{
    evictions_follow_one_another();
    what_calls_leave_of_the_cache();
    let mut left = count;
    while left > 0 {
        unstored.chains.known();
        if !unstored.evict_one() {
            return;
        }
        left -= 1;
    }
}
