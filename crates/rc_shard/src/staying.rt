//! What is left to an open reader while other calls change the chains.
ghost use Rattle.rc_shard.specs.calls.Staying.{Staying};

use rc_chain::Chains;
use rc_lookup::row_cache_laws::a_snapshot_stands_for_what_lies_below;
use rc_paging::laws::{what_is_left_stays, what_is_left_to_a_reader_stays};
use rc_paging::{LeavesOver, PartReader};

// Whatever calls change of the chains, the same is left to an open reader where its snapshots are there, those of what is written see what they saw, and the row cache says what lies below it.
pub(crate) fn a_reader_stays()
    ensures { Staying ⟦<PartReader as LeavesOver<Chains<131_072>>>⟧.lines }
{
    a_snapshot_stands_for_what_lies_below();
    what_is_left_stays();
    what_is_left_to_a_reader_stays::<131_072>();
}
