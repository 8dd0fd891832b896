//! Partitions that were written leave the row cache.
ghost use Rattle.std.specs.Prelude.{◌≡◌, ◌∷◌, []};
ghost use Rattle.rc_shard.specs.calls.Caching.{Forgets, HasCache};
ghost use Rattle.rc_shard.specs.calls.Storing.{KeepsWritten};

use crate::releasing::calls_leave_the_snapshots_of_the_cache;
use rc_lookup::entries_laws::each_key_is_found;
use rc_lookup::footprint::{
    chains_of_the_cache_stay_in_use, each_chain_of_the_cache_has_one_version,
    what_calls_leave_of_memtables, what_is_let_go_counts_nothing,
};
use rc_lookup::row_cache_laws::the_cache_says_what_lies_below;
use rc_lookup::unstored_laws::what_leaves_the_chains_of_both_leaves_their_writes;
use rc_lookup::{RowCache, Unstored};
use rc_mutation::Partition;

// A partition that was written leaves the row cache, where it is in it.
fn forget_one(cache: &mut RowCache, unstored: &mut Unstored<131_072>, part: &Partition)
    requires { HasCache cache.old.entries unstored.old.chains }
    ensures forgets { Forgets (part.now ∷ []) cache.old.entries cache.new.entries unstored.old.chains unstored.new.chains }
    ensures keeps { KeepsWritten unstored.old unstored.new }
    ensures counts { unstored.new.chains.counts ≡ unstored.old.chains.counts }
{
    calls_leave_the_snapshots_of_the_cache();
    chains_of_the_cache_stay_in_use();
    each_chain_of_the_cache_has_one_version();
    each_key_is_found();
    the_cache_says_what_lies_below();
    what_calls_leave_of_memtables();
    what_is_let_go_counts_nothing();
    what_leaves_the_chains_of_both_leaves_their_writes();
    unstored.chains.known();
    cache.forget(&mut unstored.chains, &part.key);
}

// Partitions that were written leave the row cache, those that are in it.
pub(crate) fn forget_all(
    cache: &mut RowCache,
    unstored: &mut Unstored<131_072>,
    parts: &[Partition],
)
    requires { HasCache cache.old.entries unstored.old.chains }
    ensures forgets { Forgets parts.now cache.old.entries cache.new.entries unstored.old.chains unstored.new.chains }
    ensures keeps { KeepsWritten unstored.old unstored.new }
    ensures counts { unstored.new.chains.counts ≡ unstored.old.chains.counts }
{
    let mut left = parts;
    while let [part, rest @ ..] = left {
        forget_one(cache, unstored, part);
        left = rest;
    }
}
