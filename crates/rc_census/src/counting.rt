//! What the row cache has of partitions, counted.
ghost use Rattle.std.specs.Prelude.{◌≡◌, ◌+◌, ◌^◌, ◌<◌, sum_by};
ghost use Rattle.rc_memory.specs.Changes.{OfVersion};
ghost use Rattle.rc_memory.specs.Kept.{present};
ghost use Rattle.rc_memory.specs.Memory.{HasChain, HasVersion, KeptChain, chain_at};
ghost use Rattle.rc_memory.specs.Room.{chain_objects};
ghost use Rattle.rc_census.specs.Census.{census_of, chain_dummies, chain_rows, dummy_count, is_in_cache, row_count};
ghost use Rattle.rc_census.specs.calls.Weights.{dummies_added, partitions_added, rows_added};

use crate::figures::Census;
use crate::sorts::{Sorts, both, sorts_of};
use rc_chain::{ChainKind, Chains};

// A number of 64 bits. It does nothing.
fn in_range(_count: u64)
    ensures { _count < 2 ^ 64 }
{}

// All chains together have fewer than 2^64 objects. It does nothing.
fn few_objects<const S: usize>(chains: &Chains<S>)
    ensures { sum_by chain_objects (present chains.now.chains) < 2 ^ 64 }
{
    chains.known();
    in_range(chains.region().objects());
}

// The entries of a version of a chain by their sort.
fn sorts_of_version<const S: usize>(chains: &Chains<S>, id: u64, number: u64) -> Sorts
    requires { HasVersion chains.now id number }
    ensures rows { OfVersion chains.now id number (λ k v. result.rows ≡ row_count v.entries) }
    ensures dummies { OfVersion chains.now id number (λ k v. result.dummies ≡ dummy_count v.entries) }
{
    chains.versions_stand();
    sorts_of(chains.region(), chains.version(id, number))
}

// The entries of all versions of a chain by their sort.
fn sorts_of_chain<const S: usize>(chains: &Chains<S>, id: u64) -> Sorts
    requires { HasChain chains.now id }
    ensures rows { (k : KeptChain) → chain_at chains.now id ≡ Some k → result.rows ≡ chain_rows k }
    ensures dummies { (k : KeptChain) → chain_at chains.now id ≡ Some k → result.dummies ≡ chain_dummies k }
{
    few_objects(chains);
    let mut sorts = Sorts {
        rows: 0,
        dummies: 0,
    };
    for number in 0..chains.versions(id) {
        sorts = both(sorts, sorts_of_version(chains, id, number));
    }
    sorts
}

// Whether a chain is one of the cache that is found by its key.
fn is_in_cache<const S: usize>(chains: &Chains<S>, id: u64) -> bool
    requires { HasChain chains.now id }
    ensures { (k : KeptChain) → chain_at chains.now id ≡ Some k → result ≡ is_in_cache k }
{
    match chains.kind(id) {
        ChainKind::Memtable => false,
        ChainKind::Cache => chains.is_attached(id),
    }
}

// A census with what a chain adds to it.
fn with_chain<const S: usize>(chains: &Chains<S>, census: Census, id: u64) -> Census
    requires there { HasChain chains.now id }
    requires partitions { (k : KeptChain) → chain_at chains.now id ≡ Some k → census.partitions + partitions_added k < 2 ^ 64 }
    requires rows { (k : KeptChain) → chain_at chains.now id ≡ Some k → census.rows + rows_added k < 2 ^ 64 }
    requires dummies { (k : KeptChain) → chain_at chains.now id ≡ Some k → census.dummies + dummies_added k < 2 ^ 64 }
    ensures partitions { (k : KeptChain) → chain_at chains.now id ≡ Some k → result.partitions ≡ census.partitions + partitions_added k }
    ensures rows { (k : KeptChain) → chain_at chains.now id ≡ Some k → result.rows ≡ census.rows + rows_added k }
    ensures dummies { (k : KeptChain) → chain_at chains.now id ≡ Some k → result.dummies ≡ census.dummies + dummies_added k }
{
    if !is_in_cache(chains, id) {
        return census;
    }
    let sorts = sorts_of_chain(chains, id);
    Census {
        partitions: census.partitions + 1,
        rows: census.rows + sorts.rows,
        dummies: census.dummies + sorts.dummies,
    }
}

/// Counts how much of partitions the row cache has: its chains that are found by their keys, and over all their versions the entries with a row and those without one. Chains of memtables do not count, nor those that are no longer found by their keys. It takes no memory, and nothing is changed.
pub fn census<const S: usize>(chains: &Chains<S>) -> Census
    ensures { result ≡ census_of chains.now }
{
    chains.known();
    few_objects(chains);
    let mut census = Census {
        partitions: 0,
        rows: 0,
        dummies: 0,
    };
    let mut after = None;
    while let Some(id) = chains.next_chain(after) {
        census = with_chain(chains, census, id);
        after = Some(id);
    }
    census
}
