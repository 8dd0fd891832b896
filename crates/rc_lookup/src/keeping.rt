//! The rows that a reader gives become the most recent of the cache.
ghost use Rattle.std.specs.Prelude.{◌≡◌, ◌∷◌, ℕ, [], List, None, Some, false, true};
ghost use Rattle.rc_memory.specs.Changes.{member_at};
ghost use Rattle.rc_memory.specs.Memory.{HasChain, HasVersion, chain_at};
ghost use Rattle.rc_position.specs.Position.{row_pos};
ghost use Rattle.rc_schema.specs.SchemaValue.{SchemaValue};
ghost use Rattle.rc_row_cache.specs.Entries.{AreEntries};
ghost use Rattle.rc_row_cache.specs.Found.{entry_number};
ghost use Rattle.rc_row_cache.specs.Footprint.{AreInUse};
ghost use Rattle.rc_row_cache.specs.Saying.{Below, CacheSays};
ghost use Rattle.rc_lookup.specs.Rest.{LeavesRest};
ghost use Rattle.rc_lookup.specs.Touched.{AreTouched, IsEntryOfGiven, IsEntryOfRow, IsLineOf};

use crate::touching::touch_listed;
use rc_chain::Chains;
use rc_position::{Key, PartKey};
use rc_query::OutLine;
use rc_row_cache::RowCache;
use rc_version::entry_at_key;

// Makes the entry of a version at a key the most recent object, if it is in the recency list.
fn touch_entry<const S: usize>(chains: &mut Chains<S>, id: u64, number: u64, key: &Key)
    requires { HasVersion chains.old id number }
    ensures { AreTouched (λ w. w ≡ member_at id number (Some (row_pos key.now))) chains.old chains.new }
{
    chains.known();
    chains.places_stand();
    let v = chains.version(id, number);
    if let Some(e) = entry_at_key(chains.region(), v, key) {
        touch_listed(chains, e);
    }
}

// Makes the entries of a chain at a key the most recent objects, version by version.
fn touch_row<const S: usize>(chains: &mut Chains<S>, id: u64, key: &Key)
    requires { HasChain chains.old id }
    ensures { AreTouched (IsEntryOfRow id key.now) chains.old chains.new }
{
    chains.known();
    for number in 0..chains.versions(id) {
        touch_entry(chains, id, number, key);
    }
}

// Makes the entries of a chain at the key of a line the most recent objects; a static line has none.
fn touch_line<const S: usize>(chains: &mut Chains<S>, id: u64, line: &OutLine)
    requires { HasChain chains.old id }
    ensures { AreTouched (IsLineOf id (line.now ∷ [])) chains.old chains.new }
{
    match line {
        OutLine::Static(_) => {}
        OutLine::Row(key, _) => touch_row(chains, id, key),
    }
}

// Makes the entries of a chain at the keys of lines the most recent objects, line by line.
fn touch_lines<const S: usize>(chains: &mut Chains<S>, id: u64, lines: &[OutLine])
    requires { HasChain chains.old id }
    ensures { AreTouched (IsLineOf id lines.now) chains.old chains.new }
{
    let mut left = lines;
    while let Some((line, rest)) = left.split_first() {
        touch_line(chains, id, line);
        left = rest;
    }
}

// Whether a chain is there.
fn is_there<const S: usize>(chains: &Chains<S>, id: u64) -> bool
    ensures there { result ≡ true → HasChain chains.now id }
    ensures gone { result ≡ false → chain_at chains.now id ≡ None }
{
    match chains.next_chain(id.checked_sub(1)) {
        Some(next) => next == id,
        None => false,
    }
}

/// Makes the entries of the rows that were given the most recent objects of the cache, those of a partition, where it is in the cache: they stand behind all others, which stay in their order. Nothing else changes, and no memory is asked for.
pub fn keep_recent<const S: usize>(
    cache: &RowCache,
    chains: &mut Chains<S>,
    key: &PartKey,
    lines: &[OutLine],
)
    ensures touched { AreTouched (IsEntryOfGiven (entry_number cache.now.entries key.now) lines.now) chains.old chains.new }
    ensures rest { LeavesRest chains.old chains.new }
    ensures used { AreInUse chains.old → AreInUse chains.new }
    ensures says { (schema : SchemaValue) (below : Below) → CacheSays schema below chains.old → CacheSays schema below chains.new }
    ensures entries { (entries : List (List ℕ × ℕ)) → AreEntries entries chains.old → AreEntries entries chains.new }
{
    chains.known();
    match cache.entries.find(key) {
        None => {}
        Some(id) => {
            if is_there(chains, id) {
                touch_lines(chains, id, lines);
            }
        }
    }
}
