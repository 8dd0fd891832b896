//! The stream of a snapshot of a cache chain.
ghost use Rattle.std.specs.Prelude.{◌≡◌, []};
ghost use Rattle.rc_cached.specs.Streams.{IsNewCached};

use crate::fillers::StreamFiller;
use crate::underlying::Underlying;
use rc_cacheread::CacheReader;
use rc_chain::Snap;
use rc_cursor::SnapshotReader;
use rc_position::{Key, Pos, Slice, Weight};
use std::alloc::Global;

/// A partition that is in the row cache, as a stream: what a snapshot of its chain knows, and over the rest what was read of its tables, from which the snapshot is filled.
pub type CachedStream = CacheReader<SnapshotReader, Underlying, StreamFiller>;

// A position of no components.
fn bare(alloc: Global, weight: Weight) -> Pos
    ensures { result ≡ record { prefix = []; weight = weight } }
{
    Pos {
        prefix: Key::empty(alloc),
        weight,
    }
}

/// The stream of a cache chain's snapshot, over the whole partition and from its beginning. It takes no memory, and nothing was handed to it yet of what its tables say.
pub fn cached_stream(alloc: Global, snap: Snap) -> CachedStream
    ensures { IsNewCached snap result }
{
    let filler = StreamFiller::of(&snap);
    let known = SnapshotReader::new(snap, bare(alloc, Weight::Before));
    let whole = Slice {
        from: bare(alloc, Weight::Before),
        to: bare(alloc, Weight::After),
    };
    CacheReader::new(known, Underlying { list: None }, filler, whole)
}
