//! The stream of a snapshot.
ghost use Rattle.std.specs.Prelude.{◌≡◌, []};
ghost use Rattle.rc_snapshots.specs.Streams.{IsNewStream};

use crate::fillers::NoFiller;
use rc_cacheread::CacheReader;
use rc_cursor::{Snap, SnapshotReader};
use rc_mutation::FragList;
use rc_position::{Key, Pos, Slice, Weight};
use rc_stream::ListFrags;
use std::alloc::Global;

/// A snapshot of which all is known, as a stream: over nothing, since nothing is asked for below it, and with nothing to fill.
pub type SnapshotStream = CacheReader<SnapshotReader, ListFrags, NoFiller>;

// A position of no components.
fn bare(alloc: Global, weight: Weight) -> Pos
    ensures { result ≡ record { prefix = []; weight = weight } }
{
    Pos {
        prefix: Key::empty(alloc),
        weight,
    }
}

/// The stream of a memtable's snapshot, over the whole partition and from its beginning. It takes no memory.
pub fn snapshot_stream(alloc: Global, snap: Snap) -> SnapshotStream
    ensures { IsNewStream snap result }
{
    let filler = NoFiller::of(&snap);
    let known = SnapshotReader::new(snap, bare(alloc, Weight::Before));
    let below = ListFrags::new(FragList::empty(alloc));
    let whole = Slice {
        from: bare(alloc, Weight::Before),
        to: bare(alloc, Weight::After),
    };
    CacheReader::new(known, below, filler, whole)
}
