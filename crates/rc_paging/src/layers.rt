// What an open reader reads.
ghost use Rattle.std.specs.Prelude.{◌≡◌, None, Some};
ghost use Rattle.rc_paging.specs.calls.Layers.{AreMemtableLayers, IsNewMemtableLayer, IsNewCacheLayer, held_in, memtable_snap_in, none_held, cache_snap_in};

use crate::memtables::MemtableStream;
use crate::optional::Optional;
use rc_cached::{CachedStream, cached_stream};
use rc_chain::Snap;
use rc_snapshots::Snaps;
use rc_stream::Merge;
use std::alloc::Global;

/// What an open reader reads: what is sealed of its partition, then what is written of it since, and then what the row cache has of it. The cache stands last, so it is asked no further than what is given.
pub type Layers = Merge<
    Merge<Optional<MemtableStream>, Optional<MemtableStream>>,
    Optional<CachedStream>,
>;

/// The snapshots of an open reader: one of its partition's chain in the row cache, where some table lists the partition; and of what stands in no table.
pub struct HeldSnaps {
    /// Of the chain in the row cache.
    pub cached: Option<Snap>,
    /// Of the writes that stand in no table.
    pub written: Snaps,
}

// What a memtable has of a partition, where this is the snapshot of it, from the beginning of the partition.
fn memtable_stream(alloc: Global, snap: Option<Snap>) -> Optional<MemtableStream>
    ensures { IsNewMemtableLayer snap result.stream }
{
    Optional {
        stream: match snap {
            None => None,
            Some(snap) => Some(MemtableStream::new(alloc, snap)),
        },
    }
}

// What the row cache has of a partition, where this is the snapshot of it, from the beginning of the partition.
pub(crate) fn cache_stream(alloc: Global, snap: Option<Snap>) -> Optional<CachedStream>
    ensures { IsNewCacheLayer snap result.stream }
{
    Optional {
        stream: match snap {
            None => None,
            Some(snap) => Some(cached_stream(alloc, snap)),
        },
    }
}

// What a reader of these snapshots of memtables reads, from the beginning of its partition.
pub(crate) fn memtable_layers(
    alloc: Global,
    written: Snaps,
) -> Merge<Optional<MemtableStream>, Optional<MemtableStream>>
    ensures { AreMemtableLayers written result }
{
    let Snaps { sealed, active } = written;
    Merge::new(
        memtable_stream(alloc, sealed),
        memtable_stream(alloc, active),
    )
}

// The snapshot of what was read of a memtable.
fn memtable_snap(read: Optional<MemtableStream>) -> Option<Snap>
    ensures { result ≡ memtable_snap_in read.stream }
{
    let Optional { stream } = read;
    match stream {
        None => None,
        Some(stream) => Some(stream.into_snap()),
    }
}

// The snapshot of what was read of the row cache. What was handed in of the tables is let go.
fn cache_snap(read: Optional<CachedStream>) -> Option<Snap>
    ensures { result ≡ cache_snap_in read.stream }
{
    let Optional { stream } = read;
    match stream {
        None => None,
        Some(stream) => {
            let (known, _below, _filler) = stream.finish();
            Some(known.into_snap())
        }
    }
}

// The snapshots of what was read.
pub(crate) fn given_back(layers: Layers) -> HeldSnaps
    ensures { result ≡ held_in layers }
{
    let (both, cached) = layers.into_parts();
    let (sealed, active) = both.into_parts();
    HeldSnaps {
        cached: cache_snap(cached),
        written: Snaps {
            sealed: memtable_snap(sealed),
            active: memtable_snap(active),
        },
    }
}

// Takes out snapshots, in whose place are none then.
pub(crate) fn take_out(place: &mut HeldSnaps) -> HeldSnaps
    ensures taken { result ≡ place.old }
    ensures left { place.new ≡ none_held }
{
    std::mem::replace(
        place,
        HeldSnaps {
            cached: None,
            written: Snaps {
                sealed: None,
                active: None,
            },
        },
    )
}

// Puts snapshots back where there are none.
pub(crate) fn put_back(place: &mut HeldSnaps, held: HeldSnaps)
    requires { place.old ≡ none_held }
    ensures { place.new ≡ held }
{
    let HeldSnaps { cached, written } = std::mem::replace(place, held);
    let Snaps { sealed, active } = written;
    none_there(cached);
    none_there(sealed);
    none_there(active);
}

// There is no snapshot, which is let go.
pub(crate) fn none_there(snap: Option<Snap>)
    requires { snap ≡ None }
{
    match snap {
        None => {}
        Some(_) => unreachable!(),
    }
}
