// The stream of what a memtable has of a partition.
ghost use Rattle.std.specs.Prelude.{◌≡◌};
ghost use Rattle.rc_snapshots.specs.Streams.{IsNewStream};

use rc_chain::{Chains, Snap};
use rc_mutation::{Frag, Head};
use rc_outside::Store;
use rc_position::Pos;
use rc_snapshots::laws::a_snapshots_stream_changes_nothing;
use rc_snapshots::{SnapshotStream, snapshot_stream};
use rc_stream::{Frags, StreamErr};
use std::alloc::Global;

/// What a memtable has of a partition, as a stream: that of a snapshot. It is ready over chains in which the snapshot is of a memtable's chain, so it stays so where others fill and evict, which leaves memtables' chains as they are.
pub struct MemtableStream {
    pub(crate) stream: SnapshotStream,
}

impl MemtableStream {
    // The stream of this snapshot, from the beginning of its partition.
    pub(crate) fn new(alloc: Global, snap: Snap) -> Self
        ensures { IsNewStream snap result.stream }
    {
        MemtableStream {
            stream: snapshot_stream(alloc, snap),
        }
    }

    // The snapshot that was read, to be taken back.
    pub(crate) fn into_snap(self) -> Snap
        ensures { result ≡ self.stream.known.snap }
    {
        let MemtableStream { stream } = self;
        let (known, _below, _filler) = stream.finish();
        known.into_snap()
    }
}

impl<const S: usize, W: Store> Frags<Chains<S>, W> for MemtableStream {
    ghost use Rattle.std.specs.Prelude.{◌≡◌, ⊤};
    ghost use Rattle.rc_paging.specs.Memtables.{DidAsOne, IsOfMemtable};

    ghost ready = { λ r m w. IsOfMemtable m r × ⟦<SnapshotStream as Frags<Chains<S>, W>>⟧.ready r.stream m w };

    ghost seen = { λ r m w s. IsOfMemtable m r × ⟦<SnapshotStream as Frags<Chains<S>, W>>⟧.seen r.stream m w s };

    ghost ahead = { λ _ _. ⊤ };

    ghost moves = { λ m w n v. (n ≡ m) × (v ≡ w) };

    ghost did = { λ r m w _ _ t n v. (n ≡ m) × (v ≡ w) × DidAsOne r t };

    ghost fresh = { λ _. ⊥ };

    ghost might = { λ _ _. ⊥ };

    ghost damage = { λ _ _ _. ⊥ };

    fn head(
        &mut self,
        alloc: Global,
        home: &mut Chains<S>,
        store: &mut W,
    ) -> Result<Head, StreamErr> {
        a_snapshots_stream_changes_nothing::<S, W>();
        self.stream.head(alloc, home, store)
    }

    fn seek(
        &mut self,
        alloc: Global,
        home: &mut Chains<S>,
        store: &mut W,
        to: &Pos,
    ) -> Result<(), StreamErr> {
        a_snapshots_stream_changes_nothing::<S, W>();
        self.stream.seek(alloc, home, store, to)
    }

    fn next(
        &mut self,
        alloc: Global,
        home: &mut Chains<S>,
        store: &mut W,
        upto: &Pos,
    ) -> Result<Option<Frag>, StreamErr> {
        a_snapshots_stream_changes_nothing::<S, W>();
        self.stream.next(alloc, home, store, upto)
    }
}
