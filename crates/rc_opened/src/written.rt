// The stream of what is written of a partition, where something is.
ghost use Rattle.std.specs.Prelude.{◌≡◌};
ghost use Rattle.rc_opened.specs.Written.{IsNewWritten, snap_in};

use rc_cell::Row;
use rc_chain::{Chains, Snap};
use rc_mutation::{Frag, Head};
use rc_outside::Store;
use rc_position::Pos;
use rc_snapshots::laws::a_snapshots_stream_changes_nothing;
use rc_snapshots::{SnapshotStream, snapshot_stream};
use rc_stream::{Frags, StreamErr};
use std::alloc::Global;

/// What a memtable has of a partition, as a stream: that of a snapshot, and nothing where no write names the partition.
pub struct Written {
    pub(crate) stream: Option<SnapshotStream>,
}

impl Written {
    /// The stream of this snapshot, from the beginning of its partition; where there is none, of nothing.
    pub fn new(alloc: Global, snap: Option<Snap>) -> Self
        ensures { IsNewWritten snap result }
    {
        Written {
            stream: match snap {
                None => None,
                Some(snap) => Some(snapshot_stream(alloc, snap)),
            },
        }
    }

    /// The snapshot that was read, to be taken back; none where nothing was written.
    pub fn into_snap(self) -> Option<Snap>
        ensures { result ≡ snap_in self.stream }
    {
        let Written { stream } = self;
        match stream {
            None => None,
            Some(stream) => {
                let (known, _below, _filler) = stream.finish();
                Some(known.into_snap())
            }
        }
    }
}

impl<const S: usize, W: Store> Frags<Chains<S>, W> for Written {
    ghost use Rattle.std.specs.Prelude.{◌≡◌, ⊤, IfSome, MatchOption, Option, None};
    ghost use Rattle.rc_opened.specs.Written.{DidAs, nothing_said};

    ghost ready = { λ r m w. IfSome r.stream (λ t. ⟦<SnapshotStream as Frags<Chains<S>, W>>⟧.ready t m w) };

    ghost seen = { λ r m w s. MatchOption r.stream (s ≡ nothing_said) (λ t. ⟦<SnapshotStream as Frags<Chains<S>, W>>⟧.seen t m w s) };

    ghost ahead = { λ _ _. ⊤ };

    ghost moves = { λ m w n v. (n ≡ m) × (v ≡ w) };

    ghost did = { λ r m w _ _ t n v. (n ≡ m) × (v ≡ w) × DidAs r t };

    ghost fresh = { λ _. ⊥ };

    ghost might = { λ _ _. ⊥ };

    ghost damage = { λ _ _ _. ⊥ };

    fn head(
        &mut self,
        alloc: Global,
        home: &mut Chains<S>,
        store: &mut W,
    ) -> Result<Head, StreamErr> {
        a_snapshots_stream_changes_nothing::<S, W>();
        match &mut self.stream {
            None => Ok(Head {
                pt: None,
                statics: Row::empty(alloc),
            }),
            Some(stream) => stream.head(alloc, home, store),
        }
    }

    fn seek(
        &mut self,
        alloc: Global,
        home: &mut Chains<S>,
        store: &mut W,
        to: &Pos,
    ) -> Result<(), StreamErr> {
        a_snapshots_stream_changes_nothing::<S, W>();
        match &mut self.stream {
            None => Ok(()),
            Some(stream) => stream.seek(alloc, home, store, to),
        }
    }

    fn next(
        &mut self,
        alloc: Global,
        home: &mut Chains<S>,
        store: &mut W,
        upto: &Pos,
    ) -> Result<Option<Frag>, StreamErr> {
        a_snapshots_stream_changes_nothing::<S, W>();
        match &mut self.stream {
            None => Ok(None),
            Some(stream) => stream.next(alloc, home, store, upto),
        }
    }
}
